//! Workers, which merge the inputs of an output section by a matrix.

ghost use Rattle.std.specs.Prelude.{◌≡◌, ◌≢◌, ◌<◌, ◌≤◌, ◌%◌, ◌^◌, IfOk};
ghost use Rattle.std.specs.List.{list_all};
ghost use Rattle.lk_merge.specs.Hash.{fnv64};
ghost use Rattle.lk_merge.specs.Inputs.{located};
ghost use Rattle.lk_merge.specs.MatrixWork.{IsWork};
ghost use Rattle.lk_merge.specs.Merging.{GivesMerged};
ghost use Rattle.lk_merge.specs.MergingTables.{HasMerged};
ghost use Rattle.lk_merge.specs.Pieces.{is_terminated};

use crate::error::MergeError;
use crate::groups::{SectionGroup, split_sections};
use crate::inputs::StringMergeInputSections;
use crate::matrix_work::Brings;
use crate::merging::{Merging, first_unterminated, merge_section};
use crate::section::MergedStringsSection;
use crate::shared_matrix::{Matrix, Turn};
use lk_link::{Gate, OutputSectionId};
use std::alloc::{AllocError, Global};
use std::marker::Brand;
use std::sync::Wait;
use std::thread::{Threads, map_vec};

/// Does what there is to do until nothing is left and no other worker does anything.
fn work<J: Brings, R: Wait, G: Gate>(matrix: &Matrix<'_, '_, J>, rt: &R, alloc: Global, gate: &G)
    requires { G.may_enter gate.now }
{
    for _ in rt.forever() {
        match matrix.next(rt) {
            Some(Turn::Group(group)) => matrix.fill_group(rt, alloc, gate, group),
            Some(Turn::Bucket(bucket)) => matrix.run_bucket(rt, bucket),
            None => return,
        }
        matrix.finish(rt);
    }
}

/// Fills and empties a matrix by so many workers, and waits for them. One alone works on the caller's own thread.
fn run_all<J: Brings + Send + Sync, R: Threads + Wait + Sync, G: Gate + Sync>(
    matrix: &Matrix<'_, '_, J>,
    rt: &R,
    alloc: Global,
    workers: usize,
    gate: &G,
) -> Result<(), AllocError>
    requires { G.may_enter gate.now }
{
    if workers == 1 {
        work(matrix, rt, alloc, gate);
        return Ok(());
    }
    let mut jobs = Vec::with_capacity(alloc, workers)?;
    for _ in 0..workers {
        jobs.push(alloc)?;
    }
    map_vec(
        rt,
        jobs,
        &|alloc: Global| -> ()
            requires { G.may_enter gate.now }
        { work(matrix, rt, alloc, gate) },
    )?;
    Ok(())
}

/// What workers make of the pieces of an output section in these groups.
fn merge_groups<'data, J: Brings + Send + Sync, R: Threads + Wait + Sync, G: Gate + Sync>(
    rt: &R,
    alloc: Global,
    inputs: &StringMergeInputSections<'data>,
    groups: &[SectionGroup],
    section: OutputSectionId,
    limit: u64,
    workers: usize,
    gate: &G,
) -> Result<Merging<'data>, AllocError>
    requires work { IsWork J.work }
    requires section { section ≡ J.work.section }
    requires limit { limit ≡ J.work.limit }
    requires inputs { inputs.now ≡ J.work.inputs }
    requires groups { groups.now ≡ J.work.groups }
    requires gate { G.may_enter gate.now }
    ensures { IfOk result (HasMerged section limit (located inputs.now)) }
{
    let matrix = Matrix::<J>::new(alloc, inputs, groups, section, limit)?;
    run_all(&matrix, rt, alloc, workers, gate)?;
    matrix.close(alloc)
}

/// Merges the inputs of an output section by so many workers, but at most one for each group of about `size` bytes, after a look at each
/// input: that its strings end in a zero byte. The gate is entered before each cell is filled. A worker that finds no memory gives up what
/// it was about to do, and goes on; where a bucket then hasn't taken all groups and hasn't stopped, memory ran out.
pub(crate) fn merge_section_by_workers<'data, R: Threads + Wait + Sync, G: Gate + Sync>(
    rt: &R,
    alloc: Global,
    inputs: &StringMergeInputSections<'data>,
    section: OutputSectionId,
    limit: u64,
    size: u64,
    workers: usize,
    gate: &G,
) -> Result<MergedStringsSection<'data>, MergeError>
    requires limited { limit ≤ 2 ^ 28 }
    requires positive { 0 < size }
    requires blocks { size % 256 ≡ 0 }
    requires gate { G.may_enter gate.now }
    ensures { GivesMerged fnv64 section limit inputs.now result }
{
    if let Some(input) = first_unterminated(inputs.as_slice()) {
        let input = input as u32;
        return Err(MergeError::NotTerminated { section, input });
    }
    let groups = split_sections(alloc, inputs, size)?;
    let groups = groups.as_slice();
    if groups.is_empty() {
        return merge_section(alloc, inputs, section, limit);
    }
    let workers = workers.min(groups.len());
    let merging = merge_groups::<Brand, R, G>(
        rt, alloc, inputs, groups, section, limit, workers, gate,
    )?;
    merging.finish(alloc, inputs.clone(alloc)?)
}
