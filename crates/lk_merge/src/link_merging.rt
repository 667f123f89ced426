//! The merging of all output sections of a link.

ghost use Rattle.std.specs.Prelude.{◌≤◌};
ghost use Rattle.lk_merge.specs.Hash.{fnv64};
ghost use Rattle.lk_merge.specs.LinkInputs.{GivesAllMerged};

use crate::error::MergeError;
use crate::link_inputs::StringMergeInputs;
use crate::merging::merge_section;
use crate::section::MergedStringsSection;
use crate::workers::merge_section_by_workers;
use lk_link::{Gate, List, OutputSectionId};
use std::alloc::Global;
use std::sync::Wait;
use std::thread::Threads;

/// Merges what is merged of a link, on the caller's own thread: the merged sections by output section. Refused in the first
/// output section in which an input isn't terminated, or else a piece is too long for its bucket: the first such input, else
/// the first such piece of the least bucket (libwild: `merge_strings`).
pub fn merge_strings_alone<'data>(
    alloc: Global,
    inputs: &StringMergeInputs<'data>,
) -> Result<List<MergedStringsSection<'data>>, MergeError>
    ensures { GivesAllMerged fnv64 inputs.now result }
{
    let outputs = inputs.outputs();
    let limit = inputs.bucket_limit();
    let mut merged = Vec::with_capacity(alloc, outputs.len())?;
    for (number, sections) in outputs.iter().enumerate() {
        let output = OutputSectionId::from_u32(number as u32);
        merged.push(merge_section(alloc, sections, output, limit)?)?;
    }
    Ok(List::from_vec(merged))
}

/// The same with workers (libwild: `merge_strings`). With 0 or 1 of them it never calls the gate, and asks for no leave to
/// enter it. With more the inputs of an output section are cut into groups, and so many workers merge these, each on a thread of
/// its own; the gate is entered before the strings of a group come to a bucket.
pub fn merge_strings<'data, R: Threads + Wait + Sync, G: Gate + Sync>(
    rt: &R,
    alloc: Global,
    inputs: &StringMergeInputs<'data>,
    workers: u32,
    gate: &G,
) -> Result<List<MergedStringsSection<'data>>, MergeError>
    requires gate { 2 ≤ workers → G.may_enter gate.now }
    ensures { GivesAllMerged fnv64 inputs.now result }
{
    if workers < 2 {
        return merge_strings_alone(alloc, inputs);
    }
    merge_by_workers(rt, alloc, inputs, workers as usize, gate)
}

/// Merges what is merged of a link, output section by output section, each by so many workers.
fn merge_by_workers<'data, R: Threads + Wait + Sync, G: Gate + Sync>(
    rt: &R,
    alloc: Global,
    inputs: &StringMergeInputs<'data>,
    workers: usize,
    gate: &G,
) -> Result<List<MergedStringsSection<'data>>, MergeError>
    requires { G.may_enter gate.now }
    ensures { GivesAllMerged fnv64 inputs.now result }
{
    let outputs = inputs.outputs();
    let limit = inputs.bucket_limit();
    let size = inputs.group_size();
    let mut merged = Vec::with_capacity(alloc, outputs.len())?;
    for (number, sections) in outputs.iter().enumerate() {
        let output = OutputSectionId::from_u32(number as u32);
        let section = merge_section_by_workers(
            rt, alloc, sections, output, limit, size, workers, gate,
        )?;
        merged.push(section)?;
    }
    Ok(List::from_vec(merged))
}
