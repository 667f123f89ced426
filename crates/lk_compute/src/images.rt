//! What is merged of a link, with the lengths of images.

ghost use Rattle.std.specs.Prelude.{◌≤◌};
ghost use Rattle.lk_link.specs.WellFormed.{IsWellFormed};
ghost use Rattle.lk_compute.specs.MergingWords.{GivesImages};

use lk_layout::LayoutError;
use lk_link::{Gate, LinkInput};
use lk_merge::{StringMergeInputs, merge_strings, merge_strings_alone};
use lk_resolutions::images::{Images, image_lens};
use std::alloc::Global;
use std::sync::Wait;
use std::thread::Threads;

/// Merges what is merged of a link, on the caller's own thread.
pub(crate) fn merge_images<'data>(
    alloc: Global,
    link: &'data LinkInput,
) -> Result<Images<'data>, LayoutError>
    requires { IsWellFormed link.now }
    ensures { GivesImages link.now result }
{
    let inputs = StringMergeInputs::new(alloc, link)?;
    let sections = merge_strings_alone(alloc, &inputs)?;
    let lens = image_lens(alloc, sections.as_slice())?;
    Ok(Images { sections, lens })
}

/// The same by so many workers. With 0 or 1 of them it never calls the gate.
pub(crate) fn merge_images_by_workers<'data, R: Threads + Wait + Sync, G: Gate + Sync>(
    rt: &R,
    alloc: Global,
    link: &'data LinkInput,
    workers: u32,
    gate: &G,
) -> Result<Images<'data>, LayoutError>
    requires good { IsWellFormed link.now }
    requires gate { 2 ≤ workers → G.may_enter gate.now }
    ensures { GivesImages link.now result }
{
    let inputs = StringMergeInputs::new(alloc, link)?;
    let sections = merge_strings(rt, alloc, &inputs, workers, gate)?;
    let lens = image_lens(alloc, sections.as_slice())?;
    Ok(Images { sections, lens })
}
