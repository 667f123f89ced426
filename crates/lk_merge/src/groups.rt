//! Groups of inputs, each of which is merged in one go. A group begins and ends at padded offsets, so one may hold many inputs
//! or a part of one; a string belongs to the group in which it starts, and a constant isn't cut.

ghost use Rattle.std.specs.Prelude.{◌≡◌, ◌≢◌, ◌+◌, ◌<◌, ◌%◌, IfOk, map};
ghost use Rattle.lk_merge.specs.Groups.{AreGroups, IsGroupEnd};
ghost use Rattle.lk_merge.specs.GroupTables.{IsInputAt};
ghost use Rattle.lk_merge.specs.Inputs.{AreInputs, input_of, padded_total};

use crate::inputs::{StringMergeInputSection, StringMergeInputSections, total_input_size};
use crate::offset::LinearInputOffset;
use std::alloc::{AllocError, Global};

/// Padded offsets into all inputs of an output section that are merged in one go (libwild: `SectionGroup`).
#[derive(Clone, Copy, Debug, PartialEq, Eq)]
pub struct SectionGroup {
    /// The first offset.
    pub start: LinearInputOffset,
    /// The offset behind the last one.
    pub end: LinearInputOffset,
}

/// Cuts the inputs of an output section into groups of about `size` bytes (libwild: `split_sections`). Takes logarithmic time
/// for each group.
pub fn split_sections(
    alloc: Global,
    sections: &StringMergeInputSections<'_>,
    size: u64,
) -> Result<Vec<SectionGroup>, AllocError>
    requires positive { 0 < size }
    requires blocks { size % 256 ≡ 0 }
    ensures { IfOk result (λ groups. AreGroups sections.now size 0 groups.items) }
{
    let inputs = sections.as_slice();
    let total = total_input_size(sections);
    let mut groups = Vec::new(alloc);
    let mut start = 0;
    while start < total {
        let end = group_end(inputs, total, start, size);
        groups.push(SectionGroup {
            start: LinearInputOffset::from_u64(start),
            end: LinearInputOffset::from_u64(end),
        })?;
        start = end;
    }
    Ok(groups)
}

/// The end of the group that starts at an offset; all inputs end at `total`.
fn group_end(inputs: &[StringMergeInputSection<'_>], total: u64, start: u64, size: u64) -> u64
    requires inputs { AreInputs total inputs.now }
    requires start { start < total }
    requires positive { 0 < size }
    ensures end { IsGroupEnd (map input_of inputs.now) size start result }
    ensures further { start < result }
{
    if size >= total - start {
        return total;
    }
    let at = start + size;
    let input = &inputs[input_at(inputs, total, at)];
    let first = input.start_input_offset.as_u64();
    if input.is_string {
        return at;
    }
    if first < at {
        return first + input.padded_len();
    }
    at
}

/// In which of so many inputs an offset would be if all were equally long and ended at `total`; the second where that is the first, since a
/// search begins between both ends. Any number where the offset is so great that the product passes 2^64 - 1.
fn guess(count: usize, total: u64, at: u64) -> usize
    requires { at < total }
{
    ((at.saturating_mul(count as u64) / total) as usize).max(1)
}

/// A number between two others: this one where it is, else the middle.
fn between(number: usize, low: usize, high: usize) -> usize
    requires { low + 1 < high }
    ensures above { low < result }
    ensures below { result < high }
{
    if low < number && number < high {
        number
    } else {
        low + (high - low) / 2
    }
}

/// The index of the input that an offset is in; all inputs end at `total`. Looks first where it would be if all were equally long, and from
/// there in steps that double. Takes logarithmic time.
pub(crate) fn input_at(inputs: &[StringMergeInputSection<'_>], total: u64, at: u64) -> usize
    requires inputs { AreInputs total inputs.now }
    requires within { at < total }
    ensures { IsInputAt (map input_of inputs.now) at result }
{
    let mut low = 0;
    let mut high = inputs.len();
    let mut next = guess(inputs.len(), total, at);
    let mut step = 1usize;
    while high - low > 1 {
        let middle = between(next, low, high);
        let stride = step;
        step = step.saturating_mul(2);
        if inputs[middle].start_input_offset.as_u64() <= at {
            low = middle;
            next = middle.saturating_add(stride);
        } else {
            high = middle;
            next = middle.saturating_sub(stride);
        }
    }
    low
}
