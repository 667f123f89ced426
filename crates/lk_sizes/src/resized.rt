//! What was found, where input sections have other sizes, none of them greater: each part loses what its live sections lose.

ghost use Rattle.std.specs.Prelude.{◌≡◌, ◌<◌, ◌^◌, ℕ, All, IfOk, Some, length, slice_get};
ghost use Rattle.lk_link.specs.Parts.{all_parts};
ghost use Rattle.lk_link.specs.WellFormed.{IsWellFormed};
ghost use Rattle.lk_sizes.specs.Resized.{Fall, less_bytes, resized_sections, resized_section};
ghost use Rattle.lk_sizes.specs.Tables.{AreSortedThere, IsSortedThere};
ghost use Rattle.lk_sizes.specs.declared.sorted.InputSortedSection.{InputSortedSection};

use crate::owners::{PartContents, PartTotal, len_at};
use crate::sorted::{InputSortedSection, number_of};
use lk_link::{LinkInput, List, Section};
use std::alloc::{AllocError, Global};

/// The bytes of each part are below 2^64.
pub(crate) fn contents_fit(contents: &[PartContents])
    ensures { All (λ c. c.bytes < 2 ^ 64) contents.now }
{
    for part in contents {
        // Reading the bytes tells that.
        let _bytes = bytes_of(part);
    }
}

/// The bytes of a part.
fn bytes_of(part: &PartContents) -> u64
    ensures bytes { result ≡ part.now.bytes }
    ensures small { part.now.bytes < 2 ^ 64 }
{
    part.bytes
}

/// What comes into each part, less what its live sections lose, by what they brought before and what they bring now.
pub(crate) fn less_bytes(
    alloc: Global,
    contents: &[PartContents],
    before: &[PartTotal],
    after: &[PartTotal],
) -> Result<List<PartContents>, AllocError>
    requires { Fall contents.now before.now after.now }
    ensures { IfOk result (λ less. less ≡ less_bytes before.now after.now contents.now) }
{
    let mut less = Vec::with_capacity(alloc, contents.len())?;
    for (number, part) in contents.iter().enumerate() {
        let lost = before[number].bytes - after[number].bytes;
        less.push(PartContents {
            bytes: (u128::from(part.bytes) - lost) as u64,
            has_image: part.has_image,
            attrs: part.attrs,
        })?;
    }
    Ok(List::from_vec(less))
}

/// Sorted sections with what they take by these sizes of input sections.
pub(crate) fn resize_sections(
    alloc: Global,
    link: &LinkInput,
    sorted: &[InputSortedSection],
    sizes: &[u64],
) -> Result<List<InputSortedSection>, AllocError>
    requires good { IsWellFormed link.now }
    requires there { AreSortedThere link.now (length (all_parts link.now.plan.sections)) sorted.now }
    requires fit { (k : ℕ) (s : InputSortedSection) → slice_get sorted.now k ≡ Some s → (resized_section link.now sizes.now s).size < 2 ^ 64 }
    ensures { IfOk result (λ resized. resized ≡ resized_sections link.now sizes.now sorted.now) }
{
    let mut resized = Vec::with_capacity(alloc, sorted.len())?;
    for section in sorted {
        resized.push(resize_section(link, section, sizes))?;
    }
    Ok(List::from_vec(resized))
}

/// A sorted section with what it takes by these sizes of input sections.
fn resize_section(
    link: &LinkInput,
    section: &InputSortedSection,
    sizes: &[u64],
) -> InputSortedSection
    requires good { IsWellFormed link.now }
    requires there { IsSortedThere link.now (length (all_parts link.now.plan.sections)) section.now }
    requires fits { (resized_section link.now sizes.now section.now).size < 2 ^ 64 }
    ensures { result ≡ resized_section link.now sizes.now section.now }
{
    let number = number_of(link, section.file_id, section.section_index);
    let size = len_at(sizes, number);
    let part = &link.plan.sections.parts()[section.part_id.as_usize()];
    InputSortedSection {
        size: Section { size }.exact_capacity(part) as u64,
        ..*section
    }
}
