//! Sorted sections: the live ones stand last in their parts, in the order of their names' bytes, then by file and index.

ghost use Rattle.std.specs.Prelude.{◌≡◌, ◌^◌, ◌<◌, ℕ, IfOk, IsSome, Some, length, map, slice_get, slice_index};
ghost use Rattle.std.specs.Option.{option_map_or};
ghost use Rattle.lk_link.specs.Files.{file_in};
ghost use Rattle.lk_link.specs.Inputs.{Input, all_inputs, input_number};
ghost use Rattle.lk_link.specs.Parts.{all_parts};
ghost use Rattle.lk_link.specs.Walks.{input_of};
ghost use Rattle.lk_link.specs.WellFormed.{IsWellFormed};
ghost use Rattle.lk_live.specs.Reach.{AreLive};
ghost use Rattle.lk_sizes.specs.Harvest.{SortedFit, capacity_by, sorted_section, sorted_sections};
ghost use Rattle.lk_ranks.specs.Ranks.{AreSortedKeys};
ghost use Rattle.lk_sizes.specs.Sorted.{sorted_ones};
ghost use Rattle.lk_sizes.specs.Owners.{own_sizes};
ghost use Rattle.lk_sizes.specs.Tables.{IsInput};

use crate::owners::len_at;
use lk_link::{FileId, InputRef, LinkInput, PartId, Section};
use lk_live::Live;
use lk_ranks::{in_order, sorted_keys};
use std::alloc::{AllocError, Global};

/// A sorted section that is live, in its part (libwild: `InputSortedSection`).
#[derive(Clone, Copy, Debug, PartialEq, Eq)]
pub struct InputSortedSection {
    pub file_id: FileId,
    /// Its index in the file.
    pub section_index: usize,
    pub part_id: PartId,
    /// The bytes that it takes in the part, the padding behind it among them.
    pub size: u64,
    /// That of the part, in bytes.
    pub alignment: u64,
}

/// The sorted sections that are live, in the order in which they stand in their parts: by the bytes of their names, then by file
/// and index. The sizes are those of all input sections, by number; what a sorted one takes with its padding is at most
/// 2^64 - 1. Looks at each input section once, and sorts the names that differ and a number for each sorted section, each in time
/// n log n (libwild: `harvest_and_sort_script_sections`).
pub fn harvest_and_sort_script_sections(
    alloc: Global,
    link: &LinkInput,
    live: &Live,
    sizes: &[u64],
) -> Result<Vec<InputSortedSection>, AllocError>
    requires good { IsWellFormed link.now }
    requires live { AreLive link.now live.now }
    requires fit { SortedFit link.now live.now sizes.now }
    ensures { IfOk result (λ told. told.items ≡ sorted_sections link.now live.now sizes.now) }
{
    tell_sorted(alloc, link, live, Some(sizes))
}

/// Those by these sizes, or by the ones that the description gives.
pub(crate) fn tell_sorted(
    alloc: Global,
    link: &LinkInput,
    live: &Live,
    sizes: Option<&[u64]>,
) -> Result<Vec<InputSortedSection>, AllocError>
    requires good { IsWellFormed link.now }
    requires live { AreLive link.now live.now }
    requires fit { SortedFit link.now live.now (option_map_or (λ s. s.now) sizes (own_sizes link.now)) }
    ensures { IfOk result (λ told. told.items ≡ sorted_sections link.now live.now (option_map_or (λ s. s.now) sizes.entry (own_sizes link.now))) }
{
    let (told, keys) = tell_with_keys(alloc, link, live, sizes)?;
    in_order(alloc, told.as_slice(), keys.as_slice())
}

/// The same by file and index, and the keys of all in the order in which they are to stand.
fn tell_with_keys(
    alloc: Global,
    link: &LinkInput,
    live: &Live,
    sizes: Option<&[u64]>,
) -> Result<(Vec<InputSortedSection>, Vec<u64>), AllocError>
    requires good { IsWellFormed link.now }
    requires live { AreLive link.now live.now }
    requires fit { SortedFit link.now live.now (option_map_or (λ s. s.now) sizes (own_sizes link.now)) }
    ensures told { IfOk result (λ both. both.0.items ≡ map (sorted_section link.now (option_map_or (λ s. s.now) sizes.entry (own_sizes link.now))) (sorted_ones link.now live.now)) }
    ensures keys { IfOk result (λ both. AreSortedKeys (sorted_ones link.now live.now) both.1.items) }
{
    let found = find_sorted(alloc, link, live)?;
    let told = tell_all(alloc, link, sizes, found.as_slice())?;
    let keys = sorted_keys(alloc, found.as_slice())?;
    Ok((told, keys))
}

/// What these sections take in their parts.
fn tell_all(
    alloc: Global,
    link: &LinkInput,
    sizes: Option<&[u64]>,
    found: &[InputRef<'_>],
) -> Result<Vec<InputSortedSection>, AllocError>
    requires good { IsWellFormed link.now }
    requires there { (k : ℕ) (x : Input) → slice_get (map input_of found.now) k ≡ Some x → IsInput link.now x }
    requires parts { (k : ℕ) (x : Input) → slice_get (map input_of found.now) k ≡ Some x → x.section.part < length (all_parts link.now.plan.sections) }
    requires fit { (k : ℕ) (x : Input) → slice_get (map input_of found.now) k ≡ Some x → capacity_by link.now (option_map_or (λ s. s.now) sizes (own_sizes link.now)) x < 2 ^ 64 }
    ensures { IfOk result (λ told. told.items ≡ map (sorted_section link.now (option_map_or (λ s. s.now) sizes.entry (own_sizes link.now))) (map input_of found.now)) }
{
    let mut told = Vec::with_capacity(alloc, found.len())?;
    for input in found {
        told.push(tell(link, sizes, *input))?;
    }
    Ok(told)
}

/// An input section with what it takes in its part.
fn tell(link: &LinkInput, sizes: Option<&[u64]>, input: InputRef<'_>) -> InputSortedSection
    requires good { IsWellFormed link.now }
    requires there { IsInput link.now (input_of input) }
    requires part { input.section.now.part < length (all_parts link.now.plan.sections) }
    requires fits { capacity_by link.now (option_map_or (λ s. s.now) sizes (own_sizes link.now)) (input_of input) < 2 ^ 64 }
    ensures { result ≡ sorted_section link.now (option_map_or (λ s. s.now) sizes.entry (own_sizes link.now)) (input_of input.entry) }
{
    let size = size_of(link, sizes, input);
    let parts = link.plan.sections.parts();
    let part = &parts[input.section.part.as_usize()];
    InputSortedSection {
        file_id: input.file,
        section_index: input.index,
        part_id: input.section.part,
        size: Section { size }.exact_capacity(part) as u64,
        alignment: part.alignment,
    }
}

/// The size of an input section, by those of all, or by the description.
pub(crate) fn size_of(link: &LinkInput, sizes: Option<&[u64]>, input: InputRef<'_>) -> u64
    requires good { IsWellFormed link.now }
    requires there { IsInput link.now (input_of input) }
    ensures { result ≡ slice_index (option_map_or (λ s. s.now) sizes.entry (own_sizes link.now)) (input_number link.now.groups input.entry.file input.entry.index) }
{
    match sizes {
        Some(sizes) => len_at(sizes, number_of(link, input.file, input.index)),
        None => input.section.size,
    }
}

/// The number of an input section over all files.
pub(crate) fn number_of(link: &LinkInput, file: FileId, index: usize) -> usize
    requires good { IsWellFormed link.now }
    requires file { IsSome (file_in link.now.groups file) }
    requires there { input_number link.now.groups file index < length (all_inputs link.now.groups) }
    ensures { result ≡ input_number link.now.groups file index }
{
    match link.groups.input_start(file) {
        Some(first) => first + index,
        None => 0,
    }
}

/// The sorted sections that are live, by file and index.
fn find_sorted<'a>(
    alloc: Global,
    link: &'a LinkInput,
    live: &'a Live,
) -> Result<Vec<InputRef<'a>>, AllocError>
    requires good { IsWellFormed link.now }
    ensures { IfOk result (λ found. map input_of found.items ≡ sorted_ones link.now live.now) }
{
    let mut found = Vec::new(alloc);
    for input in live.inputs(link) {
        if input.section.sorted {
            found.push(input)?;
        }
    }
    Ok(found)
}
