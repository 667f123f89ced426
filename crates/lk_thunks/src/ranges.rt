//! Where the code of files stands when it is planned.

ghost use Rattle.std.specs.Prelude.{◌≡◌, ◌+◌, ◌<◌, ◌^◌, ◌-◌, IfOk, Some, filter, length, min, sum_by};
ghost use Rattle.std.specs.List.{enumerate_from};
ghost use Rattle.lk_link.specs.Files.{file_in};
ghost use Rattle.lk_link.specs.Walks.{file_of};
ghost use Rattle.lk_link.specs.WellFormed.{IsWellFormed};
ghost use Rattle.lk_thunks.specs.Ranges.{file_ranges, has_bytes, is_object_range, primary_bytes, section_bytes, total_primary_bytes};

use lk_link::marks::is_marked;
use lk_link::{FileId, FileRef, InputSection, LinkInput};
use lk_live::Live;
use lk_live::reaching::is_primary_section;
use std::alloc::{AllocError, Global};

/// The bytes that a section of a file brings to the primary part. `first` is the number of the file's first section over all
/// files.
fn section_bytes(
    link: &LinkInput,
    marks: &[bool],
    first: usize,
    index: usize,
    section: &InputSection,
) -> u64
    requires { first + index < 2 ^ 64 }
    ensures { result ≡ section_bytes link.now marks.now first (index, section.now) }
{
    let counts = is_marked(marks, first + index)
        && is_primary_section(link, section)
        && section.slot.is_regular();
    if counts { section.size } else { 0 }
}

/// Those of some sections of a file; a sum past 2^64 - 1 is given as that.
fn sum_sections(link: &LinkInput, marks: &[bool], first: usize, sections: &[InputSection]) -> u64
    requires { first + length sections.now < 2 ^ 64 }
    ensures { result ≡ min (sum_by (section_bytes link.now marks.now first) (enumerate_from 0 sections.now)) (2 ^ 64 - 1) }
{
    let mut total = 0u64;
    for (index, section) in sections.iter().enumerate() {
        total = total.saturating_add(section_bytes(link, marks, first, index, section));
    }
    total
}

/// The primary bytes of a file; a sum past 2^64 - 1 is given as that. Looks at each of its sections.
fn primary_bytes(link: &LinkInput, live: &Live, file: FileRef<'_>) -> u64
    requires good { IsWellFormed link.now }
    requires there { file_in link.now.groups file.id ≡ Some file.file.now }
    ensures { result ≡ min (primary_bytes link.now live.now (file_of file.entry)) (2 ^ 64 - 1) }
{
    match link.groups.input_start(file.id) {
        Some(first) => sum_sections(
            link,
            live.marks.as_slice(),
            first,
            file.file.sections.as_slice(),
        ),
        None => 0,
    }
}

/// The primary bytes of all files, which a planning wants room for behind its start; a sum past 2^64 - 1 is given as that.
/// Looks at each input section once.
pub fn total_primary_bytes(link: &LinkInput, live: &Live) -> u64
    requires { IsWellFormed link.now }
    ensures { result ≡ min (total_primary_bytes link.now live.now) (2 ^ 64 - 1) }
{
    let mut total = 0u64;
    for file in link.groups.files() {
        total = total.saturating_add(primary_bytes(link, live, file));
    }
    total
}

/// Where the primary bytes of each file begin and end, the first of them at an address.
pub(crate) fn file_ranges(
    alloc: Global,
    link: &LinkInput,
    live: &Live,
    start: u64,
) -> Result<Vec<(FileId, u64, u64)>, AllocError>
    requires good { IsWellFormed link.now }
    requires room { start + total_primary_bytes link.now live.now < 2 ^ 64 }
    ensures { IfOk result (λ ranges. ranges.items ≡ file_ranges link.now live.now start) }
{
    let mut ranges = Vec::with_capacity(alloc, link.groups.file_count() as usize)?;
    let mut begin = start;
    for file in link.groups.files() {
        let end = begin.saturating_add(primary_bytes(link, live, file));
        ranges.push((file.id, begin, end))?;
        begin = end;
    }
    Ok(ranges)
}

/// Whether a range is that of an object.
fn is_object_range(link: &LinkInput, range: &(FileId, u64, u64)) -> bool
    ensures { result ≡ is_object_range link.now range.now }
{
    match link.groups.file(range.0) {
        Some(file) => file.kind.is_object(),
        None => false,
    }
}

/// The ranges of objects.
pub(crate) fn object_ranges(
    alloc: Global,
    link: &LinkInput,
    ranges: &[(FileId, u64, u64)],
) -> Result<Vec<(FileId, u64, u64)>, AllocError>
    ensures { IfOk result (λ kept. kept.items ≡ filter (is_object_range link.now) ranges.now) }
{
    let mut kept = Vec::new(alloc);
    for range in ranges {
        if is_object_range(link, range) {
            kept.push(*range)?;
        }
    }
    Ok(kept)
}

/// The ranges that have bytes.
pub(crate) fn with_bytes(
    alloc: Global,
    ranges: &[(FileId, u64, u64)],
) -> Result<Vec<(FileId, u64, u64)>, AllocError>
    ensures { IfOk result (λ kept. kept.items ≡ filter has_bytes ranges.now) }
{
    let mut kept = Vec::new(alloc);
    for range in ranges {
        if range.1 < range.2 {
            kept.push(*range)?;
        }
    }
    Ok(kept)
}
