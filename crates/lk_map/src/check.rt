//! The check of a map.

ghost use Rattle.std.specs.Prelude.{◌≡◌, option_copied};
ghost use Rattle.std.specs.List.{find, list_any};
ghost use Rattle.lk_map.specs.Checking.{ends_past, first_outside, first_overflow, holds, is_outside, is_within, needs_segment, section_overflows, segment_overflows, Judges};
ghost use Rattle.lk_map.specs.Good.{TellsGood};
ghost use Rattle.lk_map.specs.MapText.{LinesRise};

use crate::map_text::{MapText, SectionLine, SegmentLine};
use crate::spans::{is_allocated, overlap_in_file, overlap_in_memory};
use crate::sweep::unheld_line;
use std::alloc::{AllocError, Global};

/// The first fault of a map. Lines are counted from 1.
#[derive(Clone, Copy, Debug, PartialEq, Eq, Drop)]
pub enum MapFault {
    /// The first section or segment that ends past 2^64 - 1, in memory or in the file.
    Overflow { line: usize },
    /// Two sections that overlap in memory, in rising order: the first one, by starts and then by lines, that starts below the end of one
    /// before it, and the earliest such.
    MemOverlap { a: usize, b: usize },
    /// The same in the file.
    FileOverlap { a: usize, b: usize },
    /// The first section that is allocated and has bytes in the file, and that no segment holds.
    NoSegment { line: usize },
    /// Memory ran out.
    NoMemory,
}

impl From<AllocError> for MapFault {
    ghost use Rattle.lk_map.specs.declared.check.MapFault.TheVariants.{NoMemory};

    ghost from_gives = { λ _ e. e ≡ NoMemory };

    fn from(_: AllocError) -> MapFault {
        MapFault::NoMemory
    }
}

/// Whether a range ends past 2^64 - 1.
fn is_past_end(start: u64, size: u64) -> bool
    ensures { result ≡ ends_past start size }
{
    start.checked_add(size).is_none()
}

/// Whether a section ends past it, in memory or in the file.
#[tactic(auto, unfolding(crate::specs::Checking::section_overflows))]
fn is_section_past_end(section: &SectionLine) -> bool
    ensures { result ≡ section_overflows section.now }
{
    is_past_end(section.mem_offset, section.mem_size)
        || is_past_end(section.file_offset, section.file_size)
}

/// Whether a segment does.
#[tactic(auto, unfolding(crate::specs::Checking::segment_overflows))]
fn is_segment_past_end(segment: &SegmentLine) -> bool
    ensures { result ≡ segment_overflows segment.now }
{
    is_past_end(segment.mem_offset, segment.mem_size)
        || is_past_end(segment.file_offset, segment.file_size)
}

/// The first section that does.
fn section_past_end(sections: &[SectionLine]) -> Option<&SectionLine>
    ensures { option_copied result ≡ find section_overflows sections.now }
{
    sections.iter().find(|x| is_section_past_end(x))
}

/// The first segment.
fn segment_past_end(segments: &[SegmentLine]) -> Option<&SegmentLine>
    ensures { option_copied result ≡ find segment_overflows segments.now }
{
    segments.iter().find(|x| is_segment_past_end(x))
}

/// The line of the first section or segment that ends past 2^64 - 1.
#[tactic(auto, unfolding(crate::specs::Checking::first_overflow))]
fn overflowing_line(sections: &[SectionLine], segments: &[SegmentLine]) -> Option<usize>
    ensures { result ≡ first_overflow sections.now segments.now }
{
    match section_past_end(sections) {
        Some(section) => Some(section.line),
        None => match segment_past_end(segments) {
            Some(segment) => Some(segment.line),
            None => None,
        },
    }
}

/// Whether a section has to stand in a segment.
#[tactic(auto, unfolding(crate::specs::Checking::needs_segment))]
pub fn is_in_need(section: &SectionLine) -> bool
    ensures { result ≡ needs_segment section.now }
{
    section.file_size > 0 && is_allocated(section)
}

/// The first fault of sections and segments. The lines of sections rise.
fn check_lines(
    alloc: Global,
    sections: &[SectionLine],
    segments: &[SegmentLine],
) -> Result<(), MapFault>
    requires { LinesRise sections.now }
    ensures { Judges result sections.now segments.now }
{
    if let Some(line) = overflowing_line(sections, segments) {
        return Err(MapFault::Overflow { line });
    }
    if let Some((a, b)) = overlap_in_memory(alloc, sections)? {
        return Err(MapFault::MemOverlap { a, b });
    }
    if let Some((a, b)) = overlap_in_file(alloc, sections)? {
        return Err(MapFault::FileOverlap { a, b });
    }
    if let Some(line) = unheld_line(alloc, sections, segments)? {
        return Err(MapFault::NoSegment { line });
    }
    Ok(())
}

/// Checks a map that `read_map` gave: its sections and segments against each other. The first fault is told, in the order of `MapFault`.
/// There is none exactly where the map is good, unless memory runs out.
#[tactic(auto, using(crate::proofs::Goodness::judged_tells))]
pub fn check_map(alloc: Global, map: &MapText) -> Result<(), MapFault>
    requires { LinesRise map.now.sections.items }
    ensures judges { Judges result map.now.sections.items map.now.segments.items }
    ensures good { TellsGood result map.now.sections.items map.now.segments.items }
{
    check_lines(alloc, map.sections.as_slice(), map.segments.as_slice())
}
