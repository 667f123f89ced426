//! Ranges of sections, and the first two that overlap.

ghost use Rattle.std.specs.Prelude.{◌≡◌, ℕ, ◌+◌, ◌^◌, ◌<◌, ◌≤◌, length, min, max, slice_index_or, true, IfOk, IfSome, MatchBool, MatchOption};
ghost use Rattle.lk_map.specs.MapText.{LinesRise};
ghost use Rattle.lk_map.specs.Spans.{counts_in_file, counts_in_memory, file_spans, memory_spans, AreApart, FindsOverlap, LinesRiseIn};
ghost use Rattle.lk_map.specs.Spans.{is_allocated as is_allocated_line};
ghost use Rattle.lk_map.specs.Sorted.{Follow, NeighboursApart, StartsBelow};

use crate::map_text::SectionLine;
use std::alloc::{AllocError, Global};

/// The attribute of a section that is allocated.
const ALLOCATED: u64 = 1;

/// That of thread-local data.
const THREAD_LOCAL: u64 = 8;

/// That of a section that takes no bytes of the file.
const ZERO_FILLED: u64 = 16;

/// A range, in memory or in the file, in the order of starts and then of lines.
#[derive(Clone, Copy, PartialEq, Eq, PartialOrd, Ord)]
pub struct Span {
    /// Where it starts.
    pub start: u64,
    /// The line of its section.
    pub line: usize,
    /// Its bytes.
    pub size: u64,
}

/// Whether a section is allocated.
pub fn is_allocated(section: &SectionLine) -> bool
    ensures { result ≡ is_allocated_line section.now }
{
    section.attrs & ALLOCATED != 0
}

/// Whether a section counts in memory.
#[tactic(auto, unfolding(crate::specs::Spans::counts_in_memory))]
fn counts_in_memory_of(section: &SectionLine) -> bool
    ensures { result ≡ counts_in_memory section.now }
{
    let takes_none = section.attrs & THREAD_LOCAL != 0 && section.attrs & ZERO_FILLED != 0;
    section.mem_size > 0 && is_allocated(section) && !takes_none
}

/// Whether a section counts in the file.
#[tactic(auto, unfolding(crate::specs::Spans::counts_in_file))]
fn counts_in_file_of(section: &SectionLine) -> bool
    ensures { result ≡ counts_in_file section.now }
{
    section.file_size > 0
}

/// The ranges of all sections that count in memory.
fn spans_in_memory(alloc: Global, sections: &[SectionLine]) -> Result<Vec<Span>, AllocError>
    ensures { IfOk result (λ spans. spans.items ≡ memory_spans sections.now) }
{
    sections
        .iter()
        .filter(|section| counts_in_memory_of(section))
        .map(|section| Span {
            start: section.mem_offset,
            line: section.line,
            size: section.mem_size,
        })
        .collect(alloc)
}

/// The ranges of all sections that count in the file.
fn spans_in_file(alloc: Global, sections: &[SectionLine]) -> Result<Vec<Span>, AllocError>
    ensures { IfOk result (λ spans. spans.items ≡ file_spans sections.now) }
{
    sections
        .iter()
        .filter(|section| counts_in_file_of(section))
        .map(|section| Span {
            start: section.file_offset,
            line: section.line,
            size: section.file_size,
        })
        .collect(alloc)
}

/// The place of the first of these ranges, in the order of their starts, below whose end the next one starts.
fn first_below_end(spans: &[Span]) -> Option<usize>
    ensures { MatchOption result (NeighboursApart spans.now (length spans.now)) (λ k. (k + 1 < length spans.now) × NeighboursApart spans.now (k + 1) × StartsBelow spans.now k) }
{
    for place in 1..spans.len() {
        let before = spans[place - 1];
        let here = spans[place];
        if here.start < before.start || here.start - before.start < before.size {
            return Some(place - 1);
        }
    }
    None
}

/// The lines of the first two of these ranges that overlap, in rising order. The ranges may be put in another order.
fn first_overlap(spans: &mut [Span]) -> Option<(usize, usize)>
    requires { LinesRiseIn spans.old }
    ensures { FindsOverlap spans.old result }
{
    spans.sort_unstable();
    let place = first_below_end(spans)?;
    let one = spans[place].line;
    let other = spans[place + 1].line;
    Some((one.min(other), one.max(other)))
}

/// The end of a range that starts at another's end or behind it, if it has 64 bits.
fn end_behind(end: u64, start: u64, size: u64) -> Option<u64>
    ensures end { IfSome result (λ e. (end ≤ start) × (e ≡ start + size)) }
    ensures none { MatchOption result (end ≤ start → 2 ^ 64 ≤ start + size) (λ _. start + size < 2 ^ 64) }
{
    if start < end {
        return None;
    }
    start.checked_add(size)
}

/// Whether each section that counts in memory ends there no later than the next one of the list starts, and none past 2^64 - 1. So it
/// mostly is, and then none overlaps another.
fn follow_in_memory(sections: &[SectionLine]) -> bool
    ensures apart { result ≡ true → AreApart (memory_spans sections.now) }
    ensures order { MatchBool result (Follow 0 (memory_spans sections.now)) (¬ Follow 0 (memory_spans sections.now)) }
{
    let mut end = 0;
    for section in sections {
        if counts_in_memory_of(section) {
            let Some(behind) = end_behind(end, section.mem_offset, section.mem_size) else {
                return false;
            };
            end = behind;
        }
    }
    true
}

/// Whether each that counts in the file ends there no later than the next one starts, and none past 2^64 - 1.
fn follow_in_file(sections: &[SectionLine]) -> bool
    ensures apart { result ≡ true → AreApart (file_spans sections.now) }
    ensures order { MatchBool result (Follow 0 (file_spans sections.now)) (¬ Follow 0 (file_spans sections.now)) }
{
    let mut end = 0;
    for section in sections {
        if counts_in_file_of(section) {
            let Some(behind) = end_behind(end, section.file_offset, section.file_size) else {
                return false;
            };
            end = behind;
        }
    }
    true
}

/// The lines of the first two sections that overlap in memory.
pub fn overlap_in_memory(
    alloc: Global,
    sections: &[SectionLine],
) -> Result<Option<(usize, usize)>, AllocError>
    requires { LinesRise sections.now }
    ensures { IfOk result (λ lines. FindsOverlap (memory_spans sections.now) lines) }
{
    if follow_in_memory(sections) {
        return Ok(None);
    }
    let mut spans = spans_in_memory(alloc, sections)?;
    Ok(first_overlap(spans.as_mut_slice()))
}

/// The lines of the first two sections that overlap in the file.
pub fn overlap_in_file(
    alloc: Global,
    sections: &[SectionLine],
) -> Result<Option<(usize, usize)>, AllocError>
    requires { LinesRise sections.now }
    ensures { IfOk result (λ lines. FindsOverlap (file_spans sections.now) lines) }
{
    if follow_in_file(sections) {
        return Ok(None);
    }
    let mut spans = spans_in_file(alloc, sections)?;
    Ok(first_overlap(spans.as_mut_slice()))
}
