//! What answers are put together from: of flags, of sections' starts, and of thread-local data.

ghost use Rattle.std.specs.Prelude.{◌≡◌, ◌-◌, ◌^◌, Some, min, slice_index};
ghost use Rattle.std.specs.Int.{next_multiple_of};
ghost use Rattle.lk_expressions.specs.Records.{mem_end, record_at};
ghost use Rattle.lk_link.specs.Alignments.{IsGreatestMultiple};
ghost use Rattle.lk_place.specs.Segments.{least};
ghost use Rattle.lk_tables.specs.Late.{flags_at};
ghost use Rattle.lk_answers.specs.Queries.{IsStartBefore, thread_local_starts};
ghost use Rattle.lk_answers.specs.QueryWords.{with_start};

use lk_link::ValueFlags;
use lk_link::ids::SymbolId;
use lk_link::plan::attributes;
use lk_place::OutputRecordLayout;

/// The flags of the symbol with this number; none past the last symbol.
pub(crate) fn flags_at(flags: &[ValueFlags], symbol: SymbolId) -> ValueFlags
    ensures { result ≡ flags_at flags.now symbol }
{
    match flags.get(symbol.as_usize()) {
        Some(flags) => *flags,
        None => ValueFlags(0),
    }
}

/// Where the output section with this number starts in memory; 0 past the last section.
pub(crate) fn start_of(records: &[OutputRecordLayout], section: usize) -> u64
    ensures { result ≡ (record_at records.now section).mem_offset }
{
    match records.get(section) {
        Some(record) => record.mem_offset,
        None => 0,
    }
}

/// The end of a segment in memory, rounded up to its alignment; one past 2^64 - 1 is given as that.
pub(crate) fn rounded_end(segment: &OutputRecordLayout) -> u64
    ensures { result ≡ min (next_multiple_of (mem_end segment.now) segment.now.alignment) (2 ^ 64 - 1) }
{
    match segment.alignment.align_up(segment.mem_end()) {
        Some(end) => end,
        None => u64::MAX,
    }
}

/// The start of a segment in memory, rounded down to its alignment.
pub(crate) fn aligned_start(segment: &OutputRecordLayout) -> u64
    ensures { IsGreatestMultiple segment.now.alignment segment.now.mem_offset result }
{
    segment.alignment.align_down(segment.mem_offset)
}

/// The place so many bytes before a segment, rounded down to its alignment; none exactly where the segment starts below that.
pub(crate) fn start_before(segment: &OutputRecordLayout, bytes: u64) -> Option<u64>
    ensures { IsStartBefore (Some segment.now) bytes result }
{
    let before = segment.mem_offset.checked_sub(bytes)?;
    Some(segment.alignment.align_down(before))
}

/// The least start of the sections whose attributes tell of thread-local data; 0 where there is none.
pub(crate) fn least_start(attributes: &[u32], records: &[OutputRecordLayout]) -> u64
    ensures { result ≡ least 0 (thread_local_starts attributes.now records.now) }
{
    let mut least = None;
    for (number, range) in records.iter().enumerate() {
        least = with_start(least, attributes_at(attributes, number), range);
    }
    least.unwrap_or(0)
}

/// The attributes of the section with this number; none past the last section.
fn attributes_at(attributes: &[u32], number: usize) -> u32
    ensures { result ≡ slice_index attributes.now number }
{
    match attributes.get(number) {
        Some(attributes) => *attributes,
        None => 0,
    }
}

/// The lesser of this start and a section's, if the section has thread-local data.
fn with_start(least: Option<u64>, attributes: u32, range: &OutputRecordLayout) -> Option<u64>
    ensures { result ≡ with_start least attributes range.now }
{
    if attributes & attributes::TLS == 0 {
        return least;
    }
    match least {
        Some(least) => Some(least.min(range.mem_offset)),
        None => Some(range.mem_offset),
    }
}
