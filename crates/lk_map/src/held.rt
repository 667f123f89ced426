//! Sections that segments hold in their order. So they stand in most maps, and then there is nothing to sort.

ghost use Rattle.std.specs.Prelude.{◌≡◌, ◌<◌, ◌≤◌, None, true, length, IfSome, MatchBool};
ghost use Rattle.std.specs.List.{list_any};
ghost use Rattle.lk_map.specs.Checking.{first_outside, holds, is_within};
ghost use Rattle.lk_map.specs.Held.{AreHeldInOrder, IsFirstHolder};

use crate::check::is_in_need;
use crate::map_text::{SectionLine, SegmentLine};

/// Whether a range holds another.
fn is_range_within(start: u64, size: u64, outer_start: u64, outer_size: u64) -> bool
    ensures { result ≡ is_within start size outer_start outer_size }
{
    outer_start <= start
        && start - outer_start <= outer_size
        && size <= outer_size - (start - outer_start)
}

/// Whether a segment holds a section.
#[tactic(auto, unfolding(crate::specs::Checking::holds))]
fn is_holder(segment: &SegmentLine, section: &SectionLine) -> bool
    ensures { result ≡ holds segment.now section.now }
{
    let in_memory = is_range_within(
        section.mem_offset,
        section.mem_size,
        segment.mem_offset,
        segment.mem_size,
    );
    let in_file = is_range_within(
        section.file_offset,
        section.file_size,
        segment.file_offset,
        segment.file_size,
    );
    in_memory
        && in_file
        && section.mem_offset - segment.mem_offset == section.file_offset - segment.file_offset
}

/// The first segment from a place on that holds a section.
fn holder_from(segments: &[SegmentLine], first: usize, section: &SectionLine) -> Option<usize>
    ensures held { IfSome result (λ _. list_any (λ g. holds g section.now) segments.now ≡ true) }
    ensures first { IsFirstHolder segments.now first section.now result }
{
    for place in first..segments.len() {
        if is_holder(&segments[place], section) {
            return Some(place);
        }
    }
    None
}

/// Whether each section that has to stand in a segment is held by the one that holds the last such section before it, or by one behind that.
pub fn are_held_in_order(sections: &[SectionLine], segments: &[SegmentLine]) -> bool
    ensures held { result ≡ true → first_outside sections.now segments.now ≡ None }
    ensures order { MatchBool result (AreHeldInOrder segments.now sections.now) (¬ AreHeldInOrder segments.now sections.now) }
{
    let mut holder = 0;
    for section in sections {
        if is_in_need(section) {
            let Some(next) = holder_from(segments, holder, section) else {
                return false;
            };
            holder = next;
        }
    }
    true
}
