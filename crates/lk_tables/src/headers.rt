//! What headers and the names of sections take: one pass over the events.

ghost use Rattle.std.specs.Prelude.{◌≡◌, ◌+◌, ◌*◌, ◌-◌, ◌^◌, length, min, sum_by};
ghost use Rattle.lk_link.specs.PlanSections.{section_at};
ghost use Rattle.lk_live.specs.declared.live.Live.{Live};
ghost use Rattle.lk_tables.specs.HeaderSteps.{event_name, no_headers};
ghost use Rattle.lk_tables.specs.HeaderParts.{CountsSections, emitted_name_bytes, file_header_entries, header_sizes, program_header_entries, told_sum};
ghost use Rattle.lk_tables.specs.SymbolTable.{entry_bytes};

use crate::header_info::HeaderInfo;
use lk_link::marks::is_marked;
use lk_link::{LinkInput, OrderEvent, OutputSectionId, PlanSections, Platform, SegmentId};

/// Bytes of headers and of names of sections; a sum past 2^128 - 1 is given as that.
#[derive(Clone, Copy, Debug, PartialEq, Eq)]
pub struct HeaderSizes {
    pub file_header: u64,
    /// One for each active segment.
    pub program_headers: u128,
    /// One for each section that has one.
    pub section_headers: u128,
    /// The names of these sections, with a zero byte behind each.
    pub shstrtab: u128,
}

impl HeaderSizes {
    /// Nothing.
    pub(crate) fn nothing() -> HeaderSizes
        ensures { result ≡ no_headers }
    {
        HeaderSizes {
            file_header: 0,
            program_headers: 0,
            section_headers: 0,
            shstrtab: 0,
        }
    }
}

/// The length of a section's name; 0 where there is no such section.
fn name_len(sections: &PlanSections, section: OutputSectionId) -> usize
    ensures { result ≡ length (section_at sections.now section).name }
{
    match sections.get(section) {
        Some(found) => found.name.len(),
        None => 0,
    }
}

/// The bytes of the name of the section that an event places, with a zero byte behind it, if it is emitted.
fn event_name(link: &LinkInput, emitted: &[bool], event: &OrderEvent) -> u128
    ensures { result ≡ event_name link.now emitted.now event.now }
{
    match event {
        OrderEvent::Section(section) if is_marked(emitted, section.as_usize()) => {
            name_len(&link.plan.sections, *section) as u128 + 1
        }
        _ => 0,
    }
}

/// The bytes of the names of the emitted sections.
#[tactic(auto, using(std::proofs::lemmas::List::Sums::sum_by_more))]
fn names_bytes(link: &LinkInput, emitted: &[bool], events: &[OrderEvent]) -> u128
    ensures { result ≡ min (sum_by (event_name link.now emitted.now) events.now) (2 ^ 128 - 1) }
{
    let mut sum = 0u128;
    for event in events {
        sum = sum.saturating_add(event_name(link, emitted, event));
    }
    sum
}

/// What the headers of some segments take, each so many bytes.
fn segments_bytes(bytes: u64, segments: &[SegmentId]) -> u128
    ensures { result ≡ told_sum (entry_bytes (program_header_entries bytes segments.now)) }
{
    u128::from(bytes).saturating_mul(segments.len() as u128)
}

/// What headers and the names of sections take, by which sections are emitted and how many have headers, and which segments are
/// active. Looks at each event once; takes no memory (libwild: `PreludeLayoutState::determine_header_sizes`).
pub fn header_sizes<P: Platform>(link: &LinkInput, platform: &P, header: &HeaderInfo) -> HeaderSizes
    ensures all { (live : Live) → CountsSections link.now live header.now
        → result ≡ header_sizes (P.table_sizes platform.now) link.now live header.now.emitted header.now.active_segment_ids }
    ensures file { result.file_header ≡ entry_bytes (file_header_entries (P.table_sizes platform.now).file_header) }
    ensures segments { result.program_headers
        ≡ told_sum (entry_bytes (program_header_entries (P.table_sizes platform.now).program_header header.now.active_segment_ids)) }
    ensures headers { result.section_headers
        ≡ told_sum ((P.table_sizes platform.now).section_header * header.now.num_output_sections_with_content) }
    ensures names { result.shstrtab
        ≡ told_sum (emitted_name_bytes link.now header.now.emitted + header.now.partial_link_section_name_bytes) }
{
    let headers = u128::from(platform.section_header());
    let names = names_bytes(link, header.emitted.as_slice(), link.plan.events.as_slice());
    HeaderSizes {
        file_header: platform.file_header(),
        program_headers: segments_bytes(
            platform.program_header(),
            header.active_segment_ids.as_slice(),
        ),
        section_headers: headers.saturating_mul(u128::from(
            header.num_output_sections_with_content,
        )),
        shstrtab: names.saturating_add(u128::from(header.partial_link_section_name_bytes)),
    }
}
