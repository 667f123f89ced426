//! Where the symbols stand that the linker itself places: at edges of output sections, at the end of thread-local data, and where what
//! is loaded begins.
//!
//! All that they are read off is found in one pass over the output sections and one over the active segments, so each symbol takes
//! constant time.

ghost use Rattle.std.specs.Prelude.{◌≡◌, IfOk, None, length, option_and_then};
ghost use Rattle.lk_link.specs.SegmentKinds.{segment_at};
ghost use Rattle.lk_link.specs.WellFormed.{IsWellFormed};
ghost use Rattle.lk_place.specs.Segments.{end_refusal, thread_local_one};
ghost use Rattle.lk_own_symbols.specs.Edges.{EndsBelow, edges_of, first_load, rounded_end};

use crate::group_ends::group_ends;
use lk_link::{LinkInput, OutputSectionId, Plan, SegmentKind, SymbolPlacement};
use lk_place::{OutputRecordLayout, SegmentLayout};
use std::alloc::{AllocError, Global};
use std::marker::Model;

/// What the edges of a layout are read off. Contracts see a record with the same fields.
#[derive(Drop)]
pub struct Edges<'a> {
    /// The records of all output sections, each by itself.
    sections: &'a [OutputRecordLayout],
    /// For each of them the greatest end in memory of it and of those that are secondary to it.
    group_ends: Vec<u64>,
    thread_local_end: u64,
    /// The start of the first load segment that is active.
    load_base: Option<u64>,
}

impl<'a> Model for Edges<'a> {
    ghost use Rattle.lk_own_symbols.specs.Edges.{Edges as EdgesRecord};

    ghost Value = { EdgesRecord };

    ghost view = { λ a. record {
      sections = a.sections.now;
      group_ends = a.group_ends.items;
      thread_local_end = a.thread_local_end;
      load_base = a.load_base;
    } };
}

impl Edges<'_> {
    ghost use Rattle.std.specs.Prelude.{slice_index};
    ghost use Rattle.lk_expressions.specs.Records.{mem_end, record_at};
    ghost use Rattle.lk_own_symbols.specs.Edges.{edge_value};

    /// What a placement in the prelude, in a synthetic file or in a script stands at: an edge, else 0; none where what is loaded begins
    /// if nothing is, and for placements that other files have. Takes constant time.
    pub fn value(&self, at: &SymbolPlacement) -> Option<u64>
        ensures { result ≡ edge_value self.now at.now }
    {
        match at {
            SymbolPlacement::SectionStart(section) => Some(self.start(*section)),
            SymbolPlacement::SectionEnd(section) => Some(self.end(*section)),
            SymbolPlacement::SectionGroupEnd(section) => Some(self.group_end(*section)),
            SymbolPlacement::TlsEnd => Some(self.thread_local_end),
            SymbolPlacement::LoadBaseAddress => self.load_base,
            SymbolPlacement::Undefined
            | SymbolPlacement::ForceUndefined
            | SymbolPlacement::Redirect { .. } => Some(0),
            _ => None,
        }
    }

    /// The start of a section, 0 where there is none.
    fn start(&self, section: OutputSectionId) -> u64
        ensures { result ≡ (record_at self.now.sections section).mem_offset }
    {
        match self.sections.get(section.as_usize()) {
            Some(record) => record.mem_offset,
            None => 0,
        }
    }

    /// The end of a section, 0 where there is none.
    fn end(&self, section: OutputSectionId) -> u64
        ensures { result ≡ mem_end (record_at self.now.sections section) }
    {
        match self.sections.get(section.as_usize()) {
            Some(record) => record.mem_end(),
            None => 0,
        }
    }

    /// The end of a section and of those that are secondary to it, 0 where there is none.
    fn group_end(&self, section: OutputSectionId) -> u64
        ensures { result ≡ slice_index self.now.group_ends section }
    {
        match self.group_ends.get(section.as_usize()) {
            Some(end) => *end,
            None => 0,
        }
    }
}

/// What a segment is for.
#[tactic(auto, using(lk_link::proofs::Numbers::none_default))]
fn kind_of(plan: &Plan, segment: &SegmentLayout) -> SegmentKind
    ensures { result ≡ (segment_at plan.now.segments segment.now.id).kind }
{
    match plan.segments.get(segment.id.as_usize()) {
        Some(found) => found.kind,
        None => SegmentKind::Other,
    }
}

/// The thread-local segment among these, if there is one.
fn find_thread_local(plan: &Plan, segments: &[SegmentLayout]) -> Option<SegmentLayout>
    ensures { result ≡ thread_local_one plan.now segments.now }
{
    for segment in segments {
        if kind_of(plan, segment).is_tls() {
            return Some(*segment);
        }
    }
    None
}

/// The first of these segments that is loaded into memory, if there is one.
fn find_load(plan: &Plan, segments: &[SegmentLayout]) -> Option<SegmentLayout>
    ensures { result ≡ first_load plan.now segments.now }
{
    for segment in segments {
        if kind_of(plan, segment).is_load() {
            return Some(*segment);
        }
    }
    None
}

/// The end of a thread-local segment, rounded up to its alignment; 0 where there is none.
fn rounded_end(segment: Option<SegmentLayout>) -> u64
    requires { option_and_then end_refusal segment ≡ None }
    ensures { result ≡ rounded_end segment }
{
    let Some(found) = segment else {
        return 0;
    };
    let sizes = found.sizes;
    match sizes.alignment.align_up(sizes.mem_end()) {
        Some(end) => end,
        None => unreachable!(),
    }
}

/// The edges of a layout, by the records of all output sections, each by itself, and the layouts of the active segments, whose
/// thread-local one ends below 2^64. Takes time for each section and each segment.
pub fn edges_of<'a>(
    alloc: Global,
    link: &LinkInput,
    sections: &'a [OutputRecordLayout],
    segments: &[SegmentLayout],
) -> Result<Edges<'a>, AllocError>
    requires well_formed { IsWellFormed link.now }
    requires each { length sections.now ≡ length link.now.plan.sections }
    requires below { EndsBelow link.now.plan segments.now }
    ensures { IfOk result (λ edges. edges ≡ edges_of link.now.plan sections.now segments.now) }
{
    let group_ends = group_ends(alloc, link, sections)?;
    let thread_local_end = rounded_end(find_thread_local(&link.plan, segments));
    let load_base = find_load(&link.plan, segments).map(|load| load.sizes.mem_offset);
    Ok(Edges {
        sections,
        group_ends,
        thread_local_end,
        load_base,
    })
}
