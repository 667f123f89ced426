//! What the active segments span, and the refusal of a section that stands in none.
//!
//! A segment spans the sections inside it that count: those with bytes, and those without whose primary is emitted. Before
//! that, each section with memory that isn't skipped must stand in some segment; marks, set once for each section inside a
//! segment, say which do. Takes time for each event and each section inside each of the at most 64 segments.

ghost use Rattle.std.specs.Prelude.{◌≡◌, ◌==◌, ◌||◌, ◌<◌, ◌≤◌, ℕ, [], ◌∷◌, false, None, Some, All, IfErr, IfOk, OnOk, filter, length, map, max, option_map, vec_len, if◌then◌else◌};
ghost use Rattle.std.specs.List.{list_any, slice_index_or};
ghost use Rattle.std.specs.Option.{option_and_then};
ghost use Rattle.lk_link.specs.WellFormed.{IsInRange, IsWellFormed};
ghost use Rattle.lk_link.specs.Marks.{is_marked};
ghost use Rattle.lk_link.specs.Rules.{is_start};
ghost use Rattle.lk_link.specs.SegmentKinds.{is_tls, segment_at};
ghost use Rattle.lk_expressions.specs.Records.{file_end, has_file_bytes, record_at};
ghost use Rattle.lk_place.specs.Segments.{Refuses, compact_end, compact_start, compacted, counts, end_refusal, first_outside, found_outside, hull, in_file_inside};
ghost use Rattle.lk_place.specs.Segments.{is_skipped, may_stand_outside, segment_layout, segment_layouts, segment_record, segments_refusal};
ghost use Rattle.lk_place.specs.Segments.{stack_record, is_in_segments, thread_local_one};
ghost use Rattle.lk_place.specs.Spans.{CanSpan, file_end_behind};

use crate::error::PlaceError;
use crate::hulls::{nothing, with_record};
use lk_expressions::OutputRecordLayout;
use lk_link::alignment::Alignment;
use lk_link::fault::Place;
use lk_link::ids::{OutputSectionId, SegmentId};
use lk_link::link::LinkInput;
use lk_link::list::List;
use lk_link::marks::is_marked;
use lk_link::plan::{OrderEvent, Plan};
use std::alloc::{AllocError, Global};

/// How segments stand in the file (libwild: `SegmentFileLayout`).
#[derive(Clone, Copy, Debug, PartialEq, Eq)]
pub enum SegmentFileLayout {
    /// From the first of the sections inside to the last.
    FromSections,
    /// From the end of what stands before the segment, so that no gap is between segments.
    Compacted,
}

/// An active segment, with what it spans (libwild: `SegmentLayout`).
#[derive(Clone, Copy, Debug, PartialEq, Eq)]
pub struct SegmentLayout {
    pub id: SegmentId,
    pub sizes: OutputRecordLayout,
}

impl Default for SegmentLayout {
    ghost use Rattle.std.specs.Prelude.{◌≡◌};
    ghost use Rattle.lk_expressions.specs.Records.{nowhere};

    ghost is_default = { λ l. l ≡ record { id = 0; sizes = nowhere } };

    /// Segment 0, which spans nothing.
    fn default() -> SegmentLayout {
        SegmentLayout {
            id: SegmentId::from_u32(0),
            sizes: OutputRecordLayout::default(),
        }
    }
}

/// The active segments, with what they span (libwild: `SegmentLayouts`).
#[derive(Drop)]
pub struct SegmentLayouts {
    /// By the order in which they were asked for.
    pub segments: List<SegmentLayout>,
    /// What the thread-local one spans, if there is one among them.
    pub tls_layout: Option<OutputRecordLayout>,
}

impl SegmentLayouts {
    ghost use Rattle.std.specs.Prelude.{◌≡◌, [], None};

    /// None; takes no memory.
    pub fn new(alloc: Global) -> SegmentLayouts
        ensures { result ≡ record { segments = []; tls_layout = None } }
    {
        SegmentLayouts {
            segments: List::new(alloc),
            tls_layout: None,
        }
    }
}

/// What segments are spanned by.
#[derive(Drop)]
struct Spans<'a> {
    link: &'a LinkInput,
    /// The records of all sections.
    records: &'a [OutputRecordLayout],
    /// The marks of the emitted sections.
    emitted: &'a [bool],
    /// The sections inside each segment.
    insides: &'a [List<OutputSectionId>],
    file: SegmentFileLayout,
}

/// Whether an event opens the segment.
fn opens(event: &OrderEvent, segment: SegmentId) -> bool
    ensures { result ≡ is_start segment event.now }
{
    match *event {
        OrderEvent::SegmentStart(opened) => opened.as_u32() == segment.as_u32(),
        _ => false,
    }
}

/// The greater of this end in the file and a record's, if the record has bytes of the file.
#[tactic(auto, using(std::proofs::lemmas::Bool::Decides::nat_tests))]
fn raise_end(end: u64, one: &OutputRecordLayout) -> u64
    ensures greater { result ≡ (if has_file_bytes one.now then max end (file_end one.now) else end) }
    ensures at_least { end ≤ result }
{
    if one.file_size > 0 {
        end.max(one.file_end())
    } else {
        end
    }
}

/// Whether the segment with this number holds thread-local data.
#[tactic(auto, using(lk_link::proofs::Numbers::none_default))]
fn is_thread_local(plan: &Plan, segment: SegmentId) -> bool
    ensures { result ≡ is_tls (segment_at plan.now.segments segment).kind }
{
    match plan.segments.get(segment.as_usize()) {
        Some(found) => found.kind.is_tls(),
        None => false,
    }
}

/// The thread-local segment among these, if there is one.
fn find_thread_local(plan: &Plan, layouts: &[SegmentLayout]) -> Option<SegmentLayout>
    ensures { result ≡ thread_local_one plan.now layouts.now }
{
    for layout in layouts {
        if is_thread_local(plan, layout.id) {
            return Some(*layout);
        }
    }
    None
}

/// What the thread-local segment spans, if there is one. Refuses one whose end, rounded up to its alignment, passes 2^64 - 1.
fn span_thread_local(
    thread_local: Option<SegmentLayout>,
) -> Result<Option<OutputRecordLayout>, PlaceError>
    ensures is { IfOk result (λ spanned. spanned ≡ option_map (λ l. l.sizes) thread_local) }
    ensures fits { OnOk result (option_and_then end_refusal thread_local ≡ None) }
    ensures refusal { IfErr result (λ e. option_and_then end_refusal thread_local ≡ Some e) }
{
    let Some(found) = thread_local else {
        return Ok(None);
    };
    let sizes = found.sizes;
    match sizes.alignment.align_up(sizes.mem_end()) {
        Some(_) => Ok(Some(sizes)),
        None => Err(PlaceError::AddressOverflow {
            place: Place::Segment(found.id.as_usize()),
        }),
    }
}

/// The stack of this many bytes.
fn stack_record(size: u64) -> OutputRecordLayout
    ensures { result ≡ stack_record size }
{
    OutputRecordLayout {
        file_size: 0,
        mem_size: size,
        alignment: Alignment::one(),
        file_offset: 0,
        mem_offset: 0,
        lma_offset: 0,
    }
}

/// Sets the marks of some sections.
fn mark_inside(marks: &mut [bool], inside: &[OutputSectionId])
    requires { All (λ s. s < length marks.old) inside.now }
    ensures { (s : ℕ) → s < length marks.old
        → slice_index_or marks.new s false ≡ (slice_index_or marks.old s false || list_any (λ t. t == s) inside.now) }
{
    for section in inside {
        marks[section.as_usize()] = true;
    }
}

/// For each section, whether it stands in a segment.
fn mark_standing(
    alloc: Global,
    sections: usize,
    insides: &[List<OutputSectionId>],
) -> Result<Vec<bool>, AllocError>
    requires { All (λ inside. All (λ s. s < sections) inside) insides.now }
    ensures count { IfOk result (λ marks. vec_len marks ≡ sections) }
    ensures marks { IfOk result (λ marks. (s : ℕ) → s < sections → slice_index_or marks.items s false ≡ is_in_segments insides.now s) }
{
    let mut marks = vec![in alloc; false; sections]?;
    for inside in insides {
        mark_inside(marks.as_mut_slice(), inside.as_slice());
    }
    Ok(marks)
}

impl Spans<'_> {
    /// Whether a section is skipped: without bytes, and its primary isn't emitted.
    fn is_skipped(&self, section: OutputSectionId) -> bool
        requires { section < length self.now.records.now }
        ensures { result ≡ is_skipped self.now.link.now.plan self.now.records.now (is_marked self.now.emitted.now) section }
    {
        let placed = &self.records[section.as_usize()];
        let primary = self.link.plan.sections.primary_of(section);
        !placed.is_filled() && !is_marked(self.emitted, primary.as_usize())
    }

    /// Whether a section inside a segment counts there.
    fn counts(&self, segment: SegmentId, section: OutputSectionId) -> bool
        requires in_range { section < length self.now.records.now }
        requires there { segment < length self.now.link.now.plan.segments }
        ensures { result ≡ counts self.now.link.now.plan self.now.records.now (is_marked self.now.emitted.now) segment section }
    {
        let plan = &self.link.plan;
        let kind = plan.segments.as_slice()[segment.as_usize()].kind;
        !self.is_skipped(section) && (kind.is_tls() || !plan.is_zero_fill_thread_local(section))
    }

    /// What reaches over the sections inside a segment that count.
    fn span_inside(&self, segment: SegmentId, inside: &[OutputSectionId]) -> OutputRecordLayout
        requires in_range { All (λ s. s < length self.now.records.now) inside.now }
        requires there { segment < length self.now.link.now.plan.segments }
        ensures { let spans = self.now in
            let counted = filter (counts spans.link.now.plan spans.records.now (is_marked spans.emitted.now) segment) inside.now
            in result ≡ hull (map (record_at spans.records.now) counted) }
    {
        let mut all = None;
        for section in inside {
            if self.counts(segment, *section) {
                all = with_record(all, &self.records[section.as_usize()]);
            }
        }
        all.unwrap_or(nothing())
    }

    /// What a segment spans: the stack of a stack segment, else the sections inside that count.
    fn span_segment(&self, segment: SegmentId) -> OutputRecordLayout
        requires ready { CanSpan self.now }
        requires there { segment < length self.now.link.now.plan.segments }
        ensures { let link = self.now.link.now
            in result ≡ segment_record link.plan link.options.stack self.now.records.now (is_marked self.now.emitted.now) segment }
    {
        let number = segment.as_usize();
        if self.link.plan.segments.as_slice()[number].kind.is_stack() {
            stack_record(self.link.options.stack)
        } else {
            self.span_inside(segment, self.insides[number].as_slice())
        }
    }

    /// The end in the file behind an event: that of the section that it places, unless that is skipped.
    fn file_end_behind(&self, event: &OrderEvent, end: u64) -> u64
        requires ready { CanSpan self.now }
        requires in_range { IsInRange self.now.link.now.plan event.now }
        ensures { result ≡ file_end_behind self.now.link.now.plan self.now.records.now (is_marked self.now.emitted.now) end (event.now ∷ []) }
    {
        match *event {
            OrderEvent::Section(section) if !self.is_skipped(section) => {
                self.records[section.as_usize()].file_end()
            }
            _ => end,
        }
    }

    /// The end in the file of the last section before the opening of a segment that isn't skipped, 0 where there is none.
    fn compact_start(&self, segment: SegmentId) -> u64
        requires ready { CanSpan self.now }
        ensures { result ≡ compact_start self.now.link.now.plan self.now.records.now (is_marked self.now.emitted.now) segment }
    {
        let mut end = 0;
        for event in self.link.plan.events.as_slice() {
            if opens(event, segment) {
                return end;
            }
            end = self.file_end_behind(event, end);
        }
        end
    }

    /// The greatest end in the file of these sections, of those with bytes of the file, and at least this.
    fn compact_end(&self, least: u64, inside: &[OutputSectionId]) -> u64
        requires { All (λ s. s < length self.now.records.now) inside.now }
        ensures greatest { result ≡ compact_end self.now.records.now least inside.now }
        ensures at_least { least ≤ result }
    {
        let mut end = least;
        for section in inside {
            end = raise_end(end, &self.records[section.as_usize()]);
        }
        end
    }

    /// The same of those inside a segment, of which the stack has none in the file.
    fn end_inside(&self, segment: SegmentId, least: u64) -> u64
        requires ready { CanSpan self.now }
        requires there { segment < length self.now.link.now.plan.segments }
        ensures greatest { result ≡ compact_end self.now.records.now least (in_file_inside self.now.link.now.plan segment) }
        ensures at_least { least ≤ result }
    {
        let number = segment.as_usize();
        if self.link.plan.segments.as_slice()[number].kind.is_stack() {
            least
        } else {
            self.compact_end(least, self.insides[number].as_slice())
        }
    }

    /// A segment's record in a file without gaps between segments.
    fn compact(&self, segment: SegmentId, sizes: OutputRecordLayout) -> OutputRecordLayout
        requires ready { CanSpan self.now }
        requires there { segment < length self.now.link.now.plan.segments }
        ensures { result ≡ compacted self.now.link.now.plan self.now.records.now (is_marked self.now.emitted.now) segment sizes }
    {
        let start = self.compact_start(segment);
        let end = self.end_inside(segment, start);
        OutputRecordLayout {
            file_offset: start,
            file_size: end - start,
            ..sizes
        }
    }

    /// The layout of a segment.
    fn lay_out(&self, segment: SegmentId) -> SegmentLayout
        requires ready { CanSpan self.now }
        requires there { segment < length self.now.link.now.plan.segments }
        ensures { let link = self.now.link.now
            in result ≡ segment_layout self.now.file link.plan link.options.stack self.now.records.now (is_marked self.now.emitted.now) segment }
    {
        let sizes = self.span_segment(segment);
        let sizes = match self.file {
            SegmentFileLayout::FromSections => sizes,
            SegmentFileLayout::Compacted => self.compact(segment, sizes),
        };
        SegmentLayout { id: segment, sizes }
    }

    /// The layouts of these segments.
    fn lay_out_all(
        &self,
        alloc: Global,
        active: &[SegmentId],
    ) -> Result<Vec<SegmentLayout>, AllocError>
        requires ready { CanSpan self.now }
        requires there { All (λ i. i < length self.now.link.now.plan.segments) active.now }
        ensures { let link = self.now.link.now in IfOk result (λ all. all.items
            ≡ segment_layouts self.now.file link.plan link.options.stack self.now.records.now (is_marked self.now.emitted.now) active.now) }
    {
        let mut all = Vec::with_capacity(alloc, active.len())?;
        for segment in active {
            all.push(self.lay_out(*segment))?;
        }
        Ok(all)
    }

    /// The first section, in the order of events, that isn't skipped, is allocated and stands in no segment.
    fn find_outside(&self, alloc: Global) -> Result<Option<OutputSectionId>, AllocError>
        requires ready { CanSpan self.now }
        ensures { IfOk result (λ found. found
            ≡ found_outside self.now.link.now.plan self.now.records.now (is_marked self.now.emitted.now)) }
    {
        let plan = &self.link.plan;
        let standing = mark_standing(alloc, self.records.len(), self.insides)?;
        for event in plan.events.as_slice() {
            if let OrderEvent::Section(section) = *event {
                if !self.is_skipped(section)
                    && plan.is_allocated(section)
                    && !standing[section.as_usize()]
                {
                    return Ok(Some(section));
                }
            }
        }
        Ok(None)
    }

    /// The first section, in the order of events, that stands outside the segments and may not.
    fn outside(&self, alloc: Global) -> Result<Option<OutputSectionId>, AllocError>
        requires ready { CanSpan self.now }
        ensures { IfOk result (λ found. found ≡ first_outside self.now.link.now self.now.records.now (is_marked self.now.emitted.now)) }
    {
        if may_stand_outside(self.link) {
            return Ok(None);
        }
        self.find_outside(alloc)
    }
}

/// Whether sections may stand outside the segments: where the program headers are asked for, and in partial output, which
/// has no segments.
fn may_stand_outside(link: &LinkInput) -> bool
    ensures { result ≡ may_stand_outside link.now }
{
    link.plan.custom_phdrs || link.options.output.is_partial()
}

/// What these segments span, in memory and in this kind of file, by the records of all output sections and the marks of the
/// emitted ones (libwild: `compute_segment_layout`). Refuses the first section, in the order of events, that isn't skipped, is
/// allocated and stands in no segment, unless output is partial or the program headers were asked for; else the thread-local
/// segment, if its end, rounded up to its alignment, passes 2^64 - 1.
pub fn compute_segment_layout(
    alloc: Global,
    link: &LinkInput,
    sections: &[OutputRecordLayout],
    emitted: &[bool],
    active: &[SegmentId],
    kind: SegmentFileLayout,
) -> Result<SegmentLayouts, PlaceError>
    requires well_formed { IsWellFormed link.now }
    requires each { length sections.now ≡ length link.now.plan.sections }
    requires there { All (λ i. i < length link.now.plan.segments) active.now }
    ensures layouts { IfOk result (λ all. all.segments
        ≡ segment_layouts kind link.now.plan link.now.options.stack sections.now (is_marked emitted.now) active.now) }
    ensures thread_local { IfOk result (λ all. all.tls_layout ≡ option_map (λ l. l.sizes) (thread_local_one link.now.plan all.segments)) }
    ensures refuses_none { OnOk result (segments_refusal kind link.now sections.now (is_marked emitted.now) active.now ≡ None) }
    ensures refusal { IfErr result (λ e. Refuses e (segments_refusal kind link.now sections.now (is_marked emitted.now) active.now)) }
{
    let insides = link.plan.sections_of_segments(alloc)?;
    let spans = Spans {
        link,
        records: sections,
        emitted,
        insides: &insides,
        file: kind,
    };
    if let Some(section) = spans.outside(alloc)? {
        return Err(PlaceError::SectionOutsideSegments { section });
    }
    let segments = spans.lay_out_all(alloc, active)?;
    let tls_layout = span_thread_local(find_thread_local(&link.plan, &segments))?;
    Ok(SegmentLayouts {
        segments: List::from_vec(segments),
        tls_layout,
    })
}
