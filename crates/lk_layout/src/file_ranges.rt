//! Output sections that are moved in the file, and what is told of the file anew.

ghost use Rattle.std.specs.Prelude.{◌≡◌, ◌+◌, ◌^◌, ◌<◌, None, Some, IfErr, IfOk, OnErr, OnOk, if◌then◌else◌, length, nat_lt, option_map};
ghost use Rattle.lk_link.specs.Marks.{is_marked};
ghost use Rattle.lk_link.specs.Parts.{all_parts};
ghost use Rattle.lk_place.specs.declared.error.PlaceError.TheVariants.{NoMemory};
ghost use Rattle.lk_place.specs.Secondaries.{merged_records};
ghost use Rattle.lk_place.specs.Segments.{part_records, segment_layouts, thread_local_one};
ghost use Rattle.lk_layout.specs.FileRanges.{file_bytes, moved_parts, moved_sections};
ghost use Rattle.lk_layout.specs.Movable.{CanRefresh};
ghost use Rattle.lk_layout.specs.Refreshed.{after_move, end_of_move, refreshed};

use crate::layout::Layout;
use lk_link::ids::OutputSectionId;
use lk_link::link::LinkInput;
use lk_link::list::List;
use lk_link::plan::PlanSections;
use lk_place::{
    OutputRecordLayout, PlaceError, SegmentFileLayout, SegmentLayouts, assign_section_file_range,
    compute_segment_layout, merge_secondary_parts,
};
use lk_sizes::HeaderInfo;
use std::alloc::{AllocError, Global};

/// Where these records would end in the file if they stood one behind the other from `start` on. `None` past 2^64 - 1.
fn end_behind(records: &[OutputRecordLayout], start: u64) -> Option<u64>
    ensures { let end = start + file_bytes records.now in result ≡ (if nat_lt end (2 ^ 64) then Some end else None) }
{
    let mut end = start;
    for one in records {
        end = end.checked_add(one.file_size)?;
    }
    Some(end)
}

/// Puts a section and its parts at `start` in the file, and gives the end of the parts.
#[tactic(auto, using(lk_link::proofs::PartNumbers::part_numbers))]
fn move_section(
    sections: &PlanSections,
    records: &mut [OutputRecordLayout],
    parts: &mut [OutputRecordLayout],
    section: usize,
    start: u64,
) -> u64
    requires there { section < length sections.now }
    requires each { length records.old ≡ length sections.now }
    requires parts { length parts.old ≡ length (all_parts sections.now) }
    requires fits { start + file_bytes (part_records sections.now parts.old section) < 2 ^ 64 }
    ensures records { records.new ≡ moved_sections sections.now records.old parts.old section start }
    ensures parts { parts.new ≡ moved_parts sections.now parts.old section start }
    ensures end { result ≡ start + file_bytes (part_records sections.now parts.old section) }
{
    let (first, behind) = sections.part_range(section);
    assign_section_file_range(
        &sections.as_slice()[section],
        &mut records[section],
        &mut parts[first..behind],
        start,
    )
}

/// What is found, where nothing but memory may be wanting.
fn unless_short<T>(found: Result<T, PlaceError>) -> Result<T, AllocError>
    requires memory { IfErr found (λ e. e ≡ NoMemory) }
    ensures { IfOk result (λ x. found ≡ Ok x) }
{
    match found {
        Ok(found) => Ok(found),
        Err(PlaceError::NoMemory) => Err(AllocError),
        Err(_) => unreachable!(),
    }
}

/// What the sections span together with their secondaries, and what the active segments span, in this kind of file.
fn span_anew(
    alloc: Global,
    link: &LinkInput,
    header: &HeaderInfo,
    records: &[OutputRecordLayout],
    kind: SegmentFileLayout,
) -> Result<(Vec<OutputRecordLayout>, SegmentLayouts), AllocError>
    requires { CanRefresh link.now header.now records.now }
    ensures merged { IfOk result (λ q. q.0.items ≡ merged_records link.now.plan.sections records.now) }
    ensures segments { IfOk result (λ q. q.1.segments
        ≡ segment_layouts kind link.now.plan link.now.options.stack records.now (is_marked header.now.emitted) header.now.active_segment_ids) }
    ensures thread_local { IfOk result (λ q. q.1.tls_layout ≡ option_map (λ l. l.sizes) (thread_local_one link.now.plan q.1.segments)) }
{
    let merged = unless_short(merge_secondary_parts(alloc, link, records))?;
    let emitted = header.emitted.as_slice();
    let active = header.active_segment_ids.as_slice();
    let segments = unless_short(compute_segment_layout(
        alloc, link, records, emitted, active, kind,
    ))?;
    Ok((merged, segments))
}

impl<'data> Layout<'data> {
    /// Moves a section to `start` in the file: its parts then follow one another from there on, without padding, and it takes as many
    /// bytes of the file as they do. Gives their end. It may come to stand on bytes of other sections. Memory stays as it is, and so does
    /// what is told of segments and of sections with their secondaries, until `refresh_file_layouts`. `None`, and nothing is changed,
    /// exactly where the start and the bytes that all sections take in the file together pass 2^64 - 1. Looks at each section once, and
    /// writes each of its parts once.
    pub fn set_section_file_range(&mut self, section: OutputSectionId, start: u64) -> Option<u64>
        requires there { section < length self.old.link.plan.sections }
        ensures end { result ≡ end_of_move self.old section start }
        ensures layout { self.new ≡ after_move self.old section start result }
    {
        end_behind(self.section_layouts.as_slice(), start)?;
        let end = move_section(
            &self.link.plan.sections,
            self.section_layouts.as_mut_slice(),
            self.section_part_layouts.as_mut_slice(),
            section.as_usize(),
            start,
        );
        Some(end)
    }

    /// Tells anew what sections span with their secondaries and what segments span, by the records that sections have now, in this kind
    /// of file (libwild: `refresh_file_layouts`). Of a defined layout, and of what such calls make of one, the memory that is told stays, by a
    /// law (`memory_stays`). Where memory runs out, the layout is as it was; nothing else is refused. Takes as long as
    /// `merge_secondary_parts` and `compute_segment_layout`.
    pub fn refresh_file_layouts(
        &mut self,
        alloc: Global,
        kind: SegmentFileLayout,
    ) -> Result<(), AllocError>
        ensures refreshed { OnOk result (self.new ≡ refreshed kind self.old) }
        ensures unchanged { OnErr result (self.new ≡ self.old) }
    {
        let (merged, segments) = span_anew(
            alloc,
            self.link,
            &self.header_info,
            self.section_layouts.as_slice(),
            kind,
        )?;
        self.merged_section_layouts = List::from_vec(merged);
        self.segment_layouts = segments.segments;
        self.tls_layout = segments.tls_layout;
        Ok(())
    }
}
