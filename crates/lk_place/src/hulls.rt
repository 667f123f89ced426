//! What several records span, and the records of output sections.
//!
//! The hull of records reaches from the least start to the greatest end, in the file and in memory. A section's record is
//! the hull of its parts' records, which are a range of the records of all parts.

ghost use Rattle.std.specs.Prelude.{◌≡◌, ◌<◌, true, IfOk, filter, length, map, max, if◌then◌else◌};
ghost use Rattle.std.specs.List.{list_all};
ghost use Rattle.lk_link.specs.Alignments.{is_alignment};
ghost use Rattle.lk_link.specs.Parts.{all_parts};
ghost use Rattle.lk_link.specs.Rules.{is_good_section};
ghost use Rattle.lk_place.specs.Alignments.{greatest_of};
ghost use Rattle.lk_place.specs.Hulls.{spanned, with_record};
ghost use Rattle.lk_expressions.specs.Records.{is_filled, nowhere};
ghost use Rattle.lk_place.specs.Segments.{hull, section_record, section_records};

use lk_expressions::OutputRecordLayout;
use lk_link::alignment::Alignment;
use lk_link::plan::{PlanSection, PlanSections};
use std::alloc::{AllocError, Global};

/// What reaches from the lesser start to the greater end of two.
fn span(a: &OutputRecordLayout, b: &OutputRecordLayout) -> OutputRecordLayout
    ensures { result ≡ spanned a.now b.now }
{
    let file_offset = a.file_offset.min(b.file_offset);
    let mem_offset = a.mem_offset.min(b.mem_offset);
    OutputRecordLayout {
        file_size: a.file_end().max(b.file_end()) - file_offset,
        mem_size: a.mem_end().max(b.mem_end()) - mem_offset,
        alignment: a.alignment.greater(b.alignment),
        file_offset,
        mem_offset,
        lma_offset: a.lma_offset.min(b.lma_offset),
    }
}

/// What reaches over one more.
pub(crate) fn with_record(
    so_far: Option<OutputRecordLayout>,
    one: &OutputRecordLayout,
) -> Option<OutputRecordLayout>
    ensures { result ≡ with_record so_far one.now }
{
    match so_far {
        None => Some(*one),
        Some(all) => Some(span(&all, one)),
    }
}

/// Nothing, at the start of all.
pub(crate) fn nothing() -> OutputRecordLayout
    ensures { result ≡ nowhere }
{
    OutputRecordLayout::default()
}

/// The hull of several records.
pub(crate) fn hull_of(records: &[OutputRecordLayout]) -> OutputRecordLayout
    ensures { result ≡ hull records.now }
{
    let mut all = None;
    for one in records {
        all = with_record(all, one);
    }
    all.unwrap_or(nothing())
}

/// The greater of this alignment and a record's, if the record has bytes.
fn raise(greatest: Alignment, one: &OutputRecordLayout) -> Alignment
    ensures { result ≡ (if is_filled one.now then max greatest one.now.alignment else greatest) }
{
    if one.is_filled() {
        greatest.greater(one.alignment)
    } else {
        greatest
    }
}

/// The greatest alignment of the records with bytes, and at least this one.
fn greatest_filled(least: Alignment, records: &[OutputRecordLayout]) -> Alignment
    ensures { result ≡ greatest_of least (map (λ r. r.alignment) (filter is_filled records.now)) }
{
    let mut greatest = least;
    for one in records {
        greatest = raise(greatest, one);
    }
    greatest
}

/// What a section spans, by the records of its parts: their hull, at the greatest alignment of those with bytes, and at
/// least at the section's own (libwild: `layout_section_from_part_layouts`).
pub fn layout_section_from_part_layouts(
    section: &PlanSection,
    parts: &[OutputRecordLayout],
) -> OutputRecordLayout
    requires { is_alignment section.now.align ≡ true }
    ensures { result ≡ section_record section.now parts.now }
{
    let all = hull_of(parts);
    let least = Alignment::new(section.align).unwrap();
    OutputRecordLayout {
        alignment: greatest_filled(least, parts),
        file_size: all.file_size,
        mem_size: all.mem_size,
        file_offset: all.file_offset,
        mem_offset: all.mem_offset,
        lma_offset: all.lma_offset,
    }
}

/// The records of all sections, by those of all parts.
#[tactic(auto, using(lk_link::proofs::PartNumbers::part_numbers, crate::proofs::Checked::good_sections))]
pub(crate) fn span_sections(
    alloc: Global,
    sections: &PlanSections,
    parts: &[OutputRecordLayout],
) -> Result<Vec<OutputRecordLayout>, AllocError>
    requires good { list_all (is_good_section sections.now) sections.now ≡ true }
    requires each { length parts.now ≡ length (all_parts sections.now) }
    ensures { IfOk result (λ records. records.items ≡ section_records sections.now parts.now) }
{
    let mut records = Vec::with_capacity(alloc, sections.len())?;
    for (number, section) in sections.as_slice().iter().enumerate() {
        let (first, behind) = sections.part_range(number);
        records.push(layout_section_from_part_layouts(section, &parts[first..behind]))?;
    }
    Ok(records)
}
