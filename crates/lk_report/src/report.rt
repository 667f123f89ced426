//! The report of a layout.

ghost use Rattle.std.specs.Prelude.{◌≡◌, ◌+◌, ◌^◌, ◌<◌, ◌++◌, string_bytes, slice_range, take, drop, length, IfOk};
ghost use Rattle.std.specs.List.{list_any};
ghost use Rattle.lk_link.specs.WellFormed.{IsWellFormed};
ghost use Rattle.lk_link.specs.Texts.{joined};
ghost use Rattle.lk_report.specs.Report.{report, report_texts, each, range_text, index_text, section_line, section_text, laid_out_text};
ghost use Rattle.lk_report.specs.ReportPieces.{report_end};
ghost use Rattle.lk_report.specs.Report.{takes_memory, part_line, part_text, told_lines, section_part_lines, segment_line, entry_line};

use crate::live_sections::{add_texts, live_room, live_texts, texts_room, write_live_sections};
use crate::merged::{merged_room, write_merged};
use crate::singles::write_singles;
use crate::symbols::{add_parts, part_texts, parts_room, symbols_room, write_symbols};
use crate::thunks::{thunks_room, write_thunks};
use lk_layout::{EntryFault, Layout};
use lk_link::link::LinkInput;
use lk_link::plan::{PlanSection, PlanSections};
use lk_place::{OutputRecordLayout, SegmentLayout};
use std::alloc::{AllocError, Global};
use std::fmt;
use std::thread::Threads;

/// No more workers than these are started; a greater number counts as this.
const MOST_WORKERS: u32 = 64;

/// Bytes that a line with a record mostly has room in.
const RECORD_LINE: usize = 112;

/// A record as it is printed.
#[derive(Clone, Copy)]
struct RangeText {
    range: OutputRecordLayout,
}

/// As `mem 0x1000 8 file 0x0 8 align 8`.
#[tactic(auto, unfolding(crate::specs::Report::range_text))]
impl fmt::Display for RangeText {
    ghost use Rattle.std.specs.Prelude.{Some};

    ghost output = { λ shown. Some (range_text shown.range) };

    fn fmt<W: fmt::Write>(&self, f: &mut fmt::Formatter<W>) -> fmt::Result {
        let address = self.range.mem_offset;
        let bytes = self.range.mem_size;
        let offset = self.range.file_offset;
        let size = self.range.file_size;
        let alignment = self.range.alignment.value();
        write!(
            f,
            "mem 0x{address:x} {bytes} file 0x{offset:x} {size} align {alignment}"
        )
    }
}

/// An output index as it is printed.
#[derive(Clone, Copy)]
struct IndexText {
    index: Option<u32>,
}

/// The number, or `-` for none.
impl fmt::Display for IndexText {
    ghost use Rattle.std.specs.Prelude.{Some};

    ghost output = { λ shown. Some (index_text shown.index) };

    fn fmt<W: fmt::Write>(&self, f: &mut fmt::Formatter<W>) -> fmt::Result {
        match self.index {
            None => write!(f, "-"),
            Some(index) => write!(f, "{index}"),
        }
    }
}

/// The report of a link's layout: a line for each output section, each part that has bytes or is the first of a section
/// without bytes, each active segment, each live section, each singleton, each output section into which something is merged, each distinct
/// piece, each block of thunks that a file owns, each thunk and each symbol with a resolution, and one for the entry. What the layout has no record of is left out.
pub fn report_text(
    alloc: Global,
    link: &LinkInput,
    layout: &Layout<'_>,
) -> Result<String, AllocError>
    requires good { IsWellFormed link.now }
    ensures { IfOk result (λ text. string_bytes text ≡ report link.now layout.now) }
{
    let mut text = String::with_capacity(alloc, room_of(layout))?;
    write_start(&mut text, link, layout)?;
    write_live_sections(&mut text, link, layout)?;
    write_behind_live(&mut text, link, layout)?;
    write_symbols(&mut text, layout.symbol_resolutions())?;
    write_end(&mut text, layout)?;
    Ok(text)
}

/// The same by so many workers. The lines of live sections are made group by group, in two pieces for each processor whatever that number
/// is, and those of symbols, of which most reports consist, in as many parts as there are workers, 64 at most, each on a thread of its own,
/// for which the caller waits. Then all are added in their order. With 0 or 1 all is done on the caller's own thread. These lines stand a
/// second time until they are added.
pub fn report_text_by_workers<R: Threads + Sync>(
    rt: &R,
    alloc: Global,
    link: &LinkInput,
    layout: &Layout<'_>,
    workers: u32,
) -> Result<String, AllocError>
    requires good { IsWellFormed link.now }
    ensures { IfOk result (λ text. string_bytes text ≡ report link.now layout.now) }
{
    if workers < 2 {
        return report_text(alloc, link, layout);
    }
    let live = live_texts(rt, alloc, link, layout)?;
    let resolutions = layout.symbol_resolutions();
    let parts = part_texts(rt, alloc, resolutions, workers.min(MOST_WORKERS) as usize)?;
    let room = room_beside(layout)
        .saturating_add(texts_room(&live))
        .saturating_add(parts_room(&parts));
    let mut text = String::with_capacity(alloc, room)?;
    write_start(&mut text, link, layout)?;
    add_texts(&mut text, live.as_slice())?;
    drop(live);
    write_behind_live(&mut text, link, layout)?;
    add_parts(&mut text, resolutions, parts)?;
    write_end(&mut text, layout)?;
    Ok(text)
}

/// How many bytes the report mostly has, so that its text seldom grows.
fn room_of(layout: &Layout<'_>) -> usize {
    let resolutions = layout.symbol_resolutions();
    let symbols = symbols_room(resolutions, 0, resolutions.len());
    room_beside(layout)
        .saturating_add(live_room(layout.live_marks()))
        .saturating_add(symbols)
}

/// How many bytes it mostly has beside the lines of live sections and of symbols.
fn room_beside(layout: &Layout<'_>) -> usize {
    let records = layout
        .section_layouts()
        .len()
        .saturating_add(layout.section_part_layouts().len())
        .saturating_add(layout.segment_layouts().len())
        .saturating_add(1);
    records
        .saturating_mul(RECORD_LINE)
        .saturating_add(merged_room(layout.merged_strings()))
        .saturating_add(thunks_room(layout))
}

/// The lines before those of live sections.
fn write_start(text: &mut String, link: &LinkInput, layout: &Layout<'_>) -> Result<(), AllocError>
    ensures { IfOk result (λ _. string_bytes text.new ≡ string_bytes text.old ++ joined (take 4 (report_texts link.now layout.now))) }
{
    text.push_str("layout\n")?;
    write_records(text, link, layout)
}

/// The lines behind those of live sections, up to those of symbols.
fn write_behind_live(
    text: &mut String,
    link: &LinkInput,
    layout: &Layout<'_>,
) -> Result<(), AllocError>
    requires good { IsWellFormed link.now }
    ensures { IfOk result (λ _. string_bytes text.new ≡ string_bytes text.old ++ joined (take 5 (drop 5 (report_texts link.now layout.now)))) }
{
    write_singles(text, link, layout)?;
    write_merged(
        text,
        layout.merged_strings(),
        layout.merged_string_start_addresses(),
    )?;
    write_thunks(text, layout)?;
    Ok(())
}

/// The lines behind those of symbols.
fn write_end(text: &mut String, layout: &Layout<'_>) -> Result<(), AllocError>
    ensures { IfOk result (λ _. string_bytes text.new ≡ string_bytes text.old ++ report_end layout.now) }
{
    write_entry(text, layout.resolved_entry_symbol_address())?;
    text.push_str("end\n")
}

/// The lines of sections, parts and segments.
fn write_records(text: &mut String, link: &LinkInput, layout: &Layout<'_>) -> Result<(), AllocError>
    ensures { IfOk result (λ _. string_bytes text.new ≡ string_bytes text.old ++ joined (take 3 (drop 1 (report_texts link.now layout.now)))) }
{
    let sections = &link.plan.sections;
    write_sections(text, sections.as_slice(), layout)?;
    write_parts(text, sections, layout.section_part_layouts())?;
    write_segments(text, layout.segment_layouts())
}

/// The lines of the output sections.
fn write_sections(
    text: &mut String,
    sections: &[PlanSection],
    layout: &Layout<'_>,
) -> Result<(), AllocError>
    ensures { IfOk result (λ _. string_bytes text.new ≡ string_bytes text.old ++ each (λ s _. laid_out_text layout.now s) 0 sections.now) }
{
    for (number, _) in sections.iter().enumerate() {
        write_section(text, number, layout)?;
    }
    Ok(())
}

/// The line of an output section that the layout has a record of.
#[tactic(auto, unfolding(crate::specs::Report::section_text))]
fn write_section(text: &mut String, number: usize, layout: &Layout<'_>) -> Result<(), AllocError>
    ensures { IfOk result (λ _. string_bytes text.new ≡ string_bytes text.old ++ laid_out_text layout.now number) }
{
    let range = layout.section_layouts().get(number);
    let index = layout.output_section_indexes().get(number);
    let attrs = layout.section_attributes().get(number);
    match (range, index, attrs) {
        (Some(range), Some(index), Some(attrs)) => {
            write_section_line(text, number, range, *index, *attrs)
        }
        _ => Ok(()),
    }
}

/// The line of an output section.
#[tactic(auto, unfolding(crate::specs::Report::section_line))]
fn write_section_line(
    text: &mut String,
    number: usize,
    range: &OutputRecordLayout,
    index: Option<u32>,
    attrs: u32,
) -> Result<(), AllocError>
    ensures { IfOk result (λ _. string_bytes text.new ≡ string_bytes text.old ++ section_line number range.now index attrs) }
{
    let index = IndexText { index };
    let place = RangeText { range: *range };
    let loaded = range.lma_offset;
    write!(
        text,
        "section {number} index {index} {place} lma 0x{loaded:x} attrs {attrs}\n"
    )
}

/// The lines of the parts, section by section.
fn write_parts(
    text: &mut String,
    sections: &PlanSections,
    parts: &[OutputRecordLayout],
) -> Result<(), AllocError>
    ensures { IfOk result (λ _. string_bytes text.new ≡ string_bytes text.old
        ++ each (λ s _. section_part_lines sections.now parts.now s) 0 sections.now) }
{
    for (number, _) in sections.as_slice().iter().enumerate() {
        write_section_parts(text, sections, parts, number)?;
    }
    Ok(())
}

/// The lines of a section's parts.
fn write_section_parts(
    text: &mut String,
    sections: &PlanSections,
    parts: &[OutputRecordLayout],
    number: usize,
) -> Result<(), AllocError>
    requires { number < length sections.now }
    ensures { IfOk result (λ _. string_bytes text.new ≡ string_bytes text.old ++ section_part_lines sections.now parts.now number) }
{
    let (first, behind) = sections.part_range(number);
    write_told(text, first, from_to(parts, first, behind))
}

/// The records from one number up to another, as far as there are any.
fn from_to(parts: &[OutputRecordLayout], first: usize, behind: usize) -> &[OutputRecordLayout]
    ensures value { result.now ≡ slice_range parts.now first behind }
    ensures room { first + length result.now < 2 ^ 64 }
{
    let behind = behind.min(parts.len());
    let first = first.min(behind);
    &parts[first..behind]
}

/// The lines of a section's parts that are told, of which the first has this number.
fn write_told(
    text: &mut String,
    first: usize,
    parts: &[OutputRecordLayout],
) -> Result<(), AllocError>
    requires { first + length parts.now < 2 ^ 64 }
    ensures { IfOk result (λ _. string_bytes text.new ≡ string_bytes text.old ++ told_lines first parts.now) }
{
    let is_empty = !any_takes_memory(parts);
    for (offset, range) in parts.iter().enumerate() {
        write_part(text, is_empty, first, first + offset, range)?;
    }
    Ok(())
}

/// Whether a part takes memory.
fn any_takes_memory(parts: &[OutputRecordLayout]) -> bool
    ensures { result ≡ list_any takes_memory parts.now }
{
    parts.iter().any(|range| range.mem_size > 0)
}

/// The line of a part, where it is told: one with bytes, and the first part of a section without bytes.
#[tactic(auto, unfolding(crate::specs::Report::part_text))]
fn write_part(
    text: &mut String,
    is_empty: bool,
    first: usize,
    number: usize,
    range: &OutputRecordLayout,
) -> Result<(), AllocError>
    ensures { IfOk result (λ _. string_bytes text.new ≡ string_bytes text.old ++ part_text is_empty first number range.now) }
{
    if range.mem_size > 0 || (is_empty && number == first) {
        write_part_line(text, number, range)?;
    }
    Ok(())
}

/// The line of a part.
#[tactic(auto, unfolding(crate::specs::Report::part_line))]
fn write_part_line(
    text: &mut String,
    number: usize,
    range: &OutputRecordLayout,
) -> Result<(), AllocError>
    ensures { IfOk result (λ _. string_bytes text.new ≡ string_bytes text.old ++ part_line number range.now) }
{
    let place = RangeText { range: *range };
    write!(text, "part {number} {place}\n")
}

/// The lines of the active segments.
fn write_segments(text: &mut String, segments: &[SegmentLayout]) -> Result<(), AllocError>
    ensures { IfOk result (λ _. string_bytes text.new ≡ string_bytes text.old ++ each (λ _ segment. segment_line segment) 0 segments.now) }
{
    for segment in segments {
        write_segment(text, segment)?;
    }
    Ok(())
}

/// The line of a segment.
#[tactic(auto, unfolding(crate::specs::Report::segment_line))]
fn write_segment(text: &mut String, segment: &SegmentLayout) -> Result<(), AllocError>
    ensures { IfOk result (λ _. string_bytes text.new ≡ string_bytes text.old ++ segment_line segment.now) }
{
    let number = segment.id.as_u32();
    let place = RangeText {
        range: segment.sizes,
    };
    write!(text, "segment {number} {place}\n")
}

/// The line of the entry: its address, or that there is none, or why it has none.
#[tactic(auto, unfolding(crate::specs::Report::entry_line))]
fn write_entry(text: &mut String, entry: Result<Option<u64>, EntryFault>) -> Result<(), AllocError>
    ensures { IfOk result (λ _. string_bytes text.new ≡ string_bytes text.old ++ entry_line entry) }
{
    match entry {
        Ok(Some(address)) => write!(text, "entry 0x{address:x}\n"),
        Ok(None) => text.push_str("entry -\n"),
        Err(EntryFault::NotLoaded) => text.push_str("entry not loaded\n"),
        Err(EntryFault::NotAnAddress) => text.push_str("entry not an address\n"),
    }
}
