//! What sections, segments and secondaries span, by records made by hand.
//!
//! A record is told as `ADDRESS,BYTES,OFFSET,BYTES,ALIGNMENT`, with `,LOAD ADDRESS` behind it where that is another, all in
//! decimal. A row has the records of all sections, or of the parts of the first, a `!` behind those of emitted sections, and then
//! a description.

ghost use Rattle.std.specs.Prelude.{◌≡◌, ◌+◌, ◌<◌, ◌≤◌, ◌^◌, All, IfOk, IsTrue, length, sum_by};
ghost use Rattle.lk_link.specs.WellFormed.{IsWellFormed};

use crate::placement::OfPlacement;
use crate::rows::{Asked, expect_rows};
use lk_check::check_link;
use lk_input::read_link;
use lk_link::{Alignment, LinkInput, Plan, PlanSection, SegmentId};
use lk_place::{
    OutputRecordLayout, SegmentFileLayout, SegmentLayout, SegmentLayouts,
    assign_section_file_range, compute_segment_alignments, compute_segment_layout,
    layout_section_from_part_layouts, merge_secondary_parts,
};
use lk_test_rows::add;
use std::alloc::{AllocError, Global};
use std::test::Fail;

/// Secondaries, joined to their primaries. Sections 0 and 1 stand alone or are primaries, and the others secondary to them.
const MERGED: &str = r#"
@ ... {"plan":{"page":16,"sections":[{"parts":[[1,false]]},{"parts":[[1,false]]},{"primary":0,"parts":[[1,false]]},{"primary":1,"parts":[[1,false]]},{"primary":0,"parts":[[1,false]]}],"events":[["sec",0],["sec",1],["sec",2],["sec",3],["sec",4]]},"groups":[[{"kind":"prelude"}]]}
# Sizes add, from the primary's start, wherever the secondaries stand; the alignment of those with bytes counts.
16,4,0,4,4 64,1,9,0,1 20,4,4,4,8 0,2,100,3,2 200,0,300,5,16 => merged 16,8,0,13,8 64,3,9,3,2 0,0,0,0,1 0,0,0,0,1 0,0,0,0,1
16,4,0,4,4,8 64,1,9,0,1,7 20,4,4,4,8,99 0,0,0,0,32 0,0,0,0,64 => merged 16,8,0,8,8,8 64,1,9,0,1,7 0,0,0,0,1 0,0,0,0,1 0,0,0,0,1
# The last end of all is 2^64 - 1.
18446744073709551610,2,18446744073709551611,2,1 0,0,0,0,1 5,3,5,1,1 0,0,0,0,1 9,0,9,1,1 => merged 18446744073709551610,5,18446744073709551611,4,1 0,0,0,0,1 0,0,0,0,1 0,0,0,0,1 0,0,0,0,1
# An end passes that: in memory, in the file, by the second secondary of a primary; the first in the order of secondaries, not of
# primaries; and by sizes that pass it themselves.
18446744073709551610,2,0,2,1 0,0,0,0,1 5,4,5,4,1 0,0,0,0,1 0,0,0,0,1 | 0,2,18446744073709551610,2,1 0,0,0,0,1 5,0,5,4,1 0,0,0,0,1 0,0,0,0,1 | 18446744073709551610,2,0,2,1 0,0,0,0,1 5,3,0,0,1 0,0,0,0,1 0,1,0,0,1 | 0,18446744073709551615,0,0,1 0,0,0,0,1 0,18446744073709551615,0,0,1 0,0,0,0,1 0,0,0,0,1 => refused AddressOverflow { place: Section(0) }
18446744073709551610,2,0,2,1 18446744073709551610,2,0,2,1 5,3,5,3,1 9,9,9,9,1 9,9,9,9,1 => refused AddressOverflow { place: Section(1) }
# Secondaries that stretch their primary, with bytes or without, and one that doesn't between them: in their order.
@ ... {"plan":{"page":16,"sections":[{"parts":[[1,false]]},{"primary":0,"counters":true,"parts":[[1,false]]},{"primary":0,"parts":[[1,false]]},{"primary":0,"counters":true,"parts":[[1,false]]}],"events":[["sec",0],["sec",1],["sec",2],["sec",3]]},"groups":[[{"kind":"prelude"}]]}
16,4,0,4,4 32,0,8,0,16 0,4,0,1,8 16,8,0,100,2 => merged 16,20,0,100,8 0,0,0,0,1 0,0,0,0,1 0,0,0,0,1
16,4,0,4,4 20,4,4,4,16 28,4,8,4,1 40,4,12,4,1 => merged 16,28,0,16,16 0,0,0,0,1 0,0,0,0,1 0,0,0,0,1
16,4,8,4,4 2,6,0,6,16 0,1,0,1,1 0,2,0,2,1 => merged 16,5,8,5,16 0,0,0,0,1 0,0,0,0,1 0,0,0,0,1
18446744073709551610,2,0,2,1 18446744073709551614,1,18446744073709551615,0,1 0,0,0,0,1 0,0,0,0,1 => merged 18446744073709551610,5,0,18446744073709551615,1 0,0,0,0,1 0,0,0,0,1 0,0,0,0,1
18446744073709551610,2,0,2,1 18446744073709551614,1,0,0,1 0,1,0,0,1 0,0,0,0,1 => refused AddressOverflow { place: Section(0) }
"#;

/// Segments over records, in both kinds of file.
const SEGMENTS: &str = r#"
# What counts inside: neither sections without bytes that aren't emitted, nor zero-fill thread-local ones but in the thread-local
# segment, whose end is rounded up. Sections: 4 bytes, thread-local ones with and without bytes, an empty one, 4 bytes.
@ ... {"plan":{"page":4096,"sections":[{"attrs":1,"parts":[[1,false]]},{"attrs":9,"parts":[[4,false]]},{"attrs":25,"parts":[[16,false]]},{"attrs":1,"parts":[[1,false]]},{"attrs":1,"parts":[[4,false]]}],"segments":[{"kind":"load"},{"kind":"tls"},{"kind":"stack"},{"kind":"other"}],"events":[["seg",0],["sec",0],["seg",1],["sec",1],["sec",2],["endseg",1],["seg",2],["sec",3],["endseg",2],["sec",4],["endseg",0],["seg",3],["endseg",3]]},"options":{"stack":7},"groups":[[{"kind":"prelude"}]]}
4096,4,0,4,1! 4100,4,4,4,4! 4112,16,8,0,16! 4104,0,8,0,64 4104,4,8,4,4! => segments 0:4096,12,0,12,4 1:4100,28,4,4,16 2:0,7,0,0,1 3:0,0,0,0,1 tls 4100,28,4,4,16 segments 0:4096,12,0,12,4 1:4100,28,4,4,16 2:0,7,8,0,1 3:0,0,12,0,1 tls 4100,28,4,4,16
4096,4,0,4,1,8! 4100,4,4,4,4,4! 4112,16,8,0,16,2! 9000,0,900,0,64! 4104,4,8,4,4,16! => segments 0:4096,4904,0,900,64,4 1:4100,28,4,4,16,2 2:0,7,0,0,1 3:0,0,0,0,1 tls 4100,28,4,4,16,2 segments 0:4096,4904,0,12,64,4 1:4100,28,4,4,16,2 2:0,7,8,0,1 3:0,0,12,0,1 tls 4100,28,4,4,16,2
# Gaps in the file, and zero-fill thread-local data with bytes of the file, which count there alone.
4096,4,100,4,1! 4100,4,204,4,4! 4112,16,308,50,16! 4104,0,358,0,64 4104,4,400,4,4! => segments 0:4096,12,100,304,4 1:4100,28,204,154,16 2:0,7,0,0,1 3:0,0,0,0,1 tls 4100,28,204,154,16 segments 0:4096,12,0,404,4 1:4100,28,104,254,16 2:0,7,358,0,1 3:0,0,404,0,1 tls 4100,28,104,254,16
# The end of the thread-local segment, rounded up, is the last number that it can be, and one more; a load segment's isn't rounded.
18446744073709551600,4,0,4,1! 18446744073709551552,32,4,4,16! 18446744073709551584,16,8,0,16! 0,0,0,0,1 0,0,0,0,1 => segments 0:18446744073709551552,52,0,8,16 1:18446744073709551552,48,4,4,16 2:0,7,0,0,1 3:0,0,0,0,1 tls 18446744073709551552,48,4,4,16 segments 0:18446744073709551552,52,0,8,16 1:18446744073709551552,48,4,4,16 2:0,7,8,0,1 3:0,0,8,0,1 tls 18446744073709551552,48,4,4,16
18446744073709551600,4,0,4,1! 18446744073709551552,32,4,4,16! 18446744073709551584,17,8,0,16! 0,0,0,0,1 0,0,0,0,1 | 0,0,0,0,1 18446744073709551552,63,0,0,2! 0,0,0,0,1 0,0,0,0,1 0,0,0,0,1 => refused AddressOverflow { place: Segment(1) } refused AddressOverflow { place: Segment(1) }
# A segment of secondaries alone has their bytes, and a section without memory inside one counts from 0 on.
@ ... {"plan":{"page":16,"sections":[{"attrs":1,"parts":[[1,false]]},{"attrs":1,"primary":0,"parts":[[1,false]]},{"parts":[[1,false]]}],"segments":[{"kind":"load"},{"kind":"load"}],"events":[["seg",0],["sec",0],["sec",2],["endseg",0],["seg",1],["sec",1],["endseg",1]]},"groups":[[{"kind":"prelude"}]]}
4096,4,0,4,1! 4116,4,8,4,1 0,4,4,4,1! => segments 0:0,4100,0,8,1 1:4116,4,8,4,1 tls - segments 0:0,4100,0,8,1 1:4116,4,8,4,1 tls -
# Load segments nested, and across one another: each spans what is inside it, and in a compacted file begins where the section before
# its opening ends.
@ ...},"groups":[[{"kind":"prelude"}]]}
64,8,0,8,1! 88,4,8,4,4! 128,2,64,2,64! {"plan":{"page":16,"sections":[{"attrs":1,"parts":[[1,false]]},{"attrs":1,"parts":[[4,false]]},{"attrs":1,"parts":[[64,false]]}],"segments":[{"kind":"load"},{"kind":"load"}],"events":[["seg",0],["sec",0],["seg",1],["sec",1],["endseg",1],["sec",2],["endseg",0]] => segments 0:64,66,0,66,64 1:88,4,8,4,4 tls - segments 0:64,66,0,66,64 1:88,4,8,4,4 tls -
16,8,0,8,1! 72,4,8,4,4! 128,2,64,2,64! {"plan":{"page":16,"sections":[{"attrs":1,"parts":[[1,false]]},{"attrs":1,"parts":[[4,false]]},{"attrs":1,"parts":[[64,false]]}],"segments":[{"kind":"load"},{"kind":"load"}],"events":[["seg",0],["sec",0],["seg",1],["sec",1],["endseg",0],["sec",2],["endseg",1]] => segments 0:16,60,0,12,4 1:72,58,8,58,64 tls - segments 0:16,60,0,12,4 1:72,58,8,58,64 tls -
# Sections outside all segments, in the order of events: the first that isn't skipped and has memory.
@ 0,4,0,4,1 4,4,4,4,1 8,0,8,0,1... {"plan":{"page":16,"sections":[{"attrs":1,"parts":[[1,false]]},{"attrs":1,"primary":0,"parts":[[1,false]]},{"attrs":17,"parts":[[1,false]]}],"segments":[{"kind":"other"}],"events":[["sec",2],["seg",0],["sec",0],["endseg",0],["sec",1]]},"groups":[[{"kind":"prelude"}]]}
 => refused SectionOutsideSegments { section: OutputSectionId { number: 1 } } refused SectionOutsideSegments { section: OutputSectionId { number: 1 } }
! => refused SectionOutsideSegments { section: OutputSectionId { number: 2 } } refused SectionOutsideSegments { section: OutputSectionId { number: 2 } }
@ 0,4,0,4,1 4,4,4,4,1! 8,4,8,4,1! {"plan":{"page":16,"sections":[{"attrs":1,"parts":[[1,false]]},{"attrs":...,"parts":[[1,false]]},{"attrs":16,"primary":1,"parts":[[1,false]]}],"segments":[{"kind":"stack"}],"events":[["seg",0],["sec",0],["endseg",0],["sec",2],["sec",1]]},"groups":[[{"kind":"prelude"}]]}
0 | 30 => segments 0:0,0,0,0,1 tls - segments 0:0,0,0,0,1 tls -
1 => refused SectionOutsideSegments { section: OutputSectionId { number: 2 } } refused SectionOutsideSegments { section: OutputSectionId { number: 2 } }
@ 0,4,0,4,1! {"plan":{"page":16,"sections":[{"attrs":1,"parts":[[1,false]]}],"events":[["sec",0]]...},"groups":[[{"kind":"prelude"}]]}
,"custom_phdrs":true | },"options":{"output":"partial" => segments tls - segments tls -
 | ,"custom_base":true,"phdrs_headers":true | },"options":{"output":"shared" => refused SectionOutsideSegments { section: OutputSectionId { number: 0 } } refused SectionOutsideSegments { section: OutputSectionId { number: 0 } }
# That refusal comes before that of an end.
@ 0,4,0,4,1! 18446744073709551552,63,0,0,2! {"plan":{"page":16,"sections":[{"attrs":1,"parts":[[1,false]]},{"attrs":25,"parts":[[1,false]]}],"segments":[{"kind":"tls"}],"events":[["seg",0],["sec",1],["endseg",0],["sec",0]]},...,"groups":[[{"kind":"prelude"}]]}
"options":{} => refused SectionOutsideSegments { section: OutputSectionId { number: 0 } } refused SectionOutsideSegments { section: OutputSectionId { number: 0 } }
"options":{"output":"partial"} => refused AddressOverflow { place: Segment(0) } refused AddressOverflow { place: Segment(0) }
"#;

/// Place alignments of segments, by the bytes of parts, which the records have.
const ALIGNED: &str = r#"
@ ... {"plan":{"page":4,"sections":[{"parts":[[64,false],[8,false]]},{"align":32,"parts":[[2,false]]},{"parts":[[128,false]]}],"segments":[{"kind":"load"},{"kind":"other"},{"kind":"tls"},{"kind":"stack"}],"events":[["seg",0],["sec",0],["seg",1],["endseg",0],["sec",1],["endseg",1],["seg",2],["sec",2],["endseg",2],["seg",3],["endseg",3]]},"groups":[[{"kind":"prelude"}]]}
0,0 0,1 0,0 0,0 => aligned 8 32 4 4
0,5 0,1 0,0 0,0 => aligned 64 32 4 4
0,0 0,0 0,7 0,18446744073709551615 => aligned 4 32 128 4
"#;

/// A section's record by those of its parts, and their ranges of the file, moved to 1000.
const PARTS: &str = r#"
@ ... {"plan":{"page":16,"sections":[{"align":4,"parts":[[16,false],[8,false],[1,false]]}],"events":[["sec",0]]},"groups":[[{"kind":"prelude"}]]}
32,0,8,0,16 32,8,8,8,8 40,3,16,3,1 => section 32,11,8,11,8 ranged 32,11,1000,11,8 end 1011 parts 32,0,1000,0,16 32,8,1000,8,8 40,3,1008,3,1
0,0,0,0,16 0,0,0,0,8 0,0,0,0,1 => section 0,0,0,0,4 ranged 0,0,1000,0,4 end 1000 parts 0,0,1000,0,16 0,0,1000,0,8 0,0,1000,0,1
32,1,8,1,16,7 40,8,16,0,8,5 100,3,10,18446744073709550614,1,9 => section 32,71,8,18446744073709550616,16,5 ranged 32,71,1000,18446744073709550615,16,5 end 18446744073709551615 parts 32,1,1000,1,16,7 40,8,1001,0,8,5 100,3,1001,18446744073709550614,1,9
32,1,8,1,16 40,8,16,1,8 100,3,10,18446744073709550614,1 => section 32,71,8,18446744073709550616,16 past the end
 => section 0,0,0,0,4 ranged 0,0,1000,0,4 end 1000 parts
"#;

/// Nothing, at the start of all.
fn nothing() -> OutputRecordLayout {
    OutputRecordLayout::default()
}

/// The number at a place of a record's text, another where there is none.
fn number_at(text: &str, place: usize, other: u64) -> u64 {
    match text.split(',').nth(place) {
        Some(digits) => digits.parse::<u64>().unwrap_or(other),
        None => other,
    }
}

/// The record of these numbers, unless an end of it passes 2^64 - 1.
fn fitting_record(memory: (u64, u64), file: (u64, u64), text: &str) -> Option<OutputRecordLayout> {
    memory.0.checked_add(memory.1)?;
    file.0.checked_add(file.1)?;
    Some(OutputRecordLayout {
        file_size: file.1,
        mem_size: memory.1,
        alignment: Alignment::new(number_at(text, 4, 1))?,
        file_offset: file.0,
        mem_offset: memory.0,
        lma_offset: number_at(text, 5, memory.0),
    })
}

/// The record that a text tells.
fn record_of(text: &str) -> OutputRecordLayout {
    let memory = (number_at(text, 0, 0), number_at(text, 1, 0));
    let file = (number_at(text, 2, 0), number_at(text, 3, 0));
    fitting_record(memory, file, text).unwrap_or(nothing())
}

/// Adds a space, unless the line is empty.
fn add_space(line: &mut String) -> Result<(), AllocError> {
    if line.is_empty() {
        Ok(())
    } else {
        line.push(' ')
    }
}

/// Adds a record.
fn add_bare(line: &mut String, record: &OutputRecordLayout) -> Result<(), AllocError> {
    let (memory, bytes) = (record.mem_offset, record.mem_size);
    let (offset, in_file) = (record.file_offset, record.file_size);
    let (alignment, load) = (record.alignment.value(), record.lma_offset);
    write!(line, "{memory},{bytes},{offset},{in_file},{alignment}")?;
    if load == memory {
        Ok(())
    } else {
        write!(line, ",{load}")
    }
}

/// Adds a record behind a front.
fn add_record(
    line: &mut String,
    front: &str,
    record: &OutputRecordLayout,
) -> Result<(), AllocError> {
    add_space(line)?;
    line.push_str(front)?;
    add_bare(line, record)
}

/// Adds several records behind a word.
pub(crate) fn add_records(
    line: &mut String,
    word: &str,
    records: &[OutputRecordLayout],
) -> Result<(), AllocError> {
    add_space(line)?;
    line.push_str(word)?;
    for record in records {
        add_record(line, "", record)?;
    }
    Ok(())
}

/// Adds the layout of a segment behind its number.
fn add_segment(line: &mut String, segment: &SegmentLayout) -> Result<(), AllocError> {
    add_space(line)?;
    write!(line, "{number}:", number = segment.id.as_u32())?;
    add_bare(line, &segment.sizes)
}

/// What a row asks.
#[derive(Clone, Copy)]
pub enum Spanned {
    /// What sections span with their secondaries.
    Merged,
    /// What segments span, in both kinds of file.
    Segments,
    /// Place alignments of segments.
    Aligned,
    /// What the first section spans by its parts, and their ranges of the file.
    Parts,
}

/// Adds what sections span with their secondaries.
fn add_merged(
    alloc: Global,
    line: &mut String,
    link: &LinkInput,
    records: &[OutputRecordLayout],
) -> Result<(), AllocError>
    requires good { IsWellFormed link.now }
    requires each { length records.now ≡ length link.now.plan.sections }
{
    match merge_secondary_parts(alloc, link, records) {
        Ok(merged) => add_records(line, "merged", &merged),
        Err(error) => add(line, "refused", &error),
    }
}

/// The numbers of all segments.
fn all_segments(alloc: Global, plan: &Plan) -> Result<Vec<SegmentId>, AllocError>
    requires { length plan.now.segments ≤ 64 }
    ensures { IfOk result (λ all. All (λ i. i < length plan.now.segments) all.items) }
{
    let mut all = Vec::new(alloc);
    for number in 0..plan.segments.len() {
        all.push(SegmentId::from_u32(number as u32))?;
    }
    Ok(all)
}

/// Adds what segments span.
fn add_layouts(line: &mut String, layouts: &SegmentLayouts) -> Result<(), AllocError> {
    add_space(line)?;
    line.push_str("segments")?;
    for segment in layouts.segments.as_slice() {
        add_segment(line, segment)?;
    }
    match &layouts.tls_layout {
        Some(sizes) => add_record(line, "tls ", sizes),
        None => line.push_str(" tls -"),
    }
}

/// Adds what these segments span in a kind of file.
fn add_spanned(
    alloc: Global,
    line: &mut String,
    link: &LinkInput,
    given: Given<'_>,
    active: &[SegmentId],
    kind: SegmentFileLayout,
) -> Result<(), AllocError>
    requires good { IsWellFormed link.now }
    requires each { length given.records.now ≡ length link.now.plan.sections }
    requires there { All (λ i. i < length link.now.plan.segments) active.now }
{
    match compute_segment_layout(alloc, link, given.records, given.emitted, active, kind) {
        Ok(layouts) => add_layouts(line, &layouts),
        Err(error) => add(line, "refused", &error),
    }
}

/// Adds what all segments span in both kinds of file.
fn add_segments(
    alloc: Global,
    line: &mut String,
    link: &LinkInput,
    given: Given<'_>,
) -> Result<(), AllocError>
    requires good { IsWellFormed link.now }
    requires each { length given.records.now ≡ length link.now.plan.sections }
{
    if link.plan.segments.len() > 64 {
        return Ok(());
    }
    let active = all_segments(alloc, &link.plan)?;
    add_spanned(
        alloc,
        line,
        link,
        given,
        &active,
        SegmentFileLayout::FromSections,
    )?;
    add_spanned(
        alloc,
        line,
        link,
        given,
        &active,
        SegmentFileLayout::Compacted,
    )
}

/// Adds the place alignments of segments.
fn add_aligned(
    alloc: Global,
    line: &mut String,
    link: &LinkInput,
    records: &[OutputRecordLayout],
) -> Result<(), AllocError>
    requires good { IsWellFormed link.now }
{
    let sizes = sizes_of(alloc, records)?;
    if sizes.len() != link.plan.sections.parts().len() {
        return Ok(());
    }
    line.push_str("aligned")?;
    for alignment in &compute_segment_alignments(alloc, link, &sizes)? {
        write!(line, " {value}", value = alignment.value())?;
    }
    Ok(())
}

/// The bytes that records have in memory.
fn sizes_of(alloc: Global, records: &[OutputRecordLayout]) -> Result<Vec<u64>, AllocError> {
    let mut sizes = Vec::new(alloc);
    for record in records {
        sizes.push(record.mem_size)?;
    }
    Ok(sizes)
}

/// Whether the bytes of the file that records have together don't pass 2^64 - 1 behind 1000.
fn fit_behind(records: &[OutputRecordLayout]) -> bool
    ensures { IsTrue result → 1000 + sum_by (λ r. r.file_size) records.now < 2 ^ 64 }
{
    let mut end = 1000_u64;
    for record in records {
        match end.checked_add(record.file_size) {
            Some(next) => end = next,
            None => return false,
        }
    }
    true
}

/// Adds the file ranges of a section's parts, moved to 1000.
fn add_ranged(
    alloc: Global,
    line: &mut String,
    section: &PlanSection,
    layout: OutputRecordLayout,
    records: &[OutputRecordLayout],
) -> Result<(), AllocError>
    requires { 1000 + sum_by (λ r. r.file_size) records.now < 2 ^ 64 }
{
    let mut layout = layout;
    let mut parts = Vec::from_slice(alloc, records)?;
    let end = assign_section_file_range(section, &mut layout, &mut parts, 1000);
    add_record(line, "ranged ", &layout)?;
    add(line, "end", &end)?;
    add_records(line, "parts", &parts)
}

/// Adds what a section spans by the records of its parts, and their file ranges, moved to 1000.
fn add_parts(
    alloc: Global,
    line: &mut String,
    section: &PlanSection,
    records: &[OutputRecordLayout],
) -> Result<(), AllocError> {
    if Alignment::new(section.align).is_none() {
        return Ok(());
    }
    let layout = layout_section_from_part_layouts(section, records);
    add_record(line, "section ", &layout)?;
    if fit_behind(records) {
        add_ranged(alloc, line, section, layout, records)
    } else {
        line.push_str(" past the end")
    }
}

/// Records, and whether sections are emitted.
#[derive(Clone, Copy)]
struct Given<'a> {
    records: &'a [OutputRecordLayout],
    emitted: &'a [bool],
}

/// Adds what is asked of sections.
fn add_of_sections(
    alloc: Global,
    line: &mut String,
    asked: Spanned,
    link: &LinkInput,
    given: Given<'_>,
) -> Result<(), AllocError>
    requires { IsWellFormed link.now }
{
    if given.records.len() != link.plan.sections.len() {
        return line.push_str("other records");
    }
    match asked {
        Spanned::Merged => add_merged(alloc, line, link, given.records),
        _ => add_segments(alloc, line, link, given),
    }
}

/// Adds what is asked of a link that is well formed.
fn add_asked(
    alloc: Global,
    line: &mut String,
    asked: Spanned,
    link: &LinkInput,
    given: Given<'_>,
) -> Result<(), AllocError>
    requires { IsWellFormed link.now }
{
    match (asked, link.plan.sections.as_slice()) {
        (Spanned::Aligned, _) => add_aligned(alloc, line, link, given.records),
        (Spanned::Parts, [section, ..]) => add_parts(alloc, line, section, given.records),
        _ => add_of_sections(alloc, line, asked, link, given),
    }
}

/// Adds what is asked of a link, if it is well formed.
fn add_checked(
    alloc: Global,
    line: &mut String,
    asked: Spanned,
    link: &LinkInput,
    given: Given<'_>,
) -> Result<(), AllocError> {
    match check_link(link) {
        Ok(()) => add_asked(alloc, line, asked, link, given),
        Err(fault) => add(line, "fault", &fault),
    }
}

/// Adds what is asked of the link that a text stands for.
fn add_read(
    alloc: Global,
    line: &mut String,
    asked: Spanned,
    text: &str,
    given: Given<'_>,
) -> Result<(), AllocError> {
    match &read_link(alloc, text.as_bytes()) {
        Ok(link) => add_checked(alloc, line, asked, link, given),
        Err(error) => write!(line, "no link: {error}"),
    }
}

/// Adds what is asked of the records and the link that a row tells.
pub fn add_placed(
    alloc: Global,
    line: &mut String,
    asked: Spanned,
    row: &str,
) -> Result<(), AllocError> {
    let (told, text) = row.split_once(" {").unwrap_or((row, ""));
    let mut records = Vec::new(alloc);
    let mut emitted = Vec::new(alloc);
    for record in told.split_whitespace() {
        records.push(record_of(record.strip_suffix('!').unwrap_or(record)))?;
        emitted.push(record.ends_with('!'))?;
    }
    let text = format!(in alloc; "{{{text}")?;
    let given = Given {
        records: &records,
        emitted: &emitted,
    };
    add_read(alloc, line, asked, text.as_str(), given)
}

#[test]
fn secondaries_are_joined_to_their_primaries(rt: HostRuntime) -> Result<(), Fail> {
    expect_rows(
        &rt,
        rt.alloc(),
        Asked::Placement(OfPlacement::Placed(Spanned::Merged)),
        MERGED,
    )
}

#[test]
fn segments_span_what_counts_inside(rt: HostRuntime) -> Result<(), Fail> {
    expect_rows(
        &rt,
        rt.alloc(),
        Asked::Placement(OfPlacement::Placed(Spanned::Segments)),
        SEGMENTS,
    )
}

#[test]
fn segments_have_place_alignments(rt: HostRuntime) -> Result<(), Fail> {
    expect_rows(
        &rt,
        rt.alloc(),
        Asked::Placement(OfPlacement::Placed(Spanned::Aligned)),
        ALIGNED,
    )
}

#[test]
fn sections_span_their_parts(rt: HostRuntime) -> Result<(), Fail> {
    expect_rows(
        &rt,
        rt.alloc(),
        Asked::Placement(OfPlacement::Placed(Spanned::Parts)),
        PARTS,
    )
}
