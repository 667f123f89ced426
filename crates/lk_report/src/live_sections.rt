//! The lines of the report on live sections: file by file, or each group's by itself on several threads.

ghost use Rattle.std.specs.Prelude.{◌≡◌, ◌++◌, ◌<◌, IfOk, Some, length, slice_index, string_bytes};
ghost use Rattle.std.specs.List.{flat_map};
ghost use Rattle.lk_layout.specs.Layouts.{told_live};
ghost use Rattle.lk_link.specs.Files.{file_in};
ghost use Rattle.lk_link.specs.Walks.{file_of, input_of};
ghost use Rattle.lk_link.specs.WellFormed.{IsWellFormed};
ghost use Rattle.lk_deltas.specs.LinkDeletions.{size_after};
ghost use Rattle.lk_sizes.specs.Tables.{IsInput};
ghost use Rattle.lk_report.specs.LiveLines.{file_lines, group_lines, input_text, told_at};
ghost use Rattle.lk_report.specs.Report.{live_line};

use lk_deltas::{RelaxDeltaMap, deleted_of, opt_input_to_output};
use lk_layout::Layout;
use lk_line::Line;
use lk_link::link::LinkInput;
use lk_link::marks::is_marked;
use lk_link::text::Text;
use lk_link::{FileId, FileRef, InputFile, InputRef};
use rayon::prelude::*;
use std::alloc::{AllocError, Global};
use std::thread::Threads;

/// Bytes that a live section's line mostly has room in.
const LIVE_LINE: usize = 32;

/// The lines of the live sections. Looks at each input section once, and up what is deleted of each live one and which is the first of each
/// file.
pub(crate) fn write_live_sections(
    text: &mut String,
    link: &LinkInput,
    layout: &Layout<'_>,
) -> Result<(), AllocError>
    requires good { IsWellFormed link.now }
    ensures { IfOk result (λ _. string_bytes text.new ≡ string_bytes text.old ++ flat_map live_line (told_live link.now layout.now)) }
{
    for file in link.groups.files() {
        write_file(text, link, layout, file)?;
    }
    Ok(())
}

/// The same lines in a text for each group, made in two pieces for each processor and on a thread for each piece; few groups are fewer
/// pieces. Looks at the marks once more, to make room.
pub(crate) fn live_texts<R: Threads + Sync>(
    rt: &R,
    alloc: Global,
    link: &LinkInput,
    layout: &Layout<'_>,
) -> Result<Vec<Text>, AllocError>
    requires good { IsWellFormed link.now }
    ensures { IfOk result (λ texts. flat_map (λ text. text) texts.items ≡ flat_map live_line (told_live link.now layout.now)) }
{
    let texts: Result<Vec<Text>, AllocError> = (0..link.groups.len())
        .into_par_iter()
        .with_min_len(1)
        .map(
            |group: usize| -> Result<Text, AllocError>
                requires { IsWellFormed link.now × (group < length link.now.groups) }
                ensures { IfOk result (λ text. text ≡ group_lines link.entry.now layout.entry.now group) }
            { group_text(alloc, link, layout, group) },
        )
        .collect(rt, alloc)?;
    texts
}

/// Adds texts one behind the other.
pub(crate) fn add_texts(text: &mut String, texts: &[Text]) -> Result<(), AllocError>
    ensures { IfOk result (λ _. string_bytes text.new ≡ string_bytes text.old ++ flat_map (λ part. part) texts.now) }
{
    for part in texts {
        text.push_str(part.as_str())?;
    }
    Ok(())
}

/// How many bytes some texts have.
pub(crate) fn texts_room(texts: &[Text]) -> usize {
    let mut room = 0usize;
    for text in texts {
        room = room.saturating_add(text.len());
    }
    room
}

/// How many bytes the lines of live sections mostly have, by the marks of input sections.
pub(crate) fn live_room(marks: &[bool]) -> usize {
    marks
        .iter()
        .filter(|mark| **mark)
        .count()
        .saturating_mul(LIVE_LINE)
}

/// The marks of the input sections of some files of a group, from its first one on; none where there is no such group.
fn marks_of<'a>(
    link: &LinkInput,
    layout: &'a Layout<'_>,
    group: u32,
    files: &[InputFile],
) -> &'a [bool]
    requires good { IsWellFormed link.now }
{
    let Some(first) = link.groups.input_start(FileId { group, file: 0 }) else {
        return &[];
    };
    let mut end = first;
    for file in files {
        end = end.saturating_add(file.sections.len());
    }
    let marks = layout.live_marks();
    let end = end.min(marks.len());
    &marks[first.min(end)..end]
}

/// The lines of the live sections of the group with this number.
fn group_text(
    alloc: Global,
    link: &LinkInput,
    layout: &Layout<'_>,
    group: usize,
) -> Result<Text, AllocError>
    requires good { IsWellFormed link.now }
    requires within { group < length link.now.groups }
    ensures { IfOk result (λ text. text ≡ group_lines link.now layout.now group) }
{
    let files = link.groups.as_slice()[group].as_slice();
    let room = live_room(marks_of(link, layout, group as u32, files));
    let mut text = String::with_capacity(alloc, room)?;
    for (index, file) in files.iter().enumerate() {
        let id = FileId {
            group: group as u32,
            file: index as u32,
        };
        let file = FileRef { id, file };
        write_file(&mut text, link, layout, file)?;
    }
    Ok(Text::from_string(text))
}

/// The lines of a file's live sections.
fn write_file(
    text: &mut String,
    link: &LinkInput,
    layout: &Layout<'_>,
    file: FileRef<'_>,
) -> Result<(), AllocError>
    requires good { IsWellFormed link.now }
    requires there { file_in link.now.groups file.id ≡ Some file.file.now }
    ensures { IfOk result (λ _. string_bytes text.new ≡ string_bytes text.old ++ file_lines link.now layout.now (file_of file.entry)) }
{
    let Some(first) = link.groups.input_start(file.id) else {
        return Ok(());
    };
    let sections = file.file.sections.as_slice();
    for (index, section) in sections.iter().enumerate() {
        let input = InputRef {
            file: file.id,
            index,
            section,
        };
        write_input(text, link, layout, first + index, input)?;
    }
    Ok(())
}

/// The line of the input section with this number over all files, if it is live.
fn write_input(
    text: &mut String,
    link: &LinkInput,
    layout: &Layout<'_>,
    number: usize,
    input: InputRef<'_>,
) -> Result<(), AllocError>
    requires good { IsWellFormed link.now }
    requires there { IsInput link.now (input_of input) }
    ensures { IfOk result (λ _. string_bytes text.new ≡ string_bytes text.old ++ input_text link.now layout.now (number, input_of input.entry)) }
{
    if is_marked(layout.live_marks(), number) {
        let address = address_at(layout.section_addresses(), number);
        let size = size_left(link, layout.section_deletions(), input);
        write_live_section(text, input, address, size)?;
    }
    Ok(())
}

/// The size of an input section without what is deleted of it. Takes logarithmic time in the sections of its file of which something is.
fn size_left(link: &LinkInput, deltas: &[RelaxDeltaMap], input: InputRef<'_>) -> u64
    requires good { IsWellFormed link.now }
    requires there { IsInput link.now (input_of input) }
    ensures { result ≡ size_after link.now.groups deltas.now (input_of input.entry) }
{
    let deleted = deleted_of(link, deltas, input.file, input.index);
    opt_input_to_output(deleted, input.section.size)
}

/// The address of the input section with this number, by a table.
fn address_at(addresses: &[u64], number: usize) -> u64
    ensures { result ≡ slice_index addresses.now number }
{
    addresses.get(number).copied().unwrap_or(0)
}

/// The line of a live section.
#[tactic(auto, unfolding(crate::specs::Report::live_line))]
fn write_live_section(
    text: &mut String,
    section: InputRef<'_>,
    address: u64,
    size: u64,
) -> Result<(), AllocError>
    ensures { IfOk result (λ _. string_bytes text.new ≡ string_bytes text.old ++ live_line (told_at (input_of section.entry) address size)) }
{
    let mut line = Line::new();
    line.put("\n");
    line.put_decimal(size);
    line.put(" ");
    line.put_hexadecimal(address);
    line.put(" 0x");
    line.put_decimal(section.index as u64);
    line.put(" ");
    line.put_decimal(u64::from(section.file.file));
    line.put(" ");
    line.put_decimal(u64::from(section.file.group));
    line.put("live ");
    line.add_to(text)
}
