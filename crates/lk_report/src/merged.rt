//! The lines of the report on what is merged.

ghost use Rattle.std.specs.Prelude.{◌≡◌, ◌++◌, string_bytes, length, map, IfOk};
ghost use Rattle.lk_merge.specs.Addresses.{image_start};
ghost use Rattle.lk_merge.specs.Buckets.{piece_of};
ghost use Rattle.lk_merge.specs.Image.{all_pieces};
ghost use Rattle.lk_report.specs.MergedLines.{behind_all, lines_from};
ghost use Rattle.lk_report.specs.Report.{bytes_behind, each, merged_line, merged_text, piece_line, piece_lines};

use lk_line::Line;
use lk_merge::laws::image_is_distinct;
use lk_merge::{MergeString, MergedStringStartAddresses, MergedStringsSection};
use std::alloc::AllocError;

/// Bytes that the line of a merged section mostly has room in.
const MERGED_LINE: usize = 64;

/// Bytes that a piece's line mostly has room in.
const PIECE_LINE: usize = 28;

/// How many bytes the lines mostly have.
pub(crate) fn merged_room(merged: &[MergedStringsSection<'_>]) -> usize {
    let mut room = merged.len().saturating_mul(MERGED_LINE);
    for section in merged {
        room = room.saturating_add(section.string_count().saturating_mul(PIECE_LINE));
    }
    room
}

/// The lines of all output sections into which something is merged, and then those of their distinct pieces.
pub(crate) fn write_merged(
    text: &mut String,
    merged: &[MergedStringsSection<'_>],
    starts: &MergedStringStartAddresses,
) -> Result<(), AllocError>
    ensures { IfOk result (λ _. string_bytes text.new ≡ string_bytes text.old ++ (each (merged_text starts.now) 0 merged.now
        ++ each (λ s inputs. piece_lines s (image_start starts.now s) (all_pieces inputs)) 0 merged.now)) }
{
    write_sections(text, merged, starts)?;
    write_pieces(text, merged, starts)
}

/// The lines of all output sections into which something is merged.
fn write_sections(
    text: &mut String,
    merged: &[MergedStringsSection<'_>],
    starts: &MergedStringStartAddresses,
) -> Result<(), AllocError>
    ensures { IfOk result (λ _. string_bytes text.new ≡ string_bytes text.old ++ each (merged_text starts.now) 0 merged.now) }
{
    for (number, section) in merged.iter().enumerate() {
        write_section(text, number, section, starts)?;
    }
    Ok(())
}

/// The line of an output section, where something is merged into it.
#[tactic(auto, unfolding(crate::specs::Report::merged_text))]
fn write_section(
    text: &mut String,
    number: usize,
    section: &MergedStringsSection<'_>,
    starts: &MergedStringStartAddresses,
) -> Result<(), AllocError>
    ensures { IfOk result (λ _. string_bytes text.new ≡ string_bytes text.old ++ merged_text starts.now number section.now) }
{
    if section.has_inputs() {
        write_section_line(text, number, section, starts.image_start(number))?;
    }
    Ok(())
}

/// The line of an output section, whose image starts at an address.
#[tactic(auto, unfolding(crate::specs::Report::merged_line))]
fn write_section_line(
    text: &mut String,
    number: usize,
    section: &MergedStringsSection<'_>,
    start: u64,
) -> Result<(), AllocError>
    ensures { IfOk result (λ _. string_bytes text.new ≡ string_bytes text.old ++ merged_line number start section.now) }
{
    let len = section.len();
    let strings = section.string_count();
    let inputs = section.input_string_count();
    let bytes = section.input_string_byte_size();
    write!(
        text,
        "merged {number} {len} {strings} {inputs} {bytes} 0x{start:x}\n"
    )
}

/// The lines of the distinct pieces of all output sections.
fn write_pieces(
    text: &mut String,
    merged: &[MergedStringsSection<'_>],
    starts: &MergedStringStartAddresses,
) -> Result<(), AllocError>
    ensures { IfOk result (λ _. string_bytes text.new ≡ string_bytes text.old
        ++ each (λ s inputs. piece_lines s (image_start starts.now s) (all_pieces inputs)) 0 merged.now) }
{
    for (number, section) in merged.iter().enumerate() {
        write_section_pieces(text, number, section, starts.image_start(number))?;
    }
    Ok(())
}

/// The lines of the distinct pieces of an output section, whose image starts at an address: bucket by bucket, each piece where
/// the ones before it end.
fn write_section_pieces(
    text: &mut String,
    number: usize,
    section: &MergedStringsSection<'_>,
    start: u64,
) -> Result<(), AllocError>
    ensures { IfOk result (λ _. string_bytes text.new ≡ string_bytes text.old ++ piece_lines number start (all_pieces section.now)) }
{
    // A law, which does nothing: each piece of an image starts where the ones before it end.
    image_is_distinct();
    let mut address = start;
    for bucket in section.buckets() {
        address = write_strings(text, number, bucket.strings(), address)?;
    }
    Ok(())
}

/// The lines of some pieces that follow each other, the first of which stands at an address; answers where they end.
#[tactic(auto, unfolding(crate::specs::MergedLines::lines_from, crate::specs::MergedLines::behind_all))]
fn write_strings(
    text: &mut String,
    number: usize,
    strings: &[MergeString<'_>],
    start: u64,
) -> Result<u64, AllocError>
    ensures lines { IfOk result (λ _. string_bytes text.new ≡ string_bytes text.old ++ lines_from number start (map piece_of strings.now)) }
    ensures end { IfOk result (λ address. address ≡ behind_all start (map piece_of strings.now)) }
{
    let mut address = start;
    for string in strings {
        let len = string.as_bytes().len() as u64;
        write_piece(text, number, address, len)?;
        address = address.wrapping_add(len);
    }
    Ok(address)
}

/// The line of a distinct piece of an output section.
#[tactic(auto, unfolding(crate::specs::Report::piece_line))]
fn write_piece(text: &mut String, number: usize, address: u64, len: u64) -> Result<(), AllocError>
    ensures { IfOk result (λ _. string_bytes text.new ≡ string_bytes text.old ++ piece_line number address len) }
{
    let mut line = Line::new();
    line.put("\n");
    line.put_decimal(len);
    line.put(" ");
    line.put_hexadecimal(address);
    line.put(" 0x");
    line.put_decimal(number as u64);
    line.put("piece ");
    line.add_to(text)
}
