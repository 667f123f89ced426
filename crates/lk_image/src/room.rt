//! Relocations that have no room.

ghost use Rattle.std.specs.Prelude.{◌≡◌, ◌+◌, nat_lt};
ghost use Rattle.std.specs.List.{enumerate_from, flat_map};
ghost use Rattle.lk_link.specs.Inputs.{all_inputs};
ghost use Rattle.lk_link.specs.Walks.{input_of};
ghost use Rattle.lk_link.specs.WellFormed.{IsWellFormed};
ghost use Rattle.lk_stops.specs.Stops.{StopsAtFirst};
ghost use Rattle.lk_image.specs.Refusals.{relocation_refusals, room_refusals_in};

use crate::contents::is_absolute;
use crate::error::ImageError;
use crate::places::is_in_file;
use lk_layout::Layout;
use lk_link::InputRef;
use lk_link::link::LinkInput;
use lk_link::relocation::Relocation;

/// Refuses the first relocation that would write past the end of its section. Looks at each relocation once of the sections whose bytes
/// stand in the file.
pub(crate) fn check_room(link: &LinkInput, layout: &Layout<'_>) -> Result<(), ImageError>
    requires good { IsWellFormed link.now }
    ensures { StopsAtFirst (flat_map (room_refusals_in link.now layout.now) (enumerate_from 0 (all_inputs link.now.groups))) result }
{
    let mut number = 0usize;
    for input in link.groups.inputs() {
        check_section(link, layout, number, input)?;
        number += 1;
    }
    Ok(())
}

/// The same of an input section, with its number.
fn check_section(
    link: &LinkInput,
    layout: &Layout<'_>,
    number: usize,
    input: InputRef<'_>,
) -> Result<(), ImageError>
    requires good { IsWellFormed link.now }
    ensures { StopsAtFirst (room_refusals_in link.now layout.now (number, input_of input.entry)) result }
{
    if !is_in_file(link, layout, number, input) {
        return Ok(());
    }
    if input.section.slot.is_debug() {
        return Ok(());
    }
    for (index, relocation) in input.section.relocs.as_slice().iter().enumerate() {
        check_relocation(input, index, *relocation)?;
    }
    Ok(())
}

/// The same of a relocation, with its index in the section.
fn check_relocation(
    input: InputRef<'_>,
    index: usize,
    relocation: Relocation,
) -> Result<(), ImageError>
    ensures { StopsAtFirst (relocation_refusals (input_of input.entry) (index, relocation)) result }
{
    if is_absolute(relocation.kind) && ends_past(input.section.size, relocation.offset) {
        return Err(ImageError::NoRoom {
            file: input.file,
            section: input.index,
            index,
        });
    }
    Ok(())
}

/// Whether eight bytes at an offset end past so many.
fn ends_past(size: u64, offset: u64) -> bool
    ensures { result ≡ nat_lt size (offset + 8) }
{
    size < 8 || size - 8 < offset
}
