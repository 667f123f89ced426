//! What a section holds: its data, and over them the values of its relocations.

ghost use Rattle.std.specs.Prelude.{◌≡◌, ◌+◌, ◌^◌, ◌<◌, ◌≤◌, false, true, All, IsSome, MatchOption, Some, [], fold, length, slice_get};
ghost use Rattle.std.specs.Int.{to_le_bytes, w64};
ghost use Rattle.std.specs.Option.{option_map_or};
ghost use Rattle.lk_link.specs.Files.{file_in};
ghost use Rattle.lk_link.specs.InputSlots.{can_be_kept, is_debug};
ghost use Rattle.lk_link.specs.Inputs.{all_inputs};
ghost use Rattle.lk_link.specs.Symbols.{first_symbol};
ghost use Rattle.lk_link.specs.Walks.{input_of};
ghost use Rattle.lk_link.specs.WellFormed.{IsWellFormed};
ghost use Rattle.lk_image.specs.Contents.{content, data_of, is_absolute, patch};
ghost use Rattle.lk_image.specs.Ready.{HasRoom, IsReady};
ghost use Rattle.lk_image.specs.References.{relocation_value, value_in};
ghost use Rattle.lk_image.specs.Stretches.{put};

use crate::references::reference_value;
use lk_layout::Layout;
use lk_link::InputRef;
use lk_link::link::LinkInput;
use lk_link::relocation::{Relocation, RelocationKind};
use lk_link::section::InputSection;
use lk_link::symbol::InputSymbol;
use lk_reach::local_definition;

/// The bytes of the word that a relocation writes.
const WORD: usize = 8;

/// The symbols of a file, with the number of the first of them.
#[derive(Clone, Copy)]
struct FileSymbols<'a> {
    first: u32,
    symbols: &'a [InputSymbol],
}

/// Writes what an input section, with its number, holds over as many bytes as it has.
pub(crate) fn write_content(
    bytes: &mut [u8],
    link: &LinkInput,
    layout: &Layout<'_>,
    _number: usize,
    input: InputRef<'_>,
)
    requires ready { IsReady link.now layout.now }
    requires there { slice_get (all_inputs link.now.groups) _number ≡ Some (input_of input) }
    requires kept { can_be_kept input.section.now.slot ≡ true }
    requires whole { length (data_of input.section.now) ≡ length bytes.now }
    requires room { is_debug input.section.now.slot ≡ false → All (HasRoom (length bytes.now)) input.section.now.relocs }
    ensures written { bytes.new ≡ content (relocation_value link.now layout.now input.entry.file) input.entry.section.now }
    ensures long { length bytes.new ≡ length bytes.old }
{
    write_data(bytes, input.section);
    if input.section.slot.is_debug() {
        return;
    }
    if let Some(symbols) = symbols_in(link, input) {
        let relocs = input.section.relocs.as_slice();
        write_relocations(bytes, link, layout, symbols, relocs);
    }
}

/// Writes the data of a section, zeros where none are given.
fn write_data(bytes: &mut [u8], section: &InputSection)
    requires { length (data_of section.now) ≡ length bytes.now }
    ensures written { bytes.new ≡ data_of section.now }
    ensures long { length bytes.new ≡ length bytes.old }
{
    if section.given {
        bytes.copy_from_slice(section.bytes.as_slice());
    } else {
        bytes.fill(0);
    }
}

/// Writes the values of relocations of a file with these symbols, one after the other.
fn write_relocations(
    bytes: &mut [u8],
    link: &LinkInput,
    layout: &Layout<'_>,
    symbols: FileSymbols<'_>,
    relocs: &[Relocation],
)
    requires ready { IsReady link.now layout.now }
    requires room { All (HasRoom (length bytes.now)) relocs.now }
    requires numbers { All (λ (r : Relocation). symbols.first + r.symbol < 2 ^ 32) relocs.now }
    ensures written { bytes.new ≡ fold (patch (value_in link.now layout.now symbols.entry.first symbols.entry.symbols.now)) bytes.old relocs.now }
    ensures long { length bytes.new ≡ length bytes.old }
{
    for relocation in relocs {
        write_relocation(bytes, link, layout, symbols, *relocation);
    }
}

/// Writes the value of a relocation, if its kind is to be written.
fn write_relocation(
    bytes: &mut [u8],
    link: &LinkInput,
    layout: &Layout<'_>,
    symbols: FileSymbols<'_>,
    relocation: Relocation,
)
    requires ready { IsReady link.now layout.now }
    requires room { HasRoom (length bytes.now) relocation }
    requires number { symbols.first + relocation.symbol < 2 ^ 32 }
    ensures written { bytes.new ≡ patch (value_in link.now layout.now symbols.entry.first symbols.entry.symbols.now) bytes.old relocation }
    ensures long { length bytes.new ≡ length bytes.old }
{
    if is_absolute(relocation.kind) {
        let symbol = local_definition(symbols.first, symbols.symbols, relocation.symbol);
        let value = reference_value(link, layout, symbol, relocation.addend);
        write_word(bytes, relocation.offset as usize, value);
    }
}

/// Whether relocations of a kind write an address as it is.
pub(crate) fn is_absolute(kind: RelocationKind) -> bool
    ensures { result ≡ is_absolute kind }
{
    matches!(kind, RelocationKind::Absolute)
}

/// Writes a number at an offset, its lowest byte first.
fn write_word(bytes: &mut [u8], offset: usize, value: u64)
    requires { offset + 8 ≤ length bytes.now }
    ensures written { bytes.new ≡ put offset (to_le_bytes w64 value) bytes.old }
    ensures long { length bytes.new ≡ length bytes.old }
{
    bytes[offset..offset + WORD].copy_from_slice(&value.to_le_bytes());
}

/// The symbols of the file of an input section.
fn symbols_in<'a>(link: &'a LinkInput, input: InputRef<'_>) -> Option<FileSymbols<'a>>
    requires good { IsWellFormed link.now }
    requires there { IsSome (file_in link.now.groups input.file) }
    ensures { MatchOption result ⊥ (λ file. (file.first ≡ first_symbol link.now.groups input.entry.file) × (file.symbols.now ≡ option_map_or (λ f. f.symbols) (file_in link.now.groups input.entry.file) [])) }
{
    let file = link.groups.file(input.file)?;
    let numbers = link.groups.symbol_id_range(input.file)?;
    Some(FileSymbols {
        first: numbers.start().as_u32(),
        symbols: file.symbols.as_slice(),
    })
}
