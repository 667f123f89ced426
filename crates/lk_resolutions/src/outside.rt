//! Offsets that are chosen outside the data of merged sections: at its end, or past it. Symbols are looked at first, and then the
//! relocations of live sections, each file by file; the walk ends at the first. Where nothing is merged it isn't begun.

ghost use Rattle.std.specs.Prelude.{◌≡◌, ◌+◌, ◌<◌, ◌^◌, ◌==◌, Some, length, not, slice_get};
ghost use Rattle.std.specs.List.{flat_map, list_any};
ghost use Rattle.lk_reach.specs.Units.{local_definition};
ghost use Rattle.lk_link.specs.Files.{file_in};
ghost use Rattle.lk_link.specs.Inputs.{numbered_files};
ghost use Rattle.lk_link.specs.NumberedSymbols.{numbered_symbol};
ghost use Rattle.lk_link.specs.Symbols.{first_symbol};
ghost use Rattle.lk_link.specs.Walks.{file_of};
ghost use Rattle.lk_link.specs.WellFormed.{IsWellFormed};
ghost use Rattle.lk_merge.specs.LinkInputs.{link_inputs};
ghost use Rattle.lk_merge.specs.OffsetsOutside.{refers_outside, stands_outside};
ghost use Rattle.lk_resolutions.specs.Outside.{merge_offsets, outside_in, relocation_outside, relocations_outside};
ghost use Rattle.lk_resolutions.specs.Outside.{symbol_outside, symbols_outside};
ghost use Rattle.lk_stops.specs.Stops.{StopsAtFirst};

use crate::resolution::flags_at;
use lk_link::marks::is_marked;
use lk_link::relocation::resolution_flags;
use lk_link::{FileId, FileRef, InputSection, InputSymbol, LinkInput, Relocation, SymbolId};
use lk_live::{InputAt, Live};
use lk_merge::{MergedStringsSection, refers_outside, refers_outside_in, stands_outside_in};
use std::fmt;

/// What chooses an offset outside the data of a merged section.
#[derive(Clone, Copy, Debug, PartialEq, Eq)]
pub enum MergeOffsetPlace {
    /// A named symbol that is placed there.
    OfSymbol(SymbolId),
    /// A relocation: its file, the section's index there, and its index in the section.
    OfRelocation(FileId, u32, u32),
}

/// As `merge offset: symbol 5`, or `merge offset: 1 0 2 relocation 0` with group, file and section.
impl fmt::Display for MergeOffsetPlace {
    ghost use Rattle.std.specs.Prelude.{Some};
    ghost use Rattle.lk_resolutions.specs.Texts.{merge_offset_text};

    ghost output = { λ place. Some (merge_offset_text place) };

    fn fmt<W: fmt::Write>(&self, f: &mut fmt::Formatter<W>) -> fmt::Result {
        match *self {
            MergeOffsetPlace::OfSymbol(symbol) => {
                let symbol = symbol.as_u32();
                write!(f, "merge offset: symbol {symbol}")
            }
            MergeOffsetPlace::OfRelocation(id, section, relocation) => {
                let input = InputAt { file: id, section };
                write!(f, "merge offset: {input} relocation {relocation}")
            }
        }
    }
}

/// Refuses the first symbol, else the first relocation, that chooses an offset outside the data of a merged section.
pub fn check_offsets(
    link: &LinkInput,
    live: &Live,
    merged: &[MergedStringsSection<'_>],
) -> Result<(), MergeOffsetPlace>
    requires good { IsWellFormed link.now }
    requires merged { merged.now ≡ (link_inputs link.now).outputs }
    ensures { StopsAtFirst (merge_offsets link.now live.now) result }
{
    if !has_merged(merged) {
        return Ok(());
    }
    check_symbols(link, live)?;
    check_relocations(link, live)
}

/// Whether an output section has anything that is merged.
fn has_merged(sections: &[MergedStringsSection<'_>]) -> bool
    ensures { result ≡ list_any (λ inputs. not (length inputs == 0)) sections.now }
{
    sections.iter().any(|section| section.has_inputs())
}

/// Refuses the first symbol that stands outside.
fn check_symbols(link: &LinkInput, live: &Live) -> Result<(), MergeOffsetPlace>
    requires good { IsWellFormed link.now }
    ensures { StopsAtFirst (flat_map (symbols_outside link.now live.now) (numbered_files link.now.groups)) result }
{
    for file in link.groups.files() {
        check_file_symbols(link, live, file)?;
    }
    Ok(())
}

/// Refuses the first symbol of a file that stands outside.
fn check_file_symbols(
    link: &LinkInput,
    live: &Live,
    file: FileRef<'_>,
) -> Result<(), MergeOffsetPlace>
    requires good { IsWellFormed link.now }
    requires there { file_in link.now.groups file.id ≡ Some file.file.now }
    ensures { StopsAtFirst (symbols_outside link.now live.now (file_of file.entry)) result }
{
    let Some(numbers) = link.groups.symbol_id_range(file.id) else {
        return Ok(());
    };
    let mut number = numbers.start().as_u32();
    for symbol in file.file.symbols.as_slice() {
        check_symbol(link, live, file, number, symbol)?;
        number += 1;
    }
    Ok(())
}

/// Refuses a symbol of a file, with this number, that has a resolution and stands outside.
fn check_symbol(
    link: &LinkInput,
    live: &Live,
    file: FileRef<'_>,
    number: u32,
    symbol: &InputSymbol,
) -> Result<(), MergeOffsetPlace>
    requires good { IsWellFormed link.now }
    requires there { file_in link.now.groups file.id ≡ Some file.file.now }
    requires numbered { numbered_symbol link.now.groups number ≡ Some (file_of file, symbol.now) }
    ensures { StopsAtFirst (symbol_outside link.now live.now file.entry.file.now.kind (number, symbol.now)) result }
{
    let flags = flags_at(live, number);
    let is_resolved = symbol.is_wanted(file.file.kind, SymbolId::from_u32(number), flags);
    if is_resolved && is_outside(link, file, number, symbol) {
        return Err(MergeOffsetPlace::OfSymbol(SymbolId::from_u32(number)));
    }
    Ok(())
}

/// Whether a symbol of a file, with this number, stands outside.
fn is_outside(link: &LinkInput, file: FileRef<'_>, _number: u32, symbol: &InputSymbol) -> bool
    requires good { IsWellFormed link.now }
    requires there { file_in link.now.groups file.id ≡ Some file.file.now }
    requires numbered { numbered_symbol link.now.groups _number ≡ Some (file_of file, symbol.now) }
    ensures { result ≡ stands_outside link.now _number }
{
    stands_outside_in(link, file, symbol)
}

/// Refuses the first relocation that refers outside.
fn check_relocations(link: &LinkInput, live: &Live) -> Result<(), MergeOffsetPlace>
    requires good { IsWellFormed link.now }
    ensures { StopsAtFirst (flat_map (relocations_outside link.now live.now) (numbered_files link.now.groups)) result }
{
    for file in link.groups.files() {
        check_file(link, live, file)?;
    }
    Ok(())
}

/// A file whose relocations are looked at.
#[derive(Clone, Copy)]
struct ReferringFile<'a> {
    link: &'a LinkInput,
    file: FileRef<'a>,
    /// The number of the first of its symbols.
    first: u32,
}

/// Refuses the first relocation of a file that refers outside.
fn check_file<'a>(
    link: &'a LinkInput,
    live: &Live,
    file: FileRef<'a>,
) -> Result<(), MergeOffsetPlace>
    requires good { IsWellFormed link.now }
    requires there { file_in link.now.groups file.id ≡ Some file.file.now }
    ensures { StopsAtFirst (relocations_outside link.now live.now (file_of file.entry)) result }
{
    let Some(start) = link.groups.input_start(file.id) else {
        return Ok(());
    };
    let Some(numbers) = link.groups.symbol_id_range(file.id) else {
        return Ok(());
    };
    let at = ReferringFile {
        link,
        file,
        first: numbers.start().as_u32(),
    };
    for (index, section) in file.file.sections.as_slice().iter().enumerate() {
        let is_live = is_marked(live.marks.as_slice(), start + index);
        check_section(at, is_live, index as u32, section)?;
    }
    Ok(())
}

/// Refuses the first relocation of a section that refers outside, if the section is live and has no debug data.
fn check_section(
    at: ReferringFile<'_>,
    is_live: bool,
    index: u32,
    section: &InputSection,
) -> Result<(), MergeOffsetPlace>
    requires good { IsWellFormed at.link.now }
    requires there { file_in at.link.now.groups at.file.id ≡ Some at.file.file.now }
    requires section { slice_get at.file.file.now.sections index ≡ Some section.now }
    requires first { at.first ≡ first_symbol at.link.now.groups at.file.id }
    ensures { StopsAtFirst (outside_in at.entry.link.now is_live (file_of at.entry.file) (index, section.now)) result }
{
    if !is_live || !section.slot.is_regular() {
        return Ok(());
    }
    for (number, relocation) in section.relocs.as_slice().iter().enumerate() {
        check_relocation(at, index, number as u32, *relocation)?;
    }
    Ok(())
}

/// Refuses a relocation, by its index in its section, that refers outside.
fn check_relocation(
    at: ReferringFile<'_>,
    section: u32,
    number: u32,
    relocation: Relocation,
) -> Result<(), MergeOffsetPlace>
    requires good { IsWellFormed at.link.now }
    requires there { file_in at.link.now.groups at.file.id ≡ Some at.file.file.now }
    requires number { at.first + relocation.symbol < 2 ^ 32 }
    requires first { at.first ≡ first_symbol at.link.now.groups at.file.id }
    ensures { StopsAtFirst (relocation_outside at.entry.link.now (file_of at.entry.file) section (number, relocation)) result }
{
    if resolution_flags(relocation.kind).0 == 0 {
        return Ok(());
    }
    if reference_outside(at, relocation.symbol, relocation.addend) {
        return Err(MergeOffsetPlace::OfRelocation(at.file.id, section, number));
    }
    Ok(())
}

/// Whether a reference of a file to one of its symbols, by the index there, with an addend, refers outside. What stands for the
/// symbol is looked up by its number only if it is another one.
fn reference_outside(at: ReferringFile<'_>, index: u32, addend: i64) -> bool
    requires good { IsWellFormed at.link.now }
    requires there { file_in at.link.now.groups at.file.id ≡ Some at.file.file.now }
    requires number { at.first + index < 2 ^ 32 }
    requires first { at.first ≡ first_symbol at.link.now.groups at.file.id }
    ensures { result ≡ refers_outside at.entry.link.now (local_definition at.entry.first at.entry.file.file.now.symbols index) addend }
{
    match at.file.file.symbols.get(index as usize) {
        Some(symbol) => match symbol.def {
            Some(definition) => refers_outside(at.link, definition, addend),
            None => refers_outside_in(at.link, at.file, symbol, addend),
        },
        None => refers_outside(at.link, SymbolId::from_u32(at.first + index), addend),
    }
}
