//! The values that symbols have in the output.
//!
//! A table has the address of each live input section, by its number over all files. One pass over the symbols, file by file,
//! gives each that stands for itself and is asked for its value. In objects and dynamic files a place in a live section is the section's
//! address and where its offset goes by what is deleted, a common has the address that it has among the owners of its part, a number stays,
//! and what is defined nowhere, or in a dynamic file, is 0. In the prelude, in scripts and in synthetic files a symbol stands at its edge. A
//! named symbol in a merged section stands where its piece does, which takes logarithmic time, and so do a common, and an offset in a file of
//! whose sections something is deleted; any other symbol takes constant time.

ghost use Rattle.std.specs.Prelude.{◌≡◌, ◌+◌, ◌<◌, ◌^◌, ◌++◌, IfOk, OnOk, Some, true, map, length, slice_get, slice_index};
ghost use Rattle.std.specs.List.{enumerate_from, flat_map};
ghost use Rattle.lk_link.specs.Files.{file_in};
ghost use Rattle.lk_link.specs.Inputs.{first_input, input_number, numbered_files};
ghost use Rattle.lk_link.specs.Marks.{is_marked};
ghost use Rattle.lk_link.specs.Symbols.{first_symbol};
ghost use Rattle.lk_link.specs.Walks.{file_of};
ghost use Rattle.lk_link.specs.WellFormed.{IsWellFormed};
ghost use Rattle.lk_reach.specs.Units.{numbered_symbols};
ghost use Rattle.lk_tables.specs.DynamicCounters.{AreNumbersAt};
ghost use Rattle.lk_tables.specs.Late.{flags_at};
ghost use Rattle.lk_resolutions.specs.EntryWords.{AreNextAt, first_cursors, start_of, unplaced_resolution};
ghost use Rattle.lk_resolutions.specs.Resolutions.{entry_symbol, entry_value, file_resolutions, placed_value, resolution_of, value_of};
ghost use Rattle.lk_resolutions.specs.AtHand.{AreAtHand, IsAtHand, StandsAtHand, places_at_hand, setting_at_hand};
ghost use Rattle.lk_resolutions.specs.Tables.{AreMergedOf, AreRising, IsInside, common_in, place_in};

use crate::entries::{NextEntries, take_entries};
use crate::merged::{Merged, merged_value};
use lk_deltas::{RelaxDeltaMap, deleted_in, map_of, opt_input_to_output};
use lk_link::marks::is_marked;
use lk_link::{
    FileRef, InputSymbol, LinkInput, PartId, Platform, Resolution, SymbolId, SymbolPlacement,
    TableCursors, ValueFlags,
};
use lk_live::Live;
use lk_own_symbols::Edges;
use lk_resolution_list::SymbolResolutions;
use lk_sizes::CommonAddress;
use lk_tables::DynamicNumbers;
use lk_tables::symbol_table::late_flags;
use std::alloc::{AllocError, Global};

/// Why the entry has no address.
#[derive(Clone, Copy, Debug, PartialEq, Eq)]
pub enum EntryFault {
    /// The symbol has no resolution.
    NotLoaded,
    /// The dynamic linker gives the value.
    NotAnAddress,
}

/// The address of the entry, by its resolution.
pub fn entry_value(resolution: Option<Resolution>) -> Result<Option<u64>, EntryFault>
    ensures { result ≡ entry_value resolution }
{
    let resolution = resolution.ok_or(EntryFault::NotLoaded)?;
    if resolution.flags.is_dynamic() && !resolution.flags.is_absolute() {
        return Err(EntryFault::NotAnAddress);
    }
    Ok(Some(resolution.raw_value))
}

/// The symbol that stands for the entry, if the options name one.
pub fn entry_symbol(link: &LinkInput) -> Option<SymbolId>
    ensures { result ≡ entry_symbol link.now }
{
    link.groups.definition(link.options.entry?)
}

/// What symbols are resolved by: what is merged of their link, what is live of it, and what is known by number.
#[derive(Clone, Copy)]
pub(crate) struct Tables<'a> {
    pub(crate) merged: Merged<'a>,
    pub(crate) live: &'a Live,
    /// Of each live input section its address.
    pub(crate) addresses: &'a [u64],
    /// Of each file what is deleted of its sections.
    pub(crate) deltas: &'a [RelaxDeltaMap],
    /// Of each common that takes bytes its address, in the order of symbols.
    pub(crate) commons: &'a [CommonAddress],
    /// What the symbols stand at that the linker itself places.
    pub(crate) edges: &'a Edges<'a>,
    /// Of each output section whether its edges are told.
    pub(crate) told: &'a [bool],
    /// Of each part where it starts.
    pub(crate) starts: &'a [u64],
}

/// A file whose symbols are resolved.
#[derive(Clone, Copy)]
pub(crate) struct FileAtHand<'a> {
    file: FileRef<'a>,
    /// The number of its first input section.
    first_input: usize,
    /// The number of its first symbol.
    first_symbol: u32,
    /// What is deleted of its sections, if there is an entry for it.
    entries: Option<&'a RelaxDeltaMap>,
}

/// A symbol with its number.
#[derive(Clone, Copy)]
pub(crate) struct NumberedSymbol<'a> {
    pub(crate) number: u32,
    pub(crate) symbol: &'a InputSymbol,
}

/// For each symbol of the link its resolution, if it has one. `numbers` are the next in the dynamic symbol table at the first.
pub(crate) fn resolve_all<P: Platform>(
    alloc: Global,
    platform: &P,
    tables: &Tables<'_>,
    numbers: DynamicNumbers,
) -> Result<SymbolResolutions, AllocError>
    requires tables { AreAtHand (P.table_sizes platform.now) tables.now }
    requires numbers { AreNumbersAt tables.now.merged.link.now tables.now.live.now tables.now.told.now 0 numbers }
    ensures { IfOk result (λ resolutions. resolutions ≡ flat_map (file_resolutions (places_at_hand tables.now) (setting_at_hand (P.table_sizes platform.now) tables.now))
        (numbered_files tables.now.merged.link.now.groups)) }
{
    let link = tables.merged.link;
    let mut resolutions = SymbolResolutions::with_capacity(
        alloc,
        link.groups.symbol_count() as usize,
    )?;
    let mut entries = NextEntries {
        numbers,
        cursors: first_cursors(link, tables.starts),
    };
    for file in link.groups.files() {
        push_file_resolutions(&mut resolutions, platform, tables, &mut entries, file)?;
    }
    Ok(resolutions)
}

/// The starts of the parts `got` and `plt`; 0 where the plan names none.
pub(crate) fn first_cursors(link: &LinkInput, starts: &[u64]) -> TableCursors
    ensures { result ≡ first_cursors link.now.plan.named starts.now }
{
    TableCursors {
        got: start_of(link.plan.named.got, starts),
        plt: start_of(link.plan.named.plt, starts),
    }
}

/// The start of a part, if it is named, else 0.
fn start_of(named: Option<PartId>, starts: &[u64]) -> u64
    ensures { result ≡ start_of named starts.now }
{
    match named {
        Some(part) => start_at(starts, part.as_usize()),
        None => 0,
    }
}

/// The start of the part with this number, or 0.
fn start_at(starts: &[u64], number: usize) -> u64
    ensures { result ≡ slice_index starts.now number }
{
    match starts.get(number) {
        Some(start) => *start,
        None => 0,
    }
}

/// Adds for each symbol of a file its resolution, if it has one.
pub(crate) fn push_file_resolutions<P: Platform>(
    resolutions: &mut SymbolResolutions,
    platform: &P,
    tables: &Tables<'_>,
    next: &mut NextEntries,
    file: FileRef<'_>,
) -> Result<(), AllocError>
    requires tables { AreAtHand (P.table_sizes platform.now) tables.now }
    requires there { file_in tables.now.merged.link.now.groups file.id ≡ Some file.file.now }
    requires next { AreNextAt (setting_at_hand (P.table_sizes platform.now) tables.now) (first_symbol tables.now.merged.link.now.groups file.id) next.now }
    ensures pushed { OnOk result (resolutions.new
        ≡ resolutions.old ++ file_resolutions (places_at_hand tables.now) (setting_at_hand (P.table_sizes platform.now) tables.now) (file_of file.entry)) }
    ensures moved { OnOk result (AreNextAt (setting_at_hand (P.table_sizes platform.now) tables.now)
        (first_symbol tables.now.merged.link.now.groups file.entry.id + length file.entry.file.now.symbols) next.new) }
{
    let at_hand = file_at_hand(tables, file);
    push_resolutions(resolutions, platform, tables, next, &at_hand)
}

/// A file with what is found of it once.
fn file_at_hand<'a>(tables: &Tables<'a>, file: FileRef<'a>) -> FileAtHand<'a>
    requires good { IsWellFormed tables.now.merged.link.now }
    requires there { file_in tables.now.merged.link.now.groups file.id ≡ Some file.file.now }
    ensures file { result.file ≡ file.entry }
    ensures found { IsAtHand tables.now result }
{
    let link = tables.merged.link;
    FileAtHand {
        file,
        first_input: first_input_of(link, file),
        first_symbol: first_symbol_of(link, file),
        entries: map_of(link, tables.deltas, file.id),
    }
}

/// The number of a file's first input section.
fn first_input_of(link: &LinkInput, file: FileRef<'_>) -> usize
    requires good { IsWellFormed link.now }
    requires there { file_in link.now.groups file.id ≡ Some file.file.now }
    ensures exactly { result ≡ first_input link.now.groups file.entry.id }
    ensures few { result < 2 ^ 32 }
{
    match link.groups.input_start(file.id) {
        Some(first) => first,
        None => 0,
    }
}

/// The number of a file's first symbol.
pub(crate) fn first_symbol_of(link: &LinkInput, file: FileRef<'_>) -> u32
    requires good { IsWellFormed link.now }
    requires there { file_in link.now.groups file.id ≡ Some file.file.now }
    ensures exactly { result ≡ first_symbol link.now.groups file.entry.id }
    ensures few { result + length file.entry.file.now.symbols < 2 ^ 32 }
{
    match link.groups.symbol_id_range(file.id) {
        Some(numbers) => numbers.start().as_u32(),
        None => 0,
    }
}

/// Adds for each symbol of a file its resolution, if it has one.
fn push_resolutions<P: Platform>(
    resolutions: &mut SymbolResolutions,
    platform: &P,
    tables: &Tables<'_>,
    next: &mut NextEntries,
    at_hand: &FileAtHand<'_>,
) -> Result<(), AllocError>
    requires tables { AreAtHand (P.table_sizes platform.now) tables.now }
    requires file { IsAtHand tables.now at_hand.now }
    requires next { AreNextAt (setting_at_hand (P.table_sizes platform.now) tables.now) at_hand.now.first_symbol next.now }
    ensures pushed { OnOk result (resolutions.new ≡ resolutions.old ++ map (resolution_of (places_at_hand tables.now) (setting_at_hand (P.table_sizes platform.now) tables.now)
        at_hand.now.file.file.now.kind at_hand.now.first_input) (enumerate_from at_hand.now.first_symbol at_hand.now.file.file.now.symbols)) }
    ensures moved { OnOk result (AreNextAt (setting_at_hand (P.table_sizes platform.now) tables.now) (at_hand.now.first_symbol + length at_hand.now.file.file.now.symbols) next.new) }
{
    let symbols = at_hand.file.file.symbols.as_slice();
    for (index, symbol) in symbols.iter().enumerate() {
        let number = at_hand.first_symbol + index as u32;
        let numbered = NumberedSymbol { number, symbol };
        let resolution = resolve(platform, tables, next, at_hand, numbered);
        resolutions.push(resolution)?;
    }
    Ok(())
}

/// The flags of a symbol, by its number; none past the end.
pub(crate) fn flags_at(live: &Live, number: u32) -> ValueFlags
    ensures { result ≡ flags_at live.now.flags number }
{
    match live.flags.as_slice().get(number as usize) {
        Some(flags) => *flags,
        None => ValueFlags(0),
    }
}

/// The resolution of a symbol of a file, if it has one. What it takes in tables is taken, whether or not it is worth
/// anything.
fn resolve<P: Platform>(
    platform: &P,
    tables: &Tables<'_>,
    next: &mut NextEntries,
    at_hand: &FileAtHand<'_>,
    numbered: NumberedSymbol<'_>,
) -> Option<Resolution>
    requires tables { AreAtHand (P.table_sizes platform.now) tables.now }
    requires file { IsAtHand tables.now at_hand.now }
    requires there { slice_get (numbered_symbols tables.now.merged.link.now.groups) numbered.number ≡ Some (file_of at_hand.now.file, numbered.symbol.now) }
    requires stands { StandsAtHand tables.now at_hand.now numbered.symbol.now.at }
    requires next { AreNextAt (setting_at_hand (P.table_sizes platform.now) tables.now) numbered.number next.now }
    ensures value { result ≡ resolution_of (places_at_hand tables.now) (setting_at_hand (P.table_sizes platform.now) tables.now)
        at_hand.now.file.file.now.kind at_hand.now.first_input (numbered.entry.number, numbered.entry.symbol.now) }
    ensures moved { AreNextAt (setting_at_hand (P.table_sizes platform.now) tables.now) (numbered.entry.number + 1) next.new }
{
    let taken = take_own(platform, tables, next, at_hand.file, numbered)?;
    let raw_value = symbol_value(tables, at_hand, numbered.number, numbered.symbol)?;
    Some(Resolution { raw_value, ..taken })
}

/// What a symbol of a file takes in tables: its resolution with the value 0; none where nothing asks for it.
pub(crate) fn take_own<P: Platform>(
    platform: &P,
    tables: &Tables<'_>,
    next: &mut NextEntries,
    file: FileRef<'_>,
    numbered: NumberedSymbol<'_>,
) -> Option<Resolution>
    requires tables { AreAtHand (P.table_sizes platform.now) tables.now }
    requires there { slice_get (numbered_symbols tables.now.merged.link.now.groups) numbered.number ≡ Some (file_of file, numbered.symbol.now) }
    requires next { AreNextAt (setting_at_hand (P.table_sizes platform.now) tables.now) numbered.number next.now }
    ensures taken { result ≡ unplaced_resolution (setting_at_hand (P.table_sizes platform.now) tables.now) file.entry.file.now.kind (numbered.entry.number, numbered.entry.symbol.now) }
    ensures moved { AreNextAt (setting_at_hand (P.table_sizes platform.now) tables.now) (numbered.entry.number + 1) next.new }
{
    let (link, told) = (tables.merged.link, tables.told);
    let kind = file.file.kind;
    let NumberedSymbol { number, symbol } = numbered;
    let id = SymbolId::from_u32(number);
    let dynamic = next.numbers.take(link, tables.live, told, file, id, symbol);
    let flags = late_flags(link, told, kind, id, symbol, flags_at(tables.live, number));
    if !symbol.is_wanted(kind, id, flags) {
        return None;
    }
    let named = &link.plan.named;
    Some(take_entries(platform, named, &mut next.cursors, flags, dynamic))
}

/// What a symbol of a file, with this number, is worth by its placement, if anything.
fn symbol_value(
    tables: &Tables<'_>,
    at_hand: &FileAtHand<'_>,
    number: u32,
    symbol: &InputSymbol,
) -> Option<u64>
    requires belong { AreMergedOf tables.now.merged.link.now tables.now.merged.sections.now tables.now.merged.starts.now }
    requires rising { AreRising tables.now.commons.now }
    requires file { IsAtHand tables.now at_hand.now }
    requires there { slice_get (numbered_symbols tables.now.merged.link.now.groups) number ≡ Some (file_of at_hand.now.file, symbol.now) }
    requires stands { StandsAtHand tables.now at_hand.now symbol.now.at }
    ensures { result ≡ value_of (places_at_hand tables.now) at_hand.now.file.file.now.kind at_hand.now.first_input number symbol.now.at }
{
    if at_hand.file.file.kind.is_internal() {
        tables.edges.value(&symbol.at)
    } else {
        Some(placed_value(tables, at_hand, number, symbol))
    }
}

/// The value of a symbol that the linker doesn't place, by its placement.
fn placed_value(
    tables: &Tables<'_>,
    at_hand: &FileAtHand<'_>,
    number: u32,
    symbol: &InputSymbol,
) -> u64
    requires belong { AreMergedOf tables.now.merged.link.now tables.now.merged.sections.now tables.now.merged.starts.now }
    requires rising { AreRising tables.now.commons.now }
    requires file { IsAtHand tables.now at_hand.now }
    requires there { slice_get (numbered_symbols tables.now.merged.link.now.groups) number ≡ Some (file_of at_hand.now.file, symbol.now) }
    requires stands { StandsAtHand tables.now at_hand.now symbol.now.at }
    ensures { result ≡ placed_value (places_at_hand tables.now) at_hand.now.first_input number symbol.now.at }
{
    match &symbol.at {
        SymbolPlacement::Section { index, offset } => {
            match address_at(tables, at_hand, *index, *offset) {
                Some(address) => address,
                None => merged_value(tables.merged, at_hand.file, symbol),
            }
        }
        SymbolPlacement::Common { .. } => common_address(tables.commons, number),
        SymbolPlacement::Absolute(value) => *value,
        _ => 0,
    }
}

/// The address of the common with this symbol, if there is one, else 0. Halves the table, which is in the order of symbols.
fn common_address(commons: &[CommonAddress], symbol: u32) -> u64
    requires { AreRising commons.now }
    ensures { result ≡ common_in commons.now symbol }
{
    let place = commons.partition_point(|common| common.symbol.as_u32() < symbol);
    match commons.get(place) {
        Some(common) if common.symbol.as_u32() == symbol => common.address,
        _ => 0,
    }
}

/// The address at an offset of an input section of a file, by its index; none where the section isn't live.
fn address_at(tables: &Tables<'_>, at_hand: &FileAtHand<'_>, index: u32, offset: u64) -> Option<u64>
    requires file { IsAtHand tables.now at_hand.now }
    requires stands { is_marked tables.now.live.now.marks (input_number tables.now.merged.link.now.groups at_hand.now.file.id index) ≡ true
        → IsInside tables.now.merged.link.now.groups tables.now.deltas.now tables.now.addresses.now at_hand.now.file.id index offset }
    ensures { result ≡ place_in tables.now.merged.link.now.groups tables.now.deltas.now tables.now.live.now.marks tables.now.addresses.now (at_hand.now.first_input + index) offset }
{
    let number = at_hand.first_input + index as usize;
    if !is_marked(tables.live.marks.as_slice(), number) {
        return None;
    }
    let address = tables.addresses.get(number).copied().unwrap_or(0);
    let moved = opt_input_to_output(deleted_in(at_hand.entries, index), offset);
    Some(address + moved)
}
