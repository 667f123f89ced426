//! The dynamic symbol table: whose its entries are.
//!
//! The dynamic symbols of the files come first, and what is exported behind them, each by number: two passes over the symbols
//! of all files.

ghost use Rattle.std.specs.Prelude.{◌≡◌, ◌&&◌, ◌+◌, ◌++◌, ◌∷◌, [], ◌<◌, ◌≤◌, ◌^◌, IfOk, OnOk, Some, if◌then◌else◌, length};
ghost use Rattle.std.specs.List.{enumerate_from, flat_map};
ghost use Rattle.lk_link.specs.declared.flags.TheConstants.ValueFlags as flag;
ghost use Rattle.lk_link.specs.Files.{file_in};
ghost use Rattle.lk_link.specs.Flags.{has_flag};
ghost use Rattle.lk_link.specs.Inputs.{numbered_files};
ghost use Rattle.lk_link.specs.Walks.{file_of};
ghost use Rattle.lk_link.specs.WellFormed.{IsWellFormed};
ghost use Rattle.lk_tables.specs.Dynamic.{dynamic_table, exports, is_redirect};
ghost use Rattle.lk_link.specs.Symbols.{is_wanted};
ghost use Rattle.lk_tables.specs.DynamicWords.{file_numbers, has_entry, numbers_of};

use crate::header_info::HeaderInfo;
use crate::symbol_table::{Given, flags_at, late_flags};
use lk_live::Live;
use lk_link::{FileKind, FileRef, InputSymbol, LinkInput, SymbolId, SymbolPlacement, ValueFlags};
use std::alloc::{AllocError, Global};

/// Whether the dynamic linker gives the value of a symbol of a file of a kind, with its number and these flags, late ones
/// included, and it has a resolution.
pub(crate) fn is_dynamic_symbol(
    kind: FileKind,
    number: SymbolId,
    symbol: &InputSymbol,
    flags: ValueFlags,
) -> bool
    ensures { result ≡ (is_wanted kind number symbol.now flags && has_flag flag.DYNAMIC.0 flags.0) }
{
    symbol.is_wanted(kind, number, flags) && flags.is_dynamic()
}

/// Whether a placement is an expression.
fn is_redirect(at: &SymbolPlacement) -> bool
    ensures { result ≡ is_redirect at.now }
{
    matches!(at, SymbolPlacement::Redirect { .. })
}

/// Whether a file of a kind exports a symbol with its number and these flags.
pub(crate) fn exports(
    kind: FileKind,
    number: SymbolId,
    symbol: &InputSymbol,
    flags: ValueFlags,
) -> bool
    ensures { result ≡ exports kind number symbol.now flags.0 }
{
    match kind {
        FileKind::Object | FileKind::LinkerScript => {
            symbol.is_canonical(number) && flags.needs_export_dynamic()
        }
        FileKind::Prelude => symbol.is_canonical(number) && is_redirect(&symbol.at),
        _ => false,
    }
}

/// Whether a symbol of a file, with its number, has an entry among the exports, or among the dynamic symbols.
fn has_entry(
    exported: bool,
    given: Given<'_>,
    file: FileRef<'_>,
    number: SymbolId,
    symbol: &InputSymbol,
) -> bool
    ensures { result ≡ has_entry exported given.entry.link.now given.entry.live.now given.entry.told.now (file_of file.entry)
        (number, symbol.now) }
{
    let kind = file.file.kind;
    let flags = flags_at(given.live.flags.as_slice(), number.as_usize());
    if exported {
        exports(kind, number, symbol, flags)
    } else {
        let late = late_flags(given.link, given.told, kind, number, symbol, flags);
        is_dynamic_symbol(kind, number, symbol, late)
    }
}

/// Adds a symbol, if it has an entry.
fn push_if(table: &mut Vec<SymbolId>, has_entry: bool, number: SymbolId) -> Result<(), AllocError>
    ensures { OnOk result (table.new.items ≡ table.old.items ++ (if has_entry then number ∷ [] else [])) }
{
    if has_entry {
        table.push(number)?;
    }
    Ok(())
}

/// Adds those of some symbols of a file that have an entry; the first of them has this number.
fn push_symbols(
    table: &mut Vec<SymbolId>,
    exported: bool,
    given: Given<'_>,
    file: FileRef<'_>,
    first: u32,
    symbols: &[InputSymbol],
) -> Result<(), AllocError>
    requires numbers { first + length symbols.now < 2 ^ 32 }
    ensures { OnOk result (table.new.items ≡ table.old.items
        ++ numbers_of exported given.entry.link.now given.entry.live.now given.entry.told.now (file_of file.entry)
        (enumerate_from first symbols.now)) }
{
    for (index, symbol) in symbols.iter().enumerate() {
        let number = SymbolId::from_u32(first + index as u32);
        let found = has_entry(exported, given, file, number, symbol);
        push_if(table, found, number)?;
    }
    Ok(())
}

/// Adds those of the symbols of a file that have an entry.
fn push_file(
    table: &mut Vec<SymbolId>,
    exported: bool,
    given: Given<'_>,
    file: FileRef<'_>,
) -> Result<(), AllocError>
    requires good { IsWellFormed given.link.now }
    requires there { file_in given.link.now.groups file.id ≡ Some file.file.now }
    ensures { OnOk result (table.new.items ≡ table.old.items
        ++ file_numbers exported given.entry.link.now given.entry.live.now given.entry.told.now (file_of file.entry)) }
{
    if let Some(numbers) = given.link.groups.symbol_id_range(file.id) {
        let first = numbers.start().as_u32();
        push_symbols(
            table,
            exported,
            given,
            file,
            first,
            file.file.symbols.as_slice(),
        )?;
    }
    Ok(())
}

/// Adds the symbols of all files that have an entry among the exports, or among the dynamic symbols.
fn push_files(table: &mut Vec<SymbolId>, exported: bool, given: Given<'_>) -> Result<(), AllocError>
    requires good { IsWellFormed given.link.now }
    ensures { OnOk result (table.new.items ≡ table.old.items
        ++ flat_map (file_numbers exported given.entry.link.now given.entry.live.now given.entry.told.now)
        (numbered_files given.entry.link.now.groups)) }
{
    for file in given.link.groups.files() {
        push_file(table, exported, given, file)?;
    }
    Ok(())
}

/// The dynamic symbols of the files, and then what is exported, where a dynamic linker loads the output.
fn entry_symbols(alloc: Global, given: Given<'_>) -> Result<Vec<SymbolId>, AllocError>
    requires good { IsWellFormed given.link.now }
    ensures { IfOk result (λ table. table.items ≡ dynamic_table given.entry.link.now given.entry.live.now given.entry.told.now) }
{
    let mut table = Vec::new(alloc);
    if given.link.options.output.is_loaded_dynamically() {
        push_files(&mut table, false, given)?;
        push_files(&mut table, true, given)?;
    }
    Ok(table)
}

/// Whose the entries of the dynamic symbol table are, in order, behind the first one, which is the table's own: the dynamic
/// symbols of the files, and then what is exported; so at most two for each symbol. None where no dynamic linker loads the output.
/// Looks at each symbol twice (libwild: `EpilogueLayoutState::apply_late_size_adjustments`).
pub fn dynamic_table(
    alloc: Global,
    link: &LinkInput,
    live: &Live,
    header: &HeaderInfo,
) -> Result<Vec<SymbolId>, AllocError>
    requires good { IsWellFormed link.now }
    ensures table { IfOk result (λ table. table.items ≡ dynamic_table link.now live.now header.now.emitted) }
    ensures few { IfOk result (λ table. length table.items ≤ 33554432) }
{
    let told = header.emitted.as_slice();
    let table = entry_symbols(alloc, Given { link, live, told })?;
    Ok(table)
}
