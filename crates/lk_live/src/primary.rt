//! Which symbols of the primary part other parts name, where a thunk may stand in.

ghost use Rattle.std.specs.Prelude.{◌≡◌, ◌++◌, ◌+◌, ◌<◌, ◌^◌, ◌||◌, ℕ, All, IfOk, OnOk, length, map, slice_get};
ghost use Rattle.std.specs.List.{list_any};
ghost use Rattle.std.specs.Option.{option_map_or};
ghost use Rattle.lk_link.specs.Marks.{is_marked};
ghost use Rattle.lk_link.specs.Walks.{input_of};
ghost use Rattle.lk_link.specs.WellFormed.{IsWellFormed};
ghost use Rattle.lk_link.specs.declared.relocation.Relocation.{Relocation};
ghost use Rattle.lk_link.specs.declared.symbol.InputSymbol.{InputSymbol};
ghost use Rattle.lk_live.specs.Primary.{ArePrimaryReferences};
ghost use Rattle.lk_live.specs.PrimaryMarks.{IsInputOf, is_primary_symbol, names_primary, names_symbol, primary_symbols};

use crate::live::Live;
use lk_link::marks::is_marked;
use lk_link::{InputFile, InputRef, InputSymbol, LinkInput, Relocation, SymbolPlacement};
use lk_reach::local_definition;
use lk_reach::reaching::is_primary_section;
use lk_reach::walk::unmarked;
use std::alloc::{AllocError, Global};

/// For each symbol whether it stands in the primary part and a live section of another part names it where a thunk may stand
/// in. Looks once at each relocation of live sections (libwild: `non_primary_referenced_symbols`).
pub fn primary_references(
    alloc: Global,
    link: &LinkInput,
    live: &Live,
) -> Result<Vec<bool>, AllocError>
    requires { IsWellFormed link.now }
    ensures { IfOk result (λ marks. ArePrimaryReferences link.now live.now marks.items) }
{
    let primary = primary_symbols(alloc, link)?;
    let mut marks = unmarked(alloc, primary.len())?;
    for input in live.inputs(link) {
        mark_named(&mut marks, link, primary.as_slice(), input);
    }
    Ok(marks)
}

/// For each symbol whether it stands in the primary part.
fn primary_symbols(alloc: Global, link: &LinkInput) -> Result<Vec<bool>, AllocError>
    requires { IsWellFormed link.now }
    ensures { IfOk result (λ primary. primary.items ≡ primary_symbols link.now) }
{
    let mut primary = Vec::with_capacity(alloc, link.groups.symbol_count() as usize)?;
    for file in link.groups.files() {
        push_primary(&mut primary, link, file.file)?;
    }
    Ok(primary)
}

/// Adds for each symbol of a file whether it stands in the primary part.
fn push_primary(
    primary: &mut Vec<bool>,
    link: &LinkInput,
    file: &InputFile,
) -> Result<(), AllocError>
    ensures { OnOk result (primary.new.items ≡ primary.old.items ++ map (is_primary_symbol link.now file.now) file.now.symbols) }
{
    let symbols = file.symbols.as_slice();
    for symbol in symbols {
        primary.push(is_primary_symbol(link, file, symbol))?;
    }
    Ok(())
}

/// Whether a symbol of a file stands in a section of the primary part.
fn is_primary_symbol(link: &LinkInput, file: &InputFile, symbol: &InputSymbol) -> bool
    ensures { result ≡ is_primary_symbol link.now file.now symbol.now }
{
    match &symbol.at {
        SymbolPlacement::Section { index, .. } => match file.sections.get(*index as usize) {
            Some(section) => is_primary_section(link, section),
            None => false,
        },
        _ => false,
    }
}

/// Marks what a section names so.
fn mark_named(marks: &mut Vec<bool>, link: &LinkInput, primary: &[bool], input: InputRef<'_>)
    requires well_formed { IsWellFormed link.now }
    requires there { IsInputOf link.now (input_of input) }
    ensures count { length marks.new.items ≡ length marks.old.items }
    ensures marks { (s : ℕ) → s < length marks.old.items
        → is_marked marks.new.items s ≡ (is_marked marks.old.items s || names_primary link.now primary.now s (input_of input.entry)) }
{
    if input.section.slot.is_regular() && !is_primary_section(link, input.section) {
        if let Some(file) = link.groups.file(input.file) {
            if let Some(symbols) = link.groups.symbol_id_range(input.file) {
                let first = symbols.start().as_u32();
                let relocs = input.section.relocs.as_slice();
                mark_relocations(marks, primary, first, file.symbols.as_slice(), relocs);
            }
        }
    }
}

/// Marks what relocations name so. `first` is the number of the first of the file's symbols.
fn mark_relocations(
    marks: &mut Vec<bool>,
    primary: &[bool],
    first: u32,
    symbols: &[InputSymbol],
    relocs: &[Relocation],
)
    requires { All (λ (r : Relocation). first + r.symbol < 2 ^ 32) relocs.now }
    ensures count { length marks.new.items ≡ length marks.old.items }
    ensures marks { (s : ℕ) → s < length marks.old.items
        → is_marked marks.new.items s
        ≡ (is_marked marks.old.items s || list_any (names_symbol primary.now first symbols.now s) relocs.now) }
{
    for relocation in relocs {
        mark_symbol(marks, primary, first, symbols, *relocation);
    }
}

/// Marks the symbol that a relocation names so.
fn mark_symbol(
    marks: &mut Vec<bool>,
    primary: &[bool],
    first: u32,
    symbols: &[InputSymbol],
    relocation: Relocation,
)
    requires { first + relocation.symbol < 2 ^ 32 }
    ensures count { length marks.new.items ≡ length marks.old.items }
    ensures marks { (s : ℕ) → s < length marks.old.items
        → is_marked marks.new.items s ≡ (is_marked marks.old.items s || names_symbol primary.now first symbols.now s relocation) }
{
    let symbol = local_definition(first, symbols, relocation.symbol).as_usize();
    if relocation.thunkable && is_marked(primary, symbol) && symbol < marks.len() {
        marks[symbol] = true;
    }
}
