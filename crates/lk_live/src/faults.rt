//! References that can't be met: to sections that are left out, and to symbols that are defined nowhere.

ghost use Rattle.std.specs.Prelude.{◌≡◌, ◌++◌, ◌+◌, ◌≤◌, ◌<◌, ◌^◌, All, IfOk, OnOk, Some, length, slice_get};
ghost use Rattle.std.specs.Option.{option_to_list};
ghost use Rattle.std.specs.List.{enumerate_from, filter_map};
ghost use Rattle.lk_link.specs.Files.{file_in};
ghost use Rattle.lk_link.specs.Symbols.{first_symbol};
ghost use Rattle.lk_link.specs.Walks.{file_of};
ghost use Rattle.lk_link.specs.WellFormed.{IsWellFormed};
ghost use Rattle.lk_link.specs.declared.relocation.Relocation.{Relocation};
ghost use Rattle.lk_live.specs.Faults.{dynamic_fault, dynamic_faults, faults_by, file_faults, held_faults, is_looked_at, is_weak, relocation_fault, section_faults, undefined_placements, undefined_symbols};

use crate::error::ReferenceFault;
use lk_link::marks::is_marked;
use lk_link::relocation::resolution_flags;
use lk_link::{FileRef, InputFile, InputSection, InputSymbol, LinkInput, Relocation, SymbolId};
use lk_reach::{local_definition, section_number};
use std::alloc::{AllocError, Global};

/// All references at fault, by file, section and relocation. `marks` tells of each unit whether it is reached.
pub(crate) fn reference_faults(
    alloc: Global,
    link: &LinkInput,
    marks: &[bool],
) -> Result<Vec<ReferenceFault>, AllocError>
    requires { IsWellFormed link.now }
    ensures { IfOk result (λ faults. faults.items ≡ faults_by link.now marks.now) }
{
    let undefined = undefined_symbols(alloc, link)?;
    let mut faults = Vec::new(alloc);
    for file in link.groups.files() {
        push_file_faults(&mut faults, link, marks, undefined.as_slice(), file)?;
    }
    Ok(faults)
}

/// For each symbol whether it is undefined.
pub fn undefined_symbols(alloc: Global, link: &LinkInput) -> Result<Vec<bool>, AllocError>
    requires { IsWellFormed link.now }
    ensures { IfOk result (λ undefined. undefined.items ≡ undefined_symbols link.now.groups) }
{
    let mut undefined = Vec::with_capacity(alloc, link.groups.symbol_count() as usize)?;
    for file in link.groups.files() {
        push_undefined(&mut undefined, file.file.symbols.as_slice())?;
    }
    Ok(undefined)
}

/// Adds for each symbol of a file whether it is undefined.
fn push_undefined(undefined: &mut Vec<bool>, symbols: &[InputSymbol]) -> Result<(), AllocError>
    ensures { OnOk result (undefined.new.items ≡ undefined.old.items ++ undefined_placements symbols.now) }
{
    for symbol in symbols {
        undefined.push(symbol.at.is_undefined())?;
    }
    Ok(())
}

/// Adds what is at fault in a file: in its sections, then in its symbols where it is a dynamic one.
pub fn push_file_faults(
    faults: &mut Vec<ReferenceFault>,
    link: &LinkInput,
    marks: &[bool],
    undefined: &[bool],
    file: FileRef<'_>,
) -> Result<(), AllocError>
    requires well_formed { IsWellFormed link.now }
    requires table { undefined.now ≡ undefined_symbols link.now.groups }
    requires there { file_in link.now.groups file.id ≡ Some file.file.now }
    ensures { OnOk result (faults.new.items ≡ faults.old.items ++ file_faults link.now marks.now (file_of file.entry)) }
{
    push_held_faults(faults, link, marks, undefined, file)?;
    push_dynamic_faults(faults, link, undefined, file)?;
    Ok(())
}

/// Adds what is at fault in the symbols of a dynamic file.
fn push_dynamic_faults(
    faults: &mut Vec<ReferenceFault>,
    link: &LinkInput,
    undefined: &[bool],
    file: FileRef<'_>,
) -> Result<(), AllocError>
    requires well_formed { IsWellFormed link.now }
    requires table { undefined.now ≡ undefined_symbols link.now.groups }
    requires there { file_in link.now.groups file.id ≡ Some file.file.now }
    ensures { OnOk result (faults.new.items ≡ faults.old.items ++ dynamic_faults link.now (file_of file.entry)) }
{
    if is_looked_at(link, file.file) {
        if let Some(symbols) = link.groups.symbol_id_range(file.id) {
            let first = symbols.start().as_u32();
            push_symbol_faults(faults, undefined, first, file, file.file.symbols.as_slice())?;
        }
    }
    Ok(())
}

/// Whether the symbols of a file are looked at: of a dynamic file that says so, where undefined ones are refused.
fn is_looked_at(link: &LinkInput, file: &InputFile) -> bool
    ensures { result ≡ is_looked_at link.now file.now }
{
    file.kind.is_dynamic() && file.check && link.options.error_dynamics
}

/// Adds those of a dynamic file's symbols that are undefined and may not stay so. `first` is the number of the first.
fn push_symbol_faults(
    faults: &mut Vec<ReferenceFault>,
    undefined: &[bool],
    first: u32,
    file: FileRef<'_>,
    symbols: &[InputSymbol],
) -> Result<(), AllocError>
    requires { first + length symbols.now < 2 ^ 32 }
    ensures { OnOk result
        (faults.new.items
        ≡ faults.old.items ++ filter_map (dynamic_fault undefined.now first (file_of file.entry)) (enumerate_from 0 symbols.now)) }
{
    for (number, symbol) in symbols.iter().enumerate() {
        let fault = dynamic_fault(undefined, first, file, number as u32, symbol);
        push_fault(faults, fault)?;
    }
    Ok(())
}

/// The fault of a symbol of a dynamic file, by its index there, if it is undefined and may not stay so.
fn dynamic_fault(
    undefined: &[bool],
    first: u32,
    file: FileRef<'_>,
    number: u32,
    symbol: &InputSymbol,
) -> Option<ReferenceFault>
    requires { first + number < 2 ^ 32 }
    ensures { result ≡ dynamic_fault undefined.now first (file_of file.entry) (number, symbol.now) }
{
    let definition = local_definition(first, file.file.symbols.as_slice(), number);
    if !symbol.weak && is_marked(undefined, definition.as_usize()) {
        let own = SymbolId::from_u32(first + number);
        Some(ReferenceFault::UndefinedDynamic(own, file.id))
    } else {
        None
    }
}

/// Adds what is at fault in the sections of a file.
fn push_held_faults(
    faults: &mut Vec<ReferenceFault>,
    link: &LinkInput,
    marks: &[bool],
    undefined: &[bool],
    file: FileRef<'_>,
) -> Result<(), AllocError>
    requires well_formed { IsWellFormed link.now }
    requires table { undefined.now ≡ undefined_symbols link.now.groups }
    requires there { file_in link.now.groups file.id ≡ Some file.file.now }
    ensures { OnOk result (faults.new.items ≡ faults.old.items ++ held_faults link.now marks.now (file_of file.entry)) }
{
    let sections = file.file.sections.as_slice();
    if let Some(start) = section_number(link, file.id, 0) {
        for (index, section) in sections.iter().enumerate() {
            if is_marked(marks, start + index) {
                push_section_faults(faults, link, undefined, file, index as u32, section)?;
            }
        }
    }
    Ok(())
}

/// Adds what is at fault in a section that is reached: that it is discarded; else, where undefined symbols are refused, its
/// relocations.
fn push_section_faults(
    faults: &mut Vec<ReferenceFault>,
    link: &LinkInput,
    undefined: &[bool],
    file: FileRef<'_>,
    index: u32,
    section: &InputSection,
) -> Result<(), AllocError>
    requires well_formed { IsWellFormed link.now }
    requires table { undefined.now ≡ undefined_symbols link.now.groups }
    requires there { file_in link.now.groups file.id ≡ Some file.file.now }
    requires section { slice_get file.file.now.sections index ≡ Some section.now }
    ensures { OnOk result (faults.new.items ≡ faults.old.items ++ section_faults link.now (file_of file.entry) (index, section.now)) }
{
    if section.slot.is_discarded() {
        faults.push(ReferenceFault::Discarded(file.id, index))?;
    } else if section.slot.is_regular() && link.options.error_objects {
        if let Some(symbols) = link.groups.symbol_id_range(file.id) {
            let first = symbols.start().as_u32();
            push_relocation_faults(
                faults,
                undefined,
                first,
                file,
                index,
                section.relocs.as_slice(),
            )?;
        }
    }
    Ok(())
}

/// Adds the relocations of a section that need an undefined symbol. `first` is the number of the first of the file's symbols.
fn push_relocation_faults(
    faults: &mut Vec<ReferenceFault>,
    undefined: &[bool],
    first: u32,
    file: FileRef<'_>,
    section: u32,
    relocs: &[Relocation],
) -> Result<(), AllocError>
    requires numbers { All (λ (r : Relocation). first + r.symbol < 2 ^ 32) relocs.now }
    requires few { length relocs.now < 2 ^ 32 }
    ensures { OnOk result
        (faults.new.items
        ≡ faults.old.items
        ++ filter_map (relocation_fault undefined.now first (file_of file.entry) section) (enumerate_from 0 relocs.now)) }
{
    for (number, relocation) in relocs.iter().enumerate() {
        let fault = relocation_fault(undefined, first, file, section, number as u32, *relocation);
        push_fault(faults, fault)?;
    }
    Ok(())
}

/// Adds a fault, if there is one.
fn push_fault(
    faults: &mut Vec<ReferenceFault>,
    fault: Option<ReferenceFault>,
) -> Result<(), AllocError>
    ensures { OnOk result (faults.new.items ≡ faults.old.items ++ option_to_list fault) }
{
    if let Some(fault) = fault {
        faults.push(fault)?;
    }
    Ok(())
}

/// The fault of a relocation, if it needs an undefined symbol.
fn relocation_fault(
    undefined: &[bool],
    first: u32,
    file: FileRef<'_>,
    section: u32,
    number: u32,
    relocation: Relocation,
) -> Option<ReferenceFault>
    requires { first + relocation.symbol < 2 ^ 32 }
    ensures { result ≡ relocation_fault undefined.now first (file_of file.entry) section (number, relocation) }
{
    let symbols = file.file.symbols.as_slice();
    let symbol = local_definition(first, symbols, relocation.symbol);
    let refers = resolution_flags(relocation.kind).0 != 0;
    if refers && !is_weak(symbols, relocation.symbol) && is_marked(undefined, symbol.as_usize()) {
        Some(ReferenceFault::Undefined(symbol, file.id, section, number))
    } else {
        None
    }
}

/// Whether a symbol of a file, by its index there, may stay undefined.
fn is_weak(symbols: &[InputSymbol], index: u32) -> bool
    ensures { result ≡ is_weak symbols.now index }
{
    match symbols.get(index as usize) {
        Some(symbol) => symbol.weak,
        None => false,
    }
}
