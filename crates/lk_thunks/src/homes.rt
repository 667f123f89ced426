//! In which file each symbol of the primary part is at home, so that what many branches go to is found by its number.

ghost use Rattle.std.specs.Prelude.{◌≡◌, ◌++◌, if◌then◌else◌, IfOk, IsSome, OnOk, Some, map, slice_index, suc};
ghost use Rattle.lk_link.specs.Files.{file_in};
ghost use Rattle.lk_link.specs.Symbols.{file_number};
ghost use Rattle.lk_link.specs.Walks.{file_of};
ghost use Rattle.lk_link.specs.WellFormed.{IsWellFormed};
ghost use Rattle.lk_live.specs.PrimaryMarks.{is_primary_symbol};
ghost use Rattle.lk_thunks.specs.Homes.{home_number, home_numbers, range_told};

use lk_link::{FileId, FileRef, InputFile, InputSymbol, LinkInput, SymbolPlacement};
use lk_live::reaching::is_primary_section;
use std::alloc::{AllocError, Global};

/// For each symbol the number of its file over all groups, and one, if the symbol stands in the primary part; else 0. Looks at each
/// symbol once.
pub(crate) fn home_numbers(alloc: Global, link: &LinkInput) -> Result<Vec<u32>, AllocError>
    requires { IsWellFormed link.now }
    ensures { IfOk result (λ homes. homes.items ≡ home_numbers link.now) }
{
    let mut homes = Vec::with_capacity(alloc, link.groups.symbol_count() as usize)?;
    for file in link.groups.files() {
        push_homes(&mut homes, link, file)?;
    }
    Ok(homes)
}

/// Adds those of the symbols of a file.
fn push_homes(homes: &mut Vec<u32>, link: &LinkInput, file: FileRef<'_>) -> Result<(), AllocError>
    requires good { IsWellFormed link.now }
    requires there { file_in link.now.groups file.id ≡ Some file.file.now }
    ensures { OnOk result (homes.new.items ≡ homes.old.items ++ map (home_number link.now (file_of file.entry)) file.entry.file.now.symbols) }
{
    let number = number_behind(link, file.id);
    let symbols = file.file.symbols.as_slice();
    for symbol in symbols {
        homes.push(home_number(link, file.file, number, symbol))?;
    }
    Ok(())
}

/// That of a symbol of a file whose own number, and one, is this.
fn home_number(link: &LinkInput, file: &InputFile, number: u32, symbol: &InputSymbol) -> u32
    ensures { result ≡ (if is_primary_symbol link.now file.now symbol.now then number else 0) }
{
    if is_primary_symbol(link, file, symbol) {
        number
    } else {
        0
    }
}

/// The number of a file over all groups, and one.
fn number_behind(link: &LinkInput, file: FileId) -> u32
    requires good { IsWellFormed link.now }
    requires there { IsSome (file_in link.now.groups file) }
    ensures { result ≡ suc (file_number link.now.groups file) }
{
    match link.groups.file_number(file) {
        Some(number) => number as u32 + 1,
        None => 0,
    }
}

/// Whether a symbol of a file stands in a section of the primary part.
fn is_primary_symbol(link: &LinkInput, file: &InputFile, symbol: &InputSymbol) -> bool
    ensures { result ≡ is_primary_symbol link.now file.now symbol.now }
{
    match &symbol.at {
        SymbolPlacement::Section { index, .. } => match file.sections.get(*index as usize) {
            Some(section) => is_primary_section(link, section),
            None => false,
        },
        _ => false,
    }
}

/// The number at an index; 0 where there is none.
pub(crate) fn number_at(homes: &[u32], index: usize) -> u32
    ensures { result ≡ slice_index homes.now index }
{
    match homes.get(index) {
        Some(number) => *number,
        None => 0,
    }
}

/// The range of the file with such a number.
pub(crate) fn range_told(ranges: &[(FileId, u64, u64)], number: u32) -> Option<(FileId, u64, u64)>
    ensures { result ≡ range_told ranges.now number }
{
    if number == 0 {
        return None;
    }
    ranges.get(number as usize - 1).copied()
}
