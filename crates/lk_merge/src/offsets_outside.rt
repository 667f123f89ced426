//! Offsets that are chosen outside the data of merged sections: at its end, or past it. No address is asked for.

ghost use Rattle.std.specs.Prelude.{◌≡◌, Some};
ghost use Rattle.lk_link.specs.Files.{file_in};
ghost use Rattle.lk_link.specs.Walks.{file_of};
ghost use Rattle.lk_link.specs.WellFormed.{IsWellFormed};
ghost use Rattle.lk_merge.specs.OffsetsOutside.{is_reference_outside, is_symbol_outside, refers_outside};
ghost use Rattle.lk_merge.specs.OutputAddresses.{merge_place};

use crate::output_address::{place_in, symbol_place};
use lk_link::{FileRef, InputSymbol, LinkInput, SymbolId};

/// Whether a reference to a symbol, with an addend, chooses an offset outside the data of a merged section. Takes logarithmic
/// time.
pub fn refers_outside(link: &LinkInput, symbol: SymbolId, addend: i64) -> bool
    requires { IsWellFormed link.now }
    ensures { result ≡ refers_outside link.now symbol addend }
{
    match symbol_place(link, symbol) {
        Some(place) => place.chooses_outside(addend),
        None => false,
    }
}

/// Whether a reference to a symbol of a file, with an addend, chooses an offset outside the data of a merged section. Takes
/// constant time.
pub fn refers_outside_in(
    link: &LinkInput,
    file: FileRef<'_>,
    symbol: &InputSymbol,
    addend: i64,
) -> bool
    requires well_formed { IsWellFormed link.now }
    requires there { file_in link.now.groups file.id ≡ Some file.file.now }
    ensures { result ≡ is_reference_outside addend (merge_place link.now.groups (file_of file.entry, symbol.now)) }
{
    match place_in(link, file, symbol) {
        Some(place) => place.chooses_outside(addend),
        None => false,
    }
}

/// Whether a symbol of a file has a name, and is placed outside the data of a merged section. Takes constant time.
pub fn stands_outside_in(link: &LinkInput, file: FileRef<'_>, symbol: &InputSymbol) -> bool
    requires well_formed { IsWellFormed link.now }
    requires there { file_in link.now.groups file.id ≡ Some file.file.now }
    ensures { result ≡ is_symbol_outside (merge_place link.now.groups (file_of file.entry, symbol.now)) }
{
    match place_in(link, file, symbol) {
        Some(place) => place.is_named && place.chooses_outside(0),
        None => false,
    }
}
