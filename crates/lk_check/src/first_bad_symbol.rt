//! The rule on symbols: the first symbol that breaks it.
//!
//! The walk over files finds the file and the symbol's index there; its number over all files is then the number of the
//! file's first symbol, which the files' index has, and that index.

ghost use Rattle.std.specs.Prelude.{◌≡◌, ◌+◌, ◌<◌, ◌≤◌, IsSomeAnd, not, length, position};
ghost use Rattle.lk_link.specs.declared.fault.Rule.TheVariants as rule;
ghost use Rattle.lk_link.specs.Files.{file_in, AreNumbered};
ghost use Rattle.lk_link.specs.SymbolRules.{is_good_symbol, location_count};
ghost use Rattle.lk_link.specs.Symbols.{all_files, first_symbol, symbol_count};
ghost use Rattle.lk_check.specs.FirstBadFile.{first_bad_in_files};
ghost use Rattle.lk_check.specs.FirstFault.{first_place};

use crate::events::location_count;
use crate::good_symbols::is_good_symbol;
use lk_link::fault::Place;
use lk_link::file::InputFile;
use lk_link::groups::InputGroups;
use lk_link::ids::FileId;
use lk_link::limits::SYMBOLS;
use lk_link::link::LinkInput;

/// The first symbol that isn't good.
#[tactic(auto, unfolding(crate::specs::FirstFault::first_place))]
pub fn first_place(link: &LinkInput) -> Option<Place>
    requires files { AreNumbered link.now.groups }
    requires symbols { symbol_count (all_files link.now.groups) ≤ SYMBOLS }
    ensures { result ≡ first_place link.now rule.Symbols }
{
    match first_bad_symbol(link) {
        None => None,
        Some((file, symbol)) => Some(Place::Symbol(symbol_number(&link.groups, file, symbol))),
    }
}

/// The same, by its file and its index there.
#[tactic(auto, using(crate::proofs::First::walks))]
fn first_bad_symbol(link: &LinkInput) -> Option<(FileId, usize)>
    requires { AreNumbered link.now.groups }
    ensures { result ≡ first_bad_in_files (λ f. f.symbols) (is_good_symbol link.now) link.now.groups }
{
    let locations = location_count(&link.plan);
    for at in link.groups.files() {
        if let Some(symbol) = bad_symbol(link, locations, at.file) {
            return Some((at.id, symbol));
        }
    }
    None
}

/// The number of a file's symbol over all files.
pub fn symbol_number(groups: &InputGroups, id: FileId, index: usize) -> usize
    requires there { IsSomeAnd (file_in groups.now id) (λ f. index < length f.symbols) }
    requires few { symbol_count (all_files groups.now) ≤ SYMBOLS }
    ensures { result ≡ first_symbol groups.now id + index }
{
    match groups.symbol_id_range(id) {
        None => unreachable!(),
        Some(range) => range.offset_to_id(index).as_usize(),
    }
}

/// The first symbol of a file that isn't good.
fn bad_symbol(link: &LinkInput, locations: usize, file: &InputFile) -> Option<usize>
    requires { locations ≡ location_count link.now.plan }
    ensures { result ≡ position (λ s. not (is_good_symbol link.now file.now s)) file.now.symbols }
{
    file.symbols
        .as_slice()
        .iter()
        .position(|symbol| !is_good_symbol(link, locations, file, symbol))
}
