//! The path by which a unit is kept that is shown.

ghost use Rattle.std.specs.Prelude.{◌≡◌, ◌<◌, All, IfOk, MatchOption, MatchResult, true, length, map, Some};
ghost use Rattle.lk_link.specs.WellFormed.{IsWellFormed};
ghost use Rattle.lk_reach.specs.Marks.{all_units, asking, unit_at, unit_number};
ghost use Rattle.lk_reach.specs.Reach.{IsReached};
ghost use Rattle.lk_explain.specs.Explaining.{IsRefused, IsShortest};
ghost use Rattle.lk_explain.specs.Faults.{has_unit};
ghost use Rattle.lk_explain.specs.Searching.{IsOver, IsTrail, far};
ghost use Rattle.lk_explain.specs.Sharing.{files_of};

use crate::check::has_unit;
use crate::places::{files_of, unit_at};
use crate::search::{Search, zeros};
use lk_link::{FileId, LinkInput};
use lk_reach::{Unit, section_number};
use std::alloc::{AllocError, AllocFailed, Global};

/// Why it isn't told by which path a unit is kept.
#[derive(Clone, Copy, Debug, PartialEq, Eq)]
pub enum ExplainError {
    /// The link has no such unit: a symbol or a section that isn't there, or a symbol that doesn't stand for itself.
    NoSuchUnit,
    /// There was no memory for the search or the path.
    NoMemory,
}

impl From<AllocError> for ExplainError {
    ghost use Rattle.std.specs.Prelude.{◌≡◌};
    ghost use Rattle.lk_explain.specs.declared.shown.ExplainError.TheVariants.{NoMemory};

    ghost from_gives = { λ _ e. e ≡ NoMemory };

    fn from(_error: AllocError) -> ExplainError {
        ExplainError::NoMemory
    }
}

impl<T: Drop> From<AllocFailed<T>> for ExplainError {
    ghost use Rattle.std.specs.Prelude.{◌≡◌};
    ghost use Rattle.lk_explain.specs.declared.shown.ExplainError.TheVariants.{NoMemory};

    ghost from_gives = { λ _ e. e ≡ NoMemory };

    fn from(_error: AllocFailed<T>) -> ExplainError {
        ExplainError::NoMemory
    }
}

/// The path by which a unit is kept: a shortest one, in which each unit is the least, by its number among all, of those that can
/// stand before the next (libwild has none: it keeps no paths). None where the unit isn't reached. Takes the time of what the units
/// ask for that are no further than this one, where the members of a section group and the candidates of one output section in a file
/// count once, and so does what the location counter's expressions refer to, and n log n for sorting each level; a unit's file is found
/// by halving among files.
/// 16 bytes a symbol and 13 a section: 4 for its distance, 4 for its asker, 4 for its place among those that are found, and what tells
/// which lists were taken, 4 a symbol and 1 a section. Beside these 8 bytes a file and 4 an output section. All but the files is let go
/// before the path is made, from 4 bytes for each of its units.
pub fn explain(
    alloc: Global,
    link: &LinkInput,
    unit: Unit,
) -> Result<Option<Vec<Unit>>, ExplainError>
    requires { IsWellFormed link.now }
    ensures { MatchResult result
        (λ answer. (has_unit link.now unit ≡ true) × MatchOption answer (IsReached link.now unit → ⊥) (λ path. IsShortest link.now path.items unit))
        (λ e. IsRefused link.now unit e) }
{
    shown_path(alloc, link, &unit)
}

/// The shown path to a unit, if it is reached.
fn shown_path(
    alloc: Global,
    link: &LinkInput,
    unit: &Unit,
) -> Result<Option<Vec<Unit>>, ExplainError>
    requires { IsWellFormed link.now }
    ensures { MatchResult result
        (λ answer. (has_unit link.now unit.now ≡ true) × MatchOption answer (IsReached link.now unit.now → ⊥) (λ path. IsShortest link.now path.items unit.now))
        (λ e. IsRefused link.now unit.now e) }
{
    if !has_unit(link, *unit) {
        return Err(ExplainError::NoSuchUnit);
    }
    let number = number_of(link, *unit);
    let files = files_of(alloc, link)?;
    let search = Search::over(alloc, link, files.as_slice(), number)?;
    if search.distances[number] == 0 {
        return Ok(None);
    }
    let numbers = trail(alloc, link, &search, number)?;
    drop(search);
    let path = units_of(alloc, link, files.as_slice(), numbers.as_slice())?;
    Ok(Some(path))
}

/// The number of a unit among all of a link.
fn number_of(link: &LinkInput, unit: Unit) -> usize
    requires well_formed { IsWellFormed link.now }
    requires there { has_unit link.now unit ≡ true }
    ensures { result ≡ unit_number link.now.groups unit }
{
    match unit {
        Unit::Sym(symbol) => symbol.as_usize(),
        Unit::Sec(file, index) => section_number(link, file, index).unwrap_or(0),
    }
}

/// The numbers of the units of the path to one that is found, from its end back, each by the one after it.
fn trail(
    alloc: Global,
    link: &LinkInput,
    search: &Search,
    number: usize,
) -> Result<Vec<u32>, AllocError>
    requires well_formed { IsWellFormed link.now }
    requires over { IsOver (asking link.now) number search.now }
    requires found { 0 < far search.now number }
    ensures { IfOk result (λ numbers. IsTrail search.now number numbers.items 0) }
{
    let length = search.distances[number] as usize;
    let mut numbers = zeros(alloc, length)?;
    let mut place = length - 1;
    numbers[place] = number as u32;
    while place > 0 {
        let after = numbers[place] as usize;
        place -= 1;
        numbers[place] = search.askers[after];
    }
    Ok(numbers)
}

/// The units with these numbers.
fn units_of(
    alloc: Global,
    link: &LinkInput,
    files: &[FileId],
    numbers: &[u32],
) -> Result<Vec<Unit>, AllocError>
    requires well_formed { IsWellFormed link.now }
    requires files { files.now ≡ files_of link.now }
    requires there { All (λ n. n < length (all_units link.now.groups)) numbers.now }
    ensures { IfOk result (λ units. map Some units.items ≡ map (unit_at link.now.groups) numbers.now) }
{
    let mut units = Vec::with_capacity(alloc, numbers.len())?;
    for number in numbers {
        if let Some(unit) = unit_at(link, files, *number as usize) {
            units.push(unit)?;
        }
    }
    Ok(units)
}
