//! Whether a list of units is a path by which its last one is kept.

ghost use Rattle.std.specs.Prelude.{◌≡◌, ◌↔◌, ◌<◌, IsOk, None, Some};
ghost use Rattle.std.specs.List.{list_any};
ghost use Rattle.lk_link.specs.WellFormed.{IsWellFormed};
ghost use Rattle.lk_reach.specs.Units.{follows, roots};
ghost use Rattle.lk_explain.specs.Faults.{break_fault, fault_of, has_unit, is_for, path_fault};
ghost use Rattle.lk_explain.specs.KeepPath.{IsKeepPath};

use lk_link::LinkInput;
use lk_reach::{Ask, Unit, roots, successors};

/// Why a list of units is no path. A place counts from 0.
#[derive(Clone, Copy, Debug, PartialEq, Eq)]
pub enum PathFault {
    /// There is no unit in it.
    Empty,
    /// The link has no such unit: a symbol or a section that isn't there, or a symbol that doesn't stand for itself.
    NoSuchUnit { at: usize },
    /// No root asks for the first unit.
    NotRoot,
    /// The unit at this place isn't asked for by the one before it.
    NoAsk { at: usize },
}

/// Whether each unit of a list is asked for by the one before it, and the first by a root (libwild has none: it keeps no paths).
/// Answers the fault of the first unit that has one; of two, that there is no such unit. Takes no memory, and the time of what the
/// roots and the units of the list ask for.
pub fn check_path(link: &LinkInput, path: &[Unit]) -> Result<(), PathFault>
    requires { IsWellFormed link.now }
    ensures fault { fault_of result ≡ path_fault link.now path.now }
    ensures path { IsOk result ↔ IsKeepPath link.now path.now }
{
    match find_fault(link, path) {
        Some(fault) => Err(fault),
        None => Ok(()),
    }
}

/// The first fault of a list of units, if it has one.
fn find_fault(link: &LinkInput, path: &[Unit]) -> Option<PathFault>
    requires { IsWellFormed link.now }
    ensures { result ≡ path_fault link.now path.now }
{
    match path.split_first() {
        Some((first, _)) => {
            if !has_unit(link, *first) {
                return Some(PathFault::NoSuchUnit { at: 0 });
            }
            if !roots_ask_for(link, first) {
                return Some(PathFault::NotRoot);
            }
            find_break(link, path)
        }
        None => Some(PathFault::Empty),
    }
}

/// The first fault of the units behind the first one.
fn find_break(link: &LinkInput, path: &[Unit]) -> Option<PathFault>
    requires well_formed { IsWellFormed link.now }
    ensures { result ≡ break_fault link.now path.now }
{
    let (first, rest) = path.split_first()?;
    let length = path.len();
    let mut before = *first;
    let mut left = rest;
    let mut at = 1;
    while let Some((unit, rest)) = left.split_first() {
        if !has_unit(link, *unit) {
            return Some(PathFault::NoSuchUnit { at });
        }
        if !asks_for(link, before, unit) {
            return Some(PathFault::NoAsk { at });
        }
        before = *unit;
        left = rest;
        at += 1;
    }
    None
}

/// Whether a link has a unit: a symbol that is there and stands for itself, or a section that is there.
pub fn has_unit(link: &LinkInput, unit: Unit) -> bool
    ensures { result ≡ has_unit link.now unit }
{
    match unit {
        Unit::Sym(symbol) => match link.groups.symbol(symbol) {
            Some(found) => found.is_canonical(symbol),
            None => false,
        },
        Unit::Sec(file, index) => match link.groups.file(file) {
            Some(found) => found.sections.get(index as usize).is_some(),
            None => false,
        },
    }
}

/// Whether a root asks for a unit.
fn roots_ask_for(link: &LinkInput, unit: &Unit) -> bool
    requires { IsWellFormed link.now }
    ensures { result ≡ list_any (is_for unit.now) (roots link.now) }
{
    let mut asks = roots(link);
    while let Some(ask) = asks.next() {
        if is_for(unit, ask) {
            return true;
        }
    }
    false
}

/// Whether a unit asks for another.
fn asks_for(link: &LinkInput, asker: Unit, unit: &Unit) -> bool
    requires { IsWellFormed link.now }
    ensures { result ≡ list_any (is_for unit.now) (follows link.now asker) }
{
    let mut asks = successors(link, asker);
    while let Some(ask) = asks.next() {
        if is_for(unit, ask) {
            return true;
        }
    }
    false
}

/// Whether an ask reaches a unit.
fn is_for(unit: &Unit, ask: Ask) -> bool
    ensures { result ≡ is_for unit.now ask }
{
    match ask {
        Ask::Reference(symbol, _) => match *unit {
            Unit::Sym(own) => symbol.as_u32() == own.as_u32(),
            Unit::Sec(_, _) => false,
        },
        Ask::Section(file, index) => match *unit {
            Unit::Sym(_) => false,
            Unit::Sec(own, place) => {
                file.group == own.group && file.file == own.file && index == place
            }
        },
        Ask::Mark(_, _) => false,
    }
}
