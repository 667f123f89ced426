//! Where symbols stand in parts, before it is known where the parts stand.

ghost use Rattle.std.specs.Prelude.{◌≡◌};
ghost use Rattle.lk_expressions.specs.Surroundings.{flat};

use lk_link::ids::{PartId, SymbolId};
use lk_link::list::List;
use std::marker::Model;

/// A place in a part.
#[derive(Clone, Copy, Debug, PartialEq, Eq)]
pub struct SymbolPosition {
    pub part: PartId,
    /// Bytes from the part's start.
    pub offset: u64,
}

/// The place of each symbol that stands in a live input section, unless the section is debug data or sorted: its part, and how far
/// it is from the part's start; none for other symbols. Contracts see a list by symbol number.
#[derive(Drop)]
pub struct SymbolPositions {
    positions: List<Option<SymbolPosition>>,
}

impl Model for SymbolPositions {
    ghost use Rattle.std.specs.Prelude.{List, Option};
    ghost use Rattle.lk_expressions.specs.declared.positions.SymbolPosition.{SymbolPosition};

    ghost Value = { List (Option SymbolPosition) };

    ghost view = { λ a. a.positions };
}

impl SymbolPositions {
    ghost use Rattle.std.specs.Prelude.{slice_get};

    /// These places, by symbol number.
    pub fn new(positions: List<Option<SymbolPosition>>) -> SymbolPositions
        ensures { result ≡ positions }
    {
        SymbolPositions { positions }
    }

    /// The place of a symbol, if it has one. Takes constant time.
    pub fn get(&self, symbol: SymbolId) -> Option<SymbolPosition>
        ensures { result ≡ flat (slice_get self.now symbol) }
    {
        match self.positions.get(symbol.as_usize()) {
            Some(position) => *position,
            None => None,
        }
    }
}
