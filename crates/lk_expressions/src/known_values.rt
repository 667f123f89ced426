//! The values of symbols that expressions read when all is placed.

use crate::known::item;
use lk_link::ids::SymbolId;

/// Symbols that have values.
pub trait KnownValues {
    ghost use Rattle.std.specs.Prelude.{◌≡◌, ℕ, Option};

    /// The value of a symbol, if it has one so far.
    ghost value_of: { Self → ℕ → Option ℕ };

    /// The value of a symbol, if it has one so far.
    fn value(&self, symbol: SymbolId) -> Option<u64>
        ensures { result ≡ value_of self.now symbol };
}

/// Values that are given by symbol, none where there is none so far.
#[derive(Drop)]
pub struct GivenValues<'a> {
    /// The value of each symbol, by number, if it has one.
    pub values: &'a [Option<u64>],
}

impl KnownValues for GivenValues<'_> {
    ghost use Rattle.std.specs.Prelude.{slice_get};
    ghost use Rattle.lk_expressions.specs.Surroundings.{flat};

    ghost value_of = { λ given s. flat (slice_get given.values.now s) };

    fn value(&self, symbol: SymbolId) -> Option<u64> {
        item(self.values, symbol.as_usize())
    }
}
