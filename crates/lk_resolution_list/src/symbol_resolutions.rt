//! What symbols stand for, by number.

ghost use Rattle.std.specs.Prelude.{◌≡◌, ◌++◌, ◌∷◌, [], IfOk, OnOk, length};
ghost use Rattle.lk_resolution_list.specs.Lists.{resolution_at};
ghost use Rattle.lk_resolution_list.specs.Stores.{with_raw_value};

use crate::kept::{Kept, keep};
use lk_link::{Resolution, SymbolId};
use lk_own_symbols::{KnownValues, SymbolValues};
use std::alloc::{AllocError, Global};
use std::marker::Model;

/// Of each symbol, by number, what it stands for in the output; none where it has no resolution (libwild: `SymbolResolutions`).
/// Takes 16 bytes a symbol, and 56 more for each that has an entry in `got` or `plt`. Contracts see a list of options.
#[derive(Drop)]
pub struct SymbolResolutions {
    /// By symbol number.
    kept: Vec<Kept>,
    /// Those that are kept whole, in the order of their symbols.
    wholes: Vec<Resolution>,
}

impl Model for SymbolResolutions {
    ghost use Rattle.std.specs.Prelude.{All, List, Option, map};
    ghost use Rattle.lk_link.specs.declared.resolution.Resolution.{Resolution};
    ghost use Rattle.lk_resolution_list.specs.Kept.{IsWithin, told_of};

    ghost Value = { List (Option Resolution) };

    ghost view = { λ a. map (told_of a.wholes.items) a.kept.items };

    ghost invariant = { λ a. All (IsWithin a.wholes.items) a.kept.items };
}

impl SymbolResolutions {
    /// None, with room for those of so many symbols.
    pub fn with_capacity(alloc: Global, count: usize) -> Result<SymbolResolutions, AllocError>
        ensures { IfOk result (λ made. made ≡ []) }
    {
        let kept = Vec::with_capacity(alloc, count)?;
        let wholes = Vec::new(alloc);
        Ok(SymbolResolutions { kept, wholes })
    }

    /// Adds that of the next symbol, if it has one.
    pub fn push(&mut self, resolution: Option<Resolution>) -> Result<(), AllocError>
        ensures { OnOk result (self.new ≡ self.old ++ resolution ∷ []) }
    {
        let kept = keep(&mut self.wholes, resolution)?;
        self.kept.push(kept)?;
        Ok(())
    }

    /// Adds those of the symbols behind these, in order. Takes constant time for each.
    pub fn append(&mut self, others: &SymbolResolutions) -> Result<(), AllocError>
        ensures { OnOk result (self.new ≡ self.old ++ others.now) }
    {
        for number in 0..others.len() {
            self.push(others.nth(number))?;
        }
        Ok(())
    }

    /// How many symbols there are.
    pub fn len(&self) -> usize
        ensures { result ≡ length self.now }
    {
        self.kept.len()
    }

    /// The resolution of a symbol, if it has one. Takes constant time.
    pub fn get(&self, symbol: SymbolId) -> Option<Resolution>
        ensures { result ≡ resolution_at self.now symbol }
    {
        self.nth(symbol.as_usize())
    }

    /// That of the symbol with this number, if it has one.
    pub fn nth(&self, number: usize) -> Option<Resolution>
        ensures { result ≡ resolution_at self.now number }
    {
        let kept = self.kept.as_slice().get(number).copied()?;
        kept.told(self.wholes.as_slice())
    }

    /// Sets the value of a symbol, if it has a resolution. Takes constant time.
    pub fn set_raw_value(&mut self, symbol: SymbolId, value: u64)
        ensures { self.new ≡ with_raw_value self.old symbol value }
    {
        let number = symbol.as_usize();
        if number < self.kept.len() {
            self.kept[number].raw_value = value;
        }
    }
}

impl KnownValues for SymbolResolutions {
    ghost use Rattle.lk_resolution_list.specs.Stores.{raw_value_of};

    ghost value_of = { raw_value_of };

    fn value(&self, symbol: SymbolId) -> Option<u64> {
        Some(self.get(symbol)?.raw_value)
    }
}

impl SymbolValues for SymbolResolutions {
    ghost use Rattle.lk_own_symbols.specs.Stores.{kept_alone};
    ghost use Rattle.std.proofs.Common.{refl};
    ghost use Rattle.lk_resolution_list.specs.Stores.{valued, with_raw_value};

    ghost with_value = { with_raw_value };

    fn set_value(&mut self, symbol: SymbolId, value: u64) {
        self.set_raw_value(symbol, value);
    }

    ghost sets_alone = { kept_alone (λ r. r.raw_value) (λ r n. valued n r) (λ r n. refl) };
}
