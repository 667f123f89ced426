//! What the symbols of a range stand for.

ghost use Rattle.std.specs.Prelude.{◌≡◌, ◌==◌, drop, length, take};
ghost use Rattle.std.specs.Iterator.{YieldsFirst, item_count};
ghost use Rattle.lk_resolution_list.specs.Lists.{resolution_at};

use lk_link::Resolution;
use lk_link::ids::SymbolIdRange;
use lk_resolution_list::SymbolResolutions;
use std::marker::Model;

/// What the symbols of a range stand for, by number, as far as there are such symbols; none where a symbol has no resolution. It is lent
/// by the layout, and indexed and walked like a slice; a walk takes the first ones off. Contracts see the list of them.
#[derive(Drop)]
pub struct ResolutionsInRange<'a> {
    resolutions: &'a SymbolResolutions,
    /// The number of the first symbol that is left.
    start: usize,
    /// How many numbers are left.
    count: usize,
}

impl<'a> Model for ResolutionsInRange<'a> {
    ghost use Rattle.std.specs.Prelude.{◌+◌, ◌^◌, ◌≤◌, List, Option, drop, take};
    ghost use Rattle.lk_link.specs.declared.resolution.Resolution.{Resolution};

    ghost Value = { List (Option Resolution) };

    ghost view = { λ a. take a.count (drop a.start a.resolutions.now) };

    ghost invariant = { λ a. a.start + a.count ≤ 2 ^ 32 };
}

impl<'a> ResolutionsInRange<'a> {
    /// Those of the symbols of a range.
    pub(crate) fn new(
        resolutions: &'a SymbolResolutions,
        range: SymbolIdRange,
    ) -> ResolutionsInRange<'a>
        ensures { result ≡ take range.count (drop range.start resolutions.now) }
    {
        ResolutionsInRange {
            resolutions,
            start: range.start().as_usize(),
            count: range.len(),
        }
    }

    /// How many there are.
    pub fn len(&self) -> usize
        ensures { result ≡ length self.now }
    {
        let behind = self.resolutions.len().saturating_sub(self.start);
        behind.min(self.count)
    }

    /// Whether there are none.
    pub fn is_empty(&self) -> bool
        ensures { result ≡ (length self.now == 0) }
    {
        self.len() == 0
    }

    /// That at this place of the range, if the symbol there has one. Takes constant time.
    pub fn get(&self, place: usize) -> Option<Resolution>
        ensures { result ≡ resolution_at self.now place }
    {
        if place < self.count {
            self.resolutions.nth(self.start + place)
        } else {
            None
        }
    }
}

impl<'a> Iterator for ResolutionsInRange<'a> {
    type Item = Option<Resolution>;

    ghost next_gives = { YieldsFirst (λ left. left) };

    ghost remaining = { item_count (λ left. left) };

    fn next(&mut self) -> Option<Option<Resolution>> {
        if self.is_empty() {
            return None;
        }
        let first = self.resolutions.nth(self.start);
        self.start += 1;
        self.count -= 1;
        Some(first)
    }
}
