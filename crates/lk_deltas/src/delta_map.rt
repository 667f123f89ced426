//! What is deleted of the sections of one file.

ghost use Rattle.std.specs.Prelude.{◌≡◌, ◌==◌, ℕ, List, [], IfErr, IfOk, None, OnErr, OnOk, length};
ghost use Rattle.std.specs.Option.{option_copied};
ghost use Rattle.lk_deltas.specs.Candidates.{ranges_in};
ghost use Rattle.lk_deltas.specs.Deletions.{AreBoth};
ghost use Rattle.lk_deltas.specs.DeltaMaps.{deltas_at, with_entry, with_ranges};

use crate::deltas::SectionRelaxDeltas;
use crate::laws;
use std::alloc::{AllocError, AllocFailed, Global};
use std::collections::BTreeMap;
use std::marker::Model;

/// The deleted ranges of those sections of a file that have any, by rising indexes. Contracts see the list of indexes with their ranges
/// (libwild: `RelaxDeltaMap`).
#[derive(Drop)]
pub struct RelaxDeltaMap {
    entries: BTreeMap<u32, SectionRelaxDeltas>,
    alloc: Global,
}

impl Model for RelaxDeltaMap {
    ghost use Rattle.std.specs.Prelude.{ℕ, List};

    ghost Value = { List (ℕ × List (ℕ × ℕ)) };

    ghost view = { λ a. a.entries.entries };
}

impl RelaxDeltaMap {
    /// Nothing deleted; takes no memory.
    pub fn new(alloc: Global) -> RelaxDeltaMap
        ensures { result ≡ [] }
    {
        RelaxDeltaMap {
            entries: BTreeMap::new(alloc),
            alloc,
        }
    }

    /// Whether there is no entry.
    pub fn is_empty(&self) -> bool
        ensures { result ≡ (length self.now == 0) }
    {
        self.entries.len() == 0
    }

    /// What is deleted of the section with this index, if there is an entry for it. Takes logarithmic time.
    pub fn get(&self, section: u32) -> Option<&SectionRelaxDeltas>
        ensures { option_copied result ≡ deltas_at self.now section }
    {
        self.entries.get(&section)
    }

    /// Adds an entry for a section that has none. For want of memory all stays, and the entry is given back. Takes logarithmic time.
    pub fn insert_sorted(
        &mut self,
        section: u32,
        deltas: SectionRelaxDeltas,
    ) -> Result<(), (SectionRelaxDeltas, AllocError)>
        requires new { deltas_at self.old section ≡ None }
        ensures inserted { OnOk result (self.new ≡ with_entry section deltas self.old) }
        ensures unchanged { OnErr result (self.new ≡ self.old) }
        ensures given_back { IfErr result (λ e. e.0 ≡ deltas) }
    {
        match self.entries.insert(section, deltas) {
            Ok(_none) => Ok(()),
            Err(AllocFailed { value, .. }) => Err((value.1, AllocError)),
        }
    }

    /// Deletes more of the section with this index: ranges that with those of its entry, if it has one, can be put in rising order,
    /// apart. For want of memory all stays. Takes n log n in all ranges of the section, and logarithmic time in the entries.
    pub fn delete(&mut self, section: u32, more: &SectionRelaxDeltas) -> Result<(), AllocError>
        requires apart { (all : List (ℕ × ℕ)) × AreBoth (ranges_in (deltas_at self.old section)) more.now all }
        ensures deleted { (all : List (ℕ × ℕ)) → AreBoth (ranges_in (deltas_at self.old section)) more.now all
            → OnOk result (self.new ≡ with_ranges section all self.old) }
        ensures unchanged { OnErr result (self.new ≡ self.old) }
    {
        let both = with_more(self.alloc, self.entries.get(&section), more)?;
        match self.entries.insert(section, both) {
            Ok(_old) => Ok(()),
            Err(_) => Err(AllocError),
        }
    }
}

/// The ranges that are deleted of a section, and more.
fn with_more(
    alloc: Global,
    deltas: Option<&SectionRelaxDeltas>,
    more: &SectionRelaxDeltas,
) -> Result<SectionRelaxDeltas, AllocError>
    requires apart { (all : List (ℕ × ℕ)) × AreBoth (ranges_in (option_copied deltas)) more.now all }
    ensures { (all : List (ℕ × ℕ)) → AreBoth (ranges_in (option_copied deltas.entry)) more.now all → IfOk result (λ both. both ≡ all) }
{
    laws::both_are_one();
    more.are_deletions();
    match deltas {
        Some(deltas) => deltas.merged(alloc, more),
        None => more.copied(alloc),
    }
}
