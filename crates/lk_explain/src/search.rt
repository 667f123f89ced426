//! The search for the units that are reached, by levels: first those that roots ask for, then those that these ask for, and so on,
//! until the level of the unit that is looked for is done.
//!
//! A level is taken by rising numbers, so the first unit of it that asks for one that wasn't found is the least that does: that one
//! gets the next distance, and this asker. So what many units ask for whole is looked at for the first of them alone: all of it is
//! found then, none of it further and none by a greater asker.

ghost use Rattle.std.specs.Prelude.{◌≡◌, ◌+◌, ◌<◌, ◌≤◌, ◌^◌, [], ◌∷◌, All, IfOk, IsPermutation, OnOk, drop, length, map, replicate, Some, true, ℕ};
ghost use Rattle.std.specs.List.Sorted.{IsNonDecreasing};
ghost use Rattle.lk_link.specs.FileKinds.{is_script};
ghost use Rattle.lk_link.specs.Files.{file_in};
ghost use Rattle.lk_link.specs.Walks.{file_of};
ghost use Rattle.lk_link.specs.WellFormed.{IsWellFormed};
ghost use Rattle.lk_reach.specs.Marks.{IsInside, asking, unit_number};
ghost use Rattle.lk_reach.specs.Units.{asked_references, file_roots, follows, location_asks, roots};
ghost use Rattle.lk_reach.specs.Walking.{IsGroupPlace};
ghost use Rattle.lk_reach.specs.declared.units.Unit.TheVariants.{Sec, Sym};
ghost use Rattle.lk_explain.specs.Searching.{IsBelow, IsFresh, IsOver, IsSized, Meets, Takes, asks_of, far, with_asker};
ghost use Rattle.lk_explain.specs.Sharing.{AreFound, AreShared, files_of, references_in, sets_flags};
ghost use Rattle.lk_link.specs.declared.relocation.Relocation.{Relocation};

use crate::places::{group_place, unit_at};
use crate::references::{References, reference, references_of};
use crate::shared::Shared;
use lk_link::marks::is_marked;
use lk_link::{FileId, FileRef, LinkInput, SymbolId};
use lk_reach::{Ask, Successors, Unit, file_roots, section_number, successors};
use std::alloc::{AllocError, Global};

/// What is found so far: units by their numbers.
#[derive(Drop)]
pub(crate) struct Search {
    /// For each unit its distance, and 0 where it wasn't found.
    pub(crate) distances: Vec<u32>,
    /// For each unit that was found, and that no root asks for, the least unit that asks for it of those of one less distance.
    pub(crate) askers: Vec<u32>,
    /// The units that are found, level by level.
    found: Vec<u32>,
}

/// A level whose units are taken: those that were found from a place on.
#[derive(Clone, Copy)]
struct Level<'a> {
    link: &'a LinkInput,
    /// All files, by their number.
    files: &'a [FileId],
    /// The place of its first unit among those that are found.
    start: usize,
    /// The distance of what its units ask for, where that wasn't found.
    distance: u32,
}

/// A unit that asks, or roots.
#[derive(Clone, Copy)]
struct AskingUnit<'a> {
    link: &'a LinkInput,
    /// The unit's number, and 0 for roots.
    number: u32,
    /// The distance of what it asks for, where that wasn't found.
    distance: u32,
}

impl Search {
    /// What is found of a link when the level of a unit is done, or nothing is left to find.
    pub(crate) fn over(
        alloc: Global,
        link: &LinkInput,
        files: &[FileId],
        number: usize,
    ) -> Result<Search, AllocError>
        requires well_formed { IsWellFormed link.now }
        requires files { files.now ≡ files_of link.now }
        requires there { number < (asking link.now).count }
        ensures { IfOk result (IsOver (asking link.now) number) }
    {
        let mut search = Search::new(alloc, link)?;
        let mut shared = Shared::new(alloc, link)?;
        search.take_roots(link)?;
        let mut start = 0;
        let mut distance = 1;
        while start < search.found.len() && search.distances[number] == 0 {
            let end = search.found.len();
            distance += 1;
            search.sort_from(start);
            let level = Level {
                link,
                files,
                start,
                distance,
            };
            search.take_level(level, &mut shared)?;
            start = end;
        }
        Ok(search)
    }

    /// A search at its start: nothing is found.
    fn new(alloc: Global, link: &LinkInput) -> Result<Search, AllocError>
        requires { IsWellFormed link.now }
        ensures { IfOk result (IsFresh (asking link.now)) }
    {
        let count = link.groups.symbol_count() as usize + link.groups.input_count() as usize;
        Ok(Search {
            distances: zeros(alloc, count)?,
            askers: zeros(alloc, count)?,
            found: Vec::with_capacity(alloc, count)?,
        })
    }

    /// Puts the units that were found from a place on into rising order.
    fn sort_from(&mut self, start: usize)
        requires { start ≤ length self.old.found.items }
        ensures same { IsPermutation (drop start self.old.found.items) (drop start self.new.found.items) }
        ensures rises { IsNonDecreasing (drop start self.new.found.items) }
        ensures length { length self.new.found.items ≡ length self.old.found.items }
        ensures distances { self.new.distances.items ≡ self.old.distances.items }
        ensures askers { self.new.askers.items ≡ self.old.askers.items }
    {
        sort_behind(self.found.as_mut_slice(), start);
    }

    /// Takes what roots ask for: what each file asks for by itself.
    fn take_roots(&mut self, link: &LinkInput) -> Result<(), AllocError>
        requires well_formed { IsWellFormed link.now }
        requires sized { IsSized (asking link.now) self.old }
        requires below { IsBelow self.old 1 0 }
        ensures { OnOk result (Takes (asking link.now) 1 (with_asker 0 (roots link.now)) self.old self.new) }
    {
        let mut located = false;
        for file in link.groups.files() {
            self.take_file(link, file, &mut located)?;
        }
        Ok(())
    }

    /// Takes what a file asks for by itself. `located` is whether the location counter's expressions were taken, for which each
    /// script asks.
    fn take_file<'a>(
        &mut self,
        link: &'a LinkInput,
        file: FileRef<'a>,
        located: &mut bool,
    ) -> Result<(), AllocError>
        requires well_formed { IsWellFormed link.now }
        requires there { file_in link.now.groups file.id ≡ Some file.file.now }
        requires sized { IsSized (asking link.now) self.old }
        requires below { IsBelow self.old 1 0 }
        requires located { located.old ≡ true → AreFound link.now self.old (location_asks link.now) }
        ensures { OnOk result
            (Takes (asking link.now) 1 (with_asker 0 (file_roots link.now (file_of file.entry))) self.old self.new
            × (located.new ≡ true → AreFound link.now self.new (location_asks link.now))) }
    {
        let root = AskingUnit {
            link,
            number: 0,
            distance: 1,
        };
        if !file.file.kind.is_script() {
            self.take_all(root, file_roots(link, file))?;
            return Ok(());
        }
        if *located {
            self.take_wanted(link, file)?;
            return Ok(());
        }
        self.take_all(root, file_roots(link, file))?;
        *located = true;
        Ok(())
    }

    /// Takes what a script asks for where the location counter's expressions were taken: its symbols, of which it sets no flags. What
    /// those expressions refer to comes behind them, and has a flag set.
    fn take_wanted<'a>(&mut self, link: &'a LinkInput, file: FileRef<'a>) -> Result<(), AllocError>
        requires well_formed { IsWellFormed link.now }
        requires there { file_in link.now.groups file.id ≡ Some file.file.now }
        requires script { is_script file.file.now.kind ≡ true }
        requires sized { IsSized (asking link.now) self.old }
        requires below { IsBelow self.old 1 0 }
        requires located { AreFound link.now self.old (location_asks link.now) }
        ensures { OnOk result (Takes (asking link.now) 1 (with_asker 0 (file_roots link.now (file_of file.entry))) self.old self.new) }
    {
        let root = AskingUnit {
            link,
            number: 0,
            distance: 1,
        };
        for ask in file_roots(link, file) {
            if sets_flags(&ask) {
                return Ok(());
            }
            self.take(root, ask)?;
        }
        Ok(())
    }

    /// Takes what the units of a level ask for: those that were found from a place on, which stand in rising order.
    fn take_level(&mut self, level: Level<'_>, shared: &mut Shared) -> Result<(), AllocError>
        requires well_formed { IsWellFormed level.link.now }
        requires files { level.files.now ≡ files_of level.link.now }
        requires sized { IsSized (asking level.link.now) self.old }
        requires distance { 0 < level.distance }
        requires start { level.start ≤ length self.old.found.items }
        requires found { All (λ u. 0 < far self.old u) (drop level.start self.old.found.items) }
        requires rises { IsNonDecreasing (drop level.start self.old.found.items) }
        requires fresh { (u : ℕ) → far self.old u ≡ level.distance → ⊥ }
        requires shared { AreShared level.link.now shared.old self.old }
        ensures { OnOk result
            (Takes (asking level.entry.link.now) level.entry.distance (asks_of (asking level.entry.link.now) (drop level.entry.start self.old.found.items)) self.old self.new
            × AreShared level.entry.link.now shared.new self.new) }
    {
        let end = self.found.len();
        for place in level.start..end {
            let number = self.found[place];
            if let Some(unit) = unit_at(level.link, level.files, number as usize) {
                let asker = AskingUnit {
                    link: level.link,
                    number,
                    distance: level.distance,
                };
                self.take_unit(asker, unit, shared)?;
            }
        }
        Ok(())
    }

    /// Takes what a unit asks for that is found itself. `shared` has what was taken of that for which others ask as well.
    fn take_unit(
        &mut self,
        asker: AskingUnit<'_>,
        unit: Unit,
        shared: &mut Shared,
    ) -> Result<(), AllocError>
        requires well_formed { IsWellFormed asker.link.now }
        requires sized { IsSized (asking asker.link.now) self.old }
        requires distance { 0 < asker.distance }
        requires number { asker.number ≡ unit_number asker.link.now.groups unit }
        requires found { 0 < far self.old asker.number }
        requires below { IsBelow self.old asker.distance asker.number }
        requires shared { AreShared asker.link.now shared.old self.old }
        ensures { OnOk result
            (Takes (asking asker.entry.link.now) asker.entry.distance (with_asker asker.entry.number (follows asker.entry.link.now unit)) self.old self.new
            × AreShared asker.entry.link.now shared.new self.new) }
    {
        match unit {
            Unit::Sym(symbol) => {
                self.take_symbol(asker, symbol, shared)?;
                Ok(())
            }
            Unit::Sec(file, index) => {
                self.take_section(asker, file, index, shared)?;
                Ok(())
            }
        }
    }

    /// Takes what a symbol asks for, unless that was taken.
    fn take_symbol(
        &mut self,
        asker: AskingUnit<'_>,
        symbol: SymbolId,
        shared: &mut Shared,
    ) -> Result<(), AllocError>
        requires well_formed { IsWellFormed asker.link.now }
        requires sized { IsSized (asking asker.link.now) self.old }
        requires distance { 0 < asker.distance }
        requires below { IsBelow self.old asker.distance asker.number }
        requires shared { AreShared asker.link.now shared.old self.old }
        ensures { OnOk result
            (Takes (asking asker.entry.link.now) asker.entry.distance (with_asker asker.entry.number (follows asker.entry.link.now (Sym symbol))) self.old self.new
            × AreShared asker.entry.link.now shared.new self.new) }
    {
        if shared.is_taken(asker.link, symbol) {
            return Ok(());
        }
        self.take_all(asker, successors(asker.link, Unit::Sym(symbol)))?;
        shared.take(asker.link, symbol);
        Ok(())
    }

    /// Takes what a section asks for that is found itself.
    fn take_section(
        &mut self,
        asker: AskingUnit<'_>,
        file: FileId,
        index: u32,
        shared: &mut Shared,
    ) -> Result<(), AllocError>
        requires well_formed { IsWellFormed asker.link.now }
        requires sized { IsSized (asking asker.link.now) self.old }
        requires distance { 0 < asker.distance }
        requires number { asker.number ≡ unit_number asker.link.now.groups (Sec file index) }
        requires found { 0 < far self.old asker.number }
        requires below { IsBelow self.old asker.distance asker.number }
        requires shared { AreShared asker.link.now shared.old self.old }
        ensures { OnOk result
            (Takes (asking asker.entry.link.now) asker.entry.distance (with_asker asker.entry.number (follows asker.entry.link.now (Sec file index))) self.old self.new
            × AreShared asker.entry.link.now shared.new self.new) }
    {
        match group_place(asker.link, file, index) {
            Some(place) => self.take_member(asker, (file, index), place, shared),
            None => {
                self.take_all(asker, successors(asker.link, Unit::Sec(file, index)))?;
                Ok(())
            }
        }
    }

    /// Takes what a section of a group asks for, of the group nothing if its members were taken. `place` is where the mark of the
    /// group stands.
    fn take_member(
        &mut self,
        asker: AskingUnit<'_>,
        section: (FileId, u32),
        place: usize,
        shared: &mut Shared,
    ) -> Result<(), AllocError>
        requires well_formed { IsWellFormed asker.link.now }
        requires sized { IsSized (asking asker.link.now) self.old }
        requires distance { 0 < asker.distance }
        requires number { asker.number ≡ unit_number asker.link.now.groups (Sec section.0 section.1) }
        requires found { 0 < far self.old asker.number }
        requires below { IsBelow self.old asker.distance asker.number }
        requires shared { AreShared asker.link.now shared.old self.old }
        requires place { IsGroupPlace asker.link.now section.0 section.1 place }
        ensures { OnOk result
            (Takes (asking asker.entry.link.now) asker.entry.distance (with_asker asker.entry.number (follows asker.entry.link.now (Sec section.0 section.1))) self.old self.new
            × AreShared asker.entry.link.now shared.new self.new) }
    {
        if is_marked(shared.groups.as_slice(), place) {
            return self.take_references(asker, section.0, section.1);
        }
        self.take_all(
            asker,
            successors(asker.link, Unit::Sec(section.0, section.1)),
        )?;
        shared.groups[place] = true;
        Ok(())
    }

    /// Takes what a section asks for by its relocations.
    fn take_references(
        &mut self,
        asker: AskingUnit<'_>,
        id: FileId,
        index: u32,
    ) -> Result<(), AllocError>
        requires well_formed { IsWellFormed asker.link.now }
        requires sized { IsSized (asking asker.link.now) self.old }
        requires distance { 0 < asker.distance }
        requires below { IsBelow self.old asker.distance asker.number }
        ensures { OnOk result (Takes (asking asker.entry.link.now) asker.entry.distance (with_asker asker.entry.number (asked_references asker.entry.link.now id index)) self.old self.new) }
    {
        match references_of(asker.link, id, index) {
            Some(references) => self.take_relocations(asker, references),
            None => Ok(()),
        }
    }

    /// Takes what relocations refer to.
    fn take_relocations(
        &mut self,
        asker: AskingUnit<'_>,
        references: References<'_>,
    ) -> Result<(), AllocError>
        requires well_formed { IsWellFormed asker.link.now }
        requires numbers { All (λ (r : Relocation). references.first + r.symbol < 2 ^ 32) references.relocations.now }
        requires inside { All (IsInside asker.link.now.groups) (references_in references) }
        requires sized { IsSized (asking asker.link.now) self.old }
        requires distance { 0 < asker.distance }
        requires below { IsBelow self.old asker.distance asker.number }
        ensures { OnOk result (Takes (asking asker.entry.link.now) asker.entry.distance (with_asker asker.entry.number (references_in references.entry)) self.old self.new) }
    {
        for relocation in references.relocations {
            if let Some(ask) = reference(references.first, references.symbols, *relocation) {
                self.take(asker, ask)?;
            }
        }
        Ok(())
    }

    /// Takes what a unit asks for.
    fn take_all(&mut self, asker: AskingUnit<'_>, asks: Successors<'_>) -> Result<(), AllocError>
        requires well_formed { IsWellFormed asker.link.now }
        requires inside { All (IsInside asker.link.now.groups) asks }
        requires sized { IsSized (asking asker.link.now) self.old }
        requires distance { 0 < asker.distance }
        requires below { IsBelow self.old asker.distance asker.number }
        ensures { OnOk result (Takes (asking asker.entry.link.now) asker.entry.distance (with_asker asker.entry.number asks.entry) self.old self.new) }
    {
        for ask in asks {
            self.take(asker, ask)?;
        }
        Ok(())
    }

    /// Takes an ask of a unit; no asker so far is greater.
    fn take(&mut self, asker: AskingUnit<'_>, ask: Ask) -> Result<(), AllocError>
        requires well_formed { IsWellFormed asker.link.now }
        requires inside { IsInside asker.link.now.groups ask }
        requires sized { IsSized (asking asker.link.now) self.old }
        requires distance { 0 < asker.distance }
        requires below { IsBelow self.old asker.distance asker.number }
        ensures { OnOk result (Takes (asking asker.entry.link.now) asker.entry.distance (with_asker asker.entry.number (ask ∷ [])) self.old self.new) }
    {
        match ask {
            Ask::Reference(symbol, _) => self.meet(symbol.as_usize(), asker.number, asker.distance),
            Ask::Section(file, index) => match section_number(asker.link, file, index) {
                Some(number) => self.meet(number, asker.number, asker.distance),
                None => Ok(()),
            },
            Ask::Mark(_, _) => Ok(()),
        }
    }

    /// Meets a unit that is asked for by another, or by a root: it is new, or stays as it is.
    fn meet(&mut self, number: usize, asker: u32, distance: u32) -> Result<(), AllocError>
        requires there { number < length self.old.distances.items }
        requires asked { number < length self.old.askers.items }
        requires few { number < 2 ^ 32 }
        ensures { OnOk result (Meets number asker distance self.old self.new) }
    {
        if self.distances[number] == 0 {
            self.distances[number] = distance;
            self.askers[number] = asker;
            self.found.push(number as u32)?;
        }
        Ok(())
    }
}

/// Whether an ask refers to a symbol and sets flags of it.
fn sets_flags(ask: &Ask) -> bool
    ensures { result ≡ sets_flags ask.now }
{
    match *ask {
        Ask::Reference(_, flags) => flags.0 != 0,
        Ask::Section(_, _) => false,
        Ask::Mark(_, _) => false,
    }
}

/// Puts numbers from a place on into rising order.
fn sort_behind(numbers: &mut [u32], start: usize)
    requires { start ≤ length numbers.old }
    ensures same { IsPermutation (drop start numbers.old) (drop start numbers.new) }
    ensures rises { IsNonDecreasing (drop start numbers.new) }
    ensures length { length numbers.new ≡ length numbers.old }
{
    numbers[start..].sort_unstable();
}

/// So many zeros.
pub(crate) fn zeros(alloc: Global, count: usize) -> Result<Vec<u32>, AllocError>
    ensures { IfOk result (λ xs. xs.items ≡ replicate count 0) }
{
    vec![in alloc; 0; count]
}
