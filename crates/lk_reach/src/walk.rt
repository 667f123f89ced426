//! The walk over all that is reached, on one thread.
//!
//! Units go by their numbers: a mark for each unit that was asked for, a word of flags for each symbol, and a stack of the units
//! whose own asks are still to come. A unit is marked when it is first asked for, and goes onto the stack then, so each is looked
//! at once. The walk begins with what files ask for by themselves, and ends when the stack is empty: then all that a marked unit
//! asks for is marked and joined, and nothing else ever was. What many ask for whole is taken once: the members of a section
//! group, with the first of them that comes off the stack; the candidates of an output section in a file, with the first symbol
//! at its start or end; and what the location counter's expressions refer to, with the first script.

ghost use Rattle.std.specs.Prelude.{◌≡◌, [], ◌++◌, ◌<◌, ◌^◌, All, IsSome, OnOk, IfOk, Some, SomeIff, false, length, map, replicate, slice_set, true};
ghost use Rattle.lk_link.specs.Files.{file_in};
ghost use Rattle.lk_link.specs.Walks.{file_of};
ghost use Rattle.lk_link.specs.WellFormed.{IsWellFormed};
ghost use Rattle.std.specs.Option.{ForSome};
ghost use Rattle.lk_reach.specs.Marks.{IsInside, IsMarked, flags_handed_in, handed_in, join_flags, mark_target, unit_at, unit_number, word_of};
ghost use Rattle.lk_reach.specs.declared.units.Unit.TheVariants.{Sec, Sym};
ghost use Rattle.lk_reach.specs.Units.{file_roots, follows, location_asks, roots};
ghost use Rattle.lk_reach.specs.Walking.{Adds, AreAsked, AreTaken, IsDone, IsGroupPlace, IsSized, IsStart, IsWalking, Takes, files_of_inputs, stack_after};
ghost use Rattle.lk_reach.specs.Marks.{AreFew, IsWalked};

use crate::asks::Successors;
use crate::edges::Edges;
use crate::reaching::{file_roots, script_roots, section_references, successors};
use crate::units::{Ask, Unit};
use lk_link::file::group_members_rise;
use lk_link::marks::is_marked;
use lk_link::{FileId, FileRef, InputSymbol, LinkInput, SymbolId, ValueFlags};
use std::alloc::{AllocError, Global};

/// What is reached so far.
#[derive(Drop)]
pub struct Walk {
    /// For each unit whether it was asked for.
    pub marks: Vec<bool>,
    /// Behind a spare word the flags of each symbol.
    pub words: Vec<u64>,
    /// The units that were asked for and whose own asks are still to come.
    stack: Vec<u32>,
}

impl Walk {
    /// What is reached of a link: the marks of its units, and the words of its symbols' flags (libwild:
    /// `traverse_reference_graph`).
    pub fn over(alloc: Global, link: &LinkInput) -> Result<Walk, AllocError>
        requires { IsWellFormed link.now }
        ensures { IfOk result (IsWalked link.now) }
    {
        let files = files_of_inputs(alloc, link)?;
        let mut walk = Walk::new(alloc, link)?;
        walk.take_roots(link)?;
        let mut taken = unmarked(alloc, link.groups.input_count() as usize)?;
        let mut edges = Edges::new(alloc, link)?;
        walk.take_stack(link, files.as_slice(), &mut taken, &mut edges)?;
        Ok(walk)
    }

    /// A walk that is at its end, of its marks and words; takes no memory.
    pub fn of_parts(alloc: Global, marks: Vec<bool>, words: Vec<u64>) -> Walk
        ensures marks { result.marks ≡ marks }
        ensures words { result.words ≡ words }
    {
        Walk {
            marks,
            words,
            stack: Vec::new(alloc),
        }
    }

    /// A walk at its start: nothing is asked for, and symbols have the flags that are handed in.
    fn new(alloc: Global, link: &LinkInput) -> Result<Walk, AllocError>
        requires { IsWellFormed link.now }
        ensures { IfOk result (IsStart link.now) }
    {
        let symbols = link.groups.symbol_count() as usize;
        let inputs = link.groups.input_count() as usize;
        Ok(Walk {
            marks: unmarked(alloc, symbols + inputs)?,
            words: handed_in(alloc, link)?,
            stack: Vec::with_capacity(alloc, symbols + inputs)?,
        })
    }

    /// Takes an ask: marks what it reaches, and joins its flags.
    fn take(&mut self, link: &LinkInput, ask: Ask) -> Result<(), AllocError>
        requires well_formed { IsWellFormed link.now }
        requires inside { IsInside link.now.groups ask }
        requires sized { IsSized link.now self.old }
        ensures { OnOk result (Takes link.now ask self.old self.new) }
    {
        match ask {
            Ask::Reference(symbol, flags) => {
                self.join(symbol, flags);
                self.mark(symbol.as_usize())
            }
            Ask::Section(file, index) => match section_number(link, file, index) {
                Some(number) => self.mark(number),
                None => Ok(()),
            },
            Ask::Mark(symbol, flags) => {
                self.join(symbol, flags);
                Ok(())
            }
        }
    }

    /// Takes asks, one after the other.
    fn take_all(&mut self, link: &LinkInput, asks: Successors<'_>) -> Result<(), AllocError>
        requires well_formed { IsWellFormed link.now }
        requires inside { All (IsInside link.now.groups) asks }
        requires sized { IsSized link.now self.old }
        ensures { OnOk result (Adds link.now asks.entry self.old self.new) }
    {
        for ask in asks {
            self.take(link, ask)?;
        }
        Ok(())
    }

    /// Takes what all files ask for by themselves.
    fn take_roots(&mut self, link: &LinkInput) -> Result<(), AllocError>
        requires well_formed { IsWellFormed link.now }
        requires sized { IsSized link.now self.old }
        ensures { OnOk result (Adds link.now (roots link.now) self.old self.new) }
    {
        let mut located = false;
        for file in link.groups.files() {
            self.take_file(link, file, &mut located)?;
        }
        Ok(())
    }

    /// Takes what a file asks for by itself. `located` is whether the location counter's expressions were taken, for which each
    /// script asks.
    fn take_file(
        &mut self,
        link: &LinkInput,
        file: FileRef<'_>,
        located: &mut bool,
    ) -> Result<(), AllocError>
        requires well_formed { IsWellFormed link.now }
        requires there { file_in link.now.groups file.id ≡ Some file.file.now }
        requires sized { IsSized link.now self.old }
        requires located { located.old ≡ true → All (IsDone link.now self.old) (location_asks link.now) }
        ensures { OnOk result
            (Adds link.now (file_roots link.now (file_of file.entry)) self.old self.new
            × (located.new ≡ true → All (IsDone link.now self.new) (location_asks link.now))) }
    {
        if !file.file.kind.is_script() {
            self.take_all(link, file_roots(link, file))?;
            return Ok(());
        }
        if *located {
            self.take_all(link, script_roots(link, file, &[]))?;
            return Ok(());
        }
        self.take_all(link, file_roots(link, file))?;
        *located = true;
        Ok(())
    }

    /// Takes what the units on the stack ask for, until none is left. `files` has the file of each input section, and `taken`
    /// a mark for each section group whose members were taken.
    fn take_stack(
        &mut self,
        link: &LinkInput,
        files: &[FileId],
        taken: &mut Vec<bool>,
        edges: &mut Edges,
    ) -> Result<(), AllocError>
        requires well_formed { IsWellFormed link.now }
        requires files { files.now ≡ files_of_inputs link.now }
        requires walking { IsWalking link.now self.old }
        requires taken { AreTaken link.now taken.old.items self.old.marks.items }
        requires edges { AreAsked link.now edges.old.taken.items self.old }
        ensures { OnOk result (IsWalking link.now self.new × (self.new.stack.items ≡ [])) }
    {
        while let Some(number) = self.stack.pop() {
            if let Some(unit) = unit_at(link, files, number as usize) {
                self.take_unit(link, unit, taken, edges)?;
            }
        }
        Ok(())
    }

    /// Takes what a unit asks for that was asked for itself.
    fn take_unit(
        &mut self,
        link: &LinkInput,
        unit: Unit,
        taken: &mut Vec<bool>,
        edges: &mut Edges,
    ) -> Result<(), AllocError>
        requires well_formed { IsWellFormed link.now }
        requires sized { IsSized link.now self.old }
        requires marked { IsMarked self.old.marks.items (unit_number link.now.groups unit) }
        requires taken { AreTaken link.now taken.old.items self.old.marks.items }
        requires edges { AreAsked link.now edges.old.taken.items self.old }
        ensures { OnOk result
            (Adds link.now (follows link.now unit) self.old self.new × AreTaken link.now taken.new.items self.new.marks.items
            × AreAsked link.now edges.new.taken.items self.new) }
    {
        match unit {
            Unit::Sym(symbol) => {
                self.take_symbol(link, symbol, edges)?;
                Ok(())
            }
            Unit::Sec(file, index) => {
                self.take_section(link, file, index, taken)?;
                Ok(())
            }
        }
    }

    /// Takes what a symbol asks for that was asked for itself.
    fn take_symbol(
        &mut self,
        link: &LinkInput,
        symbol: SymbolId,
        edges: &mut Edges,
    ) -> Result<(), AllocError>
        requires well_formed { IsWellFormed link.now }
        requires sized { IsSized link.now self.old }
        requires edges { AreAsked link.now edges.old.taken.items self.old }
        ensures { OnOk result (Adds link.now (follows link.now (Sym symbol)) self.old self.new × AreAsked link.now edges.new.taken.items self.new) }
    {
        match edges.leader(link, symbol) {
            Some(leader) => self.take_edge(link, symbol, leader, edges),
            None => {
                self.take_all(link, successors(link, Unit::Sym(symbol)))?;
                Ok(())
            }
        }
    }

    /// Takes what a symbol asks for, unless that was taken for this one, which asks for the same.
    fn take_edge(
        &mut self,
        link: &LinkInput,
        symbol: SymbolId,
        leader: SymbolId,
        edges: &mut Edges,
    ) -> Result<(), AllocError>
        requires well_formed { IsWellFormed link.now }
        requires sized { IsSized link.now self.old }
        requires edges { AreAsked link.now edges.old.taken.items self.old }
        requires same { follows link.now (Sym leader) ≡ follows link.now (Sym symbol) }
        ensures { OnOk result (Adds link.now (follows link.now (Sym symbol)) self.old self.new × AreAsked link.now edges.new.taken.items self.new) }
    {
        if is_marked(edges.taken.as_slice(), leader.as_usize()) {
            return Ok(());
        }
        self.take_all(link, successors(link, Unit::Sym(symbol)))?;
        edges.set(leader);
        Ok(())
    }

    /// Takes what a section asks for that was asked for itself.
    fn take_section(
        &mut self,
        link: &LinkInput,
        file: FileId,
        index: u32,
        taken: &mut Vec<bool>,
    ) -> Result<(), AllocError>
        requires well_formed { IsWellFormed link.now }
        requires sized { IsSized link.now self.old }
        requires marked { IsMarked self.old.marks.items (unit_number link.now.groups (Sec file index)) }
        requires taken { AreTaken link.now taken.old.items self.old.marks.items }
        ensures { OnOk result
            (Adds link.now (follows link.now (Sec file index)) self.old self.new × AreTaken link.now taken.new.items self.new.marks.items) }
    {
        match group_place(link, file, index) {
            Some(place) => self.take_member(link, file, index, place, taken),
            None => {
                self.take_all(link, successors(link, Unit::Sec(file, index)))?;
                Ok(())
            }
        }
    }

    /// Takes what a section of a group asks for. `place` is where the mark of its group stands.
    fn take_member(
        &mut self,
        link: &LinkInput,
        file: FileId,
        index: u32,
        place: usize,
        taken: &mut Vec<bool>,
    ) -> Result<(), AllocError>
        requires well_formed { IsWellFormed link.now }
        requires sized { IsSized link.now self.old }
        requires marked { IsMarked self.old.marks.items (unit_number link.now.groups (Sec file index)) }
        requires taken { AreTaken link.now taken.old.items self.old.marks.items }
        requires place { IsGroupPlace link.now file index place }
        ensures { OnOk result
            (Adds link.now (follows link.now (Sec file index)) self.old self.new × AreTaken link.now taken.new.items self.new.marks.items) }
    {
        if is_marked(taken.as_slice(), place) {
            self.take_all(link, section_references(link, file, index))?;
            return Ok(());
        }
        self.take_all(link, successors(link, Unit::Sec(file, index)))?;
        set_mark(taken, place);
        Ok(())
    }

    /// Marks a unit, which goes onto the stack unless it was marked before.
    fn mark(&mut self, number: usize) -> Result<(), AllocError>
        requires there { number < length self.old.marks.items }
        requires few { number < 2 ^ 32 }
        ensures marks { OnOk result (self.new.marks.items ≡ mark_target self.old.marks.items (Some number)) }
        ensures words { self.new.words.items ≡ self.old.words.items }
        ensures stack { OnOk result (self.new.stack.items ≡ stack_after self.old.marks.items self.old.stack.items (Some number)) }
    {
        if !self.marks[number] {
            self.marks[number] = true;
            self.stack.push(number as u32)?;
        }
        Ok(())
    }

    /// Joins flags into the word of a symbol.
    fn join(&mut self, symbol: SymbolId, flags: ValueFlags)
        requires { word_of symbol < length self.old.words.items }
        ensures marks { self.new.marks.items ≡ self.old.marks.items }
        ensures words { self.new.words.items ≡ join_flags self.old.words.items (Some (symbol, flags.0)) }
        ensures stack { self.new.stack.items ≡ self.old.stack.items }
        ensures few { AreFew self.old.words.items → AreFew self.new.words.items }
    {
        self.words[symbol.as_usize() + 1] |= u64::from(flags.0);
    }
}

/// The number of an input section among all units, if its file is there.
pub fn section_number(link: &LinkInput, file: FileId, index: u32) -> Option<usize>
    requires { IsWellFormed link.now }
    ensures { SomeIff result (IsSome (file_in link.now.groups file)) (unit_number link.now.groups (Sec file index)) }
{
    let start = link.groups.input_start(file)?;
    Some(link.groups.symbol_count() as usize + start + index as usize)
}

/// Where the mark of a section's group stands, if the section is kept and in a group: at the group's first member, by its number
/// among all input sections.
fn group_place(link: &LinkInput, file: FileId, index: u32) -> Option<usize>
    requires { IsWellFormed link.now }
    ensures { ForSome result (IsGroupPlace link.now file index) }
{
    let sections = &link.groups.file(file)?.sections;
    let section = sections.get(index as usize)?;
    if !section.slot.can_be_kept() {
        return None;
    }
    group_members_rise();
    let group = section.group?;
    let first = *sections.members(group).first()?;
    Some(link.groups.input_start(file)? + first)
}

/// The unit with a number among all of a link, symbols first, if there is one. `files` has the file of each input section, as
/// `files_of_inputs` tells them. Takes constant time.
pub fn unit_at(link: &LinkInput, files: &[FileId], number: usize) -> Option<Unit>
    requires well_formed { IsWellFormed link.now }
    requires files { files.now ≡ files_of_inputs link.now }
    ensures { result ≡ unit_at link.now.groups number }
{
    let symbols = link.groups.symbol_count() as usize;
    if number < symbols {
        return Some(Unit::Sym(SymbolId::from_u32(number as u32)));
    }
    let place = number - symbols;
    let file = *files.get(place)?;
    let start = link.groups.input_start(file)?;
    Some(Unit::Sec(file, (place - start) as u32))
}

/// Sets a mark.
pub(crate) fn set_mark(marks: &mut Vec<bool>, place: usize)
    requires { place < length marks.old.items }
    ensures { marks.new.items ≡ slice_set marks.old.items place true }
{
    marks[place] = true;
}

/// So many marks, none of them set.
pub fn unmarked(alloc: Global, count: usize) -> Result<Vec<bool>, AllocError>
    ensures { IfOk result (λ marks. marks.items ≡ replicate count false) }
{
    vec![in alloc; false; count]
}

/// The file of each input section, by its number.
pub fn files_of_inputs(alloc: Global, link: &LinkInput) -> Result<Vec<FileId>, AllocError>
    requires { IsWellFormed link.now }
    ensures { IfOk result (λ files. files.items ≡ files_of_inputs link.now) }
{
    let mut files = Vec::with_capacity(alloc, link.groups.input_count() as usize)?;
    for input in link.groups.inputs() {
        files.push(input.file)?;
    }
    Ok(files)
}

/// The flags that are handed in, behind a spare word.
pub fn handed_in(alloc: Global, link: &LinkInput) -> Result<Vec<u64>, AllocError>
    requires { IsWellFormed link.now }
    ensures { IfOk result (λ words. words.items ≡ handed_in link.now) }
{
    let mut words = Vec::with_capacity(alloc, link.groups.symbol_count() as usize + 1)?;
    words.push(0)?;
    for file in link.groups.files() {
        push_flags(&mut words, file.file.symbols.as_slice())?;
    }
    Ok(words)
}

/// Adds the flags of symbols.
fn push_flags(words: &mut Vec<u64>, symbols: &[InputSymbol]) -> Result<(), AllocError>
    ensures { OnOk result (words.new.items ≡ words.old.items ++ map flags_handed_in symbols.now) }
{
    for symbol in symbols {
        words.push(u64::from(symbol.flags.0))?;
    }
    Ok(())
}
