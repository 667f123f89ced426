//! What a traversal came to, and whether that is all: a group is closed where none of its asks is open.

ghost use Rattle.std.specs.Prelude.{◌≡◌, ◌<◌, ℕ, All, Bool, false, IfNone, IfOk, IfSome, Some, length, slice_index, slice_index_or, true};
ghost use Rattle.std.specs.List.{list_all};
ghost use Rattle.lk_link.specs.Files.{file_in};
ghost use Rattle.lk_link.specs.Flags.{has_flag};
ghost use Rattle.lk_link.specs.Walks.{file_of};
ghost use Rattle.lk_reach.specs.Marks.{IsInside, IsUnit, symbols_in_all, word_of};
ghost use Rattle.lk_workers.specs.Asked.{AreListsOf};
ghost use Rattle.lk_workers.specs.Closings.{are_groups_closed, is_ask_met, is_file_closed, is_group_closed, is_unit_closed, is_unit_done, section_units, symbol_units};
ghost use Rattle.lk_workers.specs.Shares.{is_passed, is_share_closed, worker_of};

use lk_flags::Reach;
use lk_link::marks::is_marked;
use lk_link::{FileId, FileRef, LinkInput, SymbolId, ValueFlags};
use lk_reach::{Ask, Successors, Unit, file_roots, section_number, successors};
use std::alloc::{AllocError, Global};
use std::marker::{Model, PhantomData};
use std::thread::{Threads, map_indices};

/// The units that are done at the end, and the words of flags. What is done is reached, and words have what was handed in and nothing
/// beyond all flags.
#[derive(Drop)]
pub struct Closed<J: Reach> {
    pub(crate) done: Vec<bool>,
    pub(crate) words: Vec<u64>,
    pub(crate) of: PhantomData<J>,
}

impl<J: Reach> Model for Closed<J> {
    ghost use Rattle.lk_slot_link.specs.LinkLists.{AreInside};
    ghost use Rattle.lk_workers.specs.Closings.{ClosedValue};

    ghost Value = { ClosedValue };

    ghost view = { λ a. record { done = a.done.items; words = a.words.items } };

    ghost invariant = { λ a. AreInside J.lists a.done.items a.words.items };
}

impl<J: Reach> Closed<J> {
    /// For each unit whether it is done.
    pub fn done(&self) -> &[bool]
        ensures { result.now ≡ self.now.done }
    {
        self.done.as_slice()
    }

    /// Behind a spare word the flags of each symbol.
    pub fn words(&self) -> &[u64]
        ensures { result.now ≡ self.now.words }
    {
        self.words.as_slice()
    }

    /// Whether a unit is done.
    fn is_done(&self, link: &LinkInput, unit: &Unit) -> bool
        requires link { AreListsOf J.lists link.now }
        requires there { IsUnit link.now.groups unit.now }
        ensures { result ≡ is_unit_done self.now link.now.groups unit.now }
    {
        match *unit {
            Unit::Sym(symbol) => is_marked(self.done.as_slice(), symbol.as_usize()),
            Unit::Sec(file, index) => match section_number(link, file, index) {
                Some(number) => is_marked(self.done.as_slice(), number),
                None => false,
            },
        }
    }

    /// Whether a symbol has these flags.
    fn has_flags(&self, link: &LinkInput, symbol: SymbolId, flags: ValueFlags) -> bool
        requires link { AreListsOf J.lists link.now }
        requires there { symbol < symbols_in_all link.now.groups }
        ensures { result ≡ has_flag flags.0 (slice_index self.now.words (word_of symbol)) }
    {
        let flags = u64::from(flags.0);
        self.words[symbol.as_usize() + 1] & flags == flags
    }

    /// Whether an ask isn't open.
    fn is_met(&self, link: &LinkInput, ask: Ask) -> bool
        requires link { AreListsOf J.lists link.now }
        requires inside { IsInside link.now.groups ask }
        ensures { result ≡ is_ask_met self.now link.now.groups ask }
    {
        match ask {
            Ask::Reference(symbol, flags) => {
                self.is_done(link, &Unit::Sym(symbol)) && self.has_flags(link, symbol, flags)
            }
            Ask::Section(file, index) => self.is_done(link, &Unit::Sec(file, index)),
            Ask::Mark(symbol, flags) => self.has_flags(link, symbol, flags),
        }
    }

    /// Whether none of these asks is open.
    fn are_met(&self, link: &LinkInput, asks: Successors<'_>) -> bool
        requires link { AreListsOf J.lists link.now }
        requires inside { All (IsInside link.now.groups) asks }
        ensures { result ≡ list_all (is_ask_met self.now link.now.groups) asks.entry }
    {
        for ask in asks {
            if !self.is_met(link, ask) {
                return false;
            }
        }
        true
    }

    /// Whether a unit has no open ask.
    fn is_unit_closed(&self, link: &LinkInput, unit: Unit) -> bool
        requires link { AreListsOf J.lists link.now }
        requires there { IsUnit link.now.groups unit }
        ensures { result ≡ is_unit_closed self.now link.now unit }
    {
        if !self.is_done(link, &unit) {
            return true;
        }
        self.are_met(link, successors(link, unit))
    }

    /// Whether no symbol of a file has an open ask.
    fn are_symbols_closed(&self, link: &LinkInput, file: FileRef<'_>) -> bool
        requires link { AreListsOf J.lists link.now }
        requires there { file_in link.now.groups file.id ≡ Some file.file.now }
        ensures { result ≡ list_all (is_unit_closed self.now link.now) (symbol_units link.now.groups (file_of file.entry)) }
    {
        let Some(symbols) = link.groups.symbol_id_range(file.id) else {
            return false;
        };
        for place in 0..symbols.len() {
            if !self.is_unit_closed(link, Unit::Sym(symbols.offset_to_id(place))) {
                return false;
            }
        }
        true
    }

    /// Whether no section of a file has an open ask.
    fn are_sections_closed(&self, link: &LinkInput, file: FileRef<'_>) -> bool
        requires link { AreListsOf J.lists link.now }
        requires there { file_in link.now.groups file.id ≡ Some file.file.now }
        ensures { result ≡ list_all (is_unit_closed self.now link.now) (section_units (file_of file.entry)) }
    {
        for index in 0..file.file.sections.len() {
            if !self.is_unit_closed(link, Unit::Sec(file.id, index as u32)) {
                return false;
            }
        }
        true
    }

    /// Whether a file has no open ask.
    fn is_file_closed(&self, link: &LinkInput, file: FileRef<'_>) -> bool
        requires link { AreListsOf J.lists link.now }
        requires there { file_in link.now.groups file.id ≡ Some file.file.now }
        ensures { result ≡ is_file_closed self.now link.now (file_of file.entry) }
    {
        self.are_met(link, file_roots(link, file))
            && self.are_symbols_closed(link, file)
            && self.are_sections_closed(link, file)
    }

    /// Whether a group of the traversal's link has no open ask: the units that its files and its done units ask for are done, and the
    /// flags that they set are in the words. Takes no memory. It looks at each unit of the group, and at each ask of those that are
    /// done, until one is open, which no clause says.
    pub fn is_closed(&self, link: &LinkInput, group: u32) -> bool
        requires { AreListsOf J.lists link.now }
        ensures { result ≡ is_group_closed self.now link.now group }
    {
        let Some(files) = link.groups.as_slice().get(group as usize) else {
            return true;
        };
        let files = files.as_slice();
        for index in 0..files.len() {
            let id = FileId {
                group,
                file: index as u32,
            };
            let file = &files[index];
            if !self.is_file_closed(link, FileRef { id, file }) {
                return false;
            }
        }
        true
    }

    /// Whether no group of the traversal's link has an open ask. Takes no memory.
    pub fn is_whole(&self, link: &LinkInput) -> bool
        requires { AreListsOf J.lists link.now }
        ensures { result ≡ are_groups_closed self.now link.now }
    {
        for group in 0..link.groups.len() {
            if !self.is_closed(link, group as u32) {
                return false;
            }
        }
        true
    }

    /// Whether a worker passes a file: another of so many looks at it, or it has no open ask.
    fn is_passed(&self, link: &LinkInput, file: FileRef<'_>, workers: usize, worker: usize) -> bool
        requires link { AreListsOf J.lists link.now }
        requires some { 0 < workers }
        requires there { file_in link.now.groups file.id ≡ Some file.file.now }
        ensures { result ≡ is_passed self.now link.now workers worker (file_of file.entry) }
    {
        worker_of(file.id, workers) != worker || self.is_file_closed(link, file)
    }

    /// Whether none of the files that a worker of so many looks at has an open ask.
    fn is_share_closed(&self, link: &LinkInput, workers: usize, worker: usize) -> bool
        requires link { AreListsOf J.lists link.now }
        requires some { 0 < workers }
        ensures { result ≡ is_share_closed self.now link.now workers worker }
    {
        for file in link.groups.files() {
            if !self.is_passed(link, file, workers, worker) {
                return false;
            }
        }
        true
    }
}

/// Which of so many workers looks at a file. Where there are two or more, neighbours go to different ones, so a group of many files is
/// shared as well.
fn worker_of(file: FileId, workers: usize) -> usize
    requires { 0 < workers }
    ensures { result ≡ worker_of workers file }
{
    (file.group as usize + file.file as usize) % workers
}

/// Whether all answers are yes.
fn are_all(answers: &[bool]) -> bool
    ensures { result ≡ list_all (λ b. b) answers.now }
{
    answers.iter().all(|answer| *answer)
}

impl<J: Reach + Send + Sync> Closed<J> {
    /// Whether the share of each of so many workers is closed, as they find side by side.
    fn shares<R: Threads + Sync>(
        &self,
        rt: &R,
        alloc: Global,
        link: &LinkInput,
        workers: usize,
    ) -> Result<Vec<bool>, AllocError>
        requires lists { AreListsOf J.lists link.now }
        requires some { 0 < workers }
        ensures count { IfOk result (λ v. length v.items ≡ workers) }
        ensures each { IfOk result (λ v. (w : ℕ) (d : Bool) → w < workers → slice_index_or v.items w d ≡ is_share_closed self.now link.now workers w) }
    {
        map_indices(
            rt,
            alloc,
            workers,
            &|worker: usize| -> bool
                requires { AreListsOf J.lists link.now × (0 < workers) }
                ensures { result ≡ is_share_closed self.entry.now link.entry.now workers worker }
            { self.is_share_closed(link, workers, worker) },
        )
    }

    /// Whether no group has an open ask, as so many workers find.
    fn are_shares_closed<R: Threads + Sync>(
        &self,
        rt: &R,
        alloc: Global,
        link: &LinkInput,
        workers: usize,
    ) -> Result<bool, AllocError>
        requires lists { AreListsOf J.lists link.now }
        requires some { 0 < workers }
        ensures { IfOk result (λ whole. whole ≡ are_groups_closed self.now link.now) }
    {
        let shares = self.shares(rt, alloc, link, workers)?;
        Ok(are_all(shares.as_slice()))
    }

    /// The same as `is_whole`, looked for by so many workers side by side, one of them on the caller's thread; none counts as one. How
    /// many threads there are, and that it takes a mark for each worker, no clause says.
    pub fn is_whole_by_workers<R: Threads + Sync>(
        &self,
        rt: &R,
        alloc: Global,
        link: &LinkInput,
        workers: u32,
    ) -> Result<bool, AllocError>
        requires { AreListsOf J.lists link.now }
        ensures { IfOk result (λ whole. whole ≡ are_groups_closed self.now link.now) }
    {
        self.are_shares_closed(rt, alloc, link, workers.max(1) as usize)
    }

    /// The marks and the words, as they are, exactly where no group has an open ask: then they are all that is reached, and all flags.
    /// So many workers look for an open ask side by side, one of them on the caller's thread; none counts as one. How many threads there
    /// are, and that it takes a mark for each worker, no clause says.
    pub fn into_whole<R: Threads + Sync>(
        self,
        rt: &R,
        alloc: Global,
        link: &LinkInput,
        workers: u32,
    ) -> Result<Option<(Vec<bool>, Vec<u64>)>, AllocError>
        requires { AreListsOf J.lists link.now }
        ensures marks { IfOk result (λ whole. IfSome whole (λ r. r.0.items ≡ J.lists.units)) }
        ensures words { IfOk result (λ whole. IfSome whole (λ r. r.1.items ≡ J.lists.words)) }
        ensures own { IfOk result (λ whole. IfSome whole (λ r. (r.0.items ≡ self.done) × (r.1.items ≡ self.words))) }
        ensures some { IfOk result (λ whole. IfSome whole (λ _. are_groups_closed self link.now ≡ true)) }
        ensures none { IfOk result (λ whole. IfNone whole (are_groups_closed self link.now ≡ false)) }
    {
        if !self.is_whole_by_workers(rt, alloc, link, workers)? {
            return Ok(None);
        }
        let Closed { done, words, of: _ } = self;
        Ok(Some((done, words)))
    }
}
