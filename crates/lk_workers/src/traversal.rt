//! What workers share: the slots and the states of all groups, each behind a lock of its own, the words of flags, and the groups that
//! can run. Locks are taken in this order: a state, then a slot, then the groups that can run; no clause says so.

ghost use Rattle.std.specs.Prelude.{◌≡◌, ◌<◌, ◌+◌, ◌-◌, ◌*◌, ◌++◌, ◌∷◌, [], true, IfNone, IfOk, IfSome, OnErr, OnOk, SomeIff, map, None, Some, length, slice_get, slice_index};
ghost use Rattle.lk_flags.specs.Flags.{AreIn, AreInTurn, HaveNoMore, IsFound, Within, all_parts};
ghost use Rattle.lk_reach.specs.Marks.{IsMarked, IsUnit, all_units, symbols_in_all, unit_number, word_of};
ghost use Rattle.lk_link.specs.NumberedSymbols.{symbols_of};
ghost use Rattle.lk_link.specs.Walks.{file_of};
ghost use Rattle.lk_link.specs.WellFormed.{IsWellFormed};
ghost use Rattle.lk_slot_link.specs.LinkGraphs.{files_of_group, unit_group};
ghost use Rattle.lk_reach.specs.Units.{follows};
ghost use Rattle.lk_workers.specs.Asked.{AreListsOf, AreMet, AreReached, HasNumber, IsRootsOf, symbol_groups};
ghost use Rattle.lk_workers.specs.Closings.{AreMarksOf};
ghost use Rattle.lk_workers.specs.Items.{IsOwn};
ghost use Rattle.lk_workers.specs.Steps.{flags_set};
ghost use Rattle.lk_workers.specs.Traversals.{GoesOn};

use crate::closed::Closed;
use crate::marks::Marks;
use crate::opened::Opened;
use crate::slot::{Sent, WorkerSlot};
use crate::state::GroupState;
use crate::work::WorkItem;
use lk_flags::{FlagPass, FlagTable, Reach};
use lk_link::{FileId, FileRef, Gate, InputFile, LinkInput, SymbolId, ValueFlags};
use lk_reach::walk::{handed_in, unmarked};
use lk_reach::{Successors, Unit, file_roots, section_number, successors};
use std::alloc::{AllocError, Global};
use std::marker::{Model, PhantomData};
use std::sync::{Condvar, Mutex, Wait};

/// Groups that can run, those that were woken apart from the others, and how many workers run one or wait for one.
#[derive(Drop)]
struct Turns {
    /// Groups that haven't run.
    runnable: Vec<u32>,
    /// Groups that had parked. They run once no other can: by then more has come for them.
    woken: Vec<u32>,
    running: u32,
    waiting: u32,
}

impl Turns {
    /// Whether a group can run.
    fn can_run(&self) -> bool {
        !self.runnable.is_empty() || !self.woken.is_empty()
    }

    /// Takes a group that can run, if there is one.
    fn take(&mut self) -> Option<u32> {
        match self.runnable.pop() {
            Some(group) => Some(group),
            None => self.woken.pop(),
        }
    }
}

/// A traversal of a link by workers (libwild: `GraphResources`).
#[derive(Drop)]
pub struct Traversal<'l, J: Reach> {
    link: &'l LinkInput,
    slots: Vec<Mutex<WorkerSlot<J>>>,
    states: Vec<Mutex<GroupState<J>>>,
    table: FlagTable<J>,
    /// The group of each symbol.
    symbol_groups: Vec<u32>,
    turns: Mutex<Turns>,
    changed: Condvar,
    /// A mark for each unit, to which those of the states are moved at the end.
    room: Vec<bool>,
}

impl<'l, J: Reach> Model for Traversal<'l, J> {
    ghost use Rattle.lk_link.specs.contracts.link.LinkInput as link_input;
    ghost use Rattle.std.specs.Coded.{codes};
    ghost use Rattle.lk_workers.specs.Traversals.{TraversalValue};

    ghost Value = { TraversalValue };

    ghost coded = { Prim.hlevel (codes, link_input.the_row.coded) };

    ghost use Rattle.std.specs.Prelude.{◌≡◌, [], length};
    ghost use Rattle.lk_workers.specs.Asked.{AreListsOf, AreReached, symbol_groups as groups_of_symbols};
    ghost use Rattle.lk_workers.specs.Closings.{AreMarksOf};

    ghost view = { λ t. record { link = t.link.now; table = t.table } };

    ghost invariant = { λ t. AreListsOf J.lists t.link.now × (t.symbol_groups.items ≡ groups_of_symbols J.lists.groups) × AreReached J.lists t.room.items × AreMarksOf [] t.room.items × (length t.states.items ≡ length t.link.now.groups) × (length t.slots.items ≡ length t.link.now.groups) };
}

impl<'l, J: Reach> Traversal<'l, J> {
    /// A traversal of a link, and the first pass for its flags, which has all parts and has set nothing. What it takes no clause says: a
    /// slot, a state and two turns for each group, two marks for each unit, a number and two words for each symbol, and a third such
    /// word while the table is made.
    pub fn new(
        alloc: Global,
        link: &'l LinkInput,
    ) -> Result<(Traversal<'l, J>, FlagPass), AllocError>
        requires { AreListsOf J.lists link.now }
        ensures link { IfOk result (λ t. t.0.link ≡ link.now) }
        ensures pass { IfOk result (λ t. (t.1.table ≡ t.0.table) × (t.1.parts ≡ all_parts) × (t.1.sets ≡ [])) }
    {
        let (table, pass) = flag_table::<J>(alloc, link)?;
        let traversal = Traversal {
            link,
            slots: slots_of(alloc, link)?,
            states: states_of(alloc, link)?,
            table,
            symbol_groups: symbol_groups(alloc, link)?,
            turns: Mutex::new(turns_of(alloc, link)?),
            changed: Condvar::new(),
            room: room_of::<J>(alloc, link)?,
        };
        Ok((traversal, pass))
    }

    /// What the traversal came to: just the units that states had as done as they came out of locks, as many states as there are groups;
    /// and the words of flags, which have all that the pass set. If the pass has all parts, there is one order of all that it set in which
    /// each word that was found is the one handed in, joined with what was set there before; so the words have nothing else. Takes no
    /// memory.
    pub fn close(self, pass: FlagPass) -> (Closed<J>, Opened)
        requires { pass.table ≡ self.table }
        ensures done { AreMarksOf result.1.marks result.0.done }
        ensures all { length result.1.marks ≡ 2 * length self.entry.link.groups }
        ensures sets { AreIn pass.sets result.0.words }
        ensures in_turn { pass.parts ≡ all_parts → AreInTurn J.lists.handed pass.sets result.0.words }
        ensures whole { pass.parts ≡ all_parts → HaveNoMore J.lists.handed pass.sets result.0.words }
    {
        let Traversal {
            link: _,
            slots: _,
            states,
            table,
            symbol_groups: _,
            turns: _,
            changed: _,
            mut room,
        } = self;
        let opened = gather(states, &mut room);
        let closed = Closed {
            done: room,
            words: table.close(pass),
            of: PhantomData,
        };
        (closed, opened)
    }
}

/// Sets the marks of what is done in states, in a list without marks, and tells what that is.
fn gather<J: Reach>(states: Vec<Mutex<GroupState<J>>>, room: &mut Vec<bool>) -> Opened
    requires reached { AreReached J.lists room.old.items }
    requires none { AreMarksOf [] room.old.items }
    ensures reached { AreReached J.lists room.new.items }
    ensures done { AreMarksOf result.marks room.new.items }
    ensures all { length result.marks ≡ 2 * length states.items }
{
    let mut opened = Opened::new();
    for state in states {
        let _done = opened.open(state, room);
    }
    opened
}

/// The table of the flags that are handed in.
fn flag_table<J: Reach>(
    alloc: Global,
    link: &LinkInput,
) -> Result<(FlagTable<J>, FlagPass), AllocError>
    requires { AreListsOf J.lists link.now }
    ensures { IfOk result (λ t. (t.1.table ≡ t.0) × (t.1.parts ≡ all_parts) × (t.1.sets ≡ [])) }
{
    let words = handed_in(alloc, link)?;
    FlagTable::new(alloc, words.as_slice())
}

/// A mark for each unit, none of them set.
fn room_of<J: Reach>(alloc: Global, link: &LinkInput) -> Result<Vec<bool>, AllocError>
    requires { AreListsOf J.lists link.now }
    ensures reached { IfOk result (λ room. AreReached J.lists room.items) }
    ensures none { IfOk result (λ room. AreMarksOf [] room.items) }
{
    let room = unmarked(alloc, unit_count(link))?;
    Ok(room)
}

/// How many units a link has.
fn unit_count(link: &LinkInput) -> usize
    requires { IsWellFormed link.now }
    ensures { result ≡ length (all_units link.now.groups) }
{
    link.groups.symbol_count() as usize + link.groups.input_count() as usize
}

/// The group of each symbol.
fn symbol_groups(alloc: Global, link: &LinkInput) -> Result<Vec<u32>, AllocError>
    requires { IsWellFormed link.now }
    ensures { IfOk result (λ groups. groups.items ≡ symbol_groups link.now.groups) }
{
    let mut groups = Vec::with_capacity(alloc, link.groups.symbol_count() as usize)?;
    for file in link.groups.files() {
        push_group(&mut groups, file)?;
    }
    Ok(groups)
}

/// Adds the group of a file, for each of its symbols.
fn push_group(groups: &mut Vec<u32>, file: FileRef<'_>) -> Result<(), AllocError>
    ensures { OnOk result (groups.new.items ≡ groups.old.items ++ map (λ q. q.0.id.group) (symbols_of (file_of file.entry))) }
{
    for _ in file.file.symbols.as_slice() {
        groups.push(file.id.group)?;
    }
    Ok(())
}

/// A slot for each group.
fn slots_of<J: Reach>(
    alloc: Global,
    link: &LinkInput,
) -> Result<Vec<Mutex<WorkerSlot<J>>>, AllocError>
    ensures { IfOk result (λ slots. length slots.items ≡ length link.now.groups) }
{
    let mut slots = Vec::with_capacity(alloc, link.groups.len())?;
    let mut group = 0u32;
    for _ in link.groups.as_slice() {
        slots.push(Mutex::new(WorkerSlot::new(alloc, group)))?;
        group = group.saturating_add(1);
    }
    Ok(slots)
}

/// A state for each group.
fn states_of<J: Reach>(
    alloc: Global,
    link: &LinkInput,
) -> Result<Vec<Mutex<GroupState<J>>>, AllocError>
    ensures { IfOk result (λ states. length states.items ≡ length link.now.groups) }
{
    let mut states = Vec::with_capacity(alloc, link.groups.len())?;
    let mut group = 0u32;
    let mut first_symbol = 0usize;
    let mut first_section = link.groups.symbol_count() as usize;
    for files in link.groups.as_slice() {
        let symbols = symbols_in(files.as_slice());
        let sections = sections_in(files.as_slice());
        let state = GroupState::new(
            alloc,
            group,
            Marks::new(alloc, first_symbol, symbols)?,
            Marks::new(alloc, first_section, sections)?,
        );
        states.push(Mutex::new(state))?;
        group = group.saturating_add(1);
        first_symbol = first_symbol.saturating_add(symbols);
        first_section = first_section.saturating_add(sections);
    }
    Ok(states)
}

/// How many symbols files have.
fn symbols_in(files: &[InputFile]) -> usize {
    let mut count = 0usize;
    for file in files {
        count = count.saturating_add(file.symbols.len());
    }
    count
}

/// How many sections files have.
fn sections_in(files: &[InputFile]) -> usize {
    let mut count = 0usize;
    for file in files {
        count = count.saturating_add(file.sections.len());
    }
    count
}

/// Every group can run, and no worker runs one.
fn turns_of(alloc: Global, link: &LinkInput) -> Result<Turns, AllocError> {
    let mut runnable = Vec::with_capacity(alloc, link.groups.len())?;
    let mut group = 0u32;
    for _ in link.groups.as_slice() {
        runnable.push(group)?;
        group = group.saturating_add(1);
    }
    Ok(Turns {
        runnable,
        woken: Vec::with_capacity(alloc, link.groups.len())?,
        running: 0,
        waiting: 0,
    })
}

impl<J: Reach> Traversal<'_, J> {
    /// The link, lent.
    pub fn link(&self) -> &LinkInput
        ensures { result.now ≡ self.now.link }
    {
        self.link
    }

    /// The group of a unit: that of its file.
    pub fn group_of(&self, unit: Unit) -> u32
        ensures { result ≡ unit_group J.lists.groups (Some unit) }
    {
        match unit {
            Unit::Sym(symbol) => match self.symbol_groups.get(symbol.as_usize()) {
                Some(group) => *group,
                None => 0,
            },
            Unit::Sec(file, _) => file.group,
        }
    }

    /// The number of a unit: of a symbol its own, of a section one if its file is there.
    pub fn number_of(&self, unit: &Unit) -> Option<usize>
        ensures { SomeIff result (HasNumber J.lists.groups unit.now) (unit_number J.lists.groups unit.now) }
    {
        match *unit {
            Unit::Sym(symbol) => Some(symbol.as_usize()),
            Unit::Sec(file, index) => section_number(self.link, file, index),
        }
    }

    /// What a unit asks for.
    pub fn follows(&self, unit: Unit) -> Successors<'_>
        requires there { IsUnit J.lists.groups unit }
        requires reached { IsMarked J.lists.units (unit_number J.lists.groups unit) }
        ensures asks { result ≡ follows self.now.link unit }
        ensures met { AreMet J.lists (follows self.now.link unit) }
    {
        successors(self.link, unit)
    }

    /// What a file of a group asks for by itself, by its index there; none where there is no such file.
    pub fn roots_of(&self, group: u32, index: u32) -> Option<Successors<'_>>
        ensures some { IfSome result (λ asks. IsRootsOf self.now.link group index asks × AreMet J.lists asks) }
        ensures none { IfNone result (slice_get (files_of_group self.now.link.groups group) index ≡ None) }
    {
        let id = FileId { group, file: index };
        match self.link.groups.file(id) {
            Some(file) => Some(file_roots(self.link, FileRef { id, file })),
            None => None,
        }
    }

    /// Sets flags of a symbol, and answers its word as found, which the pass keeps with them: it has what was handed in and what the pass
    /// had set there, and is within its bound. `close` tells how it goes with what other passes found.
    pub fn set(&self, pass: &mut FlagPass, symbol: SymbolId, flags: ValueFlags) -> u64
        requires own { pass.old.table ≡ self.now.table }
        requires there { symbol < symbols_in_all J.lists.groups }
        requires bounded { Within flags.0 (slice_index J.lists.words (word_of symbol)) }
        ensures table { pass.new.table ≡ pass.old.table }
        ensures parts { pass.new.parts ≡ pass.old.parts }
        ensures sets { pass.new.sets ≡ pass.old.sets ++ flags_set symbol flags result ∷ [] }
        ensures found { IsFound J.lists.handed J.lists.words pass.old.sets (word_of symbol) result }
    {
        self.table
            .set(pass, symbol.as_usize() + 1, u64::from(flags.0))
    }

    /// Leaves an item in a slot of its group, and adds it to what was sent. Without memory, or without such a slot, the item is given up,
    /// and what was sent stays as it is. No clause says that the slot is the one that the group looks into, that the item is left once,
    /// or that it, and what waited there before, waits there behind the call, nor, where it isn't left, that no slot has it; nor that a
    /// group that had parked can run from then on; where there is no memory to note that it can, what it was left stays undone.
    pub fn send<R: Wait>(
        &self,
        rt: &R,
        group: u32,
        item: WorkItem,
        sent: &mut Sent,
    ) -> Result<(), AllocError>
        requires { IsOwn J.lists group item }
        ensures sent { OnOk result (sent.new.items ≡ sent.old.items ++ item ∷ []) }
        ensures kept { OnErr result (sent.new.items ≡ sent.old.items) }
    {
        let Some(slot) = self.slots.get(group as usize) else {
            return Err(AllocError);
        };
        let mut slot = slot.lock(rt);
        let slot = &mut *slot;
        if slot.group() != group {
            return Err(AllocError);
        }
        if slot.deposit(item, sent)? {
            self.wake(rt, group);
        }
        Ok(())
    }

    /// A group that had parked can run, which is told to a worker that waits, if one does. Without memory it isn't noted.
    fn wake<R: Wait>(&self, rt: &R, group: u32) {
        let mut turns = self.turns.lock(rt);
        if turns.woken.push(group).is_ok() && turns.waiting != 0 {
            self.changed.notify_one();
        }
    }

    /// Parks a group that has nothing left to do, and answers whether it is to stop; else what waits for it becomes its own list.
    fn park<R: Wait>(&self, rt: &R, state: &mut GroupState<J>) -> bool
        requires active { state.old.active ≡ true }
        requires idle { state.old.items ≡ [] }
    {
        let group = state.group();
        let Some(slot) = self.slots.get(group as usize) else {
            return true;
        };
        let mut slot = slot.lock(rt);
        let slot = &mut *slot;
        if slot.group() != group {
            return true;
        }
        state.rest(slot)
    }

    /// Runs a group, step by step, until it has nothing left to do and nothing waits for it. The gate is entered before each step.
    /// What is given up for want of memory stays undone, and the group goes on. All that clauses say of this is that the pass keeps its
    /// table, its parts and what it had set (libwild: `do_pending_work`).
    pub fn run_group<R: Wait, G: Gate>(&self, rt: &R, pass: &mut FlagPass, gate: &G, group: u32)
        requires own { pass.old.table ≡ self.now.table }
        requires gate { G.may_enter gate.now }
        ensures table { pass.new.table ≡ pass.old.table }
        ensures parts { pass.new.parts ≡ pass.old.parts }
        ensures sets { GoesOn pass.old.sets pass.new.sets }
    {
        let Some(state) = self.states.get(group as usize) else {
            return;
        };
        let mut state = state.lock(rt);
        let state = &mut *state;
        for _ in rt.forever() {
            gate.enter(group);
            if let Ok(false) = state.step(self, rt, pass) {
                if self.park(rt, state) {
                    return;
                }
            }
        }
    }

    /// A further pass, which has set nothing, with one of the parts.
    pub fn split(&self, pass: &mut FlagPass) -> FlagPass
        requires own { pass.old.table ≡ self.now.table }
        requires parts { 1 < pass.old.parts }
        ensures rest { pass.new ≡ record { table = pass.old.table; parts = pass.old.parts - 1; sets = pass.old.sets } }
        ensures further { result ≡ record { table = self.now.table; parts = 1; sets = [] } }
    {
        self.table.split(pass)
    }

    /// Joins a pass to another, which then has the parts of both, and has set what both had.
    pub fn join(&self, pass: &mut FlagPass, other: FlagPass)
        requires own { pass.old.table ≡ self.now.table }
        requires same { other.table ≡ self.now.table }
        ensures table { pass.new.table ≡ pass.old.table }
        ensures parts { pass.new.parts ≡ pass.old.parts + other.parts }
        ensures sets { pass.new.sets ≡ pass.old.sets ++ other.sets }
    {
        self.table.join(pass, other);
    }

    /// A group that can run, which a worker then runs; none once no group can run and no worker runs one. Waits until then.
    pub(crate) fn next<R: Wait>(&self, rt: &R) -> Option<u32> {
        let mut turns = self.turns.lock(rt);
        turns.waiting = turns.waiting.wrapping_add(1);
        let mut turns = self.changed.wait_while(rt, turns, |turns: &mut Turns| {
            !turns.can_run() && turns.running != 0
        });
        let turns = &mut *turns;
        turns.waiting = turns.waiting.wrapping_sub(1);
        let group = turns.take()?;
        turns.running = turns.running.wrapping_add(1);
        Some(group)
    }

    /// A worker doesn't run its group any more. Those that wait are told once there is nothing to wait for; where a group can run,
    /// this worker takes it next.
    pub(crate) fn finish<R: Wait>(&self, rt: &R) {
        let mut turns = self.turns.lock(rt);
        let turns = &mut *turns;
        turns.running = turns.running.wrapping_sub(1);
        if turns.waiting != 0 && turns.running == 0 && !turns.can_run() {
            self.changed.notify_all();
        }
    }
}
