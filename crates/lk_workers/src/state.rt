//! The state of a group, and the steps that it takes.

ghost use Rattle.std.specs.Prelude.{◌≡◌, ◌++◌, ◌∷◌, ◌||◌, ℕ, [], false, true, IfNone, IfOk, IfSome, MatchBool, OnErr, OnOk, Some};
ghost use Rattle.std.specs.Option.{is_some};
ghost use Rattle.lk_reach.specs.declared.units.Ask.TheVariants as ask;
ghost use Rattle.lk_link.specs.Marks.{is_marked};
ghost use Rattle.lk_reach.specs.Marks.{IsMarked, IsUnit, unit_at, unit_number};
ghost use Rattle.lk_slot_link.specs.LinkGraphs.{group_roots, unit_group};
ghost use Rattle.lk_workers.specs.Asked.{AreMet, AreReached, IsMet};
ghost use Rattle.lk_slots.specs.Machine.{Parks, Swaps};
ghost use Rattle.lk_workers.specs.Items.{AreOwn, IsMeant, IsOwn, machine_items, slot_of};
ghost use Rattle.lk_workers.specs.States.{DoesOne, activated, has_number, is_done, is_in, with_items};
ghost use Rattle.lk_workers.specs.Steps.{DoesAsk, DoesAsks, DoesItem, DoesSome, DoesUnit, GivesItemUp, GivesUnitUp, IsGivenUp, IsStep, IsStepGivenUp, PassesOn, Refers, is_asked};

use crate::marks::Marks;
use crate::slot::{Sent, WorkerSlot};
use crate::traversal::Traversal;
use crate::work::{GcLoadRequest, LocalWorkQueue, WorkItem};
use lk_flags::{FlagPass, Reach};
use lk_link::flags::RESOLUTION;
use lk_link::{SectionGcUnit, SymbolId, ValueFlags};
use lk_reach::{Ask, Successors, Unit};
use std::alloc::{AllocError, Global};
use std::marker::{Model, PhantomData};
use std::sync::Wait;

/// The state of a group: whether it is activated, its own items, and which of its symbols and sections are done. All of these are the
/// group's own, and there is reason for them. Contracts also see what its steps noted as left for other groups. In a traversal it lies
/// behind a lock (libwild: `GroupState`).
#[derive(Drop)]
pub struct GroupState<J: Reach> {
    group: u32,
    active: bool,
    items: LocalWorkQueue,
    symbols: Marks,
    sections: Marks,
    sent: Sent,
    of: PhantomData<J>,
}

impl<J: Reach> Model for GroupState<J> {
    ghost use Rattle.lk_workers.specs.Items.{AreOwn};
    ghost use Rattle.lk_workers.specs.States.{AreDone, StateValue};

    ghost Value = { StateValue };

    ghost view = { λ a. record { group = a.group; active = a.active; items = a.items; symbols = a.symbols; sections = a.sections; sent = a.sent.items } };

    ghost invariant = { λ a. AreOwn J.lists a.group a.items × AreDone J.lists a.group a.symbols × AreDone J.lists a.group a.sections };
}

impl<J: Reach> GroupState<J> {
    /// The state of a group that isn't activated, with nothing to do. `symbols` and `sections` have no mark.
    pub fn new(alloc: Global, group: u32, symbols: Marks, sections: Marks) -> GroupState<J>
        requires symbols { (n : ℕ) → is_in symbols n ≡ false }
        requires sections { (n : ℕ) → is_in sections n ≡ false }
        ensures { result ≡ record { group = group; active = false; items = []; symbols = symbols; sections = sections; sent = [] } }
    {
        GroupState {
            group,
            active: false,
            items: LocalWorkQueue::new(alloc),
            symbols,
            sections,
            sent: Sent::new(),
            of: PhantomData,
        }
    }

    /// The group whose state it is.
    pub fn group(&self) -> u32
        ensures { result ≡ self.now.group }
    {
        self.group
    }

    /// Passes an item on: to the group's own list, or, noted as left, to a slot of the group that it belongs to. Without memory it is given
    /// up, and all stays as it is.
    fn pass_on<R: Wait>(
        &mut self,
        traversal: &Traversal<'_, J>,
        rt: &R,
        item: WorkItem,
    ) -> Result<(), AllocError>
        requires meant { IsMeant J.lists item }
        ensures passes { OnOk result (PassesOn J.lists.groups item self.old self.new) }
        ensures kept { OnErr result (self.new ≡ self.old) }
        ensures group { self.new.group ≡ self.old.group }
    {
        let own = self.group;
        let group = traversal.group_of(item.unit());
        if group == own {
            self.items.push(item)?;
            Ok(())
        } else {
            traversal.send(rt, group, item, &mut self.sent)
        }
    }

    /// Sets flags of a symbol, and asks for it where it had no resolution, or where there are none to set.
    fn refer<R: Wait>(
        &mut self,
        traversal: &Traversal<'_, J>,
        rt: &R,
        pass: &mut FlagPass,
        symbol: SymbolId,
        flags: ValueFlags,
    ) -> Result<(), AllocError>
        requires own { pass.old.table ≡ traversal.now.table }
        requires met { IsMet J.lists (ask.Reference symbol flags) }
        ensures table { pass.new.table ≡ pass.old.table }
        ensures parts { pass.new.parts ≡ pass.old.parts }
        ensures given_up { OnErr result ((self.new ≡ self.old) × IsGivenUp (ask.Reference symbol flags) pass.old.sets pass.new.sets) }
        ensures refers { OnOk result (Refers J.lists.groups symbol flags self.old self.new pass.old.sets pass.new.sets) }
        ensures group { self.new.group ≡ self.old.group }
    {
        let found = traversal.set(pass, symbol, flags);
        if is_asked(flags, found) {
            self.pass_on(traversal, rt, WorkItem::LoadGlobalSymbol(symbol))
        } else {
            Ok(())
        }
    }

    /// Does an ask: a reference that exports its symbol is passed on, as a section is; any other sets its flags.
    fn do_ask<R: Wait>(
        &mut self,
        traversal: &Traversal<'_, J>,
        rt: &R,
        pass: &mut FlagPass,
        ask: Ask,
    ) -> Result<(), AllocError>
        requires own { pass.old.table ≡ traversal.now.table }
        requires met { IsMet J.lists ask }
        ensures table { pass.new.table ≡ pass.old.table }
        ensures parts { pass.new.parts ≡ pass.old.parts }
        ensures does { OnOk result (DoesAsk J.lists.groups ask self.old self.new pass.old.sets pass.new.sets) }
        ensures given_up { OnErr result ((self.new ≡ self.old) × IsGivenUp ask pass.old.sets pass.new.sets) }
        ensures group { self.new.group ≡ self.old.group }
    {
        match ask {
            Ask::Reference(symbol, flags) => {
                if flags.0 == ValueFlags::EXPORT_DYNAMIC.0 {
                    self.pass_on(traversal, rt, WorkItem::ExportDynamic(symbol))
                } else {
                    self.refer(traversal, rt, pass, symbol, flags)
                }
            }
            Ask::Section(file_id, index) => {
                let gc_unit = SectionGcUnit::new(index);
                let request = GcLoadRequest { file_id, gc_unit };
                self.pass_on(traversal, rt, WorkItem::LoadGcUnit(request))
            }
            Ask::Mark(symbol, flags) => {
                traversal.set(pass, symbol, flags);
                Ok(())
            }
        }
    }

    /// Does asks, one after the other. Without memory the rest is given up.
    fn do_asks<R: Wait>(
        &mut self,
        traversal: &Traversal<'_, J>,
        rt: &R,
        pass: &mut FlagPass,
        asks: Successors<'_>,
    ) -> Result<(), AllocError>
        requires own { pass.old.table ≡ traversal.now.table }
        requires met { AreMet J.lists asks }
        ensures table { pass.new.table ≡ pass.old.table }
        ensures parts { pass.new.parts ≡ pass.old.parts }
        ensures does { OnOk result (DoesAsks J.lists.groups asks.entry self.old self.new pass.old.sets pass.new.sets) }
        ensures some { OnErr result (DoesSome J.lists.groups asks.entry self.old self.new pass.old.sets pass.new.sets) }
        ensures group { self.new.group ≡ self.old.group }
    {
        for ask in asks {
            self.do_ask(traversal, rt, pass, ask)?;
        }
        Ok(())
    }

    /// Marks a unit as done, and answers whether it wasn't; none where the group has no mark for it.
    fn mark(&mut self, number: usize) -> Option<bool>
        requires reached { IsMarked J.lists.units number }
        requires own { unit_group J.lists.groups (unit_at J.lists.groups number) ≡ self.old.group }
        ensures some { IfSome result (λ fresh. MatchBool fresh ((is_done self.old number ≡ false) × DoesOne self.old number self.new) ((is_done self.old number ≡ true) × (self.new ≡ self.old))) }
        ensures none { IfNone result (self.new ≡ self.old) }
        ensures has { is_some result ≡ has_number self.old.symbols number || has_number self.old.sections number }
        ensures group { self.new.group ≡ self.old.group }
    {
        if self.symbols.is_marked(number) || self.sections.is_marked(number) {
            return Some(false);
        }
        if self.symbols.mark(number) || self.sections.mark(number) {
            return Some(true);
        }
        None
    }

    /// Does a unit that is reached: it is done, and with it all that it asks for, unless it was before.
    fn do_unit<R: Wait>(
        &mut self,
        traversal: &Traversal<'_, J>,
        rt: &R,
        pass: &mut FlagPass,
        unit: Unit,
    ) -> Result<(), AllocError>
        requires own { pass.old.table ≡ traversal.now.table }
        requires there { IsUnit J.lists.groups unit }
        requires reached { IsMarked J.lists.units (unit_number J.lists.groups unit) }
        requires group { unit_group J.lists.groups (Some unit) ≡ self.old.group }
        ensures table { pass.new.table ≡ pass.old.table }
        ensures parts { pass.new.parts ≡ pass.old.parts }
        ensures does { OnOk result (DoesUnit J.lists.groups traversal.now.link unit self.old self.new pass.old.sets pass.new.sets) }
        ensures given_up { OnErr result (GivesUnitUp J.lists.groups traversal.now.link unit self.old self.new pass.old.sets pass.new.sets) }
        ensures group { self.new.group ≡ self.old.group }
    {
        let Some(number) = traversal.number_of(&unit) else {
            return Err(AllocError);
        };
        match self.mark(number) {
            Some(true) => self.do_asks(traversal, rt, pass, traversal.follows(unit)),
            Some(false) => Ok(()),
            None => Err(AllocError),
        }
    }

    /// Does an item of the group's own.
    fn do_item<R: Wait>(
        &mut self,
        traversal: &Traversal<'_, J>,
        rt: &R,
        pass: &mut FlagPass,
        item: WorkItem,
    ) -> Result<(), AllocError>
        requires own { pass.old.table ≡ traversal.now.table }
        requires item { IsOwn J.lists self.old.group item }
        ensures table { pass.new.table ≡ pass.old.table }
        ensures parts { pass.new.parts ≡ pass.old.parts }
        ensures does { OnOk result (DoesItem J.lists.groups traversal.now.link item self.old self.new pass.old.sets pass.new.sets) }
        ensures given_up { OnErr result (GivesItemUp J.lists.groups traversal.now.link item self.old self.new pass.old.sets pass.new.sets) }
        ensures group { self.new.group ≡ self.old.group }
    {
        match item {
            WorkItem::ExportDynamic(symbol) => {
                self.refer(traversal, rt, pass, symbol, ValueFlags::EXPORT_DYNAMIC)
            }
            WorkItem::LoadGlobalSymbol(symbol) => {
                self.do_unit(traversal, rt, pass, Unit::Sym(symbol))
            }
            WorkItem::LoadGcUnit(request) => {
                let unit = Unit::Sec(request.file_id, request.gc_unit.section_index());
                self.do_unit(traversal, rt, pass, unit)
            }
        }
    }

    /// Does what the files of the group ask for by themselves.
    fn do_files<R: Wait>(
        &mut self,
        traversal: &Traversal<'_, J>,
        rt: &R,
        pass: &mut FlagPass,
    ) -> Result<(), AllocError>
        requires own { pass.old.table ≡ traversal.now.table }
        ensures table { pass.new.table ≡ pass.old.table }
        ensures parts { pass.new.parts ≡ pass.old.parts }
        ensures does { OnOk result (DoesAsks J.lists.groups (group_roots traversal.now.link self.old.group) self.old self.new pass.old.sets pass.new.sets) }
        ensures some { OnErr result (DoesSome J.lists.groups (group_roots traversal.now.link self.old.group) self.old self.new pass.old.sets pass.new.sets) }
        ensures group { self.new.group ≡ self.old.group }
    {
        let group = self.group();
        for index in 0..u32::MAX {
            match traversal.roots_of(group, index) {
                Some(asks) => self.do_asks(traversal, rt, pass, asks)?,
                None => return Ok(()),
            }
        }
        Err(AllocError)
    }

    /// Activates the group.
    fn activate<R: Wait>(
        &mut self,
        traversal: &Traversal<'_, J>,
        rt: &R,
        pass: &mut FlagPass,
    ) -> Result<(), AllocError>
        requires own { pass.old.table ≡ traversal.now.table }
        ensures table { pass.new.table ≡ pass.old.table }
        ensures parts { pass.new.parts ≡ pass.old.parts }
        ensures does { OnOk result (DoesAsks J.lists.groups (group_roots traversal.now.link self.old.group) (activated self.old) self.new pass.old.sets pass.new.sets) }
        ensures some { OnErr result (DoesSome J.lists.groups (group_roots traversal.now.link self.old.group) (activated self.old) self.new pass.old.sets pass.new.sets) }
        ensures group { self.new.group ≡ self.old.group }
    {
        self.active = true;
        self.do_files(traversal, rt, pass)
    }

    /// Takes the item that was added last, if there is one.
    fn take(&mut self) -> Option<WorkItem>
        ensures some { IfSome result (λ item. (self.old.items ≡ self.new.items ++ item ∷ []) × IsOwn J.lists self.old.group item) }
        ensures rest { self.new ≡ with_items self.old self.new.items }
        ensures none { IfNone result ((self.old.items ≡ []) × (self.new ≡ self.old)) }
    {
        let Some(item) = self.items.pop() else {
            return None;
        };
        Some(item)
    }

    /// Activates the group, or takes an item of its own, and does all that it asks for; answers whether there was either. Without
    /// memory the rest of those asks is given up, or the item, and nothing else. Its own items are units of
    /// the group that are reached (libwild: `GroupState::do_pending_work`).
    pub fn step<R: Wait>(
        &mut self,
        traversal: &Traversal<'_, J>,
        rt: &R,
        pass: &mut FlagPass,
    ) -> Result<bool, AllocError>
        requires own { pass.old.table ≡ traversal.now.table }
        ensures table { pass.new.table ≡ pass.old.table }
        ensures parts { pass.new.parts ≡ pass.old.parts }
        ensures step { IfOk result (λ did. MatchBool did
            (IsStep J.lists.groups traversal.now.link self.old self.new pass.old.sets pass.new.sets)
            ((self.old.active ≡ true) × (self.old.items ≡ []) × (self.new ≡ self.old) × (pass.new.sets ≡ pass.old.sets))) }
        ensures given_up { OnErr result (IsStepGivenUp J.lists.groups traversal.now.link self.old self.new pass.old.sets pass.new.sets) }
        ensures own { AreOwn J.lists self.old.group self.old.items }
        ensures group { self.new.group ≡ self.old.group }
    {
        if !self.active {
            self.activate(traversal, rt, pass)?;
            return Ok(true);
        }
        match self.take() {
            Some(item) => {
                self.do_item(traversal, rt, pass, item)?;
                Ok(true)
            }
            None => Ok(false),
        }
    }

    /// Parks the group, which is activated, where nothing waits in its slot, and answers that; else what waits becomes its own list.
    pub fn rest(&mut self, slot: &mut WorkerSlot<J>) -> bool
        requires active { self.old.active ≡ true }
        requires idle { self.old.items ≡ [] }
        requires same { slot.old.group ≡ self.old.group }
        ensures goes { MatchBool result
            ((self.new ≡ self.old) × Parks (slot_of J.lists.groups slot.old) (slot_of J.lists.groups slot.new))
            ((self.new ≡ with_items self.old self.new.items) × Swaps (machine_items J.lists.groups self.old.items) (machine_items J.lists.groups self.new.items) (slot_of J.lists.groups slot.old) (slot_of J.lists.groups slot.new)) }
        ensures group { slot.new.group ≡ slot.old.group }
    {
        slot.park_or_swap(&mut self.items)
    }

    /// Which of its symbols and of its sections are done; their marks are set in a list that has one for every unit, and those that it
    /// has stay.
    pub(crate) fn gather(self, room: &mut Vec<bool>) -> (Marks, Marks)
        requires { AreReached J.lists room.old.items }
        ensures reached { AreReached J.lists room.new.items }
        ensures marks { (n : ℕ) → is_marked room.new.items n ≡ is_marked room.old.items n || is_done self n }
        ensures done { (result.0 ≡ self.symbols) × (result.1 ≡ self.sections) }
    {
        let GroupState {
            group: _,
            active: _,
            items: _,
            symbols,
            sections,
            sent: _,
            of: _,
        } = self;
        symbols.gather(room);
        sections.gather(room);
        (symbols, sections)
    }
}

/// Whether a symbol is asked for that is referred to with flags, by the word that was found.
fn is_asked(flags: ValueFlags, found: u64) -> bool
    ensures { result ≡ is_asked flags found }
{
    flags.0 == 0 || found & u64::from(RESOLUTION) == 0
}
