//! What others leave for a group, and what was left.

ghost use Rattle.std.specs.Prelude.{◌≡◌, ◌++◌, ◌∷◌, [], false, IfErr, IfOk, List, MatchBool, OnErr, OnOk};
ghost use Rattle.std.specs.Borrow.{ftrue};
ghost use Rattle.lk_slots.specs.Machine.{Parks, Receives, Swaps};
ghost use Rattle.lk_workers.specs.Items.{AreOwn, IsOwn, machine_item, machine_items, slot_of};
ghost use Rattle.lk_workers.specs.declared.work.WorkItem.{WorkItem};

use crate::work::{LocalWorkQueue, WorkItem};
use lk_flags::Reach;
use std::alloc::{AllocError, AllocFailed, Global};
use std::marker::{Model, PhantomData};
use std::mem;

/// The items that a group's steps noted as left for others, in order. It exists in proofs alone; that it takes no bytes no
/// clause says. Only `WorkerSlot::deposit` adds to it, once for each, by a call that no other module has.
#[derive(Drop)]
pub struct Sent {
    ghost items: { List WorkItem },
}

impl Model for Sent {
    ghost also_owns = { λ _. ftrue };
}

// It owns nothing.
unsafe impl Send for Sent {}

impl Sent {
    /// Nothing was left.
    pub fn new() -> Sent
        ensures { result.items ≡ [] }
    {
        Sent {}
    }

    /// The same items, and one more.
    fn and(&self, _item: &WorkItem) -> Sent
        ensures { result.items ≡ self.now.items ++ _item.now ∷ [] }
    {
        Sent {}
    }
}

/// A group's slot: whether the group is parked, and what others left for it. A parked group has nothing waiting, and all that waits is
/// the group's own and there is reason for it. In a traversal it lies behind a lock (libwild: `WorkerSlot`).
#[derive(Drop)]
pub struct WorkerSlot<J: Reach> {
    group: u32,
    parked: bool,
    work: Vec<WorkItem>,
    of: PhantomData<J>,
}

impl<J: Reach> Model for WorkerSlot<J> {
    ghost use Rattle.std.specs.Prelude.{◌≡◌, true, []};
    ghost use Rattle.lk_workers.specs.Items.{AreOwn, SlotValue};

    ghost Value = { SlotValue };

    ghost view = { λ a. record { group = a.group; parked = a.parked; work = a.work.items } };

    ghost invariant = { λ a. (a.parked ≡ true → a.work.items ≡ []) × AreOwn J.lists a.group a.work.items };
}

impl<J: Reach> WorkerSlot<J> {
    /// The slot of a group that isn't parked, in which nothing waits; takes no memory.
    pub fn new(alloc: Global, group: u32) -> WorkerSlot<J>
        ensures { result ≡ record { group = group; parked = false; work = [] } }
    {
        WorkerSlot {
            group,
            parked: false,
            work: Vec::new(alloc),
            of: PhantomData,
        }
    }

    /// The group whose slot it is.
    pub fn group(&self) -> u32
        ensures { result ≡ self.now.group }
    {
        self.group
    }

    /// Leaves an item for the group, which isn't parked any more, and answers whether it was. Without memory the item comes back, and
    /// the slot stays as it is (libwild: `send_work`).
    pub fn send_work(&mut self, item: WorkItem) -> Result<bool, (WorkItem, AllocError)>
        requires own { IsOwn J.lists self.old.group item }
        ensures sent { IfOk result (λ was. (was ≡ self.old.parked) × Receives (machine_item J.lists.groups item) (slot_of J.lists.groups self.old) (slot_of J.lists.groups self.new)) }
        ensures kept { IfErr result (λ e. (e.0 ≡ item) × (self.new ≡ self.old)) }
        ensures group { self.new.group ≡ self.old.group }
    {
        if let Err(failed) = self.work.push(item) {
            let AllocFailed { value } = failed;
            return Err((value, AllocError));
        }
        let was_parked = self.parked;
        self.parked = false;
        Ok(was_parked)
    }

    /// Does the same with an item of a group's steps, and adds it to what these sent. Without memory the item is given up, and all stays
    /// as it is.
    pub(crate) fn deposit(&mut self, item: WorkItem, sent: &mut Sent) -> Result<bool, AllocError>
        requires own { IsOwn J.lists self.old.group item }
        ensures left { IfOk result (λ was. (was ≡ self.old.parked) × Receives (machine_item J.lists.groups item) (slot_of J.lists.groups self.old) (slot_of J.lists.groups self.new)) }
        ensures noted { OnOk result (sent.new.items ≡ sent.old.items ++ item ∷ []) }
        ensures kept { OnErr result ((self.new ≡ self.old) × (sent.new.items ≡ sent.old.items)) }
        ensures group { self.new.group ≡ self.old.group }
    {
        let longer = sent.and(&item);
        match self.send_work(item) {
            Ok(was_parked) => {
                *sent = longer;
                Ok(was_parked)
            }
            Err((_item, error)) => Err(error),
        }
    }

    /// Parks the group where nothing waits for it; else what waits becomes its own list. Takes no memory.
    pub fn park_or_swap(&mut self, items: &mut LocalWorkQueue) -> bool
        requires empty { items.old ≡ [] }
        ensures goes { MatchBool result
            (Parks (slot_of J.lists.groups self.old) (slot_of J.lists.groups self.new) × (items.new ≡ []))
            (Swaps (machine_items J.lists.groups items.old) (machine_items J.lists.groups items.new) (slot_of J.lists.groups self.old) (slot_of J.lists.groups self.new)) }
        ensures own { AreOwn J.lists self.old.group items.new }
        ensures group { self.new.group ≡ self.old.group }
    {
        if self.work.is_empty() {
            self.parked = true;
            return true;
        }
        mem::swap(&mut self.work, &mut items.items);
        false
    }
}
