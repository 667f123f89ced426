//! What is asked for and reached, how flags are set, and how a group is parked, as they are promised.

ghost use Rattle.std.specs.Prelude.{◌≡◌, ◌<◌, ◌++◌, ◌∷◌, [], IfOk, MatchBool, length};
ghost use Rattle.std.specs.List.{slice_index};
ghost use Rattle.lk_flags.specs.Flags.{IsFound, Within};
ghost use Rattle.lk_link.specs.WellFormed.{IsWellFormed};
ghost use Rattle.lk_reach.specs.Marks.{IsWalked};
ghost use Rattle.lk_reach.specs.Units.{follows};
ghost use Rattle.lk_slots.specs.Machine.{Parks, Swaps};
ghost use Rattle.lk_workers.specs.Items.{AreOwn, machine_items, slot_of};

use lk_flags::{FlagPass, FlagTable, Reach};
use lk_link::LinkInput;
use lk_reach::{Ask, Unit, Walk, successors};
use lk_workers::{LocalWorkQueue, WorkerSlot};
use std::alloc::{AllocError, Global};

/// What `successors` of lk_reach lends, in a list.
pub fn successors_as_stated(
    alloc: Global,
    link: &LinkInput,
    unit: Unit,
) -> Result<Vec<Ask>, AllocError>
    requires { IsWellFormed link.now }
    ensures { IfOk result (λ asks. asks.items ≡ follows link.now unit) }
{
    successors(link, unit).collect(alloc)
}

/// What `Walk::over` of lk_reach does.
pub fn walk_as_stated(alloc: Global, link: &LinkInput) -> Result<Walk, AllocError>
    requires { IsWellFormed link.now }
    ensures { IfOk result (IsWalked link.now) }
{
    Walk::over(alloc, link)
}

/// What `park_or_swap` of lk_workers does. It has no use for the allocator, but a wrong body has.
pub fn park_or_swap_as_stated<J: Reach>(
    _alloc: Global,
    slot: &mut WorkerSlot<J>,
    items: &mut LocalWorkQueue,
) -> bool
    requires { items.old ≡ [] }
    ensures goes { MatchBool result
        (Parks (slot_of J.lists.groups slot.old) (slot_of J.lists.groups slot.new) × (items.new ≡ []))
        (Swaps (machine_items J.lists.groups items.old) (machine_items J.lists.groups items.new) (slot_of J.lists.groups slot.old) (slot_of J.lists.groups slot.new)) }
    ensures own { AreOwn J.lists slot.old.group items.new }
    ensures group { slot.new.group ≡ slot.old.group }
{
    slot.park_or_swap(items)
}

/// What `set` of lk_flags does.
pub fn set_as_stated<J: Reach>(
    table: &FlagTable<J>,
    pass: &mut FlagPass,
    word: usize,
    bits: u64,
) -> u64
    requires own { pass.old.table ≡ table.now }
    requires place { word < length J.lists.words }
    requires bounded { Within bits (slice_index J.lists.words word) }
    ensures table { pass.new.table ≡ pass.old.table }
    ensures parts { pass.new.parts ≡ pass.old.parts }
    ensures sets { pass.new.sets ≡ pass.old.sets ++ record { word = word; bits = bits; found = result } ∷ [] }
    ensures found { IsFound J.lists.handed J.lists.words pass.old.sets word result }
{
    table.set(pass, word, bits)
}
