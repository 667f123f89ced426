//! Workers by their own calls: groups that run in turn, what the slot of a group answers, two workers in lock step, and a walk by none.

ghost use Rattle.std.specs.Prelude.{◌≡◌, IfOk, Some};
ghost use Rattle.lk_link.specs.WellFormed.{IsWellFormed};
ghost use Rattle.lk_reach.specs.declared.units.Unit.TheVariants.{Sym};
ghost use Rattle.lk_slot_link.specs.LinkGraphs.{unit_group};
ghost use Rattle.lk_workers.specs.Asked.{AreListsOf};
ghost use Rattle.lk_workers.specs.Items.{IsOwn};
ghost use Rattle.lk_workers.specs.declared.work.WorkItem.TheVariants.{LoadGlobalSymbol};

use crate::rows::{Asked, expect_rows};
use crate::traversal::OfTraversal;
use lk_check::check_link;
use lk_flags::{FlagPass, Reach};
use lk_gc::{GcError, traverse};
use lk_link::marks::is_marked;
use lk_link::{LinkInput, NoGate, SymbolId};
use lk_reach::{Unit, Walk};
use lk_test_rows::{LockStep, add};
use lk_workers::{Closed, LocalWorkQueue, Traversal, WorkItem, WorkerSlot, walk_by_workers};
use std::alloc::{AllocError, Global};
use std::marker::Brand;
use std::sync::Wait;
use std::test::Fail;
use std::thread::Threads;

/// Whether each group is closed once all ran in turn, as often as there are units, and whether what was done by then, with its
/// flags, is what one thread finds; and what the slot of the first symbol's group answers: parked, left something twice, not
/// parked with that, parked without it.
const TURNS: &str = r#"
@ {"plan":{"page":16,"sections":[{"attrs":1,"parts":[[1,false]]}],"events":[["sec",0]]},"groups":[[{"kind":"prelude"}],...}
[{"kind":"object","symbols":[{"at":["sec",0,0]},{"at":["sec",1,1]}],"sections":[{"slot":"must","size":3,"relocs":[[0,"Absolute",1,0,false]]},{"slot":"unloaded","size":5,"relocs":[[0,"Absolute",0,0,false]]},{"slot":"unloaded"}]}]] => closed true closed true whole true alike true parked true left Some(true) left Some(false) parked false item Some(LoadGlobalSymbol(SymbolId { number: 0 })) item Some(LoadGlobalSymbol(SymbolId { number: 0 })) parked true
# Groups that ask each other in a circle, and one that nothing asks.
[{"kind":"object","symbols":[{"at":["sec",0,0]},{"at":["undef"],"def":2}],"sections":[{"slot":"must","size":1,"relocs":[[0,"Absolute",1,0,false]]}]}],[{"kind":"object","symbols":[{"at":["sec",0,0]},{"at":["undef"],"def":4}],"sections":[{"slot":"unloaded","size":1,"relocs":[[0,"Absolute",1,0,false]]}]}],[{"kind":"object","symbols":[{"at":["sec",0,0]},{"at":["undef"],"def":0}],"sections":[{"slot":"unloaded","size":1,"relocs":[[0,"SymbolSize",1,0,false],[0,"Absolute",1,0,false]]}]}],[{"kind":"object","symbols":[{"at":["sec",0,0]}],"sections":[{"slot":"unloaded","size":1}]}],[]] => closed true closed true closed true closed true closed true closed true whole true alike true parked true left Some(true) left Some(false) parked false item Some(LoadGlobalSymbol(SymbolId { number: 0 })) item Some(LoadGlobalSymbol(SymbolId { number: 0 })) parked true
"#;

/// How many sections are live, and whether both took all their turns, where each of two waits before each turn until
/// the other has had as many.
const LOCK_STEP: &str = r#"
{"plan":{"page":16,"sections":[{"attrs":1,"parts":[[1,false]]}],"events":[["sec",0]]},"groups":[[{"kind":"prelude"}],[{"kind":"object","sections":[«100 of {"slot":"must"}»]}],[{"kind":"object","sections":[«100 of {"slot":"must"}»]}]]} => live 200 in step true
"#;

/// Whether no, one and four workers answer what is reached: none does where anything is asked for, since nothing is done then.
const WALKS: &str = r#"
@ {"plan":{"page":16,"sections":[{"attrs":1,"parts":[[1,false]]}],"events":[["sec",0]]},"groups":[[{"kind":"prelude"}],[...]]}
{"kind":"object","sections":[{"slot":"must","size":1}]} => workers 0 answer false workers 1 answer true workers 4 answer true
{"kind":"object","sections":[{"slot":"unloaded","size":1}]} => workers 0 answer true workers 1 answer true workers 4 answer true
"#;

/// Runs so many groups, one after the other.
fn run_groups<J: Reach>(
    traversal: &Traversal<'_, J>,
    rt: &impl Wait,
    pass: &mut FlagPass,
    groups: u32,
)
    requires { pass.old.table ≡ traversal.now.table }
    ensures { pass.new.table ≡ pass.old.table }
{
    for group in 0..groups {
        traversal.run_group(rt, pass, &NoGate, group);
    }
}

/// What a link comes to whose groups ran in turn, as often as there are units.
fn closed_after<J: Reach>(
    rt: &impl Wait,
    alloc: Global,
    link: &LinkInput,
) -> Result<Closed<J>, AllocError>
    requires { AreListsOf J.lists link.now }
{
    let groups = u32::try_from(link.groups.len()).unwrap_or(0);
    let (traversal, mut pass) = Traversal::<J>::new(alloc, link)?;
    for _ in 0..link.groups.symbol_count() {
        run_groups(&traversal, rt, &mut pass, groups);
    }
    for _ in 0..link.groups.input_count() {
        run_groups(&traversal, rt, &mut pass, groups);
    }
    let (closed, _opened) = traversal.close(pass);
    Ok(closed)
}

/// Adds whether each group is closed, and whether what is done, with its flags, is what one thread finds.
fn add_closed<J: Reach>(
    alloc: Global,
    line: &mut String,
    link: &LinkInput,
    closed: &Closed<J>,
) -> Result<(), AllocError>
    requires { AreListsOf J.lists link.now }
{
    for group in 0..u32::try_from(link.groups.len()).unwrap_or(0) {
        add(line, "closed", &closed.is_closed(link, group))?;
    }
    add(line, "whole", &closed.is_whole(link))?;
    let walk = Walk::over(alloc, link)?;
    let alike = closed.done() == walk.marks.as_slice() && closed.words() == walk.words.as_slice();
    add(line, "alike", &alike)
}

/// The group of the first symbol.
fn first_group<J: Reach>(alloc: Global, link: &LinkInput) -> Result<u32, AllocError>
    requires { AreListsOf J.lists link.now }
    ensures { IfOk result (λ g. unit_group J.lists.groups (Some (Sym 0)) ≡ g) }
{
    let (traversal, _pass) = Traversal::<J>::new(alloc, link)?;
    Ok(traversal.group_of(Unit::Sym(SymbolId::from_u32(0))))
}

/// Adds what a slot answers that is left the first symbol.
fn add_left<J: Reach>(line: &mut String, slot: &mut WorkerSlot<J>) -> Result<(), AllocError>
    requires own { IsOwn J.lists slot.old.group (LoadGlobalSymbol 0) }
    ensures group { slot.new.group ≡ slot.old.group }
{
    let item = WorkItem::LoadGlobalSymbol(SymbolId::from_u32(0));
    let left = match slot.send_work(item) {
        Ok(was_parked) => Some(was_parked),
        Err((_item, _error)) => None,
    };
    add(line, "left", &left)
}

/// Adds what the slot of the first symbol's group answers: parked, left the symbol twice, and asked to park with what was left and
/// without it.
fn add_slot<J: Reach>(alloc: Global, line: &mut String, group: u32) -> Result<(), AllocError>
    requires { IsOwn J.lists group (LoadGlobalSymbol 0) }
{
    let mut items = LocalWorkQueue::new(alloc);
    let mut slot = WorkerSlot::<J>::new(alloc, group);
    add(line, "parked", &slot.park_or_swap(&mut items))?;
    let mut items = LocalWorkQueue::new(alloc);
    add_left(line, &mut slot)?;
    add_left(line, &mut slot)?;
    add(line, "parked", &slot.park_or_swap(&mut items))?;
    add(line, "item", &items.pop())?;
    add(line, "item", &items.pop())?;
    if items.is_empty() {
        add(line, "parked", &slot.park_or_swap(&mut items))?;
    }
    Ok(())
}

/// Adds what the slot of the first symbol's group answers, if that symbol is reached.
fn add_first_slot<J: Reach>(
    alloc: Global,
    line: &mut String,
    link: &LinkInput,
) -> Result<(), AllocError>
    requires { AreListsOf J.lists link.now }
{
    let walk = Walk::over(alloc, link)?;
    if link.groups.symbol_count() == 0 || !is_marked(walk.marks.as_slice(), 0) {
        return Ok(());
    }
    let group = first_group::<J>(alloc, link)?;
    add_slot::<J>(alloc, line, group)
}

/// Adds what groups come to that run in turn, and what a slot answers.
fn add_turns<J: Reach>(
    rt: &impl Wait,
    alloc: Global,
    line: &mut String,
    link: &LinkInput,
) -> Result<(), AllocError>
    requires { AreListsOf J.lists link.now }
{
    let closed = closed_after::<J>(rt, alloc, link)?;
    add_closed(alloc, line, link, &closed)?;
    add_first_slot::<J>(alloc, line, link)
}

/// The same with the lists of the link.
fn add_own_turns<R: Wait>(
    rt: &R,
    alloc: Global,
    line: &mut String,
    link: &LinkInput,
) -> Result<(), AllocError>
    requires { IsWellFormed link.now }
{
    add_turns::<Brand>(rt, alloc, line, link)
}

/// How many marks are set.
fn set_in(marks: &[bool]) -> usize {
    let mut count = 0usize;
    for mark in marks {
        if *mark {
            count = count.saturating_add(1);
        }
    }
    count
}

/// Adds how many sections are live by what two workers find in lock step, and whether both took all their turns.
fn add_lock_step(
    rt: &(impl Threads + Wait + Sync),
    alloc: Global,
    line: &mut String,
    link: &LinkInput,
) -> Result<(), AllocError>
    requires { IsWellFormed link.now }
{
    let gate = LockStep::new();
    match traverse(rt, alloc, link, 2, &gate) {
        Ok(live) => add(line, "live", &set_in(live.marks.as_slice()))?,
        Err(GcError::References(faults)) => add(line, "faults", &faults.as_slice())?,
        Err(GcError::NoMemory) => return Err(AllocError),
    }
    add(line, "in step", &gate.was_kept())
}

/// Adds whether so many workers answer what is reached of a link.
fn add_walk(
    rt: &(impl Threads + Wait + Sync),
    alloc: Global,
    line: &mut String,
    link: &LinkInput,
    workers: u32,
) -> Result<(), AllocError>
    requires { IsWellFormed link.now }
{
    let walked = walk_by_workers(rt, alloc, link, workers, &NoGate);
    add(line, "workers", &workers)?;
    add(line, "answer", &walked.is_ok())
}

/// Adds whether no, one and four workers answer what is reached.
fn add_all_walks(
    rt: &(impl Threads + Wait + Sync),
    alloc: Global,
    line: &mut String,
    link: &LinkInput,
) -> Result<(), AllocError>
    requires { IsWellFormed link.now }
{
    add_walk(rt, alloc, line, link, 0)?;
    add_walk(rt, alloc, line, link, 1)?;
    add_walk(rt, alloc, line, link, 4)
}

/// Adds what groups come to that run in turn, of a link that is well formed.
pub fn add_by_turns(
    rt: &impl Wait,
    alloc: Global,
    line: &mut String,
    link: &LinkInput,
) -> Result<(), AllocError> {
    if check_link(link).is_err() {
        return Ok(());
    }
    add_own_turns(rt, alloc, line, link)
}

/// Adds what two workers find in lock step in a link that is well formed.
pub fn add_in_lock_step(
    rt: &(impl Threads + Wait + Sync),
    alloc: Global,
    line: &mut String,
    link: &LinkInput,
) -> Result<(), AllocError> {
    if check_link(link).is_err() {
        return Ok(());
    }
    add_lock_step(rt, alloc, line, link)
}

/// Adds whether so many workers answer what is reached of a link that is well formed.
pub fn add_walks(
    rt: &(impl Threads + Wait + Sync),
    alloc: Global,
    line: &mut String,
    link: &LinkInput,
) -> Result<(), AllocError> {
    if check_link(link).is_err() {
        return Ok(());
    }
    add_all_walks(rt, alloc, line, link)
}

#[test]
fn groups_run_in_turn(rt: HostRuntime) -> Result<(), Fail> {
    expect_rows(&rt, rt.alloc(), Asked::Traversal(OfTraversal::Turns), TURNS)
}

#[test]
fn two_workers_run_in_lock_step(rt: HostRuntime) -> Result<(), Fail> {
    expect_rows(
        &rt,
        rt.alloc(),
        Asked::Traversal(OfTraversal::LockStep),
        LOCK_STEP,
    )
}

#[test]
fn no_worker_finds_nothing(rt: HostRuntime) -> Result<(), Fail> {
    expect_rows(&rt, rt.alloc(), Asked::Traversal(OfTraversal::Walks), WALKS)
}
