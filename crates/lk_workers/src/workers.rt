//! Workers, which run groups until none can run, and what is reached by them.

ghost use Rattle.std.specs.Prelude.{◌≡◌, ◌<◌, IfOk};
ghost use Rattle.lk_link.specs.WellFormed.{IsWellFormed};
ghost use Rattle.lk_reach.specs.Marks.{flag_words, handed_in, reached_marks};
ghost use Rattle.lk_workers.specs.Asked.{AreListsOf};
ghost use Rattle.lk_workers.specs.Traversals.{GoesOn};

use crate::traversal::Traversal;
use lk_flags::{FlagPass, Reach};
use lk_link::{Gate, LinkInput};
use std::alloc::{AllocError, Global};
use std::marker::Brand;
use std::sync::Wait;
use std::thread::{Threads, map_vec};

/// Runs groups that can run, one after the other, until none can and no other worker runs one.
fn work<J: Reach, R: Wait, G: Gate>(
    traversal: &Traversal<'_, J>,
    rt: &R,
    pass: FlagPass,
    gate: &G,
) -> FlagPass
    requires own { pass.table ≡ traversal.now.table }
    requires gate { G.may_enter gate.now }
    ensures table { result.table ≡ traversal.now.table }
    ensures parts { result.parts ≡ pass.parts }
{
    let mut pass = pass;
    for _ in rt.forever() {
        let Some(group) = traversal.next(rt) else {
            return pass;
        };
        traversal.run_group(rt, &mut pass, gate, group);
        traversal.finish(rt);
    }
    unreachable!()
}

/// Has so many workers run all groups, and waits for them, of which no clause tells. Answers a pass that has set all that theirs set: it
/// has as many parts as the one that is handed in. With no worker that pass has set nothing more.
#[tactic(auto, using(crate::proofs::GoingOn::joined_on))]
pub fn run_all<J: Reach + Send + Sync, R: Threads + Wait + Sync, G: Gate + Sync>(
    traversal: &Traversal<'_, J>,
    rt: &R,
    alloc: Global,
    pass: FlagPass,
    workers: u32,
    gate: &G,
) -> Result<FlagPass, AllocError>
    requires own { pass.table ≡ traversal.now.table }
    requires parts { workers < pass.parts }
    requires gate { G.may_enter gate.now }
    ensures table { IfOk result (λ p. p.table ≡ traversal.now.table) }
    ensures parts { IfOk result (λ p. p.parts ≡ pass.parts) }
    ensures sets { IfOk result (λ p. GoesOn pass.sets p.sets) }
    ensures idle { workers ≡ 0 → IfOk result (λ p. p.sets ≡ pass.sets) }
{
    if workers == 0 {
        return Ok(pass);
    }
    let mut pass = pass;
    let mut passes = Vec::with_capacity(alloc, workers as usize)?;
    for index in 0..workers {
        let _ = index;
        passes.push(traversal.split(&mut pass))?;
    }
    let passes = map_vec(
        rt,
        passes,
        &|pass: FlagPass| -> FlagPass
            requires { (pass.table ≡ traversal.now.table) × (pass.parts ≡ 1) × G.may_enter gate.now }
            ensures { (result.table ≡ traversal.entry.now.table) × (result.parts ≡ 1) }
        { work(traversal, rt, pass, gate) },
    )?;
    for other in passes {
        traversal.join(&mut pass, other);
    }
    Ok(pass)
}

/// What is reached of a link with these lists, and all flags, found by so many workers, but one for each group at most.
fn walk<J: Reach + Send + Sync, R: Threads + Wait + Sync, G: Gate + Sync>(
    rt: &R,
    alloc: Global,
    link: &LinkInput,
    workers: u32,
    gate: &G,
) -> Result<(Vec<bool>, Vec<u64>), AllocError>
    requires lists { AreListsOf J.lists link.now }
    requires gate { G.may_enter gate.now }
    ensures marks { IfOk result (λ r. r.0.items ≡ J.lists.units) }
    ensures words { IfOk result (λ r. r.1.items ≡ J.lists.words) }
    ensures idle { workers ≡ 0 → IfOk result (λ r. r.1.items ≡ J.lists.handed) }
{
    let (traversal, pass) = Traversal::<J>::new(alloc, link)?;
    // A group is run by one worker at a time, so more than there are groups would only wait.
    let groups = u32::try_from(link.groups.len()).unwrap_or(u32::MAX);
    let pass = run_all(&traversal, rt, alloc, pass, workers.min(groups), gate)?;
    let (closed, _opened) = traversal.close(pass);
    match closed.into_whole(rt, alloc, link, workers)? {
        Some(found) => Ok(found),
        None => Err(AllocError),
    }
}

/// What is reached of a link: for each unit whether it is, and behind a spare word the flags of each symbol. How that is found no clause
/// says: by so many workers, but one for each group at most, each on a thread where one can be made, of which the caller's is one, which enter the
/// gate before each step. A worker that finds no memory gives up what it was about to do, and goes on; where anything is open at the end, the answer is that
/// memory ran out. So it is with no worker where anything is asked for; of that a clause says that then it answers `Ok` only where all
/// flags are those that are handed in (libwild: `traverse_reference_graph`).
pub fn walk_by_workers<R: Threads + Wait + Sync, G: Gate + Sync>(
    rt: &R,
    alloc: Global,
    link: &LinkInput,
    workers: u32,
    gate: &G,
) -> Result<(Vec<bool>, Vec<u64>), AllocError>
    requires well_formed { IsWellFormed link.now }
    requires gate { G.may_enter gate.now }
    ensures marks { IfOk result (λ r. r.0.items ≡ reached_marks link.now) }
    ensures words { IfOk result (λ r. r.1.items ≡ flag_words link.now) }
    ensures idle { workers ≡ 0 → IfOk result (λ r. r.1.items ≡ handed_in link.now) }
{
    walk::<Brand, R, G>(rt, alloc, link, workers, gate)
}
