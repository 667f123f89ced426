//! The traversal of a link, on the caller's own thread or by workers.

ghost use Rattle.std.specs.Prelude.{◌≤◌};
ghost use Rattle.lk_link.specs.WellFormed.{IsWellFormed};
ghost use Rattle.lk_live.specs.Reach.{GivesLive};
ghost use Rattle.lk_reach.specs.Marks.{IsWalked};

use crate::faults_by_groups::reference_faults_by_groups;
use lk_link::{Gate, LinkInput};
use lk_live::traversal::live_unless;
use lk_live::{GcError, Live, traverse_alone};
use lk_reach::Walk;
use lk_workers::walk_by_workers;
use std::alloc::Global;
use std::sync::Wait;
use std::thread::Threads;

/// What is live of a link, where no reference is at fault; else all that are, as `traverse_alone` tells them; or memory ran out. With 0
/// or 1 workers the gate isn't called, and no leave to enter it is asked for (libwild: `traverse_reference_graph`).
///
/// How that is found no clause says. With 0 or 1 workers it is on the caller's own thread. Others have a thread each, of which the
/// caller's is one, or run one after the other where none can be made; the caller waits for all: one takes a group of files that can run and goes on with it until nothing is left to do there; what other groups
/// have to do is left in their slots, and a group that was left something can run again. The gate is entered before each step. A
/// worker that finds no memory gives up what it was about to do and goes on; where an ask is open at the end, the answer is that memory
/// ran out. Behind them
/// references at fault are looked for group by group, in two pieces for each processor, 64 at most, whatever the number of workers. That takes
/// what `Traversal::new` takes, and what waits for groups; then a byte for each symbol, and what is at fault, twice while the lists of
/// groups are joined.
pub fn traverse<R: Threads + Wait + Sync, G: Gate + Sync>(
    rt: &R,
    alloc: Global,
    link: &LinkInput,
    workers: u32,
    gate: &G,
) -> Result<Live, GcError>
    requires well_formed { IsWellFormed link.now }
    requires gate { 2 ≤ workers → G.may_enter gate.now }
    ensures { GivesLive link.now result }
{
    if workers < 2 {
        return traverse_alone(alloc, link);
    }
    let (marks, words) = walk_by_workers(rt, alloc, link, workers, gate)?;
    let walk = Walk::of_parts(alloc, marks, words);
    live_of_by_groups(rt, alloc, link, &walk)
}

/// What is live after a walk over all that is reached, where no reference is at fault; else all that are, which are looked for
/// group by group.
fn live_of_by_groups<R: Threads + Sync>(
    rt: &R,
    alloc: Global,
    link: &LinkInput,
    walk: &Walk,
) -> Result<Live, GcError>
    requires well_formed { IsWellFormed link.now }
    requires walked { IsWalked link.now walk.now }
    ensures { GivesLive link.now result }
{
    let faults = reference_faults_by_groups(rt, alloc, link, walk.marks.as_slice())?;
    live_unless(alloc, link, walk, faults)
}
