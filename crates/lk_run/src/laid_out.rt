//! The answer to `layout N`: the report of the link's layout, or the text of its first refusal.

ghost use Rattle.std.specs.Prelude.{◌≤◌, IfOk};
ghost use Rattle.lk_input.specs.Reading.{reading_of};
ghost use Rattle.lk_layout.specs.Defined.{Gives};
ghost use Rattle.lk_layout.specs.Machines.{small64_machine};
ghost use Rattle.lk_run.specs.Run.{IsAnswerToReading};
ghost use Rattle.lk_run.specs.Steps.{IsMappedAnswer};

use crate::answer::{Answer, done, refused};
use crate::caller::Caller;
use crate::fault_texts::fault_text;
use crate::inputs::{Reading, read_up, read_up_by_workers};
use lk_compute::{compute, compute_alone};
use lk_layout::laws::{laid_out_links_are_well_formed, small64_machine_is_lawful};
use lk_layout::{Layout, LayoutError, Small64Arch};
use lk_link::gate::Gate;
use lk_link::link::LinkInput;
use lk_link::platform::Small64;
use lk_report::{report_text, report_text_by_workers};
use lk_report_maps::values::report_is_map;
use std::alloc::{AllocError, Global};
use std::mem;
use std::sync::Wait;
use std::thread::Threads;

/// The answer to a link of which this was computed: the report of its layout, or the text of its refusal.
fn answer_computed(
    alloc: Global,
    link: &LinkInput,
    computed: &Result<Layout<'_>, LayoutError>,
) -> Result<Answer, AllocError>
    requires { Gives small64_machine link.now computed.now }
    ensures { IfOk result (IsMappedAnswer link.now) }
{
    // Laws, which do nothing: what has a layout is well formed, and the small machine is lawful.
    laid_out_links_are_well_formed();
    small64_machine_is_lawful();
    match computed {
        Ok(layout) => {
            report_is_map(link, layout);
            Ok(done(report_text(alloc, link, layout)?))
        }
        Err(LayoutError::NoMemory) => Err(AllocError),
        Err(fault) => Ok(refused(fault_text(alloc, fault)?)),
    }
}

/// The same, where so many workers make the report.
fn answer_by_workers<R: Threads + Sync>(
    rt: &R,
    alloc: Global,
    link: &LinkInput,
    computed: &Result<Layout<'_>, LayoutError>,
    workers: u32,
) -> Result<Answer, AllocError>
    requires { Gives small64_machine link.now computed.now }
    ensures { IfOk result (IsMappedAnswer link.now) }
{
    // Laws, which do nothing: what has a layout is well formed, and the small machine is lawful.
    laid_out_links_are_well_formed();
    small64_machine_is_lawful();
    match computed {
        Ok(layout) => {
            report_is_map(link, layout);
            Ok(done(report_text_by_workers(rt, alloc, link, layout, workers)?))
        }
        Err(_) => answer_computed(alloc, link, computed),
    }
}

/// Lets something go. Where the process ends behind the run, that is left to the system, which takes all memory at once.
pub(crate) fn let_go<T: Drop>(thing: T, is_last: bool) {
    if is_last {
        mem::forget(thing);
    } else {
        drop(thing);
    }
}

/// The answer of `layout N` to all bytes of the source, by the workers that it asks for.
pub(crate) fn answer_layout<R: Threads + Wait + Sync, G: Gate + Sync>(
    caller: &Caller<'_, R, G>,
    alloc: Global,
    workers: u8,
    bytes: Vec<u8>,
) -> Result<Answer, AllocError>
    requires gate { 2 ≤ workers → G.may_enter caller.now.gate.now }
    ensures { IfOk result (IsAnswerToReading IsMappedAnswer (reading_of bytes.items)) }
{
    let rt = caller.rt;
    match read_up_by_workers(rt, alloc, bytes, workers)? {
        Reading::Link(link) => {
            let workers = u32::from(workers);
            let gate = caller.gate;
            let computed = compute(rt, alloc, &link, &Small64, &Small64Arch, workers, gate);
            let answer = answer_by_workers(rt, alloc, &link, &computed, workers);
            let_go(computed, caller.is_last);
            let_go(link, caller.is_last);
            answer
        }
        Reading::Fault(answer) => Ok(answer),
    }
}

/// The same on the caller's own thread.
pub(crate) fn answer_layout_alone(alloc: Global, bytes: Vec<u8>) -> Result<Answer, AllocError>
    ensures { IfOk result (IsAnswerToReading IsMappedAnswer (reading_of bytes.items)) }
{
    match read_up(alloc, bytes)? {
        Reading::Link(link) => {
            let computed = compute_alone(alloc, &link, &Small64, &Small64Arch);
            let answer = answer_computed(alloc, &link, &computed);
            drop(computed);
            drop(link);
            answer
        }
        Reading::Fault(answer) => Ok(answer),
    }
}
