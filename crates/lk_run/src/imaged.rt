//! The answer to `image N`: the bytes of the output file that the link's layout tells, or why there are none.

ghost use Rattle.std.specs.Prelude.{◌≡◌, ◌≢◌, ◌≤◌, ◌++◌, codes, string_bytes, IfOk, Ok};
ghost use Rattle.lk_image.specs.declared.error.ImageError.TheVariants as image_error;
ghost use Rattle.lk_image.specs.Texts.{error_text};
ghost use Rattle.lk_input.specs.Reading.{reading_of};
ghost use Rattle.lk_layout.specs.Defined.{Gives};
ghost use Rattle.lk_layout.specs.Machines.{small64_machine};
ghost use Rattle.lk_run.specs.Run.{IsAnswerToReading, TellsDefined, image_told};

use crate::answer::{Answer, done_with, refused};
use crate::caller::Caller;
use crate::fault_texts::fault_text;
use crate::inputs::{Reading, read_up, read_up_by_workers};
use crate::laid_out::let_go;
use lk_compute::{compute, compute_alone};
use lk_image::{ImageError, write_image};
use lk_layout::laws::small64_machine_is_lawful;
use lk_layout::{Layout, LayoutError, Small64Arch};
use lk_link::gate::Gate;
use lk_link::link::LinkInput;
use lk_link::platform::Small64;
use std::alloc::{AllocError, Global};
use std::sync::Wait;
use std::thread::Threads;

/// The line that tells why a layout has no image, for each reason but want of memory.
fn no_image_line(alloc: Global, fault: &ImageError) -> Result<String, AllocError>
    requires { fault.now ≢ image_error.NoMemory }
    ensures { IfOk result (λ text. string_bytes text ≡ error_text fault.now ++ codes "\n") }
{
    format!(in alloc; "{fault}\n")
}

/// The answer to a layout: its image, or why it has none.
fn answer_layout(alloc: Global, link: &LinkInput, layout: &Layout<'_>) -> Result<Answer, AllocError>
    requires { Gives small64_machine link.now (Ok layout.now) }
    ensures { IfOk result (λ answer. answer ≡ image_told link.now layout.now) }
{
    // A law, which does nothing.
    small64_machine_is_lawful();
    match write_image(alloc, link, layout) {
        Ok(image) => Ok(done_with(image)),
        Err(ImageError::NoMemory) => Err(AllocError),
        Err(fault) => Ok(refused(no_image_line(alloc, &fault)?)),
    }
}

/// The answer to a link of which this was computed.
fn answer_computed(
    alloc: Global,
    link: &LinkInput,
    computed: &Result<Layout<'_>, LayoutError>,
) -> Result<Answer, AllocError>
    requires { Gives small64_machine link.now computed.now }
    ensures { IfOk result (TellsDefined image_told link.now) }
{
    match computed {
        Ok(layout) => answer_layout(alloc, link, layout),
        Err(LayoutError::NoMemory) => Err(AllocError),
        Err(fault) => Ok(refused(fault_text(alloc, fault)?)),
    }
}

/// The answer of `image N` to all bytes of the source, which are let go before anything is laid out, by the workers that it asks for.
pub(crate) fn answer_image<R: Threads + Wait + Sync, G: Gate + Sync>(
    caller: &Caller<'_, R, G>,
    alloc: Global,
    workers: u8,
    bytes: Vec<u8>,
) -> Result<Answer, AllocError>
    requires gate { 2 ≤ workers → G.may_enter caller.now.gate.now }
    ensures { IfOk result (IsAnswerToReading (TellsDefined image_told) (reading_of bytes.items)) }
{
    let rt = caller.rt;
    match read_up_by_workers(rt, alloc, bytes, workers)? {
        Reading::Link(link) => {
            let workers = u32::from(workers);
            let gate = caller.gate;
            let computed = compute(rt, alloc, &link, &Small64, &Small64Arch, workers, gate);
            let answer = answer_computed(alloc, &link, &computed);
            let_go(computed, caller.is_last);
            let_go(link, caller.is_last);
            answer
        }
        Reading::Fault(answer) => Ok(answer),
    }
}

/// The same on the caller's own thread.
pub(crate) fn answer_image_alone(alloc: Global, bytes: Vec<u8>) -> Result<Answer, AllocError>
    ensures { IfOk result (IsAnswerToReading (TellsDefined image_told) (reading_of bytes.items)) }
{
    match read_up(alloc, bytes)? {
        Reading::Link(link) => {
            let computed = compute_alone(alloc, &link, &Small64, &Small64Arch);
            let answer = answer_computed(alloc, &link, &computed);
            drop(computed);
            drop(link);
            answer
        }
        Reading::Fault(answer) => Ok(answer),
    }
}
