//! The answer to `gen SEED SIZE`: nothing is read, the link that the words give is laid out on the caller's own thread, and one line is told.

ghost use Rattle.std.specs.Prelude.{◌≤◌, IfOk};
ghost use Rattle.lk_generator.specs.Generated.{generated_link};
ghost use Rattle.lk_layout.specs.Defined.{Gives};
ghost use Rattle.lk_layout.specs.Machines.{small64_machine};
ghost use Rattle.lk_report.specs.Summary.{summary};
ghost use Rattle.lk_run.specs.Run.{TellsDefined, done};

use crate::answer::{Answer, done, refused};
use crate::fault_texts::fault_text;
use lk_compute::compute_alone;
use lk_generator::generate_link;
use lk_layout::{Layout, LayoutError, Small64Arch};
use lk_link::platform::Small64;
use lk_report::summary_text;
use std::alloc::{AllocError, Global};

/// The answer to what was computed of a generated link: the line of its layout, or the text of its fault.
fn sum_up(
    alloc: Global,
    seed: u64,
    size: u32,
    computed: &Result<Layout<'_>, LayoutError>,
) -> Result<Answer, AllocError>
    requires { Gives small64_machine (generated_link seed size) computed.now }
    ensures { IfOk result (TellsDefined (λ link layout. done (summary seed size layout)) (generated_link seed size)) }
{
    match computed {
        Ok(layout) => Ok(done(summary_text(alloc, seed, size, layout)?)),
        Err(LayoutError::NoMemory) => Err(AllocError),
        Err(fault) => Ok(refused(fault_text(alloc, fault)?)),
    }
}

/// The answer of `gen SEED SIZE`.
pub(crate) fn answer_gen(alloc: Global, seed: u64, size: u32) -> Result<Answer, AllocError>
    requires some { 1 ≤ size }
    requires few { size ≤ 100000 }
    ensures { IfOk result (TellsDefined (λ link layout. done (summary seed size layout)) (generated_link seed size)) }
{
    let link = generate_link(alloc, seed, size)?;
    let computed = compute_alone(alloc, &link, &Small64, &Small64Arch);
    let answer = sum_up(alloc, seed, size, &computed);
    drop(computed);
    drop(link);
    answer
}
