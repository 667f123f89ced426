//! What a program over this crate does: it hands over the words that it was started with and its devices, and ends with
//! the number of the run's status. Its `main` is one call.

ghost use Rattle.std.specs.Prelude.{map, string_bytes, MatchResult};
ghost use Rattle.std.specs.Process.{exit_status};
ghost use Rattle.std.specs.Vec.Iter.{into_iter_items};
ghost use Rattle.lk_run.specs.Program.{IsProgramRun, IsStopped};
ghost use Rattle.lk_run.specs.RunAlone.{AsksForWorkers};

use crate::caller::Caller;
use crate::status::Status;
use crate::top_call::run_words;
use crate::words::words_behind_name;
use lk_devices::sink::Sink;
use lk_devices::source::Source;
use lk_link::gate::NoGate;
use std::alloc::Global;
use std::env::Args;
use std::io;
use std::process::ExitCode;
use std::sync::Wait;
use std::thread::Threads;

/// Runs the program with the words behind its name, and gives the exit code of the run. Words that weren't found, for want
/// of memory, end it before it does anything. The process is to end behind it: the description and the layout that `layout` made aren't let go,
/// and stay for the system.
pub fn run_program<R: Threads + Wait + Sync, S: Source, K: Sink>(
    rt: &R,
    alloc: Global,
    args: io::Result<Args>,
    source: &mut S,
    sink: &mut K,
) -> ExitCode
    ensures { MatchResult args
        (λ given. IsProgramRun (map string_bytes (into_iter_items given)) (S.state source.old) (S.state source.new)
        (K.state sink.old) (K.state sink.new) (exit_status result))
        (λ _. IsStopped (S.state source.old) (S.state source.new) (K.state sink.old) (K.state sink.new) (exit_status result)) }
{
    let words = match args {
        Ok(given) => words_behind_name(alloc, given),
        Err(_) => return Status::NoMemory.exit_code(),
    };
    match words {
        Ok(words) => {
            let caller = Caller {
                rt,
                gate: &NoGate,
                is_last: true,
            };
            run_words(&caller, alloc, &words, source, sink).exit_code()
        }
        Err(_) => Status::NoMemory.exit_code(),
    }
}
