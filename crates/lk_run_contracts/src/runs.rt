//! A run, as it is promised.

ghost use Rattle.std.specs.Prelude.{map, string_bytes};
ghost use Rattle.lk_run.specs.MappedRun.{IsMappedRun};
ghost use Rattle.lk_run.specs.Run.{IsRun};
ghost use Rattle.lk_run.specs.RunAlone.{AsksForWorkers};
ghost use Rattle.lk_run.specs.SoundRun.{IsSoundRun};

use lk_link::gate::Gate;
use lk_run::{Sink, Source, Status, run};
use std::alloc::Global;
use std::sync::Wait;
use std::thread::Threads;

/// What `run` of lk_run does.
pub fn run_as_stated<R: Threads + Wait + Sync, S: Source, K: Sink, G: Gate + Sync>(
    rt: &R,
    alloc: Global,
    words: &[String],
    source: &mut S,
    sink: &mut K,
    gate: &G,
) -> Status
    requires gate { AsksForWorkers (map string_bytes words.now) → G.may_enter gate.now }
    ensures run_theorem { IsRun (map string_bytes words.now) (S.state source.old) (S.state source.new)
        (K.state sink.old) (K.state sink.new) result }
    ensures sound { IsSoundRun (map string_bytes words.now) (S.state source.old) (K.state sink.old) (K.state sink.new) result }
    ensures mapped { IsMappedRun (map string_bytes words.now) (S.state source.old) (K.state sink.old) (K.state sink.new) result }
{
    run(rt, alloc, words, source, sink, gate)
}
