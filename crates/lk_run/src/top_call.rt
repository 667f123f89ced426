//! The top call: words and an input in, the answer of the command that the words are out.
//!
//! A command that reads its source reads it to the end, or up to one byte past the longest input. A run makes the whole answer, and only
//! then writes: so want of memory and a failing source leave the sink as it was.

ghost use Rattle.std.specs.Prelude.{◌≡◌, ◌↔◌, ◌≤◌, map, string_bytes, IfOk, IsTrue};
ghost use Rattle.lk_run.specs.MappedRun.{IsMappedRun};
ghost use Rattle.lk_run.specs.Run.{IsRun};
ghost use Rattle.lk_run.specs.RunAlone.{AsksForWorkers, IsRunAlone};
ghost use Rattle.lk_run.specs.SoundRun.{IsSoundRun};
ghost use Rattle.lk_run.specs.Steps.{CanBeAsked, held_by, IsCommandRun, IsMadeFor, IsMadeOf, IsMadeTold, IsMappedCommand, IsToldBy, IsUsageRun};
ghost use Rattle.lk_run.specs.Words.{workers_for};

use crate::answer::Answer;
use crate::caller::Caller;
use crate::checked_map::answer_check;
use crate::explained::answer_why;
use crate::generated::answer_gen;
use crate::imaged::{answer_image, answer_image_alone};
use crate::inputs::{CommandInput, answer_too_long, read_for};
use crate::laid_out::{answer_layout, answer_layout_alone};
use crate::laws::runs_are_sound;
use crate::status::Status;
use crate::words::{Command, read_words, usage_text};
use lk_devices::sink::Sink;
use lk_devices::source::Source;
use lk_devices::transfer::write_all;
use lk_link::gate::Gate;
use std::alloc::{AllocError, Global};
use std::sync::Wait;
use std::thread::Threads;

/// The answer of a command to all bytes of its source.
fn answer_bytes<R: Threads + Wait + Sync, G: Gate + Sync>(
    caller: &Caller<'_, R, G>,
    alloc: Global,
    command: Command,
    bytes: Vec<u8>,
) -> Result<Answer, AllocError>
    requires gate { 2 ≤ workers_for command → G.may_enter caller.now.gate.now }
    requires asked { CanBeAsked command }
    ensures { IfOk result (IsMadeOf command bytes.items) }
{
    match command {
        Command::Layout(workers) => answer_layout(caller, alloc, workers, bytes),
        Command::Gen { seed, size } => answer_gen(alloc, seed, size),
        Command::Why { file, index } => answer_why(alloc, file, index, bytes),
        Command::Check => answer_check(alloc, bytes),
        Command::Image(workers) => answer_image(caller, alloc, workers, bytes),
    }
}

/// The same on the caller's own thread, however many workers the command asks for.
fn answer_bytes_alone(alloc: Global, command: Command, bytes: Vec<u8>) -> Result<Answer, AllocError>
    requires { CanBeAsked command }
    ensures { IfOk result (IsMadeOf command bytes.items) }
{
    match command {
        Command::Layout(_) => answer_layout_alone(alloc, bytes),
        Command::Gen { seed, size } => answer_gen(alloc, seed, size),
        Command::Why { file, index } => answer_why(alloc, file, index, bytes),
        Command::Check => answer_check(alloc, bytes),
        Command::Image(_) => answer_image_alone(alloc, bytes),
    }
}

/// The answer of a command to what its source was found to hold.
fn answer<R: Threads + Wait + Sync, G: Gate + Sync>(
    caller: &Caller<'_, R, G>,
    alloc: Global,
    command: Command,
    input: CommandInput,
) -> Result<Answer, AllocError>
    requires gate { 2 ≤ workers_for command → G.may_enter caller.now.gate.now }
    requires asked { CanBeAsked command }
    ensures { IfOk result (IsMadeFor command (held_by input)) }
{
    match input {
        CommandInput::Bytes(bytes) => answer_bytes(caller, alloc, command, bytes),
        CommandInput::TooLong => answer_too_long(alloc),
    }
}

/// The same on the caller's own thread.
fn answer_alone(alloc: Global, command: Command, input: CommandInput) -> Result<Answer, AllocError>
    requires { CanBeAsked command }
    ensures { IfOk result (IsMadeFor command (held_by input)) }
{
    match input {
        CommandInput::Bytes(bytes) => answer_bytes_alone(alloc, command, bytes),
        CommandInput::TooLong => answer_too_long(alloc),
    }
}

/// Writes the bytes of an answer: its status, or that the sink failed.
fn write_answer<K: Sink>(sink: &mut K, answer: &Answer) -> Status
    ensures { IsToldBy result answer.now (K.state sink.old) (K.state sink.new) }
{
    match write_all(sink, answer.bytes.as_slice()) {
        Ok(()) => answer.status,
        Err(_) => Status::WriteFault,
    }
}

/// Writes an answer, if memory didn't run out over it.
fn write_made<K: Sink>(answer: Result<Answer, AllocError>, sink: &mut K) -> Status
    ensures { IsMadeTold answer result (K.state sink.old) (K.state sink.new) }
{
    match answer {
        Ok(answer) => write_answer(sink, &answer),
        Err(_) => Status::NoMemory,
    }
}

/// Runs a command.
fn run_command<R: Threads + Wait + Sync, S: Source, K: Sink, G: Gate + Sync>(
    caller: &Caller<'_, R, G>,
    alloc: Global,
    command: Command,
    source: &mut S,
    sink: &mut K,
) -> Status
    requires gate { 2 ≤ workers_for command → G.may_enter caller.now.gate.now }
    requires asked { CanBeAsked command }
    ensures run { IsCommandRun command (S.state source.old) (S.state source.new) (K.state sink.old) (K.state sink.new) result }
    ensures mapped { IsMappedCommand command (S.state source.old) (K.state sink.old) (K.state sink.new) result }
{
    match read_for(alloc, command, source) {
        Ok(input) => write_made(answer(caller, alloc, command, input), sink),
        Err(status) => status,
    }
}

/// The same on the caller's own thread.
fn run_command_alone<S: Source, K: Sink>(
    alloc: Global,
    command: Command,
    source: &mut S,
    sink: &mut K,
) -> Status
    requires { CanBeAsked command }
    ensures run { IsCommandRun command (S.state source.old) (S.state source.new) (K.state sink.old) (K.state sink.new) result }
    ensures mapped { IsMappedCommand command (S.state source.old) (K.state sink.old) (K.state sink.new) result }
{
    match read_for(alloc, command, source) {
        Ok(input) => write_made(answer_alone(alloc, command, input), sink),
        Err(status) => status,
    }
}

/// The run of words that are no command: nothing is read, and the usage text is written.
fn run_usage<K: Sink>(sink: &mut K) -> Status
    ensures { IsUsageRun (K.state sink.old) (K.state sink.new) result }
{
    match write_all(sink, usage_text().as_bytes()) {
        Ok(()) => Status::Usage,
        Err(_) => Status::WriteFault,
    }
}

/// What the words ask for.
pub(crate) fn run_words<R: Threads + Wait + Sync, S: Source, K: Sink, G: Gate + Sync>(
    caller: &Caller<'_, R, G>,
    alloc: Global,
    words: &[String],
    source: &mut S,
    sink: &mut K,
) -> Status
    requires gate { AsksForWorkers (map string_bytes words.now) → G.may_enter caller.now.gate.now }
    ensures run { IsRun (map string_bytes words.now) (S.state source.old) (S.state source.new) (K.state sink.old) (K.state sink.new) result }
    ensures mapped { IsMappedRun (map string_bytes words.now) (S.state source.old) (K.state sink.old) (K.state sink.new) result }
{
    match read_words(words) {
        Some(command) => run_command(caller, alloc, command, source, sink),
        None => run_usage(sink),
    }
}

/// The same on the caller's own thread, however many workers the words ask for.
fn run_words_alone<S: Source, K: Sink>(
    alloc: Global,
    words: &[String],
    source: &mut S,
    sink: &mut K,
) -> Status
    ensures run { IsRun (map string_bytes words.now) (S.state source.old) (S.state source.new) (K.state sink.old) (K.state sink.new) result }
    ensures mapped { IsMappedRun (map string_bytes words.now) (S.state source.old) (K.state sink.old) (K.state sink.new) result }
{
    match read_words(words) {
        Some(command) => run_command_alone(alloc, command, source, sink),
        None => run_usage(sink),
    }
}

/// Whether the words ask for several workers.
fn ask_for_workers(words: &[String]) -> bool
    ensures { IsTrue result ↔ AsksForWorkers (map string_bytes words.now) }
{
    match read_words(words) {
        Some(command) => command.workers() >= 2,
        None => false,
    }
}

/// Runs the program: does what the words ask for, with what the source holds where they are a command that reads, and writes one answer
/// into the sink. It never calls the gate where they ask for 0 or 1 workers. What it writes doesn't depend on their number. The law that
/// runs are sound is called to be at hand, and does nothing.
pub fn run<R: Threads + Wait + Sync, S: Source, K: Sink, G: Gate + Sync>(
    rt: &R,
    alloc: Global,
    words: &[String],
    source: &mut S,
    sink: &mut K,
    gate: &G,
) -> Status
    requires gate { AsksForWorkers (map string_bytes words.now) → G.may_enter gate.now }
    ensures run_theorem { IsRun (map string_bytes words.now) (S.state source.old) (S.state source.new)
        (K.state sink.old) (K.state sink.new) result }
    ensures sound { IsSoundRun (map string_bytes words.now) (S.state source.old) (K.state sink.old) (K.state sink.new) result }
    ensures mapped { IsMappedRun (map string_bytes words.now) (S.state source.old) (K.state sink.old) (K.state sink.new) result }
{
    runs_are_sound();
    let caller = Caller {
        rt,
        gate,
        is_last: false,
    };
    run_words(&caller, alloc, words, source, sink)
}

/// The same on the caller's own thread. It waits for nobody, and always returns. `None` tells that the words ask for
/// several workers, which it hasn't: source and sink are then as they were.
pub fn run_alone<S: Source, K: Sink>(
    alloc: Global,
    words: &[String],
    source: &mut S,
    sink: &mut K,
) -> Option<Status>
    ensures { IsRunAlone (map string_bytes words.now) (S.state source.old) (S.state source.new)
        (K.state sink.old) (K.state sink.new) result }
{
    runs_are_sound();
    if ask_for_workers(words) {
        return None;
    }
    Some(run_words_alone(alloc, words, source, sink))
}
