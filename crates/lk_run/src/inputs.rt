//! What a command is given to answer: what its source holds, and the link that this describes.

ghost use Rattle.std.specs.Prelude.{◌≡◌, IfOk};
ghost use Rattle.lk_input.specs.Reading.{Answers, reading_of};
ghost use Rattle.lk_run.specs.declared.words.Command.{Command};
ghost use Rattle.lk_run.specs.Run.{Longer, IsAnswerTo};
ghost use Rattle.lk_run.specs.Steps.{GivesInput, IsReadAs};

use crate::answer::{Answer, unreadable};
use crate::fault_texts::input_fault_text;
use crate::status::Status;
use crate::too_long::too_long_text;
use crate::words::Command;
use lk_devices::limit::LONGEST_INPUT;
use lk_devices::source::Source;
use lk_devices::transfer::{ReadAllError, read_all};
use lk_input::{InputError, read_link, read_link_by_workers};
use lk_link::link::LinkInput;
use std::alloc::{AllocError, Global};
use std::thread::Threads;

/// What the source of a command was found to hold.
#[derive(Drop)]
pub(crate) enum CommandInput {
    /// All its bytes; none where the command reads nothing.
    Bytes(Vec<u8>),
    /// More bytes than are read.
    TooLong,
}

/// What was read of bytes.
#[derive(Drop)]
pub(crate) enum Reading {
    /// The link that they describe.
    Link(LinkInput),
    /// Why they describe none.
    Fault(Answer),
}

/// What a command is given of its source, which is read to its end if the command reads; or the status that tells why it is given nothing.
pub(crate) fn read_for<S: Source>(
    alloc: Global,
    command: Command,
    source: &mut S,
) -> Result<CommandInput, Status>
    ensures { GivesInput command result (S.state source.old) (S.state source.new) }
{
    if !command.reads() {
        return Ok(CommandInput::Bytes(Vec::new(alloc)));
    }
    match read_all(alloc, source, LONGEST_INPUT) {
        Ok(bytes) => Ok(CommandInput::Bytes(bytes)),
        Err(ReadAllError::TooLong) => Ok(CommandInput::TooLong),
        Err(ReadAllError::Failed) => Err(Status::ReadFault),
        Err(ReadAllError::NoMemory) => Err(Status::NoMemory),
    }
}

/// The link that was read of bytes, or the answer that tells why they describe none.
fn link_or_answer(
    alloc: Global,
    _bytes: &[u8],
    read: Result<LinkInput, InputError>,
) -> Result<Reading, AllocError>
    requires { Answers read (reading_of _bytes.now) }
    ensures { IfOk result (IsReadAs (reading_of _bytes.now)) }
{
    match read {
        Ok(link) => Ok(Reading::Link(link)),
        Err(InputError::NoMemory) => Err(AllocError),
        Err(fault) => Ok(Reading::Fault(unreadable(input_fault_text(alloc, &fault)?))),
    }
}

/// The link that bytes describe, or the answer that tells why they describe none. Lets the bytes go.
pub(crate) fn read_up(alloc: Global, bytes: Vec<u8>) -> Result<Reading, AllocError>
    ensures { IfOk result (IsReadAs (reading_of bytes.items)) }
{
    let text = bytes.as_slice();
    link_or_answer(alloc, text, read_link(alloc, text))
}

/// The same, read by so many workers.
pub(crate) fn read_up_by_workers<R: Threads + Sync>(
    rt: &R,
    alloc: Global,
    bytes: Vec<u8>,
    workers: u8,
) -> Result<Reading, AllocError>
    ensures { IfOk result (IsReadAs (reading_of bytes.items)) }
{
    let text = bytes.as_slice();
    let read = if workers < 2 {
        read_link(alloc, text)
    } else {
        read_link_by_workers(rt, alloc, text, usize::from(workers))
    };
    link_or_answer(alloc, text, read)
}

/// The answer to an input that is too long.
pub(crate) fn answer_too_long(alloc: Global) -> Result<Answer, AllocError>
    ensures { IfOk result (λ answer. (command : Command) → IsAnswerTo command Longer answer) }
{
    Ok(unreadable(too_long_text(alloc)?))
}
