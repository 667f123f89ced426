//! The answer to `check`: how many sections and segments a map has, or its first fault, or where a text is no map.

ghost use Rattle.std.specs.Prelude.{◌≡◌, ◌≢◌, string_bytes, IfOk};
ghost use Rattle.lk_map.specs.declared.check.MapFault.TheVariants.{NoMemory};
ghost use Rattle.lk_map.specs.MapText.{LinesRise};
ghost use Rattle.lk_run.specs.MapTexts.{map_fault_text};
ghost use Rattle.lk_run.specs.declared.words.Command.TheVariants as commands;
ghost use Rattle.lk_run.specs.Run.{IsAnswerOf, IsMapAnswer};

use crate::answer::{Answer, done, refused, unreadable};
use lk_map::{MapError, MapFault, MapText, check_map, read_map};
use std::alloc::{AllocError, Global};

/// The text of a map's fault, for each but want of memory.
fn fault_text(alloc: Global, fault: &MapFault) -> Result<String, AllocError>
    requires { fault.now ≢ NoMemory }
    ensures { IfOk result (λ text. string_bytes text ≡ map_fault_text fault.now) }
{
    match *fault {
        MapFault::Overflow { line } => format!(in alloc; "map overflow: line {line}\n"),
        MapFault::MemOverlap { a, b } => {
            format!(in alloc; "memory overlap: lines {a} and {b}\n")
        }
        MapFault::FileOverlap { a, b } => format!(in alloc; "file overlap: lines {a} and {b}\n"),
        MapFault::NoSegment { line } => format!(in alloc; "line {line} is in no segment\n"),
        MapFault::NoMemory => Err(AllocError),
    }
}

/// The answer to a map.
fn answer_map(alloc: Global, map: &MapText) -> Result<Answer, AllocError>
    requires { LinesRise map.now.sections.items }
    ensures { IfOk result (λ answer. IsMapAnswer (Ok (map.now.sections.items, map.now.segments.items)) answer) }
{
    match check_map(alloc, map) {
        Ok(()) => {
            let sections = map.sections.len();
            let segments = map.segments.len();
            let text = format!(in alloc; "map ok: {sections} sections, {segments} segments\n")?;
            Ok(done(text))
        }
        Err(MapFault::NoMemory) => Err(AllocError),
        Err(fault) => Ok(refused(fault_text(alloc, &fault)?)),
    }
}

/// The answer to a text that is no map from this line on.
fn answer_no_map(alloc: Global, line: usize) -> Result<Answer, AllocError>
    ensures { IfOk result (λ answer. IsMapAnswer (Err line) answer) }
{
    let text = format!(in alloc; "not a map: line {line}\n")?;
    Ok(unreadable(text))
}

/// The answer of `check` to all bytes of the source. They are let go before the map is checked.
pub(crate) fn answer_check(alloc: Global, bytes: Vec<u8>) -> Result<Answer, AllocError>
    ensures { IfOk result (IsAnswerOf commands.Check bytes.items) }
{
    let read = read_map(alloc, bytes.as_slice());
    drop(bytes);
    match read {
        Ok(map) => answer_map(alloc, &map),
        Err(MapError::NotMap { line }) => answer_no_map(alloc, line),
        Err(MapError::NoMemory) => Err(AllocError),
    }
}
