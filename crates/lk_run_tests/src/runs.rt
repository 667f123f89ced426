//! Runs over devices in memory.

use crate::ends::{ROOM, told_end, without_remark, words_of};
use lk_link::{Gate, NoGate};
use lk_run::{MemorySink, MemorySource, Status, read_words, run, run_alone};
use lk_test_rows::{Frame, LockStep, NO_FRAME, add, frame_of, framed};
use std::alloc::{AllocError, Global};
use std::process::Abort;
use std::str;
use std::sync::Wait;
use std::test::Fail;
use std::thread::Threads;

/// The status with which the words end over an input that is read by 100 bytes, and the text that the sink has taken, seven
/// bytes at a time, without the end of its last line.
pub fn told(alloc: Global, words: &[String], input: &str) -> Result<String, AllocError> {
    let mut source = MemorySource::new(input.as_bytes().to_vec(alloc)?, 100, Vec::new(alloc));
    let mut sink = MemorySink::new(alloc, ROOM, 7, Vec::new(alloc))?;
    let status = run_alone(alloc, words, &mut source, &mut sink);
    told_end(alloc, status.map(|status| status.code()), sink.written())
}

/// The same of a run by as many workers as the words ask for, which enter a gate before each of their steps.
fn told_through<G: Gate + Sync>(
    rt: &(impl Threads + Wait + Sync),
    alloc: Global,
    words: &[String],
    input: &str,
    gate: &G,
) -> Result<String, AllocError>
    requires { G.may_enter gate.now }
{
    let mut source = MemorySource::new(input.as_bytes().to_vec(alloc)?, 100, Vec::new(alloc));
    let mut sink = MemorySink::new(alloc, ROOM, 7, Vec::new(alloc))?;
    let status = run(rt, alloc, words, &mut source, &mut sink, gate);
    told_end(alloc, Some(status.code()), sink.written())
}

/// The same without a gate.
pub fn told_by_workers(
    rt: &(impl Threads + Wait + Sync),
    alloc: Global,
    words: &[String],
    input: &str,
) -> Result<String, AllocError> {
    told_through(rt, alloc, words, input, &NoGate)
}

/// Adds whether two workers in lock step tell what none does, and whether both took all their turns.
pub fn add_lock_step(
    rt: &(impl Threads + Wait + Sync),
    alloc: Global,
    line: &mut String,
    input: &str,
) -> Result<(), AllocError> {
    let gate = LockStep::new();
    let words = words_of(alloc, "layout 2")?;
    let by_two = told_through(rt, alloc, &words, input, &gate)?;
    let alone = ended(alloc, input)?;
    add(line, "alike", &(by_two.as_str() == alone.as_str()))?;
    add(line, "in step", &gate.was_kept())
}

/// How `layout 0` ends over an input.
fn ended(alloc: Global, input: &str) -> Result<String, AllocError> {
    told(alloc, &words_of(alloc, "layout 0")?, input)
}

/// Adds how `layout 0` ends over an input.
pub fn add_end(alloc: Global, line: &mut String, input: &str) -> Result<(), AllocError> {
    line.push_str(ended(alloc, input)?.as_str())
}

/// Adds how a run of `layout 0` that may use workers ends over an input, and how one of `layout 2` ends, where that is told otherwise.
pub fn add_end_by_workers(
    rt: &(impl Threads + Wait + Sync),
    alloc: Global,
    line: &mut String,
    input: &str,
) -> Result<(), AllocError> {
    let by_none = told_by_workers(rt, alloc, &words_of(alloc, "layout 0")?, input)?;
    let by_two = told_by_workers(rt, alloc, &words_of(alloc, "layout 2")?, input)?;
    line.push_str(by_none.as_str())?;
    if by_two.as_str() == by_none.as_str() {
        return Ok(());
    }
    add(line, "by two", &by_two)
}

/// Adds the command that the words of a row are, and how they end over `{}`.
pub fn add_words(alloc: Global, line: &mut String, row: &str) -> Result<(), AllocError> {
    let words = words_of(alloc, row)?;
    add(line, "command", &read_words(&words))?;
    add(line, "ends", &told(alloc, &words, "{}")?)
}

/// A text with line feeds in place of its slashes.
fn with_line_feeds(alloc: Global, text: &str) -> Result<String, AllocError> {
    let mut lines = String::new(alloc);
    for (number, line) in text.split('/').enumerate() {
        if number > 0 {
            lines.push('\n')?;
        }
        lines.push_str(line)?;
    }
    Ok(lines)
}

/// Adds how the words before the first colon of a row end over what is behind it, in which line feeds are slashes, and whether they end
/// so by workers too.
pub fn add_ends(
    rt: &(impl Threads + Wait + Sync),
    alloc: Global,
    line: &mut String,
    row: &str,
) -> Result<(), AllocError> {
    let (words, input) = row.split_once(':').unwrap_or((row, ""));
    let words = words_of(alloc, words)?;
    let input = with_line_feeds(alloc, input.trim_start())?;
    let alone = told(alloc, &words, input.as_str())?;
    let by_workers = told_by_workers(rt, alloc, &words, input.as_str())?;
    add(line, "ends", &alone)?;
    add(line, "alike", &(by_workers.as_str() == alone.as_str()))
}

/// Adds the status of a run, and the bytes that its sink has taken, or the text where it didn't end well.
fn add_taken(
    line: &mut String,
    status: Option<Status>,
    sink: &MemorySink,
) -> Result<(), AllocError> {
    add(line, "status", &status)?;
    match status {
        Some(Status::Done) => add(line, "bytes", &sink.written()),
        _ => add(
            line,
            "text",
            &str::from_utf8(sink.written()).unwrap_or("no text"),
        ),
    }
}

/// Adds the image that `image 0` writes over an input on the caller's own thread, and whether `image 2` does so by workers.
pub fn add_image(
    rt: &(impl Threads + Wait + Sync),
    alloc: Global,
    line: &mut String,
    input: &str,
) -> Result<(), AllocError> {
    let mut source = MemorySource::new(input.as_bytes().to_vec(alloc)?, 100, Vec::new(alloc));
    let mut sink = MemorySink::new(alloc, ROOM, 7, Vec::new(alloc))?;
    let words = words_of(alloc, "image 0")?;
    let status = run_alone(alloc, &words, &mut source, &mut sink);
    add_taken(line, status, &sink)?;
    let mut source = MemorySource::new(input.as_bytes().to_vec(alloc)?, 100, Vec::new(alloc));
    let mut other = MemorySink::new(alloc, ROOM, 7, Vec::new(alloc))?;
    let words = words_of(alloc, "image 2")?;
    let by_workers = run(rt, alloc, &words, &mut source, &mut other, &NoGate);
    let is_alike = Some(by_workers) == status && sink.written() == other.written();
    add(line, "alike", &is_alike)
}

/// A block as it is to be: what its first line says, and below it how runs over that end that may use workers.
fn block_told_by_workers(
    rt: &(impl Threads + Wait + Sync),
    alloc: Global,
    block: &str,
) -> Result<String, AllocError> {
    let (front, _) = block.split_once('\n').unwrap_or((block, ""));
    let mut told = String::new(alloc);
    add_end_by_workers(rt, alloc, &mut told, front)?;
    format!(in alloc; "{front}\n{told}")
}

/// Wants this text.
pub fn expect_text(rt: &impl Abort, found: &str, want: &str) {
    assert_eq!(rt; found, want);
}

/// A block as it is to be: what its first line says, and below it how a run over that, in its frame, ends.
fn told_block(alloc: Global, frame: Frame, block: &str) -> Result<String, AllocError> {
    let (front, _) = block.split_once('\n').unwrap_or((block, ""));
    let input = framed(alloc, frame, front)?;
    let told = ended(alloc, input.as_str())?;
    format!(in alloc; "{front}\n{told}")
}

/// Wants how a run over each description of a text ends. Below the line of a description stand the status and the lines of its report,
/// and behind them an empty line; above it may stand a remark. A block that begins with `@` is a frame, and holds for the blocks below
/// it: their first lines stand in place of its dots.
pub fn expect_reports(rt: &impl Abort, alloc: Global, blocks: &'static str) -> Result<(), Fail> {
    let mut frame = NO_FRAME;
    for block in blocks.split("\n\n") {
        let block = without_remark(block);
        if let Some(next) = block.strip_prefix("@ ") {
            frame = frame_of(next);
        } else {
            expect_text(rt, told_block(alloc, frame, block)?.as_str(), block);
        }
    }
    Ok(())
}

/// The same of runs that may use workers, by none and by two, of a text without frames.
pub fn expect_reports_by_workers(
    rt: &(impl Abort + Threads + Wait + Sync),
    alloc: Global,
    blocks: &'static str,
) -> Result<(), Fail> {
    for block in blocks.split("\n\n") {
        let block = without_remark(block);
        expect_text(rt, block_told_by_workers(rt, alloc, block)?.as_str(), block);
    }
    Ok(())
}
