//! Devices in memory and over readers and writers, and whole inputs and outputs.

ghost use Rattle.std.specs.Prelude.{◌≡◌, IfOk};

use lk_devices::transfer::{read_all, write_all};
use lk_devices::{
    MemorySink, MemorySource, Sink, Source, StandardInput, StandardOutput, SureSink, SureSource,
};
use lk_test_rows::{Failed, Line, expect_rows};
use rows::Asked;
use std::alloc::{AllocError, Global};
use std::io::{Read, Write};
use std::{io, str};

mod rows;

/// The number that a word is; 0 for other words.
fn number(word: Option<&str>) -> u64 {
    word.unwrap_or("").parse::<u64>().unwrap_or(0)
}

/// The list of the number that a word is; an empty one for a dash.
fn failing_of(alloc: Global, word: Option<&str>) -> Result<Vec<u64>, AllocError> {
    let mut failing = Vec::new(alloc);
    if word != Some("-") {
        failing.push(number(word))?;
    }
    Ok(failing)
}

/// A source of these bytes, by the words of a row: how many bytes a read gives at most, and which read fails.
fn source_of(
    alloc: Global,
    text: &str,
    most: Option<&str>,
    failing: Option<&str>,
) -> Result<MemorySource, AllocError> {
    let most = number(most).max(1) as usize;
    let failing = failing_of(alloc, failing)?;
    Ok(MemorySource::new(text.as_bytes().to_vec(alloc)?, most, failing))
}

/// A sink, by the words of a row: its room, how many bytes a write takes at most, and which write fails.
fn sink_of(
    alloc: Global,
    room: Option<&str>,
    most: Option<&str>,
    failing: Option<&str>,
) -> Result<MemorySink, AllocError> {
    let (room, most) = (number(room) as usize, number(most) as usize);
    MemorySink::new(alloc, room, most, failing_of(alloc, failing)?)
}

// Sources

/// How many bytes a read gives at most, which read fails, and how many reads there are: what each gives, with the
/// buffer behind it; how many bytes are left, and how many reads failed.
const READS: &str = r#"
3 1 2 => read (Ok(3), Ok("abc.....")) read (Err(Failed), Ok("........")) left (2, 1)
3 1 4 => read (Ok(3), Ok("abc.....")) read (Err(Failed), Ok("........")) read (Ok(2), Ok("de......")) read (Ok(0), Ok("........")) left (0, 1)
9 - 2 => read (Ok(5), Ok("abcde...")) read (Ok(0), Ok("........")) left (0, 0)
"#;

/// Adds what a read of eight bytes gives.
fn add_read(line: &mut Line, source: &mut MemorySource) {
    let mut buf = [b'.'; 8];
    let result = source.read(&mut buf);
    line.add("read", &(result, str::from_utf8(&buf)))
}

/// Adds what so many reads give, how many bytes are left, and how many reads failed.
fn add_reads_of(line: &mut Line, source: &mut MemorySource, count: u64) {
    for _ in 0..count {
        add_read(line, source);
    }
    line.add("left", &(source.left().len(), source.faults()))
}

/// Adds what becomes of a row.
pub fn add_reads(alloc: Global, line: &mut Line, row: &str) {
    let mut words = row.split_whitespace();
    match source_of(alloc, "abcde", words.next(), words.next()) {
        Ok(mut source) => add_reads_of(line, &mut source, number(words.next())),
        Err(_) => line.run_out(),
    }
}

#[test]
fn a_source_gives_bytes_and_fails_where_it_is_to(rt: HostRuntime) -> Result<(), Failed> {
    expect_rows(&rt, rt.alloc(), &Asked::Reads, READS)
}

/// How many bytes a read gives at most, which read fails, and the most bytes that are read: what is read of five, of which
/// `a` is 97, and how many reads failed.
const WHOLE_INPUTS: &str = "
1 - 5 => whole (Ok([97, 98, 99, 100, 101]), 0)
9 - 5 => whole (Ok([97, 98, 99, 100, 101]), 0)
1 9 6 => whole (Ok([97, 98, 99, 100, 101]), 0)
2 1 5 => whole (Err(Failed), 1)
2 0 5 => whole (Err(Failed), 1)
5 1 5 => whole (Err(Failed), 1)
1 - 4 => whole (Err(TooLong), 0)
9 - 0 => whole (Err(TooLong), 0)
";

/// Adds what becomes of a row.
pub fn add_whole(alloc: Global, line: &mut Line, row: &str) {
    let mut words = row.split_whitespace();
    match source_of(alloc, "abcde", words.next(), words.next()) {
        Ok(mut source) => {
            let result = read_all(alloc, &mut source, number(words.next()));
            line.add("whole", &(result, source.faults()))
        }
        Err(_) => line.run_out(),
    }
}

#[test]
fn short_reads_are_not_the_end_and_failures_are_told(rt: HostRuntime) -> Result<(), Failed> {
    expect_rows(&rt, rt.alloc(), &Asked::Whole, WHOLE_INPUTS)
}

/// How many bytes there are: whether they are read under a limit of as many, under the greatest, and under one less (or 0).
const HELD: &str = "
0 => held (true, true, true)
1 => held (true, true, false)
6 => held (true, true, false)
65535 => held (true, true, false)
65536 => held (true, true, false)
200000 => held (true, true, false)
";

/// Whether so many bytes are read whole under this limit.
fn is_held(alloc: Global, length: u64, limit: u64) -> Result<bool, AllocError> {
    let text = vec![in alloc; 7u8; length as usize]?;
    let mut source = SureSource::new(text.clone()?);
    Ok(read_all(alloc, &mut source, limit) == Ok(text))
}

/// Whether so many bytes are read whole under a limit of as many, under the greatest, and under one less.
fn are_held(alloc: Global, length: u64) -> Result<(bool, bool, bool), AllocError> {
    let exact = is_held(alloc, length, length)?;
    let greatest = is_held(alloc, length, u64::MAX)?;
    let less = is_held(alloc, length, length.saturating_sub(1))?;
    Ok((exact, greatest, less))
}

/// Adds what becomes of a row.
pub fn add_held(alloc: Global, line: &mut Line, row: &str) {
    let length = number(Some(row));
    match are_held(alloc, length) {
        Ok(held) => line.add("held", &held),
        Err(_) => line.run_out(),
    }
}

#[test]
fn inputs_are_read_up_to_the_limit(rt: HostRuntime) -> Result<(), Failed> {
    expect_rows(&rt, rt.alloc(), &Asked::Held, HELD)
}

// Sinks

/// Whether pieces are written once or whole; the room, how many bytes a write takes at most, and which write fails; the
/// pieces, of which a dash has no bytes: how each ends, what was taken, and how many writes failed.
const WRITES: &str = r#"
whole 99 10 1 abcdefghijklm => whole Err(Failed) taken (Ok("abcdefghij"), 1)
whole 99 10 1 abcdefghijklm klm - => whole Err(Failed) whole Ok(()) whole Ok(()) taken (Ok("abcdefghijklm"), 1)
whole 5 3 - abcd efg - => whole Ok(()) whole Err(Failed) whole Ok(()) taken (Ok("abcde"), 1)
whole 99 0 - - a => whole Ok(()) whole Err(Failed) taken (Ok(""), 1)
once 99 0 - - a - b => once Ok(0) once Ok(0) once Ok(0) once Ok(0) taken (Ok(""), 2)
once 5 3 1 abcd e ef gh i => once Ok(3) once Err(Failed) once Ok(2) once Ok(0) once Ok(0) taken (Ok("abcef"), 3)
"#;

/// Adds how the write of a piece ends.
fn add_write(line: &mut Line, sink: &mut MemorySink, how: &str, piece: &str) {
    let piece = if piece == "-" { "" } else { piece };
    if how == "whole" {
        line.add(how, &write_all(sink, piece.as_bytes()))
    } else {
        line.add(how, &sink.write(piece.as_bytes()))
    }
}

/// Adds how the writes of the pieces of a row end, what was taken, and how many failed.
fn add_pieces(line: &mut Line, sink: &mut MemorySink, row: &str) {
    let (how, _) = row.split_once(' ').unwrap_or((row, ""));
    for piece in row.split_whitespace().skip(4) {
        add_write(line, sink, how, piece);
    }
    line.add("taken", &(str::from_utf8(sink.written()), sink.faults()))
}

/// Adds what becomes of a row.
pub fn add_writes(alloc: Global, line: &mut Line, row: &str) {
    let mut words = row.split_whitespace().skip(1);
    match sink_of(alloc, words.next(), words.next(), words.next()) {
        Ok(mut sink) => add_pieces(line, &mut sink, row),
        Err(_) => line.run_out(),
    }
}

#[test]
fn a_sink_takes_bytes_and_fails_where_it_is_to(rt: HostRuntime) -> Result<(), Failed> {
    expect_rows(&rt, rt.alloc(), &Asked::Writes, WRITES)
}

#[test]
fn a_sure_sink_takes_everything(rt: HostRuntime) -> Result<(), Failed> {
    let mut line = Line::new(rt.alloc());
    let mut sink = SureSink::new();
    for piece in ["abc", "", "de"] {
        line.add("piece", &write_all(&mut sink, piece.as_bytes()));
    }
    line.add("count", &sink.count());
    line.expect(&rt, "all", "piece Ok(()) piece Ok(()) piece Ok(()) count 5")
}

// Readers and writers

// A reader and a writer of which the first calls are interrupted, and all others fail or move nothing.
#[derive(Drop)]
struct Odd {
    interrupted: u32,
    fails: bool,
}

impl Odd {
    /// The outcome of the next call.
    fn next_call(&mut self) -> io::Result<usize>
        ensures { IfOk result (λ n. n ≡ 0) }
    {
        if self.interrupted > 0 {
            self.interrupted -= 1;
            return Err(io::Error::from(io::ErrorKind::Interrupted));
        }
        if self.fails {
            return Err(io::Error::from(io::ErrorKind::BrokenPipe));
        }
        Ok(0)
    }
}

impl Read for Odd {
    fn read(&mut self, _buf: &mut [u8]) -> io::Result<usize> {
        self.next_call()
    }
}

impl Write for Odd {
    fn write(&mut self, _buf: &[u8]) -> io::Result<usize> {
        self.next_call()
    }

    fn flush(&mut self) -> io::Result<()> {
        Ok(())
    }
}

/// How many calls are interrupted, and whether the others fail: what two reads and two writes give, and how many failed.
const CALLS: &str = "
0 fails => call (Err(Failed), Err(Failed)) call (Err(Failed), Err(Failed)) failed (2, 2)
3 moves => call (Ok(0), Ok(0)) call (Ok(0), Ok(0)) failed (0, 0)
4294967295 moves => call (Err(Failed), Err(Failed)) call (Err(Failed), Err(Failed)) failed (2, 2)
";

/// Adds what two reads and two writes give, and how many failed.
fn add_calls_of(line: &mut Line, input: &mut StandardInput<Odd>, output: &mut StandardOutput<Odd>) {
    for _ in 0..2 {
        line.add("call", &(input.read(&mut [0u8; 4]), output.write(b"")));
    }
    line.add("failed", &(input.failures(), output.failures()))
}

/// Adds what becomes of a row.
pub fn add_calls(line: &mut Line, row: &str) {
    let (count, how) = row.split_once(' ').unwrap_or((row, ""));
    let (interrupted, fails) = (count.parse::<u32>().unwrap_or(0), how == "fails");
    let mut input = StandardInput::new(Odd { interrupted, fails });
    let mut output = StandardOutput::new(Odd { interrupted, fails });
    add_calls_of(line, &mut input, &mut output)
}

#[test]
fn failures_are_counted_and_interrupted_calls_tried_again(rt: HostRuntime) -> Result<(), Failed> {
    expect_rows(&rt, rt.alloc(), &Asked::Calls, CALLS)
}

#[test]
fn readers_pass_bytes_on(rt: HostRuntime) -> Result<(), Failed> {
    let mut line = Line::new(rt.alloc());
    let mut whole = StandardInput::new(b"abc".as_slice());
    line.add("whole", &read_all(rt.alloc(), &mut whole, 3));
    let mut input = StandardInput::new(rt.reader());
    line.add("none", &input.read(&mut []));
    line.expect(&rt, "all", "whole Ok([97, 98, 99]) none Ok(0)")
}

#[test]
fn writers_pass_bytes_on(rt: HostRuntime) -> Result<(), Failed> {
    let mut line = Line::new(rt.alloc());
    let mut output = StandardOutput::new(io::writer(&rt));
    line.add("open", &write_all(&mut output, b"abc\n"));
    let (interrupted, fails) = (0, false);
    let mut closed = StandardOutput::new(Odd { interrupted, fails });
    line.add("closed", &write_all(&mut closed, b"abc"));
    line.add("failed", &closed.failures());
    line.expect(&rt, "all", "open Ok(()) closed Err(Failed) failed 1")
}
