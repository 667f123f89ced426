//! Runs whose devices give and take little, or fail at one of their calls, and runs over a description that is cut.

use crate::ends::{ROOM, words_of};
use crate::rows::{Asked, expect_rows};
use lk_link::NoGate;
use lk_run::{MemorySink, MemorySource, Status, run};
use lk_test_rows::add;
use std::alloc::{AllocError, Global};
use std::str;
use std::sync::Wait;
use std::test::Fail;
use std::thread::Threads;

/// More calls than any run here makes.
const MOST_CALLS: u64 = 10000;

/// Words, and the text over which they run.
#[derive(Clone, Copy)]
struct Trial<'a> {
    words: &'a [String],
    input: &'a str,
}

/// How a run of these words over these devices ends.
fn ended_over(
    rt: &(impl Threads + Wait + Sync),
    alloc: Global,
    words: &[String],
    source: &mut MemorySource,
    sink: &mut MemorySink,
) -> Result<Status, AllocError> {
    Ok(run(rt, alloc, words, source, sink, &NoGate))
}

/// The list of the number of the one call that fails.
fn only(alloc: Global, call: u64) -> Result<Vec<u64>, AllocError> {
    let mut failing = Vec::new(alloc);
    failing.push(call)?;
    Ok(failing)
}

/// A source of these bytes that gives one with each read, and none of whose reads fails but those told.
fn slow_source(alloc: Global, input: &[u8], failing: Vec<u64>) -> Result<MemorySource, AllocError> {
    Ok(MemorySource::new(input.to_vec(alloc)?, 1, failing))
}

/// Whether a run that meets a fault at this read of its source ends with 4, by that one fault, and has written nothing.
fn fails_at_read(
    rt: &(impl Threads + Wait + Sync),
    alloc: Global,
    trial: &Trial<'_>,
    call: u64,
) -> Result<bool, AllocError> {
    let mut source = slow_source(alloc, trial.input.as_bytes(), only(alloc, call)?)?;
    let mut sink = MemorySink::new(alloc, ROOM, 1, Vec::new(alloc))?;
    let status = ended_over(rt, alloc, trial.words, &mut source, &mut sink)?;
    Ok(status == Status::ReadFault && source.faults() == 1 && sink.written().is_empty())
}

/// How many reads there are, one after the other, at which a run fails so.
fn failing_reads(
    rt: &(impl Threads + Wait + Sync),
    alloc: Global,
    trial: &Trial<'_>,
) -> Result<u64, AllocError> {
    for call in 0..MOST_CALLS {
        if !fails_at_read(rt, alloc, trial, call)? {
            return Ok(call);
        }
    }
    Ok(MOST_CALLS)
}

/// Whether a run that meets a fault at this write of its sink ends with 5, by that one fault, and has written just the bytes before it.
fn fails_at_write(
    rt: &(impl Threads + Wait + Sync),
    alloc: Global,
    trial: &Trial<'_>,
    report: &[u8],
    call: u64,
) -> Result<bool, AllocError> {
    let mut source = slow_source(alloc, trial.input.as_bytes(), Vec::new(alloc))?;
    let mut sink = MemorySink::new(alloc, ROOM, 1, only(alloc, call)?)?;
    let status = ended_over(rt, alloc, trial.words, &mut source, &mut sink)?;
    let is_front = report.get(..call as usize) == Some(sink.written());
    Ok(status == Status::WriteFault && sink.faults() == 1 && is_front)
}

/// How many writes there are, one after the other, at which a run fails so.
fn failing_writes(
    rt: &(impl Threads + Wait + Sync),
    alloc: Global,
    trial: &Trial<'_>,
    report: &[u8],
) -> Result<u64, AllocError> {
    for call in 0..MOST_CALLS {
        if !fails_at_write(rt, alloc, trial, report, call)? {
            return Ok(call);
        }
    }
    Ok(MOST_CALLS)
}

/// Whether a run over the front of a description ends with 3, and the text that it is no JSON.
fn is_cut_at(
    rt: &(impl Threads + Wait + Sync),
    alloc: Global,
    trial: &Trial<'_>,
    length: usize,
) -> Result<bool, AllocError> {
    let front = trial.input.as_bytes().get(..length).unwrap_or(&[]);
    let mut source = slow_source(alloc, front, Vec::new(alloc))?;
    let mut sink = MemorySink::new(alloc, ROOM, 7, Vec::new(alloc))?;
    let status = ended_over(rt, alloc, trial.words, &mut source, &mut sink)?;
    Ok(status == Status::Unreadable && sink.written() == b"not JSON\n".as_slice())
}

/// How many lengths there are, from nothing on, at which a description is cut so.
fn cuts(
    rt: &(impl Threads + Wait + Sync),
    alloc: Global,
    trial: &Trial<'_>,
) -> Result<usize, AllocError> {
    for length in 0..trial.input.len() {
        if !is_cut_at(rt, alloc, trial, length)? {
            return Ok(length);
        }
    }
    Ok(trial.input.len())
}

/// Adds how a run ends whose source gives and whose sink takes one byte with each call, and the text that was taken; gives that text.
fn add_slow(
    rt: &(impl Threads + Wait + Sync),
    alloc: Global,
    line: &mut String,
    trial: &Trial<'_>,
    report: &mut Vec<u8>,
) -> Result<(), AllocError> {
    let mut source = slow_source(alloc, trial.input.as_bytes(), Vec::new(alloc))?;
    let mut sink = MemorySink::new(alloc, ROOM, 1, Vec::new(alloc))?;
    let status = ended_over(rt, alloc, trial.words, &mut source, &mut sink)?;
    report.extend_from_slice(sink.written())?;
    add(
        line,
        "slow",
        &(status.code(), str::from_utf8(sink.written())),
    )
}

/// Adds how a run ends whose sink takes nothing, and what it has taken.
fn add_full(
    rt: &(impl Threads + Wait + Sync),
    alloc: Global,
    line: &mut String,
    trial: &Trial<'_>,
) -> Result<(), AllocError> {
    let mut source = slow_source(alloc, trial.input.as_bytes(), Vec::new(alloc))?;
    let mut sink = MemorySink::new(alloc, ROOM, 0, Vec::new(alloc))?;
    let status = ended_over(rt, alloc, trial.words, &mut source, &mut sink)?;
    add(
        line,
        "full",
        &(status.code(), str::from_utf8(sink.written())),
    )
}

/// Adds how runs over such devices end, with the words before the first colon of a row over what is behind it.
pub fn add_faulty_runs(
    rt: &(impl Threads + Wait + Sync),
    alloc: Global,
    line: &mut String,
    row: &str,
) -> Result<(), AllocError> {
    let (words, input) = row.split_once(':').unwrap_or((row, ""));
    let words = words_of(alloc, words)?;
    let trial = &Trial {
        words: &words,
        input: input.trim_start(),
    };
    let mut report = Vec::new(alloc);
    add_slow(rt, alloc, line, trial, &mut report)?;
    add_full(rt, alloc, line, trial)?;
    add(line, "reads", &failing_reads(rt, alloc, trial)?)?;
    add(
        line,
        "writes",
        &failing_writes(rt, alloc, trial, report.as_slice())?,
    )?;
    add(line, "cuts", &cuts(rt, alloc, trial)?)
}

/// Words and a description: how a run ends whose devices move one byte with each call; and one whose sink takes nothing; at how many reads a run
/// fails that is made to, and writes nothing: one for each byte, and one that finds the end; at how many writes, behind just the bytes
/// before it: one for each byte of the report or the image; and how many fronts of it are no JSON: all.
const FAULTY: &str = r#"
layout 0: {"plan":{"page":4096,"base":["num",4096],"sections":[{"name":"A","attrs":1,"parts":[[8,false]]},{"name":"B","attrs":1,"parts":[[1,false]]},{"name":"C","attrs":17,"parts":[[16,false]]}],"segments":[{"kind":"load"}],"events":[["seg",0],["sec",0],["sec",1],["sec",2],["endseg",0]]},"groups":[[{"kind":"prelude"}],[{"kind":"object","name":"a.o","sections":[{"slot":"must","part":0,"size":8},{"slot":"must","part":1,"size":7},{"slot":"must","part":2,"size":16}]}]]} => slow (0, Ok("layout\nsection 0 index 0 mem 0x1000 8 file 0x0 8 align 8 lma 0x1000 attrs 1\nsection 1 index 1 mem 0x1008 7 file 0x8 7 align 1 lma 0x1008 attrs 1\nsection 2 index 2 mem 0x1010 16 file 0xf 0 align 16 lma 0x1010 attrs 17\npart 0 mem 0x1000 8 file 0x0 8 align 8\npart 1 mem 0x1008 7 file 0x8 7 align 1\npart 2 mem 0x1010 16 file 0xf 0 align 16\nsegment 0 mem 0x1000 32 file 0x0 15 align 16\nlive 1 0 0 0x1000 8\nlive 1 0 1 0x1008 7\nlive 1 0 2 0x1010 16\nentry -\nend\n")) full (5, Ok("")) reads 461 writes 454 cuts 460
image 0: {"plan":{"page":1,"sections":[{"attrs":1,"parts":[[1,false]]}],"segments":[{"kind":"load"}],"events":[["seg",0],["sec",0],["endseg",0]]},"groups":[[{"kind":"prelude"}],[{"kind":"object","sections":[{"slot":"must","size":8,"data":"696d616765206f6e"}]}]]} => slow (0, Ok("image on")) full (5, Ok("")) reads 254 writes 8 cuts 253
"#;

#[test]
fn faults_of_devices_are_told_at_each_call(rt: HostRuntime) -> Result<(), Fail> {
    expect_rows(&rt, rt.alloc(), Asked::Faulty, FAULTY)
}

/// The smallest description.
const SMALLEST: &str = r#"{"plan":{"page":4096},"groups":[[{"kind":"prelude"}]]}"#;

/// The number of the one call that a word says fails; none for a dash.
fn failing_of(alloc: Global, word: &str) -> Result<Vec<u64>, AllocError> {
    match word.parse::<u64>() {
        Ok(call) => only(alloc, call),
        Err(_) => Ok(Vec::new(alloc)),
    }
}

/// Adds how a run over the smallest description ends whose source gives 20 bytes with each read and whose sink takes 10 with each
/// write, where the read and the write of the row's numbers fail; and what was taken.
pub fn add_faulty_run(
    rt: &(impl Threads + Wait + Sync),
    alloc: Global,
    line: &mut String,
    row: &str,
) -> Result<(), AllocError> {
    let (read, write) = row.split_once(' ').unwrap_or((row, ""));
    let input = SMALLEST.as_bytes().to_vec(alloc)?;
    let mut source = MemorySource::new(input, 20, failing_of(alloc, read)?);
    let mut sink = MemorySink::new(alloc, ROOM, 10, failing_of(alloc, write)?)?;
    let words = words_of(alloc, "layout 0")?;
    let status = ended_over(rt, alloc, &words, &mut source, &mut sink)?;
    add(line, "run", &(status, str::from_utf8(sink.written())))
}

/// Which read and which write fails: how a run over the smallest description ends, and what was taken. Where both fail, the
/// source is named: nothing was written yet.
const RUNS: &str = r#"
- - => run (Done, Ok("layout\nentry -\nend\n"))
1 - => run (ReadFault, Ok(""))
- 0 => run (WriteFault, Ok(""))
- 1 => run (WriteFault, Ok("layout\nent"))
0 0 => run (ReadFault, Ok(""))
"#;

#[test]
fn faults_of_devices_are_named(rt: HostRuntime) -> Result<(), Fail> {
    expect_rows(&rt, rt.alloc(), Asked::FaultyRun, RUNS)
}
