//! What rows ask here, and that the answers are theirs.

use crate::faulty::{add_faulty_run, add_faulty_runs};
use crate::runs::{add_end, add_end_by_workers, add_ends, add_image, add_lock_step, add_words};
use crate::words::{add_both_runs, add_generated};
use lk_test_rows::{Row, rows_of};
use std::alloc::{AllocError, Global};
use std::process::Abort;
use std::sync::Wait;
use std::test::Fail;
use std::thread::Threads;

/// What is asked about a text.
#[derive(Clone, Copy)]
pub enum Asked {
    /// Whether a run over it by two workers in lock step tells what one by none does.
    LockStep,
    /// How a run over it ends.
    Run,
    /// How runs over it by none and by two workers end.
    RunByWorkers,
    /// What command its words are, and how a run with them ends.
    Words,
    /// How runs with its words end, alone and by workers.
    BothRuns,
    /// How runs with the words before its first colon end over what is behind that, alone and by workers.
    Ends,
    /// What image a run over it writes, by none and by two workers.
    Image,
    /// What a run with its words tells of a generated link.
    Generated,
    /// How runs over it end in which a device fails, or gives and takes little.
    Faulty,
    /// How a run over the smallest description ends, where the read and the write of its numbers fail.
    FaultyRun,
}

/// Adds what is answered.
fn add_answer(
    rt: &(impl Threads + Wait + Sync),
    alloc: Global,
    line: &mut String,
    asked: Asked,
    text: &str,
) -> Result<(), AllocError> {
    match asked {
        Asked::LockStep => add_lock_step(rt, alloc, line, text),
        Asked::Run => add_end(alloc, line, text),
        Asked::RunByWorkers => add_end_by_workers(rt, alloc, line, text),
        Asked::Words => add_words(alloc, line, text),
        Asked::BothRuns => add_both_runs(rt, alloc, line, text),
        Asked::Ends => add_ends(rt, alloc, line, text),
        Asked::Image => add_image(rt, alloc, line, text),
        Asked::Generated => add_generated(alloc, line, text),
        Asked::Faulty => add_faulty_runs(rt, alloc, line, text),
        Asked::FaultyRun => add_faulty_run(rt, alloc, line, text),
    }
}

/// What is answered to a row.
fn answer(
    rt: &(impl Threads + Wait + Sync),
    alloc: Global,
    asked: Asked,
    row: Row,
) -> Result<String, AllocError> {
    let text = row.text(alloc)?;
    let mut line = String::new(alloc);
    add_answer(rt, alloc, &mut line, asked, text.as_str())?;
    Ok(line)
}

/// Wants this text of a row with this front.
fn expect_answer(rt: &impl Abort, front: &str, found: &str, want: &str) {
    assert_eq!(rt; found, want, "for {front}");
}

/// Wants a row's answer.
fn expect_row(
    rt: &(impl Abort + Threads + Wait + Sync),
    alloc: Global,
    asked: Asked,
    row: Row,
) -> Result<(), Fail> {
    let line = answer(rt, alloc, asked, row)?;
    expect_answer(rt, row.front, line.as_str(), row.want);
    Ok(())
}

/// Wants each row's answer.
pub fn expect_rows(
    rt: &(impl Abort + Threads + Wait + Sync),
    alloc: Global,
    asked: Asked,
    rows: &'static str,
) -> Result<(), Fail> {
    for row in rows_of(alloc, rows)? {
        expect_row(rt, alloc, asked, row)?;
    }
    Ok(())
}
