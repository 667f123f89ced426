//! What rows ask here, and that the answers are theirs.

use crate::paths::{OfPaths, add_of_paths};
use crate::thunks::{OfThunks, add_of_thunks};
use crate::traversal::{OfTraversal, add_of_traversal};
use lk_test_rows::{Row, rows_of};
use std::alloc::{AllocError, Global};
use std::process::Abort;
use std::sync::Wait;
use std::test::Fail;
use std::thread::Threads;

/// What is asked about a text.
#[derive(Clone, Copy)]
pub enum Asked {
    /// What is asked for, reached and live.
    Traversal(OfTraversal),
    /// Why it is kept: paths to it.
    Paths(OfPaths),
    /// What branches reach, and by which thunks.
    Thunks(OfThunks),
}

/// Adds what is answered.
fn add_answer(
    rt: &(impl Threads + Wait + Sync),
    alloc: Global,
    line: &mut String,
    asked: Asked,
    text: &str,
) -> Result<(), AllocError> {
    match asked {
        Asked::Traversal(asked) => add_of_traversal(rt, alloc, line, asked, text),
        Asked::Paths(asked) => add_of_paths(alloc, line, asked, text),
        Asked::Thunks(asked) => add_of_thunks(alloc, line, asked, text),
    }
}

/// What is answered to a row.
fn answer(
    rt: &(impl Threads + Wait + Sync),
    alloc: Global,
    asked: Asked,
    row: Row,
) -> Result<String, AllocError> {
    let text = row.text(alloc)?;
    let mut line = String::new(alloc);
    add_answer(rt, alloc, &mut line, asked, text.as_str())?;
    Ok(line)
}

/// Wants this text of a row with this front.
fn expect_answer(rt: &impl Abort, front: &str, found: &str, want: &str) {
    assert_eq!(rt; found, want, "for {front}");
}

/// Wants a row's answer.
fn expect_row(
    rt: &(impl Abort + Threads + Wait + Sync),
    alloc: Global,
    asked: Asked,
    row: Row,
) -> Result<(), Fail> {
    let line = answer(rt, alloc, asked, row)?;
    expect_answer(rt, row.front, line.as_str(), row.want);
    Ok(())
}

/// Wants each row's answer.
pub fn expect_rows(
    rt: &(impl Abort + Threads + Wait + Sync),
    alloc: Global,
    asked: Asked,
    rows: &'static str,
) -> Result<(), Fail> {
    for row in rows_of(alloc, rows)? {
        expect_row(rt, alloc, asked, row)?;
    }
    Ok(())
}
