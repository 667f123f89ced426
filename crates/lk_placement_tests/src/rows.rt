//! What rows ask here, and that the answers are theirs.

use crate::placement::{OfPlacement, add_of_placement};
use crate::relaxed::add_relaxed;
use crate::sizes::{OfSizes, add_of_sizes};
use lk_test_rows::{Row, rows_of};
use std::alloc::{AllocError, Global};
use std::process::Abort;
use std::sync::Wait;
use std::test::Fail;
use std::thread::Threads;

/// What is asked about a text.
#[derive(Clone, Copy)]
pub enum Asked {
    /// What comes into parts and tables.
    Sizes(OfSizes),
    /// Where it is placed, and what expressions and symbols are worth there.
    Placement(OfPlacement),
    /// What relaxation deletes of a description, and where all is placed then.
    Relaxed,
}

/// Adds what is answered.
fn add_answer(
    rt: &(impl Threads + Wait + Sync),
    alloc: Global,
    line: &mut String,
    asked: Asked,
    text: &str,
) -> Result<(), AllocError> {
    match asked {
        Asked::Sizes(asked) => add_of_sizes(rt, alloc, line, asked, text),
        Asked::Placement(asked) => add_of_placement(alloc, line, asked, text),
        Asked::Relaxed => add_relaxed(alloc, line, text),
    }
}

/// What is answered to a row.
fn answer(
    rt: &(impl Threads + Wait + Sync),
    alloc: Global,
    asked: Asked,
    row: Row,
) -> Result<String, AllocError> {
    let text = row.text(alloc)?;
    let mut line = String::new(alloc);
    add_answer(rt, alloc, &mut line, asked, text.as_str())?;
    Ok(line)
}

/// Wants this text of a row with this front.
fn expect_answer(rt: &impl Abort, front: &str, found: &str, want: &str) {
    assert_eq!(rt; found, want, "for {front}");
}

/// Wants a row's answer.
fn expect_row(
    rt: &(impl Abort + Threads + Wait + Sync),
    alloc: Global,
    asked: Asked,
    row: Row,
) -> Result<(), Fail> {
    let line = answer(rt, alloc, asked, row)?;
    expect_answer(rt, row.front, line.as_str(), row.want);
    Ok(())
}

/// Wants each row's answer.
pub fn expect_rows(
    rt: &(impl Abort + Threads + Wait + Sync),
    alloc: Global,
    asked: Asked,
    rows: &'static str,
) -> Result<(), Fail> {
    for row in rows_of(alloc, rows)? {
        expect_row(rt, alloc, asked, row)?;
    }
    Ok(())
}

/// Wants this text.
pub fn expect_text(rt: &impl Abort, found: &str, want: &str) {
    assert_eq!(rt; found, want);
}
