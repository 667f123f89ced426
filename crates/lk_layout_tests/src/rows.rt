//! What rows ask here, and that the answers are theirs.

use crate::files::{add_moved, add_told};
use crate::layout::{add_shared, add_workers};
use crate::lent::add_lent;
use crate::queries::add_queries;
use crate::writer::add_written;
use lk_input::read_link;
use lk_test_rows::{Row, rows_of};
use std::alloc::{AllocError, Global};
use std::process::Abort;
use std::sync::Wait;
use std::test::Fail;
use std::thread::Threads;

/// What is asked about a text.
#[derive(Clone, Copy)]
pub enum Asked {
    /// What reports are made of it by how many workers.
    Workers,
    /// Whether workers make one report of it, and whether they walk.
    Shared,
    /// What the layout of it tells of starts.
    Starts,
    /// What it tells of symbols.
    Symbols,
    /// What is told where a section is moved in the file; the words for it stand in front of the link.
    Moved,
    /// What is told of the groups of its layout.
    Groups,
    /// What its layout lends.
    Lent,
    /// What it answers a writer of output files.
    Written,
}

/// Adds what is answered where the text stands for a link.
fn add_linked(
    rt: &(impl Threads + Wait + Sync),
    alloc: Global,
    line: &mut String,
    asked: Asked,
    text: &str,
) -> Result<(), AllocError> {
    match read_link(alloc, text.as_bytes()) {
        Ok(link) => match asked {
            Asked::Shared => add_shared(rt, alloc, line, &link),
            _ => add_workers(rt, alloc, line, &link),
        },
        Err(error) => write!(line, "no link: {error}"),
    }
}

/// Adds what is told where a section is moved, by the words in front of the text that stands for a link.
fn add_worded(alloc: Global, line: &mut String, text: &str) -> Result<(), AllocError> {
    let (words, text) = text.split_once(" / ").unwrap_or(("", text));
    match read_link(alloc, text.as_bytes()) {
        Ok(link) => add_moved(alloc, line, &link, words),
        Err(error) => write!(line, "no link: {error}"),
    }
}

/// Adds what is told of groups where the text stands for a link.
fn add_all_groups(alloc: Global, line: &mut String, text: &str) -> Result<(), AllocError> {
    match read_link(alloc, text.as_bytes()) {
        Ok(link) => add_told(alloc, line, &link),
        Err(error) => write!(line, "no link: {error}"),
    }
}

/// Adds what is lent where the text stands for a link.
fn add_all_lent(alloc: Global, line: &mut String, text: &str) -> Result<(), AllocError> {
    match read_link(alloc, text.as_bytes()) {
        Ok(link) => add_lent(alloc, line, &link),
        Err(error) => write!(line, "no link: {error}"),
    }
}

/// Adds what is answered.
fn add_answer(
    rt: &(impl Threads + Wait + Sync),
    alloc: Global,
    line: &mut String,
    asked: Asked,
    text: &str,
) -> Result<(), AllocError> {
    match asked {
        Asked::Workers | Asked::Shared => add_linked(rt, alloc, line, asked, text),
        Asked::Starts | Asked::Symbols => add_queries(alloc, line, asked, text),
        Asked::Moved => add_worded(alloc, line, text),
        Asked::Groups => add_all_groups(alloc, line, text),
        Asked::Lent => add_all_lent(alloc, line, text),
        Asked::Written => add_written(alloc, line, text),
    }
}

/// What is answered to a row.
fn answer(
    rt: &(impl Threads + Wait + Sync),
    alloc: Global,
    asked: Asked,
    row: Row,
) -> Result<String, AllocError> {
    let text = row.text(alloc)?;
    let mut line = String::new(alloc);
    add_answer(rt, alloc, &mut line, asked, text.as_str())?;
    Ok(line)
}

/// Wants this text of a row with this front.
fn expect_answer(rt: &impl Abort, front: &str, found: &str, want: &str) {
    assert_eq!(rt; found, want, "for {front}");
}

/// Wants a row's answer.
fn expect_row(
    rt: &(impl Abort + Threads + Wait + Sync),
    alloc: Global,
    asked: Asked,
    row: Row,
) -> Result<(), Fail> {
    let line = answer(rt, alloc, asked, row)?;
    expect_answer(rt, row.front, line.as_str(), row.want);
    Ok(())
}

/// Wants each row's answer.
pub fn expect_rows(
    rt: &(impl Abort + Threads + Wait + Sync),
    alloc: Global,
    asked: Asked,
    rows: &'static str,
) -> Result<(), Fail> {
    for row in rows_of(alloc, rows)? {
        expect_row(rt, alloc, asked, row)?;
    }
    Ok(())
}
