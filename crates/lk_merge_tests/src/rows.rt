//! What rows ask here, and that the answers are theirs.

use crate::made::sized_link;
use crate::merging::{Merging, add_merged_by_workers, add_merging};
use lk_input::{InputError, read_link};
use lk_link::LinkInput;
use lk_test_rows::{Row, rows_of};
use std::alloc::{AllocError, Global};
use std::process::Abort;
use std::sync::Wait;
use std::test::Fail;
use std::thread::Threads;

/// What is asked about a text.
#[derive(Clone, Copy)]
pub enum Asked {
    /// What is merged of the description that it is.
    Of(Merging),
    /// What is merged of the link with a merged section of the size and the data that its words say.
    OfSized(Merging),
    /// What is merged of it by how many workers.
    ByWorkers,
}

/// The link that a text stands for.
fn link_of(alloc: Global, asked: Asked, text: &str) -> Result<LinkInput, InputError> {
    match asked {
        Asked::OfSized(_) => sized_link(alloc, text),
        _ => read_link(alloc, text.as_bytes()),
    }
}

/// Adds what is answered of a link.
fn add_of(
    rt: &(impl Threads + Wait + Sync),
    alloc: Global,
    line: &mut String,
    asked: Asked,
    link: &LinkInput,
) -> Result<(), AllocError> {
    match asked {
        Asked::Of(told) | Asked::OfSized(told) => add_merging(alloc, line, told, link),
        Asked::ByWorkers => add_merged_by_workers(rt, alloc, line, link),
    }
}

/// Adds what is answered of a link that there is.
fn add_found(
    rt: &(impl Threads + Wait + Sync),
    alloc: Global,
    line: &mut String,
    asked: Asked,
    link: &Result<LinkInput, InputError>,
) -> Result<(), AllocError> {
    match link {
        Ok(link) => add_of(rt, alloc, line, asked, link),
        Err(error) => write!(line, "no link: {error}"),
    }
}

/// What is answered to a row.
fn answer(
    rt: &(impl Threads + Wait + Sync),
    alloc: Global,
    asked: Asked,
    row: Row,
) -> Result<String, AllocError> {
    let text = row.text(alloc)?;
    let link = link_of(alloc, asked, text.as_str());
    let mut line = String::new(alloc);
    add_found(rt, alloc, &mut line, asked, &link)?;
    Ok(line)
}

/// Wants this text of a row with this front.
fn expect_answer(rt: &impl Abort, front: &str, found: &str, want: &str) {
    assert_eq!(rt; found, want, "for {front}");
}

/// Wants a row's answer.
fn expect_row(
    rt: &(impl Abort + Threads + Wait + Sync),
    alloc: Global,
    asked: Asked,
    row: Row,
) -> Result<(), Fail> {
    let line = answer(rt, alloc, asked, row)?;
    expect_answer(rt, row.front, line.as_str(), row.want);
    Ok(())
}

/// Wants each row's answer.
pub fn expect_rows(
    rt: &(impl Abort + Threads + Wait + Sync),
    alloc: Global,
    asked: Asked,
    rows: &'static str,
) -> Result<(), Fail> {
    for row in rows_of(alloc, rows)? {
        expect_row(rt, alloc, asked, row)?;
    }
    Ok(())
}

/// Wants this text.
pub fn expect_text(rt: &impl Abort, found: &str, want: &str) {
    assert_eq!(rt; found, want);
}
