//! What rows ask here, and that the answers are theirs.

use crate::checking::{crowded_link, hand_made_link};
use crate::reading::add_result;
use crate::shown::{Shown, add_shown};
use lk_input::{InputError, read_link};
use lk_link::LinkInput;
use lk_test_rows::{Row, rows_of};
use std::alloc::{AllocError, Global};
use std::process::Abort;
use std::test::Fail;

/// What is asked about a text.
#[derive(Clone, Copy)]
pub enum Asked {
    /// Whether it is read as a description, or where its first fault is.
    Outcome,
    /// What is told of the description that it is.
    Of(Shown),
    /// What is told of the link that its words stand for.
    OfHandMade(Shown),
    /// What is told of the link of as many parts and events as its words say.
    OfCrowded(Shown),
}

/// The link that a text stands for.
fn link_of(alloc: Global, asked: Asked, text: &str) -> Result<LinkInput, InputError> {
    match asked {
        Asked::OfHandMade(_) => hand_made_link(alloc, text),
        Asked::OfCrowded(_) => crowded_link(alloc, text),
        _ => read_link(alloc, text.as_bytes()),
    }
}

/// Adds what is told of a link that there is.
fn add_found(
    alloc: Global,
    line: &mut String,
    shown: Shown,
    link: &Result<LinkInput, InputError>,
) -> Result<(), AllocError> {
    match link {
        Ok(link) => add_shown(alloc, line, shown, link),
        Err(error) => write!(line, "no link: {error}"),
    }
}

/// Adds what is answered of what a text stands for.
fn add_of(
    alloc: Global,
    line: &mut String,
    asked: Asked,
    link: &Result<LinkInput, InputError>,
) -> Result<(), AllocError> {
    match asked {
        Asked::Outcome => add_result(line, link),
        Asked::Of(shown) | Asked::OfHandMade(shown) | Asked::OfCrowded(shown) => {
            add_found(alloc, line, shown, link)
        }
    }
}

/// Adds what is answered.
fn add_answer(
    alloc: Global,
    line: &mut String,
    asked: Asked,
    text: &str,
) -> Result<(), AllocError> {
    let link = link_of(alloc, asked, text);
    add_of(alloc, line, asked, &link)
}

/// What is answered to a row.
fn answer(alloc: Global, asked: Asked, row: Row) -> Result<String, AllocError> {
    let text = row.text(alloc)?;
    let mut line = String::new(alloc);
    add_answer(alloc, &mut line, asked, text.as_str())?;
    Ok(line)
}

/// Wants this text of a row with this front.
pub fn expect_answer(rt: &impl Abort, front: &str, found: &str, want: &str) {
    assert_eq!(rt; found, want, "for {front}");
}

/// Wants a row's answer.
fn expect_row(rt: &impl Abort, alloc: Global, asked: Asked, row: Row) -> Result<(), Fail> {
    let line = answer(alloc, asked, row)?;
    expect_answer(rt, row.front, line.as_str(), row.want);
    Ok(())
}

/// Wants each row's answer.
pub fn expect_rows(
    rt: &impl Abort,
    alloc: Global,
    asked: Asked,
    rows: &'static str,
) -> Result<(), Fail> {
    for row in rows_of(alloc, rows)? {
        expect_row(rt, alloc, asked, row)?;
    }
    Ok(())
}

/// Wants this text.
pub fn expect_text(rt: &impl Abort, found: &str, want: &str) {
    assert_eq!(rt; found, want);
}
