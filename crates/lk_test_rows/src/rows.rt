//! Rows of a text: what is given, and behind an arrow what is told of it. Rows cost nothing to prove, so nearly all cases
//! of all topics are rows, and few functions walk them.
//!
//! Behind the arrow stands the answer. In front of it stands what a description has in place of the dots of its frame; a
//! frame is a row that begins with `@`, and holds for the rows below it. Several fronts with one answer stand in one row,
//! with bars between. `«65 of X»` stands for 65 times X with commas between, `«65 times X»` for as many with nothing
//! between. Rows that begin with `#` are remarks.

use std::alloc::{AllocError, Global};
use std::fmt::Debug;

/// Adds so many of an item as the front of `65 of X` or `65 times X` tells, with this between them.
fn push_items(text: &mut String, count: &str, between: &str, item: &str) -> Result<(), AllocError> {
    for number in 0..count.parse::<usize>().unwrap_or(0) {
        if number > 0 {
            text.push_str(between)?;
        }
        text.push_str(item)?;
    }
    Ok(())
}

/// Adds what `65 of X` or `65 times X` stands for.
fn push_repeated(text: &mut String, told: &str) -> Result<(), AllocError> {
    match told.split_once(" times ") {
        Some((count, item)) => push_items(text, count, "", item),
        None => {
            let (count, item) = told.split_once(" of ").unwrap_or(("0", ""));
            push_items(text, count, ",", item)
        }
    }
}

/// A text, with all that it tells as `«65 of X»` or `«65 times X»`.
fn expanded(alloc: Global, told: &str) -> Result<String, AllocError> {
    let mut text = String::new(alloc);
    for piece in told.split('»') {
        let (before, items) = piece.split_once('«').unwrap_or((piece, "0 of "));
        text.push_str(before)?;
        push_repeated(&mut text, items)?;
    }
    Ok(text)
}

/// What stands before and behind the front of a row.
#[derive(Clone, Copy)]
pub struct Frame {
    before: &'static str,
    after: &'static str,
}

/// The frame of rows that stand for themselves.
pub const NO_FRAME: Frame = Frame {
    before: "",
    after: "",
};

/// The frame that a text with dots is.
pub fn frame_of(text: &'static str) -> Frame {
    let (before, after) = text.split_once("...").unwrap_or((text, ""));
    Frame { before, after }
}

/// The text that a front is in its frame.
pub fn framed(alloc: Global, frame: Frame, front: &str) -> Result<String, AllocError> {
    let (before, after) = (frame.before, frame.after);
    let text = format!(in alloc; "{before}{front}{after}")?;
    expanded(alloc, text.as_str())
}

/// A front of a row, in its frame, and the answer that is wanted.
#[derive(Clone, Copy)]
pub struct Row {
    frame: Frame,
    /// What stands in front of the arrow.
    pub front: &'static str,
    /// What stands behind it.
    pub want: &'static str,
}

impl Row {
    /// The text that is asked about.
    pub fn text(&self, alloc: Global) -> Result<String, AllocError> {
        framed(alloc, self.frame, self.front)
    }

    /// The text that is wanted.
    pub fn wanted(&self, alloc: Global) -> Result<String, AllocError> {
        expanded(alloc, self.want)
    }
}

/// Adds each front of a row.
fn push_fronts(rows: &mut Vec<Row>, frame: Frame, row: &'static str) -> Result<(), AllocError> {
    let (fronts, want) = row.split_once(" => ").unwrap_or((row, "an arrow"));
    for front in fronts.split(" | ") {
        rows.push(Row { frame, front, want })?;
    }
    Ok(())
}

/// The fronts of all rows of a text.
pub fn rows_of(alloc: Global, text: &'static str) -> Result<Vec<Row>, AllocError> {
    let mut rows = Vec::new(alloc);
    let mut frame = NO_FRAME;
    for row in text.lines() {
        if let Some(next) = row.strip_prefix("@ ") {
            frame = frame_of(next);
        } else if !row.is_empty() && !row.starts_with('#') {
            push_fronts(&mut rows, frame, row)?;
        }
    }
    Ok(rows)
}

/// Adds a word and a value to a line, behind a space where it isn't empty.
pub fn add<T: Debug>(line: &mut String, word: &str, value: &T) -> Result<(), AllocError> {
    if !line.is_empty() {
        line.push(' ')?;
    }
    write!(line, "{word} {value:?}")
}
