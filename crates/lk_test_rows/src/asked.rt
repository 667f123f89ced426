//! That the answers to rows are theirs.

use crate::line::{Failed, Line};
use crate::rows::{Row, rows_of};
use std::alloc::{AllocError, Global};
use std::io::Eprint;

/// What the rows of a crate ask.
pub trait Asks<R> {
    /// Tells what is answered to a text.
    fn tell(&self, rt: &R, alloc: Global, line: &mut Line, text: &str);
}

/// Tells what is answered to a row.
fn tell_row<R, A: Asks<R>>(rt: &R, alloc: Global, asked: &A, line: &mut Line, row: Row) {
    match row.text(alloc) {
        Ok(text) => asked.tell(rt, alloc, line, text.as_str()),
        Err(_) => line.run_out(),
    }
}

/// Wants a row's answer.
fn expect_row<R: Eprint, A: Asks<R>>(
    rt: &R,
    alloc: Global,
    asked: &A,
    row: Row,
) -> Result<(), Failed> {
    let mut line = Line::new(alloc);
    tell_row(rt, alloc, asked, &mut line, row);
    match row.wanted(alloc) {
        Ok(want) => line.expect(rt, row.front, want.as_str()),
        Err(_) => Err(Failed::NoMemory),
    }
}

/// Wants the answers of these rows.
fn expect_each<R: Eprint, A: Asks<R>>(
    rt: &R,
    alloc: Global,
    asked: &A,
    rows: &Result<Vec<Row>, AllocError>,
) -> Result<(), Failed> {
    match rows {
        Ok(rows) => {
            for row in rows {
                expect_row(rt, alloc, asked, *row)?;
            }
            Ok(())
        }
        Err(_) => Err(Failed::NoMemory),
    }
}

/// Wants each row's answer.
pub fn expect_rows<R: Eprint, A: Asks<R>>(
    rt: &R,
    alloc: Global,
    asked: &A,
    rows: &'static str,
) -> Result<(), Failed> {
    expect_each(rt, alloc, asked, &rows_of(alloc, rows))
}
