//! Placement by its own calls: expressions, the walk over events, what records span, and what edges and redirects are worth.

use crate::placement::edges::add_edged;
use crate::placement::expressions::{add_beginning, add_plain, add_values};
use crate::placement::placed::{Spanned, add_placed};
use crate::placement::walked::add_walk;
use lk_input::{InputError, read_link};
use lk_link::LinkInput;
use std::alloc::{AllocError, Global};

mod edges;
mod expressions;
mod placed;
mod walked;

/// What is asked about a text.
#[derive(Clone, Copy)]
pub enum OfPlacement {
    /// What the base is worth.
    Values,
    /// What is evaluated before the first event.
    Beginning,
    /// Whether the plan is plain.
    Plain,
    /// What its records span.
    Placed(Spanned),
    /// Where the placement walk puts all.
    Walked,
    /// What the linker's own symbols stand at, and what redirects come to.
    Edged,
}

/// Adds what is answered of a link that there is.
fn add_found(
    alloc: Global,
    line: &mut String,
    asked: OfPlacement,
    link: &Result<LinkInput, InputError>,
) -> Result<(), AllocError> {
    match (asked, link) {
        (_, Err(error)) => write!(line, "no link: {error}"),
        (OfPlacement::Values, Ok(link)) => add_values(alloc, line, link),
        (OfPlacement::Beginning, Ok(link)) => add_beginning(alloc, line, link),
        (_, Ok(link)) => add_plain(line, link),
    }
}

/// Adds what is answered where the text is a description.
fn add_linked(
    alloc: Global,
    line: &mut String,
    asked: OfPlacement,
    text: &str,
) -> Result<(), AllocError> {
    let link = read_link(alloc, text.as_bytes());
    add_found(alloc, line, asked, &link)
}

/// Adds what is answered.
pub fn add_of_placement(
    alloc: Global,
    line: &mut String,
    asked: OfPlacement,
    text: &str,
) -> Result<(), AllocError> {
    match asked {
        OfPlacement::Placed(asked) => add_placed(alloc, line, asked, text),
        OfPlacement::Walked => add_walk(alloc, line, text),
        OfPlacement::Edged => add_edged(alloc, line, text),
        _ => add_linked(alloc, line, asked, text),
    }
}
