//! Sizes and tables by their own calls: what comes into parts, and what takes bytes of tables.

use crate::sizes::made::hand_made_link;
use crate::sizes::owned::add_owned;
use crate::sizes::partial::add_partial;
use crate::sizes::parts::{add_live, add_sizes, add_sums};
use crate::sizes::tables::add_tables;
use lk_input::{InputError, read_link};
use lk_link::LinkInput;
use std::alloc::{AllocError, Global};
use std::sync::Wait;
use std::thread::Threads;

mod commons;
mod made;
mod owned;
mod partial;
mod parts;
mod tables;

/// What is asked about a text.
#[derive(Clone, Copy)]
pub enum OfSizes {
    /// What is live of the description that it is, and what that brings to parts and sections.
    Live,
    /// The same of the link that its words stand for.
    HandMadeLive,
    /// What sizes its parts come to.
    Sizes,
    /// How many bytes each part has, or why none has any.
    Sums,
    /// Whose the bytes of parts are.
    Owned,
    /// What symbols and headers take in tables.
    Tables,
    /// What is known of output that is linked again.
    Partial,
}

/// The link that a text stands for.
fn link_of(alloc: Global, asked: OfSizes, text: &str) -> Result<LinkInput, InputError> {
    match asked {
        OfSizes::HandMadeLive => hand_made_link(alloc, text),
        _ => read_link(alloc, text.as_bytes()),
    }
}

/// Adds what is answered of a link.
fn add_of(
    rt: &(impl Threads + Wait + Sync),
    alloc: Global,
    line: &mut String,
    asked: OfSizes,
    link: &LinkInput,
) -> Result<(), AllocError> {
    match asked {
        OfSizes::Live | OfSizes::HandMadeLive => add_live(alloc, line, link),
        OfSizes::Sizes => add_sizes(alloc, line, link),
        OfSizes::Sums => add_sums(rt, alloc, line, link),
        OfSizes::Owned => add_owned(alloc, line, link),
        OfSizes::Tables => add_tables(alloc, line, link),
        OfSizes::Partial => add_partial(alloc, line, link),
    }
}

/// Adds what is answered of a link that there is.
fn add_found(
    rt: &(impl Threads + Wait + Sync),
    alloc: Global,
    line: &mut String,
    asked: OfSizes,
    link: &Result<LinkInput, InputError>,
) -> Result<(), AllocError> {
    match link {
        Ok(link) => add_of(rt, alloc, line, asked, link),
        Err(error) => write!(line, "no link: {error}"),
    }
}

/// Adds what is answered.
pub fn add_of_sizes(
    rt: &(impl Threads + Wait + Sync),
    alloc: Global,
    line: &mut String,
    asked: OfSizes,
    text: &str,
) -> Result<(), AllocError> {
    let link = link_of(alloc, asked, text);
    add_found(rt, alloc, line, asked, &link)
}
