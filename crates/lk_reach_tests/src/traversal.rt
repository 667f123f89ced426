//! The traversal by its own calls: what is asked for, reached and live, on one thread and by workers.

use crate::traversal::kept::{add_exports, add_states, add_traversals};
use crate::traversal::reached::{add_asks, add_reached};
use crate::traversal::workers::{add_by_turns, add_in_lock_step, add_walks};
use lk_input::{InputError, read_link};
use lk_link::LinkInput;
use std::alloc::{AllocError, Global};
use std::sync::Wait;
use std::thread::Threads;

mod kept;
mod reached;
mod workers;

/// What is asked of a description.
#[derive(Clone, Copy)]
pub enum OfTraversal {
    /// What its files, symbols and sections ask for.
    Asks,
    /// What is reached by that.
    Reached,
    /// What its files are called and load.
    States,
    /// What they export.
    Exports,
    /// What is live of it by how many workers.
    Traversals,
    /// What its groups come to that run in turn, and what a slot answers.
    Turns,
    /// What two workers find in lock step.
    LockStep,
    /// Whether no, one and four workers answer what is reached.
    Walks,
}

/// Adds what is answered of a link.
fn add_of(
    rt: &(impl Threads + Wait + Sync),
    alloc: Global,
    line: &mut String,
    asked: OfTraversal,
    link: &LinkInput,
) -> Result<(), AllocError> {
    match asked {
        OfTraversal::Asks => add_asks(line, link),
        OfTraversal::Reached => add_reached(alloc, line, link),
        OfTraversal::States => add_states(alloc, line, link),
        OfTraversal::Exports => add_exports(line, link),
        OfTraversal::Traversals => add_traversals(rt, alloc, line, link),
        OfTraversal::Turns => add_by_turns(rt, alloc, line, link),
        OfTraversal::LockStep => add_in_lock_step(rt, alloc, line, link),
        OfTraversal::Walks => add_walks(rt, alloc, line, link),
    }
}

/// Adds what is answered of a link that there is.
fn add_found(
    rt: &(impl Threads + Wait + Sync),
    alloc: Global,
    line: &mut String,
    asked: OfTraversal,
    link: &Result<LinkInput, InputError>,
) -> Result<(), AllocError> {
    match link {
        Ok(link) => add_of(rt, alloc, line, asked, link),
        Err(error) => write!(line, "no link: {error}"),
    }
}

/// Adds what is answered.
pub fn add_of_traversal(
    rt: &(impl Threads + Wait + Sync),
    alloc: Global,
    line: &mut String,
    asked: OfTraversal,
    text: &str,
) -> Result<(), AllocError> {
    let link = read_link(alloc, text.as_bytes());
    add_found(rt, alloc, line, asked, &link)
}
