//! Thunks by their own calls: blocks, what is planned for a link, and which branches reach.

use crate::thunks::blocks::add_blocks;
use crate::thunks::planned::add_planned;
use crate::thunks::reach::add_reach;
use std::alloc::{AllocError, Global};

mod blocks;
mod planned;
mod reach;

/// What is asked about a text.
#[derive(Clone, Copy)]
pub enum OfThunks {
    /// The blocks of objects, by a range, and where each object begins and its bytes.
    Blocks,
    /// What is planned for the link that a description is, by where its first object stands.
    Planned,
    /// Whether branches reach, by a range, and for each branch its own address, that of its target and that of its thunk.
    Reach,
}

/// The number that a text is, or 0.
pub fn number(text: &str) -> u64 {
    text.trim().parse::<u64>().unwrap_or(0)
}

/// Adds what is answered.
pub fn add_of_thunks(
    alloc: Global,
    line: &mut String,
    asked: OfThunks,
    text: &str,
) -> Result<(), AllocError> {
    match asked {
        OfThunks::Blocks => add_blocks(alloc, line, text),
        OfThunks::Planned => add_planned(alloc, line, text),
        OfThunks::Reach => add_reach(alloc, line, text),
    }
}
