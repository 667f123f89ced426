//! What rows ask here.

use super::{add_calls, add_held, add_reads, add_whole, add_writes};
use lk_test_rows::{Asks, Line};
use std::alloc::Global;

/// What is asked about a text.
#[derive(Clone, Copy)]
pub enum Asked {
    /// What reads of a source give.
    Reads,
    /// What is read of a whole source.
    Whole,
    /// Under which limits so many bytes are read.
    Held,
    /// What becomes of pieces that are written.
    Writes,
    /// What odd readers and writers give.
    Calls,
}

impl<R> Asks<R> for Asked {
    fn tell(&self, _rt: &R, alloc: Global, line: &mut Line, text: &str) {
        match self {
            Asked::Reads => add_reads(alloc, line, text),
            Asked::Whole => add_whole(alloc, line, text),
            Asked::Held => add_held(alloc, line, text),
            Asked::Writes => add_writes(alloc, line, text),
            Asked::Calls => add_calls(line, text),
        }
    }
}
