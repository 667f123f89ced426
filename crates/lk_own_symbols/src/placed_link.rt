//! What is placed of a link.

use lk_link::LinkInput;
use lk_place::OutputRecordLayout;

/// A link with all that is placed of it.
#[derive(Clone, Copy)]
pub struct PlacedLink<'a> {
    pub link: &'a LinkInput,
    /// The bytes of the headers.
    pub headers: u64,
    /// Origin and length of each region.
    pub regions: &'a [(u64, u64)],
    /// What the location counter stood at: the base, and behind each event that set it.
    pub counters: &'a [u64],
    /// The records of output sections, each by itself.
    pub sections: &'a [OutputRecordLayout],
    /// The same with their secondaries.
    pub merged: &'a [OutputRecordLayout],
}
