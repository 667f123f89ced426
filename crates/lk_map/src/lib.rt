//! Reads a map, which is a text in the form of this program's report whoever made it, and says whether its sections and segments go
//! together.
#![tactic(auto)]

mod check;
mod cut;
mod forms;
mod held;
pub mod laws;
mod lines;
mod map_text;
mod numbers;
mod spans;
mod straight;
mod sweep;

pub use crate::check::{MapFault, check_map};
pub use crate::map_text::{MapError, MapText, SectionLine, SegmentLine, read_map};
