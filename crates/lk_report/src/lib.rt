//! What is told of layouts: the report, line kind by line kind, and the line of a generated link's layout.
#![tactic(auto)]

mod live_sections;
mod merged;
pub mod report;
mod singles;
pub mod summary;
mod symbols;
mod thunks;

pub use report::{report_text, report_text_by_workers};
pub use summary::summary_text;
