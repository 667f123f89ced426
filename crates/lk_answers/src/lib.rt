//! What is asked of a layout once it is found: of symbols, of where sections and thread-local data start, and of files and their groups.
//! Gives on what a layout's answers are made of, so a caller needs this crate beside `lk_layout` alone.
#![tactic(auto)]

pub mod answers;
pub mod files;
pub mod group_layouts;
mod in_range;
mod queries;
pub mod query_laws;
pub mod section_resolution;
pub mod section_slots;

pub use crate::answers::Answers;
pub use crate::files::FileLayout;
pub use crate::group_layouts::{GroupLayout, GroupLayouts};
pub use crate::in_range::ResolutionsInRange;
pub use crate::section_resolution::SectionResolution;
