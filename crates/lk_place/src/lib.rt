//! Where parts, output sections and segments stand in the file and in memory. Gives on what `lk_expressions` offers, so a caller needs
//! this crate alone.
#![tactic(auto)]

pub mod alignments;
pub mod base;
pub mod cursors;
pub mod error;
pub mod file_range;
pub mod hulls;
mod in_region;
pub mod laws;
mod loads;
mod locations;
mod placed_at;
mod placement;
pub mod plain;
mod records_before;
pub mod regions;
pub mod secondaries;
pub mod segments;
mod start;
pub mod walk;
mod walking;

pub use crate::alignments::compute_segment_alignments;
pub use crate::base::first_memory;
pub use crate::cursors::{Cursors, Offsets};
pub use crate::error::{PlaceError, Refusal};
pub use crate::file_range::assign_section_file_range;
pub use crate::hulls::layout_section_from_part_layouts;
pub use crate::plain::is_plain;
pub use crate::regions::{SectionRegion, evaluate_regions};
pub use crate::secondaries::merge_secondary_parts;
pub use crate::segments::{
    SegmentFileLayout, SegmentLayout, SegmentLayouts, compute_segment_layout,
};
pub use crate::walk::{Placed, compute_layout_sections};
pub use lk_expressions::{
    Constant, EarlySurroundings, GivenRecords, GivenValues, LateSurroundings, NoValue,
    OutputRecordLayout, SymbolPosition, SymbolPositions, constant_redirects, evaluate_const,
    evaluate_early_expression, evaluate_expression, names_no_symbol,
};
