//! Which output sections and segments have headers.

use lk_link::{List, SegmentId};

/// Which output sections and segments are told (libwild: `HeaderInfo`).
#[derive(Drop)]
pub struct HeaderInfo {
    /// For each output section whether it is emitted.
    pub emitted: List<bool>,
    /// For each output section whether symbols at its edges are told: where it is emitted, and in output that is linked again has
    /// a part that is no table.
    pub told: List<bool>,
    /// For each output section its index in the output; none where it isn't emitted.
    pub output_section_indexes: List<Option<u32>>,
    /// The active segments, in rising order.
    pub active_segment_ids: List<SegmentId>,
    /// How many sections have headers: emitted ones, and input sections that stay output sections of their own.
    pub num_output_sections_with_content: u32,
    /// The bytes of the names of the latter, with a zero byte behind each.
    pub partial_link_section_name_bytes: u64,
}
