//! What relaxation deletes of sections, where offsets go by that, and a pass over the candidates of one section. Passes over a whole
//! link are of `lk_relax`.
#![tactic(auto)]

mod candidates;
mod deletions;
mod delta_map;
mod deltas;
pub mod laws;
mod shards;

pub use crate::candidates::{Judge, Outcome, Scan, first_past, scan_candidates};
pub use crate::deletions::{deleted_in, deleted_of, map_of};
pub use crate::delta_map::RelaxDeltaMap;
pub use crate::deltas::{SectionRelaxDeltas, opt_input_to_output};
pub use crate::shards::split_ordered_symbol_ranges;
