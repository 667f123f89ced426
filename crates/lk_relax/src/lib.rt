//! What relaxation deletes over a whole link, where input sections and symbols stand by that, a pass over the sections that are looked at,
//! the passes one after the other, and the look at what is deleted when all is placed.
#![tactic(auto)]

pub mod deletions;
mod judge;
pub mod laws;
mod passes;
pub mod placing;
pub mod positions;
pub mod relaxation;
pub mod scan;
pub mod sites;

pub use crate::deletions::sizes_after;
pub use crate::placing::place_first;
pub use crate::positions::compute_input_section_positions;
pub use crate::relaxation::{
    Relaxation, Relaxed, RelaxedParts, perform_iterative_relaxation, relax_owners,
};
pub use crate::scan::{StandingLink, relaxation_scan_pass};
pub use crate::sites::{RelaxedPlace, check_sites, is_nothing_deleted};
