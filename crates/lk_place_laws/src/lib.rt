//! Laws of placement that nothing computed needs: what is apart, what goes in step, and how far memory stands from the file.
#![tactic(auto)]

pub mod distance;
pub mod laws;
pub mod section_ranges;
pub mod segment_hulls;
