//! Links made from a seed, to try a linker with and to measure it: the same words give the same link everywhere.
#![tactic(auto)]

mod draws;
pub mod laws;
mod link;
mod objects;
mod plan;

pub use crate::link::generate_link;
