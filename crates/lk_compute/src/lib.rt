//! Lays out a link: which input sections are kept, the address and file range of every part, section and segment, and what symbols
//! stand for.
#![tactic(auto)]

mod computation;
mod headers;
mod images;
mod job;

pub use crate::computation::{compute, compute_alone};
