//! Lines of a text, each made from its end to its front.
#![tactic(auto)]

pub mod line;

pub use crate::line::{Line, ROOM};
