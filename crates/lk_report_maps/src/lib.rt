//! Reports as maps: laws alone. What is told of a layout is a map of its own lines, is read as its own sections and segments, and
//! under a plain plan these are good.
#![tactic(auto)]

pub mod laws;
pub mod values;
