//! Sections in the order of their names: keys that sort them, made by numbers alone.
#![tactic(auto)]

pub mod ranks;

pub use ranks::{in_order, sorted_keys};
