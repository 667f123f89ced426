//! Soundness: what holds of each defined layout, by laws.
#![tactic(auto)]

pub mod laws;
