//! The slot machine over a link: what its steps do to the link's units, in any order, and what they come to.
#![tactic(auto)]

pub mod laws;
