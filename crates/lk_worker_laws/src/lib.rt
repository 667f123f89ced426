//! Laws on what a traversal by workers came to, which nothing computed needs.
#![tactic(auto)]

pub mod laws;
