//! Laws on owners and sizes: what holds of the owners of each part, of sorted sections and of what groups of files bring.
#![tactic(auto)]

pub mod laws;
