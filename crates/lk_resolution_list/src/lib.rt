//! What symbols stand for, kept by number in 16 bytes for most, and redirects that come to their values there.
#![tactic(auto)]

mod kept;
pub mod laws;
pub mod symbol_resolutions;

pub use crate::symbol_resolutions::SymbolResolutions;
