//! What the symbols stand at that the linker itself places, and what redirects come to when all is placed.
#![tactic(auto)]

pub mod edges;
mod group_ends;
pub mod laws;
pub mod placed_link;
pub mod redirects;
pub mod symbol_values;
mod values_before;

pub use crate::edges::{Edges, edges_of};
pub use crate::placed_link::PlacedLink;
pub use crate::redirects::evaluate_redirects;
pub use crate::symbol_values::SymbolValues;
pub use lk_expressions::KnownValues;
