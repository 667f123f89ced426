//! Why a unit of a link is kept: shortest paths of asks from the roots, a search for the one that is shown, and a check of any
//! list of units.
#![tactic(auto)]

pub mod check;
pub mod laws;
mod places;
mod references;
mod search;
mod shared;
pub mod shown;

pub use check::{PathFault, check_path, has_unit};
pub use lk_reach::{Unit, units};
pub use shown::{ExplainError, explain};
