//! Where the groups of a link begin in the tables of symbols.
#![tactic(auto)]

pub mod group_starts;

pub use crate::group_starts::{GroupStarts, Table};
