//! Between what is planned of thunks and a layout: the plan of a link's thunks by what fills its parts, whose the thunks of each block
//! are and where they stand, and the look at all live branches over final addresses.
//!
//! That branches reach is looked at, and not concluded from the planning: objects are planned end to end by their own sizes, while
//! parts have padding, commons, the thunks themselves and other sections between.
#![tactic(auto)]

pub mod check;
pub mod laws;
pub mod places;
pub mod thunk_plan;

pub use check::{BranchPlace, Branches, check_branches};
pub use places::{block_owners, block_places};
pub use thunk_plan::{ThunkPlan, plan_thunks};
