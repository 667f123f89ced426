//! Where branches of limited range get help: the objects of the code are split into blocks, each with thunks of its own behind
//! the bytes of its owner, and a branch that doesn't reach its target goes by its block's thunk for it.
//!
//! Here stand the planning, by where objects would stand end to end, and the test of branches. That the branches of a layout
//! reach isn't said here: the addresses of thunks, the bytes that a block's owner takes for them, and the test of all branches
//! over final addresses are the layout's.
#![tactic(auto)]

pub mod arch;
pub mod blocks;
pub mod builder;
pub mod homes;
pub mod laws;
pub mod ranges;
pub mod reach;
pub mod sets;

pub use arch::{Arch, Small64Arch, ThunkConfig};
pub use blocks::{Block, ThunkBlockId, assign_thunk_blocks};
pub use builder::ThunkLayoutBuilder;
pub use ranges::total_primary_bytes;
pub use reach::{BranchSite, OutOfReach, check_reach};
pub use sets::{ThunkBlock, ThunkBlockBuilder};
