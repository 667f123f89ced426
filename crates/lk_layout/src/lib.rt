//! The answer of a link: what a layout tells, what is refused, which of them it is, and the stages by which it is found. The layout is
//! found by `lk_compute`; what is asked of one besides what it lends is answered by `lk_answers`.
#![tactic(auto)]

pub mod error;
mod file_ranges;
mod late_marks;
pub mod laws;
pub mod layout;
mod references;
pub mod stages;
mod thunk_users;

pub use crate::error::{LayoutError, ReachKind};
pub use crate::layout::Layout;
pub use lk_link::Resolution;
pub use lk_live::ReferenceFault;
pub use lk_merge::{MergedStringStartAddresses, MergedStringsSection};
pub use lk_resolution_list::SymbolResolutions;
pub use lk_resolutions::{EntryFault, MergeOffsetPlace};
pub use lk_sizes::LiveSection;
pub use lk_thunks::{Arch, Small64Arch, ThunkBlock, ThunkConfig};
