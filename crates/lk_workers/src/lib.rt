//! The traversal of a link by workers: items that go from group to group, a slot for each group in which others leave them, and the
//! state of a group, which lies behind a lock of its own.
#![tactic(auto)]

pub mod closed;
pub mod laws;
pub mod marks;
pub mod opened;
pub mod slot;
pub mod state;
pub mod traversal;
pub mod work;
pub mod workers;

pub use closed::Closed;
pub use marks::Marks;
pub use opened::Opened;
pub use slot::{Sent, WorkerSlot};
pub use state::GroupState;
pub use traversal::Traversal;
pub use work::{GcLoadRequest, LocalWorkQueue, WorkItem};
pub use workers::{run_all, walk_by_workers};
