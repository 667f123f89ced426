//! What is live of a link: what is kept of what is reached from its roots, the references that can't be met, and the walk on one
//! thread. Gives on what `lk_reach` offers, so a caller needs this crate alone.
#![tactic(auto)]

pub mod error;
pub mod faults;
mod keep;
pub mod laws;
pub mod live;
mod named;
pub mod primary;
pub mod traversal;

pub use error::{GcError, InputAt, ReferenceFault};
pub use laws::{live_exists, live_is_one};
pub use live::{Live, LiveInputs, is_singleton, slot_after};
pub use lk_reach::{
    Ask, ExportSymbolsMode, Successors, Unit, asks, can_export_global_def, export_symbols_mode,
    exports, file_roots, reaching, successors, units,
};
pub use primary::primary_references;
pub use traversal::traverse_alone;
