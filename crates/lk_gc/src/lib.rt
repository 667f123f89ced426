//! The traversal of a link by any number of workers, and what files and groups are in it. Gives on what `lk_live` names at its top, but
//! for its modules `faults` and `traversal`, and the types of `lk_workers`' traversal, with `FlagPass` and `Reach` of `lk_flags` and
//! some calls of `lk_reach`; contracts on that name words of `lk_workers`, `lk_flags`, `lk_slots`, `lk_slot_link` and
//! `lk_reach`. The state of a group that a worker steps is called `WorkerState` here.
#![tactic(auto)]

mod faults_by_groups;
pub mod states;
pub mod traversal;
pub mod walkers;

pub use lk_flags::{FlagPass, Reach};
pub use lk_live::{
    Ask, ExportSymbolsMode, GcError, InputAt, Live, LiveInputs, ReferenceFault, Successors, Unit,
    asks, can_export_global_def, error, export_symbols_mode, exports, file_roots, is_singleton,
    laws, live, live_exists, live_is_one, primary, primary_references, reaching, slot_after,
    successors, traverse_alone, units,
};
pub use lk_reach::{Roots, files_of_inputs, roots, unit_at};
pub use lk_workers::{
    Closed, GcLoadRequest, GroupState as WorkerState, LocalWorkQueue, Marks, Opened, Sent,
    Traversal, WorkItem, WorkerSlot,
};
pub use states::{
    DynamicLayoutState, EpilogueLayoutState, FileLayoutState, GroupState, HandlerData,
    LinkerScriptLayoutState, ObjectLayoutState, PreludeLayoutState, SymbolRequestHandler,
    SyntheticSymbolsLayoutState,
};
pub use traversal::traverse;
