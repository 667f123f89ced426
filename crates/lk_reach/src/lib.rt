//! What is reached of a link from its roots: what each file and each unit asks for, and the walk over all of it.
#![tactic(auto)]

pub mod asks;
mod edges;
pub mod exports;
pub mod laws;
pub mod reaching;
pub mod root_asks;
mod scripts;
pub mod units;
pub mod walk;

pub use asks::{Successors, local_definition};
pub use exports::{ExportSymbolsMode, can_export_global_def, export_symbols_mode};
pub use reaching::{file_roots, roots, successors};
pub use root_asks::Roots;
pub use units::{Ask, Unit};
pub use walk::{Walk, files_of_inputs, section_number, unit_at};
