//! What stands in the tables of the output: whose entries they have, and how many bytes these take.
#![tactic(auto)]

pub mod by_groups;
pub mod commons;
pub mod copied;
pub mod dynamic;
pub mod header_info;
pub mod headers;
pub mod laws;
pub mod numbers;
pub mod partial_link;
pub mod shares;
pub mod singletons;
pub mod symbol_table;
pub mod totals;

pub use by_groups::symbol_shares_by_groups;
pub use commons::Common;
pub use copied::{SymbolCopyInfo, first_input_of};
pub use dynamic::dynamic_table;
pub use header_info::HeaderInfo;
pub use headers::{HeaderSizes, header_sizes};
pub use numbers::DynamicNumbers;
pub use partial_link::{PartialLinkPlan, PartialLinkSingletons};
pub use shares::{FileShare, SymbolShares, mark_prelude, symbol_shares};
pub use singletons::singleton_sizes;
pub use symbol_table::symbol_sizes;
pub use totals::{TableTotals, bytes_in_part, first_totals, whole_totals};
