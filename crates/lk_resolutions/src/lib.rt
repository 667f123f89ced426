//! Where what a link brings stands in memory, once its parts are placed, and what symbols stand for: the addresses of live sections, of
//! merged data and of commons, the value and the entries of each symbol, and the first offset that is chosen outside merged data.
#![tactic(auto)]

pub mod addresses;
pub mod by_groups;
mod entries;
pub mod images;
mod merged;
pub mod outside;
pub mod resolution;

pub use crate::addresses::{Addresses, PlacedParts, addresses_of};
pub use crate::by_groups::addresses_of_by_groups;
pub use crate::images::{Images, image_lens};
pub use crate::outside::{MergeOffsetPlace, check_offsets};
pub use crate::resolution::{EntryFault, entry_symbol, entry_value};
pub use lk_link::Resolution;
pub use lk_resolution_list::SymbolResolutions;
