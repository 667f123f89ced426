//! Who takes the bytes of each part, how many they are, and which output sections are emitted.
#![tactic(auto)]

pub mod addresses;
pub mod attributes;
mod blocks;
mod commons;
pub mod error;
pub mod header;
pub mod images;
mod kept;
mod kept_symbols;
pub mod owners;
pub mod part_owners;
mod resized;
pub mod sorted;

pub use addresses::{CommonAddress, LiveSection, OwnerAddresses, owner_addresses};
pub use attributes::{attributes_of_contents, propagate_section_attributes};
pub use error::SizeError;
pub use header::determine_header_sizes;
pub use images::image_addresses;
pub use lk_link::{FileId, LinkInput, List, Place, Platform, SymbolId};
pub use lk_live::Live;
pub use lk_tables::{
    Common, DynamicNumbers, FileShare, HeaderInfo, HeaderSizes, PartialLinkPlan,
    PartialLinkSingletons, SymbolCopyInfo, TableTotals, dynamic_table, header_sizes, symbol_sizes,
};
pub use owners::{PartContents, PartTotal, content_totals, first_sizes, part_contents};
pub use part_owners::{
    PartOwners, add_thunks, part_sizes, part_sizes_with, plain_owners, resize_owners,
};
pub use sorted::{InputSortedSection, harvest_and_sort_script_sections};
