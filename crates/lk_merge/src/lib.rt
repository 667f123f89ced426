//! The merging of strings and constants: of equal pieces of the input sections that go to one output section, the output
//! holds one.
#![tactic(auto)]

pub mod addresses;
pub mod bucket;
pub mod bucket_work;
pub mod cell;
mod ending;
pub mod error;
pub mod group_starts;
mod group_strings;
pub mod groups;
pub mod hash;
pub mod inputs;
pub mod laws;
pub mod link_inputs;
pub mod link_merging;
pub mod matrix_work;
mod merging;
pub mod offset;
pub mod offset_map;
pub mod offsets_outside;
pub mod output_address;
mod piece_starts;
mod room;
pub mod section;
mod shared_matrix;
pub mod string;
mod workers;

pub use addresses::MergedStringStartAddresses;
pub use bucket::MergeStringsSectionBucket;
pub use bucket_work::BucketWork;
pub use cell::{Fill, MatrixCell, Take};
pub use error::MergeError;
pub use groups::{SectionGroup, split_sections};
pub use hash::{Fnv64, PieceHash};
pub use inputs::{StringMergeInputSection, StringMergeInputSections, total_input_size};
pub use link_inputs::StringMergeInputs;
pub use link_merging::{merge_strings, merge_strings_alone};
pub use matrix_work::Brings;
pub use offset::{BucketOffset, LinearInputOffset};
pub use offset_map::OffsetMap;
pub use offsets_outside::{refers_outside, refers_outside_in, stands_outside_in};
pub use output_address::{
    OffsetPastEnd, get_merged_string_output_address, get_merged_string_output_address_in,
};
pub use section::{MergedStringsSection, find_string};
pub use string::MergeString;
