//! How much is read.

/// The most bytes of an input that are read.
pub const LONGEST_INPUT: u64 = 1073741824;
