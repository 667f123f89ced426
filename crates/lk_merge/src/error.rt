//! Why sections aren't merged.

use lk_link::OutputSectionId;
use std::alloc::{AllocError, AllocFailed};

/// Why sections aren't merged (libwild reports texts).
#[derive(Clone, Copy, Debug, PartialEq, Eq)]
pub enum MergeError {
    /// The strings of an input don't end in a zero byte.
    NotTerminated {
        section: OutputSectionId,
        /// Which of the inputs of the output section it is.
        input: u32,
    },
    /// A piece doesn't fit into its bucket.
    TooLarge {
        section: OutputSectionId,
        bucket: u32,
        /// Where in the bucket the piece would start, in bytes.
        offset: u64,
        /// The bytes of the piece.
        len: u64,
    },
    NoMemory,
}

impl From<AllocError> for MergeError {
    ghost use Rattle.std.specs.Prelude.{◌≡◌};
    ghost use Rattle.lk_merge.specs.declared.error.MergeError.TheVariants.{NoMemory};

    ghost from_gives = { λ _ e. e ≡ NoMemory };

    fn from(_error: AllocError) -> MergeError {
        MergeError::NoMemory
    }
}

impl<T: Drop> From<AllocFailed<T>> for MergeError {
    ghost use Rattle.std.specs.Prelude.{◌≡◌};
    ghost use Rattle.lk_merge.specs.declared.error.MergeError.TheVariants.{NoMemory};

    ghost from_gives = { λ _ e. e ≡ NoMemory };

    fn from(_error: AllocFailed<T>) -> MergeError {
        MergeError::NoMemory
    }
}
