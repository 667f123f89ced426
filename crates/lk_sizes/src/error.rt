//! Why there are no sizes.

use lk_link::Place;
use std::alloc::{AllocError, AllocFailed};

/// Why there are no sizes (libwild reports texts).
#[derive(Clone, Copy, Debug, PartialEq, Eq)]
pub enum SizeError {
    /// The sizes of the parts up to this one, the first such part, pass 2^64 - 1 together.
    AddressOverflow { place: Place },
    /// There was no memory for the tables.
    NoMemory,
}

impl From<AllocError> for SizeError {
    ghost use Rattle.std.specs.Prelude.{◌≡◌};
    ghost use Rattle.lk_sizes.specs.declared.error.SizeError.TheVariants.{NoMemory};

    ghost from_gives = { λ _ e. e ≡ NoMemory };

    fn from(_error: AllocError) -> SizeError {
        SizeError::NoMemory
    }
}

impl<T: Drop> From<AllocFailed<T>> for SizeError {
    ghost use Rattle.std.specs.Prelude.{◌≡◌};
    ghost use Rattle.lk_sizes.specs.declared.error.SizeError.TheVariants.{NoMemory};

    ghost from_gives = { λ _ e. e ≡ NoMemory };

    fn from(_error: AllocFailed<T>) -> SizeError {
        SizeError::NoMemory
    }
}
