//! Why a link isn't placed.

use lk_expressions::NoValue;
use lk_link::fault::Place;
use lk_link::ids::{OutputSectionId, RegionId};
use std::alloc::{AllocError, AllocFailed};

/// Why an event isn't carried out, whichever event it is.
#[derive(Clone, Copy, Debug, PartialEq, Eq)]
pub enum Refusal {
    /// A cursor or an end passes 2^64 - 1.
    Overflow,
    /// An expression has no value.
    NoValue(NoValue),
    /// A location stands before where it may.
    Backwards {
        from: u64,
        to: u64,
    },
    /// A section that is placed names a region that isn't there.
    Undeclared(OutputSectionId),
    /// A location stands outside the region of the section that takes it.
    Outside(u64),
    /// Memory stands past the end of a region, by so many bytes.
    Past {
        region: RegionId,
        by: u64,
    },
    /// The load address of a section has no value.
    NoLoadAddress {
        section: OutputSectionId,
        cause: NoValue,
    },
}

/// Why a link isn't placed: the first refusal, or want of memory.
#[derive(Clone, Copy, Debug, PartialEq, Eq)]
pub enum PlaceError {
    NoMemory,
    /// An address or an offset of the file passes 2^64 - 1, first at this place.
    AddressOverflow { place: Place },
    /// A region has the name of an earlier one.
    RegionDuplicate { region: RegionId },
    /// An expression has no value.
    Expression { place: Place, cause: NoValue },
    /// A section that is placed names a region that isn't there.
    RegionUnknown { section: OutputSectionId },
    /// The sections of a region take more bytes than it has, by so many.
    RegionOverflow { region: RegionId, by: u64 },
    /// A location that the section of this event takes stands outside its region.
    OutsideRegion { event: usize, address: u64 },
    /// A location stands before where it may.
    LocationBackwards { from: u64, to: u64 },
    /// A base that is asked for has no room for the headers below it.
    BaseTooLow { base: u64, headers: u64 },
    /// A section with memory, which is emitted or has bytes, stands in no segment; the first in the order of events.
    SectionOutsideSegments { section: OutputSectionId },
}

impl From<AllocError> for PlaceError {
    ghost use Rattle.std.specs.Prelude.{◌≡◌};
    ghost use Rattle.lk_place.specs.declared.error.PlaceError.TheVariants.{NoMemory};

    ghost from_gives = { λ _ e. e ≡ NoMemory };

    fn from(_error: AllocError) -> PlaceError {
        PlaceError::NoMemory
    }
}

impl<T: Drop> From<AllocFailed<T>> for PlaceError {
    ghost use Rattle.std.specs.Prelude.{◌≡◌};
    ghost use Rattle.lk_place.specs.declared.error.PlaceError.TheVariants.{NoMemory};

    ghost from_gives = { λ _ e. e ≡ NoMemory };

    fn from(_error: AllocFailed<T>) -> PlaceError {
        PlaceError::NoMemory
    }
}
