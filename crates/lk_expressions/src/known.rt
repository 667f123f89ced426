//! What is told of items that may be missing, for operands of all kinds of expressions.

ghost use Rattle.std.specs.Prelude.{◌≡◌, slice_get};
ghost use Rattle.lk_expressions.specs.Surroundings.{flat, told};

use crate::no_value::NoValue;
use crate::record::OutputRecordLayout;
use lk_link::ids::RegionId;

/// Where a region starts. Regions are given by origin and length.
pub(crate) fn origin(regions: &[(u64, u64)], region: RegionId) -> Result<u64, NoValue>
    ensures { result ≡ told (λ p. p.0) (slice_get regions.now region) }
{
    match regions.get(region.as_usize()) {
        Some(range) => Ok(range.0),
        None => Err(NoValue::NoAddress),
    }
}

/// How long a region is.
pub(crate) fn length(regions: &[(u64, u64)], region: RegionId) -> Result<u64, NoValue>
    ensures { result ≡ told (λ p. p.1) (slice_get regions.now region) }
{
    match regions.get(region.as_usize()) {
        Some(range) => Ok(range.1),
        None => Err(NoValue::NoAddress),
    }
}

/// Where a record starts in memory, if there is one.
pub(crate) fn start_of(found: Option<OutputRecordLayout>) -> Result<u64, NoValue>
    ensures { result ≡ told (λ r. r.mem_offset) found }
{
    match found {
        Some(record) => Ok(record.mem_offset),
        None => Err(NoValue::NoAddress),
    }
}

/// The bytes of a record in memory, if there is one.
pub(crate) fn size_of(found: Option<OutputRecordLayout>) -> Result<u64, NoValue>
    ensures { result ≡ told (λ r. r.mem_size) found }
{
    match found {
        Some(record) => Ok(record.mem_size),
        None => Err(NoValue::NoAddress),
    }
}

/// An item that may be unknown, of a list in which it may be missing.
pub(crate) fn item<T: Copy>(items: &[Option<T>], index: usize) -> Option<T>
    ensures { result ≡ flat (slice_get items.now index) }
{
    match items.get(index) {
        Some(item) => *item,
        None => None,
    }
}
