//! Offsets into the inputs and into buckets.

ghost use Rattle.std.specs.Prelude.{◌≡◌, ◌+◌, ◌-◌, ◌*◌, ◌/◌, ◌%◌, ◌^◌, ◌<◌, ◌≤◌, SomeIff};

use std::marker::Model;
use std::ops::{Add, Sub};

/// How many bits of a number tell the offset in a bucket.
const OFFSET_BITS: u32 = 28;

/// A place in a bucket: the bucket and the offset there in one number (libwild: `BucketOffset`). Contracts see the number.
#[derive(Clone, Copy, Debug, Default, PartialEq, Eq)]
pub struct BucketOffset {
    number: u32,
}

impl Model for BucketOffset {
    ghost use Rattle.std.specs.Prelude.{ℕ};

    ghost Value = { ℕ };

    ghost view = { λ a. a.number };

    ghost inverse = { λ n. record { number = n } };
}

impl BucketOffset {
    /// This offset, in bytes, in this bucket; none from 2^28 on.
    pub fn new(offset: u32, bucket: usize) -> Option<BucketOffset>
        requires { bucket < 16 }
        ensures { SomeIff result (offset < 2 ^ 28) (bucket * 2 ^ 28 + offset) }
    {
        if offset >= 1 << OFFSET_BITS {
            return None;
        }
        Some(BucketOffset::at(bucket, offset))
    }

    /// This offset in this bucket.
    pub(crate) fn at(bucket: usize, offset: u32) -> BucketOffset
        requires bucket { bucket < 16 }
        requires offset { offset < 2 ^ 28 }
        ensures { result ≡ bucket * 2 ^ 28 + offset }
    {
        BucketOffset {
            number: bucket as u32 * (1 << OFFSET_BITS) + offset,
        }
    }

    /// So many bytes further.
    pub(crate) fn plus(self, bytes: u64) -> BucketOffset
        requires { self + bytes < 2 ^ 32 }
        ensures { result ≡ self + bytes }
    {
        BucketOffset {
            number: self.number + bytes as u32,
        }
    }

    /// The bucket, below 16.
    pub fn bucket(self) -> usize
        ensures bucket { result ≡ self / 2 ^ 28 }
        ensures within { result < 16 }
    {
        (self.number >> OFFSET_BITS) as usize
    }

    /// The offset in the bucket, in bytes; below 2^28.
    pub fn offset_in_bucket(self) -> u64
        ensures { result ≡ self % 2 ^ 28 }
    {
        u64::from(self.number % (1 << OFFSET_BITS))
    }
}

/// An offset into all inputs of an output section, as if they stood one after the other (libwild: `LinearInputOffset`).
/// Contracts see the number. Compares as the number.
#[derive(Clone, Copy, Debug, Default, PartialEq, Eq, PartialOrd, Ord, Hash)]
pub struct LinearInputOffset {
    number: u64,
}

impl Model for LinearInputOffset {
    ghost use Rattle.std.specs.Prelude.{ℕ};

    ghost Value = { ℕ };

    ghost view = { λ a. a.number };

    ghost inverse = { λ n. record { number = n } };
}

impl LinearInputOffset {
    /// This many bytes behind the start of the first input.
    pub fn from_u64(number: u64) -> LinearInputOffset
        ensures { result ≡ number }
    {
        LinearInputOffset { number }
    }

    /// The bytes before it.
    pub fn as_u64(self) -> u64
        ensures { result ≡ self }
    {
        self.number
    }
}

impl Add<u64> for LinearInputOffset {
    type Output = LinearInputOffset;

    ghost can_add = { λ a n. a + n < 2 ^ 64 };

    ghost add_gives = { λ a n b. b ≡ a + n };

    fn add(self, bytes: u64) -> LinearInputOffset {
        LinearInputOffset {
            number: self.number + bytes,
        }
    }
}

impl Sub<LinearInputOffset> for LinearInputOffset {
    type Output = u64;

    ghost can_sub = { λ a b. b ≤ a };

    ghost sub_gives = { λ a b n. n ≡ a - b };

    fn sub(self, before: LinearInputOffset) -> u64 {
        self.number - before.number
    }
}
