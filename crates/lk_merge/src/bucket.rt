//! The buckets of an output section. A piece goes to a bucket by its hash, and each bucket keeps one of equal pieces.
//!
//! A bucket is one table from pieces to their places, in the order in which they were added; so the table is also the list
//! of what is kept. Pieces are found by their hashes and compared by their bytes.

ghost use Rattle.std.specs.Prelude.{◌≡◌, ◌^◌, ◌<◌, ◌≤◌, length, map};
ghost use Rattle.std.specs.List.{concat};
ghost use Rattle.lk_merge.specs.Buckets.{Adds, empty_bucket, piece_of};

use crate::error::MergeError;
use crate::offset::BucketOffset;
use crate::string::MergeString;
use indexmap::IndexMap;
use lk_link::OutputSectionId;
use std::alloc::Global;
use std::marker::Model;

/// How many buckets an output section has.
pub(crate) const BUCKETS: usize = 16;

/// A bucket of an output section (libwild: `MergeStringsSectionBucket`).
#[derive(Drop)]
pub struct MergeStringsSectionBucket<'data> {
    section: OutputSectionId,
    number: usize,
    limit: u64,
    /// The pieces that are kept, in order, each with the place where it starts, in bytes.
    strings: IndexMap<MergeString<'data>, u32>,
    /// Where the next piece goes.
    next_offset: u64,
}

impl<'data> Model for MergeStringsSectionBucket<'data> {
    ghost use Rattle.std.specs.Prelude.{map};
    ghost use Rattle.lk_merge.specs.Buckets.{Bucket};

    ghost Value = { Bucket };

    ghost use Rattle.std.specs.Map.{keys_of};
    ghost use Rattle.lk_merge.specs.Buckets.{piece_of};
    ghost use Rattle.lk_merge.specs.BucketTables.{IsTable};

    ghost view = { λ a. record { section = a.section; number = a.number; limit = a.limit; pieces = map piece_of (keys_of a.strings.entries) } };

    ghost invariant = { λ a. IsTable a.number a.limit a.next_offset a.strings.entries };
}

impl<'data> MergeStringsSectionBucket<'data> {
    /// An empty bucket of an output section, by its number there; it takes pieces of at most `limit` bytes together. Takes
    /// no memory (libwild: `MergeStringsSectionBucket::new`).
    pub fn new(
        alloc: Global,
        section: OutputSectionId,
        bucket: usize,
        limit: u64,
    ) -> MergeStringsSectionBucket<'data>
        requires numbered { bucket < 16 }
        requires limited { limit ≤ 2 ^ 28 }
        ensures { result ≡ empty_bucket section bucket limit }
    {
        MergeStringsSectionBucket {
            section,
            number: bucket,
            limit,
            strings: IndexMap::new(alloc),
            next_offset: 0,
        }
    }

    /// Adds a piece, unless an equal one is there, and tells the place of the one that is kept. Refused where a piece that
    /// isn't there yet would end past the limit; the bucket then stays as it is, as it does where memory runs out
    /// (libwild: `MergeStringsSectionBucket::add_string`).
    pub fn add_string(&mut self, string: MergeString<'data>) -> Result<BucketOffset, MergeError>
        requires { 0 < length string.bytes.now }
        ensures { Adds self.old string.entry.bytes.now result self.new }
    {
        if let Some(offset) = self.strings.get(&string) {
            return Ok(BucketOffset::at(self.number, *offset));
        }
        let offset = self.next_offset;
        let len = string.as_bytes().len() as u64;
        if len > self.limit - offset {
            return Err(MergeError::TooLarge {
                section: self.section,
                bucket: self.number as u32,
                offset,
                len,
            });
        }
        self.strings.insert(string, offset as u32)?;
        self.next_offset += len;
        Ok(BucketOffset::at(self.number, offset as u32))
    }

    /// The bytes that it holds (libwild: `MergeStringsSectionBucket::len`).
    pub fn len(&self) -> usize
        ensures bytes { result ≡ length (concat self.now.pieces) }
        ensures small { result ≤ 2 ^ 28 }
    {
        self.next_offset as usize
    }

    /// How many pieces it keeps.
    pub(crate) fn count(&self) -> usize
        ensures pieces { result ≡ length self.now.pieces }
        ensures few { result ≤ 2 ^ 28 }
    {
        self.strings.len()
    }

    /// The pieces that it keeps, in order (libwild: its field `strings`).
    pub fn strings(&self) -> &[MergeString<'data>]
        ensures { map piece_of result.now ≡ self.now.pieces }
    {
        self.strings.keys().as_slice()
    }
}
