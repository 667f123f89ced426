//! Merged output sections.

ghost use Rattle.std.specs.Prelude.{◌≡◌, ◌<◌, ◌==◌, ℕ, [], MatchOption, Some, length, map, not, slice_get};
ghost use Rattle.std.specs.List.{concat};
ghost use Rattle.lk_merge.specs.Buckets.{Bucket};
ghost use Rattle.lk_merge.specs.Hash.{fnv64};
ghost use Rattle.lk_merge.specs.Image.{all_pieces, bucket_list, image, image_pieces};
ghost use Rattle.lk_merge.specs.MergedTables.{IsMerged};
ghost use Rattle.lk_merge.specs.Merging.{found_place, kept_lists};
ghost use Rattle.lk_merge.specs.Inputs.{input_start, located};
ghost use Rattle.lk_merge.specs.MergingTables.{entry_of};
ghost use Rattle.lk_merge.specs.OffsetMapTables.{HoldsIn};
ghost use Rattle.lk_merge.specs.Pieces.{MergeInput};
ghost use Rattle.lk_merge.specs.Places.{IsPlaceAt};

use crate::bucket::MergeStringsSectionBucket;
use crate::groups::input_at;
use crate::inputs::{StringMergeInputSections, total_input_size};
use crate::offset::{BucketOffset, LinearInputOffset};
use crate::offset_map::OffsetMap;
use std::alloc::Global;
use std::marker::Model;

/// The merged inputs of an output section (libwild: `MergedStringsSection`). Contracts see the list of the inputs, of which
/// the definitions tell what is kept, and where.
#[derive(Drop)]
pub struct MergedStringsSection<'data> {
    inputs: StringMergeInputSections<'data>,
    /// None without inputs, else one for each number below 16.
    buckets: Vec<MergeStringsSectionBucket<'data>>,
    string_offsets: OffsetMap,
}

impl<'data> Model for MergedStringsSection<'data> {
    ghost use Rattle.std.specs.Prelude.{List};
    ghost use Rattle.lk_merge.specs.Pieces.{MergeInput};

    ghost Value = { List MergeInput };

    ghost use Rattle.lk_merge.specs.MergedTables.{IsMerged};

    ghost view = { λ a. a.inputs };

    ghost invariant = { λ a. IsMerged a.inputs a.buckets.items a.string_offsets };
}

impl<'data> MergedStringsSection<'data> {
    /// Nothing merged; takes no memory (libwild: its `default`).
    pub fn new(alloc: Global) -> MergedStringsSection<'data>
        ensures { result ≡ [] }
    {
        MergedStringsSection {
            inputs: StringMergeInputSections::new(alloc),
            buckets: Vec::new(alloc),
            string_offsets: OffsetMap::new(alloc),
        }
    }

    /// The buckets of these inputs, and where each of their pieces stands.
    pub(crate) fn from_parts(
        inputs: StringMergeInputSections<'data>,
        buckets: Vec<MergeStringsSectionBucket<'data>>,
        string_offsets: OffsetMap,
    ) -> MergedStringsSection<'data>
        requires { IsMerged inputs buckets.items string_offsets }
        ensures { result ≡ inputs.entry }
    {
        MergedStringsSection {
            inputs,
            buckets,
            string_offsets,
        }
    }

    /// Whether anything is merged there, be it without bytes.
    pub fn has_inputs(&self) -> bool
        ensures { result ≡ not (length self.now == 0) }
    {
        !self.inputs.as_slice().is_empty()
    }

    /// The buckets, in order: none without inputs, else 16 (libwild: its field `buckets`).
    pub fn buckets(&self) -> &[MergeStringsSectionBucket<'data>]
        ensures kept { map (λ k. k.pieces) result.now ≡ kept_lists fnv64 self.now }
        ensures numbered { (b : ℕ) (k : Bucket) → slice_get result.now b ≡ Some k → k.number ≡ b }
    {
        self.buckets.as_slice()
    }

    /// The bytes of the image: of all distinct pieces together (libwild: `MergedStringsSection::len`).
    pub fn len(&self) -> u64
        ensures { result ≡ length (image fnv64 (all_pieces self.now)) }
    {
        let mut len = 0;
        for bucket in self.buckets.as_slice() {
            len += bucket.len() as u64;
        }
        len
    }

    /// The bytes of a bucket, by its number; none without inputs.
    pub(crate) fn bucket_len(&self, bucket: usize) -> u64
        requires { bucket < 16 }
        ensures { result ≡ length (concat (bucket_list fnv64 (all_pieces self.now) bucket)) }
    {
        match self.buckets.as_slice().get(bucket) {
            Some(bucket) => bucket.len() as u64,
            None => 0,
        }
    }

    /// How many distinct pieces there are (libwild: `MergedStringsSection::string_count`).
    pub fn string_count(&self) -> usize
        ensures { result ≡ length (image_pieces fnv64 (all_pieces self.now)) }
    {
        let mut count = 0;
        for bucket in self.buckets.as_slice() {
            count += bucket.count();
        }
        count
    }

    /// The bytes of all pieces of the inputs (libwild: `MergedStringsSection::input_string_byte_size`).
    pub fn input_string_byte_size(&self) -> usize
        ensures { result ≡ length (concat (all_pieces self.now)) }
    {
        let mut size = 0;
        for input in self.inputs.as_slice() {
            size += input.section_data.len();
        }
        size
    }

    /// How many pieces the inputs have (libwild: `MergedStringsSection::input_string_count`).
    pub fn input_string_count(&self) -> usize
        ensures { result ≡ length (all_pieces self.now) }
    {
        self.string_offsets.len()
    }

    /// Where the pieces of the inputs stand (libwild: its field `string_offsets`).
    pub fn string_offsets(&self) -> &OffsetMap
        ensures { HoldsIn (map (entry_of (all_pieces self.now)) (located self.now)) result.now }
    {
        &self.string_offsets
    }
}

impl<'data> MergedStringsSection<'data> {
    /// Where an offset of an input stands in the buckets, by the number of the input over all input sections. Several inputs may
    /// start at one place, of which the last alone has bytes; so the offset is to be inside the data. Takes logarithmic time.
    pub(crate) fn place_in_input(&self, number: u32, offset: u64) -> Option<BucketOffset>
        ensures { (k : ℕ) (x : MergeInput) → slice_get self.now k ≡ Some x → x.number ≡ number → offset < length x.bytes
            → MatchOption result ⊥ (IsPlaceAt self.now x offset) }
    {
        let input = self.inputs.index_of(number)?;
        let start = self.inputs.as_slice()[input].start_input_offset;
        find_string(self, start, offset)
    }
}

/// Where the piece stands that holds an offset behind the start of an input, in bytes, and the distance into it. None where no
/// input starts there, or its data end at the offset or before. Of several inputs that start at one place the last alone can
/// have bytes. Takes logarithmic time (libwild: `find_string`).
pub fn find_string(
    section: &MergedStringsSection<'_>,
    start: LinearInputOffset,
    offset: u64,
) -> Option<BucketOffset>
    ensures found { result ≡ found_place fnv64 section.now start offset }
    ensures apart { (k : ℕ) (x : MergeInput) → slice_get section.now k ≡ Some x → input_start section.now k ≡ start → offset < length x.bytes
        → MatchOption result ⊥ (IsPlaceAt section.now x offset) }
{
    let total = total_input_size(&section.inputs);
    let start = start.as_u64();
    if start >= total {
        return None;
    }
    let inputs = section.inputs.as_slice();
    let input = &inputs[input_at(inputs, total, start)];
    if input.start_input_offset.as_u64() != start {
        return None;
    }
    if offset >= input.section_data.len() as u64 {
        return None;
    }
    let at = start + offset;
    let piece = section.string_offsets.last_at(at)?;
    Some(piece.place.plus(at - piece.start))
}
