//! The merging of the inputs of one output section, piece by piece.
//!
//! Each piece goes to the bucket of its hash, and one more entry of the offset map says where it starts among the inputs and
//! where the piece that is kept for it stands. A bucket stops at its first piece that is too long; the others go on, since
//! the refusal of the least bucket is told, whichever came first.
//!
//! Some hundred strings are cut and hashed before any of them is looked up. So the look-ups follow each other directly, and a
//! processor goes on with the next ones while it waits for the memory of one.

ghost use Rattle.std.specs.Prelude.{◌≡◌, ◌≢◌, true, ◌++◌, ◌∷◌, ◌+◌, ◌*◌, ◌<◌, ◌≤◌, ◌^◌, [], Contains, List, ℕ, None, Some, IfOk, OnOk, length, map, not, position, slice_get};
ghost use Rattle.std.specs.List.{concat, list_all};
ghost use Rattle.lk_merge.specs.Buckets.{bucket_place, piece_of};
ghost use Rattle.lk_merge.specs.Hash.{fnv64};
ghost use Rattle.lk_merge.specs.Image.{all_pieces, firsts_behind, is_among, place_in};
ghost use Rattle.lk_merge.specs.Inputs.{AreInputs, Located, input_of, located, located_in, padded_total};
ghost use Rattle.lk_merge.specs.Merging.{GivesMerged};
ghost use Rattle.lk_merge.specs.MergingTables.{AreAdded, AreTaken, GivesFitting, HasMerged, HasMergedAll, HasTaken};
ghost use Rattle.lk_merge.specs.Pieces.{Piece, cut, is_terminated, pieces_of};
ghost use Rattle.lk_merge.specs.declared.merging.BucketState.{BucketState};
ghost use Rattle.lk_merge.specs.declared.string.MergeString.{MergeString};

use crate::bucket::{BUCKETS, MergeStringsSectionBucket};
use crate::error::MergeError;
use crate::inputs::{StringMergeInputSection, StringMergeInputSections, total_input_size};
use crate::offset::BucketOffset;
use crate::offset_map::OffsetMap;
use crate::section::MergedStringsSection;
use crate::string::MergeString;
use lk_link::OutputSectionId;
use std::alloc::{AllocError, Global};

/// How many strings are cut at most before they are looked up.
const STRINGS_AT_ONCE: usize = 256;

/// A bucket while pieces are added, and why it has stopped.
#[derive(Drop)]
pub struct BucketState<'data> {
    pub(crate) bucket: MergeStringsSectionBucket<'data>,
    pub(crate) refusal: Option<MergeError>,
}

impl<'data> BucketState<'data> {
    /// Adds a piece, and tells its place; none where the bucket has stopped.
    pub(crate) fn add(
        &mut self,
        string: MergeString<'data>,
    ) -> Result<Option<BucketOffset>, AllocError>
        requires { 0 < length string.bytes.now }
        ensures { IfOk result (λ place. (section limit b : ℕ) (pieces : List Piece) → HasTaken section limit b (firsts_behind [] pieces) self.old
            → HasTaken section limit b (firsts_behind [] (pieces ++ string.entry.bytes.now ∷ [])) self.new
            × (self.new.refusal ≡ None → place ≡ Some (bucket_place b (place_in (firsts_behind [] (pieces ++ string.entry.bytes.now ∷ [])) string.entry.bytes.now)))) }
    {
        if self.refusal.is_some() {
            return Ok(None);
        }
        match self.bucket.add_string(string) {
            Ok(place) => Ok(Some(place)),
            Err(error) => match error {
                MergeError::NoMemory => Err(AllocError),
                _ => {
                    self.refusal = Some(error);
                    Ok(None)
                }
            },
        }
    }
}

/// What the pieces of an output section so far have made.
#[derive(Drop)]
pub(crate) struct Merging<'data> {
    pub(crate) buckets: Vec<BucketState<'data>>,
    pub(crate) entries: OffsetMap,
}

impl<'data> Merging<'data> {
    /// No pieces yet, with room for the blocks of so many bytes of inputs.
    fn new(
        alloc: Global,
        section: OutputSectionId,
        limit: u64,
        bytes: u64,
    ) -> Result<Merging<'data>, AllocError>
        requires { limit ≤ 2 ^ 28 }
        ensures { IfOk result (HasMerged section limit []) }
    {
        let mut buckets = Vec::with_capacity(alloc, BUCKETS)?;
        for number in 0..BUCKETS {
            buckets.push(BucketState {
                bucket: MergeStringsSectionBucket::new(alloc, section, number, limit),
                refusal: None,
            })?;
        }
        Ok(Merging {
            buckets,
            entries: OffsetMap::with_capacity(alloc, bytes)?,
        })
    }

    /// Adds a piece of an input, which starts at an offset into all inputs.
    fn add(&mut self, string: MergeString<'data>, input: u32, start: u64) -> Result<(), AllocError>
        requires some { 0 < length string.bytes.now }
        requires count { length self.old.buckets.items ≡ 16 }
        ensures count { OnOk result (length self.new.buckets.items ≡ 16) }
        ensures made { OnOk result ((section limit : ℕ) (done : List Located) → HasMerged section limit done self.old
            → HasMerged section limit (done ++ record { input = input; start = start; piece = string.entry.bytes.now } ∷ []) self.new) }
    {
        let bucket = (string.hash_value() % BUCKETS as u64) as usize;
        let state = &mut self.buckets[bucket];
        if let Some(place) = state.add(string)? {
            self.entries.add(start, place)?;
        }
        Ok(())
    }

    /// Adds some pieces of an input that follow each other, the first of which starts at an offset into all inputs. Gives the
    /// offset behind the last.
    fn add_all(
        &mut self,
        strings: &[MergeString<'data>],
        input: u32,
        start: u64,
    ) -> Result<u64, AllocError>
        requires some { (k : ℕ) (s : MergeString) → slice_get strings.now k ≡ Some s → 0 < length s.bytes.now }
        requires count { length self.old.buckets.items ≡ 16 }
        requires fits { start + length (concat (map piece_of strings.now)) < 2 ^ 64 }
        ensures { IfOk result (λ end. AreAdded input start self.old (map piece_of strings.now) end self.new) }
    {
        let mut at = start;
        for (index, string) in strings.iter().enumerate() {
            self.add(*string, input, at)?;
            at += string.as_bytes().len() as u64;
        }
        Ok(at)
    }

    /// Adds the strings of an input, which starts at an offset into all inputs. Bytes behind the last zero byte are in none.
    /// What `strings` holds is let go.
    fn add_strings(
        &mut self,
        strings: &mut Vec<MergeString<'data>>,
        bytes: &'data [u8],
        input: u32,
        start: u64,
    ) -> Result<(), AllocError>
        requires count { length self.old.buckets.items ≡ 16 }
        requires fits { start + length bytes.now < 2 ^ 64 }
        ensures count { OnOk result (length self.new.buckets.items ≡ 16) }
        ensures made { OnOk result ((section limit : ℕ) (done : List Located) → HasMerged section limit done self.old
            → HasMerged section limit (done ++ located_in input start (cut bytes.now)) self.new) }
    {
        let mut rest = bytes;
        let mut at = start;
        'taking: loop {
            take_strings(&mut rest, strings)?;
            let taken = strings.as_slice();
            if taken.is_empty() {
                return Ok(());
            }
            at = self.add_all(taken, input, at)?;
        }
    }

    /// Adds the pieces of an input, by its number among those of the output section. What `strings` holds is let go.
    fn add_input(
        &mut self,
        strings: &mut Vec<MergeString<'data>>,
        input: u32,
        section: &StringMergeInputSection<'data>,
    ) -> Result<(), AllocError>
        requires count { length self.old.buckets.items ≡ 16 }
        requires fits { section.now.start_input_offset + length section.now.section_data.now < 2 ^ 64 }
        ensures count { OnOk result (length self.new.buckets.items ≡ 16) }
        ensures made { OnOk result ((output limit : ℕ) (done : List Located) → HasMerged output limit done self.old
            → HasMerged output limit (done ++ located_in input section.now.start_input_offset (pieces_of (input_of section.now))) self.new) }
    {
        let start = section.start_input_offset.as_u64();
        let mut bytes = section.section_data;
        if section.is_string {
            return self.add_strings(strings, bytes, input, start);
        }
        if bytes.is_empty() {
            return Ok(());
        }
        self.add(MergeString::take_hashed(&mut bytes), input, start)
    }

    /// The merged section of these inputs, whose pieces have been added; refused where a bucket has stopped.
    pub(crate) fn finish(
        self,
        alloc: Global,
        inputs: StringMergeInputSections<'data>,
    ) -> Result<MergedStringsSection<'data>, MergeError>
        requires terminated { list_all is_terminated inputs ≡ true }
        requires some { length inputs ≢ 0 }
        requires merged { HasMergedAll inputs self }
        ensures { (section limit : ℕ) → limit ≤ 2 ^ 28 → HasMerged section limit (located inputs.entry) self.entry
            → GivesFitting section limit (all_pieces inputs.entry) inputs.entry result }
    {
        let mut buckets = Vec::with_capacity(alloc, BUCKETS)?;
        let Merging {
            buckets: states,
            entries: string_offsets,
        } = self;
        for state in states {
            let BucketState { bucket, refusal } = state;
            if let Some(refusal) = refusal {
                return Err(refusal);
            }
            buckets.push(bucket)?;
        }
        Ok(MergedStringsSection::from_parts(inputs, buckets, string_offsets))
    }
}

/// Takes strings from some data, up to a number of them, and puts them in the place of what the list holds. There are none
/// only where the data have no zero byte.
fn take_strings<'data>(
    source: &mut &'data [u8],
    strings: &mut Vec<MergeString<'data>>,
) -> Result<(), AllocError>
    ensures taken { OnOk result (AreTaken source.old.now (map piece_of strings.new.items) source.new.now) }
    ensures some { OnOk result (length strings.new.items ≡ 0 → ¬ Contains source.new.now 0) }
{
    strings.clear();
    'taking: while strings.len() < STRINGS_AT_ONCE {
        let Some(string) = MergeString::take_string_hashed(source) else {
            return Ok(());
        };
        strings.push(string)?;
    }
    Ok(())
}

/// The first of some inputs whose strings don't end in a zero byte.
pub(crate) fn first_unterminated(sections: &[StringMergeInputSection<'_>]) -> Option<usize>
    ensures { result ≡ position (λ s. not (is_terminated (input_of s))) sections.now }
{
    sections.iter().position(|s| !s.is_terminated())
}

/// Adds the pieces of all inputs of an output section.
fn merge_pieces<'data>(
    alloc: Global,
    sections: &[StringMergeInputSection<'data>],
    output: OutputSectionId,
    limit: u64,
    bytes: u64,
) -> Result<Merging<'data>, AllocError>
    requires limited { limit ≤ 2 ^ 28 }
    requires inputs { AreInputs (padded_total (map input_of sections.now)) sections.now }
    ensures { IfOk result (HasMerged output limit (located (map input_of sections.now))) }
{
    let mut merging = Merging::new(alloc, output, limit, bytes)?;
    let mut strings = Vec::new(alloc);
    for (index, section) in sections.iter().enumerate() {
        merging.add_input(&mut strings, index as u32, section)?;
    }
    merging.entries.shrink_to_fit();
    Ok(merging)
}

/// Merges the inputs of an output section, after a look at each of them: that its strings end in a zero byte.
pub(crate) fn merge_section<'data>(
    alloc: Global,
    inputs: &StringMergeInputSections<'data>,
    section: OutputSectionId,
    limit: u64,
) -> Result<MergedStringsSection<'data>, MergeError>
    requires { limit ≤ 2 ^ 28 }
    ensures { GivesMerged fnv64 section limit inputs.now result }
{
    let sections = inputs.as_slice();
    if let Some(input) = first_unterminated(sections) {
        let input = input as u32;
        return Err(MergeError::NotTerminated { section, input });
    }
    if sections.is_empty() {
        return Ok(MergedStringsSection::new(alloc));
    }
    let merging = merge_pieces(alloc, sections, section, limit, total_input_size(inputs))?;
    merging.finish(alloc, inputs.clone(alloc)?)
}
