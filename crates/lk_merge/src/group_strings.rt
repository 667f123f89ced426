//! The strings of a group of inputs, by the bucket that they go to.
//!
//! A group may begin and end in the middle of a string, which belongs to the group in which it starts. So its first string is found from the
//! last byte before the group on, and no byte before that is looked at.

ghost use Rattle.std.specs.Prelude.{◌≡◌, ◌≢◌, true, ◌++◌, ◌∷◌, ◌+◌, ◌<◌, ◌≤◌, ◌^◌, [], List, ℕ, IfOk, OnOk, drop, length, map};
ghost use Rattle.std.specs.List.{list_all};
ghost use Rattle.lk_merge.specs.Between.{between, from_on, until};
ghost use Rattle.lk_merge.specs.GroupStrings.{HasBrought};
ghost use Rattle.lk_merge.specs.Inputs.{AreInputs, Located, input_of, located, located_in, padded_total};
ghost use Rattle.lk_merge.specs.Pieces.{cut, is_terminated, pieces_of};

use crate::bucket::BUCKETS;
use crate::groups::{SectionGroup, input_at};
use crate::inputs::{StringMergeInputSection, StringMergeInputSections, total_input_size};
use crate::piece_starts::PieceStarts;
use crate::string::MergeString;
use memchr::memchr;
use std::alloc::{AllocError, Global};

/// What a group of inputs brings.
#[derive(Drop)]
pub(crate) struct GroupStrings<'data> {
    /// The strings of each bucket, in order.
    pub(crate) buckets: Vec<Vec<MergeString<'data>>>,
    /// Where each piece starts, in order, and its bucket.
    pub(crate) starts: PieceStarts,
}

impl<'data> GroupStrings<'data> {
    /// Nothing yet, of a group that starts at an offset.
    fn new(alloc: Global, from: u64) -> Result<GroupStrings<'data>, AllocError>
        ensures { IfOk result (HasBrought []) }
    {
        let mut buckets = Vec::with_capacity(alloc, BUCKETS)?;
        for _ in 0..BUCKETS {
            buckets.push(Vec::new(alloc))?;
        }
        Ok(GroupStrings {
            buckets,
            starts: PieceStarts::new(alloc, from),
        })
    }

    /// Gives back the room that no piece's start takes: starts stay until the end.
    fn shrink_starts(&mut self)
        ensures { (done : List Located) → HasBrought done self.old → HasBrought done self.new }
    {
        self.starts.shrink_to_fit();
    }

    /// Brings a piece of an input, which starts at an offset into all inputs.
    fn add(&mut self, string: MergeString<'data>, input: u32, start: u64) -> Result<(), AllocError>
        requires count { length self.old.buckets.items ≡ 16 }
        ensures count { OnOk result (length self.new.buckets.items ≡ 16) }
        ensures made { OnOk result ((done : List Located) → HasBrought done self.old
            → HasBrought (done ++ record { input = input; start = start; piece = string.entry.bytes.now } ∷ []) self.new) }
    {
        let bucket = (string.hash_value() % BUCKETS as u64) as usize;
        let strings = &mut self.buckets[bucket];
        strings.push(string)?;
        self.starts.add(start, bucket)?;
        Ok(())
    }

    /// Brings the strings of some data of an input that start before an offset. The data start at an offset into all inputs, as a string
    /// does. Bytes behind the last zero byte are in none.
    fn add_strings(
        &mut self,
        bytes: &'data [u8],
        input: u32,
        start: u64,
        end: u64,
    ) -> Result<(), AllocError>
        requires count { length self.old.buckets.items ≡ 16 }
        requires fits { start + length bytes.now < 2 ^ 64 }
        ensures count { OnOk result (length self.new.buckets.items ≡ 16) }
        ensures made { OnOk result ((done : List Located) → HasBrought done self.old
            → HasBrought (done ++ until end (located_in input start (cut bytes.now))) self.new) }
    {
        let mut rest = bytes;
        let mut at = start;
        'taking: while at < end {
            let Some(string) = MergeString::take_string_hashed(&mut rest) else {
                return Ok(());
            };
            self.add(string, input, at)?;
            at += string.as_bytes().len() as u64;
        }
        Ok(())
    }

    /// Brings the pieces of an input that start between two offsets, by the input's number among those of the output section.
    fn add_input(
        &mut self,
        section: &StringMergeInputSection<'data>,
        input: u32,
        from: u64,
        end: u64,
    ) -> Result<(), AllocError>
        requires count { length self.old.buckets.items ≡ 16 }
        requires fits { section.now.start_input_offset + length section.now.section_data.now < 2 ^ 64 }
        ensures count { OnOk result (length self.new.buckets.items ≡ 16) }
        ensures made { OnOk result ((done : List Located) → HasBrought done self.old
            → HasBrought (done ++ between from end (located_in input section.now.start_input_offset (pieces_of (input_of section.now)))) self.new) }
    {
        let start = section.start_input_offset.as_u64();
        let mut bytes = section.section_data;
        if section.is_string {
            let skipped = first_string(bytes, from.saturating_sub(start));
            let (_, rest) = bytes.split_at(skipped);
            return self.add_strings(rest, input, start + skipped as u64, end);
        }
        if bytes.is_empty() || start < from || start >= end {
            return Ok(());
        }
        self.add(MergeString::take_hashed(&mut bytes), input, start)
    }

    /// Brings the pieces of inputs that start between two offsets, where nothing was brought before; all inputs end at `total`. Looks at
    /// those inputs alone.
    fn add_inputs(
        &mut self,
        sections: &[StringMergeInputSection<'data>],
        total: u64,
        from: u64,
        end: u64,
    ) -> Result<(), AllocError>
        requires inputs { AreInputs total sections.now }
        requires terminated { list_all is_terminated (map input_of sections.now) ≡ true }
        requires within { from < total }
        requires none { HasBrought [] self.old }
        ensures { OnOk result (HasBrought (between from end (located (map input_of sections.now))) self.new) }
    {
        let first = input_at(sections, total, from);
        for index in first..sections.len() {
            let section = &sections[index];
            if section.start_input_offset.as_u64() >= end {
                return Ok(());
            }
            self.add_input(section, index as u32, from, end)?;
        }
        Ok(())
    }
}

/// Where the first string of some data starts that starts at an offset there or behind it; the end of the data where there is none. Looks
/// at no byte before the last one in front of the offset.
fn first_string(bytes: &[u8], offset: u64) -> usize
    ensures within { result ≤ length bytes.now }
    ensures rest { (input at : ℕ) → from_on (at + offset) (located_in input at (cut bytes.now)) ≡ located_in input (at + result) (cut (drop result bytes.now)) }
{
    if offset == 0 {
        return 0;
    }
    if offset >= bytes.len() as u64 {
        return bytes.len();
    }
    let before = offset as usize - 1;
    let (_, rest) = bytes.split_at(before);
    match memchr(0, rest) {
        Some(last) => before + last + 1,
        None => bytes.len(),
    }
}

/// What a group of some inputs brings. Looks at the inputs that the group is in alone.
pub(crate) fn strings_of_group<'data>(
    alloc: Global,
    inputs: &StringMergeInputSections<'data>,
    group: SectionGroup,
) -> Result<GroupStrings<'data>, AllocError>
    requires terminated { list_all is_terminated inputs.now ≡ true }
    requires within { group.start < padded_total inputs.now }
    ensures { IfOk result (HasBrought (between group.start group.end (located inputs.now))) }
{
    let from = group.start.as_u64();
    let end = group.end.as_u64();
    let mut brought = GroupStrings::new(alloc, from)?;
    brought.add_inputs(inputs.as_slice(), total_input_size(inputs), from, end)?;
    brought.shrink_starts();
    Ok(brought)
}
