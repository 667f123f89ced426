//! What is deleted of one section. Each range stands with the bytes that are deleted before it, so that an offset is found by halving.

ghost use Rattle.std.specs.Prelude.{◌≡◌, ◌≤◌, ◌==◌, ◌++◌, ℕ, List, IfOk, OnErr, OnOk, length, nat_lt, sum_by};
ghost use Rattle.std.specs.List.{prefix_len};
ghost use Rattle.std.specs.Option.{option_copied};
ghost use Rattle.lk_deltas.specs.Deletions.{AreBoth, AreDeletions, bytes_before, mapped, mapped_by};
ghost use Rattle.lk_deltas.specs.DeltaWords.{AreDeltas, bytes_of, ranges_of};

use std::alloc::{AllocError, Global};
use std::marker::Model;

/// A deleted range, and how many bytes are deleted before it.
#[derive(Clone, Copy, Debug, PartialEq, Eq)]
pub(crate) struct Delta {
    /// Where it starts, and how long it is.
    pub(crate) range: (u64, u64),
    pub(crate) before: u64,
}

/// The ranges of bytes that are deleted of a section, each by its start in the input and its length, rising and apart. Contracts see the
/// list of them (libwild: `SectionRelaxDeltas`).
#[derive(Drop)]
pub struct SectionRelaxDeltas {
    deltas: Vec<Delta>,
}

impl Model for SectionRelaxDeltas {
    ghost use Rattle.std.specs.Prelude.{ℕ, List};
    ghost use Rattle.lk_deltas.specs.DeltaWords.{AreDeltas, ranges_of};

    ghost Value = { List (ℕ × ℕ) };

    ghost view = { λ a. ranges_of a.deltas.items };

    ghost invariant = { λ a. AreDeltas 0 0 a.deltas.items };
}

impl SectionRelaxDeltas {
    /// The deleted ranges, each of a byte or more, in rising order and apart.
    pub fn new(alloc: Global, ranges: &[(u64, u64)]) -> Result<SectionRelaxDeltas, AllocError>
        requires { AreDeletions ranges.now }
        ensures { IfOk result (λ deltas. deltas ≡ ranges.now) }
    {
        Ok(SectionRelaxDeltas {
            deltas: deltas_of(alloc, ranges)?,
        })
    }

    /// Deletes more ranges, which with those that are deleted can be put in rising order, apart. For want of memory all stays. Takes
    /// n log n in all ranges.
    pub fn merge_additional(&mut self, additional: &[(u64, u64)]) -> Result<(), AllocError>
        requires apart { (all : List (ℕ × ℕ)) × AreBoth self.old additional.now all }
        ensures merged { (all : List (ℕ × ℕ)) → AreBoth self.old additional.now all → OnOk result (self.new ≡ all) }
        ensures unchanged { OnErr result (self.new ≡ self.old) }
    {
        let alloc = *self.deltas.allocator();
        let ranges = sorted_ranges(alloc, self.deltas.as_slice(), additional)?;
        self.deltas = deltas_of(alloc, ranges.as_slice())?;
        Ok(())
    }

    /// The same ranges, in memory of their own.
    pub(crate) fn copied(&self, alloc: Global) -> Result<SectionRelaxDeltas, AllocError>
        ensures { IfOk result (λ deltas. deltas ≡ self.now) }
    {
        let mut deltas = Vec::with_capacity(alloc, self.deltas.len())?;
        deltas.extend_from_slice(self.deltas.as_slice())?;
        Ok(SectionRelaxDeltas { deltas })
    }

    /// A law: the ranges rise and are apart.
    pub(crate) fn are_deletions(&self)
        ensures { AreDeletions self.now }
    {
        // Reading the ranges tells that they are.
        let _ranges = self.deltas.as_slice();
    }

    /// These ranges and more, which with these can be put in rising order, apart.
    pub(crate) fn merged(
        &self,
        alloc: Global,
        more: &SectionRelaxDeltas,
    ) -> Result<SectionRelaxDeltas, AllocError>
        requires apart { (all : List (ℕ × ℕ)) × AreBoth self.now more.now all }
        ensures { (all : List (ℕ × ℕ)) → AreBoth self.now more.now all → IfOk result (λ both. both ≡ all) }
    {
        let mut both = self.copied(alloc)?;
        both.merge_additional(&more.ranges(alloc)?)?;
        Ok(both)
    }

    /// Whether there are no ranges.
    pub fn is_empty(&self) -> bool
        ensures { result ≡ (length self.now == 0) }
    {
        self.deltas.is_empty()
    }

    /// The ranges, in a list of their own.
    pub fn ranges(&self, alloc: Global) -> Result<Vec<(u64, u64)>, AllocError>
        ensures { IfOk result (λ ranges. ranges.items ≡ self.now) }
    {
        let mut ranges = Vec::with_capacity(alloc, self.deltas.len())?;
        for delta in &self.deltas {
            ranges.push(delta.range)?;
        }
        Ok(ranges)
    }

    /// The ranges, each with the bytes that are deleted before it.
    pub(crate) fn deltas(&self) -> &[Delta]
        ensures { ranges_of result.now ≡ self.now }
    {
        self.deltas.as_slice()
    }

    /// Where an offset of the section goes. Takes logarithmic time.
    #[tactic(auto, unfolding(crate::specs::Deletions::mapped))]
    fn output_offset(&self, offset: u64) -> u64
        ensures place { result ≡ mapped self.now offset }
        ensures order { (behind : ℕ) → offset ≤ behind → result ≤ mapped self.now behind }
    {
        offset - deleted_before(self.deltas.as_slice(), offset)
    }
}

/// Where an offset of a section goes, of which these ranges are deleted, or nothing; no offset behind it goes before that (libwild:
/// `opt_input_to_output`).
pub fn opt_input_to_output(deltas: Option<&SectionRelaxDeltas>, offset: u64) -> u64
    ensures place { result ≡ mapped_by (option_copied deltas.entry) offset }
    ensures order { (behind : ℕ) → offset ≤ behind → result ≤ mapped_by (option_copied deltas.entry) behind }
{
    match deltas {
        Some(deltas) => deltas.output_offset(offset),
        None => offset,
    }
}

/// Ranges with the bytes that are deleted before each.
fn deltas_of(alloc: Global, ranges: &[(u64, u64)]) -> Result<Vec<Delta>, AllocError>
    requires { AreDeletions ranges.now }
    ensures { IfOk result (λ deltas. (ranges_of deltas.items ≡ ranges.now) × AreDeltas 0 0 deltas.items) }
{
    let mut deltas = Vec::with_capacity(alloc, ranges.len())?;
    let mut before = 0;
    for range in ranges {
        deltas.push(Delta {
            range: *range,
            before,
        })?;
        before += range.1;
    }
    Ok(deltas)
}

/// The ranges of some deltas and others, by their starts.
fn sorted_ranges(
    alloc: Global,
    deltas: &[Delta],
    additional: &[(u64, u64)],
) -> Result<Vec<(u64, u64)>, AllocError>
    ensures { (all : List (ℕ × ℕ)) → AreBoth (ranges_of deltas.now) additional.now all → IfOk result (λ ranges. ranges.items ≡ all) }
{
    let mut ranges = Vec::new(alloc);
    for delta in deltas {
        ranges.push(delta.range)?;
    }
    ranges.extend_from_slice(additional)?;
    ranges.sort_unstable_by_key(|range| range.0);
    Ok(ranges)
}

/// How many bytes are deleted before an offset.
fn deleted_before(deltas: &[Delta], offset: u64) -> u64
    requires { AreDeltas 0 0 deltas.now }
    ensures bytes { result ≡ sum_by (bytes_before offset) (ranges_of deltas.now) }
    ensures inside { result ≤ offset }
{
    let count = count_before(deltas, offset);
    if count == 0 {
        return 0;
    }
    let last = deltas[count - 1];
    last.before + last.range.1.min(offset - last.range.0)
}

/// How many deleted ranges start before an offset.
fn count_before(deltas: &[Delta], offset: u64) -> usize
    requires { AreDeltas 0 0 deltas.now }
    ensures count { result ≡ prefix_len (λ d. nat_lt d.range.0 offset) deltas.now }
    ensures bound { result ≤ length deltas.now }
{
    deltas.partition_point(|delta| delta.range.0 < offset)
}
