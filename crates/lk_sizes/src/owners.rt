//! What comes into the parts of a link: bytes, attributes, and whether merged images stand there.
//!
//! One pass over the live and merged sections adds each to the row of its part, in a flat table by part number; another adds the
//! commons, of which there is a list. Sums have 128 bits there, so that one that passes 2^64 - 1 is told from one that fits. A part to
//! which merged sections go has the image of its output section, which comes on top, and the part for comments the identity. When it
//! is known which sections are emitted, the entries of tables come on top of that, and a last pass over the rows adds the sums
//! up, part by part, and refuses the first part at which they pass 2^64 - 1 together.

ghost use Rattle.std.specs.Prelude.{◌≡◌, ◌+◌, ◌-◌, ◌<◌, ◌^◌, ◌||◌, ℕ, IsTrue, IfOk, IfSome, List, OnOk, Some, ◌++◌, if◌then◌else◌, bit_or, length, map, min, slice_get, slice_index};
ghost use Rattle.std.specs.Option.{option_map_or};
ghost use Rattle.lk_link.specs.Alignments.{is_alignment};
ghost use Rattle.lk_link.specs.InputSlots.{is_merge};
ghost use Rattle.lk_link.specs.Parts.{all_parts, part_sections};
ghost use Rattle.lk_link.specs.Sizes.{capacity};
ghost use Rattle.lk_link.specs.TableSizes.{TableSizes};
ghost use Rattle.lk_link.specs.WellFormed.{IsWellFormed};
ghost use Rattle.lk_live.specs.Reach.{AreLive};
ghost use Rattle.lk_live.specs.declared.live.Live.{Live};
ghost use Rattle.lk_tables.specs.ShareWords.{first_shares};
ghost use Rattle.lk_tables.specs.TableLists.{TableLists};
ghost use Rattle.lk_tables.specs.Totals.{totals_of};
ghost use Rattle.lk_sizes.specs.Attributes.{part_attributes};
ghost use Rattle.lk_sizes.specs.Contents.{AreContentTotals, AreSums, GivesContents, part_contents};
ghost use Rattle.lk_sizes.specs.Owners.{AreFirstSizes, Filling, all_commons, content_of, has_image, identity_size, in_link, own_sizes, plain_filling, size_in, sized_filling};
ghost use Rattle.lk_sizes.specs.PartOwners.{part_sizes, tables_of};
ghost use Rattle.lk_sizes.specs.Tables.{AreAdded, CommonsGo, commons_size, live_size, with_entries, with_tables};
ghost use Rattle.lk_sizes.specs.declared.owners.PartTotal.{PartTotal};

use crate::error::SizeError;
use crate::kept::KeptInputs;
use crate::sorted::size_of;
use lk_live::Live;
use lk_link::{InputSection, LinkInput, List, PartId, Place, PlanPart, PlanSection, Section};
use lk_tables::{Common, FileShare, TableTotals, bytes_in_part, first_totals};
use std::alloc::{AllocError, Global};

/// What comes into a part.
#[derive(Clone, Copy, Debug, PartialEq, Eq)]
pub struct PartContents {
    /// Bytes of all its owners; those of all parts are at most 2^64 - 1 together.
    pub bytes: u64,
    /// Whether merged sections go to it, so that the merged image of its output section stands there, before the sections.
    pub has_image: bool,
    /// The attributes of its live and merged sections together.
    pub attrs: u32,
}

/// What was added up for a part.
#[derive(Clone, Copy, Debug, PartialEq, Eq)]
pub struct PartTotal {
    /// Bytes; a sum past 2^128 - 1 is given as that.
    pub bytes: u128,
    /// Whether merged sections go to it.
    pub has_image: bool,
    /// The attributes of its live and merged sections together.
    pub attrs: u32,
}

impl PartTotal {
    /// With what one more section of this size brings: a merged one has its bytes in the image.
    fn with(self, part: &PlanPart, section: &InputSection, size: u64) -> PartTotal
        requires { IsTrue (is_alignment part.now.alignment) }
        ensures bytes { result.bytes ≡ (if is_merge section.now.slot then self.bytes
            else min (self.bytes + capacity part.now size) (2 ^ 128 - 1)) }
        ensures image { result.has_image ≡ (self.has_image || is_merge section.now.slot) }
        ensures attrs { result.attrs ≡ bit_or self.attrs section.now.attrs }
    {
        let merged = section.slot.is_merge();
        let bytes = if merged {
            self.bytes
        } else {
            self.bytes
                .saturating_add(Section { size }.exact_capacity(part))
        };
        PartTotal {
            bytes,
            has_image: self.has_image || merged,
            attrs: self.attrs | section.attrs,
        }
    }

    /// With a common, so many bytes large.
    fn with_common(self, part: &PlanPart, size: u64) -> PartTotal
        requires { IsTrue (is_alignment part.now.alignment) }
        ensures bytes { result.bytes ≡ min (self.bytes + capacity part.now size) (2 ^ 128 - 1) }
        ensures image { result.has_image ≡ self.has_image }
        ensures attrs { result.attrs ≡ self.attrs }
    {
        let PartTotal {
            bytes,
            has_image,
            attrs,
        } = self;
        PartTotal {
            bytes: bytes.saturating_add(Section { size }.exact_capacity(part)),
            has_image,
            attrs,
        }
    }

    /// With the image, if one stands there, so many bytes long.
    fn with_image(self, part: &PlanPart, len: u64) -> PartTotal
        requires { IsTrue (is_alignment part.now.alignment) }
        ensures bytes { result.bytes ≡ min (self.bytes + (if self.has_image then capacity part.now len else 0)) (2 ^ 128 - 1) }
        ensures image { result.has_image ≡ self.has_image }
        ensures attrs { result.attrs ≡ self.attrs }
    {
        let PartTotal {
            bytes,
            has_image,
            attrs,
        } = self;
        PartTotal {
            bytes: bytes.saturating_add(image_bytes(part, has_image, len)),
            has_image,
            attrs,
        }
    }

    /// With the identity, if it stands there, so many bytes long.
    fn with_identity(self, part: &PlanPart, size: Option<u128>) -> PartTotal
        requires aligned { IsTrue (is_alignment part.now.alignment) }
        requires small { IfSome size (λ n. n < 2 ^ 65) }
        ensures bytes { result.bytes ≡ min (self.bytes + option_map_or (capacity part.now) size 0) (2 ^ 128 - 1) }
        ensures image { result.has_image ≡ self.has_image }
        ensures attrs { result.attrs ≡ self.attrs }
    {
        let PartTotal {
            bytes,
            has_image,
            attrs,
        } = self;
        PartTotal {
            bytes: bytes.saturating_add(identity_bytes(part, size)),
            has_image,
            attrs,
        }
    }

    /// With so many bytes of entries.
    pub(crate) fn with_entries(&self, more: u128) -> PartTotal
        ensures { result ≡ with_entries self.now more }
    {
        PartTotal {
            bytes: self.bytes.saturating_add(more),
            has_image: self.has_image,
            attrs: self.attrs,
        }
    }
}

/// The bytes that an image takes in a part, if there is one, so many bytes long.
pub(crate) fn image_bytes(part: &PlanPart, has_image: bool, len: u64) -> u128
    requires { IsTrue (is_alignment part.now.alignment) }
    ensures { result ≡ (if has_image then capacity part.now len else 0) }
{
    if has_image {
        Section { size: len }.exact_capacity(part)
    } else {
        0
    }
}

/// The size of the linker's identity, if it stands in a part.
pub(crate) fn identity_size(link: &LinkInput, part: usize) -> Option<u128>
    ensures size { result ≡ identity_size link.now part }
    ensures small { IfSome result (λ n. n < 2 ^ 65) }
{
    match link.plan.named.comment {
        Some(comment) if comment.as_usize() == part => match &link.options.identity {
            Some(text) => Some(text.len() as u128 + 9),
            None => None,
        },
        _ => None,
    }
}

/// The bytes that the identity takes in a part, if it stands there, so many bytes long.
pub(crate) fn identity_bytes(part: &PlanPart, size: Option<u128>) -> u128
    requires aligned { IsTrue (is_alignment part.now.alignment) }
    requires small { IfSome size (λ n. n < 2 ^ 65) }
    ensures { result ≡ option_map_or (capacity part.now) size 0 }
{
    match size {
        Some(size) => padded(part, size),
        None => 0,
    }
}

/// The bytes that so many take in a part, with the padding behind them.
#[tactic(auto, using(lk_link::proofs::Rounding::rounding))]
fn padded(part: &PlanPart, size: u128) -> u128
    requires aligned { IsTrue (is_alignment part.now.alignment) }
    requires small { size < 2 ^ 65 }
    ensures { result ≡ capacity part.now size }
{
    let alignment = u128::from(part.alignment);
    let rest = size % alignment;
    let padding = if part.packed || rest == 0 {
        0
    } else {
        alignment - rest
    };
    size + padding
}

/// What comes into each part, by its number: what was added up, with the entries of the tables. Looks at each part once. Refuses the
/// first part at which the sizes so far pass 2^64 - 1 together (libwild: `compute_total_section_part_sizes`).
pub fn part_contents(
    alloc: Global,
    link: &LinkInput,
    totals: &[PartTotal],
    tables: &TableTotals,
) -> Result<List<PartContents>, SizeError>
    requires good { IsWellFormed link.now }
    requires count { length totals.now ≡ length (all_parts link.now.plan.sections) }
    ensures { (filling : Filling) → AreContentTotals (in_link link.now filling) totals.now
        → tables.now ≡ totals_of (tables_of (in_link link.now filling).content) → GivesContents (in_link link.now filling) result }
{
    let whole = add_tables(alloc, link, totals, tables)?;
    sum_up(alloc, &whole)
}

/// What comes into each part, by what was added up. Refuses the first part at which the sizes so far pass 2^64 - 1 together.
pub(crate) fn sum_up(alloc: Global, totals: &[PartTotal]) -> Result<List<PartContents>, SizeError>
    ensures { (filling : Filling) → AreSums filling totals.now → GivesContents filling result }
{
    let mut contents = Vec::with_capacity(alloc, totals.len())?;
    let mut sum = 0u128;
    for (part, total) in totals.iter().enumerate() {
        sum = sum.saturating_add(total.bytes);
        if sum > u128::from(u64::MAX) {
            let place = Place::Part(part);
            return Err(SizeError::AddressOverflow { place });
        }
        contents.push(PartContents {
            bytes: total.bytes as u64,
            has_image: total.has_image,
            attrs: total.attrs,
        })?;
    }
    Ok(List::from_vec(contents))
}

/// The totals of the parts with the entries of tables.
fn add_tables(
    alloc: Global,
    link: &LinkInput,
    totals: &[PartTotal],
    tables: &TableTotals,
) -> Result<Vec<PartTotal>, AllocError>
    requires good { IsWellFormed link.now }
    requires count { length totals.now ≡ length (all_parts link.now.plan.sections) }
    ensures { (lists : TableLists) → tables.now ≡ totals_of lists
        → IfOk result (λ whole. whole.items ≡ with_tables link.now.plan.named lists totals.now) }
{
    let mut whole = Vec::with_capacity(alloc, totals.len())?;
    for (number, total) in totals.iter().enumerate() {
        let part = PartId::from_u32(number as u32);
        let more = bytes_in_part(&link.plan.named, tables, part);
        whole.push(total.with_entries(more))?;
    }
    Ok(whole)
}

/// The first sizes of the parts, which tell which sections are emitted: what was added up, with the entries of tables that are
/// known before that, by what files take first. One past 2^64 - 1 is given as that. Looks at each part once.
pub fn first_sizes(
    alloc: Global,
    link: &LinkInput,
    totals: &[PartTotal],
    shares: &[FileShare],
) -> Result<Vec<u64>, AllocError>
    requires good { IsWellFormed link.now }
    requires count { length totals.now ≡ length (all_parts link.now.plan.sections) }
    ensures { (sizes : TableSizes) (live : Live) (merged_lens : List ℕ)
        → AreContentTotals (plain_filling (content_of link.now sizes live merged_lens)) totals.now → shares.now ≡ first_shares sizes link.now live
        → IfOk result (λ first. AreFirstSizes (content_of link.now sizes live merged_lens) first.items) }
{
    let tables = first_totals(link, shares);
    let whole = add_tables(alloc, link, totals, &tables)?;
    let first = capped(alloc, &whole)?;
    Ok(first)
}

/// The bytes of totals, each at most 2^64 - 1.
fn capped(alloc: Global, totals: &[PartTotal]) -> Result<Vec<u64>, AllocError>
    ensures { IfOk result (λ sizes. sizes.items ≡ map (λ t. min t.bytes (2 ^ 64 - 1)) totals.now) }
{
    let mut sizes = Vec::with_capacity(alloc, totals.len())?;
    for total in totals {
        sizes.push(total.bytes.min(u128::from(u64::MAX)) as u64)?;
    }
    Ok(sizes)
}

/// What the images, the identity, the live sections and the commons bring to each part, by the number of the part, where the merged
/// images of output sections are so many bytes long; none is where nothing is merged. Looks at each input section and each
/// common once, and takes memory for the parts alone.
pub fn content_totals(
    alloc: Global,
    link: &LinkInput,
    live: &Live,
    merged_lens: &[u64],
    commons: &[Common],
) -> Result<Vec<PartTotal>, AllocError>
    requires good { IsWellFormed link.now }
    requires live { AreLive link.now live.now }
    requires commons { commons.now ≡ all_commons link.now live.now }
    ensures { (sizes : TableSizes)
        → IfOk result (λ totals. AreContentTotals (plain_filling (content_of link.now sizes live.now merged_lens.now)) totals.items) }
{
    sized_totals(alloc, link, live, merged_lens, commons, None)
}

/// The same where input sections have these sizes, by their numbers, or those that the description gives.
pub(crate) fn sized_totals(
    alloc: Global,
    link: &LinkInput,
    live: &Live,
    merged_lens: &[u64],
    commons: &[Common],
    sizes: Option<&[u64]>,
) -> Result<Vec<PartTotal>, AllocError>
    requires good { IsWellFormed link.now }
    requires live { AreLive link.now live.now }
    requires commons { commons.now ≡ all_commons link.now live.now }
    ensures { (tables : TableSizes) → IfOk result (λ totals. AreContentTotals
        (sized_filling (content_of link.now tables live.now merged_lens.now) (option_map_or (λ s. s.now) sizes.entry (own_sizes link.now))) totals.items) }
{
    let parts = link.plan.sections.parts();
    let lens = image_lens(alloc, link.plan.sections.as_slice(), merged_lens)?;
    let inputs = add_takers(alloc, link, live, commons, sizes)?;
    let mut totals = Vec::with_capacity(alloc, inputs.len())?;
    for number in 0..inputs.len() {
        let part = &parts[number];
        let total = inputs[number].with_image(part, lens[number]);
        totals.push(total.with_identity(part, identity_size(link, number)))?;
    }
    Ok(totals)
}

/// What sections and commons bring to each part, without the images.
fn add_takers(
    alloc: Global,
    link: &LinkInput,
    live: &Live,
    commons: &[Common],
    sizes: Option<&[u64]>,
) -> Result<Vec<PartTotal>, AllocError>
    requires good { IsWellFormed link.now }
    requires live { AreLive link.now live.now }
    requires commons { commons.now ≡ all_commons link.now live.now }
    ensures count { IfOk result (λ totals. length totals.items ≡ length (all_parts link.now.plan.sections)) }
    ensures bytes { IfOk result (λ totals. (p : ℕ) (total : PartTotal) → slice_get totals.items p ≡ Some total → min total.bytes (2 ^ 64)
        ≡ min (live_size (size_in link.now (option_map_or (λ s. s.now) sizes.entry (own_sizes link.now))) link.now live.now p
        + commons_size link.now p (all_commons link.now live.now)) (2 ^ 64)) }
    ensures image { IfOk result (λ totals. (p : ℕ) (total : PartTotal) → slice_get totals.items p ≡ Some total
        → total.has_image ≡ has_image link.now p) }
    ensures attrs { IfOk result (λ totals. (p : ℕ) (total : PartTotal) → slice_get totals.items p ≡ Some total
        → total.attrs ≡ part_attributes link.now live.now p) }
{
    let mut totals = add_inputs(alloc, link, live, sizes)?;
    add_commons(link, commons, &mut totals);
    Ok(totals)
}

/// Adds what commons bring to each part.
fn add_commons(link: &LinkInput, commons: &[Common], totals: &mut [PartTotal])
    requires good { IsWellFormed link.now }
    requires goes { CommonsGo link.now commons.now }
    requires count { length totals.old ≡ length (all_parts link.now.plan.sections) }
    ensures { AreAdded link.now commons.now totals.old totals.new }
{
    let parts = link.plan.sections.parts();
    for common in commons {
        let part = common.part.as_usize();
        totals[part] = totals[part].with_common(&parts[part], common.size);
    }
}

/// What the live and merged sections bring to each part, without the images.
pub(crate) fn add_inputs(
    alloc: Global,
    link: &LinkInput,
    live: &Live,
    sizes: Option<&[u64]>,
) -> Result<Vec<PartTotal>, AllocError>
    requires good { IsWellFormed link.now }
    requires live { AreLive link.now live.now }
    ensures count { IfOk result (λ totals. length totals.items ≡ length (all_parts link.now.plan.sections)) }
    ensures bytes { IfOk result (λ totals. (p : ℕ) (total : PartTotal) → slice_get totals.items p ≡ Some total
        → min total.bytes (2 ^ 64)
        ≡ min (live_size (size_in link.now (option_map_or (λ s. s.now) sizes.entry (own_sizes link.now))) link.now live.now p) (2 ^ 64)) }
    ensures image { IfOk result (λ totals. (p : ℕ) (total : PartTotal) → slice_get totals.items p ≡ Some total
        → total.has_image ≡ has_image link.now p) }
    ensures attrs { IfOk result (λ totals. (p : ℕ) (total : PartTotal) → slice_get totals.items p ≡ Some total
        → total.attrs ≡ part_attributes link.now live.now p) }
{
    let parts = link.plan.sections.parts();
    let nothing = PartTotal {
        bytes: 0,
        has_image: false,
        attrs: 0,
    };
    let mut totals = vec![in alloc; nothing; parts.len()]?;
    for input in KeptInputs::new(link, live) {
        let part = input.section.part.as_usize();
        let size = size_of(link, sizes, input);
        totals[part] = totals[part].with(&parts[part], input.section, size);
    }
    Ok(totals)
}

/// For each part the length of the image of its output section, by those of the output sections; 0 where none is given.
pub(crate) fn image_lens(
    alloc: Global,
    sections: &[PlanSection],
    merged_lens: &[u64],
) -> Result<Vec<u64>, AllocError>
    ensures { IfOk result (λ lens. lens.items ≡ map (slice_index merged_lens.now) (part_sections sections.now)) }
{
    let mut lens = Vec::new(alloc);
    for (number, section) in sections.iter().enumerate() {
        push_lens(
            &mut lens,
            len_at(merged_lens, number),
            section.parts.as_slice(),
        )?;
    }
    Ok(lens)
}

/// The length with this number, or 0.
pub(crate) fn len_at(lens: &[u64], number: usize) -> u64
    ensures { result ≡ slice_index lens.now number }
{
    match lens.get(number) {
        Some(len) => *len,
        None => 0,
    }
}

/// Adds a length for each of some parts.
fn push_lens(lens: &mut Vec<u64>, len: u64, parts: &[PlanPart]) -> Result<(), AllocError>
    ensures { OnOk result (lens.new.items ≡ lens.old.items ++ map (λ _. len) parts.now) }
{
    for _part in parts {
        lens.push(len)?;
    }
    Ok(())
}

/// The bytes of each part, by what comes into it.
pub(crate) fn sizes_of_contents(
    alloc: Global,
    contents: &[PartContents],
) -> Result<Vec<u64>, AllocError>
    ensures bytes { IfOk result (λ sizes. sizes.items ≡ map (λ c. c.bytes) contents.now) }
    ensures sizes { (filling : Filling) → contents.now ≡ part_contents filling
        → IfOk result (λ sizes. sizes.items ≡ part_sizes filling) }
{
    let mut sizes = Vec::with_capacity(alloc, contents.len())?;
    for part in contents {
        sizes.push(part.bytes)?;
    }
    Ok(sizes)
}
