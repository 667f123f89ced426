//! Who takes the bytes of all parts, and which sections and segments are told by that.
//!
//! What symbols bring is found first, as far as no late mark changes it: what they take in tables, and the commons that take bytes. What
//! input sections and commons bring is added up behind that. That tells
//! which sections are emitted, and so which symbols of the prelude are marked late and how many headers there are. Then the
//! tables are whole, and the sums of all parts are looked at.

ghost use Rattle.std.specs.Prelude.{◌≡◌, ◌≤◌, ℕ, IfOk, length, map, option_map, slice_index, unwrap_or};
ghost use Rattle.std.specs.Option.{option_map_or};
ghost use Rattle.lk_link.specs.Marks.{is_marked};
ghost use Rattle.lk_link.specs.Parts.{all_parts};
ghost use Rattle.lk_link.specs.TableSizes.{TableSizes};
ghost use Rattle.lk_link.specs.WellFormed.{IsWellFormed};
ghost use Rattle.lk_live.specs.Reach.{AreLive};
ghost use Rattle.lk_tables.specs.ShareWords.{first_shares};
ghost use Rattle.lk_sizes.specs.Emitted.{is_emitted};
ghost use Rattle.lk_sizes.specs.Contents.{AreContentTotals, part_contents};
ghost use Rattle.lk_sizes.specs.Owners.{AreThunkOwners, Filling, all_commons, content_of, in_link, in_output, own_sizes, plain_filling, sized_filling, with_thunks, without_thunks};
ghost use Rattle.lk_sizes.specs.PartOwners.{part_sizes};
ghost use Rattle.lk_sizes.specs.Sizing.{AreFilled, GivesAdded, GivesOwners, IsResized, with_sizes};

use crate::blocks::add_blocks;
use crate::error::SizeError;
use crate::header::determine_header_sizes;
use crate::owners::{
    PartContents, PartTotal, add_inputs, content_totals, first_sizes, part_contents, sized_totals,
    sizes_of_contents,
};
use crate::resized::{contents_fit, less_bytes, resize_sections};
use crate::sorted::{InputSortedSection, tell_sorted};
use lk_live::Live;
use lk_link::{FileId, LinkInput, List, Platform};
use lk_tables::{
    Common, DynamicNumbers, FileShare, HeaderInfo, SymbolShares, mark_prelude, symbol_shares,
    symbol_shares_by_groups, whole_totals,
};
use rayon::prelude::*;
use std::alloc::{AllocError, Global};
use std::marker::Model;
use std::thread::Threads;

/// What comes into the parts, and what is told by that (libwild keeps these in its states of groups). Contracts see a record.
#[derive(Drop)]
pub struct PartOwners {
    /// What comes into each part.
    contents: List<PartContents>,
    /// Which sections and segments are told.
    header: HeaderInfo,
    /// The numbers of dynamic symbols at the first symbol.
    numbers: DynamicNumbers,
    /// The commons that take bytes, in the order of their symbols.
    commons: List<Common>,
    /// What each file's symbols take in tables first, by group and index.
    shares: List<FileShare>,
    /// The sorted sections, in the order in which they stand in their parts.
    sorted: List<InputSortedSection>,
    /// The lengths of merged images, by output section.
    lens: List<u64>,
    /// The bytes of the blocks of thunks, by the files that own them.
    thunks: List<(FileId, u64)>,
    /// The sizes of input sections, by number, where they aren't those of the description.
    sizes: Option<List<u64>>,
}

/// What goes by the sizes of input sections.
#[derive(Drop)]
pub(crate) struct ResizedLists {
    /// What comes into each part.
    pub(crate) contents: List<PartContents>,
    /// The sorted sections, in the order in which they stand in their parts.
    pub(crate) sorted: List<InputSortedSection>,
    /// The sizes of input sections, by number.
    pub(crate) sizes: List<u64>,
}

impl Model for PartOwners {
    ghost use Rattle.lk_sizes.specs.OwnersRecord.{OwnersRecord};

    ghost Value = { OwnersRecord };

    ghost view = { λ a. record {
      contents = a.contents;
      header = a.header;
      numbers = a.numbers;
      commons = a.commons;
      shares = a.shares;
      sorted = a.sorted;
      lens = a.lens;
      thunks = a.thunks;
      sizes = a.sizes;
    } };
}

impl PartOwners {
    /// What comes into each part.
    pub fn contents(&self) -> &[PartContents]
        ensures { result.now ≡ self.now.contents }
    {
        self.contents.as_slice()
    }

    /// Which sections and segments are told.
    pub fn header(&self) -> &HeaderInfo
        ensures { result.now ≡ self.now.header }
    {
        &self.header
    }

    /// The same with the sorted sections, and nothing else is kept.
    pub fn into_told(self) -> (HeaderInfo, List<InputSortedSection>)
        ensures header { result.0 ≡ self.header }
        ensures sorted { result.1 ≡ self.sorted }
    {
        (self.header, self.sorted)
    }

    /// The numbers of dynamic symbols at the first symbol.
    pub fn numbers(&self) -> DynamicNumbers
        ensures { result ≡ self.now.numbers }
    {
        self.numbers
    }

    /// The commons that take bytes, in the order of their symbols.
    pub fn commons(&self) -> &[Common]
        ensures { result.now ≡ self.now.commons }
    {
        self.commons.as_slice()
    }

    /// What each file's symbols take in tables, by group and index; of the prelude what no late mark changes.
    pub fn shares(&self) -> &[FileShare]
        ensures { result.now ≡ self.now.shares }
    {
        self.shares.as_slice()
    }

    /// The live sorted sections, in the order in which they stand in their parts.
    pub fn sorted(&self) -> &[InputSortedSection]
        ensures { result.now ≡ self.now.sorted }
    {
        self.sorted.as_slice()
    }

    /// The bytes of the blocks of thunks, by the files that own them, in the order of files.
    pub fn thunks(&self) -> &[(FileId, u64)]
        ensures { result.now ≡ self.now.thunks }
    {
        self.thunks.as_slice()
    }

    /// The sizes of input sections, by number; none where they are those of the description.
    pub fn sizes(&self) -> Option<&[u64]>
        ensures { option_map (λ s. s.now) result ≡ self.now.sizes }
    {
        match &self.sizes {
            Some(sizes) => Some(sizes.as_slice()),
            None => None,
        }
    }

    /// The lengths of merged images, by output section; where none is given, nothing is merged.
    pub fn lens(&self) -> &[u64]
        ensures { result.now ≡ self.now.lens }
    {
        self.lens.as_slice()
    }
}

/// What comes into the parts where the merged images of output sections and the blocks of thunks that files own are so many bytes
/// long, and input sections have these sizes, by their numbers; and what is told by that, which goes by the sizes that the
/// description gives. Looks at each input section a few times, at each symbol once, and at each of the prelude once more. Refuses
/// the first part at which the sizes so far pass 2^64 - 1 together, without the blocks if they do so without them. In output that
/// is linked again sections have entries, headers and names too, which come with it.
pub fn owners<P: Platform>(
    alloc: Global,
    link: &LinkInput,
    platform: &P,
    live: &Live,
    merged_lens: &[u64],
    thunk_owners: &[(FileId, u64)],
    sizes: &[u64],
) -> Result<PartOwners, SizeError>
    requires good { IsWellFormed link.now }
    requires live { AreLive link.now live.now }
    requires thunks { AreThunkOwners link.now thunk_owners.now }
    ensures owners { GivesOwners (with_thunks (sized_filling (content_of link.now (P.table_sizes platform.now) live.now merged_lens.now) sizes.now)
        thunk_owners.now) result }
    ensures marks { IfOk result (λ owners. is_marked owners.header.emitted
        ≡ is_emitted (content_of link.now (P.table_sizes platform.now) live.now merged_lens.now)) }
{
    let brought = symbol_shares(alloc, link, platform, live)?;
    let owners = sized_owners(
        alloc,
        link,
        platform,
        live,
        merged_lens,
        Some(sizes),
        brought,
    )?;
    add_thunks(alloc, link, owners, thunk_owners)
}

/// The same with the sizes that the description gives, and without thunks: each input section is looked at once less.
pub fn plain_owners<P: Platform>(
    alloc: Global,
    link: &LinkInput,
    platform: &P,
    live: &Live,
    merged_lens: &[u64],
) -> Result<PartOwners, SizeError>
    requires good { IsWellFormed link.now }
    requires live { AreLive link.now live.now }
    ensures owners { GivesOwners (plain_filling (content_of link.now (P.table_sizes platform.now) live.now merged_lens.now)) result }
    ensures marks { IfOk result (λ owners. is_marked owners.header.emitted
        ≡ is_emitted (content_of link.now (P.table_sizes platform.now) live.now merged_lens.now)) }
{
    let brought = symbol_shares(alloc, link, platform, live)?;
    sized_owners(alloc, link, platform, live, merged_lens, None, brought)
}

/// The same, where what symbols bring is found group by group, on several threads.
pub fn plain_owners_by_groups<R: Threads + Sync, P: Platform + Sync>(
    rt: &R,
    alloc: Global,
    link: &LinkInput,
    platform: &P,
    live: &Live,
    merged_lens: &[u64],
) -> Result<PartOwners, SizeError>
    requires good { IsWellFormed link.now }
    requires live { AreLive link.now live.now }
    ensures owners { GivesOwners (plain_filling (content_of link.now (P.table_sizes platform.now) live.now merged_lens.now)) result }
    ensures marks { IfOk result (λ owners. is_marked owners.header.emitted
        ≡ is_emitted (content_of link.now (P.table_sizes platform.now) live.now merged_lens.now)) }
{
    let brought = symbol_shares_by_groups(rt, alloc, link, platform, live)?;
    sized_owners(alloc, link, platform, live, merged_lens, None, brought)
}

/// What was found without thunks, with the blocks that these files own, so many bytes long. Looks at each part and each block once.
/// Refuses the first part at which the sizes so far pass 2^64 - 1 together.
pub fn add_thunks(
    alloc: Global,
    link: &LinkInput,
    owners: PartOwners,
    thunk_owners: &[(FileId, u64)],
) -> Result<PartOwners, SizeError>
    requires good { IsWellFormed link.now }
    requires thunks { AreThunkOwners link.now thunk_owners.now }
    requires count { length owners.contents ≡ length (all_parts link.now.plan.sections) }
    ensures { (filling : Filling) → AreFilled (without_thunks (in_link link.now filling)) owners
        → GivesAdded (with_thunks (in_link link.now filling) thunk_owners.now) result }
{
    let thunks = match Vec::from_slice(alloc, thunk_owners) {
        Ok(thunks) => List::from_vec(thunks),
        Err(error) => {
            drop(owners);
            return Err(SizeError::from(error));
        }
    };
    match add_blocks(alloc, link, owners.contents.as_slice(), thunk_owners) {
        Ok(contents) => Ok(PartOwners {
            contents,
            header: owners.header,
            numbers: owners.numbers,
            commons: owners.commons,
            shares: owners.shares,
            sorted: owners.sorted,
            lens: owners.lens,
            thunks,
            sizes: owners.sizes,
        }),
        Err(error) => {
            drop(owners);
            drop(thunks);
            Err(error)
        }
    }
}

/// What was found, where input sections have other sizes by their numbers, none of them greater: each part loses what its live sections
/// lose. Looks at each live section twice, and at each part and each sorted section once.
pub fn resize_owners(
    alloc: Global,
    link: &LinkInput,
    live: &Live,
    owners: PartOwners,
    sizes: &[u64],
) -> Result<PartOwners, AllocError>
    requires good { IsWellFormed link.now }
    requires live { AreLive link.now live.now }
    requires filled { (filling : Filling) × AreFilled (in_output link.now live.now filling) owners }
    requires lesser { (k : ℕ) → slice_index sizes.now k ≤ slice_index (unwrap_or owners.sizes (own_sizes link.now)) k }
    ensures { (filling : Filling) → AreFilled (in_output link.now live.now filling) owners
        → IfOk result (λ resized. AreFilled (with_sizes (in_output link.now live.now filling) sizes.now) resized) }
{
    match resize(alloc, link, live, &owners, sizes) {
        Ok(resized) => Ok(PartOwners {
            contents: resized.contents,
            header: owners.header,
            numbers: owners.numbers,
            commons: owners.commons,
            shares: owners.shares,
            sorted: resized.sorted,
            lens: owners.lens,
            thunks: owners.thunks,
            sizes: Some(resized.sizes),
        }),
        Err(error) => {
            drop(owners);
            Err(error)
        }
    }
}

/// What of what was found goes by the sizes of input sections, by these sizes.
fn resize(
    alloc: Global,
    link: &LinkInput,
    live: &Live,
    owners: &PartOwners,
    sizes: &[u64],
) -> Result<ResizedLists, AllocError>
    requires good { IsWellFormed link.now }
    requires live { AreLive link.now live.now }
    requires filled { (filling : Filling) × AreFilled (in_output link.now live.now filling) owners.now }
    requires lesser { (k : ℕ) → slice_index sizes.now k ≤ slice_index (unwrap_or owners.now.sizes (own_sizes link.now)) k }
    ensures { (filling : Filling) → AreFilled (in_output link.now live.now filling) owners.now
        → IfOk result (IsResized (with_sizes (in_output link.now live.now filling) sizes.now)) }
{
    contents_fit(owners.contents());
    let before = add_inputs(alloc, link, live, owners.sizes())?;
    let after = add_inputs(alloc, link, live, Some(sizes))?;
    let contents = less_bytes(alloc, owners.contents(), &before, &after)?;
    let sorted = resize_sections(alloc, link, owners.sorted(), sizes)?;
    let sizes = List::from_vec(Vec::from_slice(alloc, sizes)?);
    Ok(ResizedLists {
        contents,
        sorted,
        sizes,
    })
}

/// What comes into the parts without thunks, where input sections have these sizes, or those that the description gives, and symbols bring
/// this.
fn sized_owners<P: Platform>(
    alloc: Global,
    link: &LinkInput,
    platform: &P,
    live: &Live,
    merged_lens: &[u64],
    sizes: Option<&[u64]>,
    brought: SymbolShares,
) -> Result<PartOwners, SizeError>
    requires good { IsWellFormed link.now }
    requires live { AreLive link.now live.now }
    requires shares { brought.files.items ≡ first_shares (P.table_sizes platform.now) link.now live.now }
    requires commons { brought.commons.items ≡ all_commons link.now live.now }
    ensures owners { GivesOwners (sized_filling (content_of link.now (P.table_sizes platform.now) live.now merged_lens.now)
        (option_map_or (λ s. s.now) sizes.entry (own_sizes link.now))) result }
    ensures marks { IfOk result (λ owners. is_marked owners.header.emitted
        ≡ is_emitted (content_of link.now (P.table_sizes platform.now) live.now merged_lens.now)) }
{
    let totals = content_totals(alloc, link, live, merged_lens, &brought.commons)?;
    let first = first_sizes(alloc, link, &totals, &brought.files)?;
    let header = determine_header_sizes(alloc, link, live, &first)?;
    let prelude = mark_prelude(link, platform, live, header.told.as_slice());
    let tables = whole_totals(link, platform, &brought.files, prelude, &header);
    let whole = resized(
        alloc,
        link,
        live,
        merged_lens,
        &brought.commons,
        totals,
        sizes,
    )?;
    let contents = part_contents(alloc, link, &whole, &tables)?;
    let numbers = DynamicNumbers::new(link, &brought.files, prelude);
    let sorted = List::from_vec(tell_sorted(alloc, link, live, sizes)?);
    let lens = List::from_vec(Vec::from_slice(alloc, merged_lens)?);
    let sizes = keep_sizes(alloc, sizes)?;
    Ok(PartOwners {
        contents,
        header,
        numbers,
        commons: List::from_vec(brought.commons),
        sorted,
        lens,
        thunks: List::new(alloc),
        sizes,
        shares: List::from_vec(brought.files),
    })
}

/// What was added up for the parts, by these sizes, or as it is where none are given.
fn resized(
    alloc: Global,
    link: &LinkInput,
    live: &Live,
    merged_lens: &[u64],
    commons: &[Common],
    own: Vec<PartTotal>,
    sizes: Option<&[u64]>,
) -> Result<Vec<PartTotal>, AllocError>
    requires good { IsWellFormed link.now }
    requires live { AreLive link.now live.now }
    requires commons { commons.now ≡ all_commons link.now live.now }
    requires own { (tables : TableSizes)
        → AreContentTotals (plain_filling (content_of link.now tables live.now merged_lens.now)) own.items }
    ensures { (tables : TableSizes) → IfOk result (λ totals. AreContentTotals
        (sized_filling (content_of link.now tables live.now merged_lens.now) (option_map_or (λ s. s.now) sizes.entry (own_sizes link.now))) totals.items) }
{
    match sizes {
        Some(_) => sized_totals(alloc, link, live, merged_lens, commons, sizes),
        None => Ok(own),
    }
}

/// The sizes, if they are given, to keep.
fn keep_sizes(alloc: Global, sizes: Option<&[u64]>) -> Result<Option<List<u64>>, AllocError>
    ensures { IfOk result (λ kept. kept ≡ option_map (λ s. s.now) sizes.entry) }
{
    match sizes {
        Some(sizes) => Ok(Some(List::from_vec(Vec::from_slice(alloc, sizes)?))),
        None => Ok(None),
    }
}

/// The bytes of each part, by who takes them.
pub fn part_sizes(alloc: Global, owners: &PartOwners) -> Result<Vec<u64>, AllocError>
    ensures bytes { IfOk result (λ sizes. sizes.items ≡ map (λ c. c.bytes) owners.now.contents) }
    ensures sizes { (filling : Filling) → owners.now.contents ≡ part_contents filling
        → IfOk result (λ sizes. sizes.items ≡ part_sizes filling) }
{
    sizes_of_contents(alloc, owners.contents.as_slice())
}

/// The same, each part by itself, on as many threads as their number is worth; few parts are one thread's. Takes the same memory once more,
/// where more than one does it.
pub fn part_sizes_with(
    rt: &(impl Threads + Sync),
    alloc: Global,
    owners: &PartOwners,
) -> Result<Vec<u64>, AllocError>
    ensures bytes { IfOk result (λ sizes. sizes.items ≡ map (λ c. c.bytes) owners.now.contents) }
    ensures sizes { (filling : Filling) → owners.now.contents ≡ part_contents filling
        → IfOk result (λ sizes. sizes.items ≡ part_sizes filling) }
{
    owners
        .contents()
        .par_iter()
        .map(
            |part: &PartContents| -> u64
                ensures { result ≡ part.now.bytes }
            { part.bytes },
        )
        .collect(rt, alloc)
}
