//! The addresses of live sections, commons and blocks of thunks.
//!
//! The owners of a part stand one behind the other from the part's start: its merged image and the identity, then file by file the
//! live sections that aren't sorted, the commons, and in the primary part the block of thunks that the file owns, last the sorted sections.
//! A table holds the next address of each part, at first the end of what leads; one pass over the files gives each of these sections, each
//! common and each block the next address of its part, which moves on by the bytes that it takes, and a pass over the sorted sections does
//! the same.

ghost use Rattle.std.specs.Prelude.{◌≡◌, ◌+◌, ◌-◌, ◌^◌, ◌<◌, ◌++◌, ◌&&◌, not, ℕ, if◌then◌else◌, IfOk, IfSome, IsTrue, OnOk, Some, length, map, slice_index};
ghost use Rattle.std.specs.List.{enumerate_from, filter_map, range_with_len};
ghost use Rattle.std.specs.Option.{option_map_or};
ghost use Rattle.lk_link.specs.Alignments.{is_alignment};
ghost use Rattle.lk_link.specs.Files.{file_in};
ghost use Rattle.lk_link.specs.Inputs.{all_inputs, first_input};
ghost use Rattle.lk_link.specs.Marks.{is_marked};
ghost use Rattle.lk_link.specs.Parts.{all_parts};
ghost use Rattle.lk_link.specs.Sizes.{capacity};
ghost use Rattle.lk_link.specs.Walks.{file_of};
ghost use Rattle.lk_link.specs.WellFormed.{IsWellFormed};
ghost use Rattle.lk_live.specs.Reach.{AreLive};
ghost use Rattle.lk_sizes.specs.Addresses.{block_addresses, common_addresses, section_addresses};
ghost use Rattle.lk_sizes.specs.Owners.{AreThunkOwners, Filling, by_part, common_taker, has_image, in_output, live_of, own_sizes, size_in};
ghost use Rattle.lk_sizes.specs.PartOwners.{EndsFit};
ghost use Rattle.lk_sizes.specs.Sizing.{AreFilled};
ghost use Rattle.lk_sizes.specs.Tables.{ArePassed, AreSortedThere, AreTheirs, AreWritten, CommonsGo, HaveSortedSpace, HaveSpace, behind_leading, block_places, block_takers, common_places, section_places, taker_by};

use crate::blocks::split_block;
use crate::commons::split_commons;
use crate::owners::{PartContents, identity_bytes, identity_size, image_bytes, image_lens, len_at};
use crate::part_owners::PartOwners;
use crate::sorted::{InputSortedSection, number_of};
use lk_live::Live;
use lk_link::marks::is_marked;
use lk_link::{FileId, FileRef, InputSection, LinkInput, PlanPart, Section, SymbolId};
use lk_tables::Common;
use std::alloc::{AllocError, Global};

/// A live section, with the address that it gets.
#[derive(Clone, Copy, Debug, PartialEq, Eq)]
pub struct LiveSection {
    pub file: FileId,
    /// Its index in the file.
    pub index: usize,
    /// The address of its first byte.
    pub address: u64,
    /// Bytes.
    pub size: u64,
}

/// A common that takes bytes, with the address that it gets.
#[derive(Clone, Copy, Debug, PartialEq, Eq)]
pub struct CommonAddress {
    pub symbol: SymbolId,
    /// The address of its first byte.
    pub address: u64,
}

/// The addresses of the owners of all parts, images aside.
#[derive(Drop)]
pub struct OwnerAddresses {
    /// Of each input section, by its number over all files, where it is live; else 0.
    pub sections: Vec<u64>,
    /// Of each common that takes bytes, by file and index, so in the order of their symbols.
    pub commons: Vec<CommonAddress>,
    /// Of each block of thunks that a file owns, in the order of files; 0 where the plan names no primary part.
    pub blocks: Vec<u64>,
}

/// The addresses of live sections, of the commons that take bytes and of the blocks of thunks that files own, by what was found of the
/// parts, and where they start in memory. Looks at each input section, each common and each block once, and takes 8 bytes for each
/// section, 16 for each common and 8 for each block (libwild: `ObjectLayoutState::finalise_layout`).
pub fn owner_addresses(
    alloc: Global,
    link: &LinkInput,
    live: &Live,
    owners: &PartOwners,
    starts: &[u64],
) -> Result<OwnerAddresses, AllocError>
    requires good { IsWellFormed link.now }
    requires live { AreLive link.now live.now }
    requires thunks { AreThunkOwners link.now owners.now.thunks }
    requires starts { length starts.now ≡ length (all_parts link.now.plan.sections) }
    requires room { (filling : Filling) × AreFilled (in_output link.now live.now filling) owners.now
        × EndsFit (in_output link.now live.now filling) starts.now }
    ensures sections { (filling : Filling) → AreFilled (in_output link.now live.now filling) owners.now
        → IfOk result (λ told. told.sections.items ≡ section_addresses (in_output link.now live.now filling) starts.now) }
    ensures commons { (filling : Filling) → AreFilled (in_output link.now live.now filling) owners.now
        → IfOk result (λ told. told.commons.items ≡ common_addresses (in_output link.now live.now filling) starts.now) }
    ensures blocks { (filling : Filling) → AreFilled (in_output link.now live.now filling) owners.now
        → IfOk result (λ told. told.blocks.items ≡ block_addresses (in_output link.now live.now filling) starts.now) }
{
    let (listed, thunks) = (owners.commons(), owners.thunks());
    let sizes = owners.sizes();
    let mut next = behind_leading(alloc, link, owners.lens(), owners.contents(), starts)?;
    let mut sections = Vec::with_capacity(alloc, live.marks.len())?;
    let mut commons = Vec::with_capacity(alloc, listed.len())?;
    let mut owned = Vec::with_capacity(alloc, thunks.len())?;
    let mut left = listed;
    let mut waiting = thunks;
    for file in link.groups.files() {
        let (own, behind) = split_commons(link, file, left);
        let (block, others) = split_block(file, waiting);
        place_sections(link, live, sizes, file, &mut next, &mut sections)?;
        place_commons(link, own, &mut next, &mut commons)?;
        place_block(link, block, &mut next, &mut owned)?;
        left = behind;
        waiting = others;
    }
    let sections = with_sorted(link, owners.sorted(), next, sections);
    Ok(OwnerAddresses {
        sections,
        commons,
        blocks: owned,
    })
}

/// Adds the addresses of a file's sections; those that are live and aren't sorted get the next ones of their parts.
fn place_sections(
    link: &LinkInput,
    live: &Live,
    sizes: Option<&[u64]>,
    file: FileRef<'_>,
    next: &mut [u64],
    addresses: &mut Vec<u64>,
) -> Result<(), AllocError>
    requires good { IsWellFormed link.now }
    requires live { AreLive link.now live.now }
    requires there { file_in link.now.groups file.id ≡ Some file.file.now }
    requires count { length next.old ≡ length (all_parts link.now.plan.sections) }
    requires space { HaveSpace link.now next.old (map (taker_by (size_in link.now (option_map_or (λ s. s.now) sizes (own_sizes link.now)))) (live_of link.now live.now (file_of file))) }
    ensures moved { OnOk result (ArePassed link.now next.old
        (map (taker_by (size_in link.now (option_map_or (λ s. s.now) sizes.entry (own_sizes link.now)))) (live_of link.now live.now (file_of file.entry))) next.new) }
    ensures told { OnOk result (addresses.new.items
        ≡ addresses.old.items ++ section_places (size_in link.now (option_map_or (λ s. s.now) sizes.entry (own_sizes link.now))) link.now live.now next.old (file_of file.entry)) }
{
    let parts = link.plan.sections.parts();
    let marks = live.marks.as_slice();
    let first = first_number(link, file);
    for (index, section) in file.file.sections.as_slice().iter().enumerate() {
        let number = first + index;
        let stands = stands_in_file(marks, number, section);
        let mut address = 0u64;
        if stands {
            let part = section.part.as_usize();
            let size = size_at(sizes, number, section.size);
            address = take_next(&mut next[part], &parts[part], size);
        }
        addresses.push(address)?;
    }
    Ok(())
}

/// The size with this number, or the section's own where none are given.
fn size_at(sizes: Option<&[u64]>, number: usize, own: u64) -> u64
    ensures { result ≡ option_map_or (λ s. slice_index s.now number) sizes.entry own }
{
    match sizes {
        Some(sizes) => len_at(sizes, number),
        None => own,
    }
}

/// Whether an input section with this number is live and isn't sorted.
fn stands_in_file(marks: &[bool], number: usize, section: &InputSection) -> bool
    ensures { result ≡ (is_marked marks.now number && not section.now.sorted) }
{
    is_marked(marks, number) && !section.sorted
}

/// The number of a file's first section over all files.
fn first_number(link: &LinkInput, file: FileRef<'_>) -> usize
    requires good { IsWellFormed link.now }
    requires there { file_in link.now.groups file.id ≡ Some file.file.now }
    ensures { result ≡ first_input link.now.groups file.entry.id }
{
    match link.groups.input_start(file.id) {
        Some(first) => first,
        None => 0,
    }
}

/// Adds the addresses of commons, the next ones of their parts.
fn place_commons(
    link: &LinkInput,
    commons: &[Common],
    next: &mut [u64],
    addresses: &mut Vec<CommonAddress>,
) -> Result<(), AllocError>
    requires good { IsWellFormed link.now }
    requires goes { CommonsGo link.now commons.now }
    requires count { length next.old ≡ length (all_parts link.now.plan.sections) }
    requires space { HaveSpace link.now next.old (map common_taker commons.now) }
    ensures moved { OnOk result (ArePassed link.now next.old (map common_taker commons.now) next.new) }
    ensures told { OnOk result (addresses.new.items ≡ addresses.old.items ++ common_places link.now next.old commons.now) }
{
    let parts = link.plan.sections.parts();
    for common in commons {
        let part = common.part.as_usize();
        let address = take_next(&mut next[part], &parts[part], common.size);
        let symbol = common.symbol;
        addresses.push(CommonAddress { symbol, address })?;
    }
    Ok(())
}

/// Adds the address of a file's block of thunks, if it owns one so many bytes long: the next one of the primary part.
fn place_block(
    link: &LinkInput,
    size: Option<u64>,
    next: &mut [u64],
    addresses: &mut Vec<u64>,
) -> Result<(), AllocError>
    requires good { IsWellFormed link.now }
    requires count { length next.old ≡ length (all_parts link.now.plan.sections) }
    requires space { (id : FileId) × HaveSpace link.now next.old (block_takers link.now id size) }
    ensures moved { (id : FileId) → OnOk result (ArePassed link.now next.old (block_takers link.now id size) next.new) }
    ensures told { OnOk result (addresses.new.items ≡ addresses.old.items ++ block_places link.now next.old size) }
{
    if let Some(size) = size {
        addresses.push(take_block(link, size, next))?;
    }
    Ok(())
}

/// The next address of the primary part, which moves on by the bytes that a block of this size takes there; 0 where the plan names none.
fn take_block(link: &LinkInput, size: u64, next: &mut [u64]) -> u64
    requires good { IsWellFormed link.now }
    requires count { length next.old ≡ length (all_parts link.now.plan.sections) }
    requires space { (id : FileId) × HaveSpace link.now next.old (block_takers link.now id (Some size)) }
    ensures address { result ≡ option_map_or (slice_index next.old) link.now.plan.named.primary 0 }
    ensures moved { (id : FileId) → ArePassed link.now next.old (block_takers link.now id (Some size)) next.new }
{
    match link.plan.named.primary {
        Some(primary) => {
            let part = primary.as_usize();
            let parts = link.plan.sections.parts();
            take_next(&mut next[part], &parts[part], size)
        }
        None => 0,
    }
}

/// The addresses of input sections with those of sorted ones, the next ones of their parts, at their numbers.
fn with_sorted(
    link: &LinkInput,
    sorted: &[InputSortedSection],
    next: Vec<u64>,
    addresses: Vec<u64>,
) -> Vec<u64>
    requires good { IsWellFormed link.now }
    requires there { AreSortedThere link.now (length next.items) sorted.now }
    requires count { length addresses.items ≡ length (all_inputs link.now.groups) }
    requires space { HaveSortedSpace next.items sorted.now }
    ensures { (table : ℕ → ℕ) → AreTheirs link.now table next.items sorted.now
        → AreWritten link.now table sorted.now addresses.items result.items }
{
    let mut next = next;
    let mut addresses = addresses;
    for section in sorted {
        let part = section.part_id.as_usize();
        let address = next[part];
        next[part] = address + section.size;
        let number = number_of(link, section.file_id, section.section_index);
        addresses[number] = address;
    }
    addresses
}

/// For each part where what leads in it ends, the image and the identity; where nothing does, where it starts.
fn behind_leading(
    alloc: Global,
    link: &LinkInput,
    merged_lens: &[u64],
    contents: &[PartContents],
    starts: &[u64],
) -> Result<Vec<u64>, AllocError>
    requires good { IsWellFormed link.now }
    requires images { map (λ c. c.has_image) contents.now ≡ by_part (has_image link.now) link.now }
    requires starts { length starts.now ≡ length (all_parts link.now.plan.sections) }
    requires fit { (p : ℕ) → p < length starts.now → behind_leading link.now merged_lens.now starts.now p < 2 ^ 64 }
    ensures { IfOk result (λ next. next.items
        ≡ map (behind_leading link.now merged_lens.now starts.now) (range_with_len 0 (length starts.now))) }
{
    let parts = link.plan.sections.parts();
    let lens = image_lens(alloc, link.plan.sections.as_slice(), merged_lens)?;
    let mut next = Vec::with_capacity(alloc, starts.len())?;
    for number in 0..starts.len() {
        let has_image = contents[number].has_image;
        let identity = identity_size(link, number);
        let start = starts[number];
        next.push(leading_end(start, &parts[number], has_image, lens[number], identity))?;
    }
    Ok(next)
}

/// Where what leads in a part that starts here ends: its image and the identity, if they stand there, so many bytes long.
fn leading_end(
    start: u64,
    part: &PlanPart,
    has_image: bool,
    len: u64,
    identity: Option<u128>,
) -> u64
    requires aligned { IsTrue (is_alignment part.now.alignment) }
    requires small { IfSome identity (λ n. n < 2 ^ 65) }
    requires room { start + ((if has_image then capacity part.now len else 0) + option_map_or (capacity part.now) identity 0) < 2 ^ 64 }
    ensures { result ≡ start + ((if has_image then capacity part.now len else 0) + option_map_or (capacity part.now) identity 0) }
{
    let image = image_bytes(part, has_image, len) as u64;
    start + (image + identity_bytes(part, identity) as u64)
}

/// The next address of a part, which moves on by the bytes that an owner of this size takes there.
fn take_next(next: &mut u64, part: &PlanPart, size: u64) -> u64
    requires aligned { IsTrue (is_alignment part.now.alignment) }
    requires room { next.old + capacity part.now size < 2 ^ 64 }
    ensures address { result ≡ next.old }
    ensures moved { next.new ≡ next.old + capacity part.now size }
{
    let address = *next;
    *next = address + Section { size }.exact_capacity(part) as u64;
    address
}
