//! The same addresses, where what symbols stand for is found by several threads, group by group.
//!
//! A first walk over all symbols, on one thread, notes for each file where the entries of its first symbol go. So each group can be done
//! by itself, and any number of them at once; what is found of the groups is put together in their order.

ghost use Rattle.std.specs.Prelude.{◌≡◌, ◌+◌, ◌++◌, ◌<◌, IfOk, OnOk, Some, length};
ghost use Rattle.std.specs.List.{flat_map};
ghost use Rattle.lk_live.specs.Reach.{AreLive};
ghost use Rattle.lk_link.specs.Files.{file_in};
ghost use Rattle.lk_link.specs.Inputs.{numbered_files};
ghost use Rattle.lk_link.specs.Parts.{all_parts};
ghost use Rattle.lk_link.specs.Symbols.{first_symbol};
ghost use Rattle.lk_link.specs.Walks.{file_of};
ghost use Rattle.lk_link.specs.WellFormed.{IsWellFormed};
ghost use Rattle.lk_merge.specs.Addresses.{start_addresses};
ghost use Rattle.lk_merge.specs.Hash.{fnv64};
ghost use Rattle.lk_merge.specs.LinkInputs.{link_inputs};
ghost use Rattle.lk_sizes.specs.Images.{image_addresses};
ghost use Rattle.lk_sizes.specs.Addresses.{block_addresses, section_addresses};
ghost use Rattle.lk_sizes.specs.Owners.{Filling};
ghost use Rattle.lk_sizes.specs.Sizing.{AreFilled};
ghost use Rattle.lk_tables.specs.DynamicCounters.{AreNumbersAt};
ghost use Rattle.lk_deltas.specs.LinkDeletions.{sizes_after};
ghost use Rattle.lk_resolutions.specs.AtHand.{AreAtHand, places_at_hand, setting_at_hand};
ghost use Rattle.lk_resolutions.specs.ByGroups.{AreNextByFile, group_resolutions};
ghost use Rattle.lk_resolutions.specs.EntryWords.{AreNextAt};
ghost use Rattle.lk_resolutions.specs.OutputContent.{in_layout};
ghost use Rattle.lk_resolutions.specs.Resolutions.{file_resolutions, symbol_resolutions};
ghost use Rattle.lk_resolutions.specs.Starts.{IsPlaced, starts_of};
ghost use Rattle.lk_resolutions.specs.Tables.{AreMergedOf};

use crate::addresses::{Addresses, LentLink, PlacedParts, found_addresses};
use crate::entries::NextEntries;
use crate::resolution::{
    NumberedSymbol, Tables, first_cursors, first_symbol_of, push_file_resolutions, take_own,
};
use lk_link::{FileId, FileRef, InputFile, LinkInput, Platform};
use lk_live::Live;
use lk_merge::MergedStringsSection;
use lk_resolution_list::SymbolResolutions;
use lk_sizes::PartOwners;
use lk_tables::DynamicNumbers;
use rayon::prelude::*;
use std::alloc::{AllocError, Global};
use std::thread::Threads;

/// What `addresses_of` answers, with what symbols stand for found group by group, in two pieces for each processor. Looks at each symbol
/// once more, and takes 24 bytes for each file, and once more what resolutions take, while it does (libwild: the parallel walk
/// over groups in `layout::compute`).
pub fn addresses_of_by_groups<R: Threads + Sync, P: Platform + Sync>(
    rt: &R,
    alloc: Global,
    link: &LinkInput,
    live: &Live,
    merged: &[MergedStringsSection<'_>],
    owners: &PartOwners,
    placed: &PlacedParts<'_>,
    platform: &P,
) -> Result<Addresses, AllocError>
    requires good { IsWellFormed link.now }
    requires live { AreLive link.now live.now }
    requires merged { merged.now ≡ (link_inputs link.now).outputs }
    requires each { length placed.now.parts.now ≡ length (all_parts link.now.plan.sections) }
    requires placed { (filling : Filling) × IsPlaced (in_layout (P.table_sizes platform.now) link.now live.now filling) owners.now placed.now.parts.now
        × (filling.sizes ≡ sizes_after link.now.groups placed.now.deltas.now) }
    ensures sections { (filling : Filling) → AreFilled (in_layout (P.table_sizes platform.now) link.now live.now filling) owners.now
        → IfOk result (λ told. told.sections.items
        ≡ section_addresses (in_layout (P.table_sizes platform.now) link.now live.now filling) (starts_of placed.now.parts.now)) }
    ensures blocks { (filling : Filling) → AreFilled (in_layout (P.table_sizes platform.now) link.now live.now filling) owners.now
        → IfOk result (λ told. told.blocks.items
        ≡ block_addresses (in_layout (P.table_sizes platform.now) link.now live.now filling) (starts_of placed.now.parts.now)) }
    ensures buckets { (filling : Filling) → AreFilled (in_layout (P.table_sizes platform.now) link.now live.now filling) owners.now
        → IfOk result (λ told. told.buckets ≡ start_addresses fnv64 (link_inputs link.now).outputs
        (image_addresses (in_layout (P.table_sizes platform.now) link.now live.now filling) (starts_of placed.now.parts.now))) }
    ensures belong { IfOk result (λ told. AreMergedOf link.now merged.now told.buckets) }
    ensures resolutions { (filling : Filling) → AreFilled (in_layout (P.table_sizes platform.now) link.now live.now filling) owners.now
        → IfOk result (λ told. told.resolutions
        ≡ symbol_resolutions (in_layout (P.table_sizes platform.now) link.now live.now filling) placed.now.deltas.now placed.now.edges.now
        (starts_of placed.now.parts.now)) }
{
    let found = found_addresses(alloc, link, live, merged, owners, placed, platform)?;
    let lent = LentLink {
        link,
        live,
        merged,
        owners,
        parts: placed.parts,
        deltas: placed.deltas,
        edges: placed.edges,
    };
    let tables = found.tables(&lent, platform);
    let resolutions = resolve_by_groups(rt, alloc, platform, &tables, owners.numbers())?;
    Ok(found.with_resolutions(resolutions))
}

/// For each symbol of the link its resolution, if it has one, group by group. `numbers` are the next in the dynamic symbol table at the first.
fn resolve_by_groups<R: Threads + Sync, P: Platform + Sync>(
    rt: &R,
    alloc: Global,
    platform: &P,
    tables: &Tables<'_>,
    numbers: DynamicNumbers,
) -> Result<SymbolResolutions, AllocError>
    requires tables { AreAtHand (P.table_sizes platform.now) tables.now }
    requires numbers { AreNumbersAt tables.now.merged.link.now tables.now.live.now tables.now.told.now 0 numbers }
    ensures { IfOk result (λ resolutions. resolutions ≡ flat_map (file_resolutions (places_at_hand tables.now) (setting_at_hand (P.table_sizes platform.now) tables.now))
        (numbered_files tables.now.merged.link.now.groups)) }
{
    let groups = &tables.merged.link.groups;
    let starts = entries_by_file(alloc, platform, tables, numbers)?;
    let lists = resolve_groups(rt, alloc, platform, tables, starts.as_slice())?;
    put_together(alloc, groups.symbol_count() as usize, lists.as_slice())
}

/// For each group what its symbols stand for, by where the entries of each file go.
fn resolve_groups<R: Threads + Sync, P: Platform + Sync>(
    rt: &R,
    alloc: Global,
    platform: &P,
    tables: &Tables<'_>,
    starts: &[NextEntries],
) -> Result<Vec<SymbolResolutions>, AllocError>
    requires tables { AreAtHand (P.table_sizes platform.now) tables.now }
    requires starts { AreNextByFile (setting_at_hand (P.table_sizes platform.now) tables.now) starts.now }
    ensures { IfOk result (λ lists. flat_map (λ list. list) lists.items
        ≡ flat_map (file_resolutions (places_at_hand tables.now) (setting_at_hand (P.table_sizes platform.now) tables.now))
        (numbered_files tables.now.merged.link.now.groups)) }
{
    let lists: Result<Vec<SymbolResolutions>, AllocError> = (0..tables.merged.link.groups.len())
        .into_par_iter()
        .with_min_len(1)
        .map(
            |group: usize| -> Result<SymbolResolutions, AllocError>
                requires { AreAtHand (P.table_sizes platform.now) tables.now
                    × AreNextByFile (setting_at_hand (P.table_sizes platform.now) tables.now) starts.now
                    × (group < length tables.now.merged.link.now.groups) }
                ensures { IfOk result (λ list. list ≡ group_resolutions (places_at_hand tables.entry.now)
                    (setting_at_hand (P.table_sizes platform.entry.now) tables.entry.now) group) }
            { resolve_group(alloc, platform, tables, starts, group) },
        )
        .collect(rt, alloc)?;
    lists
}

/// Where the entries of each file's first symbol go, in the order of files. Looks at each symbol once.
fn entries_by_file<P: Platform>(
    alloc: Global,
    platform: &P,
    tables: &Tables<'_>,
    numbers: DynamicNumbers,
) -> Result<Vec<NextEntries>, AllocError>
    requires tables { AreAtHand (P.table_sizes platform.now) tables.now }
    requires numbers { AreNumbersAt tables.now.merged.link.now tables.now.live.now tables.now.told.now 0 numbers }
    ensures { IfOk result (λ starts. AreNextByFile (setting_at_hand (P.table_sizes platform.now) tables.now) starts.items) }
{
    let link = tables.merged.link;
    let mut starts = Vec::new(alloc);
    let mut next = NextEntries {
        numbers,
        cursors: first_cursors(link, tables.starts),
    };
    for file in link.groups.files() {
        starts.push(next)?;
        pass_file(platform, tables, &mut next, file);
    }
    Ok(starts)
}

/// Moves on behind the entries of a file's symbols.
fn pass_file<P: Platform>(
    platform: &P,
    tables: &Tables<'_>,
    next: &mut NextEntries,
    file: FileRef<'_>,
)
    requires tables { AreAtHand (P.table_sizes platform.now) tables.now }
    requires there { file_in tables.now.merged.link.now.groups file.id ≡ Some file.file.now }
    requires next { AreNextAt (setting_at_hand (P.table_sizes platform.now) tables.now) (first_symbol tables.now.merged.link.now.groups file.id) next.now }
    ensures { AreNextAt (setting_at_hand (P.table_sizes platform.now) tables.now)
        (first_symbol tables.now.merged.link.now.groups file.entry.id + length file.entry.file.now.symbols) next.new }
{
    let first = first_symbol_of(tables.merged.link, file);
    let symbols = file.file.symbols.as_slice();
    for (index, symbol) in symbols.iter().enumerate() {
        let number = first + index as u32;
        let numbered = NumberedSymbol { number, symbol };
        let _taken = take_own(platform, tables, next, file, numbered);
    }
}

/// For each symbol of the group with this number its resolution, if it has one, by where the entries of each file go.
fn resolve_group<P: Platform>(
    alloc: Global,
    platform: &P,
    tables: &Tables<'_>,
    starts: &[NextEntries],
    group: usize,
) -> Result<SymbolResolutions, AllocError>
    requires tables { AreAtHand (P.table_sizes platform.now) tables.now }
    requires starts { AreNextByFile (setting_at_hand (P.table_sizes platform.now) tables.now) starts.now }
    requires within { group < length tables.now.merged.link.now.groups }
    ensures { IfOk result (λ list. list ≡ group_resolutions (places_at_hand tables.now) (setting_at_hand (P.table_sizes platform.now) tables.now) group) }
{
    let files = tables.merged.link.groups.as_slice()[group].as_slice();
    let mut list = SymbolResolutions::with_capacity(alloc, symbol_count(files))?;
    for (index, file) in files.iter().enumerate() {
        let id = FileId {
            group: group as u32,
            file: index as u32,
        };
        let file = FileRef { id, file };
        resolve_file(&mut list, platform, tables, starts, file)?;
    }
    Ok(list)
}

/// How many symbols some files have; a count past 2^64 - 1 is given as that.
fn symbol_count(files: &[InputFile]) -> usize {
    let mut count = 0usize;
    for file in files {
        count = count.saturating_add(file.symbols.len());
    }
    count
}

/// Adds for each symbol of a file its resolution, if it has one, by where the entries of each file go.
fn resolve_file<P: Platform>(
    list: &mut SymbolResolutions,
    platform: &P,
    tables: &Tables<'_>,
    starts: &[NextEntries],
    file: FileRef<'_>,
) -> Result<(), AllocError>
    requires tables { AreAtHand (P.table_sizes platform.now) tables.now }
    requires starts { AreNextByFile (setting_at_hand (P.table_sizes platform.now) tables.now) starts.now }
    requires there { file_in tables.now.merged.link.now.groups file.id ≡ Some file.file.now }
    ensures { OnOk result (list.new
        ≡ list.old ++ file_resolutions (places_at_hand tables.now) (setting_at_hand (P.table_sizes platform.now) tables.now) (file_of file.entry)) }
{
    match tables.merged.link.groups.file_number(file.id) {
        Some(number) => {
            let mut next = starts[number];
            push_file_resolutions(list, platform, tables, &mut next, file)
        }
        None => Ok(()),
    }
}

/// What symbols of groups stand for, one group behind the other, for so many symbols.
fn put_together(
    alloc: Global,
    count: usize,
    lists: &[SymbolResolutions],
) -> Result<SymbolResolutions, AllocError>
    ensures { IfOk result (λ all. all ≡ flat_map (λ list. list) lists.now) }
{
    let mut all = SymbolResolutions::with_capacity(alloc, count)?;
    for list in lists {
        all.append(list)?;
    }
    Ok(all)
}
