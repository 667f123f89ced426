//! What the symbols of files bring, found group by group on several threads, and put together in the order of groups.

ghost use Rattle.std.specs.Prelude.{◌≡◌, ◌<◌, IfOk, length};
ghost use Rattle.std.specs.List.{flat_map};
ghost use Rattle.lk_link.specs.WellFormed.{IsWellFormed};
ghost use Rattle.lk_tables.specs.ByGroups.{group_shares};
ghost use Rattle.lk_tables.specs.Commons.{all_commons};
ghost use Rattle.lk_tables.specs.ShareWords.{first_shares};

use crate::commons::Common;
use crate::shares::{FileShare, SymbolShares, first_share};
use lk_live::Live;
use lk_link::{FileId, FileRef, LinkInput, List, Platform};
use rayon::prelude::*;
use std::alloc::{AllocError, Global};
use std::thread::Threads;

/// What the symbols of a group bring first.
#[derive(Drop)]
struct GroupShares {
    /// For each file what its symbols take in tables.
    files: List<FileShare>,
    /// The commons that take bytes.
    commons: List<Common>,
}

/// What `symbol_shares` answers, found group by group, in two pieces for each processor. Takes the same memory once more while
/// it does (libwild: the parallel walk over groups in `finalise_all_sizes`).
pub fn symbol_shares_by_groups<R: Threads + Sync, P: Platform + Sync>(
    rt: &R,
    alloc: Global,
    link: &LinkInput,
    platform: &P,
    live: &Live,
) -> Result<SymbolShares, AllocError>
    requires { IsWellFormed link.now }
    ensures files { IfOk result (λ shares. shares.files.items ≡ first_shares (P.table_sizes platform.now) link.now live.now) }
    ensures commons { IfOk result (λ shares. shares.commons.items ≡ all_commons link.now live.now) }
{
    let groups = shares_of_groups(rt, alloc, link, platform, live)?;
    put_together(alloc, link.groups.file_count() as usize, groups.as_slice())
}

/// What the symbols of each group bring.
fn shares_of_groups<R: Threads + Sync, P: Platform + Sync>(
    rt: &R,
    alloc: Global,
    link: &LinkInput,
    platform: &P,
    live: &Live,
) -> Result<Vec<GroupShares>, AllocError>
    requires { IsWellFormed link.now }
    ensures files { IfOk result (λ groups. flat_map (λ g. g.files) groups.items ≡ first_shares (P.table_sizes platform.now) link.now live.now) }
    ensures commons { IfOk result (λ groups. flat_map (λ g. g.commons) groups.items ≡ all_commons link.now live.now) }
{
    let groups: Result<Vec<GroupShares>, AllocError> = (0..link.groups.len())
        .into_par_iter()
        .with_min_len(1)
        .map(
            |group: usize| -> Result<GroupShares, AllocError>
                requires { IsWellFormed link.now × (group < length link.now.groups) }
                ensures { IfOk result (λ shares. shares ≡ group_shares (P.table_sizes platform.entry.now) link.entry.now live.entry.now group) }
            { shares_of_group(alloc, link, platform, live, group) },
        )
        .collect(rt, alloc)?;
    groups
}

/// What the symbols of the group with this number bring.
fn shares_of_group<P: Platform>(
    alloc: Global,
    link: &LinkInput,
    platform: &P,
    live: &Live,
    group: usize,
) -> Result<GroupShares, AllocError>
    requires good { IsWellFormed link.now }
    requires within { group < length link.now.groups }
    ensures { IfOk result (λ shares. shares ≡ group_shares (P.table_sizes platform.now) link.now live.now group) }
{
    let files = link.groups.as_slice()[group].as_slice();
    let mut shares = Vec::with_capacity(alloc, files.len())?;
    let mut commons = Vec::new(alloc);
    for (index, file) in files.iter().enumerate() {
        let id = FileId {
            group: group as u32,
            file: index as u32,
        };
        let file = FileRef { id, file };
        let share = first_share(&mut commons, platform, link, live, file)?;
        shares.push(share)?;
    }
    Ok(GroupShares {
        files: List::from_vec(shares),
        commons: List::from_vec(commons),
    })
}

/// What groups of so many files bring, one behind the other.
fn put_together(
    alloc: Global,
    count: usize,
    groups: &[GroupShares],
) -> Result<SymbolShares, AllocError>
    ensures files { IfOk result (λ shares. shares.files.items ≡ flat_map (λ g. g.files) groups.now) }
    ensures commons { IfOk result (λ shares. shares.commons.items ≡ flat_map (λ g. g.commons) groups.now) }
{
    let mut files = Vec::with_capacity(alloc, count)?;
    let mut commons = Vec::new(alloc);
    for group in groups {
        files.extend_from_slice(group.files.as_slice())?;
        commons.extend_from_slice(group.commons.as_slice())?;
    }
    Ok(SymbolShares { files, commons })
}
