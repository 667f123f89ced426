//! Where the groups of a link begin in the tables of symbols: sums of what the files before them take there.

ghost use Rattle.std.specs.Prelude.{◌≡◌, ◌+◌, ◌==◌, IfOk, drop, if◌then◌else◌, map, sum_by, take};
ghost use Rattle.lk_link.specs.WellFormed.{IsWellFormed};
ghost use Rattle.lk_tables.specs.ShareWords.{first_shares};
ghost use Rattle.lk_group_starts.specs.GroupStarts.{byte_starts, capped, entries_in, first_bytes, group_starts, part_for, starts_by, starts_in, taken_in};

use lk_link::{InputFile, LinkInput, List, PartId, Platform};
use lk_live::Live;
use lk_tables::{FileShare, mark_prelude};
use std::alloc::{AllocError, Global};

/// A table that files bring their symbols to.
#[derive(Clone, Copy, Debug, PartialEq, Eq)]
pub enum Table {
    /// The names of symbols.
    Names,
    /// Those of dynamic symbols.
    DynamicNames,
    /// The local symbols.
    Locals,
    /// The others.
    Globals,
}

/// A number of bytes; one past 2^64 - 1 is told as that.
fn capped(bytes: u128) -> u64
    ensures { result ≡ capped bytes }
{
    bytes.min(u128::from(u64::MAX)) as u64
}

impl Table {
    /// What a file takes there, in bytes.
    fn taken_in(self, share: &FileShare) -> u128
        ensures { result ≡ taken_in self share.now }
    {
        match self {
            Table::Names => share.symtab.names,
            Table::DynamicNames => share.dynamic.names,
            Table::Locals => share.symtab.local,
            Table::Globals => share.symtab.global,
        }
    }

    /// The part that the plan names for it.
    fn part_for(self, link: &LinkInput) -> Option<PartId>
        ensures { result ≡ part_for link.now self }
    {
        let named = &link.plan.named;
        match self {
            Table::Names => named.strtab,
            Table::DynamicNames if link.options.output.is_loaded_dynamically() => named.dynstr,
            Table::DynamicNames => None,
            Table::Locals => named.symtab_local,
            Table::Globals => named.symtab_global,
        }
    }

    /// What it begins with that no symbol brings, and that isn't among what the prelude takes.
    fn first_bytes(self) -> u128
        ensures { result ≡ first_bytes self }
    {
        match self {
            Table::DynamicNames => 1,
            _ => 0,
        }
    }
}

/// What each file takes there; a number past 2^64 - 1 is told as that.
fn all_taken(alloc: Global, table: Table, shares: &[FileShare]) -> Result<Vec<u64>, AllocError>
    ensures { IfOk result (λ bytes. bytes.items ≡ map (λ s. capped (taken_in table s)) shares.now) }
{
    let mut bytes = Vec::with_capacity(alloc, shares.len())?;
    for share in shares {
        bytes.push(capped(table.taken_in(share)))?;
    }
    Ok(bytes)
}

/// With these bytes; a sum past 2^64 - 1 is told as that.
#[tactic(auto, using(std::proofs::lemmas::List::Sums::sum_by_more))]
fn with_all(sum: u64, bytes: &[u64]) -> u64
    ensures { result ≡ capped (sum + sum_by (λ b. b) bytes.now) }
{
    let mut all = sum;
    for one in bytes {
        all = all.saturating_add(*one);
    }
    all
}

/// The first so many, and those behind them.
fn split_first(bytes: &[u64], count: usize) -> (&[u64], &[u64])
    ensures first { result.0.now ≡ take count bytes.now }
    ensures rest { result.1.now ≡ drop count bytes.now }
{
    if count <= bytes.len() {
        bytes.split_at(count)
    } else {
        bytes.split_at(bytes.len())
    }
}

/// A sum, if any file stands before.
fn if_any(files: usize, sum: u64) -> u64
    ensures { result ≡ (if files == 0 then 0 else sum) }
{
    if files == 0 { 0 } else { sum }
}

/// Where each group begins in a table, and behind all of them the epilogue's, by what each file takes there; the first of all
/// takes `own` more. Looks at each group and each file once.
fn starts_in(
    alloc: Global,
    groups: &[List<InputFile>],
    own: u64,
    bytes: &[u64],
) -> Result<Vec<u64>, AllocError>
    ensures { IfOk result (λ starts. starts.items ≡ starts_in groups.now own bytes.now) }
{
    let mut starts = Vec::new(alloc);
    let mut left = bytes;
    let mut sum = own;
    let mut files = 0usize;
    for group in groups {
        starts.push(if_any(files, sum))?;
        let count = group.len();
        let (here, rest) = split_first(left, count);
        left = rest;
        sum = with_all(sum, here);
        files = files.saturating_add(count);
    }
    starts.push(if_any(files, sum))?;
    Ok(starts)
}

/// Where groups begin in a table, in bytes, by what files take first and what the prelude takes late; 0 where the plan names no part.
fn byte_starts(
    alloc: Global,
    link: &LinkInput,
    shares: &[FileShare],
    late: &FileShare,
    table: Table,
) -> Result<Vec<u64>, AllocError>
    ensures { IfOk result (λ starts. starts.items ≡ byte_starts link.now shares.now late.now table) }
{
    let groups = link.groups.as_slice();
    match table.part_for(link) {
        Some(_) => {
            let own = capped(table.taken_in(late).saturating_add(table.first_bytes()));
            let taken = all_taken(alloc, table, shares)?;
            starts_in(alloc, groups, own, &taken)
        }
        None => starts_in(alloc, groups, 0, &[]),
    }
}

/// How many entries of this size fill these bytes.
fn entries_in(entry: u64, bytes: u64) -> u64
    ensures { result ≡ entries_in entry bytes }
{
    if entry == 0 { 0 } else { bytes / entry }
}

/// The same of several.
fn all_entries(alloc: Global, entry: u64, starts: &[u64]) -> Result<Vec<u64>, AllocError>
    ensures { IfOk result (λ all. all.items ≡ map (entries_in entry) starts.now) }
{
    let mut all = Vec::with_capacity(alloc, starts.len())?;
    for start in starts {
        all.push(entries_in(entry, *start))?;
    }
    Ok(all)
}

/// For each group of a link, and behind these for the epilogue's, where it begins in the tables of symbols, from the starts of their
/// parts on; 0 where the plan names no such part.
#[derive(Drop)]
pub struct GroupStarts {
    /// In the names of symbols, in bytes.
    pub strtab: List<u64>,
    /// In those of dynamic symbols, in bytes; 0 where no dynamic linker loads the output.
    pub dynstr: List<u64>,
    /// Among the local symbols, in entries.
    pub symtab_local: List<u64>,
    /// Among the other symbols, in entries.
    pub symtab_global: List<u64>,
}

/// Where groups begin, by what files take first and what the prelude takes late, with entries of so many bytes.
fn starts_by(
    alloc: Global,
    link: &LinkInput,
    entry: u64,
    shares: &[FileShare],
    late: &FileShare,
) -> Result<GroupStarts, AllocError>
    ensures { IfOk result (λ starts. starts ≡ starts_by entry link.now shares.now late.now) }
{
    let strtab = byte_starts(alloc, link, shares, late, Table::Names)?;
    let dynstr = byte_starts(alloc, link, shares, late, Table::DynamicNames)?;
    let locals = byte_starts(alloc, link, shares, late, Table::Locals)?;
    let globals = byte_starts(alloc, link, shares, late, Table::Globals)?;
    Ok(GroupStarts {
        strtab: List::from_vec(strtab),
        dynstr: List::from_vec(dynstr),
        symtab_local: List::from_vec(all_entries(alloc, entry, &locals)?),
        symtab_global: List::from_vec(all_entries(alloc, entry, &globals)?),
    })
}

/// Where the groups of a link begin in the tables of symbols, by what is live, the output sections whose edges are told, and what each
/// file's symbols take first. Looks at each symbol of the prelude once, and at each file a few times (libwild: the offsets of
/// `GroupLayout`).
pub fn group_starts<P: Platform>(
    alloc: Global,
    link: &LinkInput,
    platform: &P,
    live: &Live,
    told: &[bool],
    shares: &[FileShare],
) -> Result<GroupStarts, AllocError>
    requires good { IsWellFormed link.now }
    requires shares { shares.now ≡ first_shares (P.table_sizes platform.now) link.now live.now }
    ensures { IfOk result (λ starts. starts ≡ group_starts (P.table_sizes platform.now) link.now live.now told.now) }
{
    let late = mark_prelude(link, platform, live, told);
    starts_by(alloc, link, platform.symbol_entry(), shares, &late)
}
