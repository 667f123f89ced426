//! What is known of output that is linked again: how many input sections of each group stay output sections of their own, and
//! which indexes these have behind the emitted output sections.

ghost use Rattle.std.specs.Prelude.{◌≡◌, ◌+◌, ◌<◌, ◌≤◌, ◌==◌, [], IfOk, length, replicate};
ghost use Rattle.lk_link.specs.WellFormed.{IsWellFormed};
ghost use Rattle.lk_tables.specs.SingletonCounts.{CountsOne, singleton_count};
ghost use Rattle.lk_tables.specs.Singletons.{group_sizes, partial_link_plan};

use crate::singletons::singleton_sizes;
use lk_live::{Live, is_singleton};
use lk_link::LinkInput;
use std::alloc::{AllocError, Global};
use std::marker::Model;
use std::ops::Range;

/// What is known of output that is linked again (libwild: `PartialLinkPlan`).
#[derive(Drop)]
pub struct PartialLinkPlan {
    /// The live input sections that stay output sections of their own.
    pub singletons: PartialLinkSingletons,
}

/// The live input sections that stay output sections of their own, counted by group. Contracts see for each group how many it has,
/// and the bytes of their names with a zero byte behind each (libwild: `PartialLinkSingletons`).
#[derive(Drop)]
pub struct PartialLinkSingletons {
    groups: Vec<(u32, u64)>,
    count: u32,
}

impl Model for PartialLinkSingletons {
    ghost use Rattle.std.specs.Prelude.{List, ℕ, ◌≡◌, ◌≤◌};
    ghost use Rattle.lk_tables.specs.SingletonCounts.{singleton_count};

    ghost Value = { List (ℕ × ℕ) };

    ghost view = { λ a. a.groups.items };

    ghost invariant = { λ a. (a.count ≡ singleton_count a.groups.items) × (a.count ≤ 16777216) };
}

impl PartialLinkPlan {
    /// What is known of a link whose output is linked again, by what is live; none exactly where output isn't linked again. Looks
    /// at each input section once, and takes 16 bytes for each group (libwild: `PartialLinkPlan::build`).
    pub fn build(
        alloc: Global,
        link: &LinkInput,
        live: &Live,
    ) -> Result<Option<PartialLinkPlan>, AllocError>
        requires { IsWellFormed link.now }
        ensures { IfOk result (λ plan. plan ≡ partial_link_plan link.now live.now) }
    {
        if !link.options.output.is_partial() {
            return Ok(None);
        }
        let singletons = PartialLinkSingletons::of(alloc, link, live)?;
        Ok(Some(PartialLinkPlan { singletons }))
    }
}

impl PartialLinkSingletons {
    /// None, of no group. Takes no memory.
    pub fn new(alloc: Global) -> PartialLinkSingletons
        ensures { result ≡ [] }
    {
        PartialLinkSingletons {
            groups: Vec::new(alloc),
            count: 0,
        }
    }

    /// Those of a link.
    fn of(alloc: Global, link: &LinkInput, live: &Live) -> Result<PartialLinkSingletons, AllocError>
        requires { IsWellFormed link.now }
        ensures { IfOk result (λ singletons. singletons ≡ group_sizes link.now live.now) }
    {
        let (count, _) = singleton_sizes(link, live);
        let groups = sizes_by_group(alloc, link, live)?;
        Ok(PartialLinkSingletons { groups, count })
    }

    /// For each group how many singletons it has, and the bytes of their names, one more for each.
    pub fn group_sizes(&self) -> &[(u32, u64)]
        ensures { result.now ≡ self.now }
    {
        self.groups.as_slice()
    }

    /// Whether there is none.
    pub fn is_empty(&self) -> bool
        ensures { result ≡ (singleton_count self.now == 0) }
    {
        self.count == 0
    }

    /// The indexes in the output of all of them, behind so many emitted output sections.
    pub fn output_index_range(&self, emitted: u32) -> Range<u32>
        requires { emitted ≤ 65279 }
        ensures start { result.start ≡ emitted }
        ensures end { result.end ≡ emitted + singleton_count self.now }
    {
        emitted..emitted + self.count
    }

    /// The index in the output of the one with this place among all, by group, file and index, behind so many emitted output
    /// sections.
    pub fn output_index(&self, emitted: u32, ordinal: u32) -> u32
        requires few { emitted ≤ 65279 }
        requires there { ordinal < singleton_count self.now }
        ensures { result ≡ emitted + ordinal }
    {
        self.output_index_range(emitted).start + ordinal
    }
}

/// Counts an input section whose name is so many bytes long to its group, if it is a singleton.
fn count_one(sizes: &mut [(u32, u64)], group: usize, is_one: bool, name_len: usize)
    ensures { CountsOne sizes.old group is_one name_len sizes.new }
{
    if is_one && group < sizes.len() {
        let (count, bytes) = sizes[group];
        sizes[group] = (
            count.saturating_add(1),
            bytes.saturating_add(name_len as u64).saturating_add(1),
        );
    }
}

/// Counts the singletons of each group, and the bytes of their names, where nothing is counted yet.
fn count_by_group(sizes: &mut [(u32, u64)], link: &LinkInput, live: &Live)
    requires good { IsWellFormed link.now }
    requires none { sizes.old ≡ replicate (length link.now.groups) (0, 0) }
    ensures { sizes.new ≡ group_sizes link.now live.now }
{
    for input in live.inputs(link) {
        let is_one = is_singleton(link, input.section);
        let name_len = input.section.name.len();
        count_one(sizes, input.file.group as usize, is_one, name_len);
    }
}

/// For each group how many singletons it has, and the bytes of their names.
fn sizes_by_group(
    alloc: Global,
    link: &LinkInput,
    live: &Live,
) -> Result<Vec<(u32, u64)>, AllocError>
    requires { IsWellFormed link.now }
    ensures { IfOk result (λ sizes. sizes.items ≡ group_sizes link.now live.now) }
{
    let mut sizes = vec![in alloc; (0u32, 0u64); link.groups.len()]?;
    count_by_group(&mut sizes, link, live);
    Ok(sizes)
}
