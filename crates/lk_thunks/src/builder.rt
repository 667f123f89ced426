//! The planning of thunks for a link.

ghost use Rattle.std.specs.Prelude.{◌≡◌, ◌+◌, ◌-◌, ◌<◌, ◌^◌, IfOk, map, min};
ghost use Rattle.std.specs.Option.{IfSome};
ghost use Rattle.lk_link.specs.WellFormed.{IsWellFormed};
ghost use Rattle.lk_link.specs.Inputs.{Input};
ghost use Rattle.lk_thunks.specs.Blocks.{assigned};
ghost use Rattle.lk_thunks.specs.Building.{builder_of, code_bytes, executable_bytes};
ghost use Rattle.lk_thunks.specs.Configs.{IsLawfulConfig};
ghost use Rattle.lk_thunks.specs.Ranges.{planned_objects, primary_ranges, total_primary_bytes};
ghost use Rattle.lk_thunks.specs.ThunkSets.{thunk_sets};

use crate::arch::ThunkConfig;
use crate::blocks::{ThunkBlockId, assigned_of, thunk_blocks};
use crate::homes::home_numbers;
use crate::ranges::{file_ranges, object_ranges, with_bytes};
use crate::sets::{Planner, ThunkBlock, named_elsewhere, thunk_sets};
use lk_link::limits::MOST_NEAR_BRANCH;
use lk_link::plan::attributes;
use lk_link::{FileId, InputSection, LinkInput};
use lk_live::Live;
use std::alloc::{AllocError, Global};
use std::marker::Model;

/// Plans the thunks of a link (libwild: `ThunkLayoutBuilder`). Contracts see how far a branch is taken to reach, in bytes: less
/// than it does, by what the thunks of a block may take.
#[derive(Clone, Copy, Debug, PartialEq, Eq)]
pub struct ThunkLayoutBuilder {
    branch_range: u64,
}

impl Model for ThunkLayoutBuilder {
    ghost use Rattle.std.specs.Prelude.{ℕ};

    ghost Value = { ℕ };

    ghost view = { λ a. a.branch_range };

    ghost inverse = { λ n. record { branch_range = n } };
}

/// The bytes of code in an input section: of one that isn't discarded, live or not.
fn code_bytes(section: &InputSection) -> u64
    ensures { (x : Input) → x.section ≡ section.now → result ≡ code_bytes x }
{
    if section.slot.is_discarded() || section.attrs & attributes::EXEC == 0 {
        0
    } else if section.slot.is_merge() {
        section.bytes.len() as u64
    } else {
        section.size
    }
}

/// Those of all input sections; a sum past 2^64 - 1 is given as that.
fn executable_bytes(link: &LinkInput) -> u64
    requires { IsWellFormed link.now }
    ensures { result ≡ min (executable_bytes link.now) (2 ^ 64 - 1) }
{
    let mut total = 0u64;
    for input in link.groups.inputs() {
        total = total.saturating_add(code_bytes(input.section));
    }
    total
}

impl ThunkLayoutBuilder {
    /// The planning of a link, by how thunks are made on its architecture; none exactly where they aren't made, or where the
    /// link has fewer bytes of code than a branch reaches, so that no thunk can be needed. Looks at each input section once.
    pub fn new(link: &LinkInput, config: Option<ThunkConfig>) -> Option<ThunkLayoutBuilder>
        requires good { IsWellFormed link.now }
        requires lawful { IfSome config (IsLawfulConfig link.now) }
        ensures { result ≡ builder_of link.now config }
    {
        let config = config?;
        if executable_bytes(link) < config.min_branch_range {
            return None;
        }
        Some(ThunkLayoutBuilder {
            branch_range: config.min_branch_range - MOST_NEAR_BRANCH,
        })
    }

    /// Where the primary bytes of each object begin and end, objects without any among them: end to end from an address on,
    /// each as long as its live sections of the primary part that are loaded for what they hold. `start` and the primary bytes
    /// of all files are at most 2^64 - 1 together (libwild: `collect_primary_ranges`).
    pub fn collect_primary_ranges(
        &self,
        alloc: Global,
        link: &LinkInput,
        live: &Live,
        start: u64,
    ) -> Result<Vec<(FileId, u64, u64)>, AllocError>
        requires good { IsWellFormed link.now }
        requires room { start + total_primary_bytes link.now live.now < 2 ^ 64 }
        ensures { IfOk result (λ ranges. ranges.items ≡ primary_ranges link.now live.now start) }
    {
        let ranges = file_ranges(alloc, link, live, start)?;
        object_ranges(alloc, link, &ranges)
    }
    /// The thunks of each block, one block at least, and each object with its block and whether it owns it, by objects that
    /// stand end to end from an address on. `start` and the primary bytes of all files are at most 2^64 - 1 together. Takes
    /// ten bytes a symbol while it works (libwild: `build`).
    pub fn build(
        &self,
        alloc: Global,
        link: &LinkInput,
        live: &Live,
        start: u64,
    ) -> Result<(Vec<ThunkBlock>, Vec<(FileId, ThunkBlockId, bool)>), AllocError>
        requires good { IsWellFormed link.now }
        requires room { start + total_primary_bytes link.now live.now < 2 ^ 64 }
        ensures sets { IfOk result (λ made. map (λ b. b.symbols) made.0.items ≡ thunk_sets link.now live.now self.now start) }
        ensures users { IfOk result (λ made. made.1.items ≡ assigned self.now (planned_objects link.now live.now start)) }
    {
        let ranges = file_ranges(alloc, link, live, start)?;
        let objects = with_bytes(alloc, &ranges)?;
        let blocks = thunk_blocks(alloc, &objects, self.branch_range)?;
        let elsewhere = named_elsewhere(alloc, link, live)?;
        let homes = home_numbers(alloc, link)?;
        let by = Planner {
            link,
            live,
            range: self.branch_range,
            ranges: &ranges,
            homes: &homes,
            elsewhere: &elsewhere,
        };
        let sets = thunk_sets(alloc, &by, &objects, &blocks)?;
        let users = assigned_of(alloc, &objects, &blocks)?;
        Ok((sets, users))
    }
}
