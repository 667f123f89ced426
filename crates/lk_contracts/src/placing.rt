//! Where things stand, as it is promised.

ghost use Rattle.std.specs.Prelude.{◌≡◌, ◌<◌, ◌≤◌, ◌%◌, ◌^◌, ℕ, IfOk, length, map};
ghost use Rattle.std.specs.List.{slice_index};
ghost use Rattle.lk_link.specs.Parts.{all_parts};
ghost use Rattle.lk_link.specs.Target.{platform_target};
ghost use Rattle.lk_link.specs.Walks.{input_of};
ghost use Rattle.lk_link.specs.WellFormed.{IsWellFormed};
ghost use Rattle.lk_place.specs.Answers.{GivesPlaced};
ghost use Rattle.lk_place.specs.Setting.{setting_of};
ghost use Rattle.lk_ranks.specs.Ranks.{AreSortedKeys, StandByKeys};
ghost use Rattle.lk_thunks.specs.Blocks.{assigned, thunk_blocks};

use lk_link::platform::Platform;
use lk_link::{FileId, InputRef, LinkInput};
use lk_place::{PlaceError, Placed, SymbolPositions, compute_layout_sections};
use lk_ranks::{in_order, sorted_keys};
use lk_thunks::{ThunkBlockId, assign_thunk_blocks};
use std::alloc::{AllocError, Global};

/// What `compute_layout_sections` of lk_place does.
pub fn compute_layout_sections_as_stated<P: Platform>(
    alloc: Global,
    link: &LinkInput,
    sizes: &[u64],
    positions: &SymbolPositions,
    headers: u64,
    platform: &P,
) -> Result<Placed, PlaceError>
    requires well_formed { IsWellFormed link.now }
    requires each { length sizes.now ≡ length (all_parts link.now.plan.sections) }
    ensures { GivesPlaced (setting_of link.now (platform_target (P.segment_start platform.now)) sizes.now headers positions.now) result }
{
    compute_layout_sections(alloc, link, sizes, positions, headers, platform)
}

/// What `sorted_keys` of lk_ranks does.
pub fn sorted_keys_as_stated(alloc: Global, found: &[InputRef<'_>]) -> Result<Vec<u64>, AllocError>
    requires few { length found.now ≤ 2 ^ 24 }
    ensures { IfOk result (λ keys. AreSortedKeys (map input_of found.now) keys.items) }
{
    sorted_keys(alloc, found)
}

/// What `in_order` of lk_ranks does.
pub fn in_order_as_stated<T: Copy>(
    alloc: Global,
    told: &[T],
    keys: &[u64],
) -> Result<Vec<T>, AllocError>
    requires { (k : ℕ) → k < length keys.now → slice_index keys.now k % 2 ^ 32 < length told.now }
    ensures { IfOk result (λ all. StandByKeys told.now keys.now all.items) }
{
    in_order(alloc, told, keys)
}

/// What `assign_thunk_blocks` of lk_thunks does.
pub fn assign_thunk_blocks_as_stated(
    alloc: Global,
    objects: &[(FileId, u64, u64)],
    range: u64,
) -> Result<(Vec<(FileId, ThunkBlockId, bool)>, usize), AllocError>
    requires { length objects.now < 2 ^ 32 }
    ensures users { IfOk result (λ made. made.0.items ≡ assigned range objects.now) }
    ensures count { IfOk result (λ made. made.1 ≡ length (thunk_blocks range objects.now)) }
{
    assign_thunk_blocks(alloc, objects, range)
}
