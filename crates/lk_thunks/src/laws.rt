//! Laws on blocks.

ghost use Rattle.std.specs.Prelude.{◌≡◌, fold};
ghost use Rattle.std.specs.Hash as fed;
ghost use Rattle.std.specs.Ordering.{nat_cmp};
ghost use Rattle.lk_thunks.specs.SetLaws.{SetsRise};
ghost use Rattle.lk_thunks.specs.BlockLaws.{BlocksAreStretches, BlocksHaveOneOwner, NumbersNeverFall, ObjectsAreAssigned, ObjectsAreNearOwners};

use crate::blocks::ThunkBlockId;
use std::cmp::Ordering;
use std::hash::{Hash, Hasher};

/// A law: blocks are stretches of objects with the owner inside, one behind the other, and each object is in one.
pub fn blocks_are_stretches()
    ensures { BlocksAreStretches }
{}

/// A law: each object is assigned to the block that it is in, and is marked exactly where it is the block's owner.
pub fn objects_are_assigned()
    ensures { ObjectsAreAssigned }
{}

/// A law: the numbers of blocks never fall along the list of objects.
pub fn numbers_never_fall()
    ensures { NumbersNeverFall }
{}

/// A law: each block has exactly one owner.
pub fn blocks_have_one_owner()
    ensures { BlocksHaveOneOwner }
{}

/// A law: where objects stand end to end and each is shorter than the range, each byte of an object is less than the range from the
/// end of its block's owner, behind which the thunks stand.
pub fn objects_are_near_owners()
    ensures { ObjectsAreNearOwners }
{}

/// A law: blocks compare as their numbers.
pub fn blocks_compare_as_numbers(a: ThunkBlockId, b: ThunkBlockId) -> Ordering
    ensures { result ≡ nat_cmp a b }
{
    a.cmp(&b)
}

/// A law: a block feeds a hasher its number and nothing else, in one write; so blocks with equal numbers feed the same bytes, and only
/// these.
pub fn blocks_hash_as_numbers<H: Hasher>(a: ThunkBlockId, b: ThunkBlockId, state: &mut H)
    ensures number { state.new ≡ fold H.write state.old (fed.u32 a) }
    ensures apart { fed.u32 a ≡ fed.u32 b → a ≡ b }
{
    a.hash(state);
}

/// A law: the definitions that a block has thunks for rise, so each stands there once.
pub fn sets_rise()
    ensures { SetsRise }
{}
