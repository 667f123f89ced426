//! Whose the thunks of blocks are, and where they stand.

ghost use Rattle.std.specs.Prelude.{◌≡◌, ℕ, IfOk, map, option_map, slice_get};
ghost use Rattle.lk_link.specs.declared.ids.FileId.{FileId};
ghost use Rattle.lk_thunk_plan.specs.Branches.{block_places, owners_of_blocks};
ghost use Rattle.lk_thunk_plan.specs.Orders.{OwnersFollow};

use crate::thunk_plan::ThunkPlan;
use lk_link::FileId;
use std::alloc::{AllocError, Global};

/// Where the thunks of each block begin, by the addresses at which those of the owners do, in the order of the plan's owners; none
/// for a block without owner.
pub fn block_places(
    alloc: Global,
    plan: &ThunkPlan,
    addresses: &[u64],
) -> Result<Vec<Option<u64>>, AllocError>
    requires { OwnersFollow plan.now }
    ensures { (place : FileId → ℕ) → addresses.now ≡ map (λ q. place q.0) plan.now.owners
        → IfOk result (λ places. places.items ≡ block_places place (map (λ b. b.symbols) plan.now.blocks) plan.now.users) }
{
    let count = plan.blocks.len();
    let mut places = Vec::with_capacity(alloc, count)?;
    for number in 0..count {
        places.push(address_at(addresses, number))?;
    }
    Ok(places)
}

/// The address in a place, if there is one.
fn address_at(addresses: &[u64], number: usize) -> Option<u64>
    ensures { result ≡ slice_get addresses.now number }
{
    addresses.get(number).copied()
}

/// The object that owns each block, if one does.
pub fn block_owners(alloc: Global, plan: &ThunkPlan) -> Result<Vec<Option<FileId>>, AllocError>
    requires { OwnersFollow plan.now }
    ensures { IfOk result (λ owners. owners.items ≡ owners_of_blocks (map (λ b. b.symbols) plan.now.blocks) plan.now.users) }
{
    let count = plan.blocks.len();
    let mut owners = Vec::with_capacity(alloc, count)?;
    for number in 0..count {
        owners.push(owner_at(plan, number))?;
    }
    Ok(owners)
}

/// The owner in a place, if there is one: owners stand in the order of their blocks.
fn owner_at(plan: &ThunkPlan, number: usize) -> Option<FileId>
    ensures { result ≡ option_map (λ q. q.0) (slice_get plan.now.owners number) }
{
    let owner = plan.owners.get(number)?;
    Some(owner.0)
}
