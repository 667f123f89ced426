//! The whole link: the prelude by itself, and the objects in groups of eight.

ghost use Rattle.std.specs.Prelude.{◌≡◌, ◌+◌, ◌*◌, ◌<◌, ◌≤◌, ℕ, IfOk, min};
ghost use Rattle.lk_generator.specs.Draws.{state_behind};
ghost use Rattle.lk_generator.specs.Generated.{empty_prelude, generated_link, object_group};

use crate::draws::Draws;
use crate::objects::{draw_object, empty_prelude, object};
use crate::plan::{default_options, generated_plan};
use lk_link::file::InputFile;
use lk_link::groups::InputGroups;
use lk_link::link::LinkInput;
use lk_link::list::List;
use std::alloc::{AllocError, Global};

/// How many objects a group has.
const GROUP_SIZE: u32 = 8;

/// The link that a seed and a number of objects, 1 to 100,000, give: a prelude, and objects of three sections and five symbols each, of
/// which the first one's code is kept and each names the code of one object and the data of another. Linear in the number of objects.
pub fn generate_link(alloc: Global, seed: u64, size: u32) -> Result<LinkInput, AllocError>
    requires some { 1 ≤ size }
    requires few { size ≤ 100000 }
    ensures { IfOk result (λ link. link ≡ generated_link seed size) }
{
    let groups = groups(alloc, seed, size)?;
    Ok(LinkInput {
        options: default_options(alloc),
        plan: generated_plan(alloc)?,
        groups: InputGroups::new(alloc, groups)?,
    })
}

/// The groups of that link.
fn groups(alloc: Global, seed: u64, size: u32) -> Result<List<List<InputFile>>, AllocError>
    requires some { 1 ≤ size }
    requires few { size ≤ 100000 }
    ensures { IfOk result (λ groups. groups ≡ (generated_link seed size).groups) }
{
    let count = size.div_ceil(GROUP_SIZE);
    let mut groups = Vec::with_capacity(alloc, 1 + count as usize)?;
    let mut prelude = Vec::with_capacity(alloc, 1)?;
    prelude.push(empty_prelude(alloc))?;
    groups.push(List::from_vec(prelude))?;
    let mut draws = Draws::new(seed);
    for number in 0..count {
        groups.push(group(alloc, &mut draws, GROUP_SIZE * number, size)?)?;
    }
    Ok(List::from_vec(groups))
}

/// A group of objects, from one on, where the draws of those before it are taken: eight of them, or as many as are left.
fn group(
    alloc: Global,
    draws: &mut Draws,
    first: u32,
    size: u32,
) -> Result<List<InputFile>, AllocError>
    requires there { first < size }
    requires few { size ≤ 100000 }
    ensures group { (seed k : ℕ) → first ≡ 8 * k → draws.old.state ≡ state_behind seed (6 * first)
        → IfOk result (λ group. group ≡ object_group seed size k) }
    ensures state { (seed : ℕ) → draws.old.state ≡ state_behind seed (6 * first)
        → IfOk result (λ _. draws.new.state ≡ state_behind seed (6 * min (first + 8) size)) }
{
    let count = GROUP_SIZE.min(size - first);
    let mut group = Vec::with_capacity(alloc, count as usize)?;
    for place in 0..count {
        group.push(object(alloc, first + place, draw_object(draws, size))?)?;
    }
    Ok(List::from_vec(group))
}
