//! How objects are split into blocks.
//!
//! Objects follow each other in memory. A block is a stretch of them with one owner, behind whose bytes its thunks stand: the
//! first object of all owns the first block, and objects join as long as they end in range of the owner's end. The next one
//! opens a block, and the last object that ends in range of where that one begins owns it. So thunks stand behind a part of their
//! users and before the rest; where each object is shorter than the range, each byte of a user is in range of where they begin.

ghost use Rattle.std.specs.Prelude.{◌≡◌, ◌<◌, ◌≤◌, ◌^◌, ◌++◌, IfOk, OnOk, length};
ghost use Rattle.lk_thunks.specs.Blocks.{assigned, block_from, objects_of, owner_from, past, pending_owner, thunk_blocks, assigned_from, users_of};

use lk_link::FileId;
use std::alloc::{AllocError, Global};
use std::marker::Model;

/// A thunk block, by its number (libwild: `ThunkBlockId`). Contracts see the number. Compares as the number.
#[derive(Clone, Copy, Debug, Default, PartialEq, Eq, PartialOrd, Ord, Hash)]
pub struct ThunkBlockId {
    number: u32,
}

impl Model for ThunkBlockId {
    ghost use Rattle.std.specs.Prelude.{ℕ};

    ghost Value = { ℕ };

    ghost view = { λ a. a.number };

    ghost inverse = { λ n. record { number = n } };
}

impl ThunkBlockId {
    /// The first block, whose thunks also serve the code of other parts.
    pub const FIRST: ThunkBlockId = ThunkBlockId { number: 0 };

    /// The block with this number.
    pub fn from_u32(number: u32) -> ThunkBlockId
        ensures { result ≡ number }
    {
        ThunkBlockId { number }
    }

    /// Its number as an index.
    pub fn as_usize(self) -> usize
        ensures { result ≡ self }
    {
        self.number as usize
    }
}

/// A block as a stretch of the list of objects, by places there.
#[derive(Clone, Copy, Debug, PartialEq, Eq)]
pub struct Block {
    /// Its first object.
    pub first: usize,
    /// The object behind whose bytes its thunks stand.
    pub owner: usize,
    /// The first object behind it; the number of objects where there is none.
    pub behind: usize,
}

/// The place of the first object, from one on, that doesn't end in range of an address; the number of objects where all do.
#[tactic(auto, unfolding(crate::specs::Blocks::past))]
fn past(objects: &[(FileId, u64, u64)], range: u64, address: u64, from: usize) -> usize
    requires { from ≤ length objects.now }
    ensures place { result ≡ past range objects.now address from }
    ensures from { from ≤ result }
    ensures within { result ≤ length objects.now }
{
    for index in from..objects.len() {
        if objects[index].2.saturating_sub(address) >= range {
            return index;
        }
    }
    objects.len()
}

/// The object that owns a block that is opened by this one and that no owner before reaches: the last one in range of where this
/// one begins, itself where none is.
#[tactic(auto, unfolding(crate::specs::Blocks::pending_owner))]
fn pending_owner(objects: &[(FileId, u64, u64)], range: u64, first: usize) -> usize
    requires { first < length objects.now }
    ensures owner { result ≡ pending_owner range objects.now first }
    ensures from { first ≤ result }
    ensures within { result < length objects.now }
{
    past(objects, range, objects[first].1, first + 1) - 1
}

/// The object that owns the block that is opened by this one.
fn owner_from(objects: &[(FileId, u64, u64)], range: u64, first: usize) -> usize
    requires { first < length objects.now }
    ensures owner { result ≡ owner_from range objects.now first }
    ensures from { first ≤ result }
    ensures within { result < length objects.now }
{
    if first == 0 {
        0
    } else {
        pending_owner(objects, range, first)
    }
}

/// The block that an object opens.
#[tactic(auto, unfolding(crate::specs::Blocks::block_from))]
fn block_from(objects: &[(FileId, u64, u64)], range: u64, first: usize) -> Block
    requires { first < length objects.now }
    ensures block { result ≡ block_from range objects.now first }
    ensures ahead { first < result.behind }
    ensures within { result.behind ≤ length objects.now }
{
    let owner = owner_from(objects, range, first);
    let behind = past(objects, range, objects[owner].2, owner + 1);
    Block {
        first,
        owner,
        behind,
    }
}

/// All blocks. Compares the end of each object at most twice.
pub(crate) fn thunk_blocks(
    alloc: Global,
    objects: &[(FileId, u64, u64)],
    range: u64,
) -> Result<Vec<Block>, AllocError>
    ensures blocks { IfOk result (λ blocks. blocks.items ≡ thunk_blocks range objects.now) }
    ensures few { IfOk result (λ blocks. length blocks.items ≤ length objects.now) }
{
    let mut blocks = Vec::new(alloc);
    let mut first = 0;
    while first < objects.len() {
        let block = block_from(objects, range, first);
        first = block.behind;
        blocks.push(block)?;
    }
    Ok(blocks)
}

/// The objects of a block.
pub(crate) fn objects_of(objects: &[(FileId, u64, u64)], block: Block) -> &[(FileId, u64, u64)]
    ensures { result.now ≡ objects_of objects.now block }
{
    let behind = block.behind.min(objects.len());
    let first = block.first.min(behind);
    &objects[first..behind]
}

/// Adds the objects of a block with its number.
fn push_users(
    users: &mut Vec<(FileId, ThunkBlockId, bool)>,
    objects: &[(FileId, u64, u64)],
    number: u32,
    block: Block,
) -> Result<(), AllocError>
    ensures { OnOk result (users.new.items ≡ users.old.items ++ users_of objects.now number block) }
{
    for (place, object) in objects_of(objects, block).iter().enumerate() {
        let owns = place == block.owner.saturating_sub(block.first);
        users.push((object.0, ThunkBlockId::from_u32(number), owns))?;
    }
    Ok(())
}

/// Each object of these blocks with the number of its block, and whether it is the block's owner, in the order of the list.
#[tactic(auto, using(crate::proofs::Users::assigned_next), unfolding(crate::specs::Blocks::assigned_from))]
pub(crate) fn assigned_of(
    alloc: Global,
    objects: &[(FileId, u64, u64)],
    blocks: &[Block],
) -> Result<Vec<(FileId, ThunkBlockId, bool)>, AllocError>
    requires { length blocks.now < 2 ^ 32 }
    ensures { IfOk result (λ users. users.items ≡ assigned_from objects.now 0 blocks.now) }
{
    let mut users = Vec::with_capacity(alloc, objects.len())?;
    for (number, block) in blocks.iter().enumerate() {
        push_users(&mut users, objects, number as u32, *block)?;
    }
    Ok(users)
}

/// Assigns objects to blocks: each object with its block and whether it owns it, in the order of the list, and how many blocks
/// there are. `objects` has for each object its file, and the addresses at which its bytes begin and end, in rising order;
/// `range` is how far a branch reaches, in bytes. There are fewer than 2^32 objects (libwild: `assign_thunk_blocks`).
pub fn assign_thunk_blocks(
    alloc: Global,
    objects: &[(FileId, u64, u64)],
    range: u64,
) -> Result<(Vec<(FileId, ThunkBlockId, bool)>, usize), AllocError>
    requires { length objects.now < 2 ^ 32 }
    ensures users { IfOk result (λ made. made.0.items ≡ assigned range objects.now) }
    ensures count { IfOk result (λ made. made.1 ≡ length (thunk_blocks range objects.now)) }
{
    let blocks = thunk_blocks(alloc, objects, range)?;
    let users = assigned_of(alloc, objects, &blocks)?;
    Ok((users, blocks.len()))
}
