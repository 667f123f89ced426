//! What blocks of thunks bring to the primary part, on top of all else that comes into the parts, and the one that a file owns.

ghost use Rattle.std.specs.Prelude.{◌≡◌, ◌^◌, ◌<◌, ◌==◌, ◌&&◌, ◌++◌, ℕ, IfOk, IsTrue, List, length, min};
ghost use Rattle.lk_link.specs.Alignments.{is_alignment};
ghost use Rattle.lk_link.specs.Parts.{all_parts};
ghost use Rattle.lk_link.specs.Walks.{file_of};
ghost use Rattle.lk_link.specs.WellFormed.{IsWellFormed};
ghost use Rattle.lk_sizes.specs.Contents.{GivesContents, part_contents};
ghost use Rattle.lk_sizes.specs.Owners.{AreThunkOwners, Filling, bytes_owned, in_link, with_thunks, without_thunks};
ghost use Rattle.lk_sizes.specs.Tables.{AreBlocksLeft, own_block};
ghost use Rattle.lk_sizes.specs.ThunkSums.{AreWithBlocks, block_bytes, blocks_in};

use crate::error::SizeError;
use crate::owners::{PartContents, PartTotal, sum_up};
use lk_link::{FileId, FileRef, LinkInput, List, PlanPart, Section};
use std::alloc::{AllocError, Global};

/// What comes into each part with the blocks of thunks that these files own, so many bytes long, by what comes there without them.
/// Looks at each part once, and at each block once. Refuses the first part at which the sizes so far pass 2^64 - 1 together.
pub(crate) fn add_blocks(
    alloc: Global,
    link: &LinkInput,
    contents: &[PartContents],
    thunk_owners: &[(FileId, u64)],
) -> Result<List<PartContents>, SizeError>
    requires good { IsWellFormed link.now }
    requires thunks { AreThunkOwners link.now thunk_owners.now }
    requires count { length contents.now ≡ length (all_parts link.now.plan.sections) }
    ensures { (filling : Filling) → contents.now ≡ part_contents (without_thunks (in_link link.now filling))
        → GivesContents (with_thunks (in_link link.now filling) thunk_owners.now) result }
{
    let totals = totals_with_blocks(alloc, link, contents, thunk_owners)?;
    sum_up(alloc, &totals)
}

/// What is added up for the parts with these blocks.
fn totals_with_blocks(
    alloc: Global,
    link: &LinkInput,
    contents: &[PartContents],
    thunk_owners: &[(FileId, u64)],
) -> Result<Vec<PartTotal>, AllocError>
    requires good { IsWellFormed link.now }
    requires count { length contents.now ≡ length (all_parts link.now.plan.sections) }
    ensures { IfOk result (λ totals. AreWithBlocks link.now thunk_owners.now contents.now totals.items) }
{
    let mut totals = Vec::with_capacity(alloc, contents.len())?;
    for (number, part) in contents.iter().enumerate() {
        let total = PartTotal {
            bytes: u128::from(part.bytes),
            has_image: part.has_image,
            attrs: part.attrs,
        };
        totals.push(total.with_entries(blocks_in(link, thunk_owners, number)))?;
    }
    Ok(totals)
}

/// What blocks bring to a part, the primary one alone.
fn blocks_in(link: &LinkInput, thunk_owners: &[(FileId, u64)], number: usize) -> u128
    requires good { IsWellFormed link.now }
    requires within { number < length (all_parts link.now.plan.sections) }
    ensures { min result (2 ^ 64) ≡ min (blocks_in link.now thunk_owners.now number) (2 ^ 64) }
{
    match link.plan.named.primary {
        Some(primary) if primary.as_usize() == number => {
            block_bytes(&link.plan.sections.parts()[number], thunk_owners)
        }
        _ => 0,
    }
}

/// What blocks take in a part; a sum past 2^128 - 1 is given as that.
fn block_bytes(part: &PlanPart, thunk_owners: &[(FileId, u64)]) -> u128
    requires { IsTrue (is_alignment part.now.alignment) }
    ensures { min result (2 ^ 64) ≡ min (block_bytes part.now thunk_owners.now) (2 ^ 64) }
{
    let mut sum = 0u128;
    for owner in thunk_owners {
        sum = sum.saturating_add(Section { size: owner.1 }.exact_capacity(part));
    }
    sum
}

/// Whether these name the same file.
fn is_same_file(a: FileId, b: FileId) -> bool
    ensures { result ≡ (a.group == b.group && a.file == b.file) }
{
    a.group == b.group && a.file == b.file
}

/// The bytes of the block that a file owns, if it owns one, and the blocks of the files behind it, by those of both, in the order of
/// files. Looks at the first of them.
pub(crate) fn split_block<'a>(
    file: FileRef<'_>,
    left: &'a [(FileId, u64)],
) -> (Option<u64>, &'a [(FileId, u64)])
    ensures own { (link : LinkInput) (thunks : List (FileId × ℕ)) → AreBlocksLeft link thunks (file_of file.entry) left.now
        → result.0 ≡ bytes_owned thunks file.entry.id }
    ensures all { own_block file.entry.id result.0 ++ result.1.now ≡ left.now }
{
    match left.split_first() {
        Some((first, behind)) if is_same_file(first.0, file.id) => (Some(first.1), behind),
        _ => (None, left),
    }
}
