//! Which block each object is in, and who owns it.

use crate::rows::{Asked, expect_rows};
use crate::thunks::{OfThunks, number};
use lk_link::FileId;
use lk_thunks::{ThunkBlockId, assign_thunk_blocks};
use std::alloc::{AllocError, Global};
use std::test::Fail;

/// Nothing; objects that all end in range of the first one's end; an owner further on, the last in range of where its block begins,
/// with one more in range of its end; one that is the first of its block; objects longer than the range; one whose end is a range
/// away, one byte less and one more; four that take three times the range; an owner at the end of the list; runs that end a range
/// from where their block begins, and one byte less; three blocks; a range of 0.
const BLOCKS: &str = r#"
1000: => 0 blocks
1000: 0 100, 100 100, 200 100 => 1 blocks, 0 owner, 0, 0
500: 0 100, 300 100, 600 100, 900 100, 1200 100 => 2 blocks, 0 owner, 0, 1, 1 owner, 1
500: 0 100, 100 500, 600 100 => 2 blocks, 0 owner, 1 owner, 1
500: 0 100, 100 500 => 2 blocks, 0 owner, 1 owner
500: 0 100, 100 499 => 1 blocks, 0 owner, 0
500: 0 100, 100 501 => 2 blocks, 0 owner, 1 owner
10: 0 100, 100 100, 200 100 => 3 blocks, 0 owner, 1 owner, 2 owner
1: 0 5 => 1 blocks, 0 owner
1048576: 0 786432, 786432 786432, 1572864 786432, 2359296 786432 => 2 blocks, 0 owner, 0, 1 owner, 1
500: 0 100, 600 100, 700 100, 800 100 => 2 blocks, 0 owner, 1, 1, 1 owner
500: 0 100, 600 100, 700 400, 1100 1 => 2 blocks, 0 owner, 1 owner, 1, 1
500: 0 100, 600 100, 700 399, 1099 1 => 2 blocks, 0 owner, 1, 1 owner, 1
500: 0 100, 600 100, 700 100, 900 300, 1200 200, 1400 100 => 3 blocks, 0 owner, 1, 1 owner, 1, 2, 2 owner
0: 0 5, 5 5, 10 5 => 3 blocks, 0 owner, 1 owner, 2 owner
"#;

/// The objects of a text.
fn objects_of(alloc: Global, text: &str) -> Result<Vec<(FileId, u64, u64)>, AllocError> {
    let mut objects = Vec::new(alloc);
    let mut file = 0u32;
    for object in text.split(',') {
        if let Some((begin, size)) = object.trim().split_once(' ') {
            let begin = number(begin);
            objects.push((
                FileId { group: 1, file },
                begin,
                begin.saturating_add(number(size)),
            ))?;
            file = file.wrapping_add(1);
        }
    }
    Ok(objects)
}

/// Adds a block's number, and whether the object is its owner.
pub fn add_user(line: &mut String, block: ThunkBlockId, owns: bool) -> Result<(), AllocError> {
    let number = block.as_usize();
    write!(line, "{number}")?;
    if owns {
        line.push_str(" owner")?;
    }
    Ok(())
}

/// Adds the blocks of objects.
fn add_assigned(
    alloc: Global,
    line: &mut String,
    objects: &[(FileId, u64, u64)],
    range: u64,
) -> Result<(), AllocError> {
    if objects.len() < 100 {
        let (users, count) = assign_thunk_blocks(alloc, objects, range)?;
        write!(line, "{count} blocks")?;
        for user in users.as_slice() {
            line.push_str(", ")?;
            add_user(line, user.1, user.2)?;
        }
    }
    Ok(())
}

/// Adds the blocks of the objects of a text.
pub fn add_blocks(alloc: Global, line: &mut String, text: &str) -> Result<(), AllocError> {
    let (range, objects) = text.split_once(':').unwrap_or((text, ""));
    let objects = objects_of(alloc, objects)?;
    add_assigned(alloc, line, objects.as_slice(), number(range))
}

#[test]
fn blocks_have_owners_in_range(rt: HostRuntime) -> Result<(), Fail> {
    expect_rows(&rt, rt.alloc(), Asked::Thunks(OfThunks::Blocks), BLOCKS)
}
