//! Which branches reach.

use crate::rows::{Asked, expect_rows};
use crate::thunks::{OfThunks, number};
use lk_thunks::{BranchSite, OutOfReach, check_reach};
use std::alloc::{AllocError, Global};
use std::test::Fail;

/// No branch; one whose target is a range away, one byte less and one more, on either side; by a thunk; the first of two that
/// don't; one over all of memory; and nothing is near without a range.
const REACH: &str = r#"
3145728: => all reach
3145728: 0 4000004 | 3145728: 0 3145728 | 3145728: 3145728 0 => branch 0 is out of reach
3145728: 0 3145724 | 3145728: 0 3145727 | 3145728: 3145727 0 | 3145728: 5 5 => all reach
3145728: 0 4000004 100 | 3145728: 4000000 0 6000000 => all reach
3145728: 0 4000004 3145728 | 3145728: 0 4000004 9000000 => branch 0 is out of reach
10: 0 5, 0 9, 0 10, 0 3, 0 11 => branch 2 is out of reach
18446744073709551615: 0 18446744073709551614 => all reach
18446744073709551615: 0 18446744073709551615 => branch 0 is out of reach
0: 7 7 => branch 0 is out of reach
"#;

/// The branches of a text.
fn branches_of(alloc: Global, text: &str) -> Result<Vec<BranchSite>, AllocError> {
    let mut branches = Vec::new(alloc);
    for branch in text.split(',') {
        if let Some((site, others)) = branch.trim().split_once(' ') {
            let (target, thunk) = others.split_once(' ').unwrap_or((others, ""));
            branches.push(BranchSite {
                site: number(site),
                target: number(target),
                thunk: if thunk.is_empty() {
                    None
                } else {
                    Some(number(thunk))
                },
            })?;
        }
    }
    Ok(branches)
}

/// Adds whether they reach.
fn add_told(line: &mut String, told: Result<(), OutOfReach>) -> Result<(), AllocError> {
    match told {
        Ok(()) => line.push_str("all reach"),
        Err(fault) => write!(line, "{fault}"),
    }
}

/// Adds whether the branches of a text reach.
pub fn add_reach(alloc: Global, line: &mut String, text: &str) -> Result<(), AllocError> {
    let (range, branches) = text.split_once(':').unwrap_or((text, ""));
    let branches = branches_of(alloc, branches)?;
    add_told(line, check_reach(branches.as_slice(), number(range)))
}

#[test]
fn branches_reach_what_is_nearer_than_the_range(rt: HostRuntime) -> Result<(), Fail> {
    expect_rows(&rt, rt.alloc(), Asked::Thunks(OfThunks::Reach), REACH)
}
