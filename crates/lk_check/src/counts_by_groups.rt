//! What is counted over all files, group by group on several threads.

ghost use Rattle.std.specs.Prelude.{◌≡◌, ◌+◌, ◌-◌, ◌^◌, is_none, min, sum_by};
ghost use Rattle.lk_link.specs.Limits.{all_sections, first_length_past, over_files};
ghost use Rattle.lk_check.specs.Lengths.{list_length, long_list, sections_of};

use crate::counts::{FileNumber, over_group};
use crate::lengths::{SectionList, first_length_past, long_list_of_files};
use lk_link::file::InputFile;
use lk_link::list::List;
use rayon::prelude::*;
use std::thread::Threads;

/// A number of each file, added up over all files; a sum past 2^64 - 1 is given as that.
pub fn over_files_by_groups<R: Threads + Sync, N: FileNumber + Sync>(
    rt: &R,
    what: &N,
    groups: &[List<InputFile>],
) -> u64
    ensures { result ≡ min (over_files N.number groups.now) (2 ^ 64 - 1) }
{
    groups
        .par_iter()
        .with_min_len(1)
        .map(
            |files: &List<InputFile>| -> u64
                ensures { result ≡ min (sum_by N.number files.now) (2 ^ 64 - 1) }
            { over_group(what, files.as_slice()) },
        )
        .reduce(
            rt,
            || -> u64
                ensures { result ≡ 0 }
            { 0 },
            |a: u64, b: u64| -> u64
                ensures { result ≡ min (a + b) (2 ^ 64 - 1) }
            { a.saturating_add(b) },
        )
}

/// The length of the first section's list that is longer than `most`, group by group and file by file; 0 where none is.
#[tactic(auto, unfolding(crate::specs::Lengths::long_list))]
pub fn first_length_past_by_groups<R: Threads + Sync>(
    rt: &R,
    most: u64,
    list: SectionList,
    groups: &[List<InputFile>],
) -> u64
    ensures { result ≡ first_length_past most (list_length list) (all_sections groups.now) }
{
    // Nearly all links have no such list, and which is the first matters only where there is one.
    if has_no_long_list(rt, most, list, groups) {
        0
    } else {
        first_length_past(most, list, groups)
    }
}

/// Whether no section's list is longer than `most`.
fn has_no_long_list<R: Threads + Sync>(
    rt: &R,
    most: u64,
    list: SectionList,
    groups: &[List<InputFile>],
) -> bool
    ensures { result ≡ is_none (long_list most list (all_sections groups.now)) }
{
    groups.par_iter().with_min_len(1).all(
        rt,
        |files: &List<InputFile>| -> bool
            ensures { result ≡ is_none (long_list most list (sections_of files.now)) }
        { long_list_of_files(most, list, files.as_slice()).is_none() },
    )
}
