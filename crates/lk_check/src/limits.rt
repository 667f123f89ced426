//! The limits on the lists of a link.

ghost use Rattle.std.specs.Prelude.{◌≡◌, ◌+◌, ◌-◌, ◌^◌, min, nat_lt, length, sum_by};
ghost use Rattle.lk_link.specs.Limits.{counted, file_name_bytes, limit_of, name_bytes, over_files};
ghost use Rattle.lk_check.specs.FirstExcess.{excess, first_excess, first_exceeded};
ghost use Rattle.lk_check.specs.FirstFault.{check_of};

use crate::counts::{CandidateCount, MergeBytes, NameBytes, over_files};
use crate::counts_by_groups::{first_length_past_by_groups, over_files_by_groups};
use crate::lengths::{SectionList, first_length_past};
use lk_link::fault::{Limited, LinkFault};
use lk_link::link::LinkInput;
use std::thread::Threads;

/// The limits, in the order in which they are looked at.
const ALL_LIMITS: [Limited; 14] = [
    Limited::Groups,
    Limited::Files,
    Limited::OutputSections,
    Limited::Parts,
    Limited::Segments,
    Limited::Regions,
    Limited::Events,
    Limited::Symbols,
    Limited::InputSections,
    Limited::Candidates,
    Limited::Relocations,
    Limited::Relaxations,
    Limited::NameBytes,
    Limited::MergeBytes,
];

/// Refuses a link with a list that is too long, by the first such list.
#[tactic(auto, unfolding(crate::specs::FirstFault::check_of, crate::specs::FirstExcess::first_excess))]
pub fn check_limits(link: &LinkInput) -> Result<(), LinkFault>
    ensures { result ≡ check_of (first_excess link.now) }
{
    match first_exceeded(link) {
        None => Ok(()),
        Some(what) => Err(excess(link, what)),
    }
}

/// The same, where what files hold is counted group by group, in two pieces for each processor.
#[tactic(auto, unfolding(crate::specs::FirstFault::check_of, crate::specs::FirstExcess::first_excess))]
pub fn check_limits_by_groups<R: Threads + Sync>(rt: &R, link: &LinkInput) -> Result<(), LinkFault>
    ensures { result ≡ check_of (first_excess link.now) }
{
    match first_exceeded_by_groups(rt, link) {
        None => Ok(()),
        // Few links are refused, so what a fault says is counted on one thread.
        Some(what) => Err(excess(link, what)),
    }
}

/// The first list that is longer than it may be.
fn first_exceeded(link: &LinkInput) -> Option<Limited>
    ensures { result ≡ first_exceeded link.now }
{
    ALL_LIMITS
        .iter()
        .copied()
        .find(|what| is_exceeded(link, *what))
}

/// The same, group by group.
fn first_exceeded_by_groups<R: Threads + Sync>(rt: &R, link: &LinkInput) -> Option<Limited>
    ensures { result ≡ first_exceeded link.now }
{
    ALL_LIMITS
        .iter()
        .copied()
        .find(|what| is_exceeded_by_groups(rt, link, *what))
}

/// Whether a list is longer than it may be.
#[tactic(auto, using(crate::proofs::Bounds::exceeding))]
fn is_exceeded(link: &LinkInput, what: Limited) -> bool
    ensures { result ≡ nat_lt (limit_of what) (counted link.now what) }
{
    what.limit() < count(link, what)
}

/// The same, group by group.
#[tactic(auto, using(crate::proofs::Bounds::exceeding))]
fn is_exceeded_by_groups<R: Threads + Sync>(rt: &R, link: &LinkInput, what: Limited) -> bool
    ensures { result ≡ nat_lt (limit_of what) (counted link.now what) }
{
    what.limit() < count_by_groups(rt, link, what)
}

/// The fault of a list that is too long.
fn excess(link: &LinkInput, what: Limited) -> LinkFault
    ensures { result ≡ excess link.now what }
{
    LinkFault::TooMany {
        what,
        count: count(link, what),
        limit: what.limit(),
    }
}

/// How long a list is; a count past 2^64 - 1 is given as that.
#[tactic(auto, unfolding(lk_link::specs::Limits::counted))]
fn count(link: &LinkInput, what: Limited) -> u64
    ensures { result ≡ min (counted link.now what) (2 ^ 64 - 1) }
{
    match what {
        Limited::Groups => link.groups.len() as u64,
        Limited::Files => link.groups.file_count(),
        Limited::OutputSections => link.plan.sections.len() as u64,
        Limited::Parts => link.plan.sections.parts().len() as u64,
        Limited::Segments => link.plan.segments.len() as u64,
        Limited::Regions => link.plan.regions.len() as u64,
        Limited::Events => link.plan.events.len() as u64,
        Limited::Symbols => link.groups.symbol_count(),
        Limited::InputSections => link.groups.input_count(),
        Limited::Candidates => over_files(&CandidateCount, link.groups.as_slice()),
        Limited::Relocations => first_length_past(
            Limited::Relocations.limit(),
            SectionList::Relocations,
            link.groups.as_slice(),
        ),
        Limited::Relaxations => first_length_past(
            Limited::Relaxations.limit(),
            SectionList::Relaxations,
            link.groups.as_slice(),
        ),
        Limited::NameBytes => name_bytes(link),
        Limited::MergeBytes => over_files(&MergeBytes, link.groups.as_slice()),
    }
}

/// The same, where what files hold is counted group by group.
#[tactic(auto, unfolding(lk_link::specs::Limits::counted))]
fn count_by_groups<R: Threads + Sync>(rt: &R, link: &LinkInput, what: Limited) -> u64
    ensures { result ≡ min (counted link.now what) (2 ^ 64 - 1) }
{
    let groups = link.groups.as_slice();
    match what {
        Limited::Candidates => over_files_by_groups(rt, &CandidateCount, groups),
        Limited::Relocations => first_length_past_by_groups(
            rt,
            Limited::Relocations.limit(),
            SectionList::Relocations,
            groups,
        ),
        Limited::Relaxations => first_length_past_by_groups(
            rt,
            Limited::Relaxations.limit(),
            SectionList::Relaxations,
            groups,
        ),
        Limited::NameBytes => with_section_names(
            link,
            over_files_by_groups(rt, &NameBytes, groups),
        ),
        Limited::MergeBytes => over_files_by_groups(rt, &MergeBytes, groups),
        _ => count(link, what),
    }
}

/// How many bytes all names have, one more for each.
fn name_bytes(link: &LinkInput) -> u64
    ensures { result ≡ min (name_bytes link.now) (2 ^ 64 - 1) }
{
    with_section_names(link, over_files(&NameBytes, link.groups.as_slice()))
}

/// The same, from how many the names in files have.
fn with_section_names(link: &LinkInput, in_files: u64) -> u64
    requires { in_files ≡ min (over_files file_name_bytes link.now.groups) (2 ^ 64 - 1) }
    ensures { result ≡ min (name_bytes link.now) (2 ^ 64 - 1) }
{
    let mut count = in_files;
    for section in link.plan.sections.as_slice() {
        count = count
            .saturating_add(section.name.len() as u64)
            .saturating_add(1);
    }
    count
}
