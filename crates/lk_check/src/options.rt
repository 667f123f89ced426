//! The rule on options.

ghost use Rattle.std.specs.Prelude.{◌≡◌};
ghost use Rattle.lk_link.specs.declared.fault.Rule.TheVariants as rule;
ghost use Rattle.lk_link.specs.Rules.{has_entry, is_branch_range, is_good_options};
ghost use Rattle.lk_check.specs.FirstFault.{first_place};

use lk_link::fault::Place;
use lk_link::groups::InputGroups;
use lk_link::ids::SymbolId;
use lk_link::limits::{MOST_BUCKET, MOST_MERGE_GROUP, MOST_NEAR_BRANCH};
use lk_link::link::LinkInput;
use lk_link::options::Options;

/// The options, where a number isn't in its range, or the entry is no symbol.
#[tactic(auto, unfolding(crate::specs::FirstFault::first_place))]
pub fn first_place(link: &LinkInput) -> Option<Place>
    ensures { result ≡ first_place link.now rule.Options }
{
    if is_good_options(&link.groups, &link.options) {
        None
    } else {
        Some(Place::Options)
    }
}

/// Whether the options are good, with the symbols of these files.
fn is_good_options(groups: &InputGroups, options: &Options) -> bool
    ensures { result ≡ is_good_options groups.now options.now }
{
    is_branch_range(options.branch_range)
        && options.bucket_limit <= MOST_BUCKET
        && 1 <= options.merge_group
        && options.merge_group <= MOST_MERGE_GROUP
        && has_entry(groups, options.entry)
}

/// Whether no branch is limited, or all reach further than 2 MiB.
fn is_branch_range(range: u64) -> bool
    ensures { result ≡ is_branch_range range }
{
    range == 0 || MOST_NEAR_BRANCH < range
}

/// Whether the entry, if there is one, is a symbol.
fn has_entry(groups: &InputGroups, entry: Option<SymbolId>) -> bool
    ensures { result ≡ has_entry groups.now entry }
{
    match entry {
        None => true,
        Some(symbol) => groups.symbol(symbol).is_some(),
    }
}
