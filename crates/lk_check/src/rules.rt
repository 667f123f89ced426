//! The rules that a link keeps, in their order.

ghost use Rattle.std.specs.Prelude.{◌≡◌, ◌≤◌, length, true};
ghost use Rattle.lk_link.specs.declared.fault.Rule.TheVariants.{Page};
ghost use Rattle.lk_link.specs.Files.{AreNumbered};
ghost use Rattle.lk_link.specs.Symbols.{all_files, symbol_count};
ghost use Rattle.lk_check.specs.ByGroups.{has_good_files};
ghost use Rattle.lk_check.specs.FirstAnswer.{first_of};
ghost use Rattle.lk_check.specs.FirstFault.{all_rules, check_of, first_place, rule_fault};

use crate::{
    candidates, events, expressions, first_bad_input, first_bad_symbol, options, part_fields,
    prelude, section_data, sections, segments, singletons, tables,
};
use lk_link::alignment::is_valid;
use lk_link::fault::{LinkFault, Place, Rule};
use lk_link::limits::{OUTPUT_SECTIONS, SEGMENTS, SYMBOLS};
use lk_link::link::LinkInput;

/// The rules, in the order in which they are looked at.
const ALL_RULES: [Rule; 14] = [
    Rule::Options,
    Rule::Page,
    Rule::Sections,
    Rule::PartFields,
    Rule::Singletons,
    Rule::TlsSegment,
    Rule::Events,
    Rule::Expressions,
    Rule::Prelude,
    Rule::Symbols,
    Rule::InputSections,
    Rule::Tables,
    Rule::Candidates,
    Rule::Data,
];

/// How many of them come before those on what files hold.
const OUTSIDE_FILES: usize = 9;

/// Refuses a link that breaks a rule, by the first such rule at its first place.
#[tactic(auto, unfolding(crate::specs::FirstFault::check_of))]
pub fn check_rules(link: &LinkInput) -> Result<(), LinkFault>
    requires files { AreNumbered link.now.groups }
    requires symbols { symbol_count (all_files link.now.groups) ≤ SYMBOLS }
    requires sections { length link.now.plan.sections ≤ OUTPUT_SECTIONS }
    requires segments { length link.now.plan.segments ≤ SEGMENTS }
    ensures { result ≡ check_of (first_of (rule_fault link.now) all_rules) }
{
    match first_broken(link, &ALL_RULES, false) {
        None => Ok(()),
        Some(fault) => Err(fault),
    }
}

/// The same of a link of which all that files hold is known to be good, and isn't looked at again.
#[tactic(auto, using(crate::proofs::GoodFiles::nothing_in_files), unfolding(crate::specs::FirstFault::check_of))]
pub fn check_outside_files(link: &LinkInput) -> Result<(), LinkFault>
    requires files { AreNumbered link.now.groups }
    requires symbols { symbol_count (all_files link.now.groups) ≤ SYMBOLS }
    requires sections { length link.now.plan.sections ≤ OUTPUT_SECTIONS }
    requires segments { length link.now.plan.segments ≤ SEGMENTS }
    requires good { has_good_files link.now ≡ true }
    ensures { result ≡ check_of (first_of (rule_fault link.now) all_rules) }
{
    match first_broken(link, &ALL_RULES[..OUTSIDE_FILES], true) {
        None => Ok(()),
        Some(fault) => Err(fault),
    }
}

/// The fault of the first of these rules that is broken. Redirects aren't looked at where all that files hold is known to be good.
#[tactic(auto, using(crate::proofs::First::places))]
fn first_broken(link: &LinkInput, rules: &[Rule], good_files: bool) -> Option<LinkFault>
    requires files { AreNumbered link.now.groups }
    requires symbols { symbol_count (all_files link.now.groups) ≤ SYMBOLS }
    requires sections { length link.now.plan.sections ≤ OUTPUT_SECTIONS }
    requires segments { length link.now.plan.segments ≤ SEGMENTS }
    requires good { good_files ≡ true → has_good_files link.now ≡ true }
    ensures { result ≡ first_of (rule_fault link.now) rules.now }
{
    for rule in rules {
        if let Some(place) = first_place(link, *rule, good_files) {
            return Some(LinkFault::BadLink { rule: *rule, place });
        }
    }
    None
}

/// Where a link breaks a rule first.
fn first_place(link: &LinkInput, rule: Rule, good_files: bool) -> Option<Place>
    requires files { AreNumbered link.now.groups }
    requires symbols { symbol_count (all_files link.now.groups) ≤ SYMBOLS }
    requires sections { length link.now.plan.sections ≤ OUTPUT_SECTIONS }
    requires segments { length link.now.plan.segments ≤ SEGMENTS }
    requires good { good_files ≡ true → has_good_files link.now ≡ true }
    ensures { result ≡ first_place link.now rule }
{
    match rule {
        Rule::Options => options::first_place(link),
        Rule::Page => page_place(link),
        Rule::Sections => sections::first_place(link),
        Rule::PartFields => part_fields::first_place(link),
        Rule::Singletons => singletons::first_place(link),
        Rule::TlsSegment => segments::first_place(link),
        Rule::Events => events::first_place(link),
        Rule::Expressions => expressions::first_place(link, good_files),
        Rule::Prelude => prelude::first_place(link),
        Rule::Symbols => first_bad_symbol::first_place(link),
        Rule::InputSections => first_bad_input::first_place(link),
        Rule::Tables => tables::first_place(link),
        Rule::Candidates => candidates::first_place(link),
        Rule::Data => section_data::first_place(link),
    }
}

/// The plan, where its page is no power of two up to 65,536.
#[tactic(auto, unfolding(crate::specs::FirstFault::first_place))]
fn page_place(link: &LinkInput) -> Option<Place>
    ensures { result ≡ first_place link.now Page }
{
    if is_valid(link.plan.page) {
        None
    } else {
        Some(Place::Plan)
    }
}
