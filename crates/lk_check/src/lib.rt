//! Checks that a link description is well formed: its lists are no longer than they may be, and it keeps each rule.
//!
//! A description is checked once, before anything is laid out. What passes has the fact on its value, and all that is
//! built on it asks for that fact in place of looking again. What doesn't pass is refused by one fault: the first list
//! that is too long, in the order in which limits are looked at, else the first rule that is broken, at its first
//! place. Each limit and each rule is looked at in one pass over what it speaks of, so the whole takes linear time, and
//! no memory but for a mark on each output section and segment, of which there are few.
#![tactic(auto)]

ghost use Rattle.std.specs.Prelude.{◌≡◌, OnOk};
ghost use Rattle.lk_link.specs.WellFormed.{IsWellFormed};
ghost use Rattle.lk_check.specs.FirstFault.{check_of, first_fault, WellFormedExactlyUnfaulted};

use lk_link::fault::LinkFault;
use lk_link::link::LinkInput;
use std::thread::Threads;

mod by_groups;
mod candidates;
mod counts;
mod counts_by_groups;
mod depths;
mod events;
mod expressions;
mod first_bad_input;
mod first_bad_symbol;
mod good_inputs;
mod good_symbols;
mod lengths;
mod limits;
mod options;
mod part_fields;
mod parts;
mod prelude;
mod rules;
mod section_data;
mod sections;
mod segments;
mod singletons;
mod tables;
mod waiting;

/// Checks that a link is well formed. Refuses with the first list that is too long, else with the first rule that is
/// broken, at its first place. Takes linear time and no memory.
#[tactic(auto, using(crate::proofs::Bounds::limits))]
pub fn check_link(link: &LinkInput) -> Result<(), LinkFault>
    ensures exact { result ≡ check_of (first_fault link.now) }
    ensures well_formed { OnOk result (IsWellFormed link.now) }
{
    limits::check_limits(link)?;
    rules::check_rules(link)
}

/// The same, where what files hold is looked at group by group, in two pieces for each processor. Takes no memory but what threads
/// take.
#[tactic(auto, using(crate::proofs::Bounds::limits))]
pub fn check_link_by_groups<R: Threads + Sync>(rt: &R, link: &LinkInput) -> Result<(), LinkFault>
    ensures exact { result ≡ check_of (first_fault link.now) }
    ensures well_formed { OnOk result (IsWellFormed link.now) }
{
    limits::check_limits_by_groups(rt, link)?;
    by_groups::check_rules_by_groups(rt, link)
}

/// A law: a link is well formed exactly where it has no fault.
pub fn well_formed_exactly_unfaulted()
    ensures { WellFormedExactlyUnfaulted }
{}
