//! Laws on what is live, beside those on what is reached.

ghost use Rattle.lk_live.specs.FaultLaws.{FaultsAreOne, FaultsAreThese};
ghost use Rattle.lk_live.specs.Laws.{AllIsLive, AskedForIsLive, GroupsStayTogether, LiveExists, LiveIsOne, LiveWasAskedFor, RootsAreLive};

use lk_link::file::group_members_rise;
pub use lk_reach::laws::{
    asks_are_inside, closed_and_reached_is_all, closed_marks_hold_reach, closed_words_hold_flags,
    marks_are_reached, more_roots_reach_more, reach_is_closed, reached_stand_for_themselves,
    resolved_is_reached, words_are_flags,
};

/// A law: every well-formed link has its live sections.
pub fn live_exists()
    ensures { LiveExists }
{}

/// A law: what is live of a link is one.
pub fn live_is_one()
    ensures { LiveIsOne }
{}

/// A law: a section that its object asks for is live: one that is kept in any case, and without collection any that can be.
pub fn roots_are_live()
    ensures { RootsAreLive }
{}

/// A law: without collection each section of an object that can be kept is live.
pub fn all_is_live()
    ensures { AllIsLive }
{}

/// A law: a section group stays together: with a member that is live, each other one that comes along is.
pub fn groups_stay_together()
    ensures { GroupsStayTogether }
{
    group_members_rise();
}

/// A law: a section that is asked for, by a root or by a unit that is reached, is live if it can be kept: so are sections that
/// an entry, a redirect, an export or a list of candidates leads to, and those above are cases of it.
pub fn asked_for_is_live()
    ensures { AskedForIsLive }
{}

/// A law: what is live was asked for by a root or by a unit that is reached.
pub fn live_was_asked_for()
    ensures { LiveWasAskedFor }
{}

/// A law: the references that are told of a well-formed link are just those that can't be met, each once, by file, section and
/// relocation: of sections that are reached, those that are discarded and relocations that need an undefined symbol; and behind
/// the sections of its file each undefined symbol of a dynamic file.
pub fn faults_are_these()
    ensures { FaultsAreThese }
{}

/// A law: no other list is so.
pub fn faults_are_one()
    ensures { FaultsAreOne }
{}
