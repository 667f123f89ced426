//! Laws on groups that are closed, each proved as the contract of a function that does nothing.

ghost use Rattle.lk_worker_laws.specs.Laws.{ClosedGroupsHoldFlags, ClosedGroupsHoldReach, ClosedInsideIsAll, GroupsAreClosed, ReachedGroupsAreClosed};

/// A law: no group has an open ask exactly where the marks and the words are closed.
pub fn groups_are_closed()
    ensures { GroupsAreClosed }
{}

/// A law: in a well-formed link, where just what is reached is done, and the words have just all flags, no group has an open ask.
pub fn reached_groups_are_closed()
    ensures { ReachedGroupsAreClosed }
{}

/// A law: in a well-formed link, where no group has an open ask, all that is reached is done.
pub fn closed_groups_hold_reach()
    ensures { ClosedGroupsHoldReach }
{}

/// A law: there words that have what was handed in have all flags.
pub fn closed_groups_hold_flags()
    ensures { ClosedGroupsHoldFlags }
{}

/// A law: where there is a mark for each unit and a word for each symbol behind a spare one, nothing is done that isn't reached, and
/// words have what was handed in and nothing beyond the flags, no group of a well-formed link has an open ask exactly where marks and
/// words are all that is reached, with all flags.
pub fn closed_inside_is_all()
    ensures { ClosedInsideIsAll }
{}
