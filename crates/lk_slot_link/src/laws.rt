//! The laws on the slot machine over a link, proved as contracts of functions that do nothing.

ghost use Rattle.lk_slot_link.specs.Laws.{GraphsAreWhole, IsSameReach, QuietStatesAreAll, StepsAreSoundIn};
ghost use Rattle.lk_slot_link.specs.LinkLists.{ListsFit};

/// A law: in a well-formed link what is reached belongs to a group, and neither marks nor flags that are handed in give a symbol a
/// resolution.
pub fn graphs_are_whole()
    ensures { GraphsAreWhole }
{}

/// A law, of a well-formed link: what is reached by numbers and tasks is what is reached in the link, with the same flags.
pub fn same_reach()
    ensures { IsSameReach }
{}

/// A law, of a well-formed link, for every list of steps: what a group has done are units of its own that are reached in the link, what
/// is in words are its flags, and no group is parked with something waiting.
pub fn steps_are_sound_in()
    ensures { StepsAreSoundIn }
{}

/// A law, of a well-formed link, for every list of steps in which nothing is given up: a state in which every group is activated and
/// parked with nothing left has just what is reached in the link, with just its flags.
pub fn quiet_states_are_all()
    ensures { QuietStatesAreAll }
{}

/// A law: in the lists of a well-formed link all that a root or a reached unit asks for is reached, with its flags; and marks and words
/// that are closed, are inside them, as many as they have, and have what is handed in, are all of them.
pub fn lists_fit()
    ensures { ListsFit }
{}
