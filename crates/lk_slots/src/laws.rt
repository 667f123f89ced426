//! The laws on the slot machine, proved as contracts of functions that do nothing.

ghost use Rattle.lk_slots.specs.Laws.{StepsAreComplete, StepsAreSound};

/// A law, for every list of steps: what is done is reached, what is in words are flags, and no group is parked with something
/// waiting.
pub fn steps_are_sound()
    ensures { StepsAreSound }
{}

/// A law, for every list of steps in a graph that is whole, where nothing was given up: what was asked for is done or stands
/// somewhere, and where every group is activated and parked with nothing left, what is done is just what is reached, and words are just
/// its flags.
pub fn steps_are_complete()
    ensures { StepsAreComplete }
{}
