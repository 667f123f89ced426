//! The laws on a group's steps, proved as contracts of functions that do nothing.

ghost use Rattle.lk_workers.specs.Machines.{AsksAreTurns, StepsAreMachineSteps, StepsGivenUpAreMachineSteps};

/// A law, of asks inside a link: what a group does of them, one after the other, is, on the group's own side and by the words that its
/// pass has as found, steps of the slot machine, in which the hand begins with their tasks and ends without them.
pub fn asks_are_turns()
    ensures { AsksAreTurns }
{}

/// A law, in a well-formed link, of a group of it whose items are units of it: a step of the group is, on the group's own side and by
/// the words that its pass has as found, one of the slot machine that activates the group or takes an item, and then its steps with
/// what is in hand, until nothing is.
pub fn steps_are_machine_steps()
    ensures { StepsAreMachineSteps }
{}

/// A law, of the same: a step that finds no memory is so one of the slot machine that activates the group, or takes or drops an item,
/// and then its steps with what is in hand, of which the last drop what is still there.
pub fn steps_given_up_are_machine_steps()
    ensures { StepsGivenUpAreMachineSteps }
{}
