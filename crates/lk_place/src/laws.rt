//! Laws of placement, each proved as the contract of a function that does nothing. More stand in lk_place_laws.

ghost use Rattle.lk_place.specs.CarriedOut.{EventsAreCarriedOut, GivenIsCarriedOut, OthersAreNowhere};
ghost use Rattle.lk_place.specs.Laws.{FileRangesAreDisjoint};
ghost use Rattle.lk_place.specs.PlacementLaws.{PartsTakeTheirBytes, PlacementExists, PlacementIsOne};
ghost use Rattle.lk_place.specs.PositionLaws.{AnswersGoWithoutPositions, PlacementsGoWithoutPositions};
ghost use Rattle.lk_place.specs.Shallow.{ExpressionsAreShallow};

pub use lk_expressions::laws::{constants_go_by_those_before, unnamed_read_no_symbols};

/// A law: there is a placement of each plan with its events in order and good sections, up to the first refused event.
pub fn placement_exists()
    ensures { PlacementExists }
{}

/// A law: there is one placement alone.
pub fn placement_is_one()
    ensures { PlacementIsOne }
{}

/// A law: each event before the last state moves the cursors, and then places its section, if it has one: walked parts stand one
/// behind the other, each at the least multiple of its alignment at or above the offsets, the others rest where the first walked one
/// starts, all are loaded from its load address, or from where they stand, and all end below 2^64, and behind them memory isn't past
/// the end of the section's region.
pub fn events_are_carried_out()
    ensures { EventsAreCarriedOut }
{}

/// A law: whatever is known, an event of the plan gives cursors and its section's records exactly where these carry it out so.
pub fn given_is_carried_out()
    ensures { GivenIsCarriedOut }
{}

/// A law: a part that no event before the last state places is nowhere.
pub fn others_are_nowhere()
    ensures { OthersAreNowhere }
{}

/// A law: where no expression of a walk names a symbol, a placement is one wherever symbols stand, and is refused alike.
pub fn placements_go_without_positions()
    ensures { PlacementsGoWithoutPositions }
{}

/// A law: what is answered then by some places of symbols is what is answered by any.
pub fn answers_go_without_positions()
    ensures { AnswersGoWithoutPositions }
{}

/// A law: where no event is refused, the record of each part takes exactly the part's bytes in memory.
pub fn parts_take_their_bytes()
    ensures { PartsTakeTheirBytes }
{}

/// A law: whatever the plan, no two parts share a byte of the file, also where an event is refused.
pub fn file_ranges_are_disjoint()
    ensures { FileRangesAreDisjoint }
{}

/// A law: no expression of a well-formed link is too deep to be evaluated while sections are placed.
pub fn expressions_are_shallow()
    ensures { ExpressionsAreShallow }
{}
