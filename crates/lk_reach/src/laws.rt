//! Laws on what is reached.

ghost use Rattle.lk_reach.specs.Laws.{AsksAreInside, ClosedAndReachedIsAll, ClosedMarksHoldReach, ClosedWordsHoldFlags, MarksAreReached, MoreRootsReachMore, ReachedStandForThemselves, ReachIsClosed, ResolvedIsReached, WordsAreFlags};

/// A law: what roots and units of a well-formed link ask for is there: units that have numbers, and symbols of the link.
pub fn asks_are_inside()
    ensures { AsksAreInside }
{}

/// A law: a unit of a well-formed link is reached by a path exactly where rounds of marking mark it.
pub fn marks_are_reached()
    ensures { MarksAreReached }
{}

/// A law: a bit of a symbol's joined word is set exactly where it was handed in, or a root or a reached unit sets it.
pub fn words_are_flags()
    ensures { WordsAreFlags }
{}

/// A law: what is reached and its flags are closed: nothing that is marked asks for anything that isn't there.
pub fn reach_is_closed()
    ensures { ReachIsClosed }
{}

/// A law: marks that are closed hold all that is reached.
pub fn closed_marks_hold_reach()
    ensures { ClosedMarksHoldReach }
{}

/// A law: words that are closed, and hold what is handed in, hold all flags.
pub fn closed_words_hold_flags()
    ensures { ClosedWordsHoldFlags }
{}

/// A law: marks and words that are closed, and hold nothing but what is reached and its flags, hold just that.
pub fn closed_and_reached_is_all()
    ensures { ClosedAndReachedIsAll }
{}

/// A law: a symbol with a flag for which it gets a resolution is reached.
pub fn resolved_is_reached()
    ensures { ResolvedIsReached }
{}

/// A law: a symbol of a well-formed link that is reached stands for itself.
pub fn reached_stand_for_themselves()
    ensures { ReachedStandForThemselves }
{}

/// A law: more roots reach no less, where what a unit asks for is still asked for, by it or by a root.
pub fn more_roots_reach_more()
    ensures { MoreRootsReachMore }
{}
