//! Laws on deleted ranges, each proved as the contract of a function that does nothing.

ghost use Rattle.lk_deltas.specs.Laws.{ApartHaveBoth, BothAreOne, GoodCandidatesCanGo, NothingIsOf, OffsetsKeepOrder, OffsetsOnlyFall, PickedAreNew, PickedCanGo, RangesGoToTheirStarts, ShrunkAreOf};

/// A law: offsets keep their order.
pub fn offsets_keep_order()
    ensures { OffsetsKeepOrder }
{}

/// A law: an offset in a deleted range, or at its end, goes where the range's start goes.
pub fn ranges_go_to_their_starts()
    ensures { RangesGoToTheirStarts }
{}

/// A law: where more is deleted, an offset goes at most as far from the start.
pub fn offsets_only_fall()
    ensures { OffsetsOnlyFall }
{}

/// A law: two lists of ranges have one list of both that can be deleted, if any.
pub fn both_are_one()
    ensures { BothAreOne }
{}

/// A law: two lists of ranges that can be deleted, apart, have one list of both.
pub fn apart_have_both()
    ensures { ApartHaveBoth }
{}

/// A law: the candidates of a good section can go, and end inside it.
pub fn good_candidates_can_go()
    ensures { GoodCandidatesCanGo }
{}

/// A law: nothing is the ranges of none of the candidates.
pub fn nothing_is_of()
    ensures { NothingIsOf }
{}

/// A law: what a pass picks can be deleted.
pub fn picked_can_go()
    ensures { PickedCanGo }
{}

/// A law: what is deleted and what a pass picks are together what is deleted behind the pass, so they can be merged.
pub fn picked_are_new()
    ensures { PickedAreNew }
{}

/// A law: what is deleted behind a pass are ranges of some of the candidates again.
pub fn shrunk_are_of()
    ensures { ShrunkAreOf }
{}
