//! The law on the matrix, proved as the contract of a function that does nothing.

ghost use Rattle.lk_grid.specs.Laws.{BucketsHoldTheirGroups, MergingEnds};

/// A law, for every list of steps: each bucket holds what the groups that it has taken give, one after the other, and so all of them when
/// it has taken all.
pub fn buckets_hold_their_groups<T>()
    ensures { BucketsHoldTheirGroups T }
{}

/// A law, for every list of steps: where each cell was filled and no bucket can go on, each has taken all groups.
pub fn merging_ends<T>()
    ensures { MergingEnds T }
{}
