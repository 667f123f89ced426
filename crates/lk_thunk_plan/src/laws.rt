//! Laws on plans of thunks and on branches.

ghost use Rattle.lk_thunk_plan.specs.BranchLaws.{BranchesReach, ThunkOwnersAreGood, ThunksHaveRanges};
ghost use Rattle.lk_thunk_plan.specs.Orders.{PlansAreInOrder};

/// A law: the owners of blocks of thunks are files of the link, in their order.
pub fn thunk_owners_are_good()
    ensures { ThunkOwnersAreGood }
{}

/// A law: a plan has its sets, its objects and its owners in order.
pub fn plans_are_in_order()
    ensures { PlansAreInOrder }
{}

/// A law: where no branch is named that doesn't reach, each live branch whose target is known is nearer to it than the range, or to
/// the thunk by which it may go, from where the branch stands without what is deleted.
pub fn branches_reach()
    ensures { BranchesReach }
{}

/// A law: the thunks of a block that a file owns are an owner of the primary part with all their bytes; each definition of the block's
/// set, in rising order, has a thunk inside; and those of two definitions have no byte in common.
pub fn thunks_have_ranges()
    ensures { ThunksHaveRanges }
{}
