//! Laws, each proved as the contract of a function that does nothing.

ghost use Rattle.lk_relax.specs.RelaxedLaws.{NothingDeletedIsNothingLost, EmptyDeletionsLeaveAll, FirstIsShrunk, FirstStands, NothingDeletedLeavesAll, PassesStand, PassesStayShrunk, RelaxedIsShrunk, RelaxedStands, SizesFallByPasses, StillPassesKeepParts};
ghost use Rattle.lk_relax.specs.Sites.{DeletedSitesAreNear, NothingIsPast, ShrunkCanBeScanned};
ghost use Rattle.lk_relax.specs.Stages.{DeletionsAreRead, FirstCanBeScanned, PassesShrink, RelaxedExists, RelaxedIsOne};

/// A law: where nothing is deleted, input sections have the sizes of the description.
pub fn nothing_deleted_is_nothing_lost()
    ensures { NothingDeletedIsNothingLost }
{}

/// A law: deletions without ranges leave sizes and offsets as they are.
pub fn empty_deletions_leave_all()
    ensures { EmptyDeletionsLeaveAll }
{}

/// A law: an empty entry for each file leaves sizes and offsets as they are.
pub fn nothing_deleted_leaves_all()
    ensures { NothingDeletedLeavesAll }
{}

/// A law: what is deleted of each section by a pass is read back.
pub fn deletions_are_read()
    ensures { DeletionsAreRead }
{}

/// A law: the sections that the first pass looks at can be looked at.
pub fn first_can_be_scanned()
    ensures { FirstCanBeScanned }
{
    lk_deltas::laws::nothing_is_of();
}

/// A law: a pass leaves bytes of candidates deleted, and no section has more bytes behind it.
pub fn passes_shrink()
    ensures { PassesShrink }
{
    lk_deltas::laws::shrunk_are_of();
    lk_deltas::laws::picked_are_new();
    lk_deltas::laws::offsets_only_fall();
}

/// A law: relaxation of a well-formed link ends at one stage alone.
pub fn relaxed_is_one()
    ensures { RelaxedIsOne }
{
    lk_place::laws::placement_is_one();
}

/// A law: it ends at some stage.
pub fn relaxed_exists()
    ensures { RelaxedExists }
{
    lk_place::laws::placement_exists();
}

/// A law: at the first stage what is deleted are bytes of candidates, and what is looked at can be.
pub fn first_is_shrunk()
    ensures { FirstIsShrunk }
{}

/// A law: so it is behind a pass, if it was before it.
pub fn passes_stay_shrunk()
    ensures { PassesStayShrunk }
{}

/// A law: no section has more bytes behind a pass than before it.
pub fn sizes_fall_by_passes()
    ensures { SizesFallByPasses }
{}

/// A law: at the stage that relaxation ends at, what is deleted are bytes of candidates.
pub fn relaxed_is_shrunk()
    ensures { RelaxedIsShrunk }
{}

/// A law: where capacities fall by nothing in a pass, each part keeps its bytes.
pub fn still_passes_keep_parts()
    ensures { StillPassesKeepParts }
{}

/// A law: the first stage's placement is of the bytes that the parts have there.
pub fn first_stands()
    ensures { FirstStands }
{}

/// A law: so it is behind a pass, if it was before it.
pub fn passes_stand()
    ensures { PassesStand }
{}

/// A law: the placement that relaxation ends with is of the bytes that the parts have at the end.
pub fn relaxed_stands()
    ensures { RelaxedStands }
{}

/// A law: at a stage where what is deleted are bytes of candidates, each section of which something is deleted can be looked at.
pub fn shrunk_can_be_scanned()
    ensures { ShrunkCanBeScanned }
{}

/// A law: where no candidate is past its limit, none whose bytes are gone stood farther from its symbol than that.
pub fn deleted_sites_are_near()
    ensures { DeletedSitesAreNear }
{}

/// A law: where the map of no file has an entry, no candidate is past its limit.
pub fn nothing_is_past()
    ensures { NothingIsPast }
{}
