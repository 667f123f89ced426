//! Laws on paths by which units are kept.

ghost use Rattle.lk_explain.specs.Laws.{AcceptedIsReached, ReachedIsShown, ShownIsOne};

/// A law: the last unit of a path that a check accepts is reached, whoever made the path.
pub fn accepted_is_reached()
    ensures { AcceptedIsReached }
{}

/// A law: a unit of a well-formed link has no two paths that are shown.
pub fn shown_is_one()
    ensures { ShownIsOne }
{}

/// A law: a unit of a well-formed link that is reached has a path that is shown.
pub fn reached_is_shown()
    ensures { ReachedIsShown }
{}
