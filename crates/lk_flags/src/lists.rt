//! Which lists workers rest on.

ghost use Rattle.std.specs.Prelude.{[]};
ghost use Rattle.lk_flags.specs.Lists.{Lists};

use std::marker::Brand;

/// Names the lists that a table of flags, slots and states rest on: what may be reached, and which flags there may be. They exist in
/// proofs alone, and each call of a program picks them.
pub trait Reach {
    ghost lists: { Lists };
}

impl Reach for Brand {
    ghost lists = { record { groups = []; units = []; handed = []; words = [] } };
}
