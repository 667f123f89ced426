//! Which inputs workers merge.

ghost use Rattle.std.specs.Prelude.{[]};
ghost use Rattle.lk_merge.specs.MatrixWork.{MatrixWork};

use std::marker::Brand;

/// Names the inputs and groups that the cells and buckets of a matrix are of. They exist in proofs alone, and each call of a program picks
/// them.
pub trait Brings {
    ghost work: { MatrixWork };
}

impl Brings for Brand {
    ghost work = { record { section = 0; limit = 0; inputs = []; groups = [] } };
}
