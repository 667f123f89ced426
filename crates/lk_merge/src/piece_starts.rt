//! Where the pieces of a group start, and their buckets, in five bytes a piece.

ghost use Rattle.std.specs.Prelude.{◌≡◌, ◌++◌, ◌∷◌, ◌<◌, [], List, IfOk, OnOk, length};
ghost use Rattle.lk_merge.specs.Inputs.{Located};
ghost use Rattle.lk_merge.specs.PieceStarts.{HasStarts, IsStartOf, bucket_of};

use std::alloc::{AllocError, Global};

/// Where the pieces of a group start, in order, and their buckets.
#[derive(Drop)]
pub(crate) struct PieceStarts {
    /// The offset of the group's start into all inputs.
    from: u64,
    /// How far behind it each piece starts.
    offsets: Vec<u32>,
    /// The bucket of each.
    buckets: Vec<u8>,
}

impl PieceStarts {
    /// No pieces of a group that starts at an offset; takes no memory.
    pub(crate) fn new(alloc: Global, from: u64) -> PieceStarts
        ensures { HasStarts [] result }
    {
        PieceStarts {
            from,
            offsets: Vec::new(alloc),
            buckets: Vec::new(alloc),
        }
    }

    /// How many pieces there are.
    pub(crate) fn len(&self) -> usize
        ensures { result ≡ length self.now.offsets.items }
    {
        self.offsets.len()
    }

    /// Adds the next piece. One that starts 2^32 bytes or more behind the group's start is refused; no group of a link is so long.
    pub(crate) fn add(&mut self, start: u64, bucket: usize) -> Result<(), AllocError>
        requires { bucket < 16 }
        ensures { OnOk result ((pieces : List Located) (l : Located) → l.start ≡ start → bucket_of l ≡ bucket → HasStarts pieces self.old → HasStarts (pieces ++ l ∷ []) self.new) }
    {
        if start < self.from || start - self.from > u64::from(u32::MAX) {
            return Err(AllocError);
        }
        self.offsets.push((start - self.from) as u32)?;
        self.buckets.push(bucket as u8)?;
        Ok(())
    }

    /// Gives back the room that no piece takes.
    pub(crate) fn shrink_to_fit(&mut self)
        ensures { (pieces : List Located) → HasStarts pieces self.old → HasStarts pieces self.new }
    {
        self.offsets.shrink_to_fit();
        self.buckets.shrink_to_fit();
    }

    /// Where a piece starts, and its bucket. Refused where there is none.
    pub(crate) fn at(&self, index: usize) -> Result<(u64, usize), AllocError>
        ensures { IfOk result (λ r. (pieces : List Located) → HasStarts pieces self.now → IsStartOf pieces index r.0 r.1) }
    {
        let (Some(offset), Some(bucket)) = (
            self.offsets.as_slice().get(index),
            self.buckets.as_slice().get(index),
        ) else {
            return Err(AllocError);
        };
        let Some(start) = self.from.checked_add(u64::from(*offset)) else {
            return Err(AllocError);
        };
        Ok((start, usize::from(*bucket)))
    }
}
