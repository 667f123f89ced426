//! From input offsets to places in buckets.
//!
//! Offsets are cut into blocks of 256. So a piece takes one byte for where it starts in its block and four for its place, and a block one
//! number. A block keeps its first twelve pieces; few blocks have more, and those stand in a list of their own.

ghost use Rattle.std.specs.Prelude.{◌≡◌, ◌++◌, ◌∷◌, ◌+◌, ◌*◌, ◌/◌, ◌<◌, ◌≤◌, [], List, ℕ, IfOk, MatchOption, OnOk, Some, length, slice_get};
ghost use Rattle.lk_merge.specs.OffsetMapTables.{AreBefore, AreStarts, HoldsIn};
ghost use Rattle.lk_merge.specs.OffsetMaps.{IsLast, NoneAt, StartsRise, first_twelve, in_block, past_twelfth};
ghost use Rattle.lk_merge.specs.declared.offset_map.PieceEntry.{PieceEntry};

use crate::inputs::BLOCK_SIZE;
use crate::offset::BucketOffset;
use crate::room::make_room;
use std::alloc::{AllocError, Global};

/// How many pieces of a block are kept with it.
const KEPT_IN_BLOCK: usize = 12;

/// Where a piece starts among the inputs, and where the equal one that is kept stands.
#[derive(Clone, Copy)]
pub(crate) struct PieceEntry {
    /// The offset into all inputs, in bytes.
    pub(crate) start: u64,
    pub(crate) place: BucketOffset,
}

/// The starts and places of some pieces, by rising block of input offsets.
#[derive(Drop)]
pub(crate) struct Starts {
    /// How many of them start before each block, up to the last one's.
    blocks: Vec<u32>,
    /// Where each starts in its block.
    offsets: Vec<u8>,
    places: Vec<BucketOffset>,
}

impl Starts {
    /// No pieces; takes no memory.
    fn new(alloc: Global) -> Starts
        ensures { AreStarts [] result }
    {
        Starts {
            blocks: Vec::new(alloc),
            offsets: Vec::new(alloc),
            places: Vec::new(alloc),
        }
    }

    /// No pieces, with room for so many blocks.
    fn with_capacity(alloc: Global, blocks: usize) -> Result<Starts, AllocError>
        ensures { IfOk result (AreStarts []) }
    {
        Ok(Starts {
            blocks: Vec::with_capacity(alloc, blocks)?,
            offsets: Vec::new(alloc),
            places: Vec::new(alloc),
        })
    }

    /// How many pieces there are.
    fn len(&self) -> usize
        ensures { result ≡ length self.now.places.items }
    {
        self.places.len()
    }

    /// Makes room for so many more pieces.
    fn make_room(&mut self, pieces: usize) -> Result<(), AllocError>
        ensures { (pieces : List PieceEntry) → AreStarts pieces self.old → AreStarts pieces self.new }
    {
        make_room(&mut self.offsets, pieces)?;
        make_room(&mut self.places, pieces)
    }

    /// Gives back the room that no piece takes.
    fn shrink_to_fit(&mut self)
        ensures { (pieces : List PieceEntry) → AreStarts pieces self.old → AreStarts pieces self.new }
    {
        self.blocks.shrink_to_fit();
        self.offsets.shrink_to_fit();
        self.places.shrink_to_fit();
    }

    /// How many pieces start before a block.
    fn before(&self, block: usize) -> usize
        ensures { (pieces : List PieceEntry) → AreStarts pieces self.now → AreBefore pieces (block * 256) result }
    {
        match self.blocks.as_slice().get(block) {
            Some(before) => *before as usize,
            None => self.places.len(),
        }
    }

    /// Begins all blocks up to one with this number. Given up past 2^32 pieces.
    fn begin(&mut self, block: usize) -> Result<(), AllocError>
        ensures { OnOk result ((pieces : List PieceEntry) → AreStarts pieces self.old → AreStarts pieces self.new × (block < length self.new.blocks.items)) }
    {
        let Ok(before) = u32::try_from(self.places.len()) else {
            return Err(AllocError);
        };
        while self.blocks.len() <= block {
            self.blocks.push(before)?;
        }
        Ok(())
    }

    /// Adds a piece. Given up where its block is before the last piece's.
    fn add(&mut self, start: u64, place: BucketOffset) -> Result<(), AllocError>
        ensures { OnOk result ((pieces : List PieceEntry) → AreStarts pieces self.old → AreStarts (pieces ++ record { start = start; place = place } ∷ []) self.new) }
    {
        let block = (start / BLOCK_SIZE) as usize;
        self.begin(block)?;
        if self.blocks.len() > block + 1 {
            return Err(AllocError);
        }
        self.offsets.push((start % BLOCK_SIZE) as u8)?;
        self.places.push(place)?;
        Ok(())
    }

    /// How many pieces start at an offset or before it. Takes logarithmic time.
    fn up_to(&self, offset: u64) -> usize
        requires { (pieces : List PieceEntry) × AreStarts pieces self.now × StartsRise pieces }
        ensures { (pieces : List PieceEntry) → AreStarts pieces self.now → StartsRise pieces → AreBefore pieces (offset + 1) result }
    {
        let block = (offset / BLOCK_SIZE) as usize;
        let within = (offset % BLOCK_SIZE) as u8;
        let mut low = self.before(block);
        let mut high = self.before(block + 1);
        while low < high {
            let middle = low + (high - low) / 2;
            if self.offsets[middle] <= within {
                low = middle + 1;
            } else {
                high = middle;
            }
        }
        low
    }

    /// The block in which a piece starts. Takes logarithmic time.
    fn block_of(&self, index: usize) -> usize
        requires { (pieces : List PieceEntry) × AreStarts pieces self.now × (index < length pieces) }
        ensures { (pieces : List PieceEntry) (e : PieceEntry) → AreStarts pieces self.now → slice_get pieces index ≡ Some e → result ≡ e.start / 256 }
    {
        let mut low = 0;
        let mut high = self.blocks.len();
        while high - low > 1 {
            let middle = low + (high - low) / 2;
            if self.blocks[middle] as usize <= index {
                low = middle;
            } else {
                high = middle;
            }
        }
        low
    }

    /// The block in which a piece starts; that of an offset is tried first. Takes logarithmic time where it is another.
    fn block_near(&self, index: usize, offset: u64) -> usize
        requires { (pieces : List PieceEntry) × AreStarts pieces self.now × (index < length pieces) }
        ensures { (pieces : List PieceEntry) (e : PieceEntry) → AreStarts pieces self.now → slice_get pieces index ≡ Some e → result ≡ e.start / 256 }
    {
        let block = (offset / BLOCK_SIZE) as usize;
        let from = self.before(block);
        let end = self.before(block + 1);
        if from <= index && index < end {
            block
        } else {
            self.block_of(index)
        }
    }

    /// A piece, whose start is sought in the block of an offset first.
    fn piece(&self, index: usize, offset: u64) -> PieceEntry
        requires { (pieces : List PieceEntry) × AreStarts pieces self.now × (index < length pieces) }
        ensures { (pieces : List PieceEntry) → AreStarts pieces self.now → slice_get pieces index ≡ Some result }
    {
        PieceEntry {
            start: self.block_near(index, offset) as u64 * BLOCK_SIZE
                + u64::from(self.offsets[index]),
            place: self.places[index],
        }
    }
}

/// Where the pieces of an output section's inputs stand in its buckets, by rising start (libwild: `OffsetMap`). Of each 256 input offsets the
/// first 12 starts are kept together, and the others, in order, in one overflow list.
#[derive(Drop)]
pub struct OffsetMap {
    kept: Starts,
    rest: Starts,
}

impl OffsetMap {
    /// No pieces; takes no memory.
    pub(crate) fn new(alloc: Global) -> OffsetMap
        ensures { HoldsIn [] result }
    {
        OffsetMap {
            kept: Starts::new(alloc),
            rest: Starts::new(alloc),
        }
    }

    /// No pieces, with room for the blocks of so many bytes of inputs.
    pub(crate) fn with_capacity(alloc: Global, bytes: u64) -> Result<OffsetMap, AllocError>
        ensures { IfOk result (HoldsIn []) }
    {
        let blocks = (bytes / BLOCK_SIZE) as usize + 1;
        Ok(OffsetMap {
            kept: Starts::with_capacity(alloc, blocks)?,
            rest: Starts::new(alloc),
        })
    }

    /// Adds a piece, the start of which is in the last piece's block or behind it; given up where it isn't, or past 2^32 pieces.
    pub(crate) fn add(&mut self, start: u64, place: BucketOffset) -> Result<(), AllocError>
        ensures { OnOk result ((pieces : List PieceEntry) → HoldsIn pieces self.old → HoldsIn (pieces ++ record { start = start; place = place } ∷ []) self.new) }
    {
        let block = (start / BLOCK_SIZE) as usize;
        let end = self.kept.before(block + 1);
        if end.saturating_sub(self.kept.before(block)) < KEPT_IN_BLOCK {
            return self.kept.add(start, place);
        }
        self.rest.add(start, place)
    }

    /// Makes room for so many more pieces, where none of them stands in the overflow list.
    pub(crate) fn make_room(&mut self, pieces: usize) -> Result<(), AllocError>
        ensures { (pieces : List PieceEntry) → HoldsIn pieces self.old → HoldsIn pieces self.new }
    {
        self.kept.make_room(pieces)
    }

    /// Gives back the room that no piece takes: the map stays as long as what is merged.
    pub(crate) fn shrink_to_fit(&mut self)
        ensures { (pieces : List PieceEntry) → HoldsIn pieces self.old → HoldsIn pieces self.new }
    {
        self.kept.shrink_to_fit();
        self.rest.shrink_to_fit();
    }

    /// How many pieces there are.
    pub(crate) fn len(&self) -> usize
        ensures { (pieces : List PieceEntry) → HoldsIn pieces self.now → result ≡ length pieces }
    {
        self.kept.len() + self.rest.len()
    }

    /// How many starts stand in the overflow list: just those past the twelfth of their blocks of 256 input offsets (libwild:
    /// `OffsetMap::overflow_len`). Takes no memory.
    pub fn overflow_len(&self) -> usize
        ensures past { (pieces : List PieceEntry) → HoldsIn pieces self.now → result ≡ length (past_twelfth pieces) }
        ensures few { (pieces : List PieceEntry) (b : ℕ) → length (in_block b (first_twelve pieces)) ≤ 12 }
        ensures all { (pieces : List PieceEntry) → length (first_twelve pieces) + length (past_twelfth pieces) ≡ length pieces }
    {
        self.rest.len()
    }

    /// The last piece that starts at an offset or before it, if there is one. Looks in the offset's block, and in logarithmic time for another
    /// only where none starts there. A start in the overflow list is behind the twelve kept ones of its block, so that list is asked only where
    /// the last kept one is the twelfth of its block.
    pub(crate) fn last_at(&self, offset: u64) -> Option<PieceEntry>
        requires { (pieces : List PieceEntry) × HoldsIn pieces self.now × StartsRise pieces }
        ensures { (pieces : List PieceEntry) → HoldsIn pieces self.now → StartsRise pieces → MatchOption result (NoneAt pieces offset) (IsLast pieces offset) }
    {
        let up_to = self.kept.up_to(offset);
        let kept = self.kept.piece(up_to.checked_sub(1)?, offset);
        let block = (kept.start / BLOCK_SIZE) as usize;
        if up_to.saturating_sub(self.kept.before(block)) < KEPT_IN_BLOCK {
            return Some(kept);
        }
        let rest = self.rest.up_to(offset);
        if rest <= self.rest.before(block) {
            return Some(kept);
        }
        Some(self.rest.piece(rest - 1, kept.start))
    }
}
