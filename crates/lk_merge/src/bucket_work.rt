//! The buckets of a matrix on their way from group to group.

ghost use Rattle.std.specs.Prelude.{◌≡◌, ◌≢◌, ◌++◌, ◌<◌, ◌≤◌, ◌^◌, ℕ, List, None, Some, [], IfOk, IfSome, MatchBool, OnOk, length, slice_get};
ghost use Rattle.lk_merge.specs.Buckets.{piece_of};
ghost use Rattle.lk_merge.specs.MatrixCells.{HasPlaces, pieces_of_strings, taken_after};
ghost use Rattle.lk_merge.specs.Hash.{fnv64};
ghost use Rattle.lk_merge.specs.Image.{in_bucket};
ghost use Rattle.lk_merge.specs.MatrixWork.{cell_pieces, front};
ghost use Rattle.lk_merge.specs.Pieces.{Piece};
ghost use Rattle.lk_merge.specs.declared.string.MergeString.{MergeString};

use crate::bucket::MergeStringsSectionBucket;
use crate::matrix_work::Brings;
use crate::merging::BucketState;
use crate::offset::BucketOffset;
use crate::room::make_room;
use crate::string::MergeString;
use lk_link::OutputSectionId;
use std::alloc::{AllocError, Global};
use std::marker::{Model, PhantomData};

/// A bucket of an output section that goes from group to group. It keeps what merging keeps of the groups that it has taken whole; one that
/// has stopped did so in the next group, before its first piece that is too long.
#[derive(Drop)]
pub struct BucketWork<'data, J: Brings> {
    number: usize,
    taken: usize,
    state: BucketState<'data>,
    /// Where its pieces stand, in order.
    places: Vec<BucketOffset>,
    of: PhantomData<J>,
}

impl<'data, J: Brings> Model for BucketWork<'data, J> {
    ghost use Rattle.lk_merge.specs.MatrixCells.{BucketValue, IsOnItsWay};

    ghost Value = { BucketValue };

    ghost view = { λ a. record { number = a.number; taken = a.taken; state = a.state; places = a.places.items } };

    ghost invariant = { λ a. IsOnItsWay J.work (record { number = a.number; taken = a.taken; state = a.state; places = a.places.items }) };
}

impl<'data, J: Brings> BucketWork<'data, J> {
    /// An empty bucket that has taken no group; takes no memory.
    pub fn new(
        alloc: Global,
        section: OutputSectionId,
        number: usize,
        limit: u64,
    ) -> BucketWork<'data, J>
        requires numbered { number < 16 }
        requires limited { limit ≤ 2 ^ 28 }
        requires section { section ≡ J.work.section }
        requires limit { limit ≡ J.work.limit }
        ensures number { result.number ≡ number }
        ensures taken { result.taken ≡ 0 }
        ensures going { result.state.refusal ≡ None }
    {
        BucketWork {
            number,
            taken: 0,
            state: BucketState {
                bucket: MergeStringsSectionBucket::new(alloc, section, number, limit),
                refusal: None,
            },
            places: Vec::new(alloc),
            of: PhantomData,
        }
    }

    /// Which bucket it is.
    pub fn number(&self) -> usize
        ensures { result ≡ self.now.number }
    {
        self.number
    }

    /// How many groups it has taken whole.
    pub fn taken(&self) -> usize
        ensures { result ≡ self.now.taken }
    {
        self.taken
    }

    /// Whether it has stopped.
    pub fn has_stopped(&self) -> bool
        ensures { MatchBool result (self.now.state.refusal ≢ None) (self.now.state.refusal ≡ None) }
    {
        match &self.state.refusal {
            Some(_) => true,
            None => false,
        }
    }

    /// What it keeps of all groups, or why it has stopped, and where its pieces stand.
    pub(crate) fn into_state(self) -> (BucketState<'data>, Vec<BucketOffset>)
        requires ended { self.state.refusal ≡ None → self.taken ≡ length J.work.groups }
        ensures places { HasPlaces J.work.section J.work.limit self.entry.number (in_bucket fnv64 self.entry.number (front J.work (length J.work.groups))) result.0 result.1.items }
        ensures state { result.0 ≡ self.entry.state }
    {
        let BucketWork {
            number: _,
            taken: _,
            state,
            places,
            of: _,
        } = self;
        (state, places)
    }

    /// Takes the strings of its next group, whose pieces they are. Given up where memory runs out.
    pub fn take_group(
        self,
        strings: &[MergeString<'data>],
    ) -> Result<BucketWork<'data, J>, AllocError>
        requires going { self.state.refusal ≡ None }
        requires left { self.taken < length J.work.groups }
        requires strings { pieces_of_strings strings.now ≡ cell_pieces J.work self.taken self.number }
        ensures number { IfOk result (λ b. b.number ≡ self.entry.number) }
        ensures taken { IfOk result (λ b. b.taken ≡ taken_after self.entry.taken b.state.refusal) }
    {
        let BucketWork {
            number,
            taken,
            mut state,
            mut places,
            of: _,
        } = self;
        add_group(&mut state, &mut places, strings)?;
        let Some(taken) = groups_taken(taken, &state) else {
            return Err(AllocError);
        };
        Ok(BucketWork {
            number,
            taken,
            state,
            places,
            of: PhantomData,
        })
    }
}

/// How many groups a bucket has taken whole after one more.
fn groups_taken(taken: usize, state: &BucketState<'_>) -> Option<usize>
    ensures { IfSome result (λ n. n ≡ taken_after taken state.now.refusal) }
{
    match &state.refusal {
        Some(_) => Some(taken),
        None => taken.checked_add(1),
    }
}

/// Adds strings to a bucket, and says where they stand. One that has stopped takes none.
fn add_group<'data>(
    state: &mut BucketState<'data>,
    places: &mut Vec<BucketOffset>,
    strings: &[MergeString<'data>],
) -> Result<(), AllocError>
    requires some { (k : ℕ) (s : MergeString) → slice_get strings.now k ≡ Some s → 0 < length s.bytes.now }
    ensures { OnOk result ((section limit b : ℕ) (pieces : List Piece) → HasPlaces section limit b pieces state.old places.old.items
        → HasPlaces section limit b (pieces ++ pieces_of_strings strings.now) state.new places.new.items) }
{
    make_room(places, strings.len())?;
    for string in strings {
        if let Some(place) = state.add(*string)? {
            places.push(place)?;
        }
    }
    Ok(())
}
