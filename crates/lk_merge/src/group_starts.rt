//! Where the pieces of groups start, and the offset map that they make with the places of the pieces.
//!
//! A group alone knows where its pieces start, and a bucket alone where its pieces stand. So the map's entries come from both: the pieces of
//! all groups, in order, each with the next place of its bucket.

ghost use Rattle.std.specs.Prelude.{◌≡◌, ◌++◌, ◌∷◌, ◌<◌, [], List, Some, Vec, IfOk, IfSome, OnOk, length, map, slice_get};
ghost use Rattle.lk_merge.specs.GroupStarts.{ArePlaces, HasEntries};
ghost use Rattle.lk_merge.specs.Inputs.{Located, located};
ghost use Rattle.lk_merge.specs.MatrixWork.{IsWork, group_located};
ghost use Rattle.lk_merge.specs.MergingTables.{entry_of, pieces_in};
ghost use Rattle.lk_merge.specs.OffsetMapTables.{HoldsIn};
ghost use Rattle.lk_merge.specs.PieceStarts.{HasStarts, bucket_of};

use crate::bucket::BUCKETS;
use crate::matrix_work::Brings;
use crate::offset::BucketOffset;
use crate::offset_map::OffsetMap;
use crate::piece_starts::PieceStarts;
use std::alloc::{AllocError, Global};
use std::marker::{Model, PhantomData};
use std::sync::Mutex;

/// Where the pieces of a group start, once they are told. It lies behind a lock.
#[derive(Drop)]
pub struct GroupStarts<J: Brings> {
    group: usize,
    starts: Option<PieceStarts>,
    of: PhantomData<J>,
}

impl<J: Brings> Model for GroupStarts<J> {
    ghost use Rattle.std.specs.Prelude.{IfSome};
    ghost use Rattle.lk_merge.specs.MatrixWork.{group_located};
    ghost use Rattle.lk_merge.specs.PieceStarts.{HasStarts};
    ghost use Rattle.lk_merge.specs.StartsValue.{StartsValue};

    ghost Value = { StartsValue };

    ghost view = { λ a. record { group = a.group; starts = a.starts } };

    ghost invariant = { λ a. IfSome a.starts (HasStarts (group_located J.work a.group)) };
}

impl<J: Brings> GroupStarts<J> {
    /// Not told yet.
    pub fn new(group: usize) -> GroupStarts<J> {
        GroupStarts {
            group,
            starts: None,
            of: PhantomData,
        }
    }

    /// The group.
    pub fn group(&self) -> usize
        ensures { result ≡ self.now.group }
    {
        self.group
    }

    /// The starts are told.
    pub(crate) fn tell(&mut self, starts: PieceStarts)
        requires { HasStarts (group_located J.work self.old.group) starts }
        ensures { self.new.group ≡ self.old.group }
    {
        self.starts = Some(starts);
    }

    /// What was told.
    pub(crate) fn into_starts(self) -> Option<PieceStarts>
        ensures { IfSome result (HasStarts (group_located J.work self.group)) }
    {
        let GroupStarts {
            group: _,
            starts,
            of: _,
        } = self;
        starts
    }
}

/// Entries so far, and how many places of each bucket they have taken.
#[derive(Drop)]
pub(crate) struct Entries {
    places: Vec<Vec<BucketOffset>>,
    taken: Vec<usize>,
    entries: OffsetMap,
}

impl Entries {
    /// No entries yet, with room for the blocks of so many bytes of inputs.
    fn new(alloc: Global, places: Vec<Vec<BucketOffset>>, bytes: u64) -> Result<Entries, AllocError>
        ensures { IfOk result (λ e. (all : List Located) → ArePlaces (pieces_in all) places.items → HasEntries all [] e) }
    {
        let taken = vec![in alloc; 0usize; BUCKETS]?;
        let entries = OffsetMap::with_capacity(alloc, bytes)?;
        Ok(Entries {
            places,
            taken,
            entries,
        })
    }

    /// Adds the entry of the next piece, which has its start and its bucket.
    fn add(&mut self, start: u64, bucket: usize) -> Result<(), AllocError>
        ensures { OnOk result ((all done rest : List Located) (l : Located) → all ≡ done ++ l ∷ rest → start ≡ l.start → bucket ≡ bucket_of l
            → HasEntries all done self.old → HasEntries all (done ++ l ∷ []) self.new) }
    {
        if bucket >= self.taken.len() {
            return Err(AllocError);
        }
        let taken = self.taken[bucket];
        let Some(place) = place_at(self.places.as_slice(), bucket, taken) else {
            return Err(AllocError);
        };
        self.entries.add(start, place)?;
        self.taken[bucket] = taken + 1;
        Ok(())
    }

    /// Adds the entries of pieces that follow each other.
    fn add_all(&mut self, starts: &PieceStarts) -> Result<(), AllocError>
        ensures { OnOk result ((all done more rest : List Located) → all ≡ done ++ (more ++ rest) → HasStarts more starts.now
            → HasEntries all done self.old → HasEntries all (done ++ more) self.new) }
    {
        self.entries.make_room(starts.len())?;
        for index in 0..starts.len() {
            let (start, bucket) = starts.at(index)?;
            self.add(start, bucket)?;
        }
        Ok(())
    }
}

/// A place of a bucket.
fn place_at(places: &[Vec<BucketOffset>], bucket: usize, index: usize) -> Option<BucketOffset>
    ensures { IfSome result (λ p. (found : Vec BucketOffset Global) × (slice_get places.now bucket ≡ Some found) × (slice_get found.items index ≡ Some p)) }
{
    if bucket >= places.len() {
        return None;
    }
    let found = places[bucket].as_slice();
    if index >= found.len() {
        return None;
    }
    Some(found[index])
}

/// The map of all pieces of so many groups of so many bytes together, where buckets have these places.
pub(crate) fn entries_of<J: Brings>(
    alloc: Global,
    places: Vec<Vec<BucketOffset>>,
    starts: Vec<Mutex<GroupStarts<J>>>,
    groups: usize,
    bytes: u64,
) -> Result<OffsetMap, AllocError>
    requires work { IsWork J.work }
    requires groups { groups ≡ length J.work.groups }
    requires places { ArePlaces (pieces_in (located J.work.inputs)) places.items }
    ensures { IfOk result (HoldsIn (map (entry_of (pieces_in (located J.work.inputs))) (located J.work.inputs))) }
{
    let mut entries = Entries::new(alloc, places, bytes)?;
    let mut group = 0usize;
    for starts in starts {
        let starts = starts.into_inner();
        if starts.group() != group || group >= groups {
            return Err(AllocError);
        }
        let Some(starts) = starts.into_starts() else {
            return Err(AllocError);
        };
        entries.add_all(&starts)?;
        group += 1;
    }
    if group != groups {
        return Err(AllocError);
    }
    let Entries {
        places: _,
        taken: _,
        mut entries,
    } = entries;
    entries.shrink_to_fit();
    Ok(entries)
}
