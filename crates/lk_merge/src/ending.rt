//! What the buckets of a matrix have made of the pieces at the end.

ghost use Rattle.std.specs.Prelude.{◌≡◌, ◌+◌, false, IfOk, None, OnOk, length};
ghost use Rattle.lk_merge.specs.Endings.{HaveTaken};
ghost use Rattle.lk_merge.specs.Inputs.{located};
ghost use Rattle.lk_merge.specs.MatrixWork.{IsWork};
ghost use Rattle.lk_merge.specs.MergingTables.{HasMerged};

use crate::bucket::BUCKETS;
use crate::bucket_work::BucketWork;
use crate::group_starts::{GroupStarts, entries_of};
use crate::matrix_work::Brings;
use crate::merging::{BucketState, Merging};
use crate::offset::BucketOffset;
use crate::offset_map::OffsetMap;
use std::alloc::{AllocError, Global};
use std::sync::Mutex;

/// Takes the bucket with a number out of some, if it is there and has ended.
fn ended_bucket<'data, J: Brings>(
    ended: &mut Vec<BucketWork<'data, J>>,
    number: usize,
    groups: usize,
) -> Result<BucketWork<'data, J>, AllocError>
    ensures number { IfOk result (λ b. b.number ≡ number) }
    ensures ended { IfOk result (λ b. b.state.refusal ≡ None → b.taken ≡ groups) }
{
    for index in 0..ended.len() {
        if ended[index].number() == number {
            let bucket = ended.swap_remove(index);
            if bucket.number() != number {
                return Err(AllocError);
            }
            if !bucket.has_stopped() && bucket.taken() != groups {
                return Err(AllocError);
            }
            return Ok(bucket);
        }
    }
    Err(AllocError)
}

/// Buckets that have ended, by number, where their pieces stand, and whether one has stopped.
#[derive(Drop)]
pub(crate) struct Ended<'data> {
    states: Vec<BucketState<'data>>,
    places: Vec<Vec<BucketOffset>>,
    stopped: bool,
}

impl<'data> Ended<'data> {
    /// None so far.
    fn new(alloc: Global) -> Result<Ended<'data>, AllocError>
        ensures states { IfOk result (λ e. length e.states.items ≡ 0) }
        ensures places { IfOk result (λ e. length e.places.items ≡ 0) }
        ensures stopped { IfOk result (λ e. e.stopped ≡ false) }
    {
        Ok(Ended {
            states: Vec::with_capacity(alloc, BUCKETS)?,
            places: Vec::with_capacity(alloc, BUCKETS)?,
            stopped: false,
        })
    }

    /// Adds the next bucket, which has taken all groups or has stopped.
    fn add<J: Brings>(&mut self, bucket: BucketWork<'data, J>) -> Result<(), AllocError>
        requires { bucket.state.refusal ≡ None → bucket.taken ≡ length J.work.groups }
        ensures { OnOk result (HaveTaken J.work self.old → bucket.entry.number ≡ length self.old.states.items → HaveTaken J.work self.new × (length self.new.states.items ≡ length self.old.states.items + 1)) }
    {
        let stopped = bucket.has_stopped();
        let (state, places) = bucket.into_state();
        self.states.push(state)?;
        self.places.push(places)?;
        if stopped {
            self.stopped = true;
        }
        Ok(())
    }
}

/// All buckets, where each has ended.
fn gather<'data, J: Brings>(
    alloc: Global,
    ended: &mut Vec<BucketWork<'data, J>>,
    groups: usize,
) -> Result<Ended<'data>, AllocError>
    requires { groups ≡ length J.work.groups }
    ensures { IfOk result (λ e. HaveTaken J.work e × (length e.states.items ≡ 16)) }
{
    let mut all = Ended::new(alloc)?;
    for number in 0..BUCKETS {
        all.add(ended_bucket(ended, number, groups)?)?;
    }
    Ok(all)
}

/// What all buckets have made of the pieces of so many groups, where each has ended. The entries of the offset map are made only where none
/// has stopped.
pub(crate) fn merging_of<'data, J: Brings>(
    alloc: Global,
    ended: &mut Vec<BucketWork<'data, J>>,
    starts: Vec<Mutex<GroupStarts<J>>>,
    groups: usize,
    bytes: u64,
) -> Result<Merging<'data>, AllocError>
    requires work { IsWork J.work }
    requires groups { groups ≡ length J.work.groups }
    ensures { IfOk result (HasMerged J.work.section J.work.limit (located J.work.inputs)) }
{
    let Ended {
        states,
        places,
        stopped,
    } = gather(alloc, ended, groups)?;
    if stopped {
        return Ok(Merging {
            buckets: states,
            entries: OffsetMap::new(alloc),
        });
    }
    let entries = entries_of::<J>(alloc, places, starts, groups, bytes)?;
    Ok(Merging {
        buckets: states,
        entries,
    })
}
