//! The matrix by which workers merge the inputs of an output section: for each group and bucket a cell behind a lock of its own, where each
//! group's pieces start, and what there is to do. Locks are taken in this order: a cell, then what there is to do.

ghost use Rattle.std.specs.Global.{Global};
ghost use Rattle.std.specs.Prelude.{◌≡◌, ◌≢◌, ◌<◌, ℕ, IfOk, IfSome, None, Some, Vec, length, slice_get};
ghost use Rattle.lk_merge.specs.Inputs.{located};
ghost use Rattle.lk_merge.specs.MatrixCells.{pieces_of_strings};
ghost use Rattle.lk_merge.specs.MatrixWork.{IsWork, cell_pieces, group_located};
ghost use Rattle.lk_merge.specs.MergingTables.{HasMerged};
ghost use Rattle.lk_merge.specs.PieceStarts.{HasStarts};
ghost use Rattle.lk_merge.specs.declared.string.MergeString.{MergeString};

use crate::bucket::BUCKETS;
use crate::bucket_work::BucketWork;
use crate::cell::{Fill, MatrixCell, Take};
use crate::ending::merging_of;
use crate::group_starts::GroupStarts;
use crate::group_strings::{GroupStrings, strings_of_group};
use crate::groups::SectionGroup;
use crate::inputs::{StringMergeInputSections, total_input_size};
use crate::matrix_work::Brings;
use crate::merging::Merging;
use crate::piece_starts::PieceStarts;
use crate::string::MergeString;
use lk_link::{Gate, OutputSectionId};
use std::alloc::{AllocError, Global};
use std::marker::Model;
use std::mem;
use std::sync::{Condvar, Mutex, Wait};

/// A group is begun only while at most so many strings lie in cells, or while no worker does anything. A string in a cell takes 24 bytes;
/// with no bound, where one bucket takes most strings, the groups would all lie in cells before it comes to them.
const MOST_AHEAD: usize = 1 << 16;

/// What there is to do, what is done, and how many workers do something or wait.
#[derive(Drop)]
struct Turns<'data, J: Brings> {
    /// The first group that no worker has begun.
    next_group: usize,
    /// How many strings groups have brought that their buckets haven't taken. Those of a bucket that has stopped, or was given up, stay.
    ahead: usize,
    /// Buckets that can go on.
    free: Vec<BucketWork<'data, J>>,
    /// Buckets that have taken all groups, or have stopped.
    ended: Vec<BucketWork<'data, J>>,
    running: u32,
    /// How many workers wait for something to do. Nobody is told of a change where none does.
    waiting: u32,
}

/// What a worker does next.
#[derive(Drop)]
pub(crate) enum Turn<'data, J: Brings> {
    /// It fills the cells of a group.
    Group(usize),
    /// It goes on with a bucket.
    Bucket(BucketWork<'data, J>),
}

/// A matrix of groups and buckets, which workers share.
#[derive(Drop)]
pub(crate) struct Matrix<'m, 'data, J: Brings> {
    inputs: &'m StringMergeInputSections<'data>,
    groups: &'m [SectionGroup],
    /// By group, then by bucket.
    cells: Vec<Vec<Mutex<MatrixCell<'data, J>>>>,
    starts: Vec<Mutex<GroupStarts<J>>>,
    turns: Mutex<Turns<'data, J>>,
    changed: Condvar,
}

impl<'m, 'data, J: Brings> Model for Matrix<'m, 'data, J> {
    ghost use Rattle.std.specs.Prelude.{◌≡◌, ℕ, length};
    ghost use Rattle.lk_merge.specs.MatrixWork.{IsWork};

    ghost Value = { ℕ };

    ghost view = { λ m. length m.groups.now };

    ghost invariant = { λ m. IsWork J.work × (m.inputs.now ≡ J.work.inputs) × (m.groups.now ≡ J.work.groups) };
}

impl<'m, 'data, J: Brings> Matrix<'m, 'data, J> {
    /// A matrix whose buckets wait for the first group. Takes a lock for each group and bucket, and one for each group.
    pub(crate) fn new(
        alloc: Global,
        inputs: &'m StringMergeInputSections<'data>,
        groups: &'m [SectionGroup],
        section: OutputSectionId,
        limit: u64,
    ) -> Result<Matrix<'m, 'data, J>, AllocError>
        requires work { IsWork J.work }
        requires section { section ≡ J.work.section }
        requires limit { limit ≡ J.work.limit }
        requires inputs { inputs.now ≡ J.work.inputs }
        requires groups { groups.now ≡ J.work.groups }
    {
        let mut cells = Vec::with_capacity(alloc, groups.len())?;
        let mut starts = Vec::with_capacity(alloc, groups.len())?;
        for group in 0..groups.len() {
            if group == 0 {
                cells.push(first_cells(alloc, section, limit)?)?;
            } else {
                cells.push(empty_cells(alloc, group)?)?;
            }
            starts.push(Mutex::new(GroupStarts::new(group)))?;
        }
        let turns = Turns {
            next_group: 0,
            ahead: 0,
            free: Vec::with_capacity(alloc, BUCKETS)?,
            ended: Vec::with_capacity(alloc, BUCKETS)?,
            running: 0,
            waiting: 0,
        };
        Ok(Matrix {
            inputs,
            groups,
            cells,
            starts,
            turns: Mutex::new(turns),
            changed: Condvar::new(),
        })
    }

    /// Strings come to their cell; a bucket that waited for them can go on.
    fn fill_cell<R: Wait>(
        &self,
        rt: &R,
        group: usize,
        bucket: usize,
        strings: Vec<MergeString<'data>>,
    )
        requires { pieces_of_strings strings.items ≡ cell_pieces J.work group bucket }
    {
        let Some(cells) = self.cells.as_slice().get(group) else {
            return;
        };
        let Some(cell) = cells.as_slice().get(bucket) else {
            return;
        };
        let mut cell = cell.lock(rt);
        let cell = &mut *cell;
        if cell.group() != group || cell.bucket() != bucket {
            return;
        }
        if let Fill::Freed(bucket) = cell.fill(strings) {
            self.free(rt, bucket);
        }
    }

    /// A bucket can go on.
    fn free<R: Wait>(&self, rt: &R, bucket: BucketWork<'data, J>) {
        let mut turns = self.turns.lock(rt);
        let turns = &mut *turns;
        if let Ok(()) = turns.free.push(bucket)
            && turns.waiting != 0
        {
            self.changed.notify_one();
        }
    }

    /// A group brings so many strings.
    fn add_ahead<R: Wait>(&self, rt: &R, strings: usize) {
        let mut turns = self.turns.lock(rt);
        let turns = &mut *turns;
        turns.ahead = turns.ahead.saturating_add(strings);
    }

    /// A bucket takes so many strings. Those that wait can begin groups once few enough are left.
    fn take_ahead<R: Wait>(&self, rt: &R, strings: usize) {
        if strings == 0 {
            return;
        }
        let mut turns = self.turns.lock(rt);
        let turns = &mut *turns;
        let before = turns.ahead;
        turns.ahead = before.saturating_sub(strings);
        if before > MOST_AHEAD && turns.ahead <= MOST_AHEAD && turns.waiting != 0 {
            self.changed.notify_all();
        }
    }

    /// A bucket has taken all groups, or has stopped.
    fn end<R: Wait>(&self, rt: &R, bucket: BucketWork<'data, J>) {
        let mut turns = self.turns.lock(rt);
        let turns = &mut *turns;
        drop(turns.ended.push(bucket));
    }

    /// Where a group's pieces start is told.
    fn tell_starts<R: Wait>(&self, rt: &R, group: usize, starts: PieceStarts)
        requires { HasStarts (group_located J.work group) starts }
    {
        let Some(told) = self.starts.as_slice().get(group) else {
            return;
        };
        let mut told = told.lock(rt);
        let told = &mut *told;
        if told.group() == group {
            told.tell(starts);
        }
    }

    /// Fills the cells of a group, one after the other. The gate is entered before each, with no lock held. Without memory the cells stay
    /// empty, and the buckets wait for good.
    pub(crate) fn fill_group<R: Wait, G: Gate>(&self, rt: &R, alloc: Global, gate: &G, group: usize)
        requires { G.may_enter gate.now }
    {
        if group >= self.groups.len() {
            return;
        }
        let bounds = self.groups[group];
        let Ok(brought) = strings_of_group(alloc, self.inputs, bounds) else {
            return;
        };
        let GroupStrings { buckets, starts } = brought;
        self.add_ahead(rt, starts.len());
        self.tell_starts(rt, group, starts);
        self.fill_cells(rt, alloc, gate, group, buckets);
    }

    /// Brings the strings of a group to their cells, by bucket.
    fn fill_cells<R: Wait, G: Gate>(
        &self,
        rt: &R,
        alloc: Global,
        gate: &G,
        group: usize,
        buckets: Vec<Vec<MergeString<'data>>>,
    )
        requires gate { G.may_enter gate.now }
        requires strings { (b : ℕ) (found : Vec MergeString Global) → slice_get buckets.items b ≡ Some found → pieces_of_strings found.items ≡ cell_pieces J.work group b }
    {
        let mut buckets = buckets;
        let number = u32::try_from(group).unwrap_or(u32::MAX);
        for bucket in 0..buckets.len() {
            let mut strings = take_out(alloc, &mut buckets, bucket);
            // They may wait in their cell for long.
            strings.shrink_to_fit();
            gate.enter(number);
            self.fill_cell(rt, group, bucket, strings);
        }
    }

    /// A bucket comes to the cell of its next group, and goes on with the strings there, where they are.
    fn take_cell<R: Wait>(
        &self,
        rt: &R,
        bucket: BucketWork<'data, J>,
    ) -> Option<(BucketWork<'data, J>, Vec<MergeString<'data>>)>
        requires { bucket.state.refusal ≡ None }
        ensures { IfSome result (λ r. (r.0.state.refusal ≡ None) × (r.0.taken < length J.work.groups) × (pieces_of_strings r.1.items ≡ cell_pieces J.work r.0.taken r.0.number)) }
    {
        let cells = self.cells.as_slice().get(bucket.taken())?;
        let cell = cells.as_slice().get(bucket.number())?;
        let mut cell = cell.lock(rt);
        let cell = &mut *cell;
        if cell.group() != bucket.taken() || cell.bucket() != bucket.number() {
            return None;
        }
        match cell.take(bucket) {
            Take::Strings(bucket, strings) => Some((bucket, strings)),
            Take::Again(_) => None,
            Take::Waits => None,
        }
    }

    /// A bucket takes the strings of its next group, and comes back if it can go on; else it waits for them, or is at its end. Without
    /// memory it is given up.
    fn step<R: Wait>(&self, rt: &R, bucket: BucketWork<'data, J>) -> Option<BucketWork<'data, J>> {
        if bucket.has_stopped() {
            return None;
        }
        let (bucket, strings) = self.take_cell(rt, bucket)?;
        self.take_ahead(rt, strings.len());
        let Ok(bucket) = bucket.take_group(strings.as_slice()) else {
            return None;
        };
        if bucket.has_stopped() || bucket.taken() >= self.groups.len() {
            self.end(rt, bucket);
            return None;
        }
        Some(bucket)
    }

    /// Goes on with a bucket from group to group until it waits, stops, or has taken all.
    pub(crate) fn run_bucket<R: Wait>(&self, rt: &R, bucket: BucketWork<'data, J>) {
        let mut next = self.step(rt, bucket);
        for _ in rt.forever() {
            let Some(bucket) = next else {
                return;
            };
            next = self.step(rt, bucket);
        }
    }

    /// What a worker does next: a bucket that can go on, else a group that no worker has begun; none once there is neither and no worker
    /// does anything. Waits until then, and while too many strings lie in cells, but never where no worker does anything: what lies in
    /// cells may then lie there for good.
    pub(crate) fn next<R: Wait>(&self, rt: &R) -> Option<Turn<'data, J>> {
        let count = self.groups.len();
        let mut turns = self.turns.lock(rt);
        turns.waiting = turns.waiting.wrapping_add(1);
        let mut turns = self
            .changed
            .wait_while(rt, turns, |turns: &mut Turns<'_, J>| {
                turns.free.is_empty()
                    && turns.running != 0
                    && (turns.next_group >= count || turns.ahead > MOST_AHEAD)
            });
        let turns = &mut *turns;
        turns.waiting = turns.waiting.wrapping_sub(1);
        if let Some(bucket) = turns.free.pop() {
            turns.running = turns.running.wrapping_add(1);
            return Some(Turn::Bucket(bucket));
        }
        if turns.next_group >= count {
            return None;
        }
        let group = turns.next_group;
        turns.next_group += 1;
        turns.running = turns.running.wrapping_add(1);
        Some(Turn::Group(group))
    }

    /// A worker has done what it was to do. Those that wait go on where none does anything any more.
    pub(crate) fn finish<R: Wait>(&self, rt: &R) {
        let mut turns = self.turns.lock(rt);
        let turns = &mut *turns;
        turns.running = turns.running.wrapping_sub(1);
        if turns.running == 0 && turns.waiting != 0 {
            self.changed.notify_all();
        }
    }

    /// What all buckets have made of the pieces, where each has ended. Refused where one hasn't, or where it isn't told where the pieces
    /// of a group start.
    pub(crate) fn close(self, alloc: Global) -> Result<Merging<'data>, AllocError>
        ensures { IfOk result (HasMerged J.work.section J.work.limit (located J.work.inputs)) }
    {
        let Matrix {
            inputs,
            groups,
            cells: _,
            starts,
            turns,
            changed: _,
        } = self;
        let Turns {
            next_group: _,
            ahead: _,
            free: _,
            mut ended,
            running: _,
            waiting: _,
        } = turns.into_inner();
        merging_of(
            alloc,
            &mut ended,
            starts,
            groups.len(),
            total_input_size(inputs),
        )
    }
}

/// Takes strings out of a list of lists.
fn take_out<'data>(
    alloc: Global,
    buckets: &mut Vec<Vec<MergeString<'data>>>,
    bucket: usize,
) -> Vec<MergeString<'data>>
    requires { bucket < length buckets.old.items }
    ensures there { slice_get buckets.old.items bucket ≡ Some result }
    ensures count { length buckets.new.items ≡ length buckets.old.items }
    ensures others { (b : ℕ) → b ≢ bucket → slice_get buckets.new.items b ≡ slice_get buckets.old.items b }
{
    mem::replace(&mut buckets[bucket], Vec::new(alloc))
}

/// The cells of the first group: a bucket waits in each.
fn first_cells<'data, J: Brings>(
    alloc: Global,
    section: OutputSectionId,
    limit: u64,
) -> Result<Vec<Mutex<MatrixCell<'data, J>>>, AllocError>
    requires work { IsWork J.work }
    requires some { 0 < length J.work.groups }
    requires section { section ≡ J.work.section }
    requires limit { limit ≡ J.work.limit }
{
    let mut cells = Vec::with_capacity(alloc, BUCKETS)?;
    for number in 0..BUCKETS {
        let bucket = BucketWork::new(alloc, section, number, limit);
        cells.push(Mutex::new(MatrixCell::awaited(bucket)))?;
    }
    Ok(cells)
}

/// The cells of a group, all empty.
fn empty_cells<'data, J: Brings>(
    alloc: Global,
    group: usize,
) -> Result<Vec<Mutex<MatrixCell<'data, J>>>, AllocError>
    requires { group < length J.work.groups }
{
    let mut cells = Vec::with_capacity(alloc, BUCKETS)?;
    for bucket in 0..BUCKETS {
        cells.push(Mutex::new(MatrixCell::new(group, bucket)))?;
    }
    Ok(cells)
}
