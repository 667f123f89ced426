//! The cells of a matrix, in which the strings of a group and a bucket meet.

ghost use Rattle.std.specs.Prelude.{◌≡◌, ◌<◌, None, length};
ghost use Rattle.lk_grid.specs.Machine.{Empty, Waiting};
ghost use Rattle.lk_merge.specs.MatrixCells.{ComesTo, pieces_of_strings};
ghost use Rattle.lk_merge.specs.MatrixTables.{AreRight, Gets, Puts};
ghost use Rattle.lk_merge.specs.MatrixWork.{cell_pieces};

use crate::bucket_work::BucketWork;
use crate::matrix_work::Brings;
use crate::string::MergeString;
use std::marker::{Model, PhantomData};

/// What becomes of strings that come to a cell.
#[derive(Drop)]
pub enum Fill<'data, J: Brings> {
    /// Others came before; here they are again.
    Again(Vec<MergeString<'data>>),
    /// They are there, and the bucket that waited for them can go on.
    Freed(BucketWork<'data, J>),
    /// They are there.
    Kept,
}

/// What becomes of a bucket that comes to a cell.
#[derive(Drop)]
pub enum Take<'data, J: Brings> {
    /// It takes these.
    Strings(BucketWork<'data, J>, Vec<MergeString<'data>>),
    /// A bucket waits there, or was there before; here it is again.
    Again(BucketWork<'data, J>),
    /// It waits there.
    Waits,
}

/// The cell of a group and a bucket. The strings in it are the group's that go to the bucket, and a bucket that waits there has this group
/// for its next one. It lies behind a lock.
#[derive(Drop)]
pub struct MatrixCell<'data, J: Brings> {
    group: usize,
    bucket: usize,
    taken: bool,
    strings: Option<Vec<MergeString<'data>>>,
    waiting: Option<BucketWork<'data, J>>,
    of: PhantomData<J>,
}

impl<'data, J: Brings> Model for MatrixCell<'data, J> {
    ghost use Rattle.std.specs.Prelude.{option_map};
    ghost use Rattle.lk_merge.specs.MatrixCells.{CellValue, IsCell, cell_by, pieces_of_strings};

    ghost Value = { CellValue };

    ghost view = { λ a. record { group = a.group; bucket = a.bucket; cell = cell_by a.taken (option_map (λ s. pieces_of_strings s.items) a.strings) a.waiting } };

    ghost invariant = { λ a. IsCell J.work a.group a.bucket (option_map (λ s. pieces_of_strings s.items) a.strings) a.waiting };
}

impl<'data, J: Brings> MatrixCell<'data, J> {
    /// An empty cell.
    pub fn new(group: usize, bucket: usize) -> MatrixCell<'data, J>
        requires group { group < length J.work.groups }
        requires bucket { bucket < 16 }
        ensures { result ≡ record { group = group; bucket = bucket; cell = Empty } }
    {
        MatrixCell {
            group,
            bucket,
            taken: false,
            strings: None,
            waiting: None,
            of: PhantomData,
        }
    }

    /// A cell in which a bucket waits, whose next group is the cell's.
    pub fn awaited(waiting: BucketWork<'data, J>) -> MatrixCell<'data, J>
        requires going { waiting.state.refusal ≡ None }
        requires left { waiting.taken < length J.work.groups }
        ensures { result ≡ record { group = waiting.entry.taken; bucket = waiting.entry.number; cell = Waiting } }
    {
        MatrixCell {
            group: waiting.taken(),
            bucket: waiting.number(),
            taken: false,
            strings: None,
            waiting: Some(waiting),
            of: PhantomData,
        }
    }

    /// The group.
    pub fn group(&self) -> usize
        ensures { result ≡ self.now.group }
    {
        self.group
    }

    /// The bucket.
    pub fn bucket(&self) -> usize
        ensures { result ≡ self.now.bucket }
    {
        self.bucket
    }

    /// The strings of the group come to the cell. Takes no memory.
    pub fn fill(&mut self, strings: Vec<MergeString<'data>>) -> Fill<'data, J>
        requires { pieces_of_strings strings.items ≡ cell_pieces J.work self.old.group self.old.bucket }
        ensures { Puts self.old strings.entry.items result self.new }
    {
        if self.taken || self.strings.is_some() {
            return Fill::Again(strings);
        }
        self.strings = Some(strings);
        match self.waiting.take() {
            Some(bucket) => Fill::Freed(bucket),
            None => Fill::Kept,
        }
    }

    /// The bucket comes to the cell of its next group. Takes no memory.
    pub fn take(&mut self, bucket: BucketWork<'data, J>) -> Take<'data, J>
        requires { ComesTo self.old.group self.old.bucket bucket }
        ensures takes { Gets self.old bucket.entry result self.new }
        ensures right { AreRight J.work self.old result }
    {
        if self.taken {
            return Take::Again(bucket);
        }
        match self.strings.take() {
            Some(strings) => {
                self.taken = true;
                Take::Strings(bucket, strings)
            }
            None => {
                if self.waiting.is_some() {
                    return Take::Again(bucket);
                }
                self.waiting = Some(bucket);
                Take::Waits
            }
        }
    }
}
