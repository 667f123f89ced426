//! Merged strings, as they are promised.

ghost use Rattle.std.specs.Prelude.{◌≡◌, ◌<◌, ℕ, IfSome, MatchOption, None, Some, length, slice_get};
ghost use Rattle.lk_grid.specs.Machine.{Taken};
ghost use Rattle.lk_merge.specs.Buckets.{Adds};
ghost use Rattle.lk_merge.specs.Hash.{fnv64};
ghost use Rattle.lk_merge.specs.Inputs.{input_start};
ghost use Rattle.lk_merge.specs.Merging.{found_place};
ghost use Rattle.lk_merge.specs.MatrixCells.{ComesTo, pieces_of_strings, with_cell};
ghost use Rattle.lk_merge.specs.MatrixTables.{AreRight, Gets};
ghost use Rattle.lk_merge.specs.MatrixWork.{cell_pieces};
ghost use Rattle.lk_merge.specs.Pieces.{MergeInput};
ghost use Rattle.lk_merge.specs.Places.{IsPlaceAt};

use lk_merge::{
    Brings, BucketOffset, BucketWork, LinearInputOffset, MatrixCell, MergeError, MergeString,
    MergeStringsSectionBucket, MergedStringsSection, Take, find_string,
};

/// What `add_string` of a bucket of lk_merge does.
pub fn add_string_as_stated<'data>(
    bucket: &mut MergeStringsSectionBucket<'data>,
    string: MergeString<'data>,
) -> Result<BucketOffset, MergeError>
    requires { 0 < length string.bytes.now }
    ensures { Adds bucket.old string.entry.bytes.now result bucket.new }
{
    bucket.add_string(string)
}

/// What `take` of a cell of lk_merge does.
pub fn take_as_stated<'data, J: Brings>(
    cell: &mut MatrixCell<'data, J>,
    bucket: BucketWork<'data, J>,
) -> Take<'data, J>
    requires { ComesTo cell.old.group cell.old.bucket bucket }
    ensures takes { Gets cell.old bucket.entry result cell.new }
    ensures right { AreRight J.work cell.old result }
{
    cell.take(bucket)
}

/// What `take` gives a bucket that goes on and looks before it whether the cell is its own: the strings of its next group, and of no other.
pub fn take_next_as_stated<'data, J: Brings>(
    cell: &mut MatrixCell<'data, J>,
    bucket: BucketWork<'data, J>,
) -> Option<(BucketWork<'data, J>, Vec<MergeString<'data>>)>
    requires { bucket.state.refusal ≡ None }
    ensures takes { IfSome result (λ r. (r.0 ≡ bucket.entry) × (cell.new ≡ with_cell cell.old Taken)) }
    ensures right { IfSome result (λ r. pieces_of_strings r.1.items ≡ cell_pieces J.work r.0.taken r.0.number) }
{
    if cell.group() != bucket.taken() || cell.bucket() != bucket.number() {
        return None;
    }
    match cell.take(bucket) {
        Take::Strings(bucket, strings) => Some((bucket, strings)),
        Take::Again(_) | Take::Waits => None,
    }
}

/// What `find_string` of lk_merge does.
pub fn find_string_as_stated(
    section: &MergedStringsSection<'_>,
    start: LinearInputOffset,
    offset: u64,
) -> Option<BucketOffset>
    ensures found { result ≡ found_place fnv64 section.now start offset }
    ensures apart { (k : ℕ) (x : MergeInput) → slice_get section.now k ≡ Some x → input_start section.now k ≡ start → offset < length x.bytes
        → MatchOption result ⊥ (IsPlaceAt section.now x offset) }
{
    find_string(section, start, offset)
}
