//! Laws on pieces and on images.

ghost use Rattle.std.specs.Prelude.{◌≡◌, fold};
ghost use Rattle.std.specs.Hash as fed;
ghost use Rattle.std.specs.Ordering.{nat_cmp};
ghost use Rattle.lk_merge.specs.Groups.{GroupsCover};
ghost use Rattle.lk_merge.specs.Matrix.{MatrixMerges};
ghost use Rattle.lk_merge.specs.MatrixSteps.{CallsAreSteps};
ghost use Rattle.lk_merge.specs.Image.{BucketsGrow};
ghost use Rattle.lk_merge.specs.Inputs.{PiecesAreLocated};
ghost use Rattle.lk_merge.specs.MergedReferences.{MergedReferencesShow};
ghost use Rattle.lk_merge.specs.Merging.{FittingIsNotTooLong, LastStartIsFound};
ghost use Rattle.lk_merge.specs.OffsetsOutside.{OutsideIsRefused};
ghost use Rattle.lk_merge.specs.OutputAddresses.{MergedAddressesShow};
ghost use Rattle.lk_merge.specs.Pieces.{PiecesAreOne};
ghost use Rattle.lk_merge.specs.Places.{BucketsStart, ImageIsDistinct, OffsetsHavePlaces, PiecesHavePlaces};

use crate::offset::LinearInputOffset;
use std::cmp::Ordering;
use std::hash::{Hash, Hasher};

/// A law: an input has pieces exactly where it is terminated, and they are the ones that are found.
pub fn pieces_are_one()
    ensures { PiecesAreOne }
{}

/// A law: what a bucket keeps of more pieces is what it keeps of the first ones, and then those of the others before which
/// no equal one stands.
pub fn buckets_grow()
    ensures { BucketsGrow }
{}

/// A law: where none of what a bucket keeps is too long, one more piece fits behind it, or is the first that is too long.
pub fn fitting_is_not_too_long()
    ensures { FittingIsNotTooLong }
{}

/// A law: the pieces in their places are all pieces, in order, each as far behind its input's start as the pieces before it are
/// long.
pub fn pieces_are_located()
    ensures { PiecesAreLocated }
{}

/// A law: the input that is found at an offset is one that starts there, and no later one does.
pub fn last_start_is_found()
    ensures { LastStartIsFound }
{}

/// A law: the image shows each piece at its place; two pieces with bytes have one place exactly where they are equal, and
/// different ones don't overlap.
pub fn pieces_have_places()
    ensures { PiecesHavePlaces }
{}

/// A law: an offset of an input has a place exactly within the data, and from there on the image shows what the input has
/// from the offset to its piece's end.
pub fn offsets_have_places()
    ensures { OffsetsHavePlaces }
{}

/// A law: a piece stands in the image where its bucket starts, and as far behind as in the bucket.
pub fn buckets_start()
    ensures { BucketsStart }
{}

/// A law: the image holds each piece of the inputs once, and nothing else; so it is as long as its distinct pieces together.
pub fn image_is_distinct()
    ensures { ImageIsDistinct }
{}

/// A law: the groups into which inputs are cut hold each padded offset once, in order; none is empty, and none cuts a constant;
/// each piece is in the group in which it starts; and for each size above 0 there is one list of them.
pub fn groups_cover()
    ensures { GroupsCover }
{}

/// A law: in whatever order workers fill the matrix of groups and buckets and take from it, each bucket holds what merging keeps of the
/// groups that it has taken, and when all have taken all, the image is there.
pub fn matrix_merges()
    ensures { MatrixMerges }
{}

/// A law: what cells answer to strings and to buckets that come to them, and what buckets make of a group, are steps of that matrix,
/// but for a group at which a bucket stops, since its piece doesn't fit.
pub fn calls_are_steps<J>()
    ensures { CallsAreSteps J }
{}

/// A law: at the address of a reference the image shows what the input has, from the chosen offset to its piece's end.
pub fn merged_addresses_show()
    ensures { MergedAddressesShow }
{}

/// A law: a section in which a symbol is placed is an input of its output section; where merging refuses nothing, all inputs
/// are terminated; and at the address of each reference, but for the addend of a named symbol, the image shows what the input
/// has from the chosen offset to its piece's end.
pub fn merged_references_show()
    ensures { MergedReferencesShow }
{}

/// A law: exactly the references that choose an offset outside the data have no address, and exactly the named symbols that
/// are placed there no value.
pub fn outside_is_refused()
    ensures { OutsideIsRefused }
{}

/// A law: offsets into all inputs compare as their numbers.
pub fn offsets_compare_as_numbers(a: LinearInputOffset, b: LinearInputOffset) -> Ordering
    ensures { result ≡ nat_cmp a b }
{
    a.cmp(&b)
}

/// A law: an offset feeds a hasher its number and nothing else, in one write; so offsets with equal numbers feed the same bytes, and
/// only these.
pub fn offsets_hash_as_numbers<H: Hasher>(a: LinearInputOffset, b: LinearInputOffset, state: &mut H)
    ensures number { state.new ≡ fold H.write state.old (fed.u64 a) }
    ensures apart { fed.u64 a ≡ fed.u64 b → a ≡ b }
{
    a.hash(state);
}
