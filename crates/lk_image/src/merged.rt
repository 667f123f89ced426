//! The bytes of merged data in the file.

ghost use Rattle.std.specs.Prelude.{◌≡◌, ◌+◌, ◌<◌, ◌≤◌, Some, fold, length, map, slice_get};
ghost use Rattle.std.specs.List.{concat, enumerate_from, flat_map};
ghost use Rattle.lk_merge.specs.Buckets.{piece_of};
ghost use Rattle.lk_merge.specs.Hash.{fnv64};
ghost use Rattle.lk_merge.specs.Image.{all_pieces, image as merged_image};
ghost use Rattle.lk_image.specs.Image.{merged_stretch};
ghost use Rattle.lk_image.specs.Places.{image_length};
ghost use Rattle.lk_image.specs.Ready.{IsReady};
ghost use Rattle.lk_image.specs.Stretches.{put, with_stretch};

use crate::places::{merged_file_part, merged_place};
use lk_layout::{Layout, MergedStringsSection};
use lk_link::link::LinkInput;
use lk_merge::{MergeString, MergeStringsSectionBucket};

/// Writes what is merged in each output section whose bytes stand in the file. Looks at each distinct piece once.
pub(crate) fn write_merged(image: &mut [u8], link: &LinkInput, layout: &Layout<'_>)
    requires ready { IsReady link.now layout.now }
    requires long { length image.now ≡ image_length layout.now }
    ensures written { image.new ≡ fold with_stretch image.old (flat_map (merged_stretch link.now layout.now) (enumerate_from 0 layout.now.merged_strings)) }
    ensures long { length image.new ≡ length image.old }
{
    for (section, merged) in layout.merged_strings().iter().enumerate() {
        write_section(image, link, layout, section, merged);
    }
}

/// Writes what is merged in the output section with this number, if its bytes stand in the file.
fn write_section(
    image: &mut [u8],
    link: &LinkInput,
    layout: &Layout<'_>,
    section: usize,
    merged: &MergedStringsSection<'_>,
)
    requires ready { IsReady link.now layout.now }
    requires there { slice_get layout.now.merged_strings section ≡ Some merged.now }
    requires long { length image.now ≡ image_length layout.now }
    ensures written { image.new ≡ fold with_stretch image.old (merged_stretch link.now layout.now (section, merged.now)) }
    ensures long { length image.new ≡ length image.old }
{
    if merged.len() == 0 {
        return;
    }
    if let Some(part) = merged_file_part(link, section) {
        let at = merged_place(layout, section, part) as usize;
        write_image_of(image, at, merged);
    }
}

/// Writes what is merged in an output section, from an offset on.
fn write_image_of(image: &mut [u8], at: usize, merged: &MergedStringsSection<'_>)
    requires { at + length (merged_image fnv64 (all_pieces merged.now)) ≤ length image.now }
    ensures written { image.new ≡ put at (merged_image fnv64 (all_pieces merged.now)) image.old }
    ensures long { length image.new ≡ length image.old }
{
    write_buckets(image, at, merged.buckets());
}

/// Writes the pieces of some buckets one behind the other, from an offset on.
fn write_buckets(image: &mut [u8], at: usize, buckets: &[MergeStringsSectionBucket<'_>])
    requires { at + length (flat_map (λ b. concat b.pieces) buckets.now) ≤ length image.now }
    ensures written { image.new ≡ put at (flat_map (λ b. concat b.pieces) buckets.now) image.old }
    ensures long { length image.new ≡ length image.old }
{
    let mut at = at;
    for bucket in buckets {
        at = write_strings(image, at, bucket.strings());
    }
}

/// Writes some pieces one behind the other, from an offset on, and answers where they end.
fn write_strings(image: &mut [u8], at: usize, strings: &[MergeString<'_>]) -> usize
    requires { at + length (flat_map piece_of strings.now) ≤ length image.now }
    ensures written { image.new ≡ put at (flat_map piece_of strings.now) image.old }
    ensures long { length image.new ≡ length image.old }
    ensures end { result ≡ at + length (flat_map piece_of strings.now) }
{
    let mut at = at;
    for string in strings {
        let bytes = string.as_bytes();
        write_bytes(image, at, bytes);
        at += bytes.len();
    }
    at
}

/// Writes bytes at an offset.
fn write_bytes(image: &mut [u8], at: usize, bytes: &[u8])
    requires { at + length bytes.now ≤ length image.now }
    ensures written { image.new ≡ put at bytes.now image.old }
    ensures long { length image.new ≡ length image.old }
{
    image[at..at + bytes.len()].copy_from_slice(bytes);
}
