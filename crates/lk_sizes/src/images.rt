//! Where the merged images of output sections stand: each first in its part.

ghost use Rattle.std.specs.Prelude.{◌≡◌, ◌<◌, IfOk, IfSome, length, position, slice_index};
ghost use Rattle.std.specs.Option.{option_map_or};
ghost use Rattle.lk_link.specs.Parts.{all_parts};
ghost use Rattle.lk_sizes.specs.Contents.{part_contents};
ghost use Rattle.lk_sizes.specs.Images.{image_addresses};
ghost use Rattle.lk_sizes.specs.Owners.{Filling, in_link};

use crate::owners::PartContents;
use lk_link::LinkInput;
use std::alloc::{AllocError, Global};

/// For each output section the address of its merged image, by what comes into the parts and where they start in memory; 0
/// where nothing is merged. Looks at each part once.
#[tactic(auto, using(lk_link::proofs::PartNumbers::part_numbers))]
pub fn image_addresses(
    alloc: Global,
    link: &LinkInput,
    contents: &[PartContents],
    starts: &[u64],
) -> Result<Vec<u64>, AllocError>
    requires count { length contents.now ≡ length (all_parts link.now.plan.sections) }
    requires starts { length starts.now ≡ length (all_parts link.now.plan.sections) }
    ensures { (filling : Filling) → contents.now ≡ part_contents (in_link link.now filling)
        → IfOk result (λ addresses. addresses.items ≡ image_addresses (in_link link.now filling) starts.now) }
{
    let sections = &link.plan.sections;
    let mut addresses = Vec::with_capacity(alloc, sections.len())?;
    for number in 0..sections.len() {
        let (first, behind) = sections.part_range(number);
        addresses.push(image_start(&contents[first..behind], &starts[first..behind]))?;
    }
    Ok(addresses)
}

/// Where the first of some parts with an image starts, if there is one.
fn image_start(parts: &[PartContents], starts: &[u64]) -> u64
    requires { length starts.now ≡ length parts.now }
    ensures { result ≡ option_map_or (slice_index starts.now) (position (λ c. c.has_image) parts.now) 0 }
{
    match first_image(parts) {
        Some(place) => starts[place],
        None => 0,
    }
}

/// The place of the first of some parts with an image, if there is one.
fn first_image(parts: &[PartContents]) -> Option<usize>
    ensures found { result ≡ position (λ c. c.has_image) parts.now }
    ensures inside { IfSome result (λ place. place < length parts.now) }
{
    parts.iter().position(|part| part.has_image)
}
