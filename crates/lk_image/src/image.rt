//! The image of a layout.

ghost use Rattle.std.specs.Prelude.{◌≡◌, ◌≤◌, IfOk, MatchResult, None, Some, fold, length, replicate};
ghost use Rattle.lk_link.specs.WellFormed.{IsWellFormed};
ghost use Rattle.lk_image.specs.Given.{IsImage, IsRefused};
ghost use Rattle.lk_image.specs.Image.{image_of};
ghost use Rattle.lk_image.specs.Laid.{IsLayoutOf};
ghost use Rattle.lk_image.specs.Ready.{IsReady};
ghost use Rattle.lk_image.specs.Places.{image_length};
ghost use Rattle.lk_image.specs.Refusals.{image_refusal};
ghost use Rattle.lk_image.specs.declared.error.ImageError.TheVariants.{NoMemory};

use crate::error::{ImageError, LONGEST_IMAGE};
use crate::merged::write_merged;
use crate::places::image_length;
use crate::room::check_room;
use crate::sections::write_sections;
use lk_layout::Layout;
use lk_layout::laws::laid_out_links_are_well_formed;
use lk_link::link::LinkInput;
use lk_size_laws::laws::live_sections_are_owners;
use lk_soundness::laws::laid_out_file_has_one_owner;
use std::alloc::{AllocError, Global};

/// The bytes of the output file, as far as a layout tells them: live sections with what their absolute relocations write, and merged data;
/// all else is zero. Refused, in this order, where the link is to be relaxed, where the image is longer than `LONGEST_IMAGE`, where a
/// relocation has no room in its section, and for want of memory. Takes one pass over the input sections before memory is taken, and
/// one to write.
pub fn write_image(
    alloc: Global,
    link: &LinkInput,
    layout: &Layout<'_>,
) -> Result<Vec<u8>, ImageError>
    requires laid { IsLayoutOf link.now layout.now }
    ensures { MatchResult result (λ image. IsImage link.now layout.now image.items) (IsRefused link.now layout.now) }
{
    // Laws, which do nothing: the link is well formed, and all stands inside the image.
    laid_out_links_are_well_formed();
    laid_out_file_has_one_owner();
    live_sections_are_owners();
    check_image(link, layout)?;
    let image = image_bytes(alloc, link, layout)?;
    Ok(image)
}

/// Refuses what has no image.
fn check_image(link: &LinkInput, layout: &Layout<'_>) -> Result<(), ImageError>
    requires good { IsWellFormed link.now }
    ensures { MatchResult result (λ _. image_refusal link.now layout.now ≡ None) (λ e. image_refusal link.now layout.now ≡ Some e) }
{
    if link.options.relax {
        return Err(ImageError::Relaxed);
    }
    let len = image_length(layout);
    if len > LONGEST_IMAGE {
        return Err(ImageError::TooLong { len });
    }
    check_room(link, layout)
}

/// The bytes of the image of a layout that isn't refused.
fn image_bytes(alloc: Global, link: &LinkInput, layout: &Layout<'_>) -> Result<Vec<u8>, AllocError>
    requires ready { IsReady link.now layout.now }
    requires unrefused { image_refusal link.now layout.now ≡ None }
    ensures { IfOk result (λ image. image.items ≡ image_of link.now layout.now) }
{
    let mut image = vec![in alloc; 0u8; image_length(layout) as usize]?;
    write_sections(image.as_mut_slice(), link, layout);
    write_merged(image.as_mut_slice(), link, layout);
    Ok(image)
}
