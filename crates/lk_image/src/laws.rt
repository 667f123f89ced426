//! Laws on images.

ghost use Rattle.lk_image.specs.Laws.{ImagesAreMade};
ghost use Rattle.lk_image.specs.StretchLaws.{LaidOutIsMade, MadeIsOne};

use lk_layout::laws::laid_out_links_are_well_formed;
use lk_size_laws::laws::live_sections_are_owners;
use lk_soundness::laws::laid_out_file_has_one_owner;

/// A law: what is laid out over zeros is made of its stretches, where these are apart and end within it.
pub fn laid_out_is_made()
    ensures { LaidOutIsMade }
{}

/// A law: what is made of the same stretches is the same, so their order plays no part.
pub fn made_is_one()
    ensures { MadeIsOne }
{}

/// A law: the image of a layout that isn't refused is made of the bytes of its live sections and merged data, which are apart: each stands at
/// its place, and every other byte is zero.
pub fn images_are_made()
    ensures { ImagesAreMade }
{
    laid_out_links_are_well_formed();
    laid_out_file_has_one_owner();
    live_sections_are_owners();
}
