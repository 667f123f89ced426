//! What is merged of a link, with the lengths of images.

ghost use Rattle.std.specs.Prelude.{◌≡◌, IfOk};
ghost use Rattle.lk_resolutions.specs.OutputContent.{lens_of};

use lk_link::List;
use lk_merge::MergedStringsSection;
use std::alloc::{AllocError, Global};

/// The merged sections of a link, and the bytes of their images, by output section.
#[derive(Drop)]
pub struct Images<'data> {
    pub sections: List<MergedStringsSection<'data>>,
    pub lens: Vec<u64>,
}

/// How many bytes the image of each of some merged sections has.
#[tactic(auto, unfolding(crate::specs::OutputContent::lens_of))]
pub fn image_lens(
    alloc: Global,
    merged: &[MergedStringsSection<'_>],
) -> Result<Vec<u64>, AllocError>
    ensures { IfOk result (λ lens. lens.items ≡ lens_of merged.now) }
{
    let mut lens = Vec::with_capacity(alloc, merged.len())?;
    for section in merged {
        lens.push(section.len())?;
    }
    Ok(lens)
}
