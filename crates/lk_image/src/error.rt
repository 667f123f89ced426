//! Why there is no image.

ghost use Rattle.std.specs.Prelude.{Some};
ghost use Rattle.std.specs.Fmt.{DisplaysOnOk};
ghost use Rattle.lk_image.specs.declared.error.ImageError.TheVariants as image;
ghost use Rattle.lk_image.specs.Texts.{error_text};

use lk_link::ids::FileId;
use std::alloc::{AllocError, AllocFailed};
use std::fmt;

/// The bytes that an image has at most.
pub const LONGEST_IMAGE: u64 = 1_073_741_824;

/// Why there is no image of a layout: the first refusal, in this order, or want of memory.
#[derive(Clone, Copy, Debug, PartialEq, Eq)]
pub enum ImageError {
    /// The link is to be relaxed.
    Relaxed,
    /// The image would be so many bytes long, and more than `LONGEST_IMAGE`.
    TooLong {
        len: u64,
    },
    /// A relocation would write past the end of its section: by its file, the section's index there, and its own there.
    NoRoom {
        file: FileId,
        section: usize,
        index: usize,
    },
    NoMemory,
}

/// As it is told; want of memory has no text.
impl fmt::Display for ImageError {
    ghost use Rattle.std.specs.Prelude.{Some};
    ghost use Rattle.lk_image.specs.Texts.{error_text};

    ghost output = { λ error. Some (error_text error) };

    #[tactic(auto, unfolding(crate::specs::Texts::error_text))]
    fn fmt<W: fmt::Write>(&self, f: &mut fmt::Formatter<W>) -> fmt::Result {
        match *self {
            ImageError::Relaxed => write!(f, "no image: relax"),
            ImageError::TooLong { len } => write_too_long(f, len),
            ImageError::NoRoom {
                file,
                section,
                index,
            } => write_no_room(f, file, section, index),
            ImageError::NoMemory => Ok(()),
        }
    }
}

/// Writes that an image would be too long.
#[tactic(auto, unfolding(crate::specs::Texts::error_text))]
fn write_too_long<W: fmt::Write>(f: &mut fmt::Formatter<W>, len: u64) -> fmt::Result
    ensures { DisplaysOnOk W.write_str_gives f.old result (Some (error_text (image.TooLong len))) f.new }
{
    write!(f, "no image: {len} bytes, limit {LONGEST_IMAGE}")
}

/// Writes that a relocation has no room.
#[tactic(auto, unfolding(crate::specs::Texts::error_text))]
fn write_no_room<W: fmt::Write>(
    f: &mut fmt::Formatter<W>,
    file: FileId,
    section: usize,
    index: usize,
) -> fmt::Result
    ensures { DisplaysOnOk W.write_str_gives f.old result (Some (error_text (image.NoRoom file section index))) f.new }
{
    let FileId { group, file } = file;
    write!(
        f,
        "no image: no room at {group} {file} {section} relocation {index}"
    )
}

impl From<AllocError> for ImageError {
    ghost use Rattle.std.specs.Prelude.{◌≡◌};
    ghost use Rattle.lk_image.specs.declared.error.ImageError.TheVariants.{NoMemory};

    ghost from_gives = { λ _ e. e ≡ NoMemory };

    fn from(_error: AllocError) -> ImageError {
        ImageError::NoMemory
    }
}

impl<T: Drop> From<AllocFailed<T>> for ImageError {
    ghost use Rattle.std.specs.Prelude.{◌≡◌};
    ghost use Rattle.lk_image.specs.declared.error.ImageError.TheVariants.{NoMemory};

    ghost from_gives = { λ _ e. e ≡ NoMemory };

    fn from(_error: AllocFailed<T>) -> ImageError {
        ImageError::NoMemory
    }
}
