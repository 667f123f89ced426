//! The bytes of the output file, as far as a layout tells them: live sections with what their absolute relocations write, and merged data.
#![tactic(auto)]

mod contents;
pub mod error;
pub mod image;
pub mod laws;
mod merged;
mod places;
mod references;
mod room;
mod sections;

pub use crate::error::ImageError;
pub use crate::image::write_image;
