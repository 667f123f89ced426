//! The text of an input that is too long.

ghost use Rattle.std.specs.Prelude.{◌≡◌, string_bytes, IfOk};
ghost use Rattle.lk_run.specs.TooLong.{too_long_text as too_long};

use lk_devices::limit::LONGEST_INPUT;
use std::alloc::{AllocError, Global};

/// The text that tells that an input is longer than `LONGEST_INPUT` bytes, a line with its line feed.
pub fn too_long_text(alloc: Global) -> Result<String, AllocError>
    ensures { IfOk result (λ text. string_bytes text ≡ too_long) }
{
    format!(in alloc; "input is longer than {LONGEST_INPUT} bytes\n")
}
