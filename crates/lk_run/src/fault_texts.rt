//! The texts of refusals of layouts and of descriptions, each a line with its line feed.

ghost use Rattle.std.specs.Prelude.{◌≡◌, ◌≢◌, string_bytes, IfOk};
ghost use Rattle.lk_run.specs.FaultText.{fault_text_of, input_fault_text_of};

use lk_input::InputError;
use lk_layout::error::LayoutError;
use std::alloc::{AllocError, Global};

/// The text that tells why a link isn't laid out, for each reason but want of memory.
pub fn fault_text(alloc: Global, fault: &LayoutError) -> Result<String, AllocError>
    requires { fault.now ≢ LayoutError.NoMemory }
    ensures { IfOk result (λ text. string_bytes text ≡ fault_text_of fault.now) }
{
    format!(in alloc; "{fault}\n")
}

/// The text that tells why bytes are no link description, for each reason but want of memory.
pub fn input_fault_text(alloc: Global, fault: &InputError) -> Result<String, AllocError>
    requires { fault.now ≢ InputError.NoMemory }
    ensures { IfOk result (λ text. string_bytes text ≡ input_fault_text_of fault.now) }
{
    format!(in alloc; "{fault}\n")
}
