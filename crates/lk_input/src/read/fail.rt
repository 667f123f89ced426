//! Why reading stopped.

ghost use Rattle.std.specs.Prelude.{◌≡◌};
ghost use Rattle.lk_input.specs.declared.read.fail.Fail.TheVariants.{NotJson, NoMemory};

use std::alloc::{AllocError, AllocFailed};

/// Why tokens were read no further.
#[derive(Clone, Copy, Drop)]
pub(crate) enum Fail {
    /// The tokens are none of a JSON text.
    NotJson,
    /// Memory ran out.
    NoMemory,
}

impl From<AllocError> for Fail {
    ghost from_gives = { λ _ e. e ≡ NoMemory };

    fn from(_e: AllocError) -> Fail {
        Fail::NoMemory
    }
}

impl<T: Drop> From<AllocFailed<T>> for Fail {
    ghost from_gives = { λ _ e. e ≡ NoMemory };

    fn from(_e: AllocFailed<T>) -> Fail {
        Fail::NoMemory
    }
}

impl From<json::Invalid> for Fail {
    ghost from_gives = { λ _ e. e ≡ NotJson };

    fn from(_e: json::Invalid) -> Fail {
        Fail::NotJson
    }
}
