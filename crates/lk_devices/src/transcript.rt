//! Bytes that only proofs read.

ghost use Rattle.std.specs.Prelude.{◌≡◌, ℕ, List, [], ◌++◌};
ghost use Rattle.std.specs.Borrow.{ftrue};

use std::marker::Model;

/// All bytes that were noted. It takes no memory and does nothing at run time: it lets contracts speak of bytes that
/// are not kept.
#[derive(Drop)]
pub(crate) struct Transcript {
    pub ghost bytes: { List ℕ },
}

impl Model for Transcript {
    ghost also_owns = { λ _. ftrue };
}

impl Transcript {
    pub(crate) fn new() -> Transcript
        ensures { result.bytes ≡ [] }
    {
        Transcript {}
    }

    pub(crate) fn with(&self, _piece: &[u8]) -> Transcript
        ensures { result.bytes ≡ self.now.bytes ++ _piece.now }
    {
        Transcript {}
    }
}
