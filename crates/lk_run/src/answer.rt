//! What a run tells.

ghost use Rattle.std.specs.Prelude.{◌≡◌, string_bytes};
ghost use Rattle.lk_run.specs.Run.{done, refused, unreadable};

use crate::status::Status;
use lk_link::list::List;

/// A status, and the bytes that are written with it: a text, or an image.
#[derive(Drop)]
pub struct Answer {
    pub status: Status,
    pub bytes: List<u8>,
}

/// The bytes of a text. Copies nothing.
fn bytes_of(text: String) -> List<u8>
    ensures { result ≡ string_bytes text }
{
    List::from_vec(text.into_bytes())
}

/// The answer of a command that is done, and tells this.
pub(crate) fn done(text: String) -> Answer
    ensures { result ≡ done (string_bytes text) }
{
    Answer {
        status: Status::Done,
        bytes: bytes_of(text),
    }
}

/// That of one that is done, and tells these bytes. Copies nothing.
pub(crate) fn done_with(bytes: Vec<u8>) -> Answer
    ensures { result ≡ done bytes.items }
{
    Answer {
        status: Status::Done,
        bytes: List::from_vec(bytes),
    }
}

/// That of one that speaks of what is refused, for this reason.
pub(crate) fn refused(text: String) -> Answer
    ensures { result ≡ refused (string_bytes text) }
{
    Answer {
        status: Status::Refused,
        bytes: bytes_of(text),
    }
}

/// That of one whose source holds nothing that it reads, for this reason.
pub(crate) fn unreadable(text: String) -> Answer
    ensures { result ≡ unreadable (string_bytes text) }
{
    Answer {
        status: Status::Unreadable,
        bytes: bytes_of(text),
    }
}
