//! Objects of which each known member is read where it stands.
//!
//! A member is kept as what was read of it, or as the path of the first wrong shape in it, the last of equal keys in place of the
//! one before. Members that the format doesn't know are passed over. Once all are there, they are taken in the order of the format.

ghost use Rattle.std.specs.Prelude.{◌≡◌, List as Items, ℕ};
ghost use Rattle.serde_json.specs.Data.{Members, no_members};
ghost use Rattle.lk_input.specs.Known.{Gathers, Keeps, kept_needed, kept_optional};
ghost use Rattle.lk_input.specs.ReadingSteps.{Reads};
ghost use Rattle.lk_pieces.specs.Tokens.{data_at};
ghost use Rattle.lk_input.specs.Tokens.{Stands, anything};
ghost use Rattle.json.specs.Json.{parse_map};

use crate::read::error::InputError;
use crate::read::fail::Fail;
use crate::read::kept::Kept;
use crate::read::tokens::value_at;
use crate::read::word::{Step, Word};
use json::Reader;
use lk_link::text::Text;
use std::alloc::Global;

/// The members of an object, each as what is read of it.
pub(crate) trait Known: Sized + Drop {
    /// What is kept of all members of an object.
    ghost kept: { Members → Self };

    /// What is kept of an object without members.
    fn none() -> Self
        ensures { result ≡ kept no_members };

    /// Reads the member with this key, which stands next, in place of what was kept of it.
    fn take(
        &mut self,
        alloc: Global,
        key: &str,
        reader: &mut Reader<'_>,
        depth: usize,
    ) -> Result<(), Fail>
        ensures { Keeps kept key.now depth self.old reader.old result self.new reader.new };
}

/// Reads the members up to the end of an object, each in place of what was kept of it.
pub(crate) fn stream_known<K: Known>(
    alloc: Global,
    known: &mut K,
    reader: &mut Reader<'_>,
    depth: usize,
) -> Result<(), Fail>
    ensures { Gathers K.kept depth known.old reader.old result known.new reader.new }
{
    'members: while let Some(key) = reader.next_key()? {
        known.take(alloc, key, reader, depth)?;
    }
    Ok(())
}

/// Passes over the value that stands next.
pub(crate) fn pass_value(alloc: Global, reader: &mut Reader<'_>, depth: usize) -> Result<(), Fail>
    ensures { Stands anything result (parse_map anything (data_at depth reader.old)) reader.new }
{
    drop(value_at(alloc, reader, depth)?);
    Ok(())
}

/// What was kept of a member that must be there.
#[inline(always)]
pub(crate) fn kept_needed<T: Drop, K: Word>(
    alloc: Global,
    kept: Kept<T>,
    key: K,
) -> Result<T, InputError>
    ensures { Reads result (kept_needed (K.spelling key) kept) }
{
    let path = match kept.taken() {
        Some(Ok(member)) => return Ok(member),
        Some(Err(path)) => path,
        None => Text::new(alloc),
    };
    Err(InputError::Shape(path).below(alloc, Step::Member(key.text())))
}

/// What was kept of one that may be there.
#[inline(always)]
pub(crate) fn kept_optional<T: Drop, K: Word>(
    alloc: Global,
    kept: Kept<T>,
    key: K,
) -> Result<Option<T>, InputError>
    ensures { Reads result (kept_optional (K.spelling key) kept) }
{
    match kept.taken() {
        Some(Ok(member)) => Ok(Some(member)),
        Some(Err(path)) => Err(InputError::Shape(path).below(alloc, Step::Member(key.text()))),
        None => Ok(None),
    }
}
