//! Objects with large members, read where they stand.
//!
//! What stands in a large member is made where it stands. The other members of the object are kept as one small JSON
//! object, and read from it once all members are there, in the order of the format. Of equal keys the last stays, as in
//! any JSON object: a large member is let go before it is read again.

ghost use Rattle.std.specs.Prelude.{◌≡◌, Bool, List as Items, ℕ, Some, None, MatchResult, option_map};
ghost use Rattle.json.specs.Json.{parse_map};
ghost use Rattle.json.specs.Reads.{token_of};
ghost use Rattle.serde_json.specs.Data.{Members, no_members};
ghost use Rattle.serde_json.specs.View.{view, members_view};
ghost use Rattle.lk_input.specs.ReadingSteps.{Reads};
ghost use Rattle.lk_pieces.specs.Tokens.{data_at, members_at};
ghost use Rattle.lk_input.specs.Tokens.{Stands, as_is};
ghost use Rattle.lk_input.specs.Large.{Taken, Rereads, Adds, Splits, kept_or};

use crate::read::error::InputError;
use crate::read::fail::Fail;
use crate::read::kept::Kept;
use crate::read::stream::Streamed;
use crate::read::tokens::{put_member, value_at};
use crate::read::word::{Step, Word};
use json::Reader;
use lk_link::text::Text;
use serde_json::{Map, Value};
use std::alloc::Global;

/// The large members of an object, each as what is read of it.
pub(crate) trait Large: Sized + Drop {
    /// Whether the member with this key is large.
    ghost is_large: { Items ℕ → Bool };

    /// What is kept of all members of an object.
    ghost kept: { Members → Self };

    /// What is kept of an object without members.
    fn none() -> Self
        ensures { result ≡ kept no_members };

    /// Reads the member with this key, which stands next, in place of what was kept of it; answers whether it is a large
    /// one, and leaves it where it stands if not.
    fn take(
        &mut self,
        alloc: Global,
        key: &str,
        reader: &mut Reader<'_>,
        depth: usize,
    ) -> Result<bool, Fail>
        ensures { Taken is_large kept key.now depth self.old reader.old result self.new reader.new };
}

/// Reads a large member in place of what was kept of it.
pub(crate) fn reread<T: Streamed>(
    alloc: Global,
    kept: &mut Kept<T>,
    reader: &mut Reader<'_>,
    depth: usize,
) -> Result<(), Fail>
    ensures { Rereads T.streamed depth reader.old result kept.new reader.new }
{
    *kept = Kept::none();
    *kept = match T::stream(alloc, reader, depth)? {
        Ok(member) => Kept::read(member),
        Err(path) => Kept::wrong(alloc, path)?,
    };
    Ok(())
}

/// Reads the member with this key, which stands next.
fn stream_member<L: Large>(
    alloc: Global,
    key: &str,
    large: &mut L,
    others: &mut Map<String, Value>,
    reader: &mut Reader<'_>,
    depth: usize,
) -> Result<(), Fail>
    ensures { Adds L.is_large L.kept key.now depth large.old (members_view others.old.entries) reader.old
        result large.new (members_view others.new.entries) reader.new }
{
    if large.take(alloc, key, reader, depth)? {
        return Ok(());
    }
    let member = value_at(alloc, reader, depth)?;
    put_member(alloc, others, key, member)?;
    Ok(())
}

/// The members up to the end of an object: the large ones, and the others.
pub(crate) fn stream_members<L: Large>(
    alloc: Global,
    reader: &mut Reader<'_>,
    depth: usize,
) -> Result<(L, Map<String, Value>), Fail>
    ensures { Splits L.is_large L.kept depth reader.old result reader.new }
{
    let mut large = L::none();
    let mut others = Map::new(alloc);
    'members: while let Some(key) = reader.next_key()? {
        stream_member(alloc, key, &mut large, &mut others, reader, depth)?;
    }
    Ok((large, others))
}

/// What was kept of a large member, or the default.
#[inline(always)]
pub(crate) fn kept_or<T: Drop, K: Word>(
    alloc: Global,
    kept: Kept<T>,
    key: K,
    other: T,
) -> Result<T, InputError>
    ensures { Reads result (kept_or other (K.spelling key) kept) }
{
    match kept.taken() {
        Some(Ok(member)) => Ok(member),
        Some(Err(path)) => Err(InputError::Shape(path).below(alloc, Step::Member(key.text()))),
        None => Ok(other),
    }
}
