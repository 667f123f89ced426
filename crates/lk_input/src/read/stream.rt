//! Lists, read where they stand.

ghost use Rattle.std.specs.Prelude.{◌≡◌, [], ◌∷◌, ◌++◌, Err, OnOk, Result, List as Items, ℕ};
ghost use Rattle.json.specs.Json.{parse_map};
ghost use Rattle.json.specs.Reads.{token_of};
ghost use Rattle.serde_json.specs.Data.{Data};
ghost use Rattle.lk_input.specs.ReadingSteps.{read_items, list_of};
ghost use Rattle.lk_pieces.specs.Tokens.{data_at, items_at};
ghost use Rattle.lk_input.specs.Tokens.{Stands, as_is, anything, settled};

use crate::read::described::Described;
use crate::read::error::{InputError, path_below};
use crate::read::fail::Fail;
use crate::read::tokens::{deeper, value_at, value_from};
use crate::read::word::Step;
use json::{Reader, Token};
use lk_link::list::List;
use lk_link::text::Text;
use std::alloc::{AllocError, Global};

/// What is read where it stands among the tokens of a text.
pub(crate) trait Streamed: Sized + Drop {
    /// What is read of a value, or the path of the first value of a wrong shape.
    ghost streamed: { Data → Result Self (Items ℕ) };

    /// Reads the value that stands next, nested no deeper than `depth`, to its end, even if its shape is wrong: then the path
    /// of the first wrong shape in it is answered. Refused are tokens that are none of a JSON text, and want of memory.
    fn stream(
        alloc: Global,
        reader: &mut Reader<'_>,
        depth: usize,
    ) -> Result<Result<Self, Text>, Fail>
        ensures { Stands as_is result (parse_map streamed (data_at depth reader.old)) reader.new };
}

/// A value of a wrong shape, of which the first token was taken.
pub(crate) fn misfit_from<T: Drop>(
    alloc: Global,
    token: Token<'_>,
    reader: &mut Reader<'_>,
    depth: usize,
) -> Result<Result<T, Text>, Fail>
    ensures { Stands as_is result (parse_map (λ _. Err []) (data_at depth (token_of token.entry ∷ reader.old))) reader.new }
{
    drop(value_from(alloc, token, reader, depth)?);
    Ok(Err(Text::new(alloc)))
}

#[tactic(auto, using(crate::proofs::Lists::lists))]
impl<T: Streamed> Streamed for List<T> {
    ghost streamed = { list_of T.streamed };

    fn stream(
        alloc: Global,
        reader: &mut Reader<'_>,
        depth: usize,
    ) -> Result<Result<List<T>, Text>, Fail> {
        match reader.next() {
            Some(token) => stream_list(alloc, token, reader, depth),
            None => Err(Fail::NotJson),
        }
    }
}

/// The list that begins with this token, if it begins one.
#[tactic(auto, using(crate::proofs::Lists::lists))]
pub(crate) fn stream_list<T: Streamed>(
    alloc: Global,
    token: Token<'_>,
    reader: &mut Reader<'_>,
    depth: usize,
) -> Result<Result<List<T>, Text>, Fail>
    ensures { Stands as_is result (parse_map (list_of T.streamed) (data_at depth (token_of token.entry ∷ reader.old))) reader.new }
{
    match token {
        Token::BeginArray => {
            let depth = deeper(depth)?;
            stream_items(alloc, reader, depth)
        }
        token => misfit_from(alloc, token, reader, depth),
    }
}

/// Puts an item behind others. The first gets room for itself alone, since many lists have one item, and it needn't be given back.
#[inline(always)]
fn add_item<T: Drop>(items: &mut Vec<T>, item: T) -> Result<(), AllocError>
    ensures { OnOk result (items.new.items ≡ items.old.items ++ item ∷ []) }
{
    if items.is_empty() && items.reserve_exact(1).is_err() {
        drop(item);
        return Err(AllocError);
    }
    items.push(item)?;
    Ok(())
}

/// The items up to the end of a list. Once one has a wrong shape, the others are read for the sake of the text alone.
fn stream_items<T: Streamed>(
    alloc: Global,
    reader: &mut Reader<'_>,
    depth: usize,
) -> Result<Result<List<T>, Text>, Fail>
    ensures { Stands as_is result (parse_map (read_items T.streamed 0) (items_at depth reader.old)) reader.new }
{
    let mut items = Vec::new(alloc);
    'items: while !reader.take_end_array() {
        match T::stream(alloc, reader, depth)? {
            Ok(item) => add_item(&mut items, item)?,
            Err(path) => {
                let path = path_below(alloc, Step::Item(items.len()), &path)?;
                pass_items::<T>(alloc, reader, depth)?;
                return Ok(Err(path));
            }
        }
    }
    items.shrink_to_fit();
    Ok(Ok(List::from_vec(items)))
}

/// Passes over the items up to the end of a list, whatever their shape.
fn pass_items<T: Streamed>(alloc: Global, reader: &mut Reader<'_>, depth: usize) -> Result<(), Fail>
    ensures { Stands as_is result (parse_map anything (items_at depth reader.old)) reader.new }
{
    'items: while !reader.take_end_array() {
        drop(T::stream(alloc, reader, depth)?);
    }
    Ok(())
}

/// What was read, with the path of a wrong shape apart from what ends all reading.
pub(crate) fn settled<T: Drop>(read: Result<T, InputError>) -> Result<Result<T, Text>, Fail>
    ensures { result ≡ settled read }
{
    match read {
        Ok(read) => Ok(Ok(read)),
        Err(InputError::Shape(path)) => Ok(Err(path)),
        Err(InputError::NotJson) => Err(Fail::NotJson),
        Err(InputError::NoMemory) => Err(Fail::NoMemory),
    }
}

/// What is read of the value that stands next, which is let go.
pub(crate) fn stream_value<T: Described>(
    alloc: Global,
    reader: &mut Reader<'_>,
    depth: usize,
) -> Result<Result<T, Text>, Fail>
    ensures { Stands as_is result (parse_map T.described (data_at depth reader.old)) reader.new }
{
    let value = value_at(alloc, reader, depth)?;
    settled(T::read(alloc, &value))
}
