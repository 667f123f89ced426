//! Fixed lists, read item by item where they stand. A list of two items and no more is the pair of the first and of a list of the
//! second alone, and so on to the empty list, `()`.

ghost use Rattle.std.specs.Prelude.{◌≡◌, ◌∷◌, ℕ, Result, List as Several};
ghost use Rattle.json.specs.Json.{parse_map};
ghost use Rattle.json.specs.Reads.{token_of};
ghost use Rattle.serde_json.specs.Data.{Items};
ghost use Rattle.lk_input.specs.Plain.{elements_with, fixed_of, no_elements};
ghost use Rattle.lk_pieces.specs.Tokens.{data_at, items_at};
ghost use Rattle.lk_input.specs.Tokens.{Stands, anything, as_is};

use crate::read::error::path_below;
use crate::read::fail::Fail;
use crate::read::stream::{Streamed, misfit_from};
use crate::read::tokens::{deeper, items_from};
use crate::read::word::Step;
use json::{Reader, Token};
use lk_link::text::Text;
use std::alloc::Global;

/// The items of a fixed list, from one of them on.
pub(crate) trait Elements: Sized + Drop {
    /// What is read of the items from the one with this number on, or the path of the first value of a wrong shape.
    ghost elements: { ℕ → Items → Result Self (Several ℕ) };

    /// Reads the items up to the end of the list, the first of which has this number. Once one has a wrong shape, or is missing,
    /// the others are read for the sake of the text alone.
    fn stream_elements(
        alloc: Global,
        reader: &mut Reader<'_>,
        depth: usize,
        index: usize,
    ) -> Result<Result<Self, Text>, Fail>
        ensures { Stands as_is result (parse_map (elements index) (items_at depth reader.old)) reader.new };
}

/// Passes over the items up to the end of a list.
pub(crate) fn pass_others(alloc: Global, reader: &mut Reader<'_>, depth: usize) -> Result<(), Fail>
    ensures { Stands as_is result (parse_map anything (items_at depth reader.old)) reader.new }
{
    drop(items_from(alloc, reader, depth)?);
    Ok(())
}

/// No more items.
impl Elements for () {
    ghost elements = { λ _. no_elements };

    fn stream_elements(
        alloc: Global,
        reader: &mut Reader<'_>,
        depth: usize,
        _index: usize,
    ) -> Result<Result<(), Text>, Fail> {
        if reader.take_end_array() {
            return Ok(Ok(()));
        }
        pass_others(alloc, reader, depth)?;
        Ok(Err(Text::new(alloc)))
    }
}

/// An item, and others behind it.
impl<H: Streamed, T: Elements> Elements for (H, T) {
    ghost elements = { elements_with H.streamed T.elements };

    fn stream_elements(
        alloc: Global,
        reader: &mut Reader<'_>,
        depth: usize,
        index: usize,
    ) -> Result<Result<(H, T), Text>, Fail> {
        if reader.take_end_array() {
            let missing = Text::new(alloc);
            return Ok(Err(path_below(alloc, Step::Item(index), &missing)?));
        }
        match H::stream(alloc, reader, depth)? {
            Ok(first) => {
                let next = index.checked_add(1).ok_or(Fail::NoMemory)?;
                match T::stream_elements(alloc, reader, depth, next)? {
                    Ok(others) => Ok(Ok((first, others))),
                    Err(path) => Ok(Err(path)),
                }
            }
            Err(path) => {
                let path = path_below(alloc, Step::Item(index), &path)?;
                pass_others(alloc, reader, depth)?;
                Ok(Err(path))
            }
        }
    }
}

/// The fixed list that stands next.
#[tactic(auto, using(crate::proofs::Objects::objects))]
pub(crate) fn stream_fixed<E: Elements>(
    alloc: Global,
    reader: &mut Reader<'_>,
    depth: usize,
) -> Result<Result<E, Text>, Fail>
    ensures { Stands as_is result (parse_map (fixed_of E.elements) (data_at depth reader.old)) reader.new }
{
    match reader.next() {
        Some(token) => stream_fixed_from(alloc, token, reader, depth),
        None => Err(Fail::NotJson),
    }
}

/// The fixed list that begins with this token, if it begins one.
fn stream_fixed_from<E: Elements>(
    alloc: Global,
    token: Token<'_>,
    reader: &mut Reader<'_>,
    depth: usize,
) -> Result<Result<E, Text>, Fail>
    ensures { Stands as_is result (parse_map (fixed_of E.elements) (data_at depth (token_of token.entry ∷ reader.old))) reader.new }
{
    match token {
        Token::BeginArray => {
            let depth = deeper(depth)?;
            E::stream_elements(alloc, reader, depth, 0)
        }
        token => misfit_from(alloc, token, reader, depth),
    }
}
