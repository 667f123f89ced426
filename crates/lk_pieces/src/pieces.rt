//! Pieces of the text of a list of lists.

ghost use Rattle.std.specs.Prelude.{◌≡◌, [], ◌∷◌, cond, IfSome, None, Some};
ghost use Rattle.lk_pieces.specs.Pieces.{bytes_of, Continue, Joins, JoinsRows};

use crate::element::Element;
use crate::lists::read_on;
use crate::row::{Row, both, both_closed};
use json::{Reader, Scratch};
use std::alloc::Global;

/// What was read of pieces: the lists that end in them, and what there is of the last one, if it stays open. They begin within a list,
/// of which the first is then the rest, or between lists.
#[derive(Drop)]
pub(crate) struct Part<T> {
    pub(crate) within: bool,
    pub(crate) closed: Vec<Row<T>>,
    pub(crate) unclosed: Option<Row<T>>,
}

/// What is read of no piece.
pub(crate) fn nothing<T: Drop>(alloc: Global, within: bool) -> Part<T>
    ensures within { result.within ≡ within }
    ensures closed { result.closed.items ≡ [] }
    ensures unclosed { result.unclosed ≡ cond within (Some []) None }
{
    let unclosed = if within { Some(Row::new(alloc)) } else { None };
    Part {
        within,
        closed: Vec::new(alloc),
        unclosed,
    }
}

/// Whether a piece seems to begin within a list: behind a comma between lists stands a bracket. What is read tells whether it does.
pub(crate) fn seems_within(piece: &[u8]) -> bool {
    let mut rest = piece;
    'blanks: while let [b' ' | b'\t' | b'\n' | b'\r', behind @ ..] = rest {
        rest = behind;
    }
    !matches!(rest, [b'[', ..])
}

/// Whether the first of these pieces seems to.
pub(crate) fn seem_within(pieces: &[&[u8]]) -> bool {
    match pieces.first() {
        Some(piece) => seems_within(piece),
        None => false,
    }
}

/// What is read of a piece, with what was read of those before it.
fn read_piece<T: Element>(
    alloc: Global,
    part: Part<T::Item>,
    piece: &[u8],
    scratch: &mut Scratch,
    depth: usize,
) -> Option<Part<T::Item>>
    ensures { IfSome result (λ more. Continue T.described depth (piece.now ∷ []) part more) }
{
    let text = str::from_utf8(piece).ok()?;
    let mut reader = Reader::new(text, scratch).ok()?;
    let Part {
        within,
        mut closed,
        unclosed,
    } = part;
    let unclosed = read_on::<T>(alloc, &mut closed, unclosed, &mut reader, depth)?;
    Some(Part {
        within,
        closed,
        unclosed,
    })
}

/// What is read of pieces, one after the other, with what was read of those before them.
pub(crate) fn read_in_turn<T: Element>(
    alloc: Global,
    part: Part<T::Item>,
    pieces: &[&[u8]],
    scratch: &mut Scratch,
    depth: usize,
) -> Option<Part<T::Item>>
    ensures { IfSome result (λ all. Continue T.described depth (bytes_of pieces.now) part all) }
{
    let mut all = part;
    for piece in pieces {
        all = read_piece::<T>(alloc, all, piece, scratch, depth)?;
    }
    Some(all)
}

/// The lists of two parts, of which the second goes on with this one, which the first leaves open.
fn join_rows<T: Element>(
    within: bool,
    closed: Vec<Row<T::Item>>,
    row: Row<T::Item>,
    more: Vec<Row<T::Item>>,
    unclosed: Option<Row<T::Item>>,
) -> Option<Part<T::Item>>
    ensures { IfSome result (λ both. JoinsRows T.described closed.items row more.items unclosed both) }
{
    let mut all = closed;
    let mut more = more;
    if more.is_empty() {
        let unclosed = Some(both(row, unclosed?)?);
        return Some(Part {
            within,
            closed: all,
            unclosed,
        });
    }
    let first = more.remove(0);
    all.push(both_closed(row, first)?).ok()?;
    all.append(&mut more).ok()?;
    Some(Part {
        within,
        closed: all,
        unclosed,
    })
}

/// The lists of two parts, one after the other: both stand within a list where they meet, or both between lists.
pub(crate) fn join_parts<T: Element>(
    part: Part<T::Item>,
    more: Part<T::Item>,
) -> Option<Part<T::Item>>
    ensures { IfSome result (λ both. Joins T.described part more both) }
{
    let Part {
        within,
        mut closed,
        unclosed,
    } = part;
    match unclosed {
        Some(row) if more.within => join_rows::<T>(within, closed, row, more.closed, more.unclosed),
        None if !more.within => {
            let mut others = more.closed;
            closed.append(&mut others).ok()?;
            Some(Part {
                within,
                closed,
                unclosed: more.unclosed,
            })
        }
        _ => None,
    }
}

/// The lists of a part that leaves none open.
pub(crate) fn whole_lists<T: Drop>(part: Part<T>) -> Option<Vec<Row<T>>>
    ensures { IfSome result (λ lists. (lists.items ≡ part.closed.items) × (part.unclosed ≡ None)) }
{
    let Part {
        within: _,
        closed,
        unclosed,
    } = part;
    match unclosed {
        Some(_) => None,
        None => Some(closed),
    }
}
