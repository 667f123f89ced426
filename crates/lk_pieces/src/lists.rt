//! Lists in a list, read one after the other: those that end, and what there is of one that stays open.

ghost use Rattle.std.specs.Prelude.{◌≡◌, [], ◌∷◌, true, false, IfSome, None, Some};
ghost use Rattle.json.specs.Json.{after_end_array};
ghost use Rattle.json.specs.Lex.{fresh, after_value};
ghost use Rattle.json.specs.Token.{Token as SpecToken};
ghost use Rattle.lk_pieces.specs.Joining.{Begins, left_at};
ghost use Rattle.lk_pieces.specs.Lists.{ReadsRest, ReadsOn, ReadsFirst, GoesOn};

use crate::element::{Element, read_items};
use crate::row::Row;
use json::{Reader, Token};
use std::alloc::Global;

/// The bracket that opens a list.
pub(crate) fn open_list(reader: &mut Reader<'_>) -> Option<()>
    ensures { IfSome result (λ _. reader.old ≡ SpecToken.begin_array ∷ reader.new) }
{
    match reader.next()? {
        Token::BeginArray => Some(()),
        _ => None,
    }
}

/// Reads on in an open list, one item or more, up to its end or that of the text; what there is of it, if it stays open.
fn read_rest<T: Element>(
    alloc: Global,
    closed: &mut Vec<Row<T::Item>>,
    row: Row<T::Item>,
    reader: &mut Reader<'_>,
    depth: usize,
) -> Option<Option<Row<T::Item>>>
    ensures { IfSome result (λ unclosed. Begins reader.old × ReadsRest T.described depth reader.old row closed.old.items closed.new.items unclosed reader.new) }
{
    let mut items = row.into_vec();
    if read_items::<T>(alloc, &mut items, reader, depth)? {
        return Some(Some(Row::from_vec(items)));
    }
    items.shrink_to_fit();
    closed.push(Row::from_vec(items)).ok()?;
    Some(None)
}

/// Reads a list behind its bracket, up to its end or that of the text; what there is of it, if it stays open.
fn read_list<T: Element>(
    alloc: Global,
    closed: &mut Vec<Row<T::Item>>,
    reader: &mut Reader<'_>,
    depth: usize,
) -> Option<Option<Row<T::Item>>>
    ensures { IfSome result (λ unclosed. ReadsOn T.described depth true reader.old closed.old.items closed.new.items unclosed reader.new) }
{
    if reader.take_end_array() {
        closed.push(Row::new(alloc)).ok()?;
        return Some(None);
    }
    read_rest::<T>(alloc, closed, Row::new(alloc), reader, depth)
}

/// Reads lists up to the end of the text; what there is of the last one, if it stays open.
pub(crate) fn read_lists<T: Element>(
    alloc: Global,
    closed: &mut Vec<Row<T::Item>>,
    reader: &mut Reader<'_>,
    depth: usize,
) -> Option<Option<Row<T::Item>>>
    ensures { IfSome result (λ unclosed. ReadsOn T.described depth false reader.old closed.old.items closed.new.items unclosed []) }
{
    'lists: while let Some(token) = reader.next() {
        let Token::BeginArray = token else {
            return None;
        };
        if let Some(row) = read_list::<T>(alloc, closed, reader, depth)? {
            return Some(Some(row));
        }
    }
    Some(None)
}

/// Reads lists up to the end of the list that they stand in.
fn read_last_lists<T: Element>(
    alloc: Global,
    closed: &mut Vec<Row<T::Item>>,
    reader: &mut Reader<'_>,
    depth: usize,
) -> Option<()>
    ensures { IfSome result (λ _. (r : _) × ReadsOn T.described depth false reader.old closed.old.items closed.new.items None r × (after_end_array r ≡ Some reader.new)) }
{
    'lists: while !reader.take_end_array() {
        open_list(reader)?;
        let None = read_list::<T>(alloc, closed, reader, depth)? else {
            return None;
        };
    }
    Some(())
}

/// Reads the rest of the open list, or the next list if none is open; what there is of it, if it stays open.
fn read_first<T: Element>(
    alloc: Global,
    closed: &mut Vec<Row<T::Item>>,
    unclosed: Option<Row<T::Item>>,
    reader: &mut Reader<'_>,
    depth: usize,
) -> Option<Option<Row<T::Item>>>
    ensures { IfSome result (λ next. ReadsFirst T.described depth reader.old closed.old.items unclosed closed.new.items next reader.new) }
{
    match unclosed {
        Some(row) => read_rest::<T>(alloc, closed, row, reader, depth),
        None => {
            open_list(reader)?;
            read_list::<T>(alloc, closed, reader, depth)
        }
    }
}

/// Reads on up to the end of the text, in the open list and in those behind it; what there is of the last one, if it stays open.
pub(crate) fn read_on<T: Element>(
    alloc: Global,
    closed: &mut Vec<Row<T::Item>>,
    unclosed: Option<Row<T::Item>>,
    reader: &mut Reader<'_>,
    depth: usize,
) -> Option<Option<Row<T::Item>>>
    ensures { IfSome result (λ next. Begins reader.old × (left_at fresh reader.old ≡ Some after_value) × GoesOn T.described depth reader.old closed.old.items unclosed closed.new.items next []) }
{
    match read_first::<T>(alloc, closed, unclosed, reader, depth)? {
        Some(row) => Some(Some(row)),
        None => read_lists::<T>(alloc, closed, reader, depth),
    }
}

/// Reads on up to the end of the list that the lists stand in.
pub(crate) fn read_to_end<T: Element>(
    alloc: Global,
    closed: &mut Vec<Row<T::Item>>,
    unclosed: Option<Row<T::Item>>,
    reader: &mut Reader<'_>,
    depth: usize,
) -> Option<()>
    ensures { IfSome result (λ _. Begins reader.old × (r : _) × GoesOn T.described depth reader.old closed.old.items unclosed closed.new.items None r × (after_end_array r ≡ Some reader.new)) }
{
    let None = read_first::<T>(alloc, closed, unclosed, reader, depth)? else {
        return None;
    };
    read_last_lists::<T>(alloc, closed, reader, depth)
}
