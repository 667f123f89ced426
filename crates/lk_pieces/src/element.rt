//! The items of a list, read one after the other.

ghost use Rattle.std.specs.Prelude.{◌≡◌, ◌∷◌, List, ℕ, Result, IfSome};
ghost use Rattle.json.specs.Reads.{token_of};
ghost use Rattle.serde_json.specs.Data.{Data};
ghost use Rattle.lk_pieces.specs.Lists.{ReadsItem, ReadsRow};
ghost use Rattle.lk_pieces.specs.Reading.{IsRead};

use json::{Reader, Token};
use std::alloc::Global;

/// How an item is read.
pub trait Element {
    /// What is read of it.
    type Item: Drop + Send;

    /// What is read of a value, or where its shape is wrong.
    ghost described: { Data → Result Self.Item (List ℕ) };

    /// Reads the value that begins with this token, nested no deeper than `depth`, of which the reader gives the others. No answer
    /// tells nothing.
    fn read(
        alloc: Global,
        token: Token<'_>,
        reader: &mut Reader<'_>,
        depth: usize,
    ) -> Option<Self::Item>
        ensures { IfSome result (λ x. IsRead described depth (token_of token.entry ∷ reader.old) x reader.new) };
}

/// Puts the item that begins with this token behind others. The first gets room for itself alone, since many lists have one item, and
/// it needn't be given back.
fn add_item<T: Element>(
    alloc: Global,
    items: &mut Vec<T::Item>,
    token: Token<'_>,
    reader: &mut Reader<'_>,
    depth: usize,
) -> Option<()>
    ensures { IfSome result (λ _. ReadsItem T.described depth (token_of token.entry ∷ reader.old) items.old.items items.new.items reader.new) }
{
    let item = T::read(alloc, token, reader, depth)?;
    if items.is_empty() && items.reserve_exact(1).is_err() {
        drop(item);
        return None;
    }
    items.push(item).ok()
}

/// The items up to the end of a list or of the text, of which there has to be one, behind those that were read; whether the list stays
/// open there.
pub(crate) fn read_items<T: Element>(
    alloc: Global,
    items: &mut Vec<T::Item>,
    reader: &mut Reader<'_>,
    depth: usize,
) -> Option<bool>
    ensures { IfSome result (λ unclosed. ReadsRow T.described depth reader.old items.old.items items.new.items unclosed reader.new) }
{
    let token = reader.next()?;
    add_item::<T>(alloc, items, token, reader, depth)?;
    'items: while !reader.take_end_array() {
        let Some(token) = reader.next() else {
            return Some(true);
        };
        add_item::<T>(alloc, items, token, reader, depth)?;
    }
    Some(false)
}
