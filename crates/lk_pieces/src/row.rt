//! A list in a list of lists.

ghost use Rattle.std.specs.Prelude.{◌≡◌, [], ◌++◌, IfSome};

use std::alloc::Global;
use std::marker::Model;

/// The items of a list that stands in another. Contracts see the items alone.
#[derive(Drop)]
pub struct Row<T> {
    items: Vec<T>,
}

impl<T> Model for Row<T> {
    ghost use Rattle.std.specs.Prelude.{List};

    ghost Value = { List T };

    ghost view = { λ row. row.items.items };
}

impl<T> Row<T> {
    /// No item.
    pub(crate) fn new(alloc: Global) -> Row<T>
        ensures { result ≡ [] }
    {
        Row {
            items: Vec::new(alloc),
        }
    }

    /// These items.
    pub(crate) fn from_vec(items: Vec<T>) -> Row<T>
        ensures { result ≡ items.items }
    {
        Row { items }
    }

    /// The items.
    pub fn into_vec(self) -> Vec<T>
        ensures { result.items ≡ self }
    {
        self.items
    }
}

/// The items of both, one after the other.
pub(crate) fn both<T: Drop>(row: Row<T>, more: Row<T>) -> Option<Row<T>>
    ensures { IfSome result (λ all. all ≡ row ++ more) }
{
    let mut items = row.into_vec();
    let mut more = more.into_vec();
    items.append(&mut more).ok()?;
    Some(Row::from_vec(items))
}

/// The same, with no room behind them.
pub(crate) fn both_closed<T: Drop>(row: Row<T>, more: Row<T>) -> Option<Row<T>>
    ensures { IfSome result (λ all. all ≡ row ++ more) }
{
    let mut items = both(row, more)?.into_vec();
    items.shrink_to_fit();
    Some(Row::from_vec(items))
}
