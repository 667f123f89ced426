//! Lists of names, in which a name is found by halving: beside the names stand their places in the order of their bytes, so
//! the names themselves stay in the order of the description.

ghost use Rattle.std.specs.Prelude.{◌≡◌, [], IfOk};
ghost use Rattle.std.specs.List.{range_with_len};
ghost use Rattle.lk_link.specs.Names.{has_name, name_at, IsOrderOf};

use crate::list::List;
use crate::text::Text;
use std::alloc::{AllocError, Global};
use std::marker::Model;

/// A list of names, in which a name is found in logarithmic time. Contracts see the names in their order alone.
#[derive(Drop)]
pub struct Names {
    names: List<Text>,
    /// The places of the names, in the order of the names' bytes.
    order: Vec<usize>,
}

impl Model for Names {
    ghost use Rattle.std.specs.Prelude.{List, ℕ};
    ghost use Rattle.lk_link.specs.Names.{IsOrderOf};

    ghost Value = { List (List ℕ) };

    ghost view = { λ a. a.names };

    ghost invariant = { λ a. IsOrderOf a.names a.order.items };
}

impl Names {
    /// No names; takes no memory.
    pub fn empty(alloc: Global) -> Names
        ensures { result ≡ [] }
    {
        Names {
            names: List::new(alloc),
            order: Vec::new(alloc),
        }
    }

    /// Makes the index of the names.
    pub fn new(alloc: Global, names: List<Text>) -> Result<Names, AllocError>
        ensures { IfOk result (λ all. all ≡ names) }
    {
        let order = order_of(alloc, names.as_slice())?;
        Ok(Names { names, order })
    }

    /// All names, lent.
    pub fn as_slice(&self) -> &[Text]
        ensures { result.now ≡ self.now }
    {
        self.names.as_slice()
    }

    /// Whether this is one of the names. Takes logarithmic time.
    pub fn contains(&self, name: &str) -> bool
        ensures { result ≡ has_name self.now name.now }
    {
        is_among(self.names.as_slice(), self.order.as_slice(), name)
    }
}

/// Whether a text is one of the names, by their order.
fn is_among(names: &[Text], order: &[usize], text: &str) -> bool
    requires { IsOrderOf names.now order.now }
    ensures { result ≡ has_name names.now text.now }
{
    order
        .binary_search_by(|place| name_at(names, *place).cmp(&text))
        .is_ok()
}

/// The places of names, in the order of the names' bytes.
fn order_of(alloc: Global, names: &[Text]) -> Result<Vec<usize>, AllocError>
    ensures { IfOk result (λ order. IsOrderOf names.now order.items) }
{
    let mut order = places(alloc, names.len())?;
    order.sort_unstable_by(|a, b| name_at(names, *a).cmp(&name_at(names, *b)));
    Ok(order)
}

/// The numbers below `count`.
fn places(alloc: Global, count: usize) -> Result<Vec<usize>, AllocError>
    ensures { IfOk result (λ all. all.items ≡ range_with_len 0 count) }
{
    let mut all = Vec::with_capacity(alloc, count)?;
    for place in 0..count {
        all.push(place)?;
    }
    Ok(all)
}

/// The name at a place; empty behind the last one.
fn name_at(names: &[Text], place: usize) -> &str
    ensures { result.now ≡ name_at names.now place }
{
    match names.get(place) {
        Some(name) => name.as_str(),
        None => "",
    }
}
