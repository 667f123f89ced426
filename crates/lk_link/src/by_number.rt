//! Items that are found by a number. A stable sort puts those of one number side by side in the order in which they came,
//! and two halvings find where they begin and end.

ghost use Rattle.std.specs.Prelude.{◌≡◌, ℕ, [], IfOk, map};
ghost use Rattle.std.specs.List.Sorted.{IsNonDecreasing, IsNonDecreasingBy};
ghost use Rattle.lk_link.specs.Numbered.{items_of, IsRangeOf};

use std::alloc::{AllocError, Global};
use std::marker::Model;

/// Items that are found by a number, those of one number in the order in which they came. Contracts see the numbers
/// and their items as pairs, in the order of the numbers.
#[derive(Drop)]
pub(crate) struct ByNumber<T> {
    /// They don't fall.
    numbers: Vec<u32>,
    /// The item of each number.
    items: Vec<T>,
}

impl<T> Model for ByNumber<T> {
    ghost use Rattle.std.specs.Prelude.{◌≡◌, List, ℕ, length};
    ghost use Rattle.std.specs.List.{zip};
    ghost use Rattle.std.specs.List.Sorted.{IsNonDecreasing};

    ghost Value = { List (ℕ × T) };

    ghost view = { λ a. zip a.numbers.items a.items.items };

    ghost invariant = { λ a. (length a.numbers.items ≡ length a.items.items) × IsNonDecreasing a.numbers.items };
}

impl<T: Copy> ByNumber<T> {
    /// No items; takes no memory.
    pub(crate) fn empty(alloc: Global) -> ByNumber<T>
        ensures { result ≡ [] }
    {
        ByNumber {
            numbers: Vec::new(alloc),
            items: Vec::new(alloc),
        }
    }

    /// These items with their numbers.
    pub(crate) fn new(alloc: Global, pairs: Vec<(u32, T)>) -> Result<ByNumber<T>, AllocError>
        ensures { IfOk result (λ all. (n : ℕ) → items_of n all ≡ items_of n pairs.items) }
    {
        let pairs = sorted(pairs)?;
        let numbers = numbers_of(alloc, pairs.as_slice())?;
        let items = items_only(alloc, pairs.as_slice())?;
        Ok(ByNumber { numbers, items })
    }

    /// The items of this number. Takes logarithmic time.
    pub(crate) fn of(&self, number: u32) -> &[T]
        ensures { result.now ≡ items_of number self.now }
    {
        let (low, high) = range_of(self.numbers.as_slice(), number);
        &self.items.as_slice()[low..high]
    }
}

/// The pairs in the order of their numbers, those of one number in the order in which they came.
fn sorted<T: Copy>(pairs: Vec<(u32, T)>) -> Result<Vec<(u32, T)>, AllocError>
    ensures rising { IfOk result (λ all. IsNonDecreasingBy (λ (p : ℕ × T). p.0) all.items) }
    ensures kept { IfOk result (λ all. (n : ℕ) → items_of n all.items ≡ items_of n pairs.items) }
{
    let mut pairs = pairs;
    pairs.sort_by_key(|pair| pair.0)?;
    Ok(pairs)
}

/// Where this number stands among numbers that don't fall: from the first place to the second, that one left out.
fn range_of(numbers: &[u32], number: u32) -> (usize, usize)
    requires { IsNonDecreasing numbers.now }
    ensures { IsRangeOf numbers.now number result.0 result.1 }
{
    let low = numbers.partition_point(|n| *n < number);
    let high = numbers.partition_point(|n| *n <= number);
    (low, high)
}

/// The numbers of pairs.
fn numbers_of<T: Copy>(alloc: Global, pairs: &[(u32, T)]) -> Result<Vec<u32>, AllocError>
    ensures { IfOk result (λ all. all.items ≡ map (λ (p : ℕ × T). p.0) pairs.now) }
{
    pairs.iter().map(|pair| pair.0).collect(alloc)
}

/// The items of pairs.
fn items_only<T: Copy>(alloc: Global, pairs: &[(u32, T)]) -> Result<Vec<T>, AllocError>
    ensures { IfOk result (λ all. all.items ≡ map (λ (p : ℕ × T). p.1) pairs.now) }
{
    pairs.iter().map(|pair| pair.1).collect(alloc)
}
