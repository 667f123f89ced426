//! Lists that follow each other, and the look-up of the list that an item stands in. Only the running ends of the lists
//! are kept, so that an index of millions of items has a number for each list and a guess for each 64 items alone; the list of an item
//! is found by halving between two guesses. A sum past 64 bits stays at the greatest number, which no item's number reaches, so no index is refused.

ghost use Rattle.std.specs.Prelude.{true, ◌≡◌, ◌+◌, ◌-◌, ◌^◌, ◌<◌, ◌≤◌, ◌++◌, ◌∷◌, [], OnOk, MatchOption, length, min, vec_len};
ghost use Rattle.lk_link.specs.Ends.{start_of, IsBetween, IsPlaceOf};

use std::alloc::{AllocError, Global};

/// Adds the end of a list of this size, behind the end of the last one.
pub(crate) fn push_end(ends: &mut Vec<usize>, size: usize) -> Result<(), AllocError>
    ensures { OnOk result
        (ends.new.items ≡ ends.old.items ++ min (start_of ends.old.items (length ends.old.items) + size) (2 ^ 64 - 1) ∷ []) }
{
    let start = last_end(ends.as_slice());
    ends.push(start.saturating_add(size))?;
    Ok(())
}

/// Where the last list ends.
pub(crate) fn last_end(ends: &[usize]) -> usize
    ensures { result ≡ start_of ends.now (length ends.now) }
{
    match ends {
        [] => 0,
        [.., last] => *last,
    }
}

/// Where the list with this number begins; behind the last one, where it ends.
pub(crate) fn start_at(ends: &[usize], list: usize) -> usize
    requires { list ≤ length ends.now }
    ensures { result ≡ start_of ends.now list }
{
    last_end(&ends[..list])
}

/// The number of the list that an item stands in, and its place there; none behind the last list. Takes logarithmic time.
pub(crate) fn place_of(ends: &[usize], item: usize) -> Option<(usize, usize)>
    ensures { MatchOption result (start_of ends.now (length ends.now) ≤ item) (λ p. IsPlaceOf ends.now item p.0 p.1) }
{
    place_between(ends, 0, ends.len(), item)
}

/// The same, where no list before `low` and none behind `high` has the item. Takes logarithmic time in the lists between.
fn place_between(ends: &[usize], low: usize, high: usize, item: usize) -> Option<(usize, usize)>
    requires { IsBetween ends.now low high item }
    ensures { MatchOption result (start_of ends.now (length ends.now) ≤ item) (λ p. IsPlaceOf ends.now item p.0 p.1) }
{
    let mut low = low;
    let mut high = high;
    while low < high {
        let middle = low + (high - low) / 2;
        if ends[middle] <= item {
            low = middle + 1;
        } else {
            high = middle;
        }
    }
    if low == ends.len() {
        return None;
    }
    Some((low, item - start_at(ends, low)))
}

/// There is a guess for each so many items.
const STRIDE: usize = 64;

/// Guesses at the lists that the first item, and each so many behind it, stand in. Nothing rests on them: a look-up tries them before it
/// takes them.
pub(crate) fn guesses_of(alloc: Global, ends: &[usize]) -> Result<Vec<u32>, AllocError> {
    let count = last_end(ends) / STRIDE + 1;
    let mut guesses = Vec::with_capacity(alloc, count)?;
    for number in 0..count {
        let list = match place_of(ends, number.saturating_mul(STRIDE)) {
            Some((list, _)) => list,
            None => ends.len(),
        };
        guesses.push(u32::try_from(list).unwrap_or(u32::MAX))?;
    }
    Ok(guesses)
}

/// The same as `place_of`, between the guesses for the items around, where these are right: then it takes logarithmic time in the lists of
/// so many items.
pub(crate) fn place_near(ends: &[usize], guesses: &[u32], item: usize) -> Option<(usize, usize)>
    ensures { MatchOption result (start_of ends.now (length ends.now) ≤ item) (λ p. IsPlaceOf ends.now item p.0 p.1) }
{
    let number = item / STRIDE;
    let low = guess_at(guesses, number, 0);
    let high = guess_at(guesses, number + 1, ends.len());
    if is_between(ends, low, high, item) {
        place_between(ends, low, high, item)
    } else {
        place_of(ends, item)
    }
}

/// The guess with this number, or what stands in for one that isn't there.
fn guess_at(guesses: &[u32], number: usize, none: usize) -> usize {
    match guesses.get(number) {
        Some(guess) => *guess as usize,
        None => none,
    }
}

/// Whether no list before `low` and none behind `high` has an item.
fn is_between(ends: &[usize], low: usize, high: usize, item: usize) -> bool
    ensures { result ≡ true → IsBetween ends.now low high item }
{
    if low > high || high > ends.len() || start_at(ends, low) > item {
        return false;
    }
    match ends.get(high) {
        Some(end) => item < *end,
        None => true,
    }
}
