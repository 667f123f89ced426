//! Sections in the order of their names, by numbers alone: each name that differs from those before it gets the next number, and
//! only these names are compared. A name's rank says where it stands among them, and a section's key joins the rank of its name
//! with its own place; so the keys rise as the sections are to stand.

ghost use Rattle.std.specs.Prelude.{◌≡◌, ◌^◌, ◌%◌, ◌<◌, ◌≤◌, ℕ, IfOk, length, map, slice_index};
ghost use Rattle.std.specs.List.{enumerate_from};
ghost use Rattle.lk_link.specs.Walks.{input_of};
ghost use Rattle.lk_ranks.specs.Ranks.{AreDistinct, AreKeys, AreNumbered, AreRanks, AreSortedKeys, IsByBytes, StandByKeys, bytes_of, sort_key};

use indexmap::IndexSet;
use lk_link::InputRef;
use std::alloc::{AllocError, Global};

/// What a key counts for one rank: more than there are places.
const PLACES: u64 = 1 << 32;

/// The keys of some sections, in the order in which these are to stand: by the bytes of their names, then as they come.
pub fn sorted_keys(alloc: Global, found: &[InputRef<'_>]) -> Result<Vec<u64>, AllocError>
    requires few { length found.now ≤ 2 ^ 24 }
    ensures { IfOk result (λ keys. AreSortedKeys (map input_of found.now) keys.items) }
{
    let mut keys = keys_by_name(alloc, found)?;
    keys.sort_unstable();
    Ok(keys)
}

/// The keys of some sections, in the order in which these come. Looks up each section's name among those before it, and compares
/// the names that differ, in time n log n.
fn keys_by_name(alloc: Global, found: &[InputRef<'_>]) -> Result<Vec<u64>, AllocError>
    requires few { length found.now ≤ 2 ^ 24 }
    ensures { IfOk result (λ keys. AreKeys (map input_of found.now) keys.items) }
{
    let (names, numbers) = number_names(alloc, found)?;
    let ranks = ranks_of(alloc, names.as_slice())?;
    keys_of(alloc, numbers.as_slice(), ranks.as_slice())
}

/// What is told of sections, in the order of these keys.
pub fn in_order<T: Copy>(alloc: Global, told: &[T], keys: &[u64]) -> Result<Vec<T>, AllocError>
    requires { (k : ℕ) → k < length keys.now → slice_index keys.now k % 2 ^ 32 < length told.now }
    ensures { IfOk result (λ all. StandByKeys told.now keys.now all.items) }
{
    let mut all = Vec::with_capacity(alloc, keys.len())?;
    for key in keys {
        all.push(told[(*key % PLACES) as usize])?;
    }
    Ok(all)
}

/// The names that differ, in the order in which they come, and the number of each section's name among them.
fn number_names<'a>(
    alloc: Global,
    found: &[InputRef<'a>],
) -> Result<(IndexSet<&'a str>, Vec<u32>), AllocError>
    requires few { length found.now ≤ 2 ^ 24 }
    ensures few { IfOk result (λ told. length told.0.keys ≤ length found.now) }
    ensures distinct { IfOk result (λ told. AreDistinct (map bytes_of told.0.keys)) }
    ensures numbered { IfOk result (λ told. AreNumbered (map bytes_of told.0.keys) told.1.items (map input_of found.now)) }
{
    let mut names = IndexSet::new(alloc);
    let mut numbers = Vec::with_capacity(alloc, found.len())?;
    for input in found {
        let (number, _) = names.insert_full(input.section.name.as_str())?;
        numbers.push(number as u32)?;
    }
    Ok((names, numbers))
}

/// The ranks of names that all differ.
fn ranks_of(alloc: Global, names: &[&str]) -> Result<Vec<u32>, AllocError>
    requires few { length names.now ≤ 2 ^ 24 }
    requires distinct { AreDistinct (map bytes_of names.now) }
    ensures ranks { IfOk result (λ ranks. AreRanks (map bytes_of names.now) ranks.items) }
    ensures count { IfOk result (λ ranks. length ranks.items ≡ length names.now) }
{
    let order = by_bytes(alloc, names)?;
    let mut ranks = vec![in alloc; 0; names.len()]?;
    for (rank, name) in order.iter().enumerate() {
        ranks[name.1 as usize] = rank as u32;
    }
    Ok(ranks)
}

/// Names that all differ, with their numbers, in the order of their bytes.
fn by_bytes<'a>(alloc: Global, names: &[&'a str]) -> Result<Vec<(&'a str, u32)>, AllocError>
    requires few { length names.now ≤ 2 ^ 24 }
    requires distinct { AreDistinct (map bytes_of names.now) }
    ensures { IfOk result (λ order. IsByBytes names.now order.items) }
{
    let mut order = with_numbers(alloc, names)?;
    order.sort_unstable();
    Ok(order)
}

/// Names with their numbers.
fn with_numbers<'a>(alloc: Global, names: &[&'a str]) -> Result<Vec<(&'a str, u32)>, AllocError>
    requires few { length names.now ≤ 2 ^ 24 }
    ensures { IfOk result (λ all. all.items ≡ map (λ q. (q.1, q.0)) (enumerate_from 0 names.now)) }
{
    let mut all = Vec::with_capacity(alloc, names.len())?;
    for (number, name) in names.iter().enumerate() {
        all.push((*name, number as u32))?;
    }
    Ok(all)
}

/// A key for each of some sections, by the number of its name and by the ranks of names.
fn keys_of(alloc: Global, numbers: &[u32], ranks: &[u32]) -> Result<Vec<u64>, AllocError>
    requires few { length numbers.now ≤ 2 ^ 24 }
    requires there { (k : ℕ) → k < length numbers.now → slice_index numbers.now k < length ranks.now }
    ensures { IfOk result (λ keys. keys.items ≡ map (sort_key ranks.now) (enumerate_from 0 numbers.now)) }
{
    let mut keys = Vec::with_capacity(alloc, numbers.len())?;
    for (place, number) in numbers.iter().enumerate() {
        let rank = ranks[*number as usize] as u64;
        keys.push(rank * PLACES + place as u64)?;
    }
    Ok(keys)
}
