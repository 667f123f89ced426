//! The members of objects and the items of fixed lists.

ghost use Rattle.std.specs.Prelude.{◌≡◌};
ghost use Rattle.serde_json.specs.View.{view};
ghost use Rattle.lk_input.specs.ReadingSteps.{Reads, object, required, defaulted, optional, object_or_empty};
ghost use Rattle.lk_input.specs.ReadingSteps.{fixed_list, element, at_most, alone, single, double};

use crate::read::described::{Described, read_at};
use crate::read::error::InputError;
use crate::read::word::{Step, Word};
use serde_json::{Map, Value};
use std::alloc::Global;

/// The value is an object.
pub(crate) fn object(alloc: Global, value: &Value) -> Result<(), InputError>
    ensures { Reads result (object (view value.now)) }
{
    if value.is_object() {
        Ok(())
    } else {
        Err(InputError::misfit(alloc))
    }
}

/// The member with this key.
pub(crate) fn required<T: Described, K: Word>(
    alloc: Global,
    value: &Value,
    key: K,
) -> Result<T, InputError>
    ensures { Reads result (required T.described (K.spelling key) (view value.now)) }
{
    let key = key.text();
    read_at(alloc, value.get(key), Step::Member(key))
}

/// The member with this key, or the default.
pub(crate) fn defaulted<T: Described, K: Word>(
    alloc: Global,
    value: &Value,
    key: K,
    other: T,
) -> Result<T, InputError>
    ensures { Reads result (defaulted other T.described (K.spelling key) (view value.now)) }
{
    let key = key.text();
    match value.get(key) {
        Some(member) => read_at(alloc, Some(member), Step::Member(key)),
        None => Ok(other),
    }
}

/// The member with this key, if there is one.
pub(crate) fn optional<T: Described, K: Word>(
    alloc: Global,
    value: &Value,
    key: K,
) -> Result<Option<T>, InputError>
    ensures { Reads result (optional T.described (K.spelling key) (view value.now)) }
{
    let key = key.text();
    match value.get(key) {
        Some(member) => Ok(Some(read_at(alloc, Some(member), Step::Member(key))?)),
        None => Ok(None),
    }
}

/// The object with this key; a missing one has no members.
pub(crate) fn object_or_empty<T: Described, K: Word>(
    alloc: Global,
    value: &Value,
    key: K,
) -> Result<T, InputError>
    ensures { Reads result (object_or_empty T.described (K.spelling key) (view value.now)) }
{
    let key = key.text();
    let empty = Value::Object(Map::new(alloc));
    let object = value.get(key).unwrap_or(&empty);
    read_at(alloc, Some(object), Step::Member(key))
}

/// The value is a fixed list.
pub(crate) fn fixed_list(alloc: Global, value: &Value) -> Result<(), InputError>
    ensures { Reads result (fixed_list (view value.now)) }
{
    if value.is_array() {
        Ok(())
    } else {
        Err(InputError::misfit(alloc))
    }
}

/// Its item at this index.
pub(crate) fn element<T: Described>(
    alloc: Global,
    value: &Value,
    index: usize,
) -> Result<T, InputError>
    ensures { Reads result (element T.described index (view value.now)) }
{
    read_at(alloc, value.get(index), Step::Item(index))
}

/// It has at most so many items.
pub(crate) fn at_most(alloc: Global, value: &Value, count: usize) -> Result<(), InputError>
    ensures { Reads result (at_most count (view value.now)) }
{
    if value.get(count).is_some() {
        Err(InputError::misfit(alloc))
    } else {
        Ok(())
    }
}

/// Nothing stands behind what the list begins with, which is `form`.
#[tactic(auto, unfolding(crate::specs::ReadingSteps::alone))]
pub(crate) fn alone<T: Drop>(alloc: Global, value: &Value, form: T) -> Result<T, InputError>
    ensures { Reads result (alone form (view value.now)) }
{
    at_most(alloc, value, 1)?;
    Ok(form)
}

/// The one item behind what the list begins with.
#[tactic(auto, unfolding(crate::specs::ReadingSteps::single))]
pub(crate) fn single<T: Described>(alloc: Global, value: &Value) -> Result<T, InputError>
    ensures { Reads result (single T.described (view value.now)) }
{
    let item = element(alloc, value, 1)?;
    at_most(alloc, value, 2)?;
    Ok(item)
}

/// The two items behind it.
#[tactic(auto, unfolding(crate::specs::ReadingSteps::double))]
pub(crate) fn double<T: Described, U: Described>(
    alloc: Global,
    value: &Value,
) -> Result<(T, U), InputError>
    ensures { Reads result (double T.described U.described (view value.now)) }
{
    let first = element(alloc, value, 1)?;
    let second = element(alloc, value, 2)?;
    at_most(alloc, value, 3)?;
    Ok((first, second))
}
