//! What can be read from a JSON value, and the plain values that are.
//!
//! A type that can be read says in its definition what it reads from a value, and its code does just that, unless memory
//! runs out. Values are read so that are small; what may be large is read where it stands among the tokens, and only its
//! small members are read from a value. A list of values has a loop, which reads the items one after the other into a
//! list that has room for all of them.

ghost use Rattle.std.specs.Prelude.{◌≡◌, Result, find, option_map, List as Items, ℕ};
ghost use Rattle.std.specs.Str.{bytes_eq};
ghost use Rattle.serde_json.specs.Data.{Data};
ghost use Rattle.serde_json.specs.View.{view, items_view};
ghost use Rattle.lk_input.specs.ReadingSteps.{Reads, step_text, wanted, number_of, index_of, signed_of, truth_of};
ghost use Rattle.lk_input.specs.ReadingSteps.{text_of, found_by, below, read_items, list_of, word_of, one_of};
ghost use Rattle.lk_input.specs.Words.{spelled};

use crate::read::error::InputError;
use crate::read::word::{Step, Word};
use lk_link::ids::{OutputSectionId, PartId, RegionId, SegmentId, SymbolId};
use lk_link::list::List;
use lk_link::text::Text;
use serde_json::Value;
use std::alloc::Global;

/// What a value of the description gives.
pub(crate) trait Described: Sized + Drop {
    /// What is read of a value, or the path of the first value of a wrong shape.
    ghost described: { Data → Result Self (Items ℕ) };

    /// Reads the value. Refused is one of a wrong shape, with the path of the first in it; other faults are want of memory.
    fn read(alloc: Global, value: &Value) -> Result<Self, InputError>
        ensures { Reads result (described (view value.now)) };
}

/// The form that was wanted, if it was there.
pub(crate) fn wanted<T: Drop>(alloc: Global, form: Option<T>) -> Result<T, InputError>
    ensures { Reads result (wanted form) }
{
    match form {
        Some(form) => Ok(form),
        None => Err(InputError::misfit(alloc)),
    }
}

/// A whole number, written without sign, fraction and exponent.
impl Described for u64 {
    ghost described = { number_of };

    fn read(alloc: Global, value: &Value) -> Result<u64, InputError> {
        wanted(alloc, value.as_u64())
    }
}

/// A whole number that names or counts something.
impl Described for u32 {
    ghost described = { index_of };

    fn read(alloc: Global, value: &Value) -> Result<u32, InputError> {
        let number = u64::read(alloc, value)?;
        wanted(alloc, u32::try_from(number).ok())
    }
}

/// A whole number with a sign, written without fraction and exponent.
impl Described for i64 {
    ghost described = { signed_of };

    fn read(alloc: Global, value: &Value) -> Result<i64, InputError> {
        wanted(alloc, value.as_i64())
    }
}

impl Described for PartId {
    ghost described = { index_of };

    fn read(alloc: Global, value: &Value) -> Result<PartId, InputError> {
        Ok(PartId::from_u32(u32::read(alloc, value)?))
    }
}

impl Described for OutputSectionId {
    ghost described = { index_of };

    fn read(alloc: Global, value: &Value) -> Result<OutputSectionId, InputError> {
        Ok(OutputSectionId::from_u32(u32::read(alloc, value)?))
    }
}

impl Described for SegmentId {
    ghost described = { index_of };

    fn read(alloc: Global, value: &Value) -> Result<SegmentId, InputError> {
        Ok(SegmentId::from_u32(u32::read(alloc, value)?))
    }
}

impl Described for RegionId {
    ghost described = { index_of };

    fn read(alloc: Global, value: &Value) -> Result<RegionId, InputError> {
        Ok(RegionId::from_u32(u32::read(alloc, value)?))
    }
}

impl Described for SymbolId {
    ghost described = { index_of };

    fn read(alloc: Global, value: &Value) -> Result<SymbolId, InputError> {
        Ok(SymbolId::from_u32(u32::read(alloc, value)?))
    }
}

impl Described for bool {
    ghost described = { truth_of };

    fn read(alloc: Global, value: &Value) -> Result<bool, InputError> {
        wanted(alloc, value.as_bool())
    }
}

impl Described for Text {
    ghost described = { text_of };

    fn read(alloc: Global, value: &Value) -> Result<Text, InputError> {
        let string = wanted(alloc, value.as_str())?;
        Ok(Text::from_string(String::from_str(alloc, string)?))
    }
}

impl<T: Described> Described for List<T> {
    ghost described = { list_of T.described };

    fn read(alloc: Global, value: &Value) -> Result<List<T>, InputError> {
        let values = wanted(alloc, value.as_array())?;
        read_items(alloc, values.as_slice())
    }
}

/// The items of a list.
#[tactic(auto, unfolding(crate::specs::ReadingSteps::read_items))]
fn read_items<T: Described>(alloc: Global, values: &[Value]) -> Result<List<T>, InputError>
    ensures { Reads result (read_items T.described 0 (items_view values.now)) }
{
    let mut items = Vec::with_capacity(alloc, values.len())?;
    for (i, value) in values.iter().enumerate() {
        let item = read_at(alloc, Some(value), Step::Item(i))?;
        items.push(item)?;
    }
    Ok(List::from_vec(items))
}

/// What was found at a step.
pub(crate) fn read_at<T: Described>(
    alloc: Global,
    found: Option<&Value>,
    step: Step,
) -> Result<T, InputError>
    ensures { Reads result (below (step_text step) (found_by T.described (option_map (λ v. view v.now) found.entry))) }
{
    match read_found(alloc, found) {
        Ok(read) => Ok(read),
        Err(error) => Err(error.below(alloc, step)),
    }
}

/// What was found, as seen where it stands.
fn read_found<T: Described>(alloc: Global, found: Option<&Value>) -> Result<T, InputError>
    ensures { Reads result (found_by T.described (option_map (λ v. view v.now) found.entry)) }
{
    T::read(alloc, wanted(alloc, found)?)
}

/// One of these words.
pub(crate) fn one_of<W: Word>(alloc: Global, value: &Value, words: &[W]) -> Result<W, InputError>
    ensures { Reads result (one_of (spelled W.spelling words.now) (view value.now)) }
{
    let text = wanted(alloc, value.as_str())?;
    wanted(alloc, word_of(text, words))
}

/// The first of these words that is written so.
#[inline(always)]
fn first_word<W: Word>(text: &str, words: &[W]) -> Option<W>
    ensures { result ≡ find (λ w. bytes_eq text.now (W.spelling w)) words.now }
{
    words.iter().copied().find(|word| text == word.text())
}

/// The same, by the table of these words.
pub(crate) fn word_of<W: Word>(text: &str, words: &[W]) -> Option<W>
    ensures { result ≡ word_of (spelled W.spelling words.now) text.now }
{
    first_word(text, words)
}
