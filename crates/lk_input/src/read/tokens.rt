//! JSON values, read where they stand among the tokens of a text.

ghost use Rattle.std.specs.Prelude.{◌≡◌, ◌+◌, ◌∷◌, List, ℕ, option_map, true, false, Some, None, MatchOption, MatchResult, OnOk};
ghost use Rattle.fast_float.specs.Text.{scan};
ghost use Rattle.json.specs.Reads.{token_of};
ghost use Rattle.serde_json.specs.Data.{no_members, put};
ghost use Rattle.serde_json.specs.Read.{number_of, number_from, float_of};
ghost use Rattle.serde_json.specs.View.{view, number_view, items_view, members_view};
ghost use Rattle.lk_pieces.specs.Tokens.{data_at, items_at, members_at};
ghost use Rattle.lk_input.specs.Tokens.{Stands, ItemNext, MemberNext, IsDeeper};

use crate::read::fail::Fail;
use fast_float::Numeral;
use json::{Reader, Token};
use serde_json::{Map, Number, Value};
use std::alloc::{AllocError, Global};

/// The whole number that a numeral writes with this sign, if it fits 64 bits; a negative one is below zero, as `-0` is a
/// float.
fn whole_number(negative: bool, numeral: &Numeral<'_>) -> Option<Number>
    ensures { MatchOption result (number_from negative numeral.now ≡ float_of negative numeral.now)
        (λ n. number_from negative numeral.now ≡ Some (number_view n)) }
{
    if negative {
        match numeral.to_i64(true) {
            Some(below_zero) if below_zero < 0 => Some(Number::from(below_zero)),
            _ => None,
        }
    } else {
        match numeral.to_u64() {
            Some(whole) => Some(Number::from(whole)),
            None => None,
        }
    }
}

/// The number that these digits write with this sign, unless it is too large for a float.
fn signed_number(negative: bool, digits: &[u8]) -> Option<Number>
    ensures { option_map number_view result ≡ number_from negative (scan digits.now) }
{
    let numeral = Numeral::scan(digits);
    match whole_number(negative, &numeral) {
        Some(whole) => Some(whole),
        None => Number::from_f64(numeral.to_float(negative)),
    }
}

/// The number that a token writes.
#[tactic(auto, unfolding(serde_json::specs::Read::number_of))]
pub(crate) fn number_in(text: &str) -> Option<Number>
    ensures { option_map number_view result ≡ number_of text.now }
{
    match text.as_bytes() {
        [b'-', digits @ ..] => signed_number(true, digits),
        digits => signed_number(false, digits),
    }
}

/// The depth that is left inside a list or an object.
pub(crate) fn deeper(depth: usize) -> Result<usize, Fail>
    ensures { IsDeeper depth result }
{
    match depth {
        0 => Err(Fail::NotJson),
        _ => Ok(depth - 1),
    }
}

/// The value that begins with this token, of which the reader gives the others.
#[cycle(value)]
#[inline(always)]
#[tactic(auto, using(lk_pieces::proofs::Tokens::values))]
pub(crate) fn value_from(
    alloc: Global,
    token: Token<'_>,
    reader: &mut Reader<'_>,
    depth: usize,
) -> Result<Value, Fail>
    ensures { Stands view result (data_at depth (token_of token.entry ∷ reader.old)) reader.new }
{
    match token {
        Token::Null => Ok(Value::Null),
        Token::Bool(truth) => Ok(Value::Bool(truth)),
        Token::Number(text) => match number_in(text) {
            Some(number) => Ok(Value::Number(number)),
            None => Err(Fail::NotJson),
        },
        Token::String(text) => Ok(Value::String(String::from_str(alloc, text)?)),
        Token::BeginArray => {
            let depth = deeper(depth)?;
            Ok(Value::Array(items_from(alloc, reader, depth)?))
        }
        Token::BeginObject => {
            let depth = deeper(depth)?;
            Ok(Value::Object(members_from(alloc, reader, depth)?))
        }
        Token::EndArray | Token::EndObject | Token::Key(_) | Token::Bad => Err(Fail::NotJson),
    }
}

/// The value that stands next.
#[cycle(value)]
#[inline(always)]
#[tactic(auto, using(lk_pieces::proofs::Tokens::values))]
pub(crate) fn value_at(alloc: Global, reader: &mut Reader<'_>, depth: usize) -> Result<Value, Fail>
    ensures { Stands view result (data_at depth reader.old) reader.new }
{
    match reader.next() {
        Some(token) => value_from(alloc, token, reader, depth),
        None => Err(Fail::NotJson),
    }
}

/// The next item of a list, or none at its end.
#[cycle(value)]
fn next_item(alloc: Global, reader: &mut Reader<'_>, depth: usize) -> Result<Option<Value>, Fail>
    ensures { ItemNext depth reader.old result reader.new }
{
    if reader.take_end_array() {
        Ok(None)
    } else {
        Ok(Some(value_at(alloc, reader, depth)?))
    }
}

/// The items up to the end of a list.
#[cycle(value)]
pub(crate) fn items_from(
    alloc: Global,
    reader: &mut Reader<'_>,
    depth: usize,
) -> Result<Vec<Value>, Fail>
    ensures { Stands (λ v. items_view v.items) result (items_at depth reader.old) reader.new }
{
    let mut items = Vec::new(alloc);
    while let Some(item) = next_item(alloc, reader, depth)? {
        items.push(item)?;
    }
    Ok(items)
}

/// Puts a member to others; of equal keys the last stays.
pub(crate) fn put_member(
    alloc: Global,
    members: &mut Map<String, Value>,
    key: &str,
    member: Value,
) -> Result<(), AllocError>
    ensures { OnOk result (members_view members.new.entries ≡ put key.now (view member) (members_view members.old.entries)) }
{
    let key = String::from_str(alloc, key)?;
    members.insert(key, member)?;
    Ok(())
}

/// The next member of an object with its key, or none at its end.
#[cycle(value)]
fn next_member<'a>(
    alloc: Global,
    reader: &mut Reader<'a>,
    depth: usize,
) -> Result<Option<(&'a str, Value)>, Fail>
    ensures { MemberNext (λ k. k.now) depth reader.old result reader.new }
{
    match reader.next_key()? {
        Some(key) => Ok(Some((key, value_at(alloc, reader, depth)?))),
        None => Ok(None),
    }
}

/// The members up to the end of an object; of equal keys the last stays.
#[cycle(value)]
fn members_from(
    alloc: Global,
    reader: &mut Reader<'_>,
    depth: usize,
) -> Result<Map<String, Value>, Fail>
    ensures { Stands (λ m. members_view m.entries) result (members_at no_members depth reader.old) reader.new }
{
    let mut members = Map::new(alloc);
    while let Some((key, member)) = next_member(alloc, reader, depth)? {
        put_member(alloc, &mut members, key, member)?;
    }
    Ok(members)
}
