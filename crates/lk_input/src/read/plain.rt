//! Plain values, each read from one token: numbers, truth values and words. One that isn't plain to see, or has a wrong shape, goes
//! by its JSON value.

ghost use Rattle.std.specs.Prelude.{◌≡◌, ◌∷◌, ◌^◌, IfSome, Some, None, if◌then◌else◌, nat_lt};
ghost use Rattle.json.specs.Json.{parse_map};
ghost use Rattle.json.specs.Reads.{token_of};
ghost use Rattle.lk_input.specs.Plain.{IsPlain};
ghost use Rattle.lk_input.specs.ReadingSteps.{index_of, number_of, one_of, signed_of, text_of, truth_of};
ghost use Rattle.lk_input.specs.Words.{spelled};
ghost use Rattle.lk_pieces.specs.Tokens.{data_at};
ghost use Rattle.lk_input.specs.Tokens.{Stands, as_is};

use crate::read::described::{Described, word_of};
use crate::read::digits::{plain_number, plain_signed};
use crate::read::fail::Fail;
use crate::read::stream::{Streamed, settled};
use crate::read::tokens::value_from;
use crate::read::word::Word;
use json::{Reader, Token};
use lk_link::ids::{PartId, SymbolId};
use lk_link::text::Text;
use std::alloc::Global;

/// What one token may write.
pub(crate) trait Plain: Described {
    /// What the token writes; none where that isn't plain to see.
    fn plain(token: Token<'_>) -> Option<Self>
        ensures { IfSome result (λ x. IsPlain Self.described (token_of token.entry) x) };
}

/// What is read of the value that stands next, mostly of its one token.
#[inline(always)]
#[tactic(auto, using(crate::proofs::Objects::objects))]
pub(crate) fn stream_plain<T: Plain>(
    alloc: Global,
    reader: &mut Reader<'_>,
    depth: usize,
) -> Result<Result<T, Text>, Fail>
    ensures { Stands as_is result (parse_map T.described (data_at depth reader.old)) reader.new }
{
    match reader.next() {
        Some(token) => match T::plain(token) {
            Some(read) => Ok(Ok(read)),
            None => described_from(alloc, token, reader, depth),
        },
        None => Err(Fail::NotJson),
    }
}

/// What is read of a value that begins with this token.
#[cold]
pub(crate) fn described_from<T: Described>(
    alloc: Global,
    token: Token<'_>,
    reader: &mut Reader<'_>,
    depth: usize,
) -> Result<Result<T, Text>, Fail>
    ensures { Stands as_is result (parse_map T.described (data_at depth (token_of token.entry ∷ reader.old))) reader.new }
{
    let value = value_from(alloc, token, reader, depth)?;
    settled(T::read(alloc, &value))
}

/// The word that a token writes, if it is one of these.
pub(crate) fn plain_word<W: Word>(token: Token<'_>, words: &[W]) -> Option<W>
    ensures { IfSome result (λ x. IsPlain (one_of (spelled W.spelling words.now)) (token_of token.entry) x) }
{
    match token {
        Token::String(text) => word_of(text, words),
        _ => None,
    }
}

impl Plain for u64 {
    fn plain(token: Token<'_>) -> Option<u64> {
        match token {
            Token::Number(text) => plain_number(text),
            _ => None,
        }
    }
}

/// A number that fits 32 bits.
fn small(number: u64) -> Option<u32>
    ensures { result ≡ (if nat_lt number (2 ^ 32) then Some number else None) }
{
    u32::try_from(number).ok()
}

impl Plain for u32 {
    fn plain(token: Token<'_>) -> Option<u32> {
        match token {
            Token::Number(text) => small(plain_number(text)?),
            _ => None,
        }
    }
}

impl Plain for i64 {
    fn plain(token: Token<'_>) -> Option<i64> {
        match token {
            Token::Number(text) => plain_signed(text),
            _ => None,
        }
    }
}

impl Plain for bool {
    fn plain(token: Token<'_>) -> Option<bool> {
        match token {
            Token::Bool(truth) => Some(truth),
            _ => None,
        }
    }
}

impl Streamed for u64 {
    ghost streamed = { number_of };

    #[inline(always)]
    fn stream(
        alloc: Global,
        reader: &mut Reader<'_>,
        depth: usize,
    ) -> Result<Result<u64, Text>, Fail> {
        stream_plain(alloc, reader, depth)
    }
}

impl Streamed for u32 {
    ghost streamed = { index_of };

    #[inline(always)]
    fn stream(
        alloc: Global,
        reader: &mut Reader<'_>,
        depth: usize,
    ) -> Result<Result<u32, Text>, Fail> {
        stream_plain(alloc, reader, depth)
    }
}

impl Streamed for PartId {
    ghost streamed = { index_of };

    fn stream(
        alloc: Global,
        reader: &mut Reader<'_>,
        depth: usize,
    ) -> Result<Result<PartId, Text>, Fail> {
        match u32::stream(alloc, reader, depth)? {
            Ok(number) => Ok(Ok(PartId::from_u32(number))),
            Err(path) => Ok(Err(path)),
        }
    }
}

impl Streamed for SymbolId {
    ghost streamed = { index_of };

    fn stream(
        alloc: Global,
        reader: &mut Reader<'_>,
        depth: usize,
    ) -> Result<Result<SymbolId, Text>, Fail> {
        match u32::stream(alloc, reader, depth)? {
            Ok(number) => Ok(Ok(SymbolId::from_u32(number))),
            Err(path) => Ok(Err(path)),
        }
    }
}

/// The text that begins with this token, if it is one.
#[tactic(auto, using(lk_pieces::proofs::Tokens::values))]
fn text_from(
    alloc: Global,
    token: Token<'_>,
    reader: &mut Reader<'_>,
    depth: usize,
) -> Result<Result<Text, Text>, Fail>
    ensures { Stands as_is result (parse_map text_of (data_at depth (token_of token.entry ∷ reader.old))) reader.new }
{
    match token {
        Token::String(text) => Ok(Ok(Text::from_string(String::from_str(alloc, text)?))),
        token => described_from(alloc, token, reader, depth),
    }
}

#[tactic(auto, using(crate::proofs::Objects::objects))]
impl Streamed for Text {
    ghost streamed = { text_of };

    fn stream(
        alloc: Global,
        reader: &mut Reader<'_>,
        depth: usize,
    ) -> Result<Result<Text, Text>, Fail> {
        match reader.next() {
            Some(token) => text_from(alloc, token, reader, depth),
            None => Err(Fail::NotJson),
        }
    }
}

impl Streamed for i64 {
    ghost streamed = { signed_of };

    #[inline(always)]
    fn stream(
        alloc: Global,
        reader: &mut Reader<'_>,
        depth: usize,
    ) -> Result<Result<i64, Text>, Fail> {
        stream_plain(alloc, reader, depth)
    }
}

impl Streamed for bool {
    ghost streamed = { truth_of };

    #[inline(always)]
    fn stream(
        alloc: Global,
        reader: &mut Reader<'_>,
        depth: usize,
    ) -> Result<Result<bool, Text>, Fail> {
        stream_plain(alloc, reader, depth)
    }
}
