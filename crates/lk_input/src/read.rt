//! A link description from JSON.
//!
//! The tokens of the text are read one after the other. A file, a symbol, a section and a relocation are read from their tokens into
//! their records: each member that the format knows, or item, is read where it stands, and kept as what it gives, or as the path of
//! the first wrong shape in it. What else may be large (groups and lists) is made where it stands, too. The options and the plan are
//! kept as one small JSON value, and that is then read type by type: each type says which members or items it has, in the order of
//! the format, and reads them by a few common steps (a member that must be there, one with a default, an item of a fixed list, a
//! list, one of these texts). The first value of a wrong shape, in that order, refuses the description, once the text is known to be
//! JSON to its end. Its path is put together on the way out, one step at each level, so that a good description pays nothing for it.
//!
//! A long text is read in pieces, one after the other or by workers, if all of them are well-formed; else it is read whole.

ghost use Rattle.std.specs.Prelude.{◌≡◌, ◌∷◌};
ghost use Rattle.json.specs.Json.{parse_map};
ghost use Rattle.json.specs.Reads.{token_of};
ghost use Rattle.serde_json.specs.Read.{read as read_json};
ghost use Rattle.serde_json.specs.View.{view};
ghost use Rattle.lk_input.specs.LargeMembers.{link_large, link_kept, link_from};
ghost use Rattle.lk_input.specs.Reading.{link_of, reading_of_json, reading_of, Answers};
ghost use Rattle.lk_input.specs.ReadingSteps.{Reads};
ghost use Rattle.lk_pieces.specs.Tokens.{data_at};
ghost use Rattle.lk_input.specs.Tokens.{Stands, as_is};
ghost use Rattle.lk_input.specs.Keys.{link_key_text};

mod cuts;
mod described;
mod digits;
mod error;
mod event;
mod expression;
mod fail;
mod file;
mod fixed;
mod kept;
mod known;
mod large;
mod member;
mod options;
mod output_section;
mod pieces;
mod placement;
mod plain;
mod plan;
mod relocation;
mod section;
mod segment;
mod stream;
mod symbol;
mod tokens;
mod word;

use crate::read::fail::Fail;
use crate::read::kept::Kept;
use crate::read::large::{Large, kept_or, reread, stream_members};
use crate::read::member::{object_or_empty, required};
use crate::read::pieces::{read_by_workers, read_in_turn};
use crate::read::stream::{Streamed, misfit_from, settled};
use crate::read::tokens::deeper;
use crate::read::word::Word;
pub use error::InputError;
use json::{Reader, Scratch, Token};
use lk_link::groups::InputGroups;
use lk_link::link::LinkInput;
use lk_link::text::Text;
use serde_json::Value;
use std::alloc::Global;
use std::thread::Threads;

/// How deep lists and objects may nest in a JSON text.
const MAX_DEPTH: usize = 127;

/// How many bytes a piece has that is read by itself, a few less or more.
const PIECE: usize = 1 << 20;

/// A key of the description.
#[derive(Clone, Copy)]
enum LinkKey {
    Options,
    Plan,
    Groups,
}

#[tactic(auto, unfolding(crate::specs::ReadingSteps::written))]
impl Word for LinkKey {
    ghost spelling = { link_key_text };

    fn text(self) -> &'static str {
        match self {
            LinkKey::Options => "options",
            LinkKey::Plan => "plan",
            LinkKey::Groups => "groups",
        }
    }
}

/// The large member of the description.
#[derive(Drop)]
struct LinkMembers {
    groups: Kept<InputGroups>,
}

impl Large for LinkMembers {
    ghost is_large = { link_large };

    ghost kept = { link_kept };

    fn none() -> LinkMembers {
        LinkMembers {
            groups: Kept::none(),
        }
    }

    fn take(
        &mut self,
        alloc: Global,
        key: &str,
        reader: &mut Reader<'_>,
        depth: usize,
    ) -> Result<bool, Fail> {
        if key == LinkKey::Groups.text() {
            reread(alloc, &mut self.groups, reader, depth)?;
            Ok(true)
        } else {
            Ok(false)
        }
    }
}

/// The description, of its large member and the object of the others.
#[tactic(auto, unfolding(crate::specs::LargeMembers::link_from))]
fn link_from(alloc: Global, large: LinkMembers, others: &Value) -> Result<LinkInput, InputError>
    ensures { Reads result (link_from large (view others.now)) }
{
    let options = object_or_empty(alloc, others, LinkKey::Options)?;
    let plan = required(alloc, others, LinkKey::Plan)?;
    let none = InputGroups::empty(alloc);
    let groups = kept_or(alloc, large.groups, LinkKey::Groups, none)?;
    Ok(LinkInput {
        options,
        plan,
        groups,
    })
}

/// The description that begins with this token, if it begins an object.
#[tactic(auto, using(crate::proofs::Objects::objects))]
fn stream_link(
    alloc: Global,
    token: Token<'_>,
    reader: &mut Reader<'_>,
    depth: usize,
) -> Result<Result<LinkInput, Text>, Fail>
    ensures { Stands as_is result (parse_map link_of (data_at depth (token_of token.entry ∷ reader.old))) reader.new }
{
    match token {
        Token::BeginObject => {
            let depth = deeper(depth)?;
            let (large, others) = stream_members::<LinkMembers>(alloc, reader, depth)?;
            settled(link_from(alloc, large, &Value::Object(others)))
        }
        token => misfit_from(alloc, token, reader, depth),
    }
}

#[tactic(auto, using(crate::proofs::Objects::objects))]
impl Streamed for LinkInput {
    ghost streamed = { link_of };

    fn stream(
        alloc: Global,
        reader: &mut Reader<'_>,
        depth: usize,
    ) -> Result<Result<LinkInput, Text>, Fail> {
        match reader.next() {
            Some(token) => stream_link(alloc, token, reader, depth),
            None => Err(Fail::NotJson),
        }
    }
}

/// The description that a text is, all of it.
fn read_text(alloc: Global, text: &str, scratch: &mut Scratch) -> Result<LinkInput, InputError>
    ensures { Answers result (reading_of_json (read_json text.now)) }
{
    let mut reader = Reader::new(text, scratch)?;
    let read = LinkInput::stream(alloc, &mut reader, MAX_DEPTH)?;
    match reader.next() {
        Some(_) => Err(InputError::NotJson),
        None => match read {
            Ok(link) => Ok(link),
            Err(path) => Err(InputError::Shape(path)),
        },
    }
}

/// The description that the bytes are, read whole.
#[tactic(auto, using(crate::proofs::Texts::utf8_tests))]
fn read_whole(alloc: Global, bytes: &[u8]) -> Result<LinkInput, InputError>
    ensures { Answers result (reading_of bytes.now) }
{
    let text = str::from_utf8(bytes)?;
    let mut scratch = Scratch::new(alloc);
    read_text(alloc, text, &mut scratch)
}

/// The link description that the bytes are: JSON, with the fields of the format. Refused are bytes that are no JSON
/// text, and a description with a value that is missing or has a wrong shape; of those the first is told, in the order
/// of the format. Unknown keys are ignored.
pub fn read_link(alloc: Global, bytes: &[u8]) -> Result<LinkInput, InputError>
    ensures { Answers result (reading_of bytes.now) }
{
    read_link_in_pieces(alloc, bytes, PIECE)
}

/// The same, read in pieces of some `size` bytes or more where that is possible: reading then takes memory for a piece beside the text and
/// what is read of it, not for another text.
pub fn read_link_in_pieces(
    alloc: Global,
    bytes: &[u8],
    size: usize,
) -> Result<LinkInput, InputError>
    ensures { Answers result (reading_of bytes.now) }
{
    match read_in_turn(alloc, bytes, size) {
        Some(link) => Ok(link),
        None => read_whole(alloc, bytes),
    }
}

/// The same, read by so many workers where that is possible.
pub fn read_link_by_workers<R: Threads + Sync>(
    rt: &R,
    alloc: Global,
    bytes: &[u8],
    workers: usize,
) -> Result<LinkInput, InputError>
    ensures { Answers result (reading_of bytes.now) }
{
    read_link_in_pieces_by_workers(rt, alloc, bytes, workers, PIECE)
}

/// The same, where each worker reads pieces of some `size` bytes or more.
pub fn read_link_in_pieces_by_workers<R: Threads + Sync>(
    rt: &R,
    alloc: Global,
    bytes: &[u8],
    workers: usize,
    size: usize,
) -> Result<LinkInput, InputError>
    ensures { Answers result (reading_of bytes.now) }
{
    match read_by_workers(rt, alloc, bytes, workers, size) {
        Some(link) => Ok(link),
        None => read_whole(alloc, bytes),
    }
}
