//! The sections of objects from JSON.

ghost use Rattle.std.specs.Prelude.{◌≡◌, ◌∷◌, [], unwrap_or};
ghost use Rattle.std.specs.Result.{result_ok};
ghost use Rattle.json.specs.Json.{parse_map};
ghost use Rattle.json.specs.Reads.{token_of};
ghost use Rattle.hex.specs.Hex.{decode_of};
ghost use Rattle.lk_input.specs.KnownSections.{section_from, section_kept};
ghost use Rattle.lk_input.specs.ReadingSections.{slots, hex_bytes};
ghost use Rattle.lk_input.specs.ReadingSections.{size_in, input_section_of, input_sections_of};
ghost use Rattle.lk_input.specs.ReadingSteps.{Reads, one_of, wanted};
ghost use Rattle.lk_pieces.specs.Tokens.{data_at};
ghost use Rattle.lk_input.specs.Tokens.{Stands, as_is};
ghost use Rattle.lk_input.specs.Keys.{input_section_key_text};
ghost use Rattle.lk_input.specs.Words.{slot_text};

use crate::read::described::{Described, one_of, wanted};
use crate::read::error::InputError;
use crate::read::fail::Fail;
use crate::read::kept::Kept;
use crate::read::known::{Known, kept_needed, kept_optional, pass_value, stream_known};
use crate::read::large::{kept_or, reread};
use crate::read::plain::{Plain, described_from, plain_word, stream_plain};
use crate::read::stream::{Streamed, misfit_from, settled};
use crate::read::tokens::deeper;
use crate::read::word::Word;
use hex::FromHexError;
use json::{Reader, Token};
use lk_link::file::InputSections;
use lk_link::ids::PartId;
use lk_link::list::List;
use lk_link::relocation::{RelaxCandidate, Relocation};
use lk_link::section::{InputSection, InputSlot};
use lk_link::text::Text;
use serde_json::Value;
use std::alloc::Global;
use std::marker::Model;

/// A key of an input section.
#[derive(Clone, Copy)]
pub(crate) enum InputSectionKey {
    Name,
    Slot,
    Part,
    Size,
    Data,
    Strings,
    Sorted,
    Attrs,
    Group,
    Relocs,
    Relax,
}

#[tactic(auto, unfolding(crate::specs::ReadingSteps::written))]
impl Word for InputSectionKey {
    ghost spelling = { input_section_key_text };

    fn text(self) -> &'static str {
        match self {
            InputSectionKey::Name => "name",
            InputSectionKey::Slot => "slot",
            InputSectionKey::Part => "part",
            InputSectionKey::Size => "size",
            InputSectionKey::Data => "data",
            InputSectionKey::Strings => "strings",
            InputSectionKey::Sorted => "sorted",
            InputSectionKey::Attrs => "attrs",
            InputSectionKey::Group => "group",
            InputSectionKey::Relocs => "relocs",
            InputSectionKey::Relax => "relax",
        }
    }
}

#[tactic(auto, unfolding(crate::specs::Words::slot_text, crate::specs::ReadingSteps::written))]
impl Word for InputSlot {
    ghost spelling = { slot_text };

    fn text(self) -> &'static str {
        match self {
            InputSlot::Discard => "discard",
            InputSlot::Unloaded => "unloaded",
            InputSlot::MustLoad => "must",
            InputSlot::DebugInfo => "debug",
            InputSlot::MustLoadDebugInfo => "mustdebug",
            InputSlot::Merge => "merge",
        }
    }
}

/// All slots.
const SLOTS: [InputSlot; 6] = [
    InputSlot::Discard,
    InputSlot::Unloaded,
    InputSlot::MustLoad,
    InputSlot::DebugInfo,
    InputSlot::MustLoadDebugInfo,
    InputSlot::Merge,
];

#[tactic(auto, unfolding(crate::specs::Words::slot_text))]
impl Described for InputSlot {
    ghost described = { one_of slots };

    fn read(alloc: Global, value: &Value) -> Result<InputSlot, InputError> {
        one_of(alloc, value, &SLOTS)
    }
}

#[tactic(auto, unfolding(crate::specs::Words::slot_text))]
impl Plain for InputSlot {
    fn plain(token: Token<'_>) -> Option<InputSlot> {
        plain_word(token, &SLOTS)
    }
}

impl Streamed for InputSlot {
    ghost streamed = { one_of slots };

    fn stream(
        alloc: Global,
        reader: &mut Reader<'_>,
        depth: usize,
    ) -> Result<Result<InputSlot, Text>, Fail> {
        stream_plain(alloc, reader, depth)
    }
}

/// Bytes that are written in hexadecimal.
#[derive(Drop)]
pub(crate) struct Hexadecimal {
    bytes: List<u8>,
}

impl Model for Hexadecimal {
    ghost use Rattle.std.specs.Prelude.{ℕ, List as Items};

    ghost Value = { Items ℕ };

    ghost view = { λ a. a.bytes };
}

impl Hexadecimal {
    /// Those that a text writes.
    fn decoded(alloc: Global, text: &str) -> Result<Hexadecimal, InputError>
        ensures { Reads result (wanted (result_ok (decode_of text.now))) }
    {
        match hex::decode(alloc, text) {
            Ok(bytes) => Ok(Hexadecimal {
                bytes: List::from_vec(bytes),
            }),
            Err(FromHexError::OutOfMemory) => Err(InputError::NoMemory),
            Err(_) => Err(InputError::misfit(alloc)),
        }
    }

    /// The bytes.
    fn into_bytes(self) -> List<u8>
        ensures { result ≡ self }
    {
        self.bytes
    }
}

impl Described for Hexadecimal {
    ghost described = { hex_bytes };

    fn read(alloc: Global, value: &Value) -> Result<Hexadecimal, InputError> {
        Hexadecimal::decoded(alloc, wanted(alloc, value.as_str())?)
    }
}

/// The bytes that begin with this token, if it is a text.
fn hexadecimal_from(
    alloc: Global,
    token: Token<'_>,
    reader: &mut Reader<'_>,
    depth: usize,
) -> Result<Result<Hexadecimal, Text>, Fail>
    ensures { Stands as_is result (parse_map hex_bytes (data_at depth (token_of token.entry ∷ reader.old))) reader.new }
{
    match token {
        Token::String(text) => settled(Hexadecimal::decoded(alloc, text)),
        token => described_from(alloc, token, reader, depth),
    }
}

#[tactic(auto, using(crate::proofs::Objects::objects))]
impl Streamed for Hexadecimal {
    ghost streamed = { hex_bytes };

    fn stream(
        alloc: Global,
        reader: &mut Reader<'_>,
        depth: usize,
    ) -> Result<Result<Hexadecimal, Text>, Fail> {
        match reader.next() {
            Some(token) => hexadecimal_from(alloc, token, reader, depth),
            None => Err(Fail::NotJson),
        }
    }
}

/// The bytes of data, where they are given; else none, which take no memory.
fn bytes_of(alloc: Global, given: Option<Hexadecimal>) -> List<u8>
    ensures { result ≡ unwrap_or given [] }
{
    match given {
        Some(bytes) => bytes.into_bytes(),
        None => List::new(alloc),
    }
}

/// The size of a section in this slot: of a merge section, how many bytes it holds.
fn size_in(slot: InputSlot, size: u64, bytes: &List<u8>) -> u64
    ensures { result ≡ size_in slot size bytes.now }
{
    match slot {
        InputSlot::Merge => bytes.len() as u64,
        _ => size,
    }
}

/// The members of a section, each as what is read of it.
#[derive(Drop)]
pub(crate) struct SectionMembers {
    name: Kept<Text>,
    slot: Kept<InputSlot>,
    part: Kept<PartId>,
    size: Kept<u64>,
    bytes: Kept<Hexadecimal>,
    strings: Kept<bool>,
    sorted: Kept<bool>,
    attrs: Kept<u32>,
    group: Kept<u32>,
    relocs: Kept<List<Relocation>>,
    relax: Kept<List<RelaxCandidate>>,
}

impl Known for SectionMembers {
    ghost kept = { section_kept };

    fn none() -> SectionMembers {
        SectionMembers {
            name: Kept::none(),
            slot: Kept::none(),
            part: Kept::none(),
            size: Kept::none(),
            bytes: Kept::none(),
            strings: Kept::none(),
            sorted: Kept::none(),
            attrs: Kept::none(),
            group: Kept::none(),
            relocs: Kept::none(),
            relax: Kept::none(),
        }
    }

    fn take(
        &mut self,
        alloc: Global,
        key: &str,
        reader: &mut Reader<'_>,
        depth: usize,
    ) -> Result<(), Fail> {
        if key == InputSectionKey::Name.text() {
            reread(alloc, &mut self.name, reader, depth)
        } else if key == InputSectionKey::Slot.text() {
            reread(alloc, &mut self.slot, reader, depth)
        } else if key == InputSectionKey::Part.text() {
            reread(alloc, &mut self.part, reader, depth)
        } else if key == InputSectionKey::Size.text() {
            reread(alloc, &mut self.size, reader, depth)
        } else if key == InputSectionKey::Data.text() {
            reread(alloc, &mut self.bytes, reader, depth)
        } else if key == InputSectionKey::Strings.text() {
            reread(alloc, &mut self.strings, reader, depth)
        } else if key == InputSectionKey::Sorted.text() {
            reread(alloc, &mut self.sorted, reader, depth)
        } else if key == InputSectionKey::Attrs.text() {
            reread(alloc, &mut self.attrs, reader, depth)
        } else if key == InputSectionKey::Group.text() {
            reread(alloc, &mut self.group, reader, depth)
        } else if key == InputSectionKey::Relocs.text() {
            reread(alloc, &mut self.relocs, reader, depth)
        } else if key == InputSectionKey::Relax.text() {
            reread(alloc, &mut self.relax, reader, depth)
        } else {
            pass_value(alloc, reader, depth)
        }
    }
}

/// A section, of what was kept of its members.
#[tactic(auto, unfolding(crate::specs::KnownSections::section_from))]
fn section_from(alloc: Global, known: SectionMembers) -> Result<InputSection, InputError>
    ensures { Reads result (section_from known) }
{
    let name = kept_or(alloc, known.name, InputSectionKey::Name, Text::new(alloc))?;
    let slot = kept_needed(alloc, known.slot, InputSectionKey::Slot)?;
    let first = PartId::from_u32(0);
    let part = kept_or(alloc, known.part, InputSectionKey::Part, first)?;
    let size = kept_or(alloc, known.size, InputSectionKey::Size, 0)?;
    let data = kept_optional(alloc, known.bytes, InputSectionKey::Data)?;
    let strings = kept_or(alloc, known.strings, InputSectionKey::Strings, false)?;
    let sorted = kept_or(alloc, known.sorted, InputSectionKey::Sorted, false)?;
    let attrs = kept_or(alloc, known.attrs, InputSectionKey::Attrs, 0)?;
    let group = kept_optional(alloc, known.group, InputSectionKey::Group)?;
    let no_relocs = List::new(alloc);
    let relocs = kept_or(alloc, known.relocs, InputSectionKey::Relocs, no_relocs)?;
    let no_relax = List::new(alloc);
    let relax = kept_or(alloc, known.relax, InputSectionKey::Relax, no_relax)?;
    let given = data.is_some();
    let bytes = bytes_of(alloc, data);
    Ok(InputSection {
        name,
        slot,
        part,
        size: size_in(slot, size, &bytes),
        bytes,
        given,
        strings,
        sorted,
        attrs,
        group,
        relocs,
        relax,
    })
}

/// The section that begins with this token, if it begins an object.
#[tactic(auto, using(crate::proofs::Objects::objects))]
fn stream_section(
    alloc: Global,
    token: Token<'_>,
    reader: &mut Reader<'_>,
    depth: usize,
) -> Result<Result<InputSection, Text>, Fail>
    ensures { Stands as_is result (parse_map input_section_of (data_at depth (token_of token.entry ∷ reader.old))) reader.new }
{
    match token {
        Token::BeginObject => {
            let depth = deeper(depth)?;
            let mut known = SectionMembers::none();
            match stream_known(alloc, &mut known, reader, depth) {
                Ok(()) => settled(section_from(alloc, known)),
                Err(fail) => {
                    drop(known);
                    Err(fail)
                }
            }
        }
        token => misfit_from(alloc, token, reader, depth),
    }
}

#[tactic(auto, using(crate::proofs::Objects::objects))]
impl Streamed for InputSection {
    ghost streamed = { input_section_of };

    fn stream(
        alloc: Global,
        reader: &mut Reader<'_>,
        depth: usize,
    ) -> Result<Result<InputSection, Text>, Fail> {
        match reader.next() {
            Some(token) => stream_section(alloc, token, reader, depth),
            None => Err(Fail::NotJson),
        }
    }
}

impl Streamed for InputSections {
    ghost streamed = { input_sections_of };

    fn stream(
        alloc: Global,
        reader: &mut Reader<'_>,
        depth: usize,
    ) -> Result<Result<InputSections, Text>, Fail> {
        match List::stream(alloc, reader, depth)? {
            Ok(sections) => Ok(Ok(InputSections::new(alloc, sections)?)),
            Err(path) => Ok(Err(path)),
        }
    }
}
