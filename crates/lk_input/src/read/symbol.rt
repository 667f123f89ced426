//! The symbols of input files from JSON.

ghost use Rattle.std.specs.Prelude.{◌≡◌, ◌∷◌};
ghost use Rattle.json.specs.Json.{parse_map};
ghost use Rattle.json.specs.Reads.{token_of};
ghost use Rattle.serde_json.specs.View.{view};
ghost use Rattle.lk_input.specs.ReadingSymbols.{locs, loc_in, symbol_loc_of, placements};
ghost use Rattle.lk_input.specs.Known.{symbol_from, symbol_kept};
ghost use Rattle.lk_input.specs.ReadingSymbols.{redirect_of, placement_in, symbol_placement_of, input_symbol_of};
ghost use Rattle.lk_input.specs.ReadingSteps.{Reads, one_of};
ghost use Rattle.lk_pieces.specs.Tokens.{data_at};
ghost use Rattle.lk_input.specs.Tokens.{Stands, as_is};
ghost use Rattle.lk_input.specs.Keys.{symbol_key_text};
ghost use Rattle.lk_input.specs.Words.{loc_text, placement_text};

use crate::read::described::{Described, one_of};
use crate::read::error::InputError;
use crate::read::fail::Fail;
use crate::read::kept::Kept;
use crate::read::known::{Known, kept_needed, kept_optional, pass_value, stream_known};
use crate::read::large::{kept_or, reread};
use crate::read::member::{alone, at_most, double, element, fixed_list, single};
use crate::read::stream::{Streamed, misfit_from, settled};
use crate::read::tokens::deeper;
use crate::read::word::Word;
use json::{Reader, Token};
use lk_link::flags::ValueFlags;
use lk_link::ids::SymbolId;
use lk_link::symbol::{InputSymbol, SymbolLoc, SymbolPlacement};
use lk_link::text::Text;
use serde_json::Value;
use std::alloc::Global;

/// What the place of the location counter begins with.
#[derive(Clone, Copy)]
pub(crate) enum LocForm {
    None,
    Start,
    End,
    Counter,
}

#[tactic(auto, unfolding(crate::specs::Words::loc_text, crate::specs::ReadingSteps::written))]
impl Word for LocForm {
    ghost spelling = { loc_text };

    fn text(self) -> &'static str {
        match self {
            LocForm::None => "none",
            LocForm::Start => "start",
            LocForm::End => "end",
            LocForm::Counter => "counter",
        }
    }
}

#[tactic(auto, unfolding(crate::specs::Words::loc_text))]
impl Described for LocForm {
    ghost described = { one_of locs };

    fn read(alloc: Global, value: &Value) -> Result<LocForm, InputError> {
        one_of(
            alloc,
            value,
            &[
                LocForm::None,
                LocForm::Start,
                LocForm::End,
                LocForm::Counter,
            ],
        )
    }
}

/// The place that begins so.
#[tactic(auto, unfolding(crate::specs::ReadingSymbols::loc_in))]
fn loc_in(alloc: Global, value: &Value, form: LocForm) -> Result<SymbolLoc, InputError>
    ensures { Reads result (loc_in form (view value.now)) }
{
    Ok(match form {
        LocForm::None => alone(alloc, value, SymbolLoc::None)?,
        LocForm::Start => SymbolLoc::SectionStart(single(alloc, value)?),
        LocForm::End => SymbolLoc::SectionEnd(single(alloc, value)?),
        LocForm::Counter => SymbolLoc::Counter(single(alloc, value)?),
    })
}

#[tactic(auto, unfolding(crate::specs::ReadingSymbols::symbol_loc_of))]
impl Described for SymbolLoc {
    ghost described = { symbol_loc_of };

    fn read(alloc: Global, value: &Value) -> Result<SymbolLoc, InputError> {
        fixed_list(alloc, value)?;
        let form = element(alloc, value, 0)?;
        loc_in(alloc, value, form)
    }
}

/// What a placement begins with.
#[derive(Clone, Copy)]
pub(crate) enum PlacementForm {
    Section,
    Common,
    Absolute,
    Undef,
    Dynamic,
    Undefined,
    ForceUndefined,
    SectionStart,
    SectionEnd,
    SectionGroupEnd,
    TlsEnd,
    LoadBaseAddress,
    Redirect,
}

#[tactic(auto, unfolding(crate::specs::Words::placement_text, crate::specs::ReadingSteps::written))]
impl Word for PlacementForm {
    ghost spelling = { placement_text };

    fn text(self) -> &'static str {
        match self {
            PlacementForm::Section => "sec",
            PlacementForm::Common => "common",
            PlacementForm::Absolute => "abs",
            PlacementForm::Undef => "undef",
            PlacementForm::Dynamic => "dyn",
            PlacementForm::Undefined => "undefined",
            PlacementForm::ForceUndefined => "force",
            PlacementForm::SectionStart => "start",
            PlacementForm::SectionEnd => "end",
            PlacementForm::SectionGroupEnd => "groupend",
            PlacementForm::TlsEnd => "tlsend",
            PlacementForm::LoadBaseAddress => "loadbase",
            PlacementForm::Redirect => "redirect",
        }
    }
}

/// The placements of all kinds of files; which are a file's own is no matter of reading.
pub(crate) const PLACEMENTS: [PlacementForm; 13] = [
    PlacementForm::Section,
    PlacementForm::Common,
    PlacementForm::Absolute,
    PlacementForm::Undef,
    PlacementForm::Dynamic,
    PlacementForm::Undefined,
    PlacementForm::ForceUndefined,
    PlacementForm::SectionStart,
    PlacementForm::SectionEnd,
    PlacementForm::SectionGroupEnd,
    PlacementForm::TlsEnd,
    PlacementForm::LoadBaseAddress,
    PlacementForm::Redirect,
];

#[tactic(auto, unfolding(crate::specs::Words::placement_text))]
impl Described for PlacementForm {
    ghost described = { one_of placements };

    fn read(alloc: Global, value: &Value) -> Result<PlacementForm, InputError> {
        one_of(alloc, value, &PLACEMENTS)
    }
}

/// What an expression gives.
#[tactic(auto, unfolding(crate::specs::ReadingSymbols::redirect_of))]
fn redirect_of(alloc: Global, value: &Value) -> Result<SymbolPlacement, InputError>
    ensures { Reads result (redirect_of (view value.now)) }
{
    let expression = element(alloc, value, 1)?;
    let loc = element(alloc, value, 2)?;
    let provide = element(alloc, value, 3)?;
    at_most(alloc, value, 4)?;
    Ok(SymbolPlacement::Redirect {
        expression,
        loc,
        provide,
    })
}

/// The placement that begins so.
#[tactic(auto, unfolding(crate::specs::ReadingSymbols::placement_in))]
pub(crate) fn placement_in(
    alloc: Global,
    value: &Value,
    form: PlacementForm,
) -> Result<SymbolPlacement, InputError>
    ensures { Reads result (placement_in form (view value.now)) }
{
    Ok(match form {
        PlacementForm::Section => {
            let (index, offset) = double(alloc, value)?;
            SymbolPlacement::Section { index, offset }
        }
        PlacementForm::Common => {
            let (part, size) = double(alloc, value)?;
            SymbolPlacement::Common { part, size }
        }
        PlacementForm::Absolute => SymbolPlacement::Absolute(single(alloc, value)?),
        PlacementForm::Undef => alone(alloc, value, SymbolPlacement::Undef)?,
        PlacementForm::Dynamic => alone(alloc, value, SymbolPlacement::Dynamic)?,
        PlacementForm::Undefined => alone(alloc, value, SymbolPlacement::Undefined)?,
        PlacementForm::ForceUndefined => alone(alloc, value, SymbolPlacement::ForceUndefined)?,
        PlacementForm::SectionStart => SymbolPlacement::SectionStart(single(alloc, value)?),
        PlacementForm::SectionEnd => SymbolPlacement::SectionEnd(single(alloc, value)?),
        PlacementForm::SectionGroupEnd => SymbolPlacement::SectionGroupEnd(single(alloc, value)?),
        PlacementForm::TlsEnd => alone(alloc, value, SymbolPlacement::TlsEnd)?,
        PlacementForm::LoadBaseAddress => alone(alloc, value, SymbolPlacement::LoadBaseAddress)?,
        PlacementForm::Redirect => redirect_of(alloc, value)?,
    })
}

#[tactic(auto, unfolding(crate::specs::ReadingSymbols::symbol_placement_of))]
impl Described for SymbolPlacement {
    ghost described = { symbol_placement_of };

    fn read(alloc: Global, value: &Value) -> Result<SymbolPlacement, InputError> {
        fixed_list(alloc, value)?;
        let form = element(alloc, value, 0)?;
        placement_in(alloc, value, form)
    }
}

/// A key of a symbol.
#[derive(Clone, Copy)]
pub(crate) enum SymbolKey {
    Name,
    At,
    Def,
    Flags,
    Local,
    Weak,
    Hidden,
}

#[tactic(auto, unfolding(crate::specs::ReadingSteps::written))]
impl Word for SymbolKey {
    ghost spelling = { symbol_key_text };

    fn text(self) -> &'static str {
        match self {
            SymbolKey::Name => "name",
            SymbolKey::At => "at",
            SymbolKey::Def => "def",
            SymbolKey::Flags => "flags",
            SymbolKey::Local => "local",
            SymbolKey::Weak => "weak",
            SymbolKey::Hidden => "hidden",
        }
    }
}

/// The members of a symbol, each as what is read of it.
#[derive(Drop)]
pub(crate) struct SymbolMembers {
    name: Kept<Text>,
    at: Kept<SymbolPlacement>,
    def: Kept<SymbolId>,
    flags: Kept<u32>,
    local: Kept<bool>,
    weak: Kept<bool>,
    hidden: Kept<bool>,
}

impl Known for SymbolMembers {
    ghost kept = { symbol_kept };

    fn none() -> SymbolMembers {
        SymbolMembers {
            name: Kept::none(),
            at: Kept::none(),
            def: Kept::none(),
            flags: Kept::none(),
            local: Kept::none(),
            weak: Kept::none(),
            hidden: Kept::none(),
        }
    }

    fn take(
        &mut self,
        alloc: Global,
        key: &str,
        reader: &mut Reader<'_>,
        depth: usize,
    ) -> Result<(), Fail> {
        if key == SymbolKey::Name.text() {
            reread(alloc, &mut self.name, reader, depth)
        } else if key == SymbolKey::At.text() {
            reread(alloc, &mut self.at, reader, depth)
        } else if key == SymbolKey::Def.text() {
            reread(alloc, &mut self.def, reader, depth)
        } else if key == SymbolKey::Flags.text() {
            reread(alloc, &mut self.flags, reader, depth)
        } else if key == SymbolKey::Local.text() {
            reread(alloc, &mut self.local, reader, depth)
        } else if key == SymbolKey::Weak.text() {
            reread(alloc, &mut self.weak, reader, depth)
        } else if key == SymbolKey::Hidden.text() {
            reread(alloc, &mut self.hidden, reader, depth)
        } else {
            pass_value(alloc, reader, depth)
        }
    }
}

/// A symbol, of what was kept of its members.
#[tactic(auto, unfolding(crate::specs::Known::symbol_from))]
fn symbol_from(alloc: Global, known: SymbolMembers) -> Result<InputSymbol, InputError>
    ensures { Reads result (symbol_from known) }
{
    let name = kept_or(alloc, known.name, SymbolKey::Name, Text::new(alloc))?;
    let at = kept_needed(alloc, known.at, SymbolKey::At)?;
    let def = kept_optional(alloc, known.def, SymbolKey::Def)?;
    let flags = kept_or(alloc, known.flags, SymbolKey::Flags, 0)?;
    let local = kept_or(alloc, known.local, SymbolKey::Local, false)?;
    let weak = kept_or(alloc, known.weak, SymbolKey::Weak, false)?;
    let hidden = kept_or(alloc, known.hidden, SymbolKey::Hidden, false)?;
    Ok(InputSymbol {
        name,
        at,
        def,
        flags: ValueFlags(flags),
        local,
        weak,
        hidden,
    })
}

/// The symbol that begins with this token, if it begins an object.
#[tactic(auto, using(crate::proofs::Objects::objects))]
fn stream_symbol(
    alloc: Global,
    token: Token<'_>,
    reader: &mut Reader<'_>,
    depth: usize,
) -> Result<Result<InputSymbol, Text>, Fail>
    ensures { Stands as_is result (parse_map input_symbol_of (data_at depth (token_of token.entry ∷ reader.old))) reader.new }
{
    match token {
        Token::BeginObject => {
            let depth = deeper(depth)?;
            let mut known = SymbolMembers::none();
            match stream_known(alloc, &mut known, reader, depth) {
                Ok(()) => settled(symbol_from(alloc, known)),
                Err(fail) => {
                    drop(known);
                    Err(fail)
                }
            }
        }
        token => misfit_from(alloc, token, reader, depth),
    }
}

#[tactic(auto, using(crate::proofs::Objects::objects))]
impl Streamed for InputSymbol {
    ghost streamed = { input_symbol_of };

    fn stream(
        alloc: Global,
        reader: &mut Reader<'_>,
        depth: usize,
    ) -> Result<Result<InputSymbol, Text>, Fail> {
        match reader.next() {
            Some(token) => stream_symbol(alloc, token, reader, depth),
            None => Err(Fail::NotJson),
        }
    }
}
