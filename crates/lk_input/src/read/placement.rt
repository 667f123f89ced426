//! The placements of symbols, read where they stand. Each is a fixed list that a word begins.

ghost use Rattle.std.specs.Prelude.{◌≡◌};
ghost use Rattle.json.specs.Json.{parse_map};
ghost use Rattle.lk_input.specs.Plain.{placed_behind, placement_elements};
ghost use Rattle.lk_input.specs.ReadingSteps.{one_of};
ghost use Rattle.lk_input.specs.ReadingSymbols.{placements, symbol_placement_of};
ghost use Rattle.lk_pieces.specs.Tokens.{items_at};
ghost use Rattle.lk_input.specs.Tokens.{Stands, as_is};

use crate::read::error::path_below;
use crate::read::fail::Fail;
use crate::read::fixed::{Elements, pass_others, stream_fixed};
use crate::read::plain::{Plain, plain_word, stream_plain};
use crate::read::stream::{Streamed, settled};
use crate::read::symbol::{PLACEMENTS, PlacementForm, placement_in};
use crate::read::tokens::items_from;
use crate::read::word::Step;
use json::{Reader, Token};
use lk_link::symbol::SymbolPlacement;
use lk_link::text::Text;
use serde_json::Value;
use std::alloc::Global;

#[tactic(auto, unfolding(crate::specs::Words::placement_text))]
impl Plain for PlacementForm {
    fn plain(token: Token<'_>) -> Option<PlacementForm> {
        plain_word(token, &PLACEMENTS)
    }
}

impl Streamed for PlacementForm {
    ghost streamed = { one_of placements };

    fn stream(
        alloc: Global,
        reader: &mut Reader<'_>,
        depth: usize,
    ) -> Result<Result<PlacementForm, Text>, Fail> {
        stream_plain(alloc, reader, depth)
    }
}

/// The placement that begins so, which few symbols have.
#[cold]
fn stream_rare(
    alloc: Global,
    form: PlacementForm,
    reader: &mut Reader<'_>,
    depth: usize,
) -> Result<Result<SymbolPlacement, Text>, Fail>
    ensures { Stands as_is result (parse_map (placed_behind form) (items_at depth reader.old)) reader.new }
{
    let mut items = items_from(alloc, reader, depth)?;
    items.insert(0, Value::Null)?;
    settled(placement_in(alloc, &Value::Array(items), form))
}

/// The placement that begins so, of the items up to the end of the list.
fn stream_placed(
    alloc: Global,
    form: PlacementForm,
    reader: &mut Reader<'_>,
    depth: usize,
) -> Result<Result<SymbolPlacement, Text>, Fail>
    ensures { Stands as_is result (parse_map (placed_behind form) (items_at depth reader.old)) reader.new }
{
    match form {
        PlacementForm::Section => {
            match <(u32, (u64, ()))>::stream_elements(alloc, reader, depth, 1)? {
                Ok((index, (offset, ()))) => Ok(Ok(SymbolPlacement::Section { index, offset })),
                Err(path) => Ok(Err(path)),
            }
        }
        PlacementForm::Absolute => match <(u64, ())>::stream_elements(alloc, reader, depth, 1)? {
            Ok((value, ())) => Ok(Ok(SymbolPlacement::Absolute(value))),
            Err(path) => Ok(Err(path)),
        },
        PlacementForm::Undef => match <()>::stream_elements(alloc, reader, depth, 1)? {
            Ok(()) => Ok(Ok(SymbolPlacement::Undef)),
            Err(path) => Ok(Err(path)),
        },
        form => stream_rare(alloc, form, reader, depth),
    }
}

impl Elements for SymbolPlacement {
    ghost elements = { placement_elements };

    fn stream_elements(
        alloc: Global,
        reader: &mut Reader<'_>,
        depth: usize,
        index: usize,
    ) -> Result<Result<SymbolPlacement, Text>, Fail> {
        if reader.take_end_array() {
            let missing = Text::new(alloc);
            return Ok(Err(path_below(alloc, Step::Item(index), &missing)?));
        }
        match PlacementForm::stream(alloc, reader, depth)? {
            Ok(form) => stream_placed(alloc, form, reader, depth),
            Err(path) => {
                let path = path_below(alloc, Step::Item(index), &path)?;
                pass_others(alloc, reader, depth)?;
                Ok(Err(path))
            }
        }
    }
}

impl Streamed for SymbolPlacement {
    ghost streamed = { symbol_placement_of };

    fn stream(
        alloc: Global,
        reader: &mut Reader<'_>,
        depth: usize,
    ) -> Result<Result<SymbolPlacement, Text>, Fail> {
        stream_fixed(alloc, reader, depth)
    }
}
