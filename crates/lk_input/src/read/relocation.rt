//! Relocations and relaxation candidates from JSON.

ghost use Rattle.std.specs.Prelude.{◌≡◌};
ghost use Rattle.lk_input.specs.ReadingRelocations.{kinds, relocation_of, relax_candidate_of};
ghost use Rattle.lk_input.specs.ReadingSteps.{one_of};
ghost use Rattle.lk_input.specs.Words.{entry_kind_text, kind_text};

use crate::read::described::{Described, one_of};
use crate::read::error::InputError;
use crate::read::fail::Fail;
use crate::read::fixed::stream_fixed;
use crate::read::plain::{Plain, plain_word, stream_plain};
use crate::read::stream::Streamed;
use crate::read::word::Word;
use json::{Reader, Token};
use lk_link::relocation::{RelaxCandidate, Relocation, RelocationKind};
use lk_link::text::Text;
use serde_json::Value;
use std::alloc::Global;

/// A kind is written as its name.
#[tactic(auto, unfolding(crate::specs::Words::kind_text, crate::specs::ReadingSteps::written))]
impl Word for RelocationKind {
    ghost spelling = { kind_text };

    fn text(self) -> &'static str {
        match self {
            RelocationKind::Absolute => "Absolute",
            RelocationKind::AbsoluteSet => "AbsoluteSet",
            RelocationKind::AbsoluteSetWord6 => "AbsoluteSetWord6",
            RelocationKind::AbsoluteAddition => "AbsoluteAddition",
            RelocationKind::AbsoluteAdditionWord6 => "AbsoluteAdditionWord6",
            RelocationKind::AbsoluteSubtraction => "AbsoluteSubtraction",
            RelocationKind::AbsoluteSubtractionWord6 => "AbsoluteSubtractionWord6",
            RelocationKind::AbsoluteLowPart => "AbsoluteLowPart",
            RelocationKind::Relative => "Relative",
            RelocationKind::RelativeRiscVLow12 => "RelativeRiscVLow12",
            RelocationKind::RelativeLoongArchHigh => "RelativeLoongArchHigh",
            RelocationKind::DtpOff => "DtpOff",
            RelocationKind::TpOff => "TpOff",
            RelocationKind::SymRelGotBase => "SymRelGotBase",
            RelocationKind::PairSubtractionULEB128RiscV => "PairSubtractionULEB128RiscV",
            RelocationKind::PairSubtractionULEB128LoongArch => "PairSubtractionULEB128LoongArch",
            RelocationKind::MachoSubtraction => "MachoSubtraction",
            RelocationKind::SymbolSize => "SymbolSize",
            RelocationKind::None => "None",
            RelocationKind::Alignment => "Alignment",
            RelocationKind::MachoAddition => "MachoAddition",
            _ => entry_kind_text(self),
        }
    }
}

/// How a kind is written that goes by a table or by thread-local data; nothing for others.
#[tactic(auto, unfolding(crate::specs::Words::entry_kind_text, crate::specs::ReadingSteps::written))]
fn entry_kind_text(kind: RelocationKind) -> &'static str
    ensures { result.now ≡ entry_kind_text kind }
{
    match kind {
        RelocationKind::PltRelative => "PltRelative",
        RelocationKind::PltRelGotBase => "PltRelGotBase",
        RelocationKind::Got => "Got",
        RelocationKind::GotRelGotBase => "GotRelGotBase",
        RelocationKind::GotRelative => "GotRelative",
        RelocationKind::GotRelativeLoongArch64 => "GotRelativeLoongArch64",
        RelocationKind::GotTpOff => "GotTpOff",
        RelocationKind::GotTpOffLoongArch64 => "GotTpOffLoongArch64",
        RelocationKind::GotTpOffGot => "GotTpOffGot",
        RelocationKind::GotTpOffGotBase => "GotTpOffGotBase",
        RelocationKind::TlsGd => "TlsGd",
        RelocationKind::TlsGdGot => "TlsGdGot",
        RelocationKind::TlsGdGotBase => "TlsGdGotBase",
        RelocationKind::TlsDesc => "TlsDesc",
        RelocationKind::TlsDescLoongArch64 => "TlsDescLoongArch64",
        RelocationKind::TlsDescGot => "TlsDescGot",
        RelocationKind::TlsDescGotBase => "TlsDescGotBase",
        RelocationKind::TlsDescCall => "TlsDescCall",
        RelocationKind::TlsLd => "TlsLd",
        RelocationKind::TlsLdGot => "TlsLdGot",
        RelocationKind::TlsLdGotBase => "TlsLdGotBase",
        _ => "",
    }
}

/// All kinds, the common ones first: a text is looked for from the front.
const KINDS: [RelocationKind; 42] = [
    RelocationKind::Absolute,
    RelocationKind::Relative,
    RelocationKind::PltRelative,
    RelocationKind::Got,
    RelocationKind::GotRelative,
    RelocationKind::GotTpOff,
    RelocationKind::TpOff,
    RelocationKind::DtpOff,
    RelocationKind::TlsGd,
    RelocationKind::TlsLd,
    RelocationKind::TlsDesc,
    RelocationKind::TlsDescCall,
    RelocationKind::None,
    RelocationKind::SymbolSize,
    RelocationKind::SymRelGotBase,
    RelocationKind::PltRelGotBase,
    RelocationKind::GotRelGotBase,
    RelocationKind::GotRelativeLoongArch64,
    RelocationKind::GotTpOffLoongArch64,
    RelocationKind::GotTpOffGot,
    RelocationKind::GotTpOffGotBase,
    RelocationKind::TlsGdGot,
    RelocationKind::TlsGdGotBase,
    RelocationKind::TlsDescLoongArch64,
    RelocationKind::TlsDescGot,
    RelocationKind::TlsDescGotBase,
    RelocationKind::TlsLdGot,
    RelocationKind::TlsLdGotBase,
    RelocationKind::AbsoluteSet,
    RelocationKind::AbsoluteSetWord6,
    RelocationKind::AbsoluteAddition,
    RelocationKind::AbsoluteAdditionWord6,
    RelocationKind::AbsoluteSubtraction,
    RelocationKind::AbsoluteSubtractionWord6,
    RelocationKind::AbsoluteLowPart,
    RelocationKind::RelativeRiscVLow12,
    RelocationKind::RelativeLoongArchHigh,
    RelocationKind::PairSubtractionULEB128RiscV,
    RelocationKind::PairSubtractionULEB128LoongArch,
    RelocationKind::MachoSubtraction,
    RelocationKind::Alignment,
    RelocationKind::MachoAddition,
];

#[tactic(auto, unfolding(crate::specs::Words::kind_text, crate::specs::Words::entry_kind_text))]
impl Described for RelocationKind {
    ghost described = { one_of kinds };

    fn read(alloc: Global, value: &Value) -> Result<RelocationKind, InputError> {
        one_of(alloc, value, &KINDS)
    }
}

#[tactic(auto, unfolding(crate::specs::Words::kind_text, crate::specs::Words::entry_kind_text))]
impl Plain for RelocationKind {
    fn plain(token: Token<'_>) -> Option<RelocationKind> {
        plain_word(token, &KINDS)
    }
}

impl Streamed for RelocationKind {
    ghost streamed = { one_of kinds };

    fn stream(
        alloc: Global,
        reader: &mut Reader<'_>,
        depth: usize,
    ) -> Result<Result<RelocationKind, Text>, Fail> {
        stream_plain(alloc, reader, depth)
    }
}

/// The items of a relocation.
type RelocationItems = (u64, (RelocationKind, (u32, (i64, (bool, ())))));

impl Streamed for Relocation {
    ghost streamed = { relocation_of };

    fn stream(
        alloc: Global,
        reader: &mut Reader<'_>,
        depth: usize,
    ) -> Result<Result<Relocation, Text>, Fail> {
        match stream_fixed::<RelocationItems>(alloc, reader, depth)? {
            Ok((offset, (kind, (symbol, (addend, (thunkable, ())))))) => Ok(Ok(Relocation {
                offset,
                addend,
                symbol,
                kind,
                thunkable,
            })),
            Err(path) => Ok(Err(path)),
        }
    }
}

/// The items of a relaxation candidate.
type RelaxItems = (u64, (u32, (u64, (u64, ()))));

impl Streamed for RelaxCandidate {
    ghost streamed = { relax_candidate_of };

    fn stream(
        alloc: Global,
        reader: &mut Reader<'_>,
        depth: usize,
    ) -> Result<Result<RelaxCandidate, Text>, Fail> {
        match stream_fixed::<RelaxItems>(alloc, reader, depth)? {
            Ok((at, (symbol, (limit, (del, ()))))) => Ok(Ok(RelaxCandidate {
                at,
                limit,
                del,
                symbol,
            })),
            Err(path) => Ok(Err(path)),
        }
    }
}
