//! Relocations: what a section refers to, and how.

ghost use Rattle.std.specs.Prelude.{◌≡◌};
ghost use Rattle.lk_link.specs.Relocations.{resolution_flags, needs_tlsld, wants_got, wants_plt};

use crate::flags::ValueFlags;

/// How a relocation uses its symbol (libwild: `RelocationKind`).
#[derive(Clone, Copy, Debug, PartialEq, Eq)]
pub enum RelocationKind {
    PltRelative,
    PltRelGotBase,
    Got,
    GotRelGotBase,
    GotRelative,
    GotRelativeLoongArch64,
    GotTpOff,
    GotTpOffLoongArch64,
    GotTpOffGot,
    GotTpOffGotBase,
    TlsGd,
    TlsGdGot,
    TlsGdGotBase,
    TlsDesc,
    TlsDescLoongArch64,
    TlsDescGot,
    TlsDescGotBase,
    TlsDescCall,
    TlsLd,
    TlsLdGot,
    TlsLdGotBase,
    Absolute,
    AbsoluteSet,
    AbsoluteSetWord6,
    AbsoluteAddition,
    AbsoluteAdditionWord6,
    AbsoluteSubtraction,
    AbsoluteSubtractionWord6,
    AbsoluteLowPart,
    Relative,
    RelativeRiscVLow12,
    RelativeLoongArchHigh,
    DtpOff,
    TpOff,
    SymRelGotBase,
    PairSubtractionULEB128RiscV,
    PairSubtractionULEB128LoongArch,
    MachoSubtraction,
    SymbolSize,
    None,
    Alignment,
    MachoAddition,
}

impl RelocationKind {
    /// Whether it wants an entry of its symbol in the PLT.
    pub fn wants_plt(self) -> bool
        ensures { result ≡ wants_plt self }
    {
        resolution_flags(self).wants_plt_entry()
    }

    /// Whether it wants an entry of its symbol in the GOT: the symbol's own, or a thread-local one.
    pub fn wants_got(self) -> bool
        ensures { result ≡ wants_got self }
    {
        resolution_flags(self).wants_got_entry()
    }
}

/// What a kind of relocation wants of its symbol (libwild: `resolution_flags`).
pub fn resolution_flags(kind: RelocationKind) -> ValueFlags
    ensures { result.0 ≡ resolution_flags kind }
{
    match kind {
        RelocationKind::PltRelative | RelocationKind::PltRelGotBase => ValueFlags::PLT.merge(
            ValueFlags::GOT,
        ),
        RelocationKind::Got
        | RelocationKind::GotRelGotBase
        | RelocationKind::GotRelative
        | RelocationKind::GotRelativeLoongArch64 => ValueFlags::GOT,
        RelocationKind::GotTpOff
        | RelocationKind::GotTpOffLoongArch64
        | RelocationKind::GotTpOffGot
        | RelocationKind::GotTpOffGotBase => ValueFlags::GOT_TLS_OFFSET,
        RelocationKind::TlsGd | RelocationKind::TlsGdGot | RelocationKind::TlsGdGotBase => {
            ValueFlags::GOT_TLS_MODULE
        }
        RelocationKind::TlsDesc
        | RelocationKind::TlsDescLoongArch64
        | RelocationKind::TlsDescGot
        | RelocationKind::TlsDescGotBase
        | RelocationKind::TlsDescCall => ValueFlags::GOT_TLS_DESCRIPTOR,
        RelocationKind::TlsLd
        | RelocationKind::TlsLdGot
        | RelocationKind::TlsLdGotBase
        | RelocationKind::None
        | RelocationKind::Alignment
        | RelocationKind::MachoAddition => ValueFlags(0),
        RelocationKind::SymbolSize => ValueFlags::SYMBOL_SIZE,
        _ => ValueFlags::DIRECT,
    }
}

/// Whether a kind of relocation wants the module entry that all local thread-local symbols share (libwild:
/// `needs_tlsld`).
pub fn needs_tlsld(kind: RelocationKind) -> bool
    ensures { result ≡ needs_tlsld kind }
{
    matches!(
        kind,
        RelocationKind::TlsLd | RelocationKind::TlsLdGot | RelocationKind::TlsLdGotBase
    )
}

/// A reference from a section to a symbol of its own file.
#[derive(Clone, Copy, Debug, PartialEq, Eq)]
pub struct Relocation {
    /// Where in the section, in bytes; below its size in a checked link, unless the section is discarded.
    pub offset: u64,
    /// Added to the symbol's value.
    pub addend: i64,
    /// The symbol, by its index in the file.
    pub symbol: u32,
    pub kind: RelocationKind,
    /// Whether a thunk may stand in for the symbol.
    pub thunkable: bool,
}

/// Bytes that can be left out of a section if a symbol is near.
#[derive(Clone, Copy, Debug, PartialEq, Eq)]
pub struct RelaxCandidate {
    /// Where in the section the bytes begin.
    pub at: u64,
    /// The greatest distance between them and the symbol, in bytes.
    pub limit: u64,
    /// How many bytes can be left out.
    pub del: u64,
    /// The symbol, by its index in the file.
    pub symbol: u32,
}
