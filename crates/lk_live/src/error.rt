//! Why it isn't told what is live.

use lk_link::{FileId, List, SymbolId};
use std::alloc::{AllocError, AllocFailed};
use std::fmt;

/// A reference that can't be met.
#[derive(Clone, Copy, Debug, PartialEq, Eq)]
pub enum ReferenceFault {
    /// A section that is reached is left out, whatever refers to it: its file and its index there.
    Discarded(FileId, u32),
    /// A relocation needs a symbol that is defined nowhere: the symbol that stands for its own, the relocation's file, the
    /// section's index there, and the relocation's index in the section.
    Undefined(SymbolId, FileId, u32, u32),
    /// A symbol of a dynamic file is defined nowhere: the symbol itself, and the file.
    UndefinedDynamic(SymbolId, FileId),
}

/// An input section, by its file and its index there.
#[derive(Clone, Copy)]
pub struct InputAt {
    pub file: FileId,
    pub section: u32,
}

/// As `1 0 2`: group, file and section.
impl fmt::Display for InputAt {
    ghost use Rattle.std.specs.Prelude.{Some};
    ghost use Rattle.lk_live.specs.Texts.{input_text};

    ghost output = { λ input. Some (input_text input.file input.section) };

    fn fmt<W: fmt::Write>(&self, f: &mut fmt::Formatter<W>) -> fmt::Result {
        let FileId { group, file } = self.file;
        let section = self.section;
        write!(f, "{group} {file} {section}")
    }
}

/// As `discarded: 1 0 2`, `undefined: symbol 5 from 1 0 2 relocation 0` or `undefined: symbol 5 from 1 0`, with file and section as
/// three numbers, and a file as two.
impl fmt::Display for ReferenceFault {
    ghost use Rattle.std.specs.Prelude.{Some};
    ghost use Rattle.lk_live.specs.Texts.{reference_text};

    ghost output = { λ fault. Some (reference_text fault) };

    fn fmt<W: fmt::Write>(&self, f: &mut fmt::Formatter<W>) -> fmt::Result {
        match *self {
            ReferenceFault::Discarded(file, section) => {
                let input = InputAt { file, section };
                write!(f, "discarded: {input}")
            }
            ReferenceFault::UndefinedDynamic(symbol, file) => {
                let symbol = symbol.as_u32();
                let FileId { group, file } = file;
                write!(f, "undefined: symbol {symbol} from {group} {file}")
            }
            ReferenceFault::Undefined(symbol, file, section, relocation) => {
                let symbol = symbol.as_u32();
                let input = InputAt { file, section };
                write!(
                    f,
                    "undefined: symbol {symbol} from {input} relocation {relocation}"
                )
            }
        }
    }
}

/// Why it isn't told what is live.
#[derive(Drop)]
pub enum GcError {
    /// These references can't be met, by file, section and relocation.
    References(List<ReferenceFault>),
    /// There was no memory for the marks.
    NoMemory,
}

impl From<AllocError> for GcError {
    ghost use Rattle.std.specs.Prelude.{◌≡◌};
    ghost use Rattle.lk_live.specs.declared.error.GcError.TheVariants.{NoMemory};

    ghost from_gives = { λ _ e. e ≡ NoMemory };

    fn from(_error: AllocError) -> GcError {
        GcError::NoMemory
    }
}

impl<T: Drop> From<AllocFailed<T>> for GcError {
    ghost use Rattle.std.specs.Prelude.{◌≡◌};
    ghost use Rattle.lk_live.specs.declared.error.GcError.TheVariants.{NoMemory};

    ghost from_gives = { λ _ e. e ≡ NoMemory };

    fn from(_error: AllocFailed<T>) -> GcError {
        GcError::NoMemory
    }
}
