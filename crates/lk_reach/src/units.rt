//! Units, which are kept or left, and what asks for them.

use lk_link::{FileId, SymbolId, ValueFlags};

/// A thing that is kept or left (libwild: `GcLoadRequest`).
#[derive(Clone, Copy, Debug, PartialEq, Eq)]
pub enum Unit {
    /// A symbol that stands for itself.
    Sym(SymbolId),
    /// An input section, by its file and its index there.
    Sec(FileId, u32),
}

/// What a root or a unit asks for (libwild: `WorkItem`).
#[derive(Clone, Copy, Debug, PartialEq, Eq)]
pub enum Ask {
    /// A symbol that stands for itself, of which these flags are set.
    Reference(SymbolId, ValueFlags),
    /// An input section, by its file and its index there.
    Section(FileId, u32),
    /// A symbol of which this flag is set, and which isn't reached by it.
    Mark(SymbolId, ValueFlags),
}
