//! What the link is asked for.

ghost use Rattle.std.specs.Prelude.{◌≡◌};

use crate::ids::SymbolId;
use crate::names::Names;
use crate::text::Text;

/// What kind of file is made (libwild: `OutputKind`).
#[derive(Clone, Copy, Debug, PartialEq, Eq)]
pub enum OutputKind {
    /// An executable that no dynamic linker loads.
    StaticExecutable,
    /// An executable that a dynamic linker loads.
    DynamicExecutable,
    /// A shared object.
    SharedObject,
    /// An object file again.
    Partial,
}

impl OutputKind {
    ghost use Rattle.lk_link.specs.OutputKinds.{is_partial, is_loaded_dynamically};

    /// Whether it is an object file again.
    pub fn is_partial(self) -> bool
        ensures { result ≡ is_partial self }
    {
        matches!(self, OutputKind::Partial)
    }

    /// Whether a dynamic linker loads it.
    pub fn is_loaded_dynamically(self) -> bool
        ensures { result ≡ is_loaded_dynamically self }
    {
        matches!(
            self,
            OutputKind::DynamicExecutable | OutputKind::SharedObject
        )
    }
}

/// Which local symbols are left out of the symbol table.
#[derive(Clone, Copy, Debug, PartialEq, Eq)]
pub enum DiscardLocals {
    /// Those whose names begin with `.L`.
    Default,
    All,
    None,
}

/// The options of a link.
#[derive(Drop)]
pub struct Options {
    pub output: OutputKind,
    /// Whether sections that nothing refers to are left out.
    pub gc: bool,
    /// Whether an undefined symbol that an object refers to is refused.
    pub error_objects: bool,
    /// The same for dynamic files.
    pub error_dynamics: bool,
    /// Whether all symbols are exported.
    pub export_all: bool,
    /// The symbols to export; none where no list is given.
    pub export_list: Option<Names>,
    /// Whether only symbols of the list are exported.
    pub restrictive: bool,
    /// Whether no symbol table is made.
    pub strip_all: bool,
    pub discard: DiscardLocals,
    /// Symbols that are left out of the symbol table.
    pub strip_names: Names,
    /// What the linker calls itself in the output.
    pub identity: Option<Text>,
    /// Bytes of the stack.
    pub stack: u64,
    /// Where the program starts.
    pub entry: Option<SymbolId>,
    /// Whether code is shortened where its targets are near.
    pub relax: bool,
    /// How far a branch reaches, in bytes; 0 where no branch is limited.
    pub branch_range: u64,
    /// The most bytes of a bucket of merged strings.
    pub bucket_limit: u64,
    /// About how many bytes of strings are merged in one go.
    pub merge_group: u64,
}
