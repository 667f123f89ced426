//! Input files.

ghost use Rattle.std.specs.Prelude.{◌≡◌};

pub use crate::candidates::Candidates;
use crate::ids::{FileId, OutputSectionId};
pub use crate::input_sections::{InputSections, group_members_rise};
use crate::list::List;
use crate::symbol::InputSymbol;
use crate::text::Text;

/// What kind of file it is.
#[derive(Clone, Copy, Debug, PartialEq, Eq)]
pub enum FileKind {
    /// The linker's own file, the first of the first group.
    Prelude,
    /// An object file.
    Object,
    /// A shared object that the output refers to.
    Dynamic,
    /// A file that nothing made the linker load.
    NotLoaded,
    /// Symbols that the linker makes, as the starts of sections.
    SyntheticSymbols,
    /// A linker script.
    LinkerScript,
}

impl FileKind {
    ghost use Rattle.lk_link.specs.FileKinds.{is_prelude, is_object, is_dynamic, is_not_loaded, is_synthetic, is_script, is_internal};

    /// Whether it is the linker's own file.
    pub fn is_prelude(self) -> bool
        ensures { result ≡ is_prelude self }
    {
        matches!(self, FileKind::Prelude)
    }

    /// Whether it is an object file.
    pub fn is_object(self) -> bool
        ensures { result ≡ is_object self }
    {
        matches!(self, FileKind::Object)
    }

    /// Whether it is a shared object that the output refers to.
    pub fn is_dynamic(self) -> bool
        ensures { result ≡ is_dynamic self }
    {
        matches!(self, FileKind::Dynamic)
    }

    /// Whether nothing made the linker load it.
    pub fn is_not_loaded(self) -> bool
        ensures { result ≡ is_not_loaded self }
    {
        matches!(self, FileKind::NotLoaded)
    }

    /// Whether it holds symbols that the linker makes.
    pub fn is_synthetic(self) -> bool
        ensures { result ≡ is_synthetic self }
    {
        matches!(self, FileKind::SyntheticSymbols)
    }

    /// Whether it is a linker script.
    pub fn is_script(self) -> bool
        ensures { result ≡ is_script self }
    {
        matches!(self, FileKind::LinkerScript)
    }

    /// Whether the linker itself places its symbols: it is the prelude, made symbols or a script.
    pub fn is_internal(self) -> bool
        ensures { result ≡ is_internal self }
    {
        matches!(
            self,
            FileKind::Prelude | FileKind::SyntheticSymbols | FileKind::LinkerScript
        )
    }
}

/// A section that a symbol at the start or the end of an output section keeps.
#[derive(Clone, Copy, Debug, PartialEq, Eq)]
pub struct Candidate {
    pub output: OutputSectionId,
    pub file: FileId,
    /// The input section, by its index in the file.
    pub index: u32,
}

/// An input file, its symbols resolved.
#[derive(Drop)]
pub struct InputFile {
    pub kind: FileKind,
    pub name: Text,
    pub symbols: List<InputSymbol>,
    /// Empty in files that are no objects.
    pub sections: InputSections,
    /// Whether it comes out of an archive.
    pub archive: bool,
    /// Whether its symbols are exported all the same.
    pub export: bool,
    /// Whether undefined symbols of this dynamic file are looked at.
    pub check: bool,
    pub candidates: Candidates,
}
