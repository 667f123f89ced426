//! Files in the traversal: what each is called, which symbols it has, and what it adds to what waits where one of its symbols is
//! asked for.

ghost use Rattle.std.specs.Prelude.{◌≡◌, ◌++◌, None, OnErr, OnOk, Some, MatchOption, slice_get};
ghost use Rattle.std.specs.Fmt.{DisplaysOnOk};
ghost use Rattle.lk_link.specs.Files.{file_in};
ghost use Rattle.lk_link.specs.SymbolRanges.{IsWithin};
ghost use Rattle.lk_link.specs.Symbols.{definition_of};
ghost use Rattle.lk_link.specs.WellFormed.{IsWellFormed};
ghost use Rattle.lk_link.specs.declared.ids.FileId.{FileId};
ghost use Rattle.lk_link.specs.declared.ids.SymbolIdRange.{SymbolIdRange};
ghost use Rattle.lk_reach.specs.Units.{follows};
ghost use Rattle.lk_gc.specs.States.{IsGroupStateOf, IsStateBy};
ghost use Rattle.lk_gc.specs.StateTexts.{file_name, files_name};
ghost use Rattle.lk_reach.specs.declared.units.Unit.TheVariants.{Sym};
ghost use Rattle.lk_workers.specs.Work.{items_of};

use lk_link::{FileId, FileKind, InputFile, LinkInput, SymbolId, SymbolIdRange};
use lk_reach::{Unit, successors};
use lk_workers::LocalWorkQueue;
use std::alloc::AllocError;
use std::fmt;

/// A file that has symbols (libwild: `HandlerData`).
pub trait HandlerData {
    /// The file.
    ghost file: { Self → FileId };

    /// The numbers of its symbols.
    ghost symbols: { Self → SymbolIdRange };

    /// The numbers of its symbols.
    fn symbol_id_range(&self) -> SymbolIdRange
        ensures { result ≡ symbols self.now };

    /// The file, by its group and its index there.
    fn file_id(&self) -> FileId
        ensures { result ≡ file self.now };
}

/// A file that loads what its symbols need (libwild: `SymbolRequestHandler`).
pub trait SymbolRequestHandler: fmt::Display + HandlerData {
    /// Adds to the queue what a symbol of the file asks for, if the symbol stands for itself, as each that is reached does by a
    /// law: its sections to be loaded, and the symbols that it refers to, to be loaded or exported. It sets no flags. Without
    /// memory the queue stays as it is.
    fn load_symbol(
        &self,
        symbol: SymbolId,
        link: &LinkInput,
        queue: &mut LocalWorkQueue,
    ) -> Result<(), AllocError>
        requires well_formed { IsWellFormed link.now }
        requires canonical { definition_of link.now.groups symbol ≡ Some symbol }
        requires own { IsWithin (Self.symbols self.now) symbol }
        ensures added { OnOk result (queue.new ≡ queue.old ++ items_of (follows link.now (Sym symbol))) }
        ensures kept { OnErr result (queue.new ≡ queue.old) }
    {
        queue.add(successors(link, Unit::Sym(symbol)))
    }
}

/// An object in the traversal (libwild: `ObjectLayoutState`).
#[derive(Drop)]
pub struct ObjectLayoutState<'data> {
    pub file_id: FileId,
    pub symbol_id_range: SymbolIdRange,
    pub name: &'data str,
}

/// A shared object in the traversal (libwild: `DynamicLayoutState`).
#[derive(Drop)]
pub struct DynamicLayoutState<'data> {
    pub file_id: FileId,
    pub symbol_id_range: SymbolIdRange,
    pub name: &'data str,
}

/// The linker's own file in the traversal (libwild: `PreludeLayoutState`).
#[derive(Drop)]
pub struct PreludeLayoutState {
    pub file_id: FileId,
    pub symbol_id_range: SymbolIdRange,
}

/// A linker script in the traversal (libwild: `LinkerScriptLayoutState`).
#[derive(Drop)]
pub struct LinkerScriptLayoutState<'data> {
    pub file_id: FileId,
    pub symbol_id_range: SymbolIdRange,
    pub name: &'data str,
}

/// Symbols that the linker makes, in the traversal (libwild: `SyntheticSymbolsLayoutState`).
#[derive(Drop)]
pub struct SyntheticSymbolsLayoutState {
    pub file_id: FileId,
    pub symbol_id_range: SymbolIdRange,
}

/// What comes behind all files (libwild: `EpilogueLayoutState`).
#[derive(Drop)]
pub struct EpilogueLayoutState {}

/// A file of any kind in the traversal (libwild: `FileLayoutState`).
#[derive(Drop)]
pub enum FileLayoutState<'data> {
    Prelude(PreludeLayoutState),
    Object(ObjectLayoutState<'data>),
    Dynamic(DynamicLayoutState<'data>),
    SyntheticSymbols(SyntheticSymbolsLayoutState),
    Epilogue(EpilogueLayoutState),
    LinkerScript(LinkerScriptLayoutState<'data>),
    NotLoaded,
}

/// A group of files in the traversal, lent by the link (libwild: `GroupState`).
#[derive(Drop)]
pub struct GroupState<'data> {
    pub files: &'data [InputFile],
    pub group: u32,
}

impl<'data> FileLayoutState<'data> {
    ghost use Rattle.std.specs.Prelude.{◌≡◌, MatchOption, None};
    ghost use Rattle.lk_link.specs.Files.{file_in};
    ghost use Rattle.lk_link.specs.WellFormed.{IsWellFormed};
    ghost use Rattle.lk_gc.specs.States.{IsStateOf};

    /// The state of a file of a link, by its kind: its number and those of its symbols, unless it isn't loaded, and the name of an
    /// object, a shared object or a script, lent; none where there is no such file. No file is the epilogue. Takes constant time,
    /// which no clause says, and no memory.
    pub fn of_file(link: &'data LinkInput, file_id: FileId) -> Option<FileLayoutState<'data>>
        requires { IsWellFormed link.now }
        ensures { MatchOption result (file_in link.now.groups file_id ≡ None) (IsStateOf link.now file_id) }
    {
        let file = link.groups.file(file_id)?;
        let symbol_id_range = link.groups.symbol_id_range(file_id)?;
        Some(state_of(file, file_id, symbol_id_range))
    }
}

/// The state of a file with this number, whose symbols have these numbers.
fn state_of(
    file: &InputFile,
    file_id: FileId,
    symbol_id_range: SymbolIdRange,
) -> FileLayoutState<'_>
    ensures { IsStateBy file.now file_id symbol_id_range result }
{
    let name = file.name.as_str();
    match file.kind {
        FileKind::Prelude => FileLayoutState::Prelude(PreludeLayoutState {
            file_id,
            symbol_id_range,
        }),
        FileKind::Object => FileLayoutState::Object(ObjectLayoutState {
            file_id,
            symbol_id_range,
            name,
        }),
        FileKind::Dynamic => FileLayoutState::Dynamic(DynamicLayoutState {
            file_id,
            symbol_id_range,
            name,
        }),
        FileKind::LinkerScript => FileLayoutState::LinkerScript(LinkerScriptLayoutState {
            file_id,
            symbol_id_range,
            name,
        }),
        FileKind::SyntheticSymbols => {
            FileLayoutState::SyntheticSymbols(SyntheticSymbolsLayoutState {
                file_id,
                symbol_id_range,
            })
        }
        FileKind::NotLoaded => FileLayoutState::NotLoaded,
    }
}

impl<'data> GroupState<'data> {
    /// The state of the group of a link that has this number: the number, and the group's files, lent; none where there is no such
    /// group. Takes constant time, which no clause says, and no memory.
    pub fn of_group(link: &'data LinkInput, group: u32) -> Option<GroupState<'data>>
        ensures { MatchOption result (slice_get link.now.groups group ≡ None) (IsGroupStateOf link.now group) }
    {
        let files = link.groups.as_slice().get(group as usize)?;
        Some(GroupState {
            files: files.as_slice(),
            group,
        })
    }
}

impl HandlerData for ObjectLayoutState<'_> {
    ghost file = { λ state. state.file_id };

    ghost symbols = { λ state. state.symbol_id_range };

    fn symbol_id_range(&self) -> SymbolIdRange {
        self.symbol_id_range
    }

    fn file_id(&self) -> FileId {
        self.file_id
    }
}

impl SymbolRequestHandler for ObjectLayoutState<'_> {}

impl HandlerData for DynamicLayoutState<'_> {
    ghost file = { λ state. state.file_id };

    ghost symbols = { λ state. state.symbol_id_range };

    fn symbol_id_range(&self) -> SymbolIdRange {
        self.symbol_id_range
    }

    fn file_id(&self) -> FileId {
        self.file_id
    }
}

impl SymbolRequestHandler for DynamicLayoutState<'_> {}

impl HandlerData for PreludeLayoutState {
    ghost file = { λ state. state.file_id };

    ghost symbols = { λ state. state.symbol_id_range };

    fn symbol_id_range(&self) -> SymbolIdRange {
        self.symbol_id_range
    }

    fn file_id(&self) -> FileId {
        self.file_id
    }
}

impl SymbolRequestHandler for PreludeLayoutState {}

impl HandlerData for LinkerScriptLayoutState<'_> {
    ghost file = { λ state. state.file_id };

    ghost symbols = { λ state. state.symbol_id_range };

    fn symbol_id_range(&self) -> SymbolIdRange {
        self.symbol_id_range
    }

    fn file_id(&self) -> FileId {
        self.file_id
    }
}

impl SymbolRequestHandler for LinkerScriptLayoutState<'_> {}

impl HandlerData for SyntheticSymbolsLayoutState {
    ghost file = { λ state. state.file_id };

    ghost symbols = { λ state. state.symbol_id_range };

    fn symbol_id_range(&self) -> SymbolIdRange {
        self.symbol_id_range
    }

    fn file_id(&self) -> FileId {
        self.file_id
    }
}

impl SymbolRequestHandler for SyntheticSymbolsLayoutState {}

/// As `a.o (1.0)`: its name, and its group and index there.
impl fmt::Display for ObjectLayoutState<'_> {
    ghost use Rattle.std.specs.Prelude.{Some};
    ghost use Rattle.lk_gc.specs.StateTexts.{placed_name};

    ghost output = { λ state. Some (placed_name state.name.now state.file_id) };

    fn fmt<W: fmt::Write>(&self, f: &mut fmt::Formatter<W>) -> fmt::Result {
        let name = self.name;
        let id = self.file_id;
        write!(f, "{name} ({id})")
    }
}

/// As `libc.so (1.0)`: its name, and its group and index there.
impl fmt::Display for DynamicLayoutState<'_> {
    ghost use Rattle.std.specs.Prelude.{Some};
    ghost use Rattle.lk_gc.specs.StateTexts.{placed_name};

    ghost output = { λ state. Some (placed_name state.name.now state.file_id) };

    fn fmt<W: fmt::Write>(&self, f: &mut fmt::Formatter<W>) -> fmt::Result {
        let name = self.name;
        let id = self.file_id;
        write!(f, "{name} ({id})")
    }
}

/// As `<prelude>`.
impl fmt::Display for PreludeLayoutState {
    ghost use Rattle.std.specs.Prelude.{Some};
    ghost use Rattle.lk_gc.specs.StateTexts.{prelude_name};

    ghost output = { λ state. Some (prelude_name) };

    fn fmt<W: fmt::Write>(&self, f: &mut fmt::Formatter<W>) -> fmt::Result {
        f.write_str("<prelude>")
    }
}

/// As its name.
impl fmt::Display for LinkerScriptLayoutState<'_> {
    ghost use Rattle.std.specs.Prelude.{Some};
    ghost use Rattle.lk_gc.specs.StateTexts.{script_name};

    ghost output = { λ state. Some (script_name state.name.now) };

    fn fmt<W: fmt::Write>(&self, f: &mut fmt::Formatter<W>) -> fmt::Result {
        f.write_str(self.name)
    }
}

/// As `<synthetic>`.
impl fmt::Display for SyntheticSymbolsLayoutState {
    ghost use Rattle.std.specs.Prelude.{Some};
    ghost use Rattle.lk_gc.specs.StateTexts.{synthetic_name};

    ghost output = { λ state. Some (synthetic_name) };

    fn fmt<W: fmt::Write>(&self, f: &mut fmt::Formatter<W>) -> fmt::Result {
        f.write_str("<synthetic>")
    }
}

/// As `<epilogue>`.
impl fmt::Display for EpilogueLayoutState {
    ghost use Rattle.std.specs.Prelude.{Some};
    ghost use Rattle.lk_gc.specs.StateTexts.{epilogue_name};

    ghost output = { λ state. Some (epilogue_name) };

    fn fmt<W: fmt::Write>(&self, f: &mut fmt::Formatter<W>) -> fmt::Result {
        f.write_str("<epilogue>")
    }
}

/// As the file of its kind.
impl fmt::Display for FileLayoutState<'_> {
    ghost use Rattle.std.specs.Prelude.{Some};
    ghost use Rattle.lk_gc.specs.StateTexts.{state_name};

    ghost output = { λ state. Some (state_name state) };

    fn fmt<W: fmt::Write>(&self, f: &mut fmt::Formatter<W>) -> fmt::Result {
        match self {
            FileLayoutState::Prelude(state) => fmt::Display::fmt(state, f),
            FileLayoutState::Object(state) => fmt::Display::fmt(state, f),
            FileLayoutState::Dynamic(state) => fmt::Display::fmt(state, f),
            FileLayoutState::SyntheticSymbols(state) => fmt::Display::fmt(state, f),
            FileLayoutState::Epilogue(state) => fmt::Display::fmt(state, f),
            FileLayoutState::LinkerScript(state) => fmt::Display::fmt(state, f),
            FileLayoutState::NotLoaded => f.write_str("<not-loaded>"),
        }
    }
}

/// Writes what a file of the traversal is called.
fn write_file<W: fmt::Write>(f: &mut fmt::Formatter<W>, file: &InputFile, id: FileId) -> fmt::Result
    ensures { DisplaysOnOk W.write_str_gives f.old result (Some (file_name file.now id)) f.new }
{
    let name = file.name.as_str();
    match file.kind {
        FileKind::Prelude => f.write_str("<prelude>"),
        FileKind::Object | FileKind::Dynamic => write!(f, "{name} ({id})"),
        FileKind::SyntheticSymbols => f.write_str("<synthetic>"),
        FileKind::LinkerScript => f.write_str(name),
        FileKind::NotLoaded => f.write_str("<not-loaded>"),
    }
}

/// Writes how many files a group has.
fn write_count<W: fmt::Write>(f: &mut fmt::Formatter<W>, count: usize) -> fmt::Result
    ensures { DisplaysOnOk W.write_str_gives f.old result (Some (files_name count)) f.new }
{
    write!(
        f,
        "Group with {count} files. Rerun with WILD_FILES_PER_GROUP=1"
    )
}

/// One file as that file, else as `Group with 2 files. Rerun with WILD_FILES_PER_GROUP=1`.
impl fmt::Display for GroupState<'_> {
    ghost use Rattle.std.specs.Prelude.{Some};
    ghost use Rattle.lk_gc.specs.StateTexts.{group_name};

    ghost output = { λ state. Some (group_name state.files.now state.group) };

    fn fmt<W: fmt::Write>(&self, f: &mut fmt::Formatter<W>) -> fmt::Result {
        let group = self.group;
        if self.files.len() == 1 {
            write_file(f, &self.files[0], FileId { group, file: 0 })
        } else {
            write_count(f, self.files.len())
        }
    }
}
