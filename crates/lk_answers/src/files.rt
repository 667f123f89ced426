//! What is told of files: lent by a layout and its link, and made when it is asked for.

ghost use Rattle.std.specs.Prelude.{◌≡◌, IsSome, MatchOption, None, Some, drop, option_map, slice_get};
ghost use Rattle.std.specs.Option.{option_copied};
ghost use Rattle.std.specs.Fmt.{DisplaysOnOk};
ghost use Rattle.lk_gc.specs.StateTexts.{placed_name};
ghost use Rattle.lk_link.specs.Files.{file_in};
ghost use Rattle.lk_link.specs.Inputs.{first_input};
ghost use Rattle.lk_link.specs.Symbols.{file_number};
ghost use Rattle.lk_answers.specs.Files.{IsFileLayout, IsLayoutBy, IsObjectLayout, IsPreludeLayout, file_slots};
ghost use Rattle.lk_answers.specs.SectionResolutions.{resolutions_of};

use crate::section_resolution::SectionResolutions;
use crate::section_slots::SectionSlots;
use lk_deltas::RelaxDeltaMap;
use lk_layout::Layout;
use lk_link::{FileId, FileKind, InputFile, SymbolId, SymbolIdRange, Text};
use lk_sizes::HeaderInfo;
use lk_thunks::ThunkBlockId;
use std::fmt;

/// The linker's own file (libwild: `PreludeLayout`).
#[derive(Drop)]
pub struct PreludeLayout<'a> {
    /// The symbol that stands for the one where the program starts; none where the options name none.
    pub entry_symbol_id: Option<SymbolId>,
    /// What the output tells of the linker, if the options give it.
    pub identity: Option<&'a str>,
    /// Which output sections are emitted and which segments are active, and what headers there are.
    pub header_info: &'a HeaderInfo,
}

/// An object (libwild: `ObjectLayout`).
#[derive(Drop)]
pub struct ObjectLayout<'a> {
    pub file_id: FileId,
    pub symbol_id_range: SymbolIdRange,
    pub name: &'a str,
    /// What became of its sections, by index.
    pub sections: SectionSlots<'a>,
    /// Where its sections stand, by index.
    pub section_resolutions: SectionResolutions<'a>,
    /// What is deleted of its sections, by index; with none, nothing is.
    pub section_relax_deltas: Option<&'a RelaxDeltaMap>,
    /// The block by whose thunks its branches may go; `ThunkBlockId::FIRST` where it needs none.
    pub thunk_block_id: ThunkBlockId,
    /// Whether the thunks of that block stand behind its bytes; never where it needs none.
    pub owns_thunk_block: bool,
}

/// A shared object (libwild: `DynamicLayout`).
#[derive(Drop)]
pub struct DynamicLayout<'a> {
    pub file_id: FileId,
    pub symbol_id_range: SymbolIdRange,
    /// By what name the output refers to it: the file's.
    pub lib_name: &'a str,
}

/// A linker script.
#[derive(Drop)]
pub struct LinkerScriptLayout<'a> {
    pub file_id: FileId,
    pub symbol_id_range: SymbolIdRange,
    pub name: &'a str,
}

/// Symbols that the linker makes.
#[derive(Drop)]
pub struct SyntheticSymbolsLayout {
    pub file_id: FileId,
    pub symbol_id_range: SymbolIdRange,
}

/// What comes behind all files (libwild: `EpilogueLayout`).
#[derive(Drop)]
pub struct EpilogueLayout {
    /// How many entries of the dynamic symbol table stand before the exports; 0 where no dynamic linker loads the output.
    pub dynsym_start_index: u32,
}

/// A file of any kind, as it is laid out (libwild: `FileLayout`).
#[derive(Drop)]
pub enum FileLayout<'a> {
    Prelude(PreludeLayout<'a>),
    Object(ObjectLayout<'a>),
    Dynamic(DynamicLayout<'a>),
    SyntheticSymbols(SyntheticSymbolsLayout),
    Epilogue(EpilogueLayout),
    LinkerScript(LinkerScriptLayout<'a>),
    NotLoaded,
}

/// Writes the name of a file with its number.
fn write_placed<W: fmt::Write>(f: &mut fmt::Formatter<W>, name: &str, id: FileId) -> fmt::Result
    ensures { DisplaysOnOk W.write_str_gives f.old result (Some (placed_name name.now id)) f.new }
{
    write!(f, "{name} ({id})")
}

/// As `<prelude>`, `<epilogue>`, `<synthetic>` or `<not loaded>`, as `a.o (1.0)` with group and index, or as the name of a script.
impl fmt::Display for FileLayout<'_> {
    ghost use Rattle.std.specs.Prelude.{Some};
    ghost use Rattle.lk_answers.specs.FileTexts.{layout_name};

    ghost output = { λ layout. Some (layout_name layout) };

    fn fmt<W: fmt::Write>(&self, f: &mut fmt::Formatter<W>) -> fmt::Result {
        match self {
            FileLayout::Prelude(_) => f.write_str("<prelude>"),
            FileLayout::Object(object) => write_placed(f, object.name, object.file_id),
            FileLayout::Dynamic(dynamic) => write_placed(f, dynamic.lib_name, dynamic.file_id),
            FileLayout::SyntheticSymbols(_) => f.write_str("<synthetic>"),
            FileLayout::Epilogue(_) => f.write_str("<epilogue>"),
            FileLayout::LinkerScript(script) => f.write_str(script.name),
            FileLayout::NotLoaded => f.write_str("<not loaded>"),
        }
    }
}

/// The same text.
impl fmt::Debug for FileLayout<'_> {
    ghost use Rattle.std.specs.Prelude.{Some};
    ghost use Rattle.lk_answers.specs.FileTexts.{layout_name};

    ghost debug_output = { λ layout. Some (layout_name layout) };

    fn fmt<W: fmt::Write>(&self, f: &mut fmt::Formatter<W>) -> fmt::Result {
        write!(f, "{self}")
    }
}

/// Those behind the first so many.
fn behind_first<T>(items: &[T], first: usize) -> &[T]
    ensures { result.now ≡ drop first items.now }
{
    if first <= items.len() {
        let (_, rest) = items.split_at(first);
        rest
    } else {
        let (_, rest) = items.split_at(items.len());
        rest
    }
}

/// A text, lent, if there is one.
fn text_of(text: &Option<Text>) -> Option<&str>
    ensures { option_map (λ s. s.now) result ≡ text.now }
{
    match text {
        Some(text) => Some(text.as_str()),
        None => None,
    }
}

/// What is told of the linker's own file.
pub(crate) fn prelude_of<'a>(layout: &'a Layout<'_>) -> PreludeLayout<'a>
    ensures { IsPreludeLayout layout.now result }
{
    PreludeLayout {
        entry_symbol_id: layout.entry_symbol_id(),
        identity: text_of(&layout.link().options.identity),
        header_info: layout.header_info(),
    }
}

/// Where the sections of a file stand, of which there are so many, and the first has this number.
fn resolutions_from<'a>(
    layout: &'a Layout<'_>,
    first: usize,
    count: usize,
) -> SectionResolutions<'a>
    ensures { result ≡ resolutions_of (drop first layout.now.live_marks) (drop first layout.now.section_addresses) count }
{
    SectionResolutions {
        marks: behind_first(layout.live_marks(), first),
        addresses: behind_first(layout.section_addresses(), first),
        count,
    }
}

/// What became of the sections of a file with this number, of which the first has this one.
fn slots_from<'a, 'data>(
    layout: &'a Layout<'data>,
    id: FileId,
    file: &'data InputFile,
    first: usize,
) -> SectionSlots<'a>
    requires there { IsSome (file_in layout.now.link.groups id) }
    requires first { first ≡ first_input layout.now.link.groups id }
    ensures { result ≡ file_slots layout.now id file.now }
{
    SectionSlots {
        link: layout.link(),
        sections: file.sections.as_slice(),
        marks: behind_first(layout.live_marks(), first),
        deleted: deletions_of(layout, id),
    }
}

/// What is told of an object with this number, whose symbols have these numbers, and whose first section has this one.
fn object_by<'a, 'data>(
    layout: &'a Layout<'data>,
    id: FileId,
    file: &'data InputFile,
    symbol_id_range: SymbolIdRange,
    first: usize,
) -> ObjectLayout<'a>
    requires there { file_in layout.now.link.groups id ≡ Some file.now }
    requires first { first ≡ first_input layout.now.link.groups id }
    ensures { IsObjectLayout layout.now id file.now symbol_id_range result }
{
    let (thunk_block_id, owns_thunk_block) = layout.thunk_block_for(id);
    ObjectLayout {
        file_id: id,
        symbol_id_range,
        name: file.name.as_str(),
        sections: slots_from(layout, id, file, first),
        section_resolutions: resolutions_from(layout, first, file.sections.len()),
        section_relax_deltas: deletions_of(layout, id),
        thunk_block_id,
        owns_thunk_block,
    }
}

/// What is deleted of the sections of a file with this number, if anything is told of it.
fn deletions_of<'a>(layout: &'a Layout<'_>, id: FileId) -> Option<&'a RelaxDeltaMap>
    requires there { IsSome (file_in layout.now.link.groups id) }
    ensures { option_copied result ≡ slice_get layout.now.section_deletions (file_number layout.now.link.groups id) }
{
    let number = layout.link().groups.file_number(id)?;
    layout.section_deletions().get(number)
}

/// What is told of a file with this number, whose symbols have these numbers, and whose first section has this one.
fn layout_by<'a, 'data>(
    layout: &'a Layout<'data>,
    id: FileId,
    file: &'data InputFile,
    symbol_id_range: SymbolIdRange,
    first: usize,
) -> FileLayout<'a>
    requires there { file_in layout.now.link.groups id ≡ Some file.now }
    requires first { first ≡ first_input layout.now.link.groups id }
    ensures { IsLayoutBy layout.now id file.now symbol_id_range result }
{
    let name = file.name.as_str();
    match file.kind {
        FileKind::Prelude => FileLayout::Prelude(prelude_of(layout)),
        FileKind::Object => {
            FileLayout::Object(object_by(layout, id, file, symbol_id_range, first))
        }
        FileKind::Dynamic => FileLayout::Dynamic(DynamicLayout {
            file_id: id,
            symbol_id_range,
            lib_name: name,
        }),
        FileKind::LinkerScript => FileLayout::LinkerScript(LinkerScriptLayout {
            file_id: id,
            symbol_id_range,
            name,
        }),
        FileKind::SyntheticSymbols => FileLayout::SyntheticSymbols(SyntheticSymbolsLayout {
            file_id: id,
            symbol_id_range,
        }),
        FileKind::NotLoaded => FileLayout::NotLoaded,
    }
}

/// What is told of a file, if there is one with this number.
pub(crate) fn find_file<'a>(layout: &'a Layout<'_>, id: FileId) -> Option<FileLayout<'a>>
    ensures { MatchOption result (file_in layout.now.link.groups id ≡ None) (IsFileLayout layout.now id) }
{
    let groups = &layout.link().groups;
    let file = groups.file(id)?;
    let symbol_id_range = groups.symbol_id_range(id)?;
    let first = groups.input_start(id)?;
    Some(layout_by(layout, id, file, symbol_id_range, first))
}
