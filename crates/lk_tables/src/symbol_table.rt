//! Which symbols of files stand in the symbol table, and what files take there and in its names.
//!
//! Each symbol that is copied takes an entry among the local symbols or the others, and the bytes of its name with a zero byte.
//! Symbols of the prelude may be marked late, by the output sections that are emitted.

ghost use Rattle.std.specs.Prelude.{◌≡◌, ℕ, ◌&&◌, ◌||◌, ◌<◌, ◌^◌, IfOk, Some, not};
ghost use Rattle.lk_link.specs.Files.{file_in};
ghost use Rattle.lk_link.specs.WellFormed.{IsWellFormed};
ghost use Rattle.lk_link.specs.Walks.{file_of};
ghost use Rattle.lk_tables.specs.Copied.{is_copied, is_copied_undefined};
ghost use Rattle.lk_tables.specs.Late.{flags_at, is_late, is_late_place, late_flags};
ghost use Rattle.lk_tables.specs.SymbolTable.{file_symbol_sizes, is_local_entry, symbol_sizes};
ghost use Rattle.lk_tables.specs.TableWords.{IsLookedAt};

use crate::copied::{is_copied, is_copied_undefined};
use crate::header_info::HeaderInfo;
use crate::shares::{SymtabShare, whole_symtab};
use lk_live::Live;
use lk_link::marks::is_marked;
use lk_link::{
    FileId, FileKind, FileRef, InputSymbol, LinkInput, Platform, SymbolId, SymbolPlacement,
    ValueFlags,
};
use std::alloc::{AllocError, Global};

/// What symbols are looked at by.
#[derive(Clone, Copy)]
pub(crate) struct Given<'a> {
    pub(crate) link: &'a LinkInput,
    pub(crate) live: &'a Live,
    /// For each output section whether its edges are told.
    pub(crate) told: &'a [bool],
}

/// The flags of a symbol by its number; none past the end.
pub(crate) fn flags_at(flags: &[ValueFlags], number: usize) -> ValueFlags
    ensures { result ≡ flags_at flags.now number }
{
    match flags.get(number) {
        Some(flags) => *flags,
        None => ValueFlags(0),
    }
}

/// Whether a symbol placed so is told where these sections are emitted.
fn is_late_place(told: &[bool], at: &SymbolPlacement) -> bool
    ensures { result ≡ is_late_place told.now at.now }
{
    match at {
        SymbolPlacement::ForceUndefined => true,
        SymbolPlacement::SectionStart(section) => {
            section.as_u32() != 0 && is_marked(told, section.as_usize())
        }
        SymbolPlacement::SectionEnd(section) => is_marked(told, section.as_usize()),
        SymbolPlacement::SectionGroupEnd(section) => is_marked(told, section.as_usize()),
        _ => false,
    }
}

/// Whether a symbol of a file of a kind, with its number and these flags, is marked late.
fn is_late(
    link: &LinkInput,
    told: &[bool],
    kind: FileKind,
    number: SymbolId,
    symbol: &InputSymbol,
    flags: ValueFlags,
) -> bool
    ensures { result ≡ is_late link.now told.now kind number symbol.now flags }
{
    kind.is_prelude()
        && symbol.is_named()
        && symbol.is_canonical(number)
        && !flags.has_resolution()
        && !link.options.strip_all
        && is_late_place(told, &symbol.at)
}

/// The flags of a symbol of a file of a kind, late ones included, by the output sections whose edges are told. Takes constant time.
pub fn late_flags(
    link: &LinkInput,
    told: &[bool],
    kind: FileKind,
    number: SymbolId,
    symbol: &InputSymbol,
    flags: ValueFlags,
) -> ValueFlags
    ensures { result ≡ late_flags link.now told.now kind number symbol.now flags }
{
    if is_late(link, told, kind, number, symbol, flags) {
        flags.merge(ValueFlags::DIRECT)
    } else {
        flags
    }
}

/// Whether a symbol of a file, with its number and these flags, late ones included, has an entry in the symbol table, and there is
/// one. The file's first input section has this number.
pub(crate) fn has_entry_there(
    link: &LinkInput,
    live: &Live,
    file: FileRef<'_>,
    first_input: usize,
    number: SymbolId,
    symbol: &InputSymbol,
    flags: ValueFlags,
) -> bool
    requires { IsLookedAt link.now (file_of file) first_input }
    ensures { result ≡ (not link.now.options.strip_all && (is_copied link.now live.now (file_of file.entry) number symbol.now flags
        || is_copied_undefined link.now (file_of file.entry) number symbol.now flags)) }
{
    !link.options.strip_all
        && (is_copied(link, live, file, first_input, number, symbol, flags)
            || is_copied_undefined(link, file, number, symbol, flags))
}

/// Whether it is among the local ones there.
pub(crate) fn is_local_entry(kind: FileKind, symbol: &InputSymbol) -> bool
    ensures { (s : ℕ) → result ≡ is_local_entry kind (s, symbol.now) }
{
    symbol.local || (symbol.hidden && kind.is_internal())
}

/// These bytes of a file, with its number.
fn sizes_of(id: FileId, bytes: SymtabShare) -> (FileId, u64, u64, u64)
    requires local { bytes.local < 2 ^ 64 }
    requires global { bytes.global < 2 ^ 64 }
    requires names { bytes.names < 2 ^ 64 }
    ensures { result ≡ (id, bytes.local, bytes.global, bytes.names) }
{
    (
        id,
        bytes.local as u64,
        bytes.global as u64,
        bytes.names as u64,
    )
}

/// What a file takes there, with its number.
fn file_sizes<P: Platform>(
    platform: &P,
    given: Given<'_>,
    file: FileRef<'_>,
) -> (FileId, u64, u64, u64)
    requires good { IsWellFormed given.link.now }
    requires there { file_in given.link.now.groups file.id ≡ Some file.file.now }
    ensures { result ≡ file_symbol_sizes (P.table_sizes platform.now).symbol_entry given.entry.link.now given.entry.live.now
        given.entry.told.now (file_of file.entry) }
{
    sizes_of(file.id, whole_symtab(platform, given, file))
}

/// For each file, by group and index, its number and the bytes that its symbols take among the local ones of the symbol table,
/// among the others, and in their names, by the output sections whose edges are told; the prelude with what the table has itself.
/// Looks at each symbol once, and takes 40 bytes for each file (libwild: `finalise_symbol_sizes`).
pub fn symbol_sizes<P: Platform>(
    alloc: Global,
    link: &LinkInput,
    platform: &P,
    live: &Live,
    header: &HeaderInfo,
) -> Result<Vec<(FileId, u64, u64, u64)>, AllocError>
    requires { IsWellFormed link.now }
    ensures { IfOk result (λ sizes. sizes.items
        ≡ symbol_sizes (P.table_sizes platform.now).symbol_entry link.now live.now header.now.told) }
{
    let told = header.told.as_slice();
    let given = Given { link, live, told };
    let mut sizes = Vec::new(alloc);
    for file in link.groups.files() {
        sizes.push(file_sizes(platform, given, file))?;
    }
    Ok(sizes)
}
