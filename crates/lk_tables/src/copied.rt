//! Which symbols are copied to the symbol table of the output, and under which names.

ghost use Rattle.std.specs.Prelude.{◌≡◌, ◌&&◌, ◌||◌, ◌<◌, ◌^◌, false, not, if◌then◌else◌, Some, None};
ghost use Rattle.std.specs.Option.{option_map_or};
ghost use Rattle.lk_link.specs.declared.link.LinkInput.{LinkInput};
ghost use Rattle.lk_link.specs.declared.flags.TheConstants.ValueFlags as flag;
ghost use Rattle.lk_link.specs.Files.{file_in};
ghost use Rattle.lk_link.specs.Flags.{has_flag};
ghost use Rattle.lk_link.specs.InputSlots.{is_discarded, is_merge};
ghost use Rattle.lk_link.specs.SectionSlots.{is_loaded};
ghost use Rattle.lk_link.specs.WellFormed.{IsWellFormed};
ghost use Rattle.lk_link.specs.Walks.{file_of};
ghost use Rattle.lk_live.specs.Slots.{live_slot};
ghost use Rattle.lk_tables.specs.Copied.{copied_name, is_assembler_name, is_copied, is_copied_undefined, is_in_loaded, is_must, may_stay, stands_for_something, stays_by, undefined_name};
ghost use Rattle.lk_tables.specs.TableWords.{IsLookedAt};

use lk_live::Live;
use lk_link::marks::is_marked;
use lk_link::{
    DiscardLocals, FileKind, FileRef, InputSlot, InputSymbol, LinkInput, SymbolId, SymbolPlacement,
    ValueFlags,
};
use std::marker::Model;

/// A symbol that is copied to the symbol table of the output. Contracts see its name (libwild: `SymbolCopyInfo`).
#[derive(Drop)]
pub struct SymbolCopyInfo<'a> {
    name: &'a str,
}

impl<'a> Model for SymbolCopyInfo<'a> {
    ghost use Rattle.std.specs.Prelude.{List, ℕ};

    ghost Value = { List ℕ };

    ghost view = { λ a. a.name.now };
}

impl<'a> SymbolCopyInfo<'a> {
    /// The symbol with this number, which has these flags, late ones included, where it is copied: of an object one that stands
    /// in the output under a name and isn't left out; one with a name and a resolution that the linker places. Takes
    /// logarithmic time (libwild: `SymbolCopyInfo::new`).
    pub fn new(
        link: &'a LinkInput,
        symbol: SymbolId,
        live: &Live,
        flags: ValueFlags,
    ) -> Option<SymbolCopyInfo<'a>>
        requires { IsWellFormed link.now }
        ensures { result ≡ copied_name link.now live.now symbol flags }
    {
        let id = link.groups.file_of_symbol(symbol)?;
        let file = link.groups.file(id)?;
        let own = link.groups.symbol(symbol)?;
        let file = FileRef { id, file };
        let first = first_input_of(link, file);
        info_if(is_copied(link, live, file, first, symbol, own, flags), own)
    }

    /// The same where it is copied though it has no place: in partial output one with a name and a resolution that is
    /// undefined, or that isn't local and stands in a discarded section, whatever else is live (libwild:
    /// `SymbolCopyInfo::for_undefined`).
    pub fn for_undefined(
        link: &'a LinkInput,
        symbol: SymbolId,
        _live: &Live,
        flags: ValueFlags,
    ) -> Option<SymbolCopyInfo<'a>>
        requires { IsWellFormed link.now }
        ensures { result ≡ undefined_name link.now symbol flags }
    {
        let id = link.groups.file_of_symbol(symbol)?;
        let file = link.groups.file(id)?;
        let own = link.groups.symbol(symbol)?;
        info_if(
            is_copied_undefined(link, FileRef { id, file }, symbol, own, flags),
            own,
        )
    }

    /// Its name.
    pub fn name(&self) -> &'a str
        ensures { result.now ≡ self.now }
    {
        self.name
    }
}

/// A symbol as one that is copied, if it is.
fn info_if(is_copied: bool, symbol: &InputSymbol) -> Option<SymbolCopyInfo<'_>>
    ensures { result ≡ (if is_copied then Some symbol.now.name else None) }
{
    if is_copied {
        let name = symbol.name.as_str();
        Some(SymbolCopyInfo { name })
    } else {
        None
    }
}

/// Whether a symbol names a section group.
fn names_group(flags: ValueFlags) -> bool
    ensures { result ≡ has_flag flag.GROUP_SIGNATURE.0 flags.0 }
{
    flags.0 & ValueFlags::GROUP_SIGNATURE.0 == ValueFlags::GROUP_SIGNATURE.0
}

/// Whether a symbol is copied though it is local: it names a section group, or the output is linked again and it has a
/// resolution.
fn is_must(
    link: &LinkInput,
    kind: FileKind,
    number: SymbolId,
    symbol: &InputSymbol,
    flags: ValueFlags,
) -> bool
    ensures { result ≡ is_must link.now kind number symbol.now flags }
{
    names_group(flags)
        || (link.options.output.is_partial() && symbol.is_wanted(kind, number, flags))
}

/// Whether a name is one that assemblers give to local symbols.
fn is_assembler_name(name: &str) -> bool
    ensures { result ≡ is_assembler_name name.now }
{
    name.starts_with(".L")
}

/// Whether a symbol stays where these local ones are left out.
fn stays_by(discard: DiscardLocals, symbol: &InputSymbol) -> bool
    ensures { result ≡ stays_by discard symbol.now }
{
    match discard {
        DiscardLocals::All => !symbol.local,
        DiscardLocals::Default => !symbol.local || !is_assembler_name(symbol.name.as_str()),
        DiscardLocals::None => true,
    }
}

/// The number of a file's first input section.
pub fn first_input_of(link: &LinkInput, file: FileRef<'_>) -> usize
    requires good { IsWellFormed link.now }
    requires there { file_in link.now.groups file.id ≡ Some file.file.now }
    ensures { IsLookedAt link.now (file_of file.entry) result }
{
    match link.groups.input_start(file.id) {
        Some(first) => first,
        None => 0,
    }
}

/// Whether a section of which the description says this is loaded, if it is live or isn't.
fn is_loaded_by(slot: InputSlot, is_live: bool) -> bool
    ensures { result ≡ (not (is_discarded slot) && (is_merge slot || is_live)) }
{
    !slot.is_discarded() && (slot.is_merge() || is_live)
}

/// Whether the section of a file with an index, if there is one, is loaded. The file's first one has this number.
fn is_section_loaded(live: &Live, file: FileRef<'_>, first_input: usize, index: usize) -> bool
    requires few { first_input < 2 ^ 32 }
    requires small { index < 2 ^ 32 }
    ensures { (link : LinkInput) → IsLookedAt link (file_of file.entry) first_input
        → result ≡ option_map_or is_loaded (live_slot link live.now file.entry.id index) false }
{
    match file.file.sections.get(index) {
        Some(section) => {
            let is_live = is_marked(live.marks.as_slice(), first_input + index);
            is_loaded_by(section.slot, is_live)
        }
        None => false,
    }
}

/// Whether the section of a placement in a file, if it is in one, is loaded. The file's first one has this number.
fn is_in_loaded(live: &Live, file: FileRef<'_>, first_input: usize, at: &SymbolPlacement) -> bool
    requires few { first_input < 2 ^ 32 }
    ensures { (link : LinkInput) → IsLookedAt link (file_of file.entry) first_input
        → result ≡ is_in_loaded link live.now (file_of file.entry) at.now }
{
    match at {
        SymbolPlacement::Section { index, .. } => {
            is_section_loaded(live, file, first_input, *index as usize)
        }
        _ => true,
    }
}

/// Whether a symbol of files of a kind stands for something under a name.
fn stands_for_something(
    kind: FileKind,
    number: SymbolId,
    symbol: &InputSymbol,
    flags: ValueFlags,
) -> bool
    ensures { result ≡ stands_for_something kind number symbol.now flags }
{
    symbol.is_canonical(number)
        && !symbol.at.is_undefined()
        && symbol.is_named()
        && (symbol.is_wanted(kind, number, flags) || !symbol.at.is_common())
}

/// Whether the options let a symbol of an object stay.
fn may_stay(
    link: &LinkInput,
    kind: FileKind,
    number: SymbolId,
    symbol: &InputSymbol,
    flags: ValueFlags,
) -> bool
    ensures { result ≡ may_stay link.now kind number symbol.now flags }
{
    let options = &link.options;
    (is_must(link, kind, number, symbol, flags) || stays_by(options.discard, symbol))
        && (names_group(flags) || !options.strip_names.contains(symbol.name.as_str()))
}

/// Whether a symbol of a file, with its number and these flags, is copied. Its section is looked at last, since that lies far
/// from it.
pub(crate) fn is_copied(
    link: &LinkInput,
    live: &Live,
    file: FileRef<'_>,
    first_input: usize,
    number: SymbolId,
    symbol: &InputSymbol,
    flags: ValueFlags,
) -> bool
    requires { IsLookedAt link.now (file_of file) first_input }
    ensures { result ≡ is_copied link.now live.now (file_of file.entry) number symbol.now flags }
{
    let kind = file.file.kind;
    if kind.is_object() {
        stands_for_something(kind, number, symbol, flags)
            && may_stay(link, kind, number, symbol, flags)
            && is_in_loaded(live, file, first_input, &symbol.at)
    } else {
        kind.is_internal() && symbol.is_named() && symbol.is_wanted(kind, number, flags)
    }
}

/// Whether it is copied though it has no place.
pub(crate) fn is_copied_undefined(
    link: &LinkInput,
    file: FileRef<'_>,
    number: SymbolId,
    symbol: &InputSymbol,
    flags: ValueFlags,
) -> bool
    ensures { result ≡ is_copied_undefined link.now (file_of file.entry) number symbol.now flags }
{
    link.options.output.is_partial()
        && symbol.is_named()
        && symbol.is_wanted(file.file.kind, number, flags)
        && (symbol.at.is_undefined()
            || (!symbol.local && symbol.at.is_in_discarded(file.file.sections.as_slice())))
}
