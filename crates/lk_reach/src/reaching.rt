//! What units and files of a link ask for.

ghost use Rattle.std.specs.Prelude.{◌≡◌, [], ◌++◌, Some, option_map};
ghost use Rattle.std.specs.List.{flat_map};
ghost use Rattle.std.specs.Option.{option_map_or, option_to_list};
ghost use Rattle.lk_link.specs.Files.{file_in};
ghost use Rattle.lk_link.specs.declared.expression.Token.TheVariants as token;
ghost use Rattle.lk_link.specs.InputSlots.{is_regular};
ghost use Rattle.lk_link.specs.SymbolPlacements.{edge_of, section_of};
ghost use Rattle.lk_link.specs.Walks.{file_of};
ghost use Rattle.lk_link.specs.WellFormed.{IsWellFormed};
ghost use Rattle.lk_reach.specs.declared.units.Ask.TheVariants.{Section};
ghost use Rattle.lk_reach.specs.declared.units.Unit.TheVariants.{Sym, Sec};
ghost use Rattle.lk_reach.specs.Units.{all_of, asked_definition, asked_members, asked_references, definition_ask, dynamic_ask, dynamic_roots, entry_asks, export_roots, forced_ask, own_asks, prelude_symbol_asks, token_ask, event_asks, file_roots, follows, is_primary_section, is_script_root, kind_asks, roots, section_roots, script_redirect_asks, script_symbol_asks, shown_ask, wanted_symbol_asks, candidate_asks};

use crate::asks::{
    DynamicRoots, ExportRoots, ExpressionAsks, MemberAsks, ObjectRoots, PreludeRoots,
    RelocationAsks, SectionAsks, SectionRoots, Successors,
};
use crate::exports::{ExportSymbolsMode, is_exported, is_own_definition, list_for, mode_of};
use crate::root_asks::Roots;
use crate::scripts::{LocationAsks, RedirectAsks, ScriptRoots, WantedAsks};
use crate::units::{Ask, Unit};
use lk_link::{
    FileId, FileKind, FileRef, InputFile, InputGroups, InputSection, InputSlot, InputSymbol,
    LinkInput, Operand, OrderEvent, SymbolId, SymbolPlacement, Token, ValueFlags,
};

/// What a unit asks for, in order: a symbol of an object for its section, one of a synthetic file for the candidates of the
/// output section at whose start or end it is, one of a script for itself and what its expression refers to; a section for the
/// other members of its group and for what its relocations refer to (libwild: `handle_section_load_request`, `load_symbol`).
pub fn successors<'a>(link: &'a LinkInput, unit: Unit) -> Successors<'a>
    requires { IsWellFormed link.now }
    ensures { result ≡ follows link.now unit }
{
    match unit {
        Unit::Sym(symbol) => match symbol_asks(link, symbol) {
            Some(asks) => asks,
            None => Successors::none(),
        },
        Unit::Sec(file, index) => Successors::from_section(section_asks(
            section_members(link, file, index),
            section_relocations(link, file, index),
        )),
    }
}

/// What a section asks for by its relocations alone, in order.
pub(crate) fn section_references<'a>(
    link: &'a LinkInput,
    file: FileId,
    index: u32,
) -> Successors<'a>
    requires { IsWellFormed link.now }
    ensures { result ≡ asked_references link.now file index }
{
    Successors::from_section(section_asks(None, section_relocations(link, file, index)))
}

/// The asks for members of a section's group, then those of its relocations, where there are such.
fn section_asks<'a>(
    members: Option<MemberAsks<'a>>,
    relocations: Option<RelocationAsks<'a>>,
) -> SectionAsks<'a>
    ensures { result ≡ all_of members.entry ++ all_of relocations.entry }
{
    SectionAsks {
        members: members.unwrap_or(MemberAsks::none()),
        relocations: relocations.unwrap_or(RelocationAsks::none()),
    }
}

/// What a section that is kept asks for of its group, where there is such a section and it is in one.
fn section_members<'a>(link: &'a LinkInput, id: FileId, index: u32) -> Option<MemberAsks<'a>>
    requires { IsWellFormed link.now }
    ensures { all_of result ≡ asked_members link.now id index }
{
    let file = link.groups.file(id)?;
    let section = file.sections.get(index as usize)?;
    if !section.slot.can_be_kept() {
        return None;
    }
    let group = section.group?;
    Some(MemberAsks {
        file: id,
        own: index,
        sections: file.sections.as_slice(),
        members: file.sections.members(group),
    })
}

/// What a symbol asks for, if there is such a symbol.
fn symbol_asks<'a>(link: &'a LinkInput, symbol: SymbolId) -> Option<Successors<'a>>
    requires { IsWellFormed link.now }
    ensures { all_of result ≡ follows link.now (Sym symbol) }
{
    match link.groups.symbol_in_file(symbol) {
        Some(found) => {
            let file = found.file;
            let own = found.symbol;
            Some(kind_asks(&link.groups, symbol, file.id, file.file, own))
        }
        None => None,
    }
}

/// What a symbol of this file asks for, by the kind of the file.
fn kind_asks<'a>(
    groups: &'a InputGroups,
    symbol: SymbolId,
    id: FileId,
    file: &'a InputFile,
    own: &'a InputSymbol,
) -> Successors<'a>
    ensures { result ≡ kind_asks groups.now symbol id file.now own.now file.now.kind }
{
    match file.kind {
        FileKind::Object => Successors::from_ask(placed_section(id, &own.at)),
        FileKind::SyntheticSymbols => edge_candidates(file, &own.at),
        FileKind::LinkerScript => {
            Successors::from_redirect(script_symbol_asks(groups, symbol, own))
        }
        FileKind::Prelude | FileKind::Dynamic | FileKind::NotLoaded => Successors::none(),
    }
}

/// The section that a symbol of an object is placed in, if it is.
fn placed_section(id: FileId, at: &SymbolPlacement) -> Option<Ask>
    ensures { result ≡ option_map (Section id) (section_of at.now) }
{
    match at {
        SymbolPlacement::Section { index, .. } => Some(Ask::Section(id, *index)),
        _ => None,
    }
}

/// The candidates of the output section at whose start or end a symbol of a synthetic file is.
fn edge_candidates<'a>(file: &'a InputFile, at: &SymbolPlacement) -> Successors<'a>
    ensures { result ≡ option_map_or (candidate_asks file.now.candidates) (edge_of at.now) [] }
{
    match at.edge_of() {
        Some(output) => Successors::from_candidates(file.candidates.of(output)),
        None => Successors::none(),
    }
}

/// What a symbol of a script asks for: a redirect for itself and what its expression refers to; one that is shown for itself.
fn script_symbol_asks<'a>(
    groups: &'a InputGroups,
    symbol: SymbolId,
    own: &'a InputSymbol,
) -> RedirectAsks<'a>
    ensures { result ≡ script_symbol_asks groups.now symbol own.now }
{
    RedirectAsks {
        own: script_redirect_asks(groups, symbol, &own.at),
        shown: shown_ask(symbol, own),
    }
}

/// What a redirect of a script asks for: itself, then what its expression refers to.
fn script_redirect_asks<'a>(
    groups: &'a InputGroups,
    symbol: SymbolId,
    at: &'a SymbolPlacement,
) -> ExpressionAsks<'a>
    ensures { result ≡ script_redirect_asks groups.now symbol at.now }
{
    let mut first = None;
    let mut tokens: &[Token] = &[];
    if let SymbolPlacement::Redirect { expression, .. } = at {
        first = Some(Ask::Reference(symbol, ValueFlags::DIRECT));
        tokens = expression.tokens();
    }
    ExpressionAsks {
        first,
        groups,
        tokens,
    }
}

/// What a symbol of a script asks for of the dynamic linker: itself, if it has a name and isn't hidden.
fn shown_ask(symbol: SymbolId, own: &InputSymbol) -> Option<Ask>
    ensures { result ≡ shown_ask symbol own.now }
{
    if own.name.len() != 0 && !own.hidden {
        Some(Ask::Reference(symbol, ValueFlags::EXPORT_DYNAMIC))
    } else {
        None
    }
}

/// What the relocations of a section ask for, where there is such a section and it is loaded for what it holds.
fn section_relocations<'a>(
    link: &'a LinkInput,
    id: FileId,
    index: u32,
) -> Option<RelocationAsks<'a>>
    requires { IsWellFormed link.now }
    ensures { all_of result ≡ asked_references link.now id index }
{
    let file = link.groups.file(id)?;
    let section = file.sections.get(index as usize)?;
    let symbols = link.groups.symbol_id_range(id)?;
    if !is_followed(section.slot) {
        return None;
    }
    Some(RelocationAsks {
        mark: None,
        relocs: section.relocs.as_slice(),
        symbols: file.symbols.as_slice(),
        first: symbols.start().as_u32(),
        primary: is_primary_section(link, section),
    })
}

/// Whether the relocations of a section are followed: where it is loaded for what it holds.
fn is_followed(slot: InputSlot) -> bool
    ensures { result ≡ is_regular slot }
{
    slot.is_regular()
}

/// Whether a section goes to the primary part.
pub fn is_primary_section(link: &LinkInput, section: &InputSection) -> bool
    ensures { result ≡ is_primary_section link.now section.now }
{
    match link.plan.named.primary {
        Some(part) => part.as_u32() == section.part.as_u32(),
        None => false,
    }
}

/// What a file of a link asks for by itself: the prelude for the entry, its redirects and what is wanted
/// all the same, an object for sections and for what it exports, a dynamic file for definitions in other files, a script for
/// its symbols and what the location counter's expressions refer to (libwild: `activate`).
pub fn file_roots<'a>(link: &'a LinkInput, file: FileRef<'a>) -> Successors<'a>
    requires well_formed { IsWellFormed link.now }
    requires there { file_in link.now.groups file.id ≡ Some file.file.now }
    ensures { result ≡ file_roots link.now (file_of file.entry) }
{
    match file.file.kind {
        FileKind::Prelude => match prelude_symbols(link, file) {
            Some(symbols) => Successors::from_prelude(entry_ask(link), symbols),
            None => Successors::from_ask(entry_ask(link)),
        },
        FileKind::Object => Successors::from_object(object_roots(link, file)),
        FileKind::Dynamic => match dynamic_roots(link, file) {
            Some(dynamics) => Successors::from_dynamic(dynamics),
            None => Successors::none(),
        },
        FileKind::LinkerScript => script_roots(link, file, link.plan.events.as_slice()),
        FileKind::SyntheticSymbols | FileKind::NotLoaded => Successors::none(),
    }
}

/// What all files of a link ask for by themselves, file by file, as `file_roots` tells of each. Takes no memory.
pub fn roots(link: &LinkInput) -> Roots<'_>
    requires { IsWellFormed link.now }
    ensures { result ≡ roots link.now }
{
    Roots::over(link)
}

/// What an object asks for: sections, then what it exports, where it exports anything.
fn object_roots<'a>(link: &'a LinkInput, file: FileRef<'a>) -> ObjectRoots<'a>
    requires well_formed { IsWellFormed link.now }
    requires there { file_in link.now.groups file.id ≡ Some file.file.now }
    ensures { result ≡ section_roots link.now.options.gc (file_of file.entry).id 0 (file_of file.entry).file.sections ++ export_roots link.now (file_of file.entry) }
{
    ObjectRoots {
        sections: SectionRoots {
            gc: link.options.gc,
            file: file.id,
            index: 0,
            sections: file.file.sections.as_slice(),
        },
        exports: exports_of(link, file).unwrap_or(ExportRoots::none()),
    }
}

/// What a script asks for: its symbols, then what the expressions of these events refer to, where they set the location
/// counter.
pub(crate) fn script_roots<'a>(
    link: &'a LinkInput,
    file: FileRef<'a>,
    events: &'a [OrderEvent],
) -> Successors<'a>
    requires well_formed { IsWellFormed link.now }
    requires there { file_in link.now.groups file.id ≡ Some file.file.now }
    ensures { result ≡ wanted_symbol_asks link.now (file_of file.entry) ++ flat_map (event_asks link.now.groups) events.now }
{
    let locations = location_asks(link, events);
    Successors::from_script(ScriptRoots {
        wanted: wanted_symbols(link, file).unwrap_or(WantedAsks::none()),
        locations,
    })
}

/// The symbols of a script that it asks for.
fn wanted_symbols<'a>(link: &'a LinkInput, file: FileRef<'a>) -> Option<WantedAsks<'a>>
    requires well_formed { IsWellFormed link.now }
    requires there { file_in link.now.groups file.id ≡ Some file.file.now }
    ensures { all_of result ≡ wanted_symbol_asks link.now (file_of file.entry) }
{
    let symbols = link.groups.symbol_id_range(file.id)?;
    Some(WantedAsks {
        number: symbols.start().as_u32(),
        symbols: file.file.symbols.as_slice(),
    })
}

/// Whether a symbol of a script is asked for by the script: it stands for itself, and isn't only provided.
pub(crate) fn is_script_root(number: SymbolId, symbol: &InputSymbol) -> bool
    ensures { result ≡ is_script_root (number, symbol.now) }
{
    symbol.is_canonical(number) && !symbol.at.is_provided()
}

/// What the expressions of these events refer to, where they set the location counter.
fn location_asks<'a>(link: &'a LinkInput, events: &'a [OrderEvent]) -> LocationAsks<'a>
    ensures { result ≡ flat_map (event_asks link.now.groups) events.now }
{
    LocationAsks {
        own: ExpressionAsks {
            first: None,
            groups: &link.groups,
            tokens: &[],
        },
        groups: &link.groups,
        events,
    }
}

/// What the expression of an event refers to, if it sets the location counter.
pub(crate) fn event_asks<'a>(groups: &'a InputGroups, event: &'a OrderEvent) -> ExpressionAsks<'a>
    ensures { result ≡ event_asks groups.now event.now }
{
    let tokens: &[Token] = match event {
        OrderEvent::SetLocation(expression) => expression.tokens(),
        OrderEvent::SetLocationRelative(expression, _) => expression.tokens(),
        _ => &[],
    };
    ExpressionAsks {
        first: None,
        groups,
        tokens,
    }
}

/// The definitions that a dynamic file asks for.
fn dynamic_roots<'a>(link: &'a LinkInput, file: FileRef<'a>) -> Option<DynamicRoots<'a>>
    requires well_formed { IsWellFormed link.now }
    requires there { file_in link.now.groups file.id ≡ Some file.file.now }
    ensures { all_of result ≡ dynamic_roots link.now (file_of file.entry) }
{
    let symbols = link.groups.symbol_id_range(file.id)?;
    Some(DynamicRoots {
        link,
        number: symbols.start().as_u32(),
        symbols: file.file.symbols.as_slice(),
    })
}

/// What a dynamic file asks for by a symbol with this number: what another symbol stands for it.
pub(crate) fn dynamic_ask(link: &LinkInput, number: SymbolId, symbol: &InputSymbol) -> Option<Ask>
    requires { IsWellFormed link.now }
    ensures { result ≡ dynamic_ask link.now (number, symbol.now) }
{
    let definition = symbol.def?;
    if definition.as_u32() == number.as_u32() {
        return None;
    }
    asked_definition(link, definition)
}

/// What a dynamic file asks for by the definition with this number.
fn asked_definition(link: &LinkInput, definition: SymbolId) -> Option<Ask>
    requires { IsWellFormed link.now }
    ensures { result ≡ asked_definition link.now definition }
{
    match link.groups.symbol_in_file(definition) {
        Some(found) => {
            let file = found.file;
            definition_ask(link, definition, file.file, found.symbol)
        }
        None => None,
    }
}

/// What a dynamic file asks for by a definition in this file: of an object one that it can export, outside discarded sections; of
/// a script any.
fn definition_ask(
    link: &LinkInput,
    definition: SymbolId,
    file: &InputFile,
    own: &InputSymbol,
) -> Option<Ask>
    ensures { result ≡ definition_ask link.now definition (file.now, own.now) file.now.kind }
{
    let all = list_for(&link.options, ExportSymbolsMode::All);
    match file.kind {
        FileKind::Object if is_exported(all, file.sections.as_slice(), definition, own) => {
            Some(Ask::Reference(definition, ValueFlags::EXPORT_DYNAMIC))
        }
        FileKind::LinkerScript if is_own_definition(definition, own) => {
            Some(Ask::Reference(definition, ValueFlags(0)))
        }
        _ => None,
    }
}

/// The symbols of the prelude, by which it asks.
fn prelude_symbols<'a>(link: &'a LinkInput, file: FileRef<'a>) -> Option<PreludeRoots<'a>>
    requires well_formed { IsWellFormed link.now }
    requires there { file_in link.now.groups file.id ≡ Some file.file.now }
    ensures { all_of result ≡ prelude_symbol_asks link.now (file_of file.entry) }
{
    let symbols = link.groups.symbol_id_range(file.id)?;
    Some(PreludeRoots {
        own: ExpressionAsks {
            first: None,
            groups: &link.groups,
            tokens: &[],
        },
        groups: &link.groups,
        number: symbols.start().as_u32(),
        symbols: file.file.symbols.as_slice(),
    })
}

/// What the prelude refers to by a symbol of its own, with its number.
pub(crate) fn own_asks<'a>(
    groups: &'a InputGroups,
    number: SymbolId,
    symbol: &'a InputSymbol,
) -> ExpressionAsks<'a>
    ensures { result ≡ own_asks groups.now number symbol.now symbol.now.at }
{
    let mut first = None;
    let mut tokens: &[Token] = &[];
    match &symbol.at {
        SymbolPlacement::Redirect { expression, .. } if symbol.is_canonical(number) => {
            first = Some(Ask::Reference(number, ValueFlags::DIRECT));
            tokens = expression.tokens();
        }
        SymbolPlacement::ForceUndefined => {
            first = forced_ask(groups, symbol.def.unwrap_or(number));
        }
        _ => {}
    }
    ExpressionAsks {
        first,
        groups,
        tokens,
    }
}

/// What a symbol that is wanted all the same refers to: what stands for it, if that is defined.
fn forced_ask(groups: &InputGroups, definition: SymbolId) -> Option<Ask>
    ensures { result ≡ forced_ask groups.now definition }
{
    match groups.symbol(definition) {
        Some(symbol) if !symbol.at.is_undefined() => {
            Some(Ask::Reference(definition, ValueFlags::DIRECT))
        }
        _ => None,
    }
}

/// What a piece of an expression refers to: what stands for its symbol, directly.
pub(crate) fn token_ask(groups: &InputGroups, token: Token) -> Option<Ask>
    ensures { result ≡ token_ask groups.now token }
{
    match token {
        Token::Operand(operand) => operand_ask(groups, operand),
        Token::Operator(_) => None,
    }
}

/// The same for an operand.
fn operand_ask(groups: &InputGroups, operand: Operand) -> Option<Ask>
    ensures { result ≡ token_ask groups.now (token.Operand operand) }
{
    match operand {
        Operand::Symbol(symbol) => {
            let definition = groups.definition(symbol)?;
            Some(Ask::Reference(definition, ValueFlags::DIRECT))
        }
        Operand::Number(_)
        | Operand::Dot
        | Operand::Address(_)
        | Operand::SizeOf(_)
        | Operand::Origin(_)
        | Operand::Length(_)
        | Operand::SizeOfHeaders => None,
    }
}

/// What an object exports, where it exports anything.
fn exports_of<'a>(link: &'a LinkInput, file: FileRef<'a>) -> Option<ExportRoots<'a>>
    requires well_formed { IsWellFormed link.now }
    requires there { file_in link.now.groups file.id ≡ Some file.file.now }
    ensures { all_of result ≡ export_roots link.now (file_of file.entry) }
{
    let mode = mode_of(&link.options, file.file)?;
    let symbols = link.groups.symbol_id_range(file.id)?;
    Some(ExportRoots {
        names: list_for(&link.options, mode),
        sections: file.file.sections.as_slice(),
        number: symbols.start().as_u32(),
        symbols: file.file.symbols.as_slice(),
    })
}

/// The entry, if there is one: what stands for it, directly.
fn entry_ask(link: &LinkInput) -> Option<Ask>
    ensures { option_to_list result ≡ entry_asks link.now }
{
    let entry = link.options.entry?;
    let symbol = link.groups.definition(entry)?;
    Some(Ask::Reference(symbol, ValueFlags::DIRECT))
}
