//! The asks that are left of a unit or a file, one after the other. All that walks over asks drives this one iterator; it
//! takes no memory, and a relocation costs constant time: what stands for its symbol is read off the file's own symbols.

ghost use Rattle.std.specs.Prelude.{◌≡◌, [], ◌++◌, ◌+◌, ◌<◌, ◌^◌, map};
ghost use Rattle.std.specs.Iterator.{YieldsFirst, item_count};
ghost use Rattle.std.specs.Option.{option_to_list};
ghost use Rattle.lk_reach.specs.Askers.{asks_left};
ghost use Rattle.lk_reach.specs.Units.{candidate_ask, comes_along, is_other, is_root, local_definition, range_mark, reference};

use crate::exports::is_exported;
use crate::reaching::{dynamic_ask, own_asks, token_ask};
use crate::scripts::{CandidateAsks, RedirectAsks, ScriptRoots};
use crate::units::Ask;
use lk_link::relocation::resolution_flags;
use lk_link::{
    Candidate, FileId, InputGroups, InputSection, InputSlot, InputSymbol, LinkInput, Names,
    Relocation, SymbolId, Token, ValueFlags,
};
use std::marker::Model;

/// What is left of the asks of a section's relocations. Contracts see the list of them.
#[derive(Drop)]
pub(crate) struct RelocationAsks<'a> {
    /// The mark of the relocation before, where it is still to come.
    pub(crate) mark: Option<Ask>,
    /// The relocations that are left.
    pub(crate) relocs: &'a [Relocation],
    /// The symbols of their file.
    pub(crate) symbols: &'a [InputSymbol],
    /// The number of the first of these.
    pub(crate) first: u32,
    /// Whether the section goes to the primary part.
    pub(crate) primary: bool,
}

impl<'a> Model for RelocationAsks<'a> {
    ghost use Rattle.std.specs.Prelude.{◌++◌, ◌+◌, ◌<◌, ◌^◌, List, All};
    ghost use Rattle.std.specs.List.{flat_map};
    ghost use Rattle.std.specs.Option.{option_to_list};
    ghost use Rattle.std.specs.Coded.{codes};
    ghost use Rattle.lk_link.specs.contracts.expression.Expression as expression;
    ghost use Rattle.lk_link.specs.declared.relocation.Relocation.{Relocation};
    ghost use Rattle.lk_reach.specs.declared.units.Ask.{Ask};

    ghost Value = { List Ask };

    ghost coded = { Prim.hlevel (codes, expression.the_row.coded) };

    ghost use Rattle.lk_reach.specs.Units.{relocation_asks};

    ghost view = { λ a. option_to_list a.mark ++ flat_map (relocation_asks a.primary a.first a.symbols.now) a.relocs.now };

    ghost invariant = { λ a. All (λ (r : Relocation). a.first + r.symbol < 2 ^ 32) a.relocs.now };
}

impl<'a> Iterator for RelocationAsks<'a> {
    type Item = Ask;

    ghost next_gives = { YieldsFirst (λ left. left) };

    ghost remaining = { item_count (λ left. left) };

    fn next(&mut self) -> Option<Ask> {
        if let Some(mark) = self.mark.take() {
            return Some(mark);
        }
        while let Some((relocation, relocs)) = self.relocs.split_first() {
            self.relocs = relocs;
            let mark = range_mark(self.primary, self.first, *relocation);
            if let Some(reference) = reference(self.first, self.symbols, *relocation) {
                self.mark = mark;
                return Some(reference);
            }
            if mark.is_some() {
                return mark;
            }
        }
        None
    }
}

/// What is left of the other members of a section's group. Contracts see the list of the asks.
#[derive(Drop)]
pub(crate) struct MemberAsks<'a> {
    pub(crate) file: FileId,
    /// The section that asks, by its index in the file.
    pub(crate) own: u32,
    /// The sections of the file.
    pub(crate) sections: &'a [InputSection],
    /// The members of the group that are left, by their index in the file.
    pub(crate) members: &'a [usize],
}

impl<'a> Model for MemberAsks<'a> {
    ghost use Rattle.std.specs.Prelude.{◌<◌, ◌^◌, List, length};
    ghost use Rattle.lk_reach.specs.declared.units.Ask.{Ask};

    ghost Value = { List Ask };

    ghost use Rattle.lk_reach.specs.Units.{other_asks};

    ghost view = { λ a. other_asks a.file a.sections.now a.own a.members.now };

    ghost invariant = { λ a. length a.sections.now < 2 ^ 32 };
}

impl<'a> Iterator for MemberAsks<'a> {
    type Item = Ask;

    ghost next_gives = { YieldsFirst (λ left. left) };

    ghost remaining = { item_count (λ left. left) };

    fn next(&mut self) -> Option<Ask> {
        while let Some((member, members)) = self.members.split_first() {
            let index = *member;
            self.members = members;
            if is_other(self.sections, self.own, index) {
                return Some(Ask::Section(self.file, index as u32));
            }
        }
        None
    }
}

/// What is left of the sections that an object asks for by itself. Contracts see the list of the asks.
#[derive(Drop)]
pub(crate) struct SectionRoots<'a> {
    /// Whether only sections that are kept in any case are asked for.
    pub(crate) gc: bool,
    pub(crate) file: FileId,
    /// The index of the first section that is left.
    pub(crate) index: u32,
    /// The sections that are left.
    pub(crate) sections: &'a [InputSection],
}

impl<'a> Model for SectionRoots<'a> {
    ghost use Rattle.std.specs.Prelude.{◌+◌, ◌<◌, ◌^◌, List, length};
    ghost use Rattle.lk_reach.specs.declared.units.Ask.{Ask};

    ghost Value = { List Ask };

    ghost use Rattle.lk_reach.specs.Units.{section_roots};

    ghost view = { λ a. section_roots a.gc a.file a.index a.sections.now };

    ghost invariant = { λ a. a.index + length a.sections.now < 2 ^ 32 };
}

impl<'a> Iterator for SectionRoots<'a> {
    type Item = Ask;

    ghost next_gives = { YieldsFirst (λ left. left) };

    ghost remaining = { item_count (λ left. left) };

    fn next(&mut self) -> Option<Ask> {
        while let Some((section, sections)) = self.sections.split_first() {
            let index = self.index;
            self.index += 1;
            self.sections = sections;
            if is_root(self.gc, section.slot) {
                return Some(Ask::Section(self.file, index));
            }
        }
        None
    }
}

/// What is left of the symbols that an object exports. Contracts see the list of the asks.
#[derive(Drop)]
pub(crate) struct ExportRoots<'a> {
    /// The list that says which names are exported, where one does.
    pub(crate) names: Option<&'a Names>,
    /// The sections of the object.
    pub(crate) sections: &'a [InputSection],
    /// The number of the first symbol that is left.
    pub(crate) number: u32,
    /// The symbols that are left.
    pub(crate) symbols: &'a [InputSymbol],
}

impl<'a> Model for ExportRoots<'a> {
    ghost use Rattle.std.specs.Prelude.{◌+◌, ◌<◌, ◌^◌, List, length};
    ghost use Rattle.std.specs.Option.{option_copied};
    ghost use Rattle.std.specs.Coded.{codes};
    ghost use Rattle.lk_link.specs.contracts.expression.Expression as expression;
    ghost use Rattle.lk_reach.specs.declared.units.Ask.{Ask};

    ghost Value = { List Ask };

    ghost coded = { Prim.hlevel (codes, expression.the_row.coded) };

    ghost use Rattle.lk_reach.specs.Units.{export_asks};

    ghost view = { λ a. export_asks (option_copied a.names) a.sections.now a.number a.symbols.now };

    ghost invariant = { λ a. a.number + length a.symbols.now < 2 ^ 32 };
}

impl<'a> Iterator for ExportRoots<'a> {
    type Item = Ask;

    ghost next_gives = { YieldsFirst (λ left. left) };

    ghost remaining = { item_count (λ left. left) };

    fn next(&mut self) -> Option<Ask> {
        while let Some((symbol, symbols)) = self.symbols.split_first() {
            let number = SymbolId::from_u32(self.number);
            self.number += 1;
            self.symbols = symbols;
            if is_exported(self.names, self.sections, number, symbol) {
                return Some(Ask::Reference(number, ValueFlags::EXPORT_DYNAMIC));
            }
        }
        None
    }
}

/// What is left of the definitions that a dynamic file asks for. Contracts see the list of the asks.
#[derive(Drop)]
pub(crate) struct DynamicRoots<'a> {
    pub(crate) link: &'a LinkInput,
    /// The number of the first symbol that is left.
    pub(crate) number: u32,
    /// The symbols that are left.
    pub(crate) symbols: &'a [InputSymbol],
}

impl<'a> Model for DynamicRoots<'a> {
    ghost use Rattle.std.specs.Prelude.{◌+◌, ◌<◌, ◌^◌, List, length};
    ghost use Rattle.std.specs.Coded.{codes};
    ghost use Rattle.lk_link.specs.WellFormed.{IsWellFormed};
    ghost use Rattle.lk_link.specs.contracts.expression.Expression as expression;
    ghost use Rattle.lk_reach.specs.declared.units.Ask.{Ask};

    ghost Value = { List Ask };

    ghost coded = { Prim.hlevel (codes, expression.the_row.coded) };

    ghost use Rattle.std.specs.List.{enumerate_from, flat_map};
    ghost use Rattle.std.specs.Option.{option_to_list};
    ghost use Rattle.lk_reach.specs.Units.{dynamic_ask};

    ghost view = { λ a. flat_map (λ q. option_to_list (dynamic_ask a.link.now q)) (enumerate_from a.number a.symbols.now) };

    ghost invariant = { λ a. IsWellFormed a.link.now × (a.number + length a.symbols.now < 2 ^ 32) };
}

impl<'a> Iterator for DynamicRoots<'a> {
    type Item = Ask;

    ghost next_gives = { YieldsFirst (λ left. left) };

    ghost remaining = { item_count (λ left. left) };

    fn next(&mut self) -> Option<Ask> {
        while let Some((symbol, symbols)) = self.symbols.split_first() {
            let number = SymbolId::from_u32(self.number);
            self.number += 1;
            self.symbols = symbols;
            let ask = dynamic_ask(self.link, number, symbol);
            if ask.is_some() {
                return ask;
            }
        }
        None
    }
}

/// What is left of what an expression refers to, behind an ask of its own. Contracts see the list of the asks.
#[derive(Drop)]
pub(crate) struct ExpressionAsks<'a> {
    /// The ask before the expression's, where it is still to come.
    pub(crate) first: Option<Ask>,
    pub(crate) groups: &'a InputGroups,
    /// The pieces of the expression that are left.
    pub(crate) tokens: &'a [Token],
}

impl<'a> Model for ExpressionAsks<'a> {
    ghost use Rattle.std.specs.Prelude.{◌++◌, List};
    ghost use Rattle.std.specs.Option.{option_to_list};
    ghost use Rattle.std.specs.Coded.{codes};
    ghost use Rattle.lk_link.specs.contracts.expression.Expression as expression;
    ghost use Rattle.lk_reach.specs.declared.units.Ask.{Ask};

    ghost Value = { List Ask };

    ghost coded = { Prim.hlevel (codes, expression.the_row.coded) };

    ghost use Rattle.lk_reach.specs.Units.{token_asks};

    ghost view = { λ a. option_to_list a.first ++ token_asks a.groups.now a.tokens.now };
}

impl<'a> Iterator for ExpressionAsks<'a> {
    type Item = Ask;

    ghost next_gives = { YieldsFirst (λ left. left) };

    ghost remaining = { item_count (λ left. left) };

    fn next(&mut self) -> Option<Ask> {
        if let Some(ask) = self.first.take() {
            return Some(ask);
        }
        while let Some((token, tokens)) = self.tokens.split_first() {
            self.tokens = tokens;
            let ask = token_ask(self.groups, *token);
            if ask.is_some() {
                return ask;
            }
        }
        None
    }
}

/// What is left of what the prelude asks for by its symbols. Contracts see the list of the asks.
#[derive(Drop)]
pub(crate) struct PreludeRoots<'a> {
    /// What is left of the symbol before.
    pub(crate) own: ExpressionAsks<'a>,
    pub(crate) groups: &'a InputGroups,
    /// The number of the first symbol that is left.
    pub(crate) number: u32,
    /// The symbols that are left.
    pub(crate) symbols: &'a [InputSymbol],
}

impl<'a> Model for PreludeRoots<'a> {
    ghost use Rattle.std.specs.Prelude.{◌++◌, ◌+◌, ◌<◌, ◌^◌, List, length};
    ghost use Rattle.std.specs.Coded.{codes};
    ghost use Rattle.lk_link.specs.contracts.expression.Expression as expression;
    ghost use Rattle.lk_reach.specs.declared.units.Ask.{Ask};

    ghost Value = { List Ask };

    ghost coded = { Prim.hlevel (codes, expression.the_row.coded) };

    ghost use Rattle.std.specs.List.{enumerate_from, flat_map};
    ghost use Rattle.lk_reach.specs.Units.{own_asks};

    ghost view = { λ a. a.own ++ flat_map (λ q. own_asks a.groups.now q.0 q.1 q.1.at) (enumerate_from a.number a.symbols.now) };

    ghost invariant = { λ a. a.number + length a.symbols.now < 2 ^ 32 };
}

impl<'a> Iterator for PreludeRoots<'a> {
    type Item = Ask;

    ghost next_gives = { YieldsFirst (λ left. left) };

    ghost remaining = { item_count (λ left. left) };

    fn next(&mut self) -> Option<Ask> {
        if let Some(ask) = self.own.next() {
            return Some(ask);
        }
        while let Some((symbol, symbols)) = self.symbols.split_first() {
            let number = SymbolId::from_u32(self.number);
            self.number += 1;
            self.symbols = symbols;
            self.own = own_asks(self.groups, number, symbol);
            if let Some(ask) = self.own.next() {
                return Some(ask);
            }
        }
        None
    }
}

/// What is left of what a section asks for: of its group, then by its relocations. Contracts see the list of the asks.
#[derive(Drop)]
pub(crate) struct SectionAsks<'a> {
    pub(crate) members: MemberAsks<'a>,
    pub(crate) relocations: RelocationAsks<'a>,
}

impl<'a> Model for SectionAsks<'a> {
    ghost use Rattle.std.specs.Prelude.{◌++◌, List};
    ghost use Rattle.std.specs.Coded.{codes};
    ghost use Rattle.lk_link.specs.contracts.expression.Expression as expression;
    ghost use Rattle.lk_reach.specs.declared.units.Ask.{Ask};

    ghost Value = { List Ask };

    ghost coded = { Prim.hlevel (codes, expression.the_row.coded) };

    ghost view = { λ a. a.members ++ a.relocations };
}

impl<'a> Iterator for SectionAsks<'a> {
    type Item = Ask;

    ghost next_gives = { YieldsFirst (λ left. left) };

    ghost remaining = { item_count (λ left. left) };

    fn next(&mut self) -> Option<Ask> {
        if let Some(ask) = self.members.next() {
            return Some(ask);
        }
        self.relocations.next()
    }
}

/// What is left of what an object asks for: its sections, then what it exports. Contracts see the list of the asks.
#[derive(Drop)]
pub(crate) struct ObjectRoots<'a> {
    pub(crate) sections: SectionRoots<'a>,
    pub(crate) exports: ExportRoots<'a>,
}

impl<'a> Model for ObjectRoots<'a> {
    ghost use Rattle.std.specs.Prelude.{◌++◌, List};
    ghost use Rattle.std.specs.Coded.{codes};
    ghost use Rattle.lk_link.specs.contracts.expression.Expression as expression;
    ghost use Rattle.lk_reach.specs.declared.units.Ask.{Ask};

    ghost Value = { List Ask };

    ghost coded = { Prim.hlevel (codes, expression.the_row.coded) };

    ghost view = { λ a. a.sections ++ a.exports };
}

impl<'a> Iterator for ObjectRoots<'a> {
    type Item = Ask;

    ghost next_gives = { YieldsFirst (λ left. left) };

    ghost remaining = { item_count (λ left. left) };

    fn next(&mut self) -> Option<Ask> {
        if let Some(ask) = self.sections.next() {
            return Some(ask);
        }
        self.exports.next()
    }
}

/// Whose asks they are, and what is left of them.
#[derive(Drop)]
pub(crate) enum Asker<'a> {
    Nobody,
    Section(SectionAsks<'a>),
    Candidates(CandidateAsks<'a>),
    Redirect(RedirectAsks<'a>),
    Object(ObjectRoots<'a>),
    Dynamic(DynamicRoots<'a>),
    Prelude(PreludeRoots<'a>),
    Script(ScriptRoots<'a>),
}

/// What is left of what a unit or a file asks for, in order. Contracts see the list of the asks.
#[derive(Drop)]
pub struct Successors<'a> {
    /// An ask that comes before all others: a symbol's section, or the entry.
    first: Option<Ask>,
    asker: Asker<'a>,
}

impl<'a> Model for Successors<'a> {
    ghost use Rattle.std.specs.Prelude.{◌++◌, List};
    ghost use Rattle.std.specs.Option.{option_to_list};
    ghost use Rattle.std.specs.Coded.{codes};
    ghost use Rattle.lk_link.specs.contracts.expression.Expression as expression;
    ghost use Rattle.lk_reach.specs.declared.units.Ask.{Ask};

    ghost Value = { List Ask };

    ghost coded = { Prim.hlevel (codes, expression.the_row.coded) };

    ghost use Rattle.lk_reach.specs.Askers.{asks_left};

    ghost view = { λ a. option_to_list a.first ++ asks_left a.asker };
}

impl<'a> Iterator for Successors<'a> {
    type Item = Ask;

    ghost next_gives = { YieldsFirst (λ left. left) };

    ghost remaining = { item_count (λ left. left) };

    fn next(&mut self) -> Option<Ask> {
        if let Some(ask) = self.first.take() {
            return Some(ask);
        }
        next_of(&mut self.asker)
    }
}

/// The next ask, if one is left.
fn next_of(asker: &mut Asker<'_>) -> Option<Ask>
    ensures { YieldsFirst asks_left asker.old result asker.new }
{
    match asker {
        Asker::Nobody => None,
        Asker::Section(asks) => asks.next(),
        Asker::Candidates(asks) => asks.next(),
        Asker::Redirect(asks) => asks.next(),
        Asker::Object(asks) => asks.next(),
        Asker::Dynamic(asks) => asks.next(),
        Asker::Prelude(asks) => asks.next(),
        Asker::Script(asks) => asks.next(),
    }
}

impl<'a> RelocationAsks<'a> {
    /// No asks.
    pub(crate) fn none() -> RelocationAsks<'a>
        ensures { result ≡ [] }
    {
        RelocationAsks {
            mark: None,
            relocs: &[],
            symbols: &[],
            first: 0,
            primary: false,
        }
    }
}

impl<'a> MemberAsks<'a> {
    /// No asks.
    pub(crate) fn none() -> MemberAsks<'a>
        ensures { result ≡ [] }
    {
        MemberAsks {
            file: FileId { group: 0, file: 0 },
            own: 0,
            sections: &[],
            members: &[],
        }
    }
}

impl<'a> SectionRoots<'a> {
    /// No asks.
    pub(crate) fn none() -> SectionRoots<'a>
        ensures { result ≡ [] }
    {
        SectionRoots {
            gc: false,
            file: FileId { group: 0, file: 0 },
            index: 0,
            sections: &[],
        }
    }
}

impl<'a> ExportRoots<'a> {
    /// No asks.
    pub(crate) fn none() -> ExportRoots<'a>
        ensures { result ≡ [] }
    {
        ExportRoots {
            names: None,
            sections: &[],
            number: 0,
            symbols: &[],
        }
    }
}

impl<'a> Successors<'a> {
    /// No asks.
    pub(crate) fn none() -> Successors<'a>
        ensures { result ≡ [] }
    {
        Successors {
            first: None,
            asker: Asker::Nobody,
        }
    }

    /// This ask alone, if there is one.
    pub(crate) fn from_ask(ask: Option<Ask>) -> Successors<'a>
        ensures { result ≡ option_to_list ask }
    {
        Successors {
            first: ask,
            asker: Asker::Nobody,
        }
    }

    /// The asks of a section.
    pub(crate) fn from_section(asks: SectionAsks<'a>) -> Successors<'a>
        ensures { result ≡ asks.entry }
    {
        Successors {
            first: None,
            asker: Asker::Section(asks),
        }
    }

    /// The asks for candidates.
    pub(crate) fn from_candidates(candidates: &'a [Candidate]) -> Successors<'a>
        ensures { result ≡ map candidate_ask candidates.now }
    {
        Successors {
            first: None,
            asker: Asker::Candidates(CandidateAsks { candidates }),
        }
    }

    /// The asks of a script's symbol.
    pub(crate) fn from_redirect(asks: RedirectAsks<'a>) -> Successors<'a>
        ensures { result ≡ asks.entry }
    {
        Successors {
            first: None,
            asker: Asker::Redirect(asks),
        }
    }

    /// The asks of an object.
    pub(crate) fn from_object(asks: ObjectRoots<'a>) -> Successors<'a>
        ensures { result ≡ asks.entry }
    {
        Successors {
            first: None,
            asker: Asker::Object(asks),
        }
    }

    /// The asks for definitions in other files.
    pub(crate) fn from_dynamic(asks: DynamicRoots<'a>) -> Successors<'a>
        ensures { result ≡ asks.entry }
    {
        Successors {
            first: None,
            asker: Asker::Dynamic(asks),
        }
    }

    /// The entry, then the asks of the prelude's symbols.
    pub(crate) fn from_prelude(entry: Option<Ask>, asks: PreludeRoots<'a>) -> Successors<'a>
        ensures { result ≡ option_to_list entry ++ asks.entry }
    {
        Successors {
            first: entry,
            asker: Asker::Prelude(asks),
        }
    }

    /// The asks of a script.
    pub(crate) fn from_script(asks: ScriptRoots<'a>) -> Successors<'a>
        ensures { result ≡ asks.entry }
    {
        Successors {
            first: None,
            asker: Asker::Script(asks),
        }
    }
}

/// Whether a section of a file, by its index, is another one than this and comes with its group.
fn is_other(sections: &[InputSection], own: u32, index: usize) -> bool
    ensures { result ≡ is_other sections.now own index }
{
    match sections.get(index) {
        Some(section) => index != own as usize && comes_along(section.slot),
        None => false,
    }
}

/// Whether a section comes with the other members of its group: debug data that is kept in any case is asked for by its file.
fn comes_along(slot: InputSlot) -> bool
    ensures { result ≡ comes_along slot }
{
    match slot {
        InputSlot::Unloaded | InputSlot::MustLoad | InputSlot::DebugInfo => true,
        InputSlot::MustLoadDebugInfo | InputSlot::Discard | InputSlot::Merge => false,
    }
}

/// Whether a section is asked for by its own file: one that is kept in any case is, and without collection any that can be
/// kept.
fn is_root(gc: bool, slot: InputSlot) -> bool
    ensures { result ≡ is_root gc slot }
{
    match slot {
        InputSlot::MustLoad | InputSlot::MustLoadDebugInfo => true,
        InputSlot::Unloaded | InputSlot::DebugInfo => !gc,
        InputSlot::Discard | InputSlot::Merge => false,
    }
}

/// What a relocation refers to: what stands for its symbol, with the flags that its kind wants, unless it wants none.
/// `first` is the number of the first of the file's symbols.
fn reference(first: u32, symbols: &[InputSymbol], relocation: Relocation) -> Option<Ask>
    requires { first + relocation.symbol < 2 ^ 32 }
    ensures { result ≡ reference first symbols.now relocation }
{
    let flags = resolution_flags(relocation.kind);
    if flags.0 == 0 {
        return None;
    }
    let symbol = local_definition(first, symbols, relocation.symbol);
    Some(Ask::Reference(symbol, flags))
}

/// What stands for a symbol of a file, by its index there: its definition, else itself.
pub fn local_definition(first: u32, symbols: &[InputSymbol], index: u32) -> SymbolId
    requires { first + index < 2 ^ 32 }
    ensures { result ≡ local_definition first symbols.now index }
{
    let own = SymbolId::from_u32(first + index);
    match symbols.get(index as usize) {
        Some(symbol) => symbol.def.unwrap_or(own),
        None => own,
    }
}

/// What a relocation marks: its own symbol, where a thunk may stand in for it and the section goes to the primary part.
fn range_mark(primary: bool, first: u32, relocation: Relocation) -> Option<Ask>
    requires { first + relocation.symbol < 2 ^ 32 }
    ensures { result ≡ range_mark primary first relocation }
{
    if primary && relocation.thunkable {
        let symbol = SymbolId::from_u32(first + relocation.symbol);
        Some(Ask::Mark(symbol, ValueFlags::HAS_RANGE_LIMITED_REL))
    } else {
        None
    }
}
