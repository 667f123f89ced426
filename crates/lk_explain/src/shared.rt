//! What many units ask for whole, and is taken once: the members of a section group, and the candidates of an output section, for
//! which the symbols of a synthetic file at its start and its end ask.

ghost use Rattle.std.specs.Prelude.{◌≡◌, ◌⊎◌, ◌<◌, ◌^◌, IfOk, Some, true, ℕ};
ghost use Rattle.std.specs.List.{slice_index};
ghost use Rattle.std.specs.Option.{ForSome};
ghost use Rattle.lk_link.specs.FileKinds.{is_synthetic};
ghost use Rattle.lk_link.specs.SymbolPlacements.{edge_of};
ghost use Rattle.lk_link.specs.WellFormed.{IsWellFormed};
ghost use Rattle.lk_reach.specs.Edges.{IsEdgeAt};
ghost use Rattle.lk_reach.specs.Units.{follows};
ghost use Rattle.lk_reach.specs.declared.units.Unit.TheVariants.{Sym};
ghost use Rattle.lk_explain.specs.Sharing.{IsNew, IsTakenFor, NoneTaken};
ghost use Rattle.lk_explain.specs.declared.shared.TheConstants.{TAKEN};

use lk_link::{
    FileId, InputFile, InputSymbol, LinkInput, OutputSectionId, SymbolId, SymbolPlacement,
};
use lk_reach::walk::unmarked;
use std::alloc::{AllocError, Global};

/// The mark of a symbol whose asks were taken, in place of its leader; no symbol's number.
const TAKEN: u32 = u32::MAX;

/// What was taken of it.
#[derive(Drop)]
pub(crate) struct Shared {
    /// For each input section whether the members of the section group were taken of which it is the first one.
    pub(crate) groups: Vec<bool>,
    /// For each symbol the first one that may ask for the same candidates (a guess, which is looked at where it is used), or itself,
    /// until what it asks for is taken.
    leaders: Vec<u32>,
}

impl Shared {
    /// What is taken of a link at first: nothing.
    pub(crate) fn new(alloc: Global, link: &LinkInput) -> Result<Shared, AllocError>
        requires { IsWellFormed link.now }
        ensures { IfOk result (IsNew link.now) }
    {
        Ok(Shared {
            groups: unmarked(alloc, link.groups.input_count() as usize)?,
            leaders: leaders_of(alloc, link)?,
        })
    }

    /// Whether what a symbol asks for was taken, for it or for another that asks for the same.
    pub(crate) fn is_taken(&self, link: &LinkInput, symbol: SymbolId) -> bool
        requires { IsWellFormed link.now }
        ensures { result ≡ true → IsTakenFor link.now self.now.leaders.items symbol }
    {
        self.has_mark(symbol) || self.has_mark(self.leader(link, symbol))
    }

    /// Takes it down that what a symbol asks for was taken.
    pub(crate) fn take(&mut self, link: &LinkInput, symbol: SymbolId)
        requires { IsWellFormed link.now }
        ensures groups { self.new.groups.items ≡ self.old.groups.items }
        ensures symbols { (s : ℕ) → slice_index self.new.leaders.items s ≡ TAKEN → (slice_index self.old.leaders.items s ≡ TAKEN) ⊎ (follows link.now (Sym s) ≡ follows link.now (Sym symbol)) }
    {
        let leader = self.leader(link, symbol);
        let place = leader.as_usize();
        if place < self.leaders.len() {
            self.leaders[place] = TAKEN;
        }
    }

    /// A symbol, perhaps itself, that asks for the same as a symbol.
    fn leader(&self, link: &LinkInput, symbol: SymbolId) -> SymbolId
        requires { IsWellFormed link.now }
        ensures { follows link.now (Sym result) ≡ follows link.now (Sym symbol) }
    {
        match self.other_leader(link, symbol) {
            Some(leader) => leader,
            None => symbol,
        }
    }

    /// Another symbol that asks for the same as a symbol at an edge.
    fn other_leader(&self, link: &LinkInput, symbol: SymbolId) -> Option<SymbolId>
        requires { IsWellFormed link.now }
        ensures { ForSome result (λ leader. follows link.now (Sym leader) ≡ follows link.now (Sym symbol)) }
    {
        let number = *self.leaders.get(symbol.as_usize())?;
        if number == symbol.as_u32() {
            return None;
        }
        let leader = SymbolId::from_u32(number);
        let first = edge_at(link, leader)?;
        let own = edge_at(link, symbol)?;
        if is_same(first, own) {
            Some(leader)
        } else {
            None
        }
    }

    /// Whether a symbol has the mark.
    fn has_mark(&self, symbol: SymbolId) -> bool
        ensures { result ≡ true → slice_index self.now.leaders.items symbol ≡ TAKEN }
    {
        match self.leaders.get(symbol.as_usize()) {
            Some(number) => *number == TAKEN,
            None => false,
        }
    }
}

/// The output section at whose start or end a symbol of a synthetic file is, with the file.
#[derive(Clone, Copy)]
struct EdgeAt {
    file: FileId,
    output: OutputSectionId,
}

/// Whether two places are the same.
fn is_same(a: EdgeAt, b: EdgeAt) -> bool
    ensures { result ≡ true → a ≡ b }
{
    a.file.group == b.file.group
        && a.file.file == b.file.file
        && a.output.as_u32() == b.output.as_u32()
}

/// The place of a symbol of a synthetic file that is at an edge.
fn edge_at(link: &LinkInput, symbol: SymbolId) -> Option<EdgeAt>
    requires { IsWellFormed link.now }
    ensures { ForSome result (λ e. IsEdgeAt link.now symbol (record { file = e.file; output = e.output })) }
{
    match link.groups.symbol_in_file(symbol) {
        Some(found) => {
            let file = found.file;
            let own = found.symbol;
            edge_in(file.id, file.file, &own.at)
        }
        None => None,
    }
}

/// The same for a placement in a file.
fn edge_in(id: FileId, file: &InputFile, at: &SymbolPlacement) -> Option<EdgeAt>
    ensures { ForSome result (λ e. (e.file ≡ id) × (is_synthetic file.now.kind ≡ true) × (edge_of at.now ≡ Some e.output)) }
{
    if !file.kind.is_synthetic() {
        return None;
    }
    let output = at.edge_of()?;
    Some(EdgeAt { file: id, output })
}

/// For each symbol the first one of its file at the same edge, as far as can be told at once, else itself.
fn leaders_of(alloc: Global, link: &LinkInput) -> Result<Vec<u32>, AllocError>
    requires { IsWellFormed link.now }
    ensures { IfOk result (λ leaders. NoneTaken leaders.items) }
{
    let mut leaders = numbers_to(alloc, link.groups.symbol_count() as usize)?;
    let mut heads = vec![in alloc; TAKEN; link.plan.sections.len()]?;
    for file in link.groups.files() {
        if file.file.kind.is_synthetic() {
            if let Some(symbols) = link.groups.symbol_id_range(file.id) {
                let first = symbols.start().as_u32();
                lead_symbols(
                    &mut leaders,
                    &mut heads,
                    first,
                    file.file.symbols.as_slice(),
                );
            }
        }
    }
    Ok(leaders)
}

/// So many numbers, from 0 on.
fn numbers_to(alloc: Global, count: usize) -> Result<Vec<u32>, AllocError>
    requires { count < 2 ^ 32 }
    ensures { IfOk result (λ numbers. NoneTaken numbers.items) }
{
    let mut numbers = Vec::with_capacity(alloc, count)?;
    for number in 0..count {
        numbers.push(number as u32)?;
    }
    Ok(numbers)
}

/// Gives each of a file's symbols at an edge its leader. `first` is the number of the first symbol, and `heads` the last leader for
/// each output section.
fn lead_symbols(leaders: &mut Vec<u32>, heads: &mut Vec<u32>, first: u32, symbols: &[InputSymbol])
    ensures { NoneTaken leaders.old.items → NoneTaken leaders.new.items }
{
    let mut number = first;
    for symbol in symbols {
        if let Some(output) = symbol.at.edge_of() {
            lead(leaders, heads, first, number, output.as_usize());
        }
        number = number.saturating_add(1);
    }
}

/// Gives a symbol at the edge of an output section its leader: the last one, if it is of the same file, else itself.
fn lead(leaders: &mut Vec<u32>, heads: &mut Vec<u32>, first: u32, number: u32, output: usize)
    ensures { NoneTaken leaders.old.items → NoneTaken leaders.new.items }
{
    let place = number as usize;
    if place < leaders.len() && output < heads.len() {
        let head = heads[output];
        if first <= head && head < number {
            leaders[place] = head;
        } else {
            heads[output] = number;
        }
    }
}
