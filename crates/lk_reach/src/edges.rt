//! Symbols at the starts and the ends of output sections: those of one file at one output section ask for the same candidates,
//! which are taken once.

ghost use Rattle.std.specs.Prelude.{◌≡◌, IfOk, false, length, replicate, slice_set, true};
ghost use Rattle.std.specs.List.{list_any};
ghost use Rattle.std.specs.Option.{ForSome};
ghost use Rattle.lk_link.specs.Inputs.{numbered_files};
ghost use Rattle.lk_link.specs.WellFormed.{IsWellFormed};
ghost use Rattle.lk_reach.specs.Edges.{IsEdgeAt, edge_in, offers_candidates};
ghost use Rattle.lk_reach.specs.Units.{follows};
ghost use Rattle.lk_reach.specs.declared.units.Unit.TheVariants.{Sym};

use crate::walk::{set_mark, unmarked};
use lk_link::{
    FileId, InputFile, InputSymbol, LinkInput, OutputSectionId, SymbolId, SymbolPlacement,
};
use std::alloc::{AllocError, Global};

/// No symbol's number.
const NONE: u32 = u32::MAX;

/// Which symbols may ask for the same candidates, and of which of them these were taken.
#[derive(Drop)]
pub(crate) struct Edges {
    /// For each symbol at an edge the first one of its file at the same output section: a guess, which is looked at where it is
    /// used. Empty where no file has candidates.
    leaders: Vec<u32>,
    /// For each symbol whether what it asks for was taken.
    pub(crate) taken: Vec<bool>,
}

/// The output section at whose start or end a symbol of a synthetic file is, with the file.
#[derive(Clone, Copy)]
pub(crate) struct EdgeAt {
    file: FileId,
    output: OutputSectionId,
}

impl Edges {
    /// The edges of a link, none of them taken. Without candidates they take no memory.
    pub(crate) fn new(alloc: Global, link: &LinkInput) -> Result<Edges, AllocError>
        requires { IsWellFormed link.now }
        ensures { IfOk result (λ edges. edges.taken.items ≡ replicate (length edges.leaders.items) false) }
    {
        let count = if has_candidates(link) {
            link.groups.symbol_count() as usize
        } else {
            0
        };
        let leaders = find_leaders(alloc, link, count)?;
        let taken = unmarked(alloc, count)?;
        Ok(Edges { leaders, taken })
    }

    /// A symbol, perhaps itself, that asks for the same as a symbol at an edge.
    pub(crate) fn leader(&self, link: &LinkInput, symbol: SymbolId) -> Option<SymbolId>
        requires { IsWellFormed link.now }
        ensures { ForSome result (λ leader. follows link.now (Sym leader) ≡ follows link.now (Sym symbol)) }
    {
        let number = *self.leaders.get(symbol.as_usize())?;
        if number == NONE {
            return None;
        }
        let leader = SymbolId::from_u32(number);
        let first = edge_at(link, leader)?;
        let own = edge_at(link, symbol)?;
        if is_same(first, own) {
            Some(leader)
        } else {
            None
        }
    }

    /// Takes it down that what a symbol asks for was taken, if the symbol has a mark.
    pub(crate) fn set(&mut self, symbol: SymbolId)
        ensures { self.new.taken.items ≡ slice_set self.old.taken.items symbol true }
    {
        let place = symbol.as_usize();
        if place < self.taken.len() {
            set_mark(&mut self.taken, place);
        }
    }
}

/// Whether two places are the same.
fn is_same(a: EdgeAt, b: EdgeAt) -> bool
    ensures { result ≡ true → a ≡ b }
{
    a.file.group == b.file.group
        && a.file.file == b.file.file
        && a.output.as_u32() == b.output.as_u32()
}

/// The place of a symbol of a synthetic file that is at an edge.
fn edge_at(link: &LinkInput, symbol: SymbolId) -> Option<EdgeAt>
    requires { IsWellFormed link.now }
    ensures { ForSome result (IsEdgeAt link.now symbol) }
{
    match link.groups.symbol_in_file(symbol) {
        Some(found) => {
            let file = found.file;
            let own = found.symbol;
            edge_in(file.id, file.file, &own.at)
        }
        None => None,
    }
}

/// The place of a placement in this file that is at an edge, if the file is synthetic.
fn edge_in(id: FileId, file: &InputFile, at: &SymbolPlacement) -> Option<EdgeAt>
    ensures { result ≡ edge_in id file.now at.now }
{
    if !file.kind.is_synthetic() {
        return None;
    }
    let output = at.edge_of()?;
    Some(EdgeAt { file: id, output })
}

/// Whether a synthetic file has candidates.
fn has_candidates(link: &LinkInput) -> bool
    requires { IsWellFormed link.now }
    ensures { result ≡ list_any (λ f. offers_candidates f.file) (numbered_files link.now.groups) }
{
    for file in link.groups.files() {
        if offers_candidates(file.file) {
            return true;
        }
    }
    false
}

/// Whether a file is synthetic and has candidates.
fn offers_candidates(file: &InputFile) -> bool
    ensures { result ≡ offers_candidates file.now }
{
    file.kind.is_synthetic() && !file.candidates.is_empty()
}

/// For each of so many symbols the first one of its file at the same edge, as far as can be told at once.
fn find_leaders(alloc: Global, link: &LinkInput, count: usize) -> Result<Vec<u32>, AllocError>
    requires { IsWellFormed link.now }
    ensures { IfOk result (λ leaders. length leaders.items ≡ count) }
{
    let mut leaders = vec![in alloc; NONE; count]?;
    if count == 0 {
        return Ok(leaders);
    }
    let mut heads = vec![in alloc; NONE; link.plan.sections.len()]?;
    for file in link.groups.files() {
        if file.file.kind.is_synthetic() {
            if let Some(symbols) = link.groups.symbol_id_range(file.id) {
                let first = symbols.start().as_u32();
                lead_symbols(
                    &mut leaders,
                    &mut heads,
                    first,
                    file.file.symbols.as_slice(),
                );
            }
        }
    }
    Ok(leaders)
}

/// Gives each symbol at an edge its leader. `first` is the number of the first symbol, and `heads` the last leader for each output
/// section.
fn lead_symbols(leaders: &mut Vec<u32>, heads: &mut Vec<u32>, first: u32, symbols: &[InputSymbol])
    ensures { length leaders.new.items ≡ length leaders.old.items }
{
    let mut number = first;
    for symbol in symbols {
        if let Some(output) = symbol.at.edge_of() {
            lead(leaders, heads, first, number, output.as_usize());
        }
        number = number.saturating_add(1);
    }
}

/// Gives a symbol at the edge of an output section its leader: the last one, if it is of the same file, else itself.
fn lead(leaders: &mut Vec<u32>, heads: &mut Vec<u32>, first: u32, number: u32, output: usize)
    ensures { length leaders.new.items ≡ length leaders.old.items }
{
    let place = number as usize;
    if place < leaders.len() && output < heads.len() {
        if heads[output] == NONE || heads[output] < first {
            heads[output] = number;
        }
        leaders[place] = heads[output];
    }
}
