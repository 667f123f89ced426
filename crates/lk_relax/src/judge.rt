//! What comes of the candidates of a section, by the addresses before a pass: also of one behind another that just went.

ghost use Rattle.std.specs.Prelude.{◌≡◌, ◌+◌, ◌<◌, ◌^◌, option_and_then, slice_get};
ghost use Rattle.std.specs.Option.{option_copied};
ghost use Rattle.lk_link.specs.Symbols.{definition_of, symbol_at};
ghost use Rattle.lk_link.specs.WellFormed.{IsWellFormed};
ghost use Rattle.lk_expressions.specs.Records.{record_at};
ghost use Rattle.lk_expressions.specs.Surroundings.{flat};
ghost use Rattle.lk_tables.specs.Late.{flags_at};
ghost use Rattle.lk_relax.specs.Scan.{CanBeScanned, absolute_value, address_in, as_address, candidates_of, outcome_by, scanned};
ghost use Rattle.lk_relax.specs.ScanWords.{IsNumbered, by_distance, judged, site_in, target_in};

use lk_deltas::{Judge, Outcome, SectionRelaxDeltas, opt_input_to_output};
use lk_expressions::{OutputRecordLayout, SymbolPositions};
use lk_link::relocation::RelaxCandidate;
use lk_link::{InputSymbol, LinkInput, PartId, SymbolId, SymbolPlacement, ValueFlags};
use lk_live::Live;

/// What comes of the candidates of one section, by the addresses before the pass.
#[derive(Clone, Copy)]
pub(crate) struct SectionJudge<'a> {
    pub(crate) link: &'a LinkInput,
    pub(crate) live: &'a Live,
    pub(crate) symbols: &'a SymbolPositions,
    pub(crate) parts: &'a [OutputRecordLayout],
    /// The number of the file's first symbol.
    pub(crate) first: u32,
    /// The file's symbols.
    pub(crate) own: &'a [InputSymbol],
    /// The section's position.
    pub(crate) position: Option<(PartId, u64)>,
    /// What is deleted of it.
    pub(crate) deleted: Option<&'a SectionRelaxDeltas>,
}

impl<'a> Judge for SectionJudge<'a> {
    ghost use Rattle.lk_relax.specs.ScanWords.{IsNumbered, judged};

    ghost told = { judged };

    ghost asks = { IsNumbered };

    fn tell(&self, candidate: &RelaxCandidate) -> Outcome {
        let target = own_target(self, candidate.symbol);
        let site = site_in(self.parts, self.position, self.deleted, candidate.at);
        outcome_by(target, site, candidate.limit)
    }
}

/// The address of what stands for a symbol of the file with this index, if it has one. Only one that another file defines is looked up.
fn own_target(judge: &SectionJudge<'_>, index: u32) -> Option<u64>
    requires few { judge.now.first + index < 2 ^ 32 }
    requires own { symbol_at judge.now.link.now.groups (judge.now.first + index) ≡ slice_get judge.now.own.now index }
    ensures { result ≡ option_and_then (target_in judge.now.link.now judge.now.live.now judge.now.symbols.now judge.now.parts.now)
        (definition_of judge.now.link.now.groups (judge.now.first + index)) }
{
    let symbol = judge.own.get(index as usize)?;
    match symbol.def {
        Some(definition) => target(judge, definition, absolute_at(judge.link, definition)),
        None => {
            let number = SymbolId::from_u32(judge.first + index);
            target(judge, number, absolute_value(&symbol.at))
        }
    }
}

/// The address of a symbol: the number that it is, or where it stands; none if it has none, or another may take its place.
#[tactic(auto, unfolding(lk_link::specs::Files::first_some))]
fn target(judge: &SectionJudge<'_>, symbol: SymbolId, absolute: Option<u64>) -> Option<u64>
    requires { absolute ≡ option_and_then (λ x. absolute_value x.at) (symbol_at judge.now.link.now.groups symbol) }
    ensures { result ≡ target_in judge.now.link.now judge.now.live.now judge.now.symbols.now judge.now.parts.now symbol }
{
    let flags = flags_at(judge.live.flags.as_slice(), symbol.as_usize());
    if flags.is_interposable() {
        return None;
    }
    match absolute {
        Some(value) => Some(value),
        None => address_of(judge.symbols, judge.parts, symbol),
    }
}

/// The number that a symbol of any file is, if it is absolute.
fn absolute_at(link: &LinkInput, symbol: SymbolId) -> Option<u64>
    ensures { result ≡ option_and_then (λ x. absolute_value x.at) (symbol_at link.now.groups symbol) }
{
    absolute_value(&link.groups.symbol(symbol)?.at)
}

/// The number that stands in a symbol's place, if it is absolute.
fn absolute_value(placement: &SymbolPlacement) -> Option<u64>
    ensures { result ≡ absolute_value placement.now }
{
    match placement {
        SymbolPlacement::Absolute(value) => Some(*value),
        _ => None,
    }
}

/// The address of a symbol that has a position.
fn address_of(
    symbols: &SymbolPositions,
    parts: &[OutputRecordLayout],
    symbol: SymbolId,
) -> Option<u64>
    ensures { result ≡ option_and_then (λ p. address_in parts.now p.part p.offset) (flat (slice_get symbols.now symbol)) }
{
    let position = symbols.get(symbol)?;
    address_in(parts, position.part, position.offset)
}

/// The flags of a symbol by its number; none past the end.
fn flags_at(flags: &[ValueFlags], number: usize) -> ValueFlags
    ensures { result ≡ flags_at flags.now number }
{
    match flags.get(number) {
        Some(flags) => *flags,
        None => ValueFlags(0),
    }
}

/// The address of an offset of a section with this position.
fn site_in(
    parts: &[OutputRecordLayout],
    position: Option<(PartId, u64)>,
    deleted: Option<&SectionRelaxDeltas>,
    offset: u64,
) -> Option<u64>
    ensures { result ≡ site_in parts.now position (option_copied deleted.entry) offset }
{
    match position {
        Some(place) => {
            let moved = opt_input_to_output(deleted, offset);
            address_behind(parts, place, moved)
        }
        None => None,
    }
}

/// The address at so many bytes behind a place in a part, if it is below 2^64.
fn address_behind(parts: &[OutputRecordLayout], place: (PartId, u64), moved: u64) -> Option<u64>
    ensures { result ≡ address_in parts.now place.0 (place.1 + moved) }
{
    address_in(parts, place.0, place.1.checked_add(moved)?)
}

/// The address at so many bytes from a part's start, if it is below 2^64.
fn address_in(parts: &[OutputRecordLayout], part: PartId, offset: u64) -> Option<u64>
    ensures { result ≡ address_in parts.now part offset }
{
    start_of(parts, part).checked_add(offset)
}

/// Where a part starts in memory.
fn start_of(parts: &[OutputRecordLayout], part: PartId) -> u64
    ensures { result ≡ (record_at parts.now part).mem_offset }
{
    match parts.get(part.as_usize()) {
        Some(record) => record.mem_offset,
        None => 0,
    }
}

/// What comes of a candidate with this limit, by the addresses of its symbol and of its site.
fn outcome_by(target: Option<u64>, site: Option<u64>, limit: u64) -> Outcome
    ensures { result ≡ outcome_by target site limit }
{
    match (target, site) {
        (Some(target), Some(site)) => by_distance(target.abs_diff(site), limit),
        _ => Outcome::Untouched,
    }
}

/// What comes of a candidate with this limit, whose symbol is so far away.
fn by_distance(distance: u64, limit: u64) -> Outcome
    ensures { result ≡ by_distance distance limit }
{
    if distance <= limit {
        Outcome::Goes
    } else {
        Outcome::Short(distance - limit)
    }
}
