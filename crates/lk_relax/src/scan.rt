//! A pass over sections: what more is deleted of each.

ghost use Rattle.std.specs.Prelude.{◌≡◌, ◌<◌, ◌^◌, All, IfOk, IsSome, Some, map, option_and_then, slice_get};
ghost use Rattle.std.specs.Option.{option_copied};
ghost use Rattle.lk_link.specs.Files.{file_in};
ghost use Rattle.lk_link.specs.Symbols.{first_symbol};
ghost use Rattle.lk_link.specs.WellFormed.{IsWellFormed};
ghost use Rattle.lk_link.specs.declared.file.InputFile.{InputFile};
ghost use Rattle.lk_link.specs.declared.relocation.RelaxCandidate.{RelaxCandidate};
ghost use Rattle.lk_link.specs.declared.section.InputSection.{InputSection};
ghost use Rattle.lk_deltas.specs.LinkDeletions.{deleted_of};
ghost use Rattle.lk_relax.specs.Scan.{CanBeScanned, candidates_of, scanned, told};
ghost use Rattle.lk_relax.specs.ScanWords.{IsNumbered, judged, pass_state_of};

use crate::judge::SectionJudge;
use crate::positions::{first_number, position_at};
use lk_deltas::{RelaxDeltaMap, SectionRelaxDeltas, deleted_of, laws, scan_candidates};
use lk_expressions::{OutputRecordLayout, SymbolPositions};
use lk_link::relocation::RelaxCandidate;
use lk_link::{FileId, InputSection, InputSymbol, LinkInput, PartId};
use lk_live::Live;
use std::alloc::{AllocError, Global};

/// How all stands before a pass, or behind the last.
#[derive(Clone, Copy)]
pub struct StandingLink<'a> {
    /// The link that is relaxed.
    pub link: &'a LinkInput,
    /// What is live of it.
    pub live: &'a Live,
    /// Of each input section, by its number over all files, its part and how many bytes behind the part's start it stands; none where it has no
    /// position.
    pub sections: &'a [Option<(PartId, u64)>],
    /// Where symbols stand.
    pub symbols: &'a SymbolPositions,
    /// The records of the parts.
    pub parts: &'a [OutputRecordLayout],
    /// What is deleted of the sections of each file, by the file's number over all groups.
    pub deltas: &'a [RelaxDeltaMap],
}

/// For each of these sections of files what more is to be deleted of it, and by how many bytes the nearest candidate misses that doesn't
/// go, if one does. All goes by the addresses before the pass. Takes time by the candidates of these sections, for each logarithmic in the
/// files, and in what is deleted of its section (libwild: `relaxation_scan_pass`).
pub fn relaxation_scan_pass(
    alloc: Global,
    before: StandingLink<'_>,
    scan: &[(FileId, u32)],
) -> Result<Vec<(FileId, u32, SectionRelaxDeltas, Option<u64>)>, AllocError>
    requires good { IsWellFormed before.link.now }
    requires scan { All (λ q. CanBeScanned before.link.now.groups before.deltas.now q.0 q.1) scan.now }
    ensures { IfOk result (λ found. found.items ≡ map (scanned (pass_state_of before.entry)) scan.now) }
{
    let mut found = Vec::with_capacity(alloc, scan.len())?;
    for section in scan {
        let one = scan_section(alloc, before, section.0, section.1)?;
        found.push(one)?;
    }
    Ok(found)
}

/// The same for one section.
fn scan_section(
    alloc: Global,
    before: StandingLink<'_>,
    file: FileId,
    index: u32,
) -> Result<(FileId, u32, SectionRelaxDeltas, Option<u64>), AllocError>
    requires good { IsWellFormed before.link.now }
    requires there { CanBeScanned before.link.now.groups before.deltas.now file index }
    ensures { IfOk result (λ found. found ≡ scanned (pass_state_of before.entry) (file, index)) }
{
    laws::good_candidates_can_go();
    laws::picked_can_go();
    let judge = judge_of(before, file, index);
    let candidates = candidates_of(before.link, file, index);
    let scan = scan_candidates(alloc, candidates, judge.deleted, &judge)?;
    let deltas = SectionRelaxDeltas::new(alloc, scan.ranges.as_slice())?;
    Ok((file, index, deltas, scan.margin))
}

/// What tells of the candidates of a section.
pub(crate) fn judge_of<'a>(before: StandingLink<'a>, file: FileId, index: u32) -> SectionJudge<'a>
    requires good { IsWellFormed before.link.now }
    requires there { IsSome (file_in before.link.now.groups file) }
    ensures tells { (c : RelaxCandidate) → judged result c ≡ told (pass_state_of before.entry) file index c }
    ensures first { result.first ≡ first_symbol before.entry.link.now.groups file }
    ensures link { result.link.now ≡ before.entry.link.now }
    ensures own { (there : InputFile) → file_in before.entry.link.now.groups file ≡ Some there → result.own.now ≡ there.symbols }
    ensures deleted { option_copied result.deleted ≡ deleted_of before.entry.link.now.groups before.entry.deltas.now file index }
{
    SectionJudge {
        link: before.link,
        live: before.live,
        symbols: before.symbols,
        parts: before.parts,
        first: first_symbol(before.link, file),
        own: symbols_of(before.link, file),
        position: position_at(
            before.sections,
            first_number(before.link, file) + index as usize,
        ),
        deleted: deleted_of(before.link, before.deltas, file, index as usize),
    }
}

/// The number of a file's first symbol.
fn first_symbol(link: &LinkInput, file: FileId) -> u32
    requires good { IsWellFormed link.now }
    requires there { IsSome (file_in link.now.groups file) }
    ensures { result ≡ first_symbol link.now.groups file }
{
    match link.groups.symbol_id_range(file) {
        Some(range) => range.start,
        None => 0,
    }
}

/// The symbols of a file.
fn symbols_of(link: &LinkInput, file: FileId) -> &[InputSymbol]
    ensures { (there : InputFile) → file_in link.now.groups file ≡ Some there → result.now ≡ there.symbols }
{
    match link.groups.file(file) {
        Some(file) => file.symbols.as_slice(),
        None => &[],
    }
}

/// The candidates of a section of a file.
pub(crate) fn candidates_of(link: &LinkInput, file: FileId, index: u32) -> &[RelaxCandidate]
    ensures candidates { result.now ≡ candidates_of link.now.groups file index }
    ensures small { (section : InputSection) → option_and_then (λ f. slice_get f.sections index) (file_in link.now.groups file) ≡ Some section
        → section.size < 2 ^ 64 }
{
    match section_of(link, file, index) {
        Some(section) => relax_of(section),
        None => &[],
    }
}

/// A section of a file, if it is there.
fn section_of(link: &LinkInput, file: FileId, index: u32) -> Option<&InputSection>
    ensures { option_copied result ≡ option_and_then (λ f. slice_get f.sections index) (file_in link.now.groups file) }
{
    link.groups.file(file)?.sections.get(index as usize)
}

/// The candidates of a section, whose size has 64 bits.
pub(crate) fn relax_of(section: &InputSection) -> &[RelaxCandidate]
    ensures candidates { result.now ≡ section.now.relax }
    ensures small { section.now.size < 2 ^ 64 }
{
    // Reading the size tells that it is below 2^64.
    let _size = size_of(section);
    section.relax.as_slice()
}

/// The size of a section.
fn size_of(section: &InputSection) -> u64
    ensures size { result ≡ section.now.size }
    ensures small { section.now.size < 2 ^ 64 }
{
    section.size
}
