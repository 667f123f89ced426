//! The look at candidates whose bytes are gone, over final addresses: what a pass told by the addresses before it may be otherwise
//! by those behind all passes.

ghost use Rattle.std.specs.Prelude.{◌≡◌, Some, option_and_then, slice_get};
ghost use Rattle.std.specs.List.{flat_map};
ghost use Rattle.std.specs.Option.{option_copied};
ghost use Rattle.lk_link.specs.Files.{file_in};
ghost use Rattle.lk_link.specs.Inputs.{numbered_files};
ghost use Rattle.lk_link.specs.Symbols.{file_number};
ghost use Rattle.lk_link.specs.Walks.{file_of};
ghost use Rattle.lk_link.specs.WellFormed.{IsWellFormed};
ghost use Rattle.lk_deltas.specs.DeltaMaps.{deltas_at};
ghost use Rattle.lk_deltas.specs.LinkDeletions.{deleted_of};
ghost use Rattle.lk_relax.specs.Scan.{CanBeScanned};
ghost use Rattle.lk_relax.specs.ScanWords.{pass_state_of};
ghost use Rattle.lk_relax.specs.Sites.{CanAllBeScanned, file_past, is_nothing_deleted, past_limit, section_past};
ghost use Rattle.lk_stops.specs.Stops.{StopsAtFirst};

use crate::scan::{StandingLink, judge_of, relax_of};
use lk_deltas::{RelaxDeltaMap, SectionRelaxDeltas, first_past, laws, map_of};
use lk_expressions::{OutputRecordLayout, SymbolPositions};
use lk_link::{FileId, FileRef, InputSection, LinkInput, PartId};
use lk_live::{InputAt, Live};
use std::fmt;

/// A candidate whose bytes are gone and whose symbol is too far from where they stood: its file, the section's index there, and the
/// candidate's index in the section.
#[derive(Clone, Copy, Debug, PartialEq, Eq)]
pub struct RelaxedPlace {
    /// Its file.
    pub file: FileId,
    /// The index of its section in the file.
    pub section: u32,
    /// The index of the candidate in the section.
    pub candidate: u32,
}

/// As `out of reach: relaxed 1 0 1 0`, with group, file, section and candidate.
impl fmt::Display for RelaxedPlace {
    ghost use Rattle.std.specs.Prelude.{Some};
    ghost use Rattle.lk_relax.specs.Texts.{relaxed_text};

    ghost output = { λ place. Some (relaxed_text place) };

    fn fmt<W: fmt::Write>(&self, f: &mut fmt::Formatter<W>) -> fmt::Result {
        let input = InputAt {
            file: self.file,
            section: self.section,
        };
        let candidate = self.candidate;
        write!(f, "out of reach: relaxed {input} {candidate}")
    }
}

/// Whether nothing is deleted: the map of no file has an entry. Looks at each file at most. By a law no candidate is past its limit then.
pub fn is_nothing_deleted(deltas: &[RelaxDeltaMap]) -> bool
    ensures { result ≡ is_nothing_deleted deltas.now }
{
    deltas.iter().all(RelaxDeltaMap::is_empty)
}

/// Refuses the first candidate that is past its limit: its bytes are gone, and its symbol is farther from where they stood than it may
/// be. All goes by final addresses. Looks at the sections of files of which something is deleted, and there at the candidates of sections
/// of which something is; takes no memory, and logarithmic time in the files, and in what is deleted of the section, for each candidate
/// whose bytes are gone.
pub fn check_sites(by: StandingLink<'_>) -> Result<(), RelaxedPlace>
    requires good { IsWellFormed by.link.now }
    requires scanned { CanAllBeScanned by.link.now by.deltas.now }
    ensures { StopsAtFirst (past_limit (pass_state_of by.entry)) result }
{
    for file in by.link.groups.files() {
        check_file(by, file)?;
    }
    Ok(())
}

/// Refuses the first candidate of a file that is past its limit.
fn check_file(by: StandingLink<'_>, file: FileRef<'_>) -> Result<(), RelaxedPlace>
    requires good { IsWellFormed by.link.now }
    requires scanned { CanAllBeScanned by.link.now by.deltas.now }
    requires there { file_in by.link.now.groups file.id ≡ Some file.file.now }
    ensures { StopsAtFirst (file_past (pass_state_of by.entry) (file_of file.entry)) result }
{
    let Some(map) = map_of(by.link, by.deltas, file.id) else {
        return Ok(());
    };
    if map.is_empty() {
        return Ok(());
    }
    check_sections(by, file, map)
}

/// Refuses the first candidate of a file's sections that is past its limit, by what is deleted of these.
fn check_sections(
    by: StandingLink<'_>,
    file: FileRef<'_>,
    map: &RelaxDeltaMap,
) -> Result<(), RelaxedPlace>
    requires good { IsWellFormed by.link.now }
    requires scanned { CanAllBeScanned by.link.now by.deltas.now }
    requires there { file_in by.link.now.groups file.id ≡ Some file.file.now }
    requires map { slice_get by.deltas.now (file_number by.link.now.groups file.id) ≡ Some map.now }
    ensures { StopsAtFirst (file_past (pass_state_of by.entry) (file_of file.entry)) result }
{
    for (index, section) in file.file.sections.as_slice().iter().enumerate() {
        check_section(by, file, map, index as u32, section)?;
    }
    Ok(())
}

/// Refuses the first candidate of a section that is past its limit, by what is deleted of the sections of its file.
fn check_section(
    by: StandingLink<'_>,
    file: FileRef<'_>,
    map: &RelaxDeltaMap,
    index: u32,
    section: &InputSection,
) -> Result<(), RelaxedPlace>
    requires good { IsWellFormed by.link.now }
    requires scanned { CanAllBeScanned by.link.now by.deltas.now }
    requires there { file_in by.link.now.groups file.id ≡ Some file.file.now }
    requires map { slice_get by.deltas.now (file_number by.link.now.groups file.id) ≡ Some map.now }
    requires section { slice_get file.file.now.sections index ≡ Some section.now }
    ensures { StopsAtFirst (section_past (pass_state_of by.entry) file.entry.id (index, section.now)) result }
{
    match map.get(index) {
        Some(deleted) => check_candidates(by, file.id, index, section, deleted),
        None => Ok(()),
    }
}

/// Refuses the first candidate of a section that is past its limit, by what is deleted of the section.
fn check_candidates(
    by: StandingLink<'_>,
    file: FileId,
    index: u32,
    section: &InputSection,
    deleted: &SectionRelaxDeltas,
) -> Result<(), RelaxedPlace>
    requires good { IsWellFormed by.link.now }
    requires can { CanBeScanned by.link.now.groups by.deltas.now file index }
    requires section { option_and_then (λ f. slice_get f.sections index) (file_in by.link.now.groups file) ≡ Some section.now }
    requires deleted { deleted_of by.link.now.groups by.deltas.now file index ≡ Some deleted.now }
    ensures { StopsAtFirst (section_past (pass_state_of by.entry) file (index, section.now)) result }
{
    laws::good_candidates_can_go();
    let judge = judge_of(by, file, index);
    match first_past(relax_of(section), deleted, &judge) {
        Some(candidate) => Err(RelaxedPlace {
            file,
            section: index,
            candidate: candidate as u32,
        }),
        None => Ok(()),
    }
}
