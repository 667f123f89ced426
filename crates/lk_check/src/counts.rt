//! What is counted over all files.

ghost use Rattle.std.specs.Prelude.{◌≡◌, ℕ, ◌+◌, ◌-◌, ◌^◌, length, min, sum_by};
ghost use Rattle.lk_link.specs.declared.file.InputFile.{InputFile};
ghost use Rattle.lk_link.specs.Limits.{file_name_bytes, merge_size, over_files};

use lk_link::file::InputFile;
use lk_link::limits::MERGE_UNIT;
use lk_link::list::List;
use lk_link::section::InputSection;
use lk_link::symbol::InputSymbol;

/// A number of each file.
pub trait FileNumber {
    /// The number of a file.
    ghost number: { InputFile → ℕ };

    /// The number of a file; one past 2^64 - 1 is given as that.
    fn number(&self, file: &InputFile) -> u64
        ensures { result ≡ min (number file.now) (2 ^ 64 - 1) };
}

/// A number of each file, added up over all files; a sum past 2^64 - 1 is given as that.
pub fn over_files<N: FileNumber>(what: &N, groups: &[List<InputFile>]) -> u64
    ensures { result ≡ min (over_files N.number groups.now) (2 ^ 64 - 1) }
{
    let mut count = 0u64;
    for files in groups {
        count = count.saturating_add(over_group(what, files.as_slice()));
    }
    count
}

/// The same in one group.
pub fn over_group<N: FileNumber>(what: &N, files: &[InputFile]) -> u64
    ensures { result ≡ min (sum_by N.number files.now) (2 ^ 64 - 1) }
{
    let mut count = 0u64;
    for file in files {
        count = count.saturating_add(what.number(file));
    }
    count
}

/// How many candidates a file has.
pub struct CandidateCount;

impl FileNumber for CandidateCount {
    ghost number = { λ f. length f.candidates };

    fn number(&self, file: &InputFile) -> u64 {
        file.candidates.len() as u64
    }
}

/// The bytes of the names of a file's symbols and sections, one more for each.
pub struct NameBytes;

impl FileNumber for NameBytes {
    ghost number = { file_name_bytes };

    fn number(&self, file: &InputFile) -> u64 {
        symbol_name_bytes(file.symbols.as_slice()).saturating_add(section_name_bytes(
            file.sections.as_slice(),
        ))
    }
}

/// The bytes of a file's merge sections, each rounded up to a multiple of the unit.
pub struct MergeBytes;

impl FileNumber for MergeBytes {
    ghost number = { λ f. sum_by merge_size f.sections };

    fn number(&self, file: &InputFile) -> u64 {
        merge_bytes(file.sections.as_slice())
    }
}

/// The bytes of the names of symbols, one more for each.
fn symbol_name_bytes(symbols: &[InputSymbol]) -> u64
    ensures { result ≡ min (sum_by (λ s. length s.name + 1) symbols.now) (2 ^ 64 - 1) }
{
    let mut count = 0u64;
    for symbol in symbols {
        count = count
            .saturating_add(symbol.name.len() as u64)
            .saturating_add(1);
    }
    count
}

/// The same of sections.
fn section_name_bytes(sections: &[InputSection]) -> u64
    ensures { result ≡ min (sum_by (λ s. length s.name + 1) sections.now) (2 ^ 64 - 1) }
{
    let mut count = 0u64;
    for section in sections {
        count = count
            .saturating_add(section.name.len() as u64)
            .saturating_add(1);
    }
    count
}

/// The bytes of merge sections, each rounded up to a multiple of the unit.
fn merge_bytes(sections: &[InputSection]) -> u64
    ensures { result ≡ min (sum_by merge_size sections.now) (2 ^ 64 - 1) }
{
    let mut count = 0u64;
    for section in sections {
        count = count.saturating_add(merge_size(section));
    }
    count
}

/// Those of one section, if it is merged.
fn merge_size(section: &InputSection) -> u64
    ensures { result ≡ min (merge_size section.now) (2 ^ 64 - 1) }
{
    if section.slot.is_merge() {
        (section.bytes.len() as u64)
            .checked_next_multiple_of(MERGE_UNIT)
            .unwrap_or(u64::MAX)
    } else {
        0
    }
}
