//! Which unit has a number, and where the mark of a section group stands.

ghost use Rattle.std.specs.Prelude.{◌≡◌, IfOk, map};
ghost use Rattle.std.specs.List.{slice_get};
ghost use Rattle.std.specs.Option.{ForSome};
ghost use Rattle.lk_link.specs.WellFormed.{IsWellFormed};
ghost use Rattle.lk_reach.specs.Marks.{unit_at};
ghost use Rattle.lk_reach.specs.Walking.{IsGroupPlace, files_of_inputs};
ghost use Rattle.lk_explain.specs.Sharing.{files_of, starts_by};

use lk_link::file::group_members_rise;
use lk_link::{FileId, LinkInput, SymbolId};
use lk_reach::Unit;
use std::alloc::{AllocError, Global};

/// All files of a link in their order, which is that of their first sections.
pub(crate) fn files_of(alloc: Global, link: &LinkInput) -> Result<Vec<FileId>, AllocError>
    requires { IsWellFormed link.now }
    ensures { IfOk result (λ files. files.items ≡ files_of link.now) }
{
    let mut files = Vec::with_capacity(alloc, link.groups.file_count() as usize)?;
    for file in link.groups.files() {
        files.push(file.id)?;
    }
    Ok(files)
}

/// The unit with a number among all of a link, symbols first, if there is one. `files` are those of the link. Takes logarithmic time.
pub(crate) fn unit_at(link: &LinkInput, files: &[FileId], number: usize) -> Option<Unit>
    requires well_formed { IsWellFormed link.now }
    requires files { files.now ≡ files_of link.now }
    ensures { result ≡ unit_at link.now.groups number }
{
    let symbols = link.groups.symbol_count() as usize;
    if number < symbols {
        return Some(Unit::Sym(SymbolId::from_u32(number as u32)));
    }
    let place = number - symbols;
    let file = file_at(link, files, place)?;
    let start = link.groups.input_start(file)?;
    Some(Unit::Sec(file, (place - start) as u32))
}

/// The file of the input section with this number, if there is one.
fn file_at(link: &LinkInput, files: &[FileId], place: usize) -> Option<FileId>
    requires well_formed { IsWellFormed link.now }
    requires files { files.now ≡ files_of link.now }
    ensures { result ≡ slice_get (files_of_inputs link.now) place }
{
    if place as u64 >= link.groups.input_count() {
        return None;
    }
    let mut low = 0;
    let mut high = files.len();
    while low < high {
        let middle = low + (high - low) / 2;
        if starts_by(link, files[middle], place) {
            low = middle + 1;
        } else {
            high = middle;
        }
    }
    let last = low.checked_sub(1)?;
    Some(files[last])
}

/// Whether a file is there and its first section has this number at most.
fn starts_by(link: &LinkInput, file: FileId, place: usize) -> bool
    requires { IsWellFormed link.now }
    ensures { result ≡ starts_by link.now.groups place file }
{
    match link.groups.input_start(file) {
        Some(start) => start <= place,
        None => false,
    }
}

/// Where the mark of a section's group stands, if the section is kept and in a group: at the group's first member, by its number
/// among all input sections.
pub(crate) fn group_place(link: &LinkInput, file: FileId, index: u32) -> Option<usize>
    requires { IsWellFormed link.now }
    ensures { ForSome result (IsGroupPlace link.now file index) }
{
    let sections = &link.groups.file(file)?.sections;
    let section = sections.get(index as usize)?;
    if !section.slot.can_be_kept() {
        return None;
    }
    group_members_rise();
    let group = section.group?;
    let first = *sections.members(group).first()?;
    Some(link.groups.input_start(file)? + first)
}
