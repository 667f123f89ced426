//! What is told of groups of files: lent by a layout.

ghost use Rattle.std.specs.Prelude.{◌≡◌, ◌+◌, ◌<◌, ◌≤◌, ◌==◌, ◌^◌, MatchOption, None, Some, if◌then◌else◌, length, slice_get};
ghost use Rattle.std.specs.Fmt.{DisplaysOnOk};
ghost use Rattle.std.specs.Option.{option_map_or};
ghost use Rattle.lk_answers.specs.declared.files.FileLayout.TheVariants.{Epilogue};
ghost use Rattle.lk_answers.specs.Groups.{IsGroup};
ghost use Rattle.lk_answers.specs.Files.{IsEpilogueFile, IsFileLayout, IsGroupFile};
ghost use Rattle.lk_gc.specs.StateTexts.{files_name};
ghost use Rattle.lk_answers.specs.FileTexts.{file_count_in, layout_name, only_name_in};

use crate::files::{EpilogueLayout, FileLayout, find_file};
use crate::section_resolution::number_at;
use lk_layout::Layout;
use lk_link::FileId;
use std::fmt;

/// The files of a group, which are made when they are asked for: those of a group of the link, or the epilogue alone behind these.
#[derive(Drop)]
pub struct GroupFiles<'a, 'data> {
    pub(crate) layout: &'a Layout<'data>,
    pub(crate) group: u32,
}

/// A group of files, with where it begins in the tables of symbols, from the starts of their parts on: behind all that the groups before
/// it have there. 0 where the plan names no such part (libwild: `GroupLayout`).
#[derive(Drop)]
pub struct GroupLayout<'a, 'data> {
    pub files: GroupFiles<'a, 'data>,
    /// In the names of symbols, in bytes.
    pub strtab_start_offset: u64,
    /// In those of dynamic symbols, in bytes.
    pub dynstr_start_offset: u64,
    /// Among the local symbols, in entries.
    pub symtab_local_start_index: u64,
    /// Among the other symbols, in entries.
    pub symtab_global_start_index: u64,
}

/// The groups of a link, and behind them one that holds the epilogue alone.
#[derive(Drop)]
pub struct GroupLayouts<'a, 'data> {
    pub(crate) layout: &'a Layout<'data>,
}

impl<'a, 'data> GroupFiles<'a, 'data> {
    /// How many files the group has.
    pub fn len(&self) -> usize
        ensures { result ≡ file_count_in self.now.layout.now.link.groups self.now.group }
    {
        match self
            .layout
            .link()
            .groups
            .as_slice()
            .get(self.group as usize)
        {
            Some(files) => files.len(),
            None => 1,
        }
    }

    /// What is told of the file with this number in the group, if there is one. Takes logarithmic time in the objects that need
    /// thunks.
    pub fn get(&self, file: u32) -> Option<FileLayout<'a>>
        ensures { IsGroupFile self.now.layout.now self.now.group file result }
    {
        let group = self.group;
        match self.layout.link().groups.as_slice().get(group as usize) {
            Some(_) => find_file(self.layout, FileId { group, file }),
            None => find_epilogue(self.layout, file),
        }
    }

    /// The only file of the group, if there is one alone.
    fn only(&self) -> Option<FileLayout<'a>>
        ensures { let name = only_name_in self.now.layout.now.link.groups self.now.group in
            MatchOption result (name ≡ None) (λ file. name ≡ Some (layout_name file)) }
    {
        if self.len() == 1 { self.get(0) } else { None }
    }
}

/// The epilogue, which is the first file of its group and the last.
fn find_epilogue<'a>(layout: &'a Layout<'_>, file: u32) -> Option<FileLayout<'a>>
    ensures { IsEpilogueFile layout.now file result }
{
    if file == 0 {
        Some(FileLayout::Epilogue(EpilogueLayout {
            dynsym_start_index: layout.dynsym_start_index(),
        }))
    } else {
        None
    }
}

impl<'a, 'data> GroupLayouts<'a, 'data> {
    /// How many there are: one more than the link has.
    pub fn len(&self) -> usize
        ensures { result ≡ length self.now.layout.now.link.groups + 1 }
    {
        self.layout.link().groups.as_slice().len() + 1
    }

    /// What is told of a group, if there is one with this number. Takes constant time.
    pub fn get(&self, group: u32) -> Option<GroupLayout<'a, 'data>>
        ensures { MatchOption result (length self.now.layout.now.link.groups < group)
            (λ found. (group ≤ length self.now.layout.now.link.groups) × IsGroup self.now.layout.now group found) }
    {
        if group as usize <= self.layout.link().groups.len() {
            Some(group_of(self.layout, group))
        } else {
            None
        }
    }
}

/// A group with its number.
fn group_of<'a, 'data>(layout: &'a Layout<'data>, group: u32) -> GroupLayout<'a, 'data>
    ensures { IsGroup layout.now group result }
{
    let starts = layout.group_starts();
    let number = group as usize;
    GroupLayout {
        files: GroupFiles { layout, group },
        strtab_start_offset: number_at(starts.strtab.as_slice(), number),
        dynstr_start_offset: number_at(starts.dynstr.as_slice(), number),
        symtab_local_start_index: number_at(starts.symtab_local.as_slice(), number),
        symtab_global_start_index: number_at(starts.symtab_global.as_slice(), number),
    }
}

/// Writes how many files a group has.
fn write_count<W: fmt::Write>(f: &mut fmt::Formatter<W>, count: usize) -> fmt::Result
    ensures { DisplaysOnOk W.write_str_gives f.old result (Some (files_name count)) f.new }
{
    write!(
        f,
        "Group with {count} files. Rerun with WILD_FILES_PER_GROUP=1"
    )
}

/// One file as that file, else as `Group with 2 files. Rerun with WILD_FILES_PER_GROUP=1`.
impl fmt::Display for GroupLayout<'_, '_> {
    ghost use Rattle.std.specs.Prelude.{Some};
    ghost use Rattle.lk_answers.specs.FileTexts.{group_name};

    ghost output = { λ group. Some (group_name group.files.layout.now.link.groups group.files.group) };

    fn fmt<W: fmt::Write>(&self, f: &mut fmt::Formatter<W>) -> fmt::Result {
        match self.files.only() {
            Some(file) => write!(f, "{file}"),
            None => write_count(f, self.files.len()),
        }
    }
}
