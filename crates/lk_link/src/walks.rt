//! Walks over all files and over all input sections, by group, file and index. Each step is short: a walk keeps what is left
//! of the group and of the file that it is in, and goes to the next one when that is used up.

ghost use Rattle.std.specs.Prelude.{◌≡◌, [], IsSome};
ghost use Rattle.std.specs.Iterator.{YieldsFirstBy, item_count};

use crate::file::InputFile;
use crate::ids::FileId;
use crate::list::List;
use crate::section::InputSection;
use std::marker::Model;

/// A file with its number.
#[derive(Clone, Copy)]
pub struct FileRef<'a> {
    pub id: FileId,
    pub file: &'a InputFile,
}

/// An input section with its file and its index there.
#[derive(Clone, Copy)]
pub struct InputRef<'a> {
    pub file: FileId,
    pub index: usize,
    pub section: &'a InputSection,
}

/// The files that are left of a walk over all files. Contracts see the list of them.
#[derive(Drop)]
pub struct Files<'a> {
    /// The group that the walk is in.
    group: u32,
    /// The file that comes next there.
    file: u32,
    /// The files of the group from that one on.
    files: &'a [InputFile],
    /// The groups behind it.
    groups: &'a [List<InputFile>],
}

impl<'a> Model for Files<'a> {
    ghost use Rattle.std.specs.Prelude.{List};
    ghost use Rattle.lk_link.specs.Inputs.{NumberedFile};
    ghost use Rattle.std.specs.Coded.{codes};
    ghost use Rattle.lk_link.specs.contracts.expression.Expression as expression;

    ghost Value = { List NumberedFile };

    ghost coded = { Prim.hlevel (codes, expression.the_row.coded) };

    ghost use Rattle.lk_link.specs.Walks.{files_left, AreFewLeft};

    ghost view = { λ a. files_left a.group a.file a.files.now a.groups.now };

    ghost invariant = { λ a. AreFewLeft a.group a.file a.files.now a.groups.now };
}

impl<'a> Files<'a> {
    ghost use Rattle.lk_link.specs.Files.{AreNumbered};
    ghost use Rattle.lk_link.specs.Inputs.{numbered_files};

    /// The walk over the files of these groups.
    pub(crate) fn new(groups: &'a [List<InputFile>]) -> Files<'a>
        requires { AreNumbered groups.now }
        ensures { result ≡ numbered_files groups.now }
    {
        match groups.split_first() {
            Some((files, others)) => Files {
                group: 0,
                file: 0,
                files: files.as_slice(),
                groups: others,
            },
            None => Files {
                group: 0,
                file: 0,
                files: &[],
                groups,
            },
        }
    }
}

impl<'a> Iterator for Files<'a> {
    type Item = FileRef<'a>;

    ghost use Rattle.lk_link.specs.Walks.{file_of};

    ghost next_gives = { YieldsFirstBy file_of (λ left. left) };

    ghost remaining = { item_count (λ left. left) };

    fn next(&mut self) -> Option<FileRef<'a>> {
        while self.files.is_empty() {
            let (files, groups) = self.groups.split_first()?;
            self.group += 1;
            self.file = 0;
            self.files = files.as_slice();
            self.groups = groups;
        }
        let (file, files) = self.files.split_first()?;
        let id = FileId {
            group: self.group,
            file: self.file,
        };
        self.file += 1;
        self.files = files;
        Some(FileRef { id, file })
    }
}

/// The input sections that are left of a walk over all of them. Contracts see the list of them.
#[derive(Drop)]
pub struct Inputs<'a> {
    /// The file that the walk is in.
    file: FileId,
    /// The index of the section that comes next there.
    index: usize,
    /// The sections of the file from that one on.
    sections: &'a [InputSection],
    /// The files behind it.
    files: Files<'a>,
}

impl<'a> Model for Inputs<'a> {
    ghost use Rattle.std.specs.Prelude.{◌+◌, ◌<◌, ◌^◌, List, length};
    ghost use Rattle.lk_link.specs.Inputs.{Input};

    ghost Value = { List Input };

    ghost use Rattle.lk_link.specs.Walks.{inputs_left};

    ghost view = { λ a. inputs_left a.file a.index a.sections.now a.files };

    ghost invariant = { λ a. a.index + length a.sections.now < 2 ^ 64 };
}

impl<'a> Inputs<'a> {
    ghost use Rattle.std.specs.Prelude.{length};
    ghost use Rattle.lk_link.specs.Inputs.{inputs_of};

    /// The walk over the sections of these files.
    pub(crate) fn new(files: Files<'a>) -> Inputs<'a>
        ensures { result ≡ inputs_of files.entry }
    {
        Inputs {
            file: FileId { group: 0, file: 0 },
            index: 0,
            sections: &[],
            files,
        }
    }
}

impl<'a> Iterator for Inputs<'a> {
    type Item = InputRef<'a>;

    ghost use Rattle.lk_link.specs.Walks.{input_of};

    ghost next_gives = { YieldsFirstBy input_of (λ left. left) };

    ghost remaining = { item_count (λ left. left) };

    fn next(&mut self) -> Option<InputRef<'a>> {
        while self.sections.is_empty() {
            let next = self.files.next()?;
            self.file = next.id;
            self.index = 0;
            self.sections = next.file.sections.as_slice();
        }
        let (section, sections) = self.sections.split_first()?;
        let file = self.file;
        let index = self.index;
        self.index += 1;
        self.sections = sections;
        Some(InputRef {
            file,
            index,
            section,
        })
    }
}
