//! A description whose groups are read in pieces of its text.
//!
//! The text is cut at commas between groups or between files of one, and a reader reads each piece by itself, with room for its own
//! escaped strings alone. What is read is what is read of the whole; where a piece is no run of files and groups, nothing is said, and
//! the caller reads the text whole.

ghost use Rattle.std.specs.Prelude.{◌≡◌, Ok, IfSome};
ghost use Rattle.serde_json.specs.View.{members_view};
ghost use Rattle.lk_input.specs.Pieces.{Makes};
ghost use Rattle.lk_input.specs.Reading.{reading_of};
ghost use Rattle.lk_input.specs.ReadingFiles.{input_file_of};

use crate::read::cuts::Cuts;
use crate::read::file::stream_file;
use crate::read::kept::Kept;
use crate::read::tokens::{put_member, value_at};
use crate::read::word::Word;
use crate::read::{LinkKey, LinkMembers, link_from};
use json::{Reader, Token};
use lk_link::file::InputFile;
use lk_link::groups::InputGroups;
use lk_link::link::LinkInput;
use lk_link::list::List;
use lk_pieces::{Element, Others, Row, read_object_by_workers, read_object_in_pieces};
use serde_json::{Map, Value};
use std::alloc::Global;
use std::thread::Threads;

/// How a file of a group is read.
struct Files;

impl Element for Files {
    type Item = InputFile;

    ghost described = { input_file_of };

    fn read(
        alloc: Global,
        token: Token<'_>,
        reader: &mut Reader<'_>,
        depth: usize,
    ) -> Option<InputFile> {
        stream_file(alloc, token, reader, depth).ok()?.ok()
    }
}

/// The members of the description beside its groups.
#[derive(Drop)]
struct OtherMembers {
    map: Map<String, Value>,
}

impl Others for OtherMembers {
    ghost members = { λ others. members_view others.map.entries };

    fn none(alloc: Global) -> OtherMembers {
        OtherMembers {
            map: Map::new(alloc),
        }
    }

    fn add(
        &mut self,
        alloc: Global,
        key: &str,
        reader: &mut Reader<'_>,
        depth: usize,
    ) -> Option<()> {
        let member = value_at(alloc, reader, depth).ok()?;
        put_member(alloc, &mut self.map, key, member).ok()
    }
}

/// The files of all groups.
fn files_of(alloc: Global, groups: Vec<Row<InputFile>>) -> Option<List<List<InputFile>>>
    ensures { IfSome result (λ files. files ≡ groups.items) }
{
    let files = groups
        .into_iter()
        .map(|group| List::from_vec(group.into_vec()))
        .collect(alloc)
        .ok()?;
    Some(List::from_vec(files))
}

/// The description with these groups and these other members.
fn link_with(alloc: Global, groups: Vec<Row<InputFile>>, others: OtherMembers) -> Option<LinkInput>
    ensures { IfSome result (λ link. Makes groups.items (members_view others.map.entries) link) }
{
    let groups = InputGroups::new(alloc, files_of(alloc, groups)?).ok()?;
    let large = LinkMembers {
        groups: Kept::read(groups),
    };
    link_from(alloc, large, &Value::Object(others.map)).ok()
}

/// The description that a text is, in pieces of some `size` bytes or more, read one after the other.
pub(crate) fn read_in_turn(alloc: Global, bytes: &[u8], size: usize) -> Option<LinkInput>
    ensures { IfSome result (λ link. reading_of bytes.now ≡ Ok link) }
{
    let cuts = Cuts { size };
    let key = LinkKey::Groups.text();
    let (groups, others) = read_object_in_pieces::<Files, _, _>(alloc, bytes, key, &cuts)?;
    link_with(alloc, groups, others)
}

/// The same, read by so many workers.
pub(crate) fn read_by_workers<R: Threads + Sync>(
    rt: &R,
    alloc: Global,
    bytes: &[u8],
    workers: usize,
    size: usize,
) -> Option<LinkInput>
    ensures { IfSome result (λ link. reading_of bytes.now ≡ Ok link) }
{
    let cuts = Cuts { size };
    let key = LinkKey::Groups.text();
    let (groups, others) = read_object_by_workers::<Files, _, _, _>(
        rt, alloc, bytes, key, &cuts, workers,
    )?;
    link_with(alloc, groups, others)
}
