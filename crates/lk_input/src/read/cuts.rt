//! Where the text of a description is cut.
//!
//! A group is a list of objects in a list of groups. So a group that begins with a file, behind another group, begins with `[{"` behind
//! a comma behind `]`, where blanks may stand on either side of the comma. In this format only groups do, unless a text holds the
//! same characters, or what the format doesn't know. A file behind another one of its group begins with `{"` behind a comma behind `}`;
//! so do symbols and sections, but their first key is none of a file, and a segment has another kind. A cut is a guess, and only what is
//! read of the pieces tells whether it was right.

use crate::read::file::{FILE_KINDS, FileKey};
use crate::read::word::Word;
use lk_pieces::Guess;
use memchr::memmem;

/// How an object begins.
const OBJECT: &[u8] = b"{\"";

/// How a list of objects begins.
const OBJECTS: &[u8] = b"[{\"";

/// One more byte is looked through for a cut between groups, for so many of a piece.
const NEAR: usize = 8;

/// The keys that no object of a list has but a file.
const FILE_KEYS: [FileKey; 6] = [
    FileKey::Symbols,
    FileKey::Sections,
    FileKey::Archive,
    FileKey::Export,
    FileKey::Check,
    FileKey::Candidates,
];

/// The text without the blanks that it ends with.
fn without_blanks(text: &[u8]) -> &[u8] {
    let mut rest = text;
    'blanks: while let [before @ .., b' ' | b'\t' | b'\n' | b'\r'] = rest {
        rest = before;
    }
    rest
}

/// The text behind the blanks that it begins with.
fn behind_blanks(text: &[u8]) -> &[u8] {
    let mut rest = text;
    'blanks: while let [b' ' | b'\t' | b'\n' | b'\r', behind @ ..] = rest {
        rest = behind;
    }
    rest
}

/// How many bytes stand before the comma that a text ends with, if this bracket stands before the comma.
fn comma_behind(text: &[u8], bracket: u8) -> Option<usize> {
    let [before @ .., b','] = without_blanks(text) else {
        return None;
    };
    match without_blanks(before) {
        [.., last] if *last == bracket => Some(before.len()),
        _ => None,
    }
}

/// What stands behind this word and a quote, if a text begins with them.
fn behind_word<'a>(text: &'a [u8], word: &str) -> Option<&'a [u8]> {
    match text.strip_prefix(word.as_bytes())? {
        [b'"', behind @ ..] => Some(behind),
        _ => None,
    }
}

/// Whether a kind of files stands behind a key.
fn is_file_kind(text: &[u8]) -> bool {
    let [b':', behind @ ..] = behind_blanks(text) else {
        return false;
    };
    let [b'"', kind @ ..] = behind_blanks(behind) else {
        return false;
    };
    FILE_KINDS
        .iter()
        .any(|file_kind| behind_word(kind, file_kind.text()).is_some())
}

/// Whether an object whose first key stands here seems to be a file.
fn seems_file(text: &[u8]) -> bool {
    match behind_word(text, FileKey::Kind.text()) {
        Some(behind) => is_file_kind(behind),
        None => FILE_KEYS
            .iter()
            .any(|key| behind_word(text, key.text()).is_some()),
    }
}

/// How many bytes stand before the comma between the group or the file that begins with the object at this index and one before it, if
/// it seems to be one.
fn comma_before(text: &[u8], index: usize) -> Option<usize> {
    let (before, object) = text.split_at_checked(index)?;
    match without_blanks(before) {
        [before @ .., b'['] => comma_behind(before, b']'),
        _ if seems_file(object.get(OBJECT.len()..)?) => comma_behind(before, b'}'),
        _ => None,
    }
}

/// Cuts between groups or files, into pieces of so many bytes or more, but for a bracket and blanks before the comma; a cut between
/// groups is preferred where there is one near.
#[derive(Clone, Copy, Debug)]
pub(crate) struct Cuts {
    pub(crate) size: usize,
}

/// How many bytes stand before the comma in front of the first group that begins at this index or near behind it.
fn near_group(text: &[u8], index: usize) -> Option<usize> {
    let end = index.saturating_add(index / NEAR).min(text.len());
    for found in memmem::find_iter(text.get(index..end)?, OBJECTS) {
        let comma = comma_behind(text.get(..index.checked_add(found)?)?, b']');
        if comma.is_some() {
            return comma;
        }
    }
    None
}

/// How many bytes stand before the comma in front of the first group or file that begins at this index or behind it.
fn next_file(text: &[u8], index: usize) -> Option<usize> {
    for found in memmem::find_iter(text.get(index..)?, OBJECT) {
        let comma = comma_before(text, index.checked_add(found)?);
        if comma.is_some() {
            return comma;
        }
    }
    None
}

impl Guess for Cuts {
    fn place(&self, text: &[u8]) -> Option<usize> {
        match near_group(text, self.size) {
            Some(comma) => Some(comma),
            None => next_file(text, self.size),
        }
    }
}
