//! The input files from JSON.

ghost use Rattle.std.specs.Prelude.{◌≡◌, ◌∷◌};
ghost use Rattle.json.specs.Json.{parse_map};
ghost use Rattle.json.specs.Reads.{token_of};
ghost use Rattle.lk_input.specs.KnownFiles.{file_from, file_kept, kept_sections};
ghost use Rattle.lk_input.specs.ReadingFiles.{file_kinds, candidate_of};
ghost use Rattle.lk_input.specs.ReadingFiles.{file_candidates_of, input_file_of, groups_of};
ghost use Rattle.lk_input.specs.ReadingSteps.{Reads, one_of};
ghost use Rattle.lk_pieces.specs.Tokens.{data_at};
ghost use Rattle.lk_input.specs.Tokens.{Stands, as_is};
ghost use Rattle.lk_input.specs.Keys.{file_key_text};
ghost use Rattle.lk_input.specs.Words.{file_kind_text};

use crate::read::described::{Described, one_of};
use crate::read::error::InputError;
use crate::read::fail::Fail;
use crate::read::kept::Kept;
use crate::read::known::{Known, kept_needed, pass_value, stream_known};
use crate::read::large::{kept_or, reread};
use crate::read::member::{at_most, element, fixed_list};
use crate::read::plain::{Plain, plain_word, stream_plain};
use crate::read::stream::{Streamed, misfit_from, settled, stream_value};
use crate::read::tokens::deeper;
use crate::read::word::Word;
use json::{Reader, Token};
use lk_link::file::{Candidate, Candidates, FileKind, InputFile, InputSections};
use lk_link::groups::InputGroups;
use lk_link::ids::FileId;
use lk_link::list::List;
use lk_link::symbol::InputSymbol;
use lk_link::text::Text;
use serde_json::Value;
use std::alloc::Global;

/// A key of a file.
#[derive(Clone, Copy)]
pub(crate) enum FileKey {
    Kind,
    Name,
    Symbols,
    Sections,
    Archive,
    Export,
    Check,
    Candidates,
}

#[tactic(auto, unfolding(crate::specs::ReadingSteps::written))]
impl Word for FileKey {
    ghost spelling = { file_key_text };

    fn text(self) -> &'static str {
        match self {
            FileKey::Kind => "kind",
            FileKey::Name => "name",
            FileKey::Symbols => "symbols",
            FileKey::Sections => "sections",
            FileKey::Archive => "archive",
            FileKey::Export => "export",
            FileKey::Check => "check",
            FileKey::Candidates => "candidates",
        }
    }
}

#[tactic(auto, unfolding(crate::specs::Words::file_kind_text, crate::specs::ReadingSteps::written))]
impl Word for FileKind {
    ghost spelling = { file_kind_text };

    fn text(self) -> &'static str {
        match self {
            FileKind::Prelude => "prelude",
            FileKind::Object => "object",
            FileKind::Dynamic => "dynamic",
            FileKind::NotLoaded => "notloaded",
            FileKind::SyntheticSymbols => "synthetic",
            FileKind::LinkerScript => "script",
        }
    }
}

/// All kinds of files.
pub(crate) const FILE_KINDS: [FileKind; 6] = [
    FileKind::Prelude,
    FileKind::Object,
    FileKind::Dynamic,
    FileKind::NotLoaded,
    FileKind::SyntheticSymbols,
    FileKind::LinkerScript,
];

#[tactic(auto, unfolding(crate::specs::Words::file_kind_text))]
impl Described for FileKind {
    ghost described = { one_of file_kinds };

    fn read(alloc: Global, value: &Value) -> Result<FileKind, InputError> {
        one_of(alloc, value, &FILE_KINDS)
    }
}

#[tactic(auto, unfolding(crate::specs::Words::file_kind_text))]
impl Plain for FileKind {
    fn plain(token: Token<'_>) -> Option<FileKind> {
        plain_word(token, &FILE_KINDS)
    }
}

impl Streamed for FileKind {
    ghost streamed = { one_of file_kinds };

    fn stream(
        alloc: Global,
        reader: &mut Reader<'_>,
        depth: usize,
    ) -> Result<Result<FileKind, Text>, Fail> {
        stream_plain(alloc, reader, depth)
    }
}

#[tactic(auto, unfolding(crate::specs::ReadingFiles::candidate_of))]
impl Described for Candidate {
    ghost described = { candidate_of };

    fn read(alloc: Global, value: &Value) -> Result<Candidate, InputError> {
        fixed_list(alloc, value)?;
        let output = element(alloc, value, 0)?;
        let group = element(alloc, value, 1)?;
        let file = element(alloc, value, 2)?;
        let index = element(alloc, value, 3)?;
        at_most(alloc, value, 4)?;
        Ok(Candidate {
            output,
            file: FileId { group, file },
            index,
        })
    }
}

impl Described for Candidates {
    ghost described = { file_candidates_of };

    fn read(alloc: Global, value: &Value) -> Result<Candidates, InputError> {
        let candidates = List::read(alloc, value)?;
        Ok(Candidates::new(alloc, candidates)?)
    }
}

impl Streamed for Candidates {
    ghost streamed = { file_candidates_of };

    fn stream(
        alloc: Global,
        reader: &mut Reader<'_>,
        depth: usize,
    ) -> Result<Result<Candidates, Text>, Fail> {
        stream_value(alloc, reader, depth)
    }
}

/// The members of a file, each as what is read of it.
#[derive(Drop)]
pub(crate) struct FileMembers {
    kind: Kept<FileKind>,
    name: Kept<Text>,
    symbols: Kept<List<InputSymbol>>,
    sections: Kept<InputSections>,
    archive: Kept<bool>,
    export: Kept<bool>,
    check: Kept<bool>,
    candidates: Kept<Candidates>,
}

impl Known for FileMembers {
    ghost kept = { file_kept };

    fn none() -> FileMembers {
        FileMembers {
            kind: Kept::none(),
            name: Kept::none(),
            symbols: Kept::none(),
            sections: Kept::none(),
            archive: Kept::none(),
            export: Kept::none(),
            check: Kept::none(),
            candidates: Kept::none(),
        }
    }

    fn take(
        &mut self,
        alloc: Global,
        key: &str,
        reader: &mut Reader<'_>,
        depth: usize,
    ) -> Result<(), Fail> {
        if key == FileKey::Kind.text() {
            reread(alloc, &mut self.kind, reader, depth)
        } else if key == FileKey::Name.text() {
            reread(alloc, &mut self.name, reader, depth)
        } else if key == FileKey::Symbols.text() {
            reread(alloc, &mut self.symbols, reader, depth)
        } else if key == FileKey::Sections.text() {
            reread(alloc, &mut self.sections, reader, depth)
        } else if key == FileKey::Archive.text() {
            reread(alloc, &mut self.archive, reader, depth)
        } else if key == FileKey::Export.text() {
            reread(alloc, &mut self.export, reader, depth)
        } else if key == FileKey::Check.text() {
            reread(alloc, &mut self.check, reader, depth)
        } else if key == FileKey::Candidates.text() {
            reread(alloc, &mut self.candidates, reader, depth)
        } else {
            pass_value(alloc, reader, depth)
        }
    }
}

/// The sections of a file of this kind: only objects have any.
fn kept_sections(
    alloc: Global,
    kept: Kept<InputSections>,
    kind: FileKind,
) -> Result<InputSections, InputError>
    ensures { Reads result (kept_sections kind kept) }
{
    let none = InputSections::empty(alloc);
    match kind {
        FileKind::Object => kept_or(alloc, kept, FileKey::Sections, none),
        _ => Ok(none),
    }
}

/// A file, of what was kept of its members.
#[tactic(auto, unfolding(crate::specs::KnownFiles::file_from))]
fn file_from(alloc: Global, known: FileMembers) -> Result<InputFile, InputError>
    ensures { Reads result (file_from known) }
{
    let kind = kept_needed(alloc, known.kind, FileKey::Kind)?;
    let name = kept_or(alloc, known.name, FileKey::Name, Text::new(alloc))?;
    let symbols = kept_or(alloc, known.symbols, FileKey::Symbols, List::new(alloc))?;
    let sections = kept_sections(alloc, known.sections, kind)?;
    let archive = kept_or(alloc, known.archive, FileKey::Archive, false)?;
    let export = kept_or(alloc, known.export, FileKey::Export, false)?;
    let check = kept_or(alloc, known.check, FileKey::Check, false)?;
    let no_candidates = Candidates::empty(alloc);
    let candidates = kept_or(alloc, known.candidates, FileKey::Candidates, no_candidates)?;
    Ok(InputFile {
        kind,
        name,
        symbols,
        sections,
        archive,
        export,
        check,
        candidates,
    })
}

/// The file that begins with this token, if it begins an object.
#[tactic(auto, using(crate::proofs::Objects::objects))]
pub(crate) fn stream_file(
    alloc: Global,
    token: Token<'_>,
    reader: &mut Reader<'_>,
    depth: usize,
) -> Result<Result<InputFile, Text>, Fail>
    ensures { Stands as_is result (parse_map input_file_of (data_at depth (token_of token.entry ∷ reader.old))) reader.new }
{
    match token {
        Token::BeginObject => {
            let depth = deeper(depth)?;
            let mut known = FileMembers::none();
            match stream_known(alloc, &mut known, reader, depth) {
                Ok(()) => settled(file_from(alloc, known)),
                Err(fail) => {
                    drop(known);
                    Err(fail)
                }
            }
        }
        token => misfit_from(alloc, token, reader, depth),
    }
}

#[tactic(auto, using(crate::proofs::Objects::objects))]
impl Streamed for InputFile {
    ghost streamed = { input_file_of };

    fn stream(
        alloc: Global,
        reader: &mut Reader<'_>,
        depth: usize,
    ) -> Result<Result<InputFile, Text>, Fail> {
        match reader.next() {
            Some(token) => stream_file(alloc, token, reader, depth),
            None => Err(Fail::NotJson),
        }
    }
}

impl Streamed for InputGroups {
    ghost streamed = { groups_of };

    fn stream(
        alloc: Global,
        reader: &mut Reader<'_>,
        depth: usize,
    ) -> Result<Result<InputGroups, Text>, Fail> {
        match List::stream(alloc, reader, depth)? {
            Ok(groups) => Ok(Ok(InputGroups::new(alloc, groups)?)),
            Err(path) => Ok(Err(path)),
        }
    }
}
