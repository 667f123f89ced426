//! The input files, by groups. Symbols and input sections are numbered over all files, so the running ends of the files of
//! each group and of the symbols and sections of each file are kept beside the files: a file's first number is read off,
//! and the file of a number is found by halving.

ghost use Rattle.std.specs.Prelude.{◌≡◌, ◌==◌, ◌<◌, ◌≤◌, ◌^◌, ◌-◌, ◌++◌, List, [], IfOk, OnOk, IsSome, SomeIff, MatchOption, option_map, length, slice_get, sum_by, min};
ghost use Rattle.std.specs.Option.{option_copied};
ghost use Rattle.lk_link.specs.Ends.{AreEnds};
ghost use Rattle.lk_link.specs.FileIndex.{AreFileEnds};
ghost use Rattle.lk_link.specs.Inputs.{InputsFollow};
ghost use Rattle.lk_link.specs.Symbols.{all_files, FilesHaveNumbers, SymbolsFollow, SymbolsHaveFiles};
ghost use Rattle.lk_link.specs.declared.file.InputFile.{InputFile};

use crate::ends::{guesses_of, last_end, place_near, push_end, start_at};
use crate::file::InputFile;
use crate::ids::{FileId, SymbolId, SymbolIdRange};
use crate::list::List;
use crate::symbol::InputSymbol;
use crate::walks::{FileRef, Files, Inputs};
use std::alloc::{AllocError, Global};
use std::marker::Model;

/// The groups of input files, with an index of their symbols and sections. Contracts see the lists of files alone.
#[derive(Drop)]
pub struct InputGroups {
    groups: List<List<InputFile>>,
    /// Where the files of each group end, numbered over all groups.
    file_ends: Vec<usize>,
    /// Where the symbols of each file end, numbered over all files.
    symbol_ends: Vec<usize>,
    /// Where the sections of each file end, numbered over all files.
    section_ends: Vec<usize>,
    /// Guesses at the groups of files, and at the files of symbols.
    file_guesses: Vec<u32>,
    symbol_guesses: Vec<u32>,
}

impl Model for InputGroups {
    ghost use Rattle.std.specs.Prelude.{List};
    ghost use Rattle.lk_link.specs.declared.file.InputFile.{InputFile};
    ghost use Rattle.std.specs.Coded.{codes};
    ghost use Rattle.lk_link.specs.contracts.expression.Expression as expression;

    ghost Value = { List (List InputFile) };

    ghost coded = { Prim.hlevel (codes, expression.the_row.coded) };

    ghost use Rattle.lk_link.specs.FileIndex.{IsFileIndex};

    ghost view = { λ a. a.groups };

    ghost invariant = { λ a. IsFileIndex a.groups a.file_ends.items a.symbol_ends.items a.section_ends.items };
}

/// A symbol with its number over all files, and its file.
#[derive(Clone, Copy)]
pub struct SymbolRef<'a> {
    pub number: SymbolId,
    pub file: FileRef<'a>,
    pub symbol: &'a InputSymbol,
}

/// Where the symbols and the sections of each file end, numbered over all files.
#[derive(Drop)]
struct FileEnds {
    symbols: Vec<usize>,
    sections: Vec<usize>,
}

impl InputGroups {
    ghost use Rattle.lk_link.specs.Files.{file_in, AreNumbered};
    ghost use Rattle.lk_link.specs.Inputs.{numbered_files, all_inputs, input_count, first_input};
    ghost use Rattle.lk_link.specs.NumberedSymbols.{IsSymbolAt, known_definition, known_symbol, symbol_of};
    ghost use Rattle.lk_link.specs.Symbols.{symbol_count, symbol_at, definition_of, file_number, IsSymbolIn, AreSymbolsOf};

    /// No groups; takes no memory.
    pub fn empty(alloc: Global) -> InputGroups
        ensures { result ≡ [] }
    {
        InputGroups {
            groups: List::new(alloc),
            file_ends: Vec::new(alloc),
            symbol_ends: Vec::new(alloc),
            section_ends: Vec::new(alloc),
            file_guesses: Vec::new(alloc),
            symbol_guesses: Vec::new(alloc),
        }
    }

    /// Makes the index of the groups.
    pub fn new(alloc: Global, groups: List<List<InputFile>>) -> Result<InputGroups, AllocError>
        ensures { IfOk result (λ all. all ≡ groups) }
    {
        let file_ends = ends_of_groups(alloc, groups.as_slice())?;
        let file_count = last_end(file_ends.as_slice());
        let ends = ends_of_files(alloc, groups.as_slice(), file_count)?;
        let file_guesses = guesses_of(alloc, file_ends.as_slice())?;
        let symbol_guesses = guesses_of(alloc, ends.symbols.as_slice())?;
        Ok(InputGroups {
            groups,
            file_ends,
            symbol_ends: ends.symbols,
            section_ends: ends.sections,
            file_guesses,
            symbol_guesses,
        })
    }

    /// All groups, lent.
    pub fn as_slice(&self) -> &[List<InputFile>]
        ensures { result.now ≡ self.now }
    {
        self.groups.as_slice()
    }

    /// How many groups there are.
    pub fn len(&self) -> usize
        ensures { result ≡ length self.now }
    {
        self.groups.len()
    }

    /// Whether there are none.
    pub fn is_empty(&self) -> bool
        ensures { result ≡ (length self.now == 0) }
    {
        self.groups.is_empty()
    }

    /// The file with this number, if there is one. Takes constant time.
    pub fn file(&self, id: FileId) -> Option<&InputFile>
        ensures { option_copied result ≡ file_in self.now id }
    {
        self.groups
            .get(id.group as usize)
            .and_then(|group| group.get(id.file as usize))
    }

    /// How many files all groups have; a count past 2^64 - 1 is given as that. Takes constant time.
    pub fn file_count(&self) -> u64
        ensures { result ≡ min (sum_by length self.now) (2 ^ 64 - 1) }
    {
        last_end(self.file_ends.as_slice()) as u64
    }

    /// How many symbols all files have; a count past 2^64 - 1 is given as that. Takes constant time.
    pub fn symbol_count(&self) -> u64
        ensures { result ≡ min (symbol_count (all_files self.now)) (2 ^ 64 - 1) }
    {
        last_end(self.symbol_ends.as_slice()) as u64
    }

    /// The symbol with this number, if there is one. Takes logarithmic time.
    pub fn symbol(&self, id: SymbolId) -> Option<&InputSymbol>
        ensures { option_copied result ≡ symbol_at self.now id }
    {
        let (file, index) = place_near(
            self.symbol_ends.as_slice(),
            self.symbol_guesses.as_slice(),
            id.as_u32() as usize,
        )?;
        self.file_at(file)?.symbols.get(index)
    }

    /// The symbol that stands for this one: its definition, else itself; none where there is no such symbol.
    pub fn definition(&self, id: SymbolId) -> Option<SymbolId>
        ensures { result ≡ definition_of self.now id }
    {
        let symbol = self.symbol(id)?;
        Some(symbol.def.unwrap_or(id))
    }

    /// The number of a file over all groups, if there is such a file. Takes constant time.
    pub fn file_number(&self, id: FileId) -> Option<usize>
        ensures { SomeIff result (IsSome (file_in self.now id)) (file_number self.now id) }
    {
        self.file(id)?;
        Some(self.number_of(id))
    }

    /// How many input sections all files have; a count past 2^64 - 1 is given as that. Takes constant time.
    pub fn input_count(&self) -> u64
        ensures { result ≡ min (input_count self.now) (2 ^ 64 - 1) }
    {
        last_end(self.section_ends.as_slice()) as u64
    }

    /// The number of a file's first section over all files, if there is such a file; where it has no sections, the number
    /// that the first one would have. Takes constant time.
    pub fn input_start(&self, id: FileId) -> Option<usize>
        requires { input_count self.now < 2 ^ 64 }
        ensures { SomeIff result (IsSome (file_in self.now id)) (first_input self.now id) }
    {
        self.file(id)?;
        Some(start_at(self.section_ends.as_slice(), self.number_of(id)))
    }

    /// All files, by group and index. Each step takes constant time, but for groups without files.
    pub fn files(&self) -> Files<'_>
        requires { AreNumbered self.now }
        ensures { result ≡ numbered_files self.now }
    {
        Files::new(self.groups.as_slice())
    }

    /// All input sections, by group, file and index. Each step takes constant time, but for files without sections.
    pub fn inputs(&self) -> Inputs<'_>
        requires { AreNumbered self.now }
        ensures { result ≡ all_inputs self.now }
    {
        Inputs::new(self.files())
    }

    /// The file that a symbol is in, if there is such a symbol. Takes logarithmic time.
    pub fn file_of_symbol(&self, id: SymbolId) -> Option<FileId>
        requires { AreNumbered self.now }
        ensures { MatchOption result (symbol_count (all_files self.now) ≤ id) (λ file. IsSymbolIn self.now file id) }
    {
        let (number, _) = place_near(
            self.symbol_ends.as_slice(),
            self.symbol_guesses.as_slice(),
            id.as_u32() as usize,
        )?;
        let (group, file) = place_near(
            self.file_ends.as_slice(),
            self.file_guesses.as_slice(),
            number,
        )?;
        Some(FileId {
            group: group as u32,
            file: file as u32,
        })
    }

    /// The symbol with this number and its file, if there is such a symbol. Takes logarithmic time.
    pub fn symbol_in_file(&self, number: SymbolId) -> Option<SymbolRef<'_>>
        requires { AreNumbered self.now }
        ensures { option_map symbol_of result ≡ known_symbol self.now number }
    {
        let (id, index) = self.symbol_place(number)?;
        let file = self.file(id)?;
        let symbol = file.symbols.get(index)?;
        let file = FileRef { id, file };
        Some(SymbolRef {
            number,
            file,
            symbol,
        })
    }

    /// The symbol that stands for this one, and its file; none where one of both isn't there. Takes logarithmic time.
    pub fn definition_in_file(&self, id: SymbolId) -> Option<SymbolRef<'_>>
        requires { AreNumbered self.now }
        ensures { option_map symbol_of result ≡ known_definition self.now id }
    {
        let definition = self.definition(id)?;
        self.symbol_in_file(definition)
    }

    /// The file that a symbol is in, and its index there, if there is such a symbol.
    fn symbol_place(&self, id: SymbolId) -> Option<(FileId, usize)>
        requires { AreNumbered self.now }
        ensures { MatchOption result (symbol_count (all_files self.now) ≤ id) (λ p. IsSymbolAt self.now p.0 p.1 id) }
    {
        let (number, index) = place_near(
            self.symbol_ends.as_slice(),
            self.symbol_guesses.as_slice(),
            id.as_u32() as usize,
        )?;
        let (group, file) = place_near(
            self.file_ends.as_slice(),
            self.file_guesses.as_slice(),
            number,
        )?;
        let file = FileId {
            group: group as u32,
            file: file as u32,
        };
        Some((file, index))
    }

    /// The numbers of a file's symbols, if there is such a file. Takes constant time.
    pub fn symbol_id_range(&self, id: FileId) -> Option<SymbolIdRange>
        requires { symbol_count (all_files self.now) < 2 ^ 32 }
        ensures { MatchOption result (file_in self.now id ≡ None) (AreSymbolsOf self.now id) }
    {
        let count = self.file(id)?.symbols.len();
        let start = start_at(self.symbol_ends.as_slice(), self.number_of(id));
        Some(SymbolIdRange::new(SymbolId::from_u32(start as u32), count as u32))
    }

    /// The number of a file over all groups.
    fn number_of(&self, id: FileId) -> usize
        requires { IsSome (file_in self.now id) }
        ensures number { result ≡ file_number self.now id }
        ensures within { result < length (all_files self.now) }
    {
        start_at(self.file_ends.as_slice(), id.group as usize) + id.file as usize
    }

    /// The file with this number over all groups, if there is one.
    fn file_at(&self, number: usize) -> Option<&InputFile>
        requires { number < 2 ^ 64 - 1 }
        ensures { option_copied result ≡ slice_get (all_files self.now) number }
    {
        let (group, file) = place_near(
            self.file_ends.as_slice(),
            self.file_guesses.as_slice(),
            number,
        )?;
        self.groups.as_slice()[group].get(file)
    }
}

/// A law: a file stands under its number among the files of all groups.
pub fn files_have_numbers()
    ensures { FilesHaveNumbers }
{}

/// A law: the symbols of a file stand among all symbols, from the file's first symbol on.
pub fn symbols_follow()
    ensures { SymbolsFollow }
{}

/// A law: a symbol of a file is the file's symbol at its number less that of the first one, and no other file's.
pub fn symbols_have_files()
    ensures { SymbolsHaveFiles }
{}

/// A law: a section of a file stands among all input sections behind the file's first one, and there are as many as the
/// files have together.
pub fn inputs_follow()
    ensures { InputsFollow }
{}

/// Where the files of each group end, numbered over all groups.
fn ends_of_groups(alloc: Global, groups: &[List<InputFile>]) -> Result<Vec<usize>, AllocError>
    ensures { IfOk result (λ ends. AreEnds (λ (files : List InputFile). length files) ends.items groups.now) }
{
    let mut ends = Vec::with_capacity(alloc, groups.len())?;
    for files in groups {
        push_end(&mut ends, files.len())?;
    }
    Ok(ends)
}

/// Where the symbols and the sections of each file end, numbered over all files. There are `count` files.
fn ends_of_files(
    alloc: Global,
    groups: &[List<InputFile>],
    count: usize,
) -> Result<FileEnds, AllocError>
    ensures { IfOk result (λ ends. AreFileEnds (all_files groups.now) ends.symbols.items ends.sections.items) }
{
    let mut ends = FileEnds {
        symbols: Vec::with_capacity(alloc, count)?,
        sections: Vec::with_capacity(alloc, count)?,
    };
    for files in groups {
        push_ends(&mut ends, files.as_slice())?;
    }
    Ok(ends)
}

/// Adds where the symbols and the sections of these files end.
fn push_ends(ends: &mut FileEnds, files: &[InputFile]) -> Result<(), AllocError>
    ensures { OnOk result
        ((before : List InputFile) → AreFileEnds before ends.old.symbols.items ends.old.sections.items
        → AreFileEnds (before ++ files.now) ends.new.symbols.items ends.new.sections.items) }
{
    for file in files {
        push_end(&mut ends.symbols, file.symbols.len())?;
        push_end(&mut ends.sections, file.sections.len())?;
    }
    Ok(())
}
