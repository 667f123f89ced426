//! What is looked up in a description by a number or a name.

ghost use Rattle.std.specs.Prelude.{◌<◌, ◌^◌};
ghost use Rattle.lk_link.specs.Files.{AreNumbered};
ghost use Rattle.lk_link.specs.Symbols.{all_files, symbol_count};

use crate::rows::{Asked, expect_rows, expect_text};
use crate::shown::Shown;
use lk_link::{
    FileId, InputGroups, InputSymbol, Options, OutputSectionId, SymbolId, SymbolIdRange,
};
use lk_test_rows::add;
use std::alloc::AllocError;
use std::test::Fail;

/// Three groups with five symbols, whose flags are their numbers: empty files round them, and an empty group between.
/// Behind the counts of files and symbols stand the file, the flags and the definition of the first six symbols.
const SYMBOLS: &str = r#"
{"plan":{"page":1},"groups":[[{"kind":"object"},{"kind":"object","symbols":[{"at":["undef"]},{"at":["undef"],"flags":1,"def":3}]}],[],[{"kind":"object"},{"kind":"object","symbols":[{"at":["undef"],"flags":2},{"at":["undef"],"flags":3},{"at":["undef"],"flags":4,"def":0}]},{"kind":"object"}]]} => counts (5, 5) symbol (Some(FileId { group: 0, file: 1 }), Some(0), Some(SymbolId { number: 0 })) symbol (Some(FileId { group: 0, file: 1 }), Some(1), Some(SymbolId { number: 3 })) symbol (Some(FileId { group: 2, file: 1 }), Some(2), Some(SymbolId { number: 2 })) symbol (Some(FileId { group: 2, file: 1 }), Some(3), Some(SymbolId { number: 3 })) symbol (Some(FileId { group: 2, file: 1 }), Some(4), Some(SymbolId { number: 0 })) symbol (None, None, None)
"#;

/// The same, with the numbers and the ranges of symbols of three files in each of four groups.
const FILES: &str = r#"
{"plan":{"page":1},"groups":[[{"kind":"object"},{"kind":"object","symbols":[{"at":["undef"]},{"at":["undef"],"flags":1,"def":3}]}],[],[{"kind":"object"},{"kind":"object","symbols":[{"at":["undef"],"flags":2},{"at":["undef"],"flags":3},{"at":["undef"],"flags":4,"def":0}]},{"kind":"object"}]]} => file (true, Some(0), Some(SymbolIdRange { start: 0, count: 0 })) file (true, Some(1), Some(SymbolIdRange { start: 0, count: 2 })) file (false, None, None) file (false, None, None) file (false, None, None) file (false, None, None) file (true, Some(2), Some(SymbolIdRange { start: 2, count: 0 })) file (true, Some(3), Some(SymbolIdRange { start: 2, count: 3 })) file (true, Some(4), Some(SymbolIdRange { start: 5, count: 0 })) file (false, None, None) file (false, None, None) file (false, None, None)
"#;

/// An object with sections in some groups, and candidates of some output sections: the members of each of some groups, and
/// the candidates of the output section of that number.
const MEMBERS: &str = r#"
{"plan":{"page":1},"groups":[[{"kind":"object","sections":[{"slot":"must","group":7},{"slot":"must"},{"slot":"must","group":3},{"slot":"must","group":7},{"slot":"must","group":0}],"candidates":[[7,1,0,0],[9,1,0,1],[3,1,0,2],[7,1,0,3],[0,1,0,4]]}]]} => sections (true, false) number (7, [0, 3], [Candidate { output: OutputSectionId { number: 7 }, file: FileId { group: 1, file: 0 }, index: 0 }, Candidate { output: OutputSectionId { number: 7 }, file: FileId { group: 1, file: 0 }, index: 3 }]) number (3, [2], [Candidate { output: OutputSectionId { number: 3 }, file: FileId { group: 1, file: 0 }, index: 2 }]) number (0, [4], [Candidate { output: OutputSectionId { number: 0 }, file: FileId { group: 1, file: 0 }, index: 4 }]) number (5, [], []) number (9, [], [Candidate { output: OutputSectionId { number: 9 }, file: FileId { group: 1, file: 0 }, index: 1 }])
"#;

/// Names, and whether each of some others is among them.
const NAMES: &str = r#"
{"plan":{"page":1},"options":{"strip_names":["b","ab","","b","aa"]}} => name ("", true) name ("aa", true) name ("ab", true) name ("b", true) name ("a", false) name ("abc", false) name ("c", false)
{"plan":{"page":1}} => name ("", false) name ("aa", false) name ("ab", false) name ("b", false) name ("a", false) name ("abc", false) name ("c", false)
"#;

/// The flags of a symbol.
fn flags_of(symbol: Option<&InputSymbol>) -> Option<u32> {
    match symbol {
        Some(symbol) => Some(symbol.flags.0),
        None => None,
    }
}

/// Adds the file, the flags and the definition of a symbol.
fn add_symbol(line: &mut String, groups: &InputGroups, id: SymbolId) -> Result<(), AllocError>
    requires { AreNumbered groups.now }
{
    let flags = flags_of(groups.symbol(id));
    let values = (groups.file_of_symbol(id), flags, groups.definition(id));
    add(line, "symbol", &values)
}

/// Adds the counts of files and symbols, and the first six symbols of groups and files that aren't too many.
pub fn add_symbols(line: &mut String, groups: &InputGroups) -> Result<(), AllocError> {
    add(
        line,
        "counts",
        &(groups.file_count(), groups.symbol_count()),
    )?;
    if groups.len() <= 65535 && groups.file_count() <= 16777216 {
        for number in 0..6 {
            add_symbol(line, groups, SymbolId::from_u32(number))?;
        }
    }
    Ok(())
}

/// Adds whether there is a file, its number, and the range of its symbols.
fn add_file(line: &mut String, groups: &InputGroups, id: FileId) -> Result<(), AllocError>
    requires { symbol_count (all_files groups.now) < 2 ^ 32 }
{
    let (number, range) = (groups.file_number(id), groups.symbol_id_range(id));
    add(line, "file", &(groups.file(id).is_some(), number, range))
}

/// Adds the files of four groups, three of each, unless there are too many symbols.
pub fn add_files(line: &mut String, groups: &InputGroups) -> Result<(), AllocError> {
    if groups.symbol_count() < 4294967296 {
        for place in 0..12 {
            let (group, file) = (place / 3, place % 3);
            add_file(line, groups, FileId { group, file })?;
        }
    }
    Ok(())
}

/// Adds whether the first file has a fifth and a sixth section, and the members of some groups with the candidates of the
/// output sections of the same numbers.
pub fn add_members(line: &mut String, groups: &InputGroups) -> Result<(), AllocError> {
    if let Some(file) = groups.file(FileId { group: 0, file: 0 }) {
        let (fifth, sixth) = (file.sections.get(4), file.sections.get(5));
        add(line, "sections", &(fifth.is_some(), sixth.is_some()))?;
        for number in [7, 3, 0, 5, 9] {
            let candidates = file.candidates.of(OutputSectionId::from_u32(number));
            add(
                line,
                "number",
                &(number, file.sections.members(number), candidates),
            )?;
        }
    }
    Ok(())
}

/// Adds whether some names are among those that are stripped.
pub fn add_names(line: &mut String, options: &Options) -> Result<(), AllocError> {
    for name in ["", "aa", "ab", "b", "a", "abc", "c"] {
        add(line, "name", &(name, options.strip_names.contains(name)))?;
    }
    Ok(())
}

#[test]
fn symbols_are_found_by_number(rt: HostRuntime) -> Result<(), Fail> {
    expect_rows(&rt, rt.alloc(), Asked::Of(Shown::Symbols), SYMBOLS)
}

#[test]
fn files_have_ranges_of_symbols(rt: HostRuntime) -> Result<(), Fail> {
    expect_rows(&rt, rt.alloc(), Asked::Of(Shown::Files), FILES)
}

#[test]
fn members_and_candidates_keep_their_order(rt: HostRuntime) -> Result<(), Fail> {
    expect_rows(&rt, rt.alloc(), Asked::Of(Shown::Members), MEMBERS)
}

#[test]
fn names_are_found(rt: HostRuntime) -> Result<(), Fail> {
    expect_rows(&rt, rt.alloc(), Asked::Of(Shown::Names), NAMES)
}

/// Adds whether a range holds a number.
fn add_number(line: &mut String, range: SymbolIdRange, number: u32) -> Result<(), AllocError> {
    add(
        line,
        "holds",
        &(number, range.contains(SymbolId::from_u32(number))),
    )
}

#[test]
fn ranges_hold_numbers(rt: HostRuntime) -> Result<(), Fail> {
    let range = SymbolIdRange::new(SymbolId::from_u32(2), 3);
    let mut line = String::new(rt.alloc());
    for number in [1, 2, 4, 5] {
        add_number(&mut line, range, number)?;
    }
    let index = range.id_to_offset(SymbolId::from_u32(3));
    add(
        &mut line,
        "has",
        &(range.is_empty(), range.offset_to_id(2), index),
    )?;
    expect_text(
        &rt,
        line.as_str(),
        "holds (1, false) holds (2, true) holds (4, true) holds (5, false) has (false, SymbolId { number: 4 }, 1)",
    );
    Ok(())
}
