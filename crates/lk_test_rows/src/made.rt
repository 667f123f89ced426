//! Links that no description gives, made by hand: files that are no objects and have sections, and merged sections whose
//! size isn't that of their data.

use lk_link::{
    Candidates, FileKind, InputFile, InputGroups, InputSection, InputSections, InputSlot,
    InputSymbol, LinkInput, List, PartId, Relocation, RelocationKind, SymbolPlacement, Text,
    ValueFlags,
};
use std::alloc::{AllocError, Global};
use std::str;

/// A section of a part.
fn section_of(alloc: Global, part: u32) -> InputSection {
    InputSection {
        name: Text::new(alloc),
        slot: InputSlot::MustLoad,
        part: PartId::from_u32(part),
        size: 0,
        bytes: List::new(alloc),
        given: false,
        strings: false,
        sorted: false,
        attrs: 0,
        group: None,
        relocs: List::new(alloc),
        relax: List::new(alloc),
    }
}

/// A section for each digit of a word, of the part with that number.
fn sections_of(alloc: Global, word: &str) -> Result<InputSections, AllocError> {
    let mut sections = Vec::new(alloc);
    for letter in word.chars() {
        if letter == '0' || letter == '1' {
            sections.push(section_of(alloc, u32::from(letter == '1')))?;
        }
    }
    InputSections::new(alloc, List::from_vec(sections))
}

/// The kind of file that the first letter of a word stands for.
fn kind_of(word: &str) -> FileKind {
    match word.as_bytes().first() {
        Some(b'p') => FileKind::Prelude,
        Some(b'd') => FileKind::Dynamic,
        Some(b's') => FileKind::LinkerScript,
        _ => FileKind::Object,
    }
}

/// The file that a word stands for, as `d01`: its kind, and the parts of its sections. No description gives it where it has
/// sections and is no object.
fn file_of(alloc: Global, word: &str) -> Result<InputFile, AllocError> {
    Ok(InputFile {
        kind: kind_of(word),
        name: Text::new(alloc),
        symbols: List::new(alloc),
        sections: sections_of(alloc, word)?,
        archive: false,
        export: false,
        check: false,
        candidates: Candidates::empty(alloc),
    })
}

/// The files that the words of a line stand for, in groups of their own.
pub fn groups_of(alloc: Global, line: &str) -> Result<InputGroups, AllocError> {
    let mut groups = Vec::new(alloc);
    for word in line.split_whitespace() {
        let mut group = Vec::new(alloc);
        group.push(file_of(alloc, word)?)?;
        groups.push(List::from_vec(group))?;
    }
    InputGroups::new(alloc, List::from_vec(groups))
}

/// The bytes that a text of hexadecimal digits stands for; none where it isn't one.
fn bytes_of(alloc: Global, text: &str) -> Result<List<u8>, AllocError> {
    let mut bytes = Vec::new(alloc);
    for pair in text.as_bytes().chunks(2) {
        let pair = str::from_utf8(pair).unwrap_or("");
        if let Ok(byte) = u8::from_str_radix(pair, 16) {
            bytes.push(byte)?;
        }
    }
    Ok(List::from_vec(bytes))
}

/// A section of strings that are merged, of this size, whatever its data are.
fn sized_section(alloc: Global, size: &str, data: &str) -> Result<InputSection, AllocError> {
    let mut section = section_of(alloc, 0);
    section.slot = InputSlot::Merge;
    section.size = size.parse().unwrap_or(0);
    section.bytes = bytes_of(alloc, data)?;
    section.given = true;
    section.strings = true;
    Ok(section)
}

/// A link with these groups.
pub fn with_groups(mut link: LinkInput, groups: InputGroups) -> LinkInput {
    link.groups = groups;
    link
}

/// A symbol with a name that stands for a place in the first section.
fn named_symbol(alloc: Global, name: &str, offset: u64) -> Result<InputSymbol, AllocError> {
    Ok(InputSymbol {
        name: Text::from_string(String::from_str(alloc, name)?),
        at: SymbolPlacement::Section { index: 0, offset },
        def: None,
        flags: ValueFlags(0),
        local: false,
        weak: false,
        hidden: false,
    })
}

/// A section that is kept and refers to the first two symbols of its file.
fn referring_section(alloc: Global) -> Result<InputSection, AllocError> {
    let mut relocs = Vec::new(alloc);
    for symbol in 0..2 {
        relocs.push(Relocation {
            offset: 0,
            kind: RelocationKind::Absolute,
            symbol,
            addend: 0,
            thunkable: false,
        })?;
    }
    let mut section = section_of(alloc, 0);
    section.size = 1;
    section.relocs = List::from_vec(relocs);
    Ok(section)
}

/// Named symbols at 1 and at 2 in the first section.
fn sized_symbols(alloc: Global) -> Result<List<InputSymbol>, AllocError> {
    let mut symbols = Vec::new(alloc);
    symbols.push(named_symbol(alloc, "a", 1)?)?;
    symbols.push(named_symbol(alloc, "b", 2)?)?;
    Ok(List::from_vec(symbols))
}

/// A merged section of a size and with data that a line tells, and one that refers to the first two symbols.
fn sized_sections(alloc: Global, line: &str) -> Result<InputSections, AllocError> {
    let (size, data) = line.split_once(' ').unwrap_or((line, ""));
    let mut sections = Vec::new(alloc);
    sections.push(sized_section(alloc, size, data)?)?;
    sections.push(referring_section(alloc)?)?;
    InputSections::new(alloc, List::from_vec(sections))
}

/// A file with these symbols and sections.
fn with_contents(
    mut file: InputFile,
    symbols: List<InputSymbol>,
    sections: InputSections,
) -> InputFile {
    file.symbols = symbols;
    file.sections = sections;
    file
}

/// An object with a merged section of a size and with data that a line tells, and named symbols at 1 and at 2 there, to which
/// another section refers.
fn sized_object(alloc: Global, line: &str) -> Result<InputFile, AllocError> {
    let sections = sized_sections(alloc, line)?;
    let symbols = sized_symbols(alloc)?;
    let object = file_of(alloc, "o")?;
    Ok(with_contents(object, symbols, sections))
}

/// A prelude and such an object.
pub fn sized_groups(alloc: Global, line: &str) -> Result<InputGroups, AllocError> {
    let mut prelude = Vec::new(alloc);
    prelude.push(file_of(alloc, "p")?)?;
    let mut objects = Vec::new(alloc);
    objects.push(sized_object(alloc, line)?)?;
    let mut groups = Vec::new(alloc);
    groups.push(List::from_vec(prelude))?;
    groups.push(List::from_vec(objects))?;
    InputGroups::new(alloc, List::from_vec(groups))
}
