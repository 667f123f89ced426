//! The objects of a generated link: each has code, data and two strings, and names the code of one object and the data of another.

ghost use Rattle.std.specs.Prelude.{◌≡◌, ◌+◌, ◌*◌, ◌<◌, ◌≤◌, ◌^◌, ◌++◌, ℕ, [], IfOk, codes};
ghost use Rattle.std.specs.Fmt.{decimal};
ghost use Rattle.lk_link.specs.declared.symbol.SymbolPlacement.TheVariants as at;
ghost use Rattle.lk_generator.specs.Draws.{state_behind};
ghost use Rattle.lk_generator.specs.Generated.{drawn, empty_prelude, object_of, object_sections, object_symbols, plain_relocation, plain_section, plain_symbol, strings_section, text_section};

use crate::draws::Draws;
use lk_link::file::{Candidates, FileKind, InputFile, InputSections};
use lk_link::flags::ValueFlags;
use lk_link::ids::{PartId, SymbolId};
use lk_link::list::List;
use lk_link::plan::attributes;
use lk_link::relocation::{Relocation, RelocationKind};
use lk_link::section::{InputSection, InputSlot};
use lk_link::symbol::{InputSymbol, SymbolPlacement};
use lk_link::text::Text;
use std::alloc::{AllocError, Global};

/// What an object draws.
#[derive(Clone, Copy)]
pub(crate) struct Drawn {
    /// Bytes of its code, 16 to 255.
    pub(crate) text_size: u64,
    /// Bytes of its data, 8 to 63.
    pub(crate) data_size: u64,
    /// The letter of its first string.
    pub(crate) first_letter: u8,
    /// The letter behind the `x` of its second string.
    pub(crate) last_letter: u8,
    /// The number of the object of which it names the code.
    pub(crate) text_target: u32,
    /// The number of the object of which it names the data.
    pub(crate) data_target: u32,
}

/// What object `index` of so many draws, where the draws of those before it are taken.
pub(crate) fn draw_object(draws: &mut Draws, size: u32) -> Drawn
    requires { 0 < size }
    ensures text { result.text_target < size }
    ensures data { result.data_target < size }
    ensures drawn { (seed i : ℕ) → draws.old.state ≡ state_behind seed (6 * i) → result ≡ drawn seed size i }
    ensures state { (seed i : ℕ) → draws.old.state ≡ state_behind seed (6 * i) → draws.new.state ≡ state_behind seed (6 * (i + 1)) }
{
    let objects = u64::from(size);
    let text_size = 16 + draws.pick(240);
    let data_size = 8 + draws.pick(56);
    let first_letter = b'a' + draws.pick(26) as u8;
    let last_letter = b'a' + draws.pick(26) as u8;
    let text_target = draws.pick(objects) as u32;
    let data_target = draws.pick(objects) as u32;
    Drawn {
        text_size,
        data_size,
        first_letter,
        last_letter,
        text_target,
        data_target,
    }
}

/// The linker's own file, without symbols; takes no memory.
pub(crate) fn empty_prelude(alloc: Global) -> InputFile
    ensures { result ≡ empty_prelude }
{
    InputFile {
        kind: FileKind::Prelude,
        name: Text::new(alloc),
        symbols: List::new(alloc),
        sections: InputSections::empty(alloc),
        archive: false,
        export: false,
        check: false,
        candidates: Candidates::empty(alloc),
    }
}

/// Object `index`, by what it draws.
pub(crate) fn object(alloc: Global, index: u32, drawn: Drawn) -> Result<InputFile, AllocError>
    requires text { drawn.text_target < 100000 }
    requires data { drawn.data_target < 100000 }
    ensures { IfOk result (λ file. file ≡ object_of index drawn) }
{
    let sections = sections(alloc, index, drawn)?;
    Ok(InputFile {
        kind: FileKind::Object,
        name: object_name(alloc, index)?,
        symbols: List::from_vec(symbols(alloc, drawn)?),
        sections: InputSections::new(alloc, List::from_vec(sections))?,
        archive: false,
        export: false,
        check: false,
        candidates: Candidates::empty(alloc),
    })
}

/// The name of an object: `o` and its number.
fn object_name(alloc: Global, index: u32) -> Result<Text, AllocError>
    ensures { IfOk result (λ name. name ≡ codes "o" ++ decimal index) }
{
    Ok(Text::from_string(format!(in alloc; "o{index}")?))
}

/// The sections of an object: its code, its data and its strings.
fn sections(alloc: Global, index: u32, drawn: Drawn) -> Result<Vec<InputSection>, AllocError>
    ensures { IfOk result (λ sections. sections.items ≡ object_sections index drawn) }
{
    let mut sections = Vec::with_capacity(alloc, 3)?;
    sections.push(text_section(alloc, index, drawn.text_size)?)?;
    sections.push(plain_section(
        alloc,
        InputSlot::Unloaded,
        2,
        drawn.data_size,
        attributes::WRITE,
    ))?;
    sections.push(strings_section(alloc, drawn.first_letter, drawn.last_letter)?)?;
    Ok(sections)
}

/// The code of an object: that of the first one is kept.
fn text_section(alloc: Global, index: u32, size: u64) -> Result<InputSection, AllocError>
    ensures { IfOk result (λ section. section ≡ text_section index size) }
{
    let slot = if index == 0 {
        InputSlot::MustLoad
    } else {
        InputSlot::Unloaded
    };
    let relocs = [
        plain_relocation(0, RelocationKind::Relative, 3),
        plain_relocation(4, RelocationKind::Absolute, 4),
        plain_relocation(8, RelocationKind::Absolute, 2),
    ];
    let plain = plain_section(alloc, slot, 0, size, attributes::EXEC);
    Ok(InputSection {
        relocs: List::from_vec(Vec::from_slice(alloc, &relocs)?),
        ..plain
    })
}

/// The strings of an object: one of a letter, and one of `x` and a letter.
fn strings_section(alloc: Global, first: u8, last: u8) -> Result<InputSection, AllocError>
    ensures { IfOk result (λ section. section ≡ strings_section first last) }
{
    let bytes = Vec::from_slice(alloc, &[first, 0, b'x', last, 0])?;
    let plain = plain_section(alloc, InputSlot::Merge, 1, 5, 0);
    Ok(InputSection {
        bytes: List::from_vec(bytes),
        given: true,
        strings: true,
        ..plain
    })
}

/// A section without a name, in no group, without data or relocations; takes no memory.
fn plain_section(alloc: Global, slot: InputSlot, part: u32, size: u64, attrs: u32) -> InputSection
    ensures { result ≡ plain_section slot part size attrs [] }
{
    InputSection {
        name: Text::new(alloc),
        slot,
        part: PartId::from_u32(part),
        size,
        bytes: List::new(alloc),
        given: false,
        strings: false,
        sorted: false,
        attrs,
        group: None,
        relocs: List::new(alloc),
        relax: List::new(alloc),
    }
}

/// A relocation without addend for which no thunk stands in.
fn plain_relocation(offset: u64, kind: RelocationKind, symbol: u32) -> Relocation
    ensures { result ≡ plain_relocation offset kind symbol }
{
    Relocation {
        offset,
        addend: 0,
        symbol,
        kind,
        thunkable: false,
    }
}

/// The symbols of an object: those of its code and its data, one without a name at its strings, and those that it names.
fn symbols(alloc: Global, drawn: Drawn) -> Result<Vec<InputSymbol>, AllocError>
    requires text { drawn.text_target < 100000 }
    requires data { drawn.data_target < 100000 }
    ensures { IfOk result (λ symbols. symbols.items ≡ object_symbols drawn) }
{
    let text = SymbolId::from_u32(5 * drawn.text_target);
    let data = SymbolId::from_u32(5 * drawn.data_target + 1);
    let mut symbols = Vec::with_capacity(alloc, 5)?;
    symbols.push(plain_symbol(alloc, "f", start_of(0), None)?)?;
    symbols.push(plain_symbol(alloc, "d", start_of(1), None)?)?;
    symbols.push(plain_symbol(alloc, "", start_of(2), None)?)?;
    symbols.push(plain_symbol(alloc, "u", SymbolPlacement::Undef, Some(text))?)?;
    symbols.push(plain_symbol(alloc, "v", SymbolPlacement::Undef, Some(data))?)?;
    Ok(symbols)
}

/// The start of a section of the object.
fn start_of(index: u32) -> SymbolPlacement
    ensures { result ≡ at.Section index 0 }
{
    SymbolPlacement::Section { index, offset: 0 }
}

/// A symbol, with the one that stands for it.
fn plain_symbol(
    alloc: Global,
    name: &str,
    at: SymbolPlacement,
    def: Option<SymbolId>,
) -> Result<InputSymbol, AllocError>
    ensures { IfOk result (λ symbol. symbol ≡ plain_symbol name.now at def) }
{
    Ok(InputSymbol {
        name: Text::from_string(String::from_str(alloc, name)?),
        at,
        def,
        flags: ValueFlags(0),
        local: false,
        weak: false,
        hidden: false,
    })
}
