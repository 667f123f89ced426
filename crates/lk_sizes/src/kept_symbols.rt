//! Which output sections symbols of the prelude keep: those at whose edges one stands that gets a resolution. An output file
//! tells such a section even where it stayed empty, so that the symbol has something to stand at.

ghost use Rattle.std.specs.Prelude.{◌≡◌, ◌==◌, ◌||◌, ◌+◌, ◌<◌, ◌^◌, ℕ, IfOk, false, length};
ghost use Rattle.std.specs.List.{enumerate_from, list_any};
ghost use Rattle.std.specs.Option.{option_map_or};
ghost use Rattle.lk_link.specs.Files.{file_in};
ghost use Rattle.lk_link.specs.Marks.{is_marked};
ghost use Rattle.lk_link.specs.Walks.{file_of};
ghost use Rattle.lk_link.specs.WellFormed.{IsWellFormed};
ghost use Rattle.lk_sizes.specs.Emitted.{file_keeps, is_kept_by_symbol, keeps, section_kept_by};

use lk_live::Live;
use lk_link::{FileKind, FileRef, InputSymbol, LinkInput, OutputSectionId, SymbolId};
use std::alloc::{AllocError, Global};

/// The output section that a symbol of a file of a kind, with its number, keeps.
fn section_kept_by(
    live: &Live,
    kind: FileKind,
    number: SymbolId,
    symbol: &InputSymbol,
) -> Option<OutputSectionId>
    ensures { result ≡ section_kept_by live.now kind (number, symbol.now) }
{
    let flags = live.flags.as_slice().get(number.as_usize()).copied()?;
    if !kind.is_prelude() || !symbol.is_wanted(kind, number, flags) {
        return None;
    }
    symbol.at.edge_of()
}

/// Sets the mark of an output section, if there is one.
fn mark_section(marks: &mut [bool], section: Option<OutputSectionId>)
    ensures { (s : ℕ) → s < length marks.old
        → is_marked marks.new s ≡ (is_marked marks.old s || option_map_or (λ o. o == s) section false) }
{
    if let Some(section) = section {
        let place = section.as_usize();
        if place < marks.len() {
            marks[place] = true;
        }
    }
}

/// Sets the marks of the output sections that some symbols of a file keep, the first of them with this number.
fn mark_symbols(
    live: &Live,
    kind: FileKind,
    first: u32,
    symbols: &[InputSymbol],
    marks: &mut [bool],
)
    requires numbers { first + length symbols.now < 2 ^ 32 }
    ensures { (s : ℕ) → s < length marks.old
        → is_marked marks.new s ≡ (is_marked marks.old s || list_any (keeps live.now kind s) (enumerate_from first symbols.now)) }
{
    for (index, symbol) in symbols.iter().enumerate() {
        let number = SymbolId::from_u32(first + index as u32);
        let section = section_kept_by(live, kind, number, symbol);
        mark_section(marks, section);
    }
}

/// Sets the marks of those that the symbols of a file keep. Looks at no symbol of other files than the prelude.
fn mark_file(link: &LinkInput, live: &Live, file: FileRef<'_>, marks: &mut [bool])
    requires good { IsWellFormed link.now }
    requires there { file_in link.now.groups file.id ≡ Some file.file.now }
    ensures { (s : ℕ) → s < length marks.old
        → is_marked marks.new s ≡ (is_marked marks.old s || file_keeps link.now live.now s (file_of file.entry)) }
{
    let kind = file.file.kind;
    if !kind.is_prelude() {
        return;
    }
    if let Some(numbers) = link.groups.symbol_id_range(file.id) {
        let first = numbers.start().as_u32();
        mark_symbols(live, kind, first, file.file.symbols.as_slice(), marks);
    }
}

/// Sets the marks of those that the symbols of all files keep.
fn mark_files(link: &LinkInput, live: &Live, marks: &mut [bool])
    requires { IsWellFormed link.now }
    ensures { (s : ℕ) → s < length marks.old
        → is_marked marks.new s ≡ (is_marked marks.old s || is_kept_by_symbol link.now live.now s) }
{
    for file in link.groups.files() {
        mark_file(link, live, file, marks);
    }
}

/// For each output section, whether a symbol of the prelude keeps it. Looks at each symbol of the prelude once.
pub(crate) fn mark_kept_by_symbols(
    alloc: Global,
    link: &LinkInput,
    live: &Live,
) -> Result<Vec<bool>, AllocError>
    requires { IsWellFormed link.now }
    ensures { IfOk result (λ marks. (s : ℕ) → s < length link.now.plan.sections
        → is_marked marks.items s ≡ is_kept_by_symbol link.now live.now s) }
{
    let mut marks = vec![in alloc; false; link.plan.sections.len()]?;
    mark_files(link, live, &mut marks);
    Ok(marks)
}
