//! Output sections that redirects of scripts keep: those at whose start or end a redirect's location counter stands, if the
//! redirect is reached.

ghost use Rattle.std.specs.Prelude.{◌≡◌, ◌+◌, ◌<◌, ◌^◌, ◌==◌, ◌&&◌, ◌||◌, ℕ, length, Some};
ghost use Rattle.std.specs.List.{enumerate_from, list_any};
ghost use Rattle.lk_link.specs.Files.{file_in};
ghost use Rattle.lk_link.specs.Marks.{is_marked};
ghost use Rattle.lk_link.specs.Walks.{file_of};
ghost use Rattle.lk_link.specs.WellFormed.{IsWellFormed};
ghost use Rattle.lk_live.specs.KeptParts.{names_output, redirect_keeps, script_keeps};
ghost use Rattle.lk_live.specs.Reach.{redirect_output};

use lk_link::marks::is_marked;
use lk_link::{FileRef, InputSymbol, LinkInput, OutputSectionId, SymbolLoc, SymbolPlacement};

/// Keeps the output sections that redirects keep. `marks` tells of each unit whether it is reached, and `kept` of each output
/// section whether it is kept.
pub(crate) fn keep_named(kept: &mut Vec<bool>, link: &LinkInput, marks: &[bool])
    requires { IsWellFormed link.now }
    ensures count { length kept.new.items ≡ length kept.old.items }
    ensures marks { (o : ℕ) → o < length kept.old.items
        → is_marked kept.new.items o ≡ (is_marked kept.old.items o || redirect_keeps link.now marks.now o) }
{
    for file in link.groups.files() {
        keep_by_file(kept, link, marks, file);
    }
}

/// Keeps those that redirects of a file keep, if it is a script.
fn keep_by_file(kept: &mut Vec<bool>, link: &LinkInput, marks: &[bool], file: FileRef<'_>)
    requires well_formed { IsWellFormed link.now }
    requires there { file_in link.now.groups file.id ≡ Some file.file.now }
    ensures count { length kept.new.items ≡ length kept.old.items }
    ensures marks { (o : ℕ) → o < length kept.old.items
        → is_marked kept.new.items o ≡ (is_marked kept.old.items o || script_keeps link.now marks.now o (file_of file.entry)) }
{
    if file.file.kind.is_script() {
        if let Some(symbols) = link.groups.symbol_id_range(file.id) {
            let first = symbols.start().as_u32();
            keep_by_symbols(kept, marks, first, file.file.symbols.as_slice());
        }
    }
}

/// Keeps those that these symbols of a script keep. `first` is the number of the first.
fn keep_by_symbols(kept: &mut Vec<bool>, marks: &[bool], first: u32, symbols: &[InputSymbol])
    requires { first + length symbols.now < 2 ^ 32 }
    ensures count { length kept.new.items ≡ length kept.old.items }
    ensures marks { (o : ℕ) → o < length kept.old.items
        → is_marked kept.new.items o
        ≡ (is_marked kept.old.items o || list_any (names_output marks.now o) (enumerate_from first symbols.now)) }
{
    for (index, symbol) in symbols.iter().enumerate() {
        keep_by_symbol(kept, marks, first as usize + index, symbol);
    }
}

/// Keeps the output section that a symbol with its number keeps, if it does.
fn keep_by_symbol(kept: &mut Vec<bool>, marks: &[bool], number: usize, symbol: &InputSymbol)
    ensures count { length kept.new.items ≡ length kept.old.items }
    ensures marks { (o : ℕ) → o < length kept.old.items
        → is_marked kept.new.items o ≡ (is_marked kept.old.items o || names_output marks.now o (number, symbol.now)) }
{
    if let Some(output) = redirect_output(&symbol.at) {
        keep(kept, is_marked(marks, number), output.as_usize());
    }
}

/// Keeps an output section, if its redirect is reached.
fn keep(kept: &mut Vec<bool>, reached: bool, output: usize)
    ensures count { length kept.new.items ≡ length kept.old.items }
    ensures marks { (o : ℕ) → o < length kept.old.items
        → is_marked kept.new.items o ≡ (is_marked kept.old.items o || (reached && (output == o))) }
{
    if reached && output < kept.len() {
        kept[output] = true;
    }
}

/// The output section at whose start or end the location counter of a redirect stands.
fn redirect_output(at: &SymbolPlacement) -> Option<OutputSectionId>
    ensures { result ≡ redirect_output at.now }
{
    match at {
        SymbolPlacement::Redirect { loc, .. } => match loc {
            SymbolLoc::SectionStart(output) | SymbolLoc::SectionEnd(output) => Some(*output),
            SymbolLoc::None | SymbolLoc::Counter(_) => None,
        },
        _ => None,
    }
}
