//! The flags that a layout keeps: those of the traversal with late marks.
//!
//! Only symbols of the prelude are marked late, and they have the first numbers. So marks are written in place over the first flags, and
//! no second list is made.

ghost use Rattle.std.specs.Prelude.{◌≡◌, ◌<◌, ◌^◌, length};
ghost use Rattle.lk_link.specs.WellFormed.{IsWellFormed};
ghost use Rattle.lk_layout.specs.Flags.{all_flags};
ghost use Rattle.lk_layout.specs.LateWords.{marked_at, marked_from};

use lk_link::ValueFlags;
use lk_link::file::{FileKind, InputFile};
use lk_link::ids::{FileId, SymbolId};
use lk_link::link::LinkInput;
use lk_link::list::List;
use lk_link::symbol::InputSymbol;
use lk_tables::symbol_table::late_flags;

/// The first file, which is the prelude.
const FIRST: FileId = FileId { group: 0, file: 0 };

/// The flags of all symbols, by number, with late marks, by the output sections whose edges are told. Looks at each symbol of the prelude
/// once.
pub(crate) fn with_late_marks(
    link: &LinkInput,
    told: &[bool],
    flags: List<ValueFlags>,
) -> List<ValueFlags>
    requires { IsWellFormed link.now }
    ensures { result ≡ all_flags link.now told.now flags }
{
    let mut flags = flags.into_vec();
    if let Some(prelude) = link.groups.file(FIRST) {
        mark_symbols(link, told, prelude, &mut flags);
    }
    List::from_vec(flags)
}

/// Marks the symbols of the first file that are told late.
fn mark_symbols(link: &LinkInput, told: &[bool], first: &InputFile, flags: &mut Vec<ValueFlags>)
    requires { length first.now.symbols < 2 ^ 32 }
    ensures { flags.new.items ≡ marked_from link.now told.now first.now.kind 0 first.now.symbols flags.old.items }
{
    for (index, symbol) in first.symbols.as_slice().iter().enumerate() {
        mark(link, told, first.kind, index as u32, symbol, flags);
    }
}

/// Marks a symbol of a file of a kind, with this number, if it is told late.
fn mark(
    link: &LinkInput,
    told: &[bool],
    kind: FileKind,
    number: u32,
    symbol: &InputSymbol,
    flags: &mut Vec<ValueFlags>,
)
    ensures { flags.new.items ≡ marked_at link.now told.now kind number symbol.now flags.old.items }
{
    let index = number as usize;
    if index < flags.len() {
        let id = SymbolId::from_u32(number);
        flags[index] = late_flags(link, told, kind, id, symbol, flags[index]);
    }
}
