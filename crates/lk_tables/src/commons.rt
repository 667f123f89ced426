//! The commons that take bytes of parts: those that get a resolution.

ghost use Rattle.std.specs.Prelude.{◌≡◌, ◌++◌, [], OnOk};
ghost use Rattle.std.specs.List.{cons_option};
ghost use Rattle.lk_tables.specs.Commons.{common_at, common_of};

use crate::symbol_table::flags_at;
use lk_live::Live;
use lk_link::{FileKind, InputSymbol, PartId, SymbolId, SymbolPlacement};
use std::alloc::AllocError;

/// A common that takes bytes.
#[derive(Clone, Copy, Debug, PartialEq, Eq)]
pub struct Common {
    pub symbol: SymbolId,
    /// The part that it goes to.
    pub part: PartId,
    /// Bytes.
    pub size: u64,
}

/// The symbol with this number and placement as a common, if it is one.
fn common_at(number: SymbolId, at: &SymbolPlacement) -> Option<Common>
    ensures { result ≡ common_at number at.now }
{
    match at {
        SymbolPlacement::Common { part, size } => Some(Common {
            symbol: number,
            part: *part,
            size: *size,
        }),
        _ => None,
    }
}

/// A symbol of a file of a kind, with its number, as a common that takes bytes. Most symbols are none, by their placement.
fn common_of(live: &Live, kind: FileKind, number: SymbolId, symbol: &InputSymbol) -> Option<Common>
    ensures { result ≡ common_of live.now kind (number, symbol.now) }
{
    let common = common_at(number, &symbol.at)?;
    let flags = flags_at(live.flags.as_slice(), number.as_usize());
    if !symbol.is_wanted(kind, number, flags) {
        return None;
    }
    Some(common)
}

/// Adds a symbol of a file of a kind, with its number, if it is a common that takes bytes.
pub(crate) fn push_common(
    commons: &mut Vec<Common>,
    live: &Live,
    kind: FileKind,
    number: SymbolId,
    symbol: &InputSymbol,
) -> Result<(), AllocError>
    ensures { OnOk result (commons.new.items ≡ commons.old.items ++ cons_option (common_of live.now kind (number, symbol.now)) []) }
{
    if let Some(common) = common_of(live, kind, number, symbol) {
        commons.push(common)?;
    }
    Ok(())
}
