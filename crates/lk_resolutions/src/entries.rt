//! Where the entries of symbols stand.
//!
//! A walk over all symbols, file by file, moves on two cursors, in the parts `got` and `plt`, and two counters in the dynamic symbol
//! table: so each symbol finds its own entries in constant time, and no table is made.

ghost use Rattle.std.specs.Prelude.{◌≡◌, ◌+◌, ◌<◌, ◌^◌, if◌then◌else◌, is_some, true, None};
ghost use Rattle.lk_resolutions.specs.EntryWords.{cursors_behind, made_at};

use lk_link::{NamedParts, Platform, Resolution, TableCursors, ValueFlags};
use lk_tables::DynamicNumbers;

/// Where the entries of the next symbol go.
#[derive(Clone, Copy)]
pub(crate) struct NextEntries {
    /// In the dynamic symbol table.
    pub(crate) numbers: DynamicNumbers,
    /// In `got` and `plt`; of no meaning where the plan names no part for one.
    pub(crate) cursors: TableCursors,
}

/// A cursor, where the plan names its part, else another.
fn cursor_if(is_named: bool, cursor: u64, other: u64) -> u64
    ensures { result ≡ (if is_named then cursor else other) }
{
    if is_named { cursor } else { other }
}

/// An address, where the plan names its part.
fn address_if(is_named: bool, address: Option<u64>) -> Option<u64>
    ensures { result ≡ (if is_named then address else None) }
{
    if is_named { address } else { None }
}

/// The resolution of a symbol with these flags, the value 0 and this number in the dynamic symbol table. Its entries take their bytes
/// at the cursors, as far as the plan names parts for them. The platform is asked only where the flags want an entry, as few do.
pub(crate) fn take_entries<P: Platform>(
    platform: &P,
    named: &NamedParts,
    cursors: &mut TableCursors,
    flags: ValueFlags,
    dynamic: Option<u32>,
) -> Resolution
    requires got { is_some named.now.got ≡ true → cursors.now.got + ((P.table_sizes platform.now).allocation flags.0).got < 2 ^ 64 }
    requires plt { is_some named.now.plt ≡ true → cursors.now.plt + ((P.table_sizes platform.now).allocation flags.0).plt < 2 ^ 64 }
    ensures made { result ≡ made_at named.now cursors.old ((P.table_sizes platform.now).allocation flags.0) flags 0 dynamic }
    ensures moved { cursors.new ≡ cursors_behind named.now cursors.old ((P.table_sizes platform.now).allocation flags.0) }
{
    if !flags.wants_table_entry() {
        return Resolution {
            raw_value: 0,
            flags,
            dynamic,
            got: None,
            plt: None,
        };
    }
    // Its contract says that each of both is a number of 64 bits.
    let _taken = platform.allocate_resolution(flags);
    let has_got = named.got.is_some();
    let has_plt = named.plt.is_some();
    let mut at = TableCursors {
        got: cursor_if(has_got, cursors.got, 0),
        plt: cursor_if(has_plt, cursors.plt, 0),
    };
    let resolution = platform.create_resolution(flags, 0, dynamic, &mut at);
    *cursors = TableCursors {
        got: cursor_if(has_got, at.got, cursors.got),
        plt: cursor_if(has_plt, at.plt, cursors.plt),
    };
    Resolution {
        got: address_if(has_got, resolution.got),
        plt: address_if(has_plt, resolution.plt),
        ..resolution
    }
}
