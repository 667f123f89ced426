//! What depends on the machine that a link is for.

ghost use Rattle.std.specs.Prelude.{◌≡◌, ◌+◌, ◌%◌, ◌^◌, ◌<◌, ◌≤◌, ℕ, IsTrue, SomeIff};
ghost use Rattle.lk_link.specs.Alignments.{is_alignment};
ghost use Rattle.lk_link.specs.TableSizes.{AreLawful, HaveRoom, TableSizes, behind, bytes_for, resolution_at};

use crate::alignment::Alignment;
use crate::flags::ValueFlags;
use crate::resolution::Resolution;
use crate::tables::{Allocation, TableCursors};
use bitflags::Flags;

/// A platform (libwild: `Platform`).
pub trait Platform {
    /// Where memory starts for a load segment, by its alignment, the file cursor and the memory cursor.
    ghost segment_start: { Self → ℕ → ℕ → ℕ → ℕ };

    /// What tables take: the entries of symbols, by their flags, and headers.
    ghost table_sizes: { Self → TableSizes };

    /// Where memory starts for a load segment; none where that passes 2^64 - 1
    /// (libwild: `align_load_segment_start`).
    fn align_load_segment_start(&self, alignment: Alignment, file: u64, memory: u64) -> Option<u64>
        ensures { SomeIff result (segment_start self.now alignment file memory < 2 ^ 64) (segment_start self.now alignment file memory) };

    /// The bytes that a symbol with these flags takes in the parts `got` and `plt` (libwild: `allocate_resolution`).
    fn allocate_resolution(&self, flags: ValueFlags) -> Allocation
        ensures { result ≡ (table_sizes self.now).allocation flags.0 };

    /// The resolution of a symbol with these flags, this value and this number in the dynamic symbol table. Its entries take
    /// their bytes at the cursors, which have room for them and move behind them (libwild: `create_resolution`).
    fn create_resolution(
        &self,
        flags: ValueFlags,
        raw_value: u64,
        dynamic: Option<u32>,
        cursors: &mut TableCursors,
    ) -> Resolution
        requires room { HaveRoom cursors.now ((table_sizes self.now).allocation flags.0) }
        ensures made { result ≡ resolution_at cursors.old ((table_sizes self.now).allocation flags.0) flags raw_value dynamic }
        ensures moved { cursors.new ≡ behind cursors.old ((table_sizes self.now).allocation flags.0) };

    /// The bytes of an entry of a symbol table.
    fn symbol_entry(&self) -> u64
        ensures { result ≡ (table_sizes self.now).symbol_entry };

    /// The bytes of the file header.
    fn file_header(&self) -> u64
        ensures { result ≡ (table_sizes self.now).file_header };

    /// The bytes of the header of a segment.
    fn program_header(&self) -> u64
        ensures { result ≡ (table_sizes self.now).program_header };

    /// The bytes of the header of a section.
    fn section_header(&self) -> u64
        ensures { result ≡ (table_sizes self.now).section_header };

    /// It is at or above the memory cursor.
    ghost starts_after: { (p : Self) (a f m : ℕ) → IsTrue (is_alignment a) → m ≤ segment_start p a f m };

    /// It is congruent to the file cursor.
    ghost starts_congruent: { (p : Self) (a f m : ℕ) → IsTrue (is_alignment a) → segment_start p a f m % a ≡ f % a };

    /// A part has bytes only for flags that ask for them, and entries and headers have at most 65,536 bytes.
    ghost sizes_are_lawful: { (p : Self) → AreLawful (table_sizes p) };
}

/// A small platform of 64 bits: a load segment starts at the next multiple of its alignment, plus what the file
/// cursor has past one. In the part `got` a symbol takes 8 bytes for its address, 8 for a thread-local offset, 16 for a module with
/// an offset and 16 for a descriptor, in this order, each if its flags ask for it; in the part `plt` 16 for a jump.
#[derive(Clone, Copy, Debug, PartialEq, Eq)]
pub struct Small64;

impl Platform for Small64 {
    ghost use Rattle.lk_link.specs.Target.{small64, small64_is_lawful};
    ghost use Rattle.lk_link.specs.TableSizes.{small64_sizes, small64_sizes_are_lawful};

    ghost segment_start = { λ _. small64.segment_start };

    ghost table_sizes = { λ _. small64_sizes };

    ghost starts_after = { λ _. small64_is_lawful.after };

    ghost starts_congruent = { λ _. small64_is_lawful.congruent };

    ghost sizes_are_lawful = { λ _. small64_sizes_are_lawful };

    fn align_load_segment_start(
        &self,
        alignment: Alignment,
        file: u64,
        memory: u64,
    ) -> Option<u64> {
        alignment
            .align_up(memory)?
            .checked_add(file % alignment.value())
    }

    fn allocate_resolution(&self, flags: ValueFlags) -> Allocation {
        let got = bytes_for(flags, ValueFlags::GOT, 8)
            + bytes_for(flags, ValueFlags::GOT_TLS_OFFSET, 8)
            + bytes_for(flags, ValueFlags::GOT_TLS_MODULE, 16)
            + bytes_for(flags, ValueFlags::GOT_TLS_DESCRIPTOR, 16);
        let plt = bytes_for(flags, ValueFlags::PLT, 16);
        Allocation { got, plt }
    }

    fn create_resolution(
        &self,
        flags: ValueFlags,
        raw_value: u64,
        dynamic: Option<u32>,
        cursors: &mut TableCursors,
    ) -> Resolution {
        cursors.take(self.allocate_resolution(flags), flags, raw_value, dynamic)
    }

    fn symbol_entry(&self) -> u64 {
        24
    }

    fn file_header(&self) -> u64 {
        64
    }

    fn program_header(&self) -> u64 {
        56
    }

    fn section_header(&self) -> u64 {
        64
    }
}

/// So many bytes, if a flag is set. At most 16.
fn bytes_for(flags: ValueFlags, one: ValueFlags, bytes: u64) -> u64
    requires few { bytes ≤ 16 }
    ensures exactly { result ≡ bytes_for one.0 bytes flags.0 }
    ensures few { result ≤ 16 }
{
    if flags.contains(one) { bytes } else { 0 }
}
