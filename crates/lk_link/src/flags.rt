//! The flags of symbols.

ghost use Rattle.std.specs.Prelude.{◌≡◌, ◌==◌, not, bit_or};

use bitflags::{Flag, Flags, bitflag_items};

/// What is known of a symbol's value, and what is wanted of it (libwild: `ValueFlags`). A set of bits; those that no
/// flag has a name for are kept as they are.
#[derive(Clone, Copy, Debug, PartialEq, Eq)]
pub struct ValueFlags(pub u32);

bitflag_items! {
    impl ValueFlags: u32 {
        /// The value is a number and no address.
        const ABSOLUTE = 1;
        /// The dynamic linker gives the value.
        const DYNAMIC = 2;
        /// An indirect function.
        const IFUNC = 4;
        /// Seen from this output alone, although it was global.
        const DOWNGRADE_LOCAL = 8;
        /// Names a group of sections.
        const GROUP_SIGNATURE = 16;
        /// Another definition may take its place when the program runs.
        const INTERPOSABLE = 32;
        /// Something refers to it directly.
        const DIRECT = 64;
        const GOT = 128;
        const PLT = 256;
        const GOT_TLS_OFFSET = 512;
        const GOT_TLS_MODULE = 1024;
        const GOT_TLS_DESCRIPTOR = 2048;
        /// Something asks for its size.
        const SYMBOL_SIZE = 4096;
        /// It is told to the dynamic linker.
        const EXPORT_DYNAMIC = 8192;
        /// A reference reaches only so far, and may need a thunk.
        const HAS_RANGE_LIMITED_REL = 16384;
    }
}

impl Flags for ValueFlags {
    ghost use Rattle.std.specs.Prelude.{⊤};
    ghost use Rattle.lk_link.specs.Flags.{flag_names};

    type Bits = u32;

    ghost exact = { ⊤ };

    ghost table = { flag_names };

    ghost set_of = { λ f. f.0 };

    fn flags<'a>() -> &'a [Flag<ValueFlags>] {
        ValueFlags::FLAGS
    }

    fn bits(&self) -> u32 {
        self.0
    }

    fn from_bits_retain(bits: u32) -> ValueFlags {
        ValueFlags(bits)
    }
}

/// The flags that give a symbol a resolution, together: from `DIRECT` to `EXPORT_DYNAMIC`.
pub const RESOLUTION: u32 = 16320;

/// The flags that give a symbol an entry of a table, together: from `GOT` to `GOT_TLS_DESCRIPTOR`.
pub const TABLE_ENTRIES: u32 = 3968;

/// The flags that give a symbol an entry of the GOT, together: its own, and the three kinds of thread-local ones.
pub const GOT_ENTRIES: u32 = 3712;

impl ValueFlags {
    ghost use Rattle.lk_link.specs.Flags.{has_flag, has_resolution, has_link_time_address, wants_got_entry, wants_table_entry};

    /// Whether something wants the symbol's value, an entry or its size, so that it gets a resolution
    /// (libwild: `has_resolution`).
    pub fn has_resolution(self) -> bool
        ensures { result ≡ has_resolution self.0 }
    {
        self.intersects(ValueFlags(RESOLUTION))
    }

    /// Whether something wants an entry of the symbol in a table: of the PLT, of the GOT, or a thread-local one of the GOT.
    pub fn wants_table_entry(self) -> bool
        ensures { result ≡ wants_table_entry self.0 }
    {
        self.intersects(ValueFlags(TABLE_ENTRIES))
    }

    /// Whether something wants an entry of the symbol in the GOT: its own, or a thread-local one.
    pub fn wants_got_entry(self) -> bool
        ensures { result ≡ wants_got_entry self.0 }
    {
        self.intersects(ValueFlags(GOT_ENTRIES))
    }

    /// Whether something wants an entry of the symbol in the PLT.
    pub fn wants_plt_entry(self) -> bool
        ensures { result ≡ has_flag Self.PLT.0 self.0 }
    {
        self.contains(ValueFlags::PLT)
    }

    /// Whether the value is an address that is known when the link ends: neither absolute nor dynamic.
    pub fn has_link_time_address(self) -> bool
        ensures { result ≡ has_link_time_address self.0 }
    {
        !self.is_absolute() && !self.is_dynamic()
    }

    /// Whether the value is a number and no address.
    pub fn is_absolute(self) -> bool
        ensures { result ≡ has_flag Self.ABSOLUTE.0 self.0 }
    {
        self.contains(ValueFlags::ABSOLUTE)
    }

    /// Whether the dynamic linker gives the value.
    pub fn is_dynamic(self) -> bool
        ensures { result ≡ has_flag Self.DYNAMIC.0 self.0 }
    {
        self.contains(ValueFlags::DYNAMIC)
    }

    /// Whether another definition may take its place when the program runs.
    pub fn is_interposable(self) -> bool
        ensures { result ≡ has_flag Self.INTERPOSABLE.0 self.0 }
    {
        self.contains(ValueFlags::INTERPOSABLE)
    }

    /// Whether it is seen from this output alone, although it was global.
    pub fn is_downgraded_to_local(self) -> bool
        ensures { result ≡ has_flag Self.DOWNGRADE_LOCAL.0 self.0 }
    {
        self.contains(ValueFlags::DOWNGRADE_LOCAL)
    }

    /// Whether it is told to the dynamic linker.
    pub fn needs_export_dynamic(self) -> bool
        ensures { result ≡ has_flag Self.EXPORT_DYNAMIC.0 self.0 }
    {
        self.contains(ValueFlags::EXPORT_DYNAMIC)
    }

    /// The flags of both.
    pub fn merge(self, other: ValueFlags) -> ValueFlags
        ensures { result.0 ≡ bit_or self.0 other.0 }
    {
        self.union(other)
    }
}
