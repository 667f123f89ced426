//! What symbols stand for in the output.

ghost use Rattle.std.specs.Prelude.{◌≡◌, Result, Ok, Err};
ghost use Rattle.lk_link.specs.Flags.{has_flag};
ghost use Rattle.lk_link.specs.declared.flags.TheConstants.ValueFlags as flag;
ghost use Rattle.lk_link.specs.Resolutions.{address_of, index_of};

use crate::flags::ValueFlags;

/// What a symbol stands for in the output (libwild: `Resolution`).
#[derive(Clone, Copy, Debug, PartialEq, Eq)]
pub struct Resolution {
    /// An address, or a number that is none.
    pub raw_value: u64,
    /// What is known of the value, and what is wanted of it.
    pub flags: ValueFlags,
    /// The number of its entry in the dynamic symbol table, if it has one.
    pub dynamic: Option<u32>,
    /// The address of its first byte in the part `got`, if it has any there.
    pub got: Option<u64>,
    /// The address of its first byte in the part `plt`, if it has any there.
    pub plt: Option<u64>,
}

/// A value isn't an address that is known when the link ends.
#[derive(Clone, Copy, Debug, PartialEq, Eq)]
pub struct NotAnAddress;

/// A symbol has no entry in the dynamic symbol table.
#[derive(Clone, Copy, Debug, PartialEq, Eq)]
pub struct NoDynamicIndex;

impl Resolution {
    /// What is known of the value, and what is wanted of it.
    pub fn flags(&self) -> ValueFlags
        ensures { result ≡ self.now.flags }
    {
        self.flags
    }

    /// An address, or a number that is none.
    pub fn value(&self) -> u64
        ensures { result ≡ self.now.raw_value }
    {
        self.raw_value
    }

    /// The value that a symbol table tells: the same.
    pub fn value_for_symbol_table(&self) -> u64
        ensures { result ≡ self.now.raw_value }
    {
        self.raw_value
    }

    /// Whether the value is a number and no address.
    pub fn is_absolute(&self) -> bool
        ensures { result ≡ has_flag flag.ABSOLUTE.0 self.now.flags.0 }
    {
        self.flags.is_absolute()
    }

    /// The value, if it is an address that is known when the link ends; refused exactly where it is absolute or dynamic.
    pub fn address(&self) -> Result<u64, NotAnAddress>
        ensures { result ≡ address_of self.now }
    {
        if !self.flags.has_link_time_address() {
            return Err(NotAnAddress);
        }
        Ok(self.raw_value)
    }

    /// The number of its entry in the dynamic symbol table; refused exactly where it has none.
    pub fn dynamic_symbol_index(&self) -> Result<u32, NoDynamicIndex>
        ensures { result ≡ index_of self.now }
    {
        self.dynamic.ok_or(NoDynamicIndex)
    }

    /// The address of its first byte in the part `got`, if it has any there.
    pub fn got(&self) -> Option<u64>
        ensures { result ≡ self.now.got }
    {
        self.got
    }

    /// The address of its first byte in the part `plt`, if it has any there.
    pub fn plt(&self) -> Option<u64>
        ensures { result ≡ self.now.plt }
    {
        self.plt
    }
}
