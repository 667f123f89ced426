//! Where an input section stands, in as few bytes as may be.

ghost use Rattle.std.specs.Prelude.{◌≡◌, option_map, slice_index};
ghost use Rattle.lk_answers.specs.SectionResolutions.{address_told, resolution_told, whole_resolution};

use lk_link::marks::is_marked;
use lk_link::{Resolution, ValueFlags};
use std::marker::Model;

/// The address of an input section, or none (libwild: `SectionResolution`). Contracts see a number: 2^64 - 1 stands for none. So an
/// empty section that stands there has none either; its address is read from `Layout::section_addresses`.
#[derive(Clone, Copy, Debug, PartialEq, Eq)]
pub struct SectionResolution {
    address: u64,
}

impl Model for SectionResolution {
    ghost use Rattle.std.specs.Prelude.{ℕ};

    ghost Value = { ℕ };

    ghost view = { λ a. a.address };

    ghost inverse = { λ n. record { address = n } };
}

impl SectionResolution {
    ghost use Rattle.lk_answers.specs.SectionResolutions.{NO_ADDRESS};

    /// That of a section without an address, as one that isn't live or that is merged.
    pub fn none() -> SectionResolution
        ensures { result ≡ NO_ADDRESS }
    {
        SectionResolution { address: u64::MAX }
    }

    /// That of a section at this address.
    pub fn at(address: u64) -> SectionResolution
        ensures { result ≡ address }
    {
        SectionResolution { address }
    }

    /// The address, if there is one.
    pub fn address(self) -> Option<u64>
        ensures { result ≡ address_told self }
    {
        if self.address == u64::MAX {
            None
        } else {
            Some(self.address)
        }
    }

    /// What a symbol at the section's start would stand for, if there is an address: that alone, without flags and entries.
    pub fn full_resolution(self) -> Option<Resolution>
        ensures { result ≡ option_map whole_resolution (address_told self) }
    {
        let raw_value = self.address()?;
        Some(Resolution {
            raw_value,
            flags: ValueFlags(0),
            dynamic: None,
            got: None,
            plt: None,
        })
    }
}

/// The resolutions of the sections of a file, lent by a layout. Contracts see the list of them.
#[derive(Drop)]
pub struct SectionResolutions<'a> {
    /// The marks of live input sections, and their addresses, from the file's first on, and perhaps more.
    pub(crate) marks: &'a [bool],
    pub(crate) addresses: &'a [u64],
    pub(crate) count: usize,
}

impl<'a> Model for SectionResolutions<'a> {
    ghost use Rattle.std.specs.Prelude.{List, ℕ};
    ghost use Rattle.lk_answers.specs.SectionResolutions.{resolutions_of};

    ghost Value = { List ℕ };

    ghost view = { λ a. resolutions_of a.marks.now a.addresses.now a.count };
}

/// The resolution of a section, by its mark and its address.
fn resolution_of(live: bool, address: u64) -> SectionResolution
    ensures { result ≡ resolution_told live address }
{
    if live {
        SectionResolution::at(address)
    } else {
        SectionResolution::none()
    }
}

/// The number at an index; 0 where there is none.
pub(crate) fn number_at(numbers: &[u64], index: usize) -> u64
    ensures { result ≡ slice_index numbers.now index }
{
    match numbers.get(index) {
        Some(number) => *number,
        None => 0,
    }
}

impl SectionResolutions<'_> {
    ghost use Rattle.std.specs.Prelude.{length, slice_get};

    /// How many sections the file has.
    pub fn len(&self) -> usize
        ensures { result ≡ length self.now }
    {
        self.count
    }

    /// That of the section with this index, if there is one. Takes constant time.
    pub fn get(&self, index: usize) -> Option<SectionResolution>
        ensures { result ≡ slice_get self.now index }
    {
        if index < self.count {
            let live = is_marked(self.marks, index);
            Some(resolution_of(live, number_at(self.addresses, index)))
        } else {
            None
        }
    }
}
