//! The input sections that are merged, by the output section that they go to.

ghost use Rattle.std.specs.Prelude.{◌≡◌, ◌≢◌, ◌+◌, ◌^◌, ◌<◌, ◌∷◌, ◌++◌, [], Bool, ℕ, Some, IfOk, OnOk, OnErr, MatchOption, length, map, slice_get, sum_by};
ghost use Rattle.lk_merge.specs.Inputs.{AreInputs, input_of, padded_len, padded_total};
ghost use Rattle.lk_merge.specs.Pieces.{MergeInput, is_terminated};

use crate::offset::LinearInputOffset;
use std::alloc::{AllocError, Global};
use std::marker::Model;

/// What input offsets are rounded up to at the end of each input, in bytes.
pub const BLOCK_SIZE: u64 = 256;

/// An input section that is merged (libwild: `StringMergeInputSection`).
#[derive(Clone, Copy)]
pub struct StringMergeInputSection<'data> {
    /// Its number over all input sections of the link.
    pub number: u32,
    pub section_data: &'data [u8],
    /// The bytes of the inputs before it, each rounded up to a multiple of 256.
    pub start_input_offset: LinearInputOffset,
    /// Whether it holds strings, and not one constant.
    pub is_string: bool,
}

impl<'data> StringMergeInputSection<'data> {
    /// Its bytes, rounded up to a multiple of 256 (libwild: `StringMergeInputSection::padded_len`).
    pub fn padded_len(&self) -> u64
        ensures { result ≡ padded_len (input_of self.now) }
    {
        (self.section_data.len() as u64).next_multiple_of(BLOCK_SIZE)
    }

    /// Whether it isn't strings, or its strings end in a zero byte.
    pub fn is_terminated(&self) -> bool
        ensures { result ≡ is_terminated (input_of self.now) }
    {
        match self.section_data {
            [.., last] => !self.is_string || *last == 0,
            [] => true,
        }
    }
}

/// The inputs of an output section, in file and section order. Contracts see the list of them.
#[derive(Drop)]
pub struct StringMergeInputSections<'data> {
    sections: Vec<StringMergeInputSection<'data>>,
    /// The bytes of all of them, each rounded up to a multiple of 256.
    total: u64,
}

impl<'data> Model for StringMergeInputSections<'data> {
    ghost use Rattle.std.specs.Prelude.{List, map};
    ghost use Rattle.lk_merge.specs.Pieces.{MergeInput};

    ghost Value = { List MergeInput };

    ghost use Rattle.lk_merge.specs.Inputs.{AreInputs, input_of};

    ghost view = { λ a. map input_of a.sections.items };

    ghost invariant = { λ a. AreInputs a.total a.sections.items };
}

impl<'data> StringMergeInputSections<'data> {
    /// No inputs; takes no memory.
    pub fn new(alloc: Global) -> StringMergeInputSections<'data>
        ensures { result ≡ [] }
    {
        StringMergeInputSections {
            sections: Vec::new(alloc),
            total: 0,
        }
    }

    /// All inputs, lent.
    pub fn as_slice(&self) -> &[StringMergeInputSection<'data>]
        ensures inputs { map input_of result.now ≡ self.now }
        ensures places { AreInputs (padded_total self.now) result.now }
    {
        self.sections.as_slice()
    }

    /// The index of the input with this number over all input sections, if it is one of these. Takes logarithmic time.
    pub(crate) fn index_of(&self, number: u32) -> Option<usize>
        ensures { MatchOption result ((k : ℕ) (x : MergeInput) → slice_get self.now k ≡ Some x → x.number ≢ number)
            (λ k. (x : MergeInput) × (slice_get self.now k ≡ Some x) × (x.number ≡ number)) }
    {
        let sections = self.sections.as_slice();
        let mut low = 0;
        let mut high = sections.len();
        while low < high {
            let middle = low + (high - low) / 2;
            if sections[middle].number < number {
                low = middle + 1;
            } else {
                high = middle;
            }
        }
        let found = sections.get(low)?;
        if found.number == number {
            Some(low)
        } else {
            None
        }
    }

    /// The same inputs once more.
    pub fn clone(&self, alloc: Global) -> Result<StringMergeInputSections<'data>, AllocError>
        ensures { IfOk result (λ same. same ≡ self.now) }
    {
        Ok(StringMergeInputSections {
            sections: Vec::from_slice(alloc, self.sections.as_slice())?,
            total: self.total,
        })
    }

    /// Adds an input behind the others: the data of the section with this number over all input sections.
    pub fn push(
        &mut self,
        number: u32,
        section_data: &'data [u8],
        is_string: bool,
    ) -> Result<(), AllocError>
        requires few { length self.old + 1 < 2 ^ 32 }
        requires behind { (k : ℕ) (x : MergeInput) → slice_get self.old k ≡ Some x → x.number < number }
        requires fits { padded_total self.old + padded_len (record { number = number; bytes = section_data.now; strings = is_string }) < 2 ^ 63 }
        ensures ok { OnOk result (self.new ≡ self.old ++ record { number = number; bytes = section_data.now; strings = is_string } ∷ []) }
        ensures err { OnErr result (self.new ≡ self.old) }
    {
        let section = StringMergeInputSection {
            number,
            section_data,
            start_input_offset: LinearInputOffset::from_u64(self.total),
            is_string,
        };
        let padded_len = section.padded_len();
        match self.sections.push(section) {
            Ok(()) => {
                self.total += padded_len;
                Ok(())
            }
            Err(_) => Err(AllocError),
        }
    }
}

/// The bytes of all inputs of an output section, each rounded up to a multiple of 256 (libwild: `total_input_size`).
pub fn total_input_size(sections: &StringMergeInputSections<'_>) -> u64
    ensures { result ≡ padded_total sections.now }
{
    sections.total
}
