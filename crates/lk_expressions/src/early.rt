//! Expressions while sections are placed.

ghost use Rattle.std.specs.Prelude.{◌≡◌};
ghost use Rattle.lk_expressions.specs.KnownThen.{early_of};
ghost use Rattle.lk_expressions.specs.Surroundings.{by_definition, early_symbol, symbol_value};

use crate::evaluation::Surroundings;
use crate::known::{item, length, origin, size_of, start_of};
use crate::no_value::NoValue;
use crate::placed::PlacedRecords;
use crate::positions::SymbolPositions;
use lk_link::expression::Operand;
use lk_link::ids::{OutputSectionId, SymbolId};
use lk_link::link::LinkInput;
use lk_link::symbol::SymbolPlacement;

/// What is known while sections are placed.
#[derive(Drop)]
pub struct EarlySurroundings<'a, R: PlacedRecords> {
    /// The link whose plan has the expression.
    pub link: &'a LinkInput,
    /// The location counter.
    pub dot: u64,
    /// The bytes of the headers.
    pub headers: u64,
    /// Origin and length in bytes of each region, by number.
    pub regions: &'a [(u64, u64)],
    /// By symbol: what constant redirects are worth.
    pub constants: &'a [Option<Result<u64, NoValue>>],
    /// What is placed.
    pub records: &'a R,
    /// Where symbols stand in their parts.
    pub positions: &'a SymbolPositions,
}

impl<R: PlacedRecords> EarlySurroundings<'_, R> {
    ghost use Rattle.std.specs.Prelude.{Some, slice_get};
    ghost use Rattle.lk_expressions.specs.Surroundings.{address_of, constant_value, flat};

    /// The address of a symbol that has a place in a part.
    fn address(&self, definition: SymbolId) -> Result<u64, NoValue>
        ensures { result ≡ address_of (R.part_of self.now.records.now) (flat (slice_get self.now.positions.now definition)) }
    {
        let Some(position) = self.positions.get(definition) else {
            return Err(NoValue::NoAddress);
        };
        match self.records.part(position.part) {
            None => Err(NoValue::NoAddress),
            Some(part) => part
                .mem_offset
                .checked_add(position.offset)
                .ok_or(NoValue::Overflow),
        }
    }

    /// The value of a symbol that is a constant redirect.
    fn constant(&self, definition: SymbolId) -> Result<u64, NoValue>
        ensures { result ≡ constant_value (flat (slice_get self.now.constants.now definition)) }
    {
        match item(self.constants, definition.as_usize()) {
            None => Err(NoValue::NoAddress),
            Some(value) => value,
        }
    }

    /// The value of a symbol that stands for itself, by its placement.
    fn placed(&self, definition: SymbolId, placement: &SymbolPlacement) -> Result<u64, NoValue>
        ensures { result ≡ early_symbol (early_of R.section_of R.part_of self.now) definition placement.now }
    {
        match placement {
            SymbolPlacement::Absolute(number) => Ok(*number),
            SymbolPlacement::Section { .. } => self.address(definition),
            SymbolPlacement::Redirect { .. } => self.constant(definition),
            _ => Err(NoValue::NoAddress),
        }
    }

    /// The value of a symbol that stands for itself.
    fn definition(&self, definition: SymbolId) -> Result<u64, NoValue>
        ensures { result ≡ by_definition (early_symbol (early_of R.section_of R.part_of self.now)) self.now.link.now.groups (Some definition) }
    {
        match self.link.groups.symbol(definition) {
            None => Err(NoValue::Missing),
            Some(symbol) if symbol.at.is_undefined() => Err(NoValue::Missing),
            Some(symbol) => self.placed(definition, &symbol.at),
        }
    }

    /// The value of a symbol, by what stands for it.
    fn symbol(&self, symbol: SymbolId) -> Result<u64, NoValue>
        ensures { result ≡ symbol_value (early_symbol (early_of R.section_of R.part_of self.now)) self.now.link.now.groups symbol }
    {
        match self.link.groups.definition(symbol) {
            None => Err(NoValue::Missing),
            Some(definition) => self.definition(definition),
        }
    }
}

impl<R: PlacedRecords> Surroundings for EarlySurroundings<'_, R> {
    ghost use Rattle.lk_expressions.specs.KnownThen.{early_of};
    ghost use Rattle.lk_expressions.specs.Surroundings.{early_operand};

    ghost worth = { λ known. early_operand (early_of R.section_of R.part_of known) };

    fn value(&self, operand: Operand) -> Result<u64, NoValue> {
        match operand {
            Operand::Number(number) => Ok(number),
            Operand::Symbol(symbol) => self.symbol(symbol),
            Operand::Dot => Ok(self.dot),
            Operand::Address(section) => start_of(self.records.section(section)),
            Operand::SizeOf(section) => size_of(self.records.section(section)),
            Operand::Origin(region) => origin(self.regions, region),
            Operand::Length(region) => length(self.regions, region),
            Operand::SizeOfHeaders => Ok(self.headers),
        }
    }
}
