//! Expressions when all is placed.

ghost use Rattle.std.specs.Prelude.{◌≡◌};
ghost use Rattle.lk_expressions.specs.KnownThen.{late_of};
ghost use Rattle.lk_expressions.specs.Surroundings.{by_definition, late_symbol, symbol_value};

use crate::evaluation::Surroundings;
use crate::known::{length, origin, size_of, start_of};
use crate::known_values::KnownValues;
use crate::no_value::NoValue;
use crate::record::OutputRecordLayout;
use lk_link::expression::Operand;
use lk_link::ids::{OutputSectionId, SymbolId};
use lk_link::link::LinkInput;

/// What is known when all is placed.
#[derive(Drop)]
pub struct LateSurroundings<'a, V: KnownValues> {
    /// The link that it stands in.
    pub link: &'a LinkInput,
    /// The redirect whose expression it is.
    pub own: SymbolId,
    /// Where the location counter is, if it is anywhere.
    pub dot: Option<u64>,
    /// The bytes of the headers.
    pub headers: u64,
    /// Origin and length in bytes of each region, by number.
    pub regions: &'a [(u64, u64)],
    /// The records of sections.
    pub sections: &'a [OutputRecordLayout],
    /// The values of symbols so far.
    pub values: &'a V,
}

impl<V: KnownValues> LateSurroundings<'_, V> {
    ghost use Rattle.std.specs.Prelude.{Some, slice_get};

    /// The record of a section, if there is one.
    fn section(&self, section: OutputSectionId) -> Option<OutputRecordLayout>
        ensures { result ≡ slice_get self.now.sections.now section }
    {
        self.sections.get(section.as_usize()).copied()
    }

    /// The value of a symbol that stands for itself and is defined.
    fn defined(&self, definition: SymbolId) -> Result<u64, NoValue>
        ensures { result ≡ late_symbol (late_of V.value_of self.now) definition }
    {
        if definition.as_u32() == self.own.as_u32() {
            return Err(NoValue::SelfReference);
        }
        match self.values.value(definition) {
            Some(value) => Ok(value),
            None => Err(NoValue::NoAddress),
        }
    }

    /// The value of a symbol that stands for itself.
    fn definition(&self, definition: SymbolId) -> Result<u64, NoValue>
        ensures { result ≡ by_definition (λ d p. late_symbol (late_of V.value_of self.now) d) self.now.link.now.groups (Some definition) }
    {
        match self.link.groups.symbol(definition) {
            None => Err(NoValue::Missing),
            Some(symbol) if symbol.at.is_undefined() => Err(NoValue::Missing),
            Some(_) => self.defined(definition),
        }
    }

    /// The value of a symbol, by what stands for it.
    fn symbol(&self, symbol: SymbolId) -> Result<u64, NoValue>
        ensures { result ≡ symbol_value (λ d p. late_symbol (late_of V.value_of self.now) d) self.now.link.now.groups symbol }
    {
        match self.link.groups.definition(symbol) {
            None => Err(NoValue::Missing),
            Some(definition) => self.definition(definition),
        }
    }
}

impl<V: KnownValues> Surroundings for LateSurroundings<'_, V> {
    ghost use Rattle.lk_expressions.specs.KnownThen.{late_of};
    ghost use Rattle.lk_expressions.specs.Surroundings.{late_operand};

    ghost worth = { λ known. late_operand (late_of V.value_of known) };

    fn value(&self, operand: Operand) -> Result<u64, NoValue> {
        match operand {
            Operand::Number(number) => Ok(number),
            Operand::Symbol(symbol) => self.symbol(symbol),
            Operand::Dot => self.dot.ok_or(NoValue::NoAddress),
            Operand::Address(section) => start_of(self.section(section)),
            Operand::SizeOf(section) => size_of(self.section(section)),
            Operand::Origin(region) => origin(self.regions, region),
            Operand::Length(region) => length(self.regions, region),
            Operand::SizeOfHeaders => Ok(self.headers),
        }
    }
}
