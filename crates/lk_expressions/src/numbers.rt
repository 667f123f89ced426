//! Expressions of numbers and arithmetic alone.

use crate::evaluation::Surroundings;
use crate::no_value::NoValue;
use lk_link::expression::Operand;

/// Where nothing has an address.
#[derive(Clone, Copy, Debug, PartialEq, Eq)]
pub(crate) struct NumbersAlone;

impl Surroundings for NumbersAlone {
    ghost use Rattle.lk_expressions.specs.Surroundings.{number_alone};

    ghost worth = { λ _. number_alone };

    fn value(&self, operand: Operand) -> Result<u64, NoValue> {
        match operand {
            Operand::Number(number) => Ok(number),
            _ => Err(NoValue::NoAddress),
        }
    }
}
