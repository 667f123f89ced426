//! What operators make of two numbers.

ghost use Rattle.std.specs.Prelude.{◌≡◌, Ok, ◌/◌};
ghost use Rattle.std.specs.Int.{next_multiple_of};
ghost use Rattle.lk_expressions.specs.Expressions.{applied, bounded, divided_by};

use crate::no_value::NoValue;
use lk_link::expression::Operator;

/// The quotient, rounded down.
fn divide(left: u64, right: u64) -> Result<u64, NoValue>
    ensures { result ≡ divided_by right (Ok (left / right)) }
{
    if right == 0 {
        Err(NoValue::DivideByZero)
    } else {
        Ok(left / right)
    }
}

/// The least multiple of the right number at or above the left one.
fn align(left: u64, right: u64) -> Result<u64, NoValue>
    ensures { result ≡ divided_by right (bounded (next_multiple_of left right)) }
{
    if right == 0 {
        Err(NoValue::DivideByZero)
    } else {
        left.checked_next_multiple_of(right)
            .ok_or(NoValue::Overflow)
    }
}

/// What an operator makes of the numbers on its left and its right.
pub(crate) fn apply(operator: Operator, left: u64, right: u64) -> Result<u64, NoValue>
    ensures { result ≡ applied operator left right }
{
    match operator {
        Operator::Add => left.checked_add(right).ok_or(NoValue::Overflow),
        Operator::Subtract => left.checked_sub(right).ok_or(NoValue::Overflow),
        Operator::Multiply => left.checked_mul(right).ok_or(NoValue::Overflow),
        Operator::Divide => divide(left, right),
        Operator::Align => align(left, right),
        Operator::Max => Ok(left.max(right)),
        Operator::Min => Ok(left.min(right)),
    }
}
