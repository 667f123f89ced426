//! What expressions are worth.
//!
//! An expression is evaluated from left to right over its tokens in postfix order, with the numbers that wait for an operator in
//! an array of fixed length, since an expression is at most `MOST_DEPTH` deep: so it takes no memory, and no call stack that grows.
//! The first cause ends it, which is the first from left to right.

ghost use Rattle.std.specs.Prelude.{◌≡◌};
ghost use Rattle.lk_expressions.specs.Expressions.{IsShallow, expression_value};
ghost use Rattle.lk_expressions.specs.KnownThen.{early_of, late_of};
ghost use Rattle.lk_expressions.specs.Surroundings.{early_operand, late_operand, number_alone};

use crate::early::EarlySurroundings;
use crate::evaluation::evaluate;
use crate::known_values::KnownValues;
use crate::late::LateSurroundings;
use crate::no_value::NoValue;
use crate::numbers::NumbersAlone;
use crate::placed::PlacedRecords;
use lk_link::expression::Expression;
use lk_link::link::LinkInput;

/// The value of an expression of numbers and arithmetic alone; all else in it has no address.
pub fn evaluate_const(_link: &LinkInput, expression: &Expression) -> Result<u64, NoValue>
    requires { IsShallow expression.now }
    ensures { result ≡ expression_value number_alone expression.now }
{
    evaluate(&NumbersAlone, expression)
}

/// The value of an expression while sections are placed (libwild: `evaluate_early_expression`). Takes time for each token.
pub fn evaluate_early_expression<R: PlacedRecords>(
    known: &EarlySurroundings<'_, R>,
    expression: &Expression,
) -> Result<u64, NoValue>
    requires { IsShallow expression.now }
    ensures { result ≡ expression_value (early_operand (early_of R.section_of R.part_of known.now)) expression.now }
{
    evaluate(known, expression)
}

/// The value of the expression of a redirect when all is placed. Takes time for each token.
pub fn evaluate_expression<V: KnownValues>(
    known: &LateSurroundings<'_, V>,
    expression: &Expression,
) -> Result<u64, NoValue>
    requires { IsShallow expression.now }
    ensures { result ≡ expression_value (late_operand (late_of V.value_of known.now)) expression.now }
{
    evaluate(known, expression)
}
