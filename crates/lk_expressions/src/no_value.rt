//! Why an expression has no value.

use std::fmt;

/// Why an expression has no value; of several causes the first one, from left to right.
#[derive(Clone, Copy, Debug, PartialEq, Eq)]
pub enum NoValue {
    /// A symbol isn't defined.
    Missing,
    /// What is named has no address, or none yet.
    NoAddress,
    /// A symbol is named by its own expression.
    SelfReference,
    DivideByZero,
    /// A number is below 0 or above 2^64 - 1.
    Overflow,
}

/// The cause, as `missing symbol`.
impl fmt::Display for NoValue {
    ghost use Rattle.std.specs.Prelude.{Some};
    ghost use Rattle.lk_expressions.specs.ExpressionTexts.{cause_text};

    ghost output = { λ cause. Some (cause_text cause) };

    fn fmt<W: fmt::Write>(&self, f: &mut fmt::Formatter<W>) -> fmt::Result {
        match self {
            NoValue::Missing => write!(f, "missing symbol"),
            NoValue::NoAddress => write!(f, "no address"),
            NoValue::SelfReference => write!(f, "self reference"),
            NoValue::DivideByZero => write!(f, "division by zero"),
            NoValue::Overflow => write!(f, "overflow"),
        }
    }
}
