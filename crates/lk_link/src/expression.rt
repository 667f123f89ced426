//! Expressions of the plan and of symbols: trees of operands and operators. The code keeps a tree as one list of small
//! tokens in postfix order, so that it is made, read and dropped by loops, and no stack of calls grows with it.

ghost use Rattle.std.specs.Prelude.{◌≡◌, IfOk};

use crate::ids::{OutputSectionId, RegionId, SymbolId};
use crate::list::List;
use std::alloc::{AllocError, Global};
use std::marker::Model;

/// What an expression is made of.
#[derive(Clone, Copy, Debug, PartialEq, Eq)]
pub enum Operand {
    /// The number itself.
    Number(u64),
    /// A symbol's value.
    Symbol(SymbolId),
    /// The location counter.
    Dot,
    /// Where an output section starts in memory.
    Address(OutputSectionId),
    /// The bytes that an output section takes in memory.
    SizeOf(OutputSectionId),
    /// Where a region starts.
    Origin(RegionId),
    /// How long a region is.
    Length(RegionId),
    /// The bytes of the file header and the program headers.
    SizeOfHeaders,
}

/// What joins two expressions.
#[derive(Clone, Copy, Debug, PartialEq, Eq)]
pub enum Operator {
    Add,
    Subtract,
    Multiply,
    Divide,
    /// The least multiple of the right expression at or above the left one.
    Align,
    Max,
    Min,
}

/// A piece of an expression in postfix order.
#[derive(Clone, Copy, Debug, PartialEq, Eq)]
pub enum Token {
    Operand(Operand),
    Operator(Operator),
}

/// An expression (libwild: `Expression`). Contracts see a tree; its tokens stand in postfix order: those of the left
/// expression, those of the right one, their operator.
#[derive(Drop)]
pub struct Expression {
    tokens: List<Token>,
}

impl Model for Expression {
    ghost use Rattle.lk_link.specs.Expressions.{Term};
    ghost use Rattle.lk_link.specs.StoredExpressions.{term_code};

    ghost Value = { Term };

    ghost coded = { term_code };

    ghost use Rattle.lk_link.specs.Expressions.{term_of, IsPostfix};

    ghost view = { λ a. term_of a.tokens };

    ghost invariant = { λ a. IsPostfix a.tokens };
}

impl Expression {
    ghost use Rattle.lk_link.specs.Expressions.{Term, number, as_number, postfix};

    /// The expression of which these are the tokens, in postfix order.
    pub fn from_tokens(tokens: List<Token>) -> Expression
        requires { (t : Term) × (tokens ≡ postfix t) }
        ensures { (t : Term) → tokens ≡ postfix t → result ≡ t }
    {
        Expression { tokens }
    }

    /// Its tokens in postfix order, lent.
    pub fn tokens(&self) -> &[Token]
        ensures { result.now ≡ postfix self.now }
    {
        self.tokens.as_slice()
    }

    /// The expression of a number.
    pub fn number(alloc: Global, value: u64) -> Result<Expression, AllocError>
        ensures { IfOk result (λ e. e ≡ number value) }
    {
        let tokens = Vec::from_slice(alloc, &[Token::Operand(Operand::Number(value))])?;
        Ok(Expression {
            tokens: List::from_vec(tokens),
        })
    }

    /// The number that the expression is; none where it is another expression.
    pub fn as_number(&self) -> Option<u64>
        ensures { result ≡ as_number self.now }
    {
        match self.tokens.as_slice() {
            [Token::Operand(Operand::Number(value))] => Some(*value),
            _ => None,
        }
    }
}
