//! Expressions from JSON.
//!
//! A list says by its first item what an expression is: an operand, or an operator on the expressions that the next two
//! items are. The code keeps an expression as one list of tokens in postfix order: the tokens of the left one, those of
//! the right one, the operator. So reading puts the tokens of what stands inside behind those that are there, and then
//! the operator.

ghost use Rattle.std.specs.Prelude.{◌≡◌};
ghost use Rattle.serde_json.specs.View.{view};
ghost use Rattle.lk_input.specs.ReadingExpressions.{forms};
ghost use Rattle.lk_input.specs.ReadingExpressions.{operand_of, expression_of, AddsTokens};
ghost use Rattle.lk_input.specs.ReadingSteps.{Reads, element, one_of};
ghost use Rattle.lk_input.specs.Words.{operand_text, operator_text, form_text};

use crate::read::described::{Described, one_of};
use crate::read::error::InputError;
use crate::read::member::{alone, at_most, element, fixed_list, single};
use crate::read::word::{Step, Word};
use lk_link::expression::{Expression, Operand, Operator, Token};
use lk_link::list::List;
use serde_json::Value;
use std::alloc::Global;

/// What an expression without expressions inside begins with.
#[derive(Clone, Copy)]
pub(crate) enum OperandForm {
    Number,
    Symbol,
    Dot,
    Address,
    SizeOf,
    Origin,
    Length,
    Headers,
}

#[tactic(auto, unfolding(crate::specs::Words::operand_text, crate::specs::ReadingSteps::written))]
impl Word for OperandForm {
    ghost spelling = { operand_text };

    fn text(self) -> &'static str {
        match self {
            OperandForm::Number => "num",
            OperandForm::Symbol => "sym",
            OperandForm::Dot => "dot",
            OperandForm::Address => "addr",
            OperandForm::SizeOf => "sizeof",
            OperandForm::Origin => "origin",
            OperandForm::Length => "length",
            OperandForm::Headers => "headers",
        }
    }
}

#[tactic(auto, unfolding(crate::specs::Words::operator_text, crate::specs::ReadingSteps::written))]
impl Word for Operator {
    ghost spelling = { operator_text };

    fn text(self) -> &'static str {
        match self {
            Operator::Add => "add",
            Operator::Subtract => "sub",
            Operator::Multiply => "mul",
            Operator::Divide => "div",
            Operator::Align => "align",
            Operator::Max => "max",
            Operator::Min => "min",
        }
    }
}

/// What an expression begins with.
#[derive(Clone, Copy)]
pub(crate) enum ExpressionForm {
    Operand(OperandForm),
    Operator(Operator),
}

impl Word for ExpressionForm {
    ghost spelling = { form_text };

    fn text(self) -> &'static str {
        match self {
            ExpressionForm::Operand(operand) => operand.text(),
            ExpressionForm::Operator(operator) => operator.text(),
        }
    }
}

const FORMS: [ExpressionForm; 15] = [
    ExpressionForm::Operand(OperandForm::Number),
    ExpressionForm::Operand(OperandForm::Symbol),
    ExpressionForm::Operand(OperandForm::Dot),
    ExpressionForm::Operator(Operator::Add),
    ExpressionForm::Operator(Operator::Subtract),
    ExpressionForm::Operator(Operator::Multiply),
    ExpressionForm::Operator(Operator::Divide),
    ExpressionForm::Operator(Operator::Align),
    ExpressionForm::Operator(Operator::Max),
    ExpressionForm::Operator(Operator::Min),
    ExpressionForm::Operand(OperandForm::Address),
    ExpressionForm::Operand(OperandForm::SizeOf),
    ExpressionForm::Operand(OperandForm::Origin),
    ExpressionForm::Operand(OperandForm::Length),
    ExpressionForm::Operand(OperandForm::Headers),
];

#[tactic(auto, unfolding(crate::specs::Words::operand_text, crate::specs::Words::operator_text))]
impl Described for ExpressionForm {
    ghost described = { one_of forms };

    fn read(alloc: Global, value: &Value) -> Result<ExpressionForm, InputError> {
        one_of(alloc, value, &FORMS)
    }
}

/// The operand that an expression of this form is.
#[tactic(auto, unfolding(crate::specs::ReadingExpressions::operand_of))]
fn read_operand(alloc: Global, value: &Value, form: OperandForm) -> Result<Operand, InputError>
    ensures { Reads result (operand_of form (view value.now)) }
{
    Ok(match form {
        OperandForm::Number => Operand::Number(single(alloc, value)?),
        OperandForm::Symbol => Operand::Symbol(single(alloc, value)?),
        OperandForm::Dot => alone(alloc, value, Operand::Dot)?,
        OperandForm::Address => Operand::Address(single(alloc, value)?),
        OperandForm::SizeOf => Operand::SizeOf(single(alloc, value)?),
        OperandForm::Origin => Operand::Origin(single(alloc, value)?),
        OperandForm::Length => Operand::Length(single(alloc, value)?),
        OperandForm::Headers => alone(alloc, value, Operand::SizeOfHeaders)?,
    })
}

/// Puts the tokens of an expression behind those that are there. Goes as deep as the value nests, which of a text is
/// at most 127 levels.
#[cycle(tokens)]
#[tactic(auto, using(crate::proofs::Expressions::steps))]
fn read_tokens(alloc: Global, value: &Value, tokens: &mut Vec<Token>) -> Result<(), InputError>
    ensures { AddsTokens tokens.old.items tokens.new.items result (expression_of (view value.now)) }
{
    fixed_list(alloc, value)?;
    match element(alloc, value, 0)? {
        ExpressionForm::Operand(form) => {
            let operand = read_operand(alloc, value, form)?;
            tokens.push(Token::Operand(operand))?;
            Ok(())
        }
        ExpressionForm::Operator(operator) => {
            read_tokens_at(alloc, value, 1, tokens)?;
            read_tokens_at(alloc, value, 2, tokens)?;
            at_most(alloc, value, 3)?;
            tokens.push(Token::Operator(operator))?;
            Ok(())
        }
    }
}

/// The same for the expression that is an item of a list.
#[cycle(tokens)]
#[tactic(auto, using(crate::proofs::Steps::on_their_way_out))]
fn read_tokens_at(
    alloc: Global,
    value: &Value,
    index: usize,
    tokens: &mut Vec<Token>,
) -> Result<(), InputError>
    ensures { AddsTokens tokens.old.items tokens.new.items result (element expression_of index (view value.now)) }
{
    let read = match value.get(index) {
        Some(item) => read_tokens(alloc, item, tokens),
        None => Err(InputError::misfit(alloc)),
    };
    match read {
        Ok(()) => Ok(()),
        Err(error) => Err(error.below(alloc, Step::Item(index))),
    }
}

impl Described for Expression {
    ghost described = { expression_of };

    fn read(alloc: Global, value: &Value) -> Result<Expression, InputError> {
        let mut tokens = Vec::new(alloc);
        read_tokens(alloc, value, &mut tokens)?;
        Ok(Expression::from_tokens(List::from_vec(tokens)))
    }
}
