//! The evaluation of an expression over its tokens.

ghost use Rattle.std.specs.Prelude.{◌≡◌, length};
ghost use Rattle.lk_expressions.specs.Evaluation.{HasRoom, Steps, alone};
ghost use Rattle.lk_expressions.specs.Expressions.{IsShallow, expression_value};

use crate::no_value::NoValue;
use crate::operators::apply;
use crate::stack::Stack;
use lk_link::expression::{Expression, Operand, Token};

/// What operands are worth where an expression is evaluated.
pub(crate) trait Surroundings {
    ghost use Rattle.std.specs.Prelude.{◌≡◌};
    ghost use Rattle.lk_link.specs.declared.expression.Operand.{Operand};
    ghost use Rattle.lk_expressions.specs.Expressions.{Valued};

    /// The number that an operand is, or why it is none.
    ghost worth: { Self → Operand → Valued };

    /// The number that an operand is, or why it is none.
    fn value(&self, operand: Operand) -> Result<u64, NoValue>
        ensures { result ≡ worth self.now operand };
}

/// Carries out a token: an operand puts its number on the stack, and an operator takes two numbers and puts what it makes of them.
fn step<S: Surroundings>(surroundings: &S, token: Token, stack: &mut Stack) -> Result<(), NoValue>
    requires { HasRoom token (length stack.old) }
    ensures { Steps (S.worth surroundings.now) token stack.old result stack.new }
{
    match token {
        Token::Operand(operand) => {
            let number = surroundings.value(operand)?;
            stack.push(number);
            Ok(())
        }
        Token::Operator(operator) => {
            let right = stack.pop();
            let left = stack.pop();
            let number = apply(operator, left, right)?;
            stack.push(number);
            Ok(())
        }
    }
}

/// The value of an expression in its surroundings, by all its tokens.
#[tactic(auto, using(crate::proofs::Evaluations::evaluating), unfolding(crate::specs::Evaluation::run, crate::specs::Evaluation::HaveRoom))]
fn evaluate_tokens<S: Surroundings>(
    surroundings: &S,
    expression: &Expression,
) -> Result<u64, NoValue>
    requires { IsShallow expression.now }
    ensures { result ≡ expression_value (S.worth surroundings.now) expression.now }
{
    let mut stack = Stack::new();
    let tokens = expression.tokens();
    for token in tokens {
        step(surroundings, *token, &mut stack)?;
    }
    Ok(stack.pop())
}

/// The operand that tokens are, if they are one alone.
fn alone(tokens: &[Token]) -> Option<Operand>
    ensures { result ≡ alone tokens.now }
{
    match tokens {
        [Token::Operand(operand)] => Some(*operand),
        _ => None,
    }
}

/// The value of an expression in its surroundings, or the first cause, from left to right, that it has none. Takes time for each
/// token, and no memory. An operand alone wants no stack.
pub(crate) fn evaluate<S: Surroundings>(
    surroundings: &S,
    expression: &Expression,
) -> Result<u64, NoValue>
    requires { IsShallow expression.now }
    ensures { result ≡ expression_value (S.worth surroundings.now) expression.now }
{
    match alone(expression.tokens()) {
        Some(operand) => surroundings.value(operand),
        None => evaluate_tokens(surroundings, expression),
    }
}
