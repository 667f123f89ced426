//! How deep expressions are.
//!
//! An expression's tokens are walked from back to front: its operator comes first, then its right expression, then its left one. So
//! the depth at which each expression stands is known before it comes, and what is too deep is refused at its operator. The depths
//! that wait are no more than an expression may be deep.

ghost use Rattle.std.specs.Prelude.{◌≡◌, ◌&&◌, ◌∷◌, List, nat_le};
ghost use Rattle.lk_link.specs.ExpressionRules.{depth};
ghost use Rattle.lk_check.specs.DepthWalk.{are_shallow, Rise};
ghost use Rattle.lk_link.specs.declared.expression.Token.{Token};
ghost use Rattle.lk_link.specs.declared.limits.TheConstants.{MOST_DEPTH};

use crate::waiting::Depths;
use lk_link::expression::{Expression, Token};
use lk_link::limits::MOST_DEPTH;

/// Whether an expression isn't too deep. Takes time for each token, and no memory.
#[tactic(auto, using(crate::proofs::DepthLemmas::walk))]
pub fn is_shallow(expression: &Expression) -> bool
    ensures { result ≡ nat_le (depth expression.now) MOST_DEPTH }
{
    let tokens = expression.tokens();
    let mut depths = Depths::new();
    depths.push(1);
    for done in 0..tokens.len() {
        if !goes_on(tokens[tokens.len() - 1 - done], &mut depths) {
            return false;
        }
    }
    true
}

/// Takes the depth of the next expression; of what joins two, those of both wait in its place. Answers false where they are too deep.
#[tactic(auto, using(crate::proofs::DepthLemmas::nothing_waits), unfolding(crate::specs::DepthWalk::are_shallow, crate::specs::DepthWalk::Rise))]
fn goes_on(token: Token, depths: &mut Depths) -> bool
    requires { Rise depths.old }
    ensures exact { (ts : List Token) → are_shallow (token ∷ ts) depths.old ≡ (result && are_shallow ts depths.new) }
    ensures rise { Rise depths.new }
{
    let Some(depth) = depths.pop() else {
        return true;
    };
    match token {
        Token::Operand(_) => true,
        Token::Operator(_) => {
            if depth >= MOST_DEPTH {
                return false;
            }
            depths.push(depth + 1);
            depths.push(depth + 1);
            true
        }
    }
}
