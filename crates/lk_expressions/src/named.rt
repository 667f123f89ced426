//! Whether expressions name symbols: one, or those of a plan.

ghost use Rattle.std.specs.Prelude.{◌≡◌};
ghost use Rattle.std.specs.List.{list_all};
ghost use Rattle.lk_link.specs.ExpressionRules.{operand_passes};
ghost use Rattle.lk_expressions.specs.Named.{is_no_symbol, loads_by_none, moves_by_none, names_no_symbol, names_none};

use lk_link::expression::{Expression, Operand, Token};
use lk_link::plan::{OrderEvent, Plan, PlanSection};

/// Whether an operand is no symbol.
fn is_no_symbol(operand: Operand) -> bool
    ensures { result ≡ is_no_symbol operand }
{
    match operand {
        Operand::Symbol(_) => false,
        _ => true,
    }
}

/// Whether a token is none.
fn passes(token: Token) -> bool
    ensures { result ≡ operand_passes is_no_symbol token }
{
    match token {
        Token::Operand(operand) => is_no_symbol(operand),
        Token::Operator(_) => true,
    }
}

/// Whether no token is one.
fn all_pass(tokens: &[Token]) -> bool
    ensures { result ≡ list_all (operand_passes is_no_symbol) tokens.now }
{
    tokens.iter().all(|token| passes(*token))
}

/// Whether an expression names no symbol.
fn names_none(expression: &Expression) -> bool
    ensures { result ≡ names_none expression.now }
{
    all_pass(expression.tokens())
}

/// Whether the expression of an event names no symbol, if it has one.
fn moves_by_none(event: &OrderEvent) -> bool
    ensures { result ≡ moves_by_none event.now }
{
    match event {
        OrderEvent::SetLocation(location) => names_none(location),
        OrderEvent::SetLocationRelative(location, _) => names_none(location),
        OrderEvent::SetSectionAddress(location) => names_none(location),
        _ => true,
    }
}

/// Whether the load address of a section names none, if it has one.
fn loads_by_none(section: &PlanSection) -> bool
    ensures { result ≡ loads_by_none section.now }
{
    match &section.at {
        None => true,
        Some(expression) => names_none(expression),
    }
}

/// Whether no event's names one.
fn all_move_by_none(events: &[OrderEvent]) -> bool
    ensures { result ≡ list_all moves_by_none events.now }
{
    events.iter().all(|event| moves_by_none(event))
}

/// Whether no section's does.
fn all_load_by_none(sections: &[PlanSection]) -> bool
    ensures { result ≡ list_all loads_by_none sections.now }
{
    sections.iter().all(|section| loads_by_none(section))
}

/// Whether no expression that is evaluated while a plan is placed names a symbol: neither the base, nor that of an event or of a load
/// address; regions are by numbers alone. Takes time for each token.
pub fn names_no_symbol(plan: &Plan) -> bool
    ensures { result ≡ names_no_symbol plan.now }
{
    names_none(&plan.base)
        && all_move_by_none(plan.events.as_slice())
        && all_load_by_none(plan.sections.as_slice())
}
