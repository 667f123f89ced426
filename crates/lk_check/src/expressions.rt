//! The rule on expressions: those of the base, of regions, of where sections are loaded from, of events, and of symbols.

ghost use Rattle.std.specs.Prelude.{◌≡◌, ◌≤◌, not, option_map, position, true};
ghost use Rattle.std.specs.List.{list_all};
ghost use Rattle.lk_link.specs.declared.fault.Rule.TheVariants as rule;
ghost use Rattle.lk_link.specs.ExpressionRules.{all_operands, has_good_address, has_good_move, is_good_expression, is_good_redirect, is_good_region, is_operand_there, operand_passes};
ghost use Rattle.lk_link.specs.Files.{AreNumbered};
ghost use Rattle.lk_link.specs.Symbols.{all_files, symbol_count};
ghost use Rattle.lk_check.specs.ByGroups.{has_good_files};
ghost use Rattle.lk_check.specs.FirstAnswer.{first_bad};
ghost use Rattle.lk_check.specs.FirstBadExpression.{first_bad_plan_expression, first_bad_redirect};
ghost use Rattle.lk_check.specs.FirstFault.{first_place, symbol_place};

use crate::depths::is_shallow;
use crate::first_bad_symbol::symbol_number;
use lk_link::expression::{Expression, Operand, Token};
use lk_link::fault::Place;
use lk_link::file::InputFile;
use lk_link::ids::FileId;
use lk_link::limits::SYMBOLS;
use lk_link::link::LinkInput;
use lk_link::plan::{OrderEvent, PlanSection, Region};
use lk_link::symbol::SymbolPlacement;

/// Where an expression names what isn't there, or is more than 100 deep: the first of the plan, else the first symbol. Symbols aren't looked at
/// where all that files hold is known to be good. Takes time for each token.
#[tactic(auto, using(crate::proofs::First::firsts), unfolding(crate::specs::FirstFault::first_place))]
pub fn first_place(link: &LinkInput, good_files: bool) -> Option<Place>
    requires files { AreNumbered link.now.groups }
    requires symbols { symbol_count (all_files link.now.groups) ≤ SYMBOLS }
    requires good { good_files ≡ true → has_good_files link.now ≡ true }
    ensures { result ≡ first_place link.now rule.Expressions }
{
    match first_bad_plan_expression(link) {
        Some(place) => Some(place),
        None => redirect_place(link, good_files),
    }
}

/// The first expression of the plan that isn't good: that of the base, those of regions, of the load addresses of sections, and of events.
#[tactic(auto, using(crate::proofs::First::firsts))]
fn first_bad_plan_expression(link: &LinkInput) -> Option<Place>
    ensures { result ≡ first_bad_plan_expression link.now }
{
    if !is_good_expression(link, &link.plan.base) {
        return Some(Place::Plan);
    }
    if let Some(region) = first_bad_region(link) {
        return Some(Place::Region(region));
    }
    if let Some(section) = first_bad_address(link) {
        return Some(Place::Section(section));
    }
    Some(Place::Event(first_bad_move(link)?))
}

/// The first symbol whose redirect isn't good.
fn redirect_place(link: &LinkInput, good_files: bool) -> Option<Place>
    requires files { AreNumbered link.now.groups }
    requires symbols { symbol_count (all_files link.now.groups) ≤ SYMBOLS }
    requires good { good_files ≡ true → has_good_files link.now ≡ true }
    ensures { result ≡ option_map (symbol_place link.now) (first_bad_redirect link.now) }
{
    if good_files {
        return None;
    }
    match first_bad_redirect(link) {
        None => None,
        Some((file, symbol)) => Some(Place::Symbol(symbol_number(&link.groups, file, symbol))),
    }
}

/// The first region whose expressions aren't good.
fn first_bad_region(link: &LinkInput) -> Option<usize>
    ensures { result ≡ first_bad (is_good_region link.now) link.now.plan.regions }
{
    link.plan
        .regions
        .as_slice()
        .iter()
        .position(|region| !is_good_region(link, region))
}

/// The first section whose load address isn't good.
fn first_bad_address(link: &LinkInput) -> Option<usize>
    ensures { result ≡ first_bad (has_good_address link.now) link.now.plan.sections }
{
    link.plan
        .sections
        .as_slice()
        .iter()
        .position(|section| !has_good_address(link, section))
}

/// The first event whose expression isn't good.
fn first_bad_move(link: &LinkInput) -> Option<usize>
    ensures { result ≡ first_bad (has_good_move link.now) link.now.plan.events }
{
    link.plan
        .events
        .as_slice()
        .iter()
        .position(|event| !has_good_move(link, event))
}

/// The first symbol whose redirect isn't good: its file, and its index there.
#[tactic(auto, using(crate::proofs::First::walks))]
fn first_bad_redirect(link: &LinkInput) -> Option<(FileId, usize)>
    requires { AreNumbered link.now.groups }
    ensures { result ≡ first_bad_redirect link.now }
{
    for at in link.groups.files() {
        if let Some(symbol) = bad_redirect(link, at.file) {
            return Some((at.id, symbol));
        }
    }
    None
}

/// The first symbol of a file whose redirect isn't good.
fn bad_redirect(link: &LinkInput, file: &InputFile) -> Option<usize>
    ensures { result ≡ position (λ s. not (is_good_redirect link.now s.at)) file.now.symbols }
{
    file.symbols
        .as_slice()
        .iter()
        .position(|symbol| !is_good_redirect(link, &symbol.at))
}

/// Whether both expressions of a region are good.
fn is_good_region(link: &LinkInput, region: &Region) -> bool
    ensures { result ≡ is_good_region link.now region.now }
{
    is_good_expression(link, &region.origin) && is_good_expression(link, &region.length)
}

/// Whether the expression of where a section is loaded from, if it has one, is good.
fn has_good_address(link: &LinkInput, section: &PlanSection) -> bool
    ensures { result ≡ has_good_address link.now section.now }
{
    match &section.at {
        None => true,
        Some(expression) => is_good_expression(link, expression),
    }
}

/// Whether the expression of an event, if it has one, is good.
fn has_good_move(link: &LinkInput, event: &OrderEvent) -> bool
    ensures { result ≡ has_good_move link.now event.now }
{
    match event {
        OrderEvent::SetLocation(expression)
        | OrderEvent::SetLocationRelative(expression, _)
        | OrderEvent::SetSectionAddress(expression) => is_good_expression(link, expression),
        OrderEvent::SegmentStart(_) | OrderEvent::SegmentEnd(_) | OrderEvent::Section(_) => true,
    }
}

/// Whether the expression of a redirect is good; what is no redirect is.
pub fn is_good_redirect(link: &LinkInput, placement: &SymbolPlacement) -> bool
    ensures { result ≡ is_good_redirect link.now placement.now }
{
    match placement {
        SymbolPlacement::Redirect { expression, .. } => is_good_expression(link, expression),
        _ => true,
    }
}

/// Whether what an expression names is there, and it isn't too deep.
fn is_good_expression(link: &LinkInput, expression: &Expression) -> bool
    ensures { result ≡ is_good_expression link.now expression.now }
{
    are_operands_there(link, expression) && is_shallow(expression)
}

/// Whether what all operands of an expression name is there.
#[tactic(auto, using(crate::proofs::Operands::all_tokens))]
fn are_operands_there(link: &LinkInput, expression: &Expression) -> bool
    ensures { result ≡ all_operands (is_operand_there link.now) expression.now }
{
    are_there(link, expression.tokens())
}

/// Whether none of these tokens is an operand that names what isn't there.
fn are_there(link: &LinkInput, tokens: &[Token]) -> bool
    ensures { result ≡ list_all (operand_passes (is_operand_there link.now)) tokens.now }
{
    tokens.iter().all(|token| names_what_is_there(link, *token))
}

/// Whether a token is no operand that names what isn't there.
fn names_what_is_there(link: &LinkInput, token: Token) -> bool
    ensures { result ≡ operand_passes (is_operand_there link.now) token }
{
    match token {
        Token::Operand(operand) => is_operand_there(link, operand),
        Token::Operator(_) => true,
    }
}

/// Whether what an operand names is there.
fn is_operand_there(link: &LinkInput, operand: Operand) -> bool
    ensures { result ≡ is_operand_there link.now operand }
{
    match operand {
        Operand::Symbol(symbol) => link.groups.symbol(symbol).is_some(),
        Operand::Address(section) | Operand::SizeOf(section) => {
            section.as_usize() < link.plan.sections.len()
        }
        Operand::Origin(region) | Operand::Length(region) => {
            region.as_usize() < link.plan.regions.len()
        }
        Operand::Number(_) | Operand::Dot | Operand::SizeOfHeaders => true,
    }
}
