//! Expressions in the placement walk.

ghost use Rattle.std.specs.Prelude.{◌≡◌};
ghost use Rattle.lk_expressions.specs.Expressions.{IsShallow, expression_value};
ghost use Rattle.lk_expressions.specs.Surroundings.{early_operand};
ghost use Rattle.lk_place.specs.Tables.{part_before, section_before};

use crate::records_before::RecordsBefore;
use lk_expressions::{
    Constant, EarlySurroundings, NoValue, SymbolPositions, evaluate_early_expression,
};
use lk_link::expression::Expression;
use lk_link::link::LinkInput;

/// What expressions may speak of that isn't placed by the walk.
#[derive(Drop)]
pub(crate) struct Unplaced<'a> {
    pub(crate) link: &'a LinkInput,
    /// Bytes.
    pub(crate) headers: u64,
    /// Origin and length of each region.
    pub(crate) regions: &'a [(u64, u64)],
    /// By symbol: what constant redirects are worth.
    pub(crate) constants: &'a [Option<Constant>],
    pub(crate) positions: &'a SymbolPositions,
}

/// The value of an expression at an event of the walk, where the location counter is `dot`.
pub(crate) fn evaluate_before(
    unplaced: &Unplaced,
    before: &RecordsBefore,
    dot: u64,
    expression: &Expression,
) -> Result<u64, NoValue>
    requires { IsShallow expression.now }
    ensures { result ≡ expression_value (early_operand (record {
      groups = unplaced.now.link.now.groups;
      dot = dot;
      headers = unplaced.now.headers;
      regions = unplaced.now.regions.now;
      constants = unplaced.now.constants.now;
      section = section_before before.now.sections.now before.now.events.now before.now.records.now before.now.event;
      part = part_before before.now.events.now before.now.records.now before.now.event;
      positions = unplaced.now.positions.now;
    })) expression.now }
{
    let known = EarlySurroundings {
        link: unplaced.link,
        dot,
        headers: unplaced.headers,
        regions: unplaced.regions,
        constants: unplaced.constants,
        records: before,
        positions: unplaced.positions,
    };
    evaluate_early_expression(&known, expression)
}
