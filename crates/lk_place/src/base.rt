//! Where memory begins.
//!
//! Without headers in memory it begins at the base of the plan. A base that is asked for, or headers that a segment is to load, want
//! room for the headers below the base: memory begins at the last page that leaves it to them, and at the base where none does.

ghost use Rattle.std.specs.Prelude.{◌≡◌, ◌<◌};
ghost use Rattle.lk_place.specs.Base.{first_memory, known_first, memory_begun, page_for_headers};
ghost use Rattle.lk_expressions.specs.Expressions.{IsShallow, expression_value};
ghost use Rattle.lk_expressions.specs.Surroundings.{early_operand};

use crate::error::PlaceError;
use lk_expressions::{
    EarlySurroundings, GivenRecords, NoValue, SymbolPositions, evaluate_early_expression,
};
use lk_link::fault::Place;
use lk_link::link::LinkInput;
use lk_link::list::List;
use lk_link::plan::Plan;
use std::alloc::Global;

/// The last start of a page from which the headers reach at most to the base; the base where there is none.
fn page_for_headers(page: u64, headers: u64, base: u64) -> u64
    requires { 0 < page }
    ensures { result ≡ page_for_headers page headers base }
{
    if headers <= base {
        let room = base - headers;
        room - room % page
    } else {
        base
    }
}

/// Where memory begins, by the bytes of the headers and the base.
pub(crate) fn begin_memory(plan: &Plan, headers: u64, base: u64) -> Result<u64, PlaceError>
    requires { 0 < plan.now.page }
    ensures { result ≡ memory_begun plan.now headers base }
{
    let wants_room = plan.custom_base && (plan.phdrs_headers || !plan.custom_phdrs);
    if wants_room && base < headers {
        Err(PlaceError::BaseTooLow { base, headers })
    } else if plan.custom_base || plan.phdrs_headers {
        Ok(page_for_headers(plan.page, headers, base))
    } else {
        Ok(base)
    }
}

/// The value of the plan's base, by the bytes of the headers, origin and length of each region, and constants; nothing is placed yet,
/// so it goes by no places of symbols.
pub(crate) fn base_value(
    alloc: Global,
    link: &LinkInput,
    headers: u64,
    regions: &[(u64, u64)],
    constants: &[Option<Result<u64, NoValue>>],
) -> Result<u64, NoValue>
    requires shallow { IsShallow link.now.plan.base }
    ensures { result ≡ expression_value (early_operand (known_first link.now.groups headers regions.now constants.now)) link.now.plan.base }
{
    let nowhere = SymbolPositions::new(List::new(alloc));
    let nothing = GivenRecords {
        sections: &[],
        parts: &[],
    };
    let known = EarlySurroundings {
        link,
        dot: 0,
        headers,
        regions,
        constants,
        records: &nothing,
        positions: &nowhere,
    };
    evaluate_early_expression(&known, &link.plan.base)
}

/// The address at which memory begins, by the plan's base and the bytes of the headers. `regions` has the origin and the length of
/// each region, `constants` what each symbol is worth that is a constant redirect; nothing is placed yet. Refused where the base has
/// no value, or is asked for and has no room for the headers below it (libwild: `compute_layout_sections`).
pub fn first_memory(
    alloc: Global,
    link: &LinkInput,
    headers: u64,
    regions: &[(u64, u64)],
    constants: &[Option<Result<u64, NoValue>>],
) -> Result<u64, PlaceError>
    requires shallow { IsShallow link.now.plan.base }
    requires page { 0 < link.now.plan.page }
    ensures { let known = known_first link.now.groups headers regions.now constants.now
        in result ≡ first_memory link.now.plan headers (expression_value (early_operand known) link.now.plan.base) }
{
    match base_value(alloc, link, headers, regions, constants) {
        Ok(base) => begin_memory(&link.plan, headers, base),
        Err(cause) => Err(PlaceError::Expression {
            place: Place::Base,
            cause,
        }),
    }
}
