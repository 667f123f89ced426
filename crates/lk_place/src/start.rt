//! Where the walk begins.
//!
//! Before the first event regions are evaluated, then constant redirects, which may speak of them, and then the base, which may speak
//! of both. Constants are looked for only where an expression of the walk names a symbol. The first refusal of these ends the placement
//! before it begins.

ghost use Rattle.std.specs.Prelude.{IfOk};
ghost use Rattle.lk_link.specs.WellFormed.{IsWellFormed};
ghost use Rattle.lk_expressions.specs.Constants.{HasShallowRedirects};
ghost use Rattle.lk_place.specs.AtHand.{AreAtHand};
ghost use Rattle.lk_place.specs.Shallow.{AreShallow};
ghost use Rattle.lk_place.specs.Start.{GivesBeginning, constants_by};

use crate::base::{base_value, begin_memory};
use crate::error::PlaceError;
use crate::regions::evaluate_regions;
use lk_expressions::{Constant, constant_redirects, names_no_symbol};
use lk_link::fault::Place;
use lk_link::link::LinkInput;
use lk_link::list::List;
use std::alloc::{AllocError, Global};

/// What is known before the first event.
#[derive(Drop)]
pub(crate) struct Beginning {
    /// Origin and length of each region.
    pub(crate) regions: List<(u64, u64)>,
    /// By symbol: what constant redirects are worth, if an expression of the walk names a symbol.
    pub(crate) constants: Vec<Option<Constant>>,
    /// The value of the base.
    pub(crate) base: u64,
    /// The address at which memory begins.
    pub(crate) memory: u64,
}

/// What constant redirects are worth, if an expression of the walk names a symbol; else nothing is told of them.
fn asked_constants(
    alloc: Global,
    link: &LinkInput,
    headers: u64,
    regions: &[(u64, u64)],
) -> Result<Vec<Option<Constant>>, AllocError>
    requires { HasShallowRedirects link.now.groups }
    ensures { IfOk result (λ all. AreAtHand link.now.plan (constants_by link.now.groups headers regions.now) all.items) }
{
    if names_no_symbol(&link.plan) {
        Ok(Vec::new(alloc))
    } else {
        constant_redirects(alloc, link, headers, regions)
    }
}

/// Evaluates the regions, the constants and the base, by the bytes of the headers; or tells the first refusal: of a region, in their
/// order, else of the base.
pub(crate) fn begin(alloc: Global, link: &LinkInput, headers: u64) -> Result<Beginning, PlaceError>
    requires well_formed { IsWellFormed link.now }
    requires shallow { AreShallow link.now }
    ensures { GivesBeginning link.now.plan link.now.groups headers result }
{
    let regions = evaluate_regions(alloc, link)?;
    let constants = asked_constants(alloc, link, headers, regions.as_slice())?;
    let base = match base_value(alloc, link, headers, regions.as_slice(), &constants) {
        Ok(base) => base,
        Err(cause) => {
            return Err(PlaceError::Expression {
                place: Place::Base,
                cause,
            });
        }
    };
    let memory = begin_memory(&link.plan, headers, base)?;
    Ok(Beginning {
        regions,
        constants,
        base,
        memory,
    })
}
