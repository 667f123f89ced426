//! The first placement of a link, of which nothing is deleted.

ghost use Rattle.std.specs.Prelude.{◌≡◌, IfOk, unwrap_or};
ghost use Rattle.lk_link.specs.Target.{platform_target};
ghost use Rattle.lk_link.specs.WellFormed.{IsWellFormed};
ghost use Rattle.lk_live.specs.Reach.{AreLive};
ghost use Rattle.lk_place.specs.Answers.{GivesPlaced};
ghost use Rattle.lk_sizes.specs.Owners.{AreThunkOwners, Filling, in_output, own_sizes};
ghost use Rattle.lk_sizes.specs.Sizing.{AreFilled};
ghost use Rattle.lk_relax.specs.PositionWords.{asked_positions};
ghost use Rattle.lk_relax.specs.RelaxedLaws.{nothing_deleted};
ghost use Rattle.lk_relax.specs.Stages.{setting_after};

use crate::positions::compute_input_section_positions;
use crate::relaxation::Relaxation;
use lk_expressions::{SymbolPositions, names_no_symbol};
use lk_link::list::List;
use lk_link::{LinkInput, Platform};
use lk_live::Live;
use lk_place::laws::answers_go_without_positions;
use lk_place::{PlaceError, Placed, compute_layout_sections};
use lk_sizes::{PartOwners, part_sizes};
use std::alloc::{AllocError, Global};

/// Places a link of which nothing is deleted, by what sizing found and the bytes of the headers. Where no expression of the walk names a
/// symbol, no positions are made.
pub fn place_first<P: Platform>(
    alloc: Global,
    by: &Relaxation<'_, P>,
    owners: &PartOwners,
) -> Result<Placed, PlaceError>
    requires good { IsWellFormed by.now.link.now }
    requires live { AreLive by.now.link.now by.now.live.now }
    requires thunks { AreThunkOwners by.now.link.now owners.now.thunks }
    requires filled { (filling : Filling) × AreFilled (in_output by.now.link.now by.now.live.now filling) owners.now }
    requires own { unwrap_or owners.now.sizes (own_sizes by.now.link.now) ≡ own_sizes by.now.link.now }
    ensures { (filling : Filling) → AreFilled (in_output by.now.link.now by.now.live.now filling) owners.now
        → GivesPlaced (setting_after (record {
          filling = in_output by.now.link.now by.now.live.now filling;
          target = platform_target (P.segment_start by.now.platform.now);
          headers = by.now.headers;
        }) (nothing_deleted by.now.link.now)) result }
{
    // A law, which does nothing: where no expression names a symbol, it doesn't matter where symbols stand.
    answers_go_without_positions();
    let sizes = part_sizes(alloc, owners)?;
    let positions = asked_positions(alloc, by.link, by.live, owners)?;
    compute_layout_sections(alloc, by.link, &sizes, &positions, by.headers, by.platform)
}

/// The positions of symbols, if an expression of the walk names one; else none is told, which takes no memory.
fn asked_positions(
    alloc: Global,
    link: &LinkInput,
    live: &Live,
    owners: &PartOwners,
) -> Result<SymbolPositions, AllocError>
    requires good { IsWellFormed link.now }
    requires live { AreLive link.now live.now }
    requires thunks { AreThunkOwners link.now owners.now.thunks }
    requires filled { (filling : Filling) × AreFilled (in_output link.now live.now filling) owners.now }
    requires own { unwrap_or owners.now.sizes (own_sizes link.now) ≡ own_sizes link.now }
    ensures { (filling : Filling) → AreFilled (in_output link.now live.now filling) owners.now
        → IfOk result (λ positions. positions ≡ asked_positions (in_output link.now live.now filling)) }
{
    if names_no_symbol(&link.plan) {
        return Ok(SymbolPositions::new(List::new(alloc)));
    }
    crate::laws::nothing_deleted_is_nothing_lost();
    let (_sections, symbols) = compute_input_section_positions(alloc, link, live, owners, &[])?;
    Ok(symbols)
}
