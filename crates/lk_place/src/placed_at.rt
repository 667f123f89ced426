//! Which event places a part.

ghost use Rattle.std.specs.Prelude.{◌≡◌, ◌≤◌, ◌-◌, ◌<◌, ℕ, IfOk, length, slice_index, vec_len, if◌then◌else◌};
ghost use Rattle.lk_link.specs.Parts.{all_parts, first_part};
ghost use Rattle.lk_link.specs.WellFormed.{IsEventOrder};
ghost use Rattle.lk_place.specs.PlacedBefore.{is_placing_part, lies_in};
ghost use Rattle.lk_place.specs.Tables.{ArePlacedAt, IsPlacedInRange};

use lk_link::plan::{OrderEvent, Plan, PlanSections};
use std::alloc::{AllocError, Global};

/// Writes a number at each place of a range.
fn write_range(table: &mut [usize], first: usize, behind: usize, number: usize)
    requires within { behind ≤ length table.old }
    requires rises { first ≤ behind }
    ensures { (p : ℕ) → slice_index table.new p ≡ (if lies_in first (behind - first) p then number else slice_index table.old p) }
{
    for place in first..behind {
        table[place] = number;
    }
}

/// Writes an event's number at each part of the section that it places, if it places one.
#[tactic(auto, using(lk_link::proofs::PartNumbers::part_numbers))]
fn write_event(sections: &PlanSections, event: &OrderEvent, number: usize, table: &mut [usize])
    requires in_range { IsPlacedInRange sections.now event.now }
    requires each { length table.old ≡ length (all_parts sections.now) }
    ensures { (p : ℕ) → slice_index table.new p ≡ (if is_placing_part sections.now p event.now then number else slice_index table.old p) }
{
    match event {
        OrderEvent::Section(section) => {
            let (first, behind) = sections.part_range(section.as_usize());
            write_range(table, first, behind, number);
        }
        _ => {}
    }
}

/// For each part, by number, the event that places its section. Takes time for each event and each part.
pub(crate) fn events_of_parts(alloc: Global, plan: &Plan) -> Result<Vec<usize>, AllocError>
    requires order { IsEventOrder plan.now }
    ensures { IfOk result (λ table. ArePlacedAt plan.now (length plan.now.events) table.items) }
{
    let mut table = vec![in alloc; 0; plan.sections.parts().len()]?;
    for (number, event) in plan.events.as_slice().iter().enumerate() {
        write_event(&plan.sections, event, number, &mut table);
    }
    Ok(table)
}
