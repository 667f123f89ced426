//! Moves of the location, and what takes one.

ghost use Rattle.std.specs.Prelude.{◌≡◌};
ghost use Rattle.lk_place.specs.Locations.{awaiting, behind_start, moved_along, moves_file, opened_at, stays_on_top, taken};
ghost use Rattle.lk_place.specs.PlacedBefore.{refusing};

use crate::cursors::Cursors;
use crate::error::Refusal;
use lk_expressions::{NoValue, OutputRecordLayout};
use lk_link::alignment::Alignment;
use lk_link::ids::OutputSectionId;
use lk_link::plan::Plan;

/// A value, or the refusal of an expression that has none.
pub(crate) fn refuse(value: Result<u64, NoValue>) -> Result<u64, Refusal>
    ensures { result ≡ refusing value }
{
    match value {
        Ok(value) => Ok(value),
        Err(cause) => Err(Refusal::NoValue(cause)),
    }
}

/// The cursors with a location that waits.
pub(crate) fn wait_at(from: Cursors, location: Result<u64, Refusal>) -> Result<Cursors, Refusal>
    ensures { result ≡ awaiting from location }
{
    match location {
        Ok(location) => Ok(Cursors {
            pending: Some(location),
            ..from
        }),
        Err(refusal) => Err(refusal),
    }
}

/// A location that isn't to be before the start of a section, if that is placed.
pub(crate) fn not_before(
    placed: Option<OutputRecordLayout>,
    location: Result<u64, Refusal>,
) -> Result<u64, Refusal>
    ensures { result ≡ behind_start placed location }
{
    match placed {
        None => location,
        Some(placed) => {
            let to = location?;
            let from = placed.mem_offset;
            if to < from {
                Err(Refusal::Backwards { from, to })
            } else {
                Ok(to)
            }
        }
    }
}

/// The cursors where a load segment begins at a location: the file goes on at the least offset that is congruent to it.
#[tactic(auto, using(std::proofs::lemmas::Bool::Decides::nat_tests))]
pub(crate) fn open_at(place: Alignment, location: u64, from: Cursors) -> Result<Cursors, Refusal>
    ensures { result ≡ opened_at place from location }
{
    match place.align_modulo(location, from.file) {
        Some(file) => Ok(Cursors {
            file,
            memory: location,
            ..from
        }),
        None => Err(Refusal::Overflow),
    }
}

/// Whether a section is secondary, and stays on top of its primary in the file.
fn stays_on_top(plan: &Plan, section: OutputSectionId) -> bool
    ensures { result ≡ stays_on_top plan.now section }
{
    match plan.sections.get(section) {
        Some(found) => found.primary.is_some() && found.top,
        None => false,
    }
}

/// Whether the file moves along with memory to the location of a section.
fn moves_file(plan: &Plan, section: OutputSectionId) -> bool
    ensures { result ≡ moves_file plan.now section }
{
    !stays_on_top(plan, section) && plan.is_allocated(section) && plan.is_file_backed(section)
}

/// The cursors at a location, the file as far behind as memory.
#[tactic(auto, using(std::proofs::lemmas::Bool::Decides::nat_tests))]
fn move_along(from: Cursors, location: u64) -> Result<Cursors, Refusal>
    ensures { result ≡ moved_along from location }
{
    if location < from.memory {
        return Err(Refusal::Backwards {
            from: from.memory,
            to: location,
        });
    }
    match from.file.checked_add(location - from.memory) {
        Some(file) => Ok(Cursors {
            file,
            memory: location,
            pending: None,
            ..from
        }),
        None => Err(Refusal::Overflow),
    }
}

/// The cursors of a section behind the location that it takes, if one waits.
pub(crate) fn take_location(
    plan: &Plan,
    section: OutputSectionId,
    from: Cursors,
    waiting: Option<u64>,
) -> Result<Cursors, Refusal>
    ensures { result ≡ taken plan.now section from waiting }
{
    match waiting {
        None => Ok(from),
        Some(location) => {
            if moves_file(plan, section) {
                move_along(from, location)
            } else {
                Ok(Cursors {
                    memory: location,
                    pending: None,
                    ..from
                })
            }
        }
    }
}
