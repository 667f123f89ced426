//! What is live of a link, by a walk over all that is reached on the caller's own thread; and by a walk that somebody else made.

ghost use Rattle.std.specs.Prelude.{◌≡◌};
ghost use Rattle.lk_link.specs.WellFormed.{IsWellFormed};
ghost use Rattle.lk_live.specs.Faults.{faults_by};
ghost use Rattle.lk_live.specs.Reach.{GivesLive};
ghost use Rattle.lk_reach.specs.Marks.{IsWalked};

use crate::error::{GcError, ReferenceFault};
use crate::faults::reference_faults;
use crate::keep::live_after;
use crate::live::Live;
use lk_link::{LinkInput, List};
use lk_reach::Walk;
use std::alloc::Global;

/// What is live of a link, by what `file_roots` and `successors` tell, where no reference is at fault; else all that are, by
/// file, section and relocation; unless memory runs out. Looks once at each unit that is reached and at each of its relocations,
/// and takes a mark for each unit, a word for each symbol, and behind the walk a byte more for each symbol (libwild:
/// `traverse_reference_graph`).
pub fn traverse_alone(alloc: Global, link: &LinkInput) -> Result<Live, GcError>
    requires { IsWellFormed link.now }
    ensures { GivesLive link.now result }
{
    let walk = Walk::over(alloc, link)?;
    let faults = reference_faults(alloc, link, walk.marks.as_slice())?;
    live_unless(alloc, link, &walk, faults)
}

/// What is live after a walk over all that is reached, where nothing is at fault; else these faults, which are those of that walk.
pub fn live_unless(
    alloc: Global,
    link: &LinkInput,
    walk: &Walk,
    faults: Vec<ReferenceFault>,
) -> Result<Live, GcError>
    requires well_formed { IsWellFormed link.now }
    requires walked { IsWalked link.now walk.now }
    requires faults { faults.items ≡ faults_by link.now walk.now.marks.items }
    ensures { GivesLive link.now result }
{
    if !faults.is_empty() {
        return Err(GcError::References(List::from_vec(faults)));
    }
    Ok(live_after(alloc, link, walk)?)
}
