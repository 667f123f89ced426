//! Laws on the answer, each proved as the contract of a function that does nothing.

ghost use Rattle.lk_layout.specs.Laws.{DefinedAnswerExists, DefinedAnswerIsOne, LaidOutLinksAreWellFormed};
ghost use Rattle.lk_layout.specs.Machines.{IsLawfulMachine, platform_machine, small64_machine};

use lk_check::well_formed_exactly_unfaulted;
use lk_link::platform::Platform;
use lk_live::{live_exists, live_is_one};
use lk_relax::laws::{relaxed_exists, relaxed_is_one, relaxed_stands};
use lk_thunks::{Arch, Small64Arch};

/// A law: every link has a defined answer, on every machine.
pub fn defined_answer_exists()
    ensures { DefinedAnswerExists }
{
    well_formed_exactly_unfaulted();
    live_exists();
    relaxed_exists();
}

/// A law: the defined answer of a link is one.
pub fn defined_answer_is_one()
    ensures { DefinedAnswerIsOne }
{
    well_formed_exactly_unfaulted();
    live_is_one();
    relaxed_is_one();
}

/// A law: a link that has a layout is well formed.
pub fn laid_out_links_are_well_formed()
    ensures { LaidOutLinksAreWellFormed }
{
    well_formed_exactly_unfaulted();
    relaxed_stands();
}

/// A law: the machine of any platform and any architecture is lawful, by the laws that each of them proves of itself.
pub fn machines_are_lawful<P: Platform, A: Arch>(platform: &P, arch: &A)
    ensures { IsLawfulMachine (platform_machine (P.segment_start platform.now) (P.table_sizes platform.now) (A.config_of arch.now)) }
{
    arch.configs_are_lawful();
}

/// A law: the machine of the small platform and architecture is lawful.
pub fn small64_machine_is_lawful()
    ensures { IsLawfulMachine small64_machine }
{
    Small64Arch.configs_are_lawful();
}
