//! Laws of a link and a layout in hand, each proved as the contract of a function that does nothing. What a number is kept in bounds it, so
//! they ask nothing of sizes.

ghost use Rattle.std.specs.Prelude.{Ok};
ghost use Rattle.lk_layout.specs.Defined.{IsDefined};
ghost use Rattle.lk_layout.specs.Machines.{IsLawfulMachine, Machine};
ghost use Rattle.lk_link.specs.WellFormed.{IsWellFormed};
ghost use Rattle.lk_report_maps.specs.MappedReports.{IsMapped, IsShort};

use crate::laws::{defined_reports_are_read, plain_reports_are_good, reports_are_maps};
use lk_layout::Layout;
use lk_link::link::LinkInput;

/// A law: each number that the report of a layout tells is below 2^64, and so is the stack.
pub fn report_is_short(link: &LinkInput, layout: &Layout<'_>)
    requires good { IsWellFormed link.now }
    ensures { IsShort link.now layout.now }
{}

/// A law: so the report of a layout that is defined on a lawful machine is the map of what it says, line by line, and is read as the
/// layout's own sections and segments; and these are good under a plain plan, where no section is secondary and each that is allocated and
/// has bytes in the file stands in a load segment that is told.
pub fn report_is_map(link: &LinkInput, layout: &Layout<'_>)
    requires good { IsWellFormed link.now }
    ensures { (machine : Machine) → IsLawfulMachine machine → IsDefined machine link.now (Ok layout.now) → IsMapped link.now layout.now }
{
    report_is_short(link, layout);
    reports_are_maps();
    defined_reports_are_read();
    plain_reports_are_good();
}
