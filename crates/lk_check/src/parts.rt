//! Which parts symbols and input sections may go to.

ghost use Rattle.std.specs.Prelude.{◌≡◌};
ghost use Rattle.lk_link.specs.PartRules.{is_free_part};

use lk_link::ids::PartId;
use lk_link::plan::Plan;

/// Whether a part is one of the plan's, and no table part.
pub fn is_free_part(plan: &Plan, part: PartId) -> bool
    ensures { result ≡ is_free_part plan.now part }
{
    part.as_usize() < plan.sections.parts().len() && !plan.named.is_table_part(part)
}
