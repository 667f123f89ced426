//! The rule on the section of singletons.

ghost use Rattle.std.specs.Prelude.{◌≡◌};
ghost use Rattle.lk_link.specs.declared.fault.Rule.TheVariants as rule;
ghost use Rattle.lk_link.specs.Rules.{has_good_singletons};
ghost use Rattle.lk_check.specs.FirstFault.{first_place};

use lk_link::fault::Place;
use lk_link::link::LinkInput;

/// The plan, where the section of singletons is named, and is none of the plan's or output isn't partial.
#[tactic(auto, unfolding(crate::specs::FirstFault::first_place))]
pub fn first_place(link: &LinkInput) -> Option<Place>
    ensures { result ≡ first_place link.now rule.Singletons }
{
    if has_good_singletons(link) {
        None
    } else {
        Some(Place::Plan)
    }
}

/// Whether it is one, if it is named, and output is partial.
fn has_good_singletons(link: &LinkInput) -> bool
    ensures { result ≡ has_good_singletons link.now }
{
    match link.plan.singletons {
        None => true,
        Some(section) => {
            section.as_usize() < link.plan.sections.len() && link.options.output.is_partial()
        }
    }
}
