//! The rule on thread-local segments.

ghost use Rattle.std.specs.Prelude.{◌≡◌};
ghost use Rattle.lk_link.specs.declared.fault.Rule.TheVariants as rule;
ghost use Rattle.lk_check.specs.FirstFault.{first_place, first_tls, second_tls};

use lk_link::fault::Place;
use lk_link::link::LinkInput;
use lk_link::plan::PlanSegment;

/// The second segment that is for thread-local data, where more than one is.
#[tactic(auto, unfolding(crate::specs::FirstFault::first_place))]
pub fn first_place(link: &LinkInput) -> Option<Place>
    ensures { result ≡ first_place link.now rule.TlsSegment }
{
    Some(Place::Segment(second_tls(link.plan.segments.as_slice())?))
}

/// The same, by its number.
fn second_tls(segments: &[PlanSegment]) -> Option<usize>
    ensures { result ≡ second_tls segments.now }
{
    let first = first_tls(segments)?;
    let behind = first_tls(&segments[first + 1..])?;
    Some(first + 1 + behind)
}

/// The first one.
fn first_tls(segments: &[PlanSegment]) -> Option<usize>
    ensures { result ≡ first_tls segments.now }
{
    segments.iter().position(|segment| segment.kind.is_tls())
}
