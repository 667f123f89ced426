//! The rule on the parts that the plan names.

ghost use Rattle.std.specs.Prelude.{◌≡◌, ◌==◌, ◌&&◌, false, length, nat_lt, not, slice_get, true};
ghost use Rattle.std.specs.List.{list_any};
ghost use Rattle.std.specs.Option.{option_map_or};
ghost use Rattle.lk_link.specs.declared.fault.Rule.TheVariants as rule;
ghost use Rattle.lk_link.specs.PartFieldRules.{can_be_primary, has_good_comment, has_good_primary, is_free_with};
ghost use Rattle.lk_link.specs.PartRules.{is_part, table_parts};
ghost use Rattle.lk_link.specs.Parts.{all_parts};
ghost use Rattle.lk_check.specs.FirstBadPartField.{first_bad_part_field, first_bad_table};
ghost use Rattle.lk_check.specs.FirstFault.{first_place};

use crate::parts::is_free_part;
use lk_link::fault::Place;
use lk_link::ids::PartId;
use lk_link::limits::MOST_PRIMARY_ALIGNMENT;
use lk_link::link::LinkInput;
use lk_link::plan::{Plan, PlanPart, is_part};

/// The first named part that isn't good, by its place among them.
#[tactic(auto, unfolding(crate::specs::FirstFault::first_place))]
pub fn first_place(link: &LinkInput) -> Option<Place>
    ensures { result ≡ first_place link.now rule.PartFields }
{
    Some(Place::PartField(first_bad_part_field(link)?))
}

/// The same, by that place.
#[tactic(auto, using(crate::proofs::First::firsts))]
fn first_bad_part_field(link: &LinkInput) -> Option<usize>
    ensures { result ≡ first_bad_part_field link.now }
{
    match first_bad_table(&link.plan) {
        Some(table) => Some(table),
        None => {
            if !has_good_comment(&link.plan) {
                Some(11)
            } else if !has_good_primary(link) {
                Some(12)
            } else {
                None
            }
        }
    }
}

/// The first table part that isn't good, by its place among them.
fn first_bad_table(plan: &Plan) -> Option<usize>
    ensures { result ≡ first_bad_table plan.now }
{
    bad_table(plan, &plan.named.table_parts())
}

/// The same, of the table parts.
fn bad_table(plan: &Plan, tables: &[Option<PartId>]) -> Option<usize>
    requires { tables.now ≡ table_parts plan.now.named }
    ensures { result ≡ first_bad_table plan.now }
{
    for (place, table) in tables.iter().enumerate() {
        if !is_good_table(plan, &tables[..place], *table) {
            return Some(place);
        }
    }
    None
}

/// Whether a table part, if it is named, is one of the plan's and none of those before it.
fn is_good_table(plan: &Plan, before: &[Option<PartId>], table: Option<PartId>) -> bool
    ensures { result ≡ option_map_or (λ p. nat_lt p (length (all_parts plan.now.sections)) && not (list_any (is_part p) before.now)) table true }
{
    match table {
        None => true,
        Some(part) => part.as_usize() < plan.sections.parts().len() && !is_among(before, part),
    }
}

/// Whether it is one of these.
fn is_among(named: &[Option<PartId>], part: PartId) -> bool
    ensures { result ≡ list_any (is_part part) named.now }
{
    named.iter().any(|named| is_part(*named, part))
}

/// Whether the comment's part, if it is named, is one of the plan's and no table part, of alignment 1.
fn has_good_comment(plan: &Plan) -> bool
    ensures { result ≡ has_good_comment plan.now }
{
    match plan.named.comment {
        None => true,
        Some(part) => is_comment_part(plan, part),
    }
}

/// Whether a part can be the comment's.
fn is_comment_part(plan: &Plan, part: PartId) -> bool
    ensures { result ≡ is_free_with (λ q. q.alignment == 1) plan.now part }
{
    is_free_part(plan, part) && has_alignment_1(plan, part)
}

/// Whether there is such a part, and its alignment is 1.
fn has_alignment_1(plan: &Plan, part: PartId) -> bool
    ensures { result ≡ option_map_or (λ q. q.alignment == 1) (slice_get (all_parts plan.now.sections) part) false }
{
    match plan.sections.part(part) {
        None => false,
        Some(part) => part.alignment == 1,
    }
}

/// Whether the primary part, if it is named, is one of the plan's and no table part, isn't packed, has alignment at most 16, and branches
/// are limited.
fn has_good_primary(link: &LinkInput) -> bool
    ensures { result ≡ has_good_primary link.now }
{
    match link.plan.named.primary {
        None => true,
        Some(part) => is_primary_part(&link.plan, part) && !(link.options.branch_range == 0),
    }
}

/// Whether a part can be the primary one.
fn is_primary_part(plan: &Plan, part: PartId) -> bool
    ensures { result ≡ is_free_with can_be_primary plan.now part }
{
    is_free_part(plan, part) && holds_code(plan, part)
}

/// Whether there is such a part, and it isn't packed and has alignment at most 16.
fn holds_code(plan: &Plan, part: PartId) -> bool
    ensures { result ≡ option_map_or can_be_primary (slice_get (all_parts plan.now.sections) part) false }
{
    match plan.sections.part(part) {
        None => false,
        Some(part) => can_be_primary(part),
    }
}

/// Whether a part isn't packed and has alignment at most 16.
fn can_be_primary(part: &PlanPart) -> bool
    ensures { result ≡ can_be_primary part.now }
{
    !part.packed && part.alignment <= MOST_PRIMARY_ALIGNMENT
}
