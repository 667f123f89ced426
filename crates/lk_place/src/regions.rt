//! The memory regions of a plan.
//!
//! Regions are gone through in their order: the name of each is looked for among those before it, and then its origin and its length are
//! evaluated, by numbers alone. A plan has few. The region of each section is looked for once, before the walk, among the names in
//! their order: what is found so is checked, and since names are different it is the one.

ghost use Rattle.std.specs.Prelude.{◌≡◌, ◌^◌, ◌<◌, ◌≤◌, ℕ, All, IfOk, Some, length, map, position};
ghost use Rattle.std.specs.Str.{bytes_eq};
ghost use Rattle.lk_place.specs.InRegions.{named_region, numbered_region};
ghost use Rattle.lk_place.specs.RegionNames.{HaveOwnNames, is_named};
ghost use Rattle.lk_place.specs.Regions.{GivesRegions, IsShallowRegion, is_declared, region_of, region_value, valued_region};

use crate::error::PlaceError;
use lk_expressions::{NoValue, evaluate_const};
use lk_link::fault::Place;
use lk_link::ids::RegionId;
use lk_link::link::LinkInput;
use lk_link::list::List;
use lk_link::plan::{Plan, PlanSection, Region};
use std::alloc::{AllocError, Global};

/// The memory region in which a section stands.
#[derive(Clone, Copy, Debug, PartialEq, Eq)]
pub enum SectionRegion {
    /// It stands in none.
    Free,
    /// One that isn't declared.
    Undeclared,
    /// The one with this number.
    Within(RegionId),
}

/// Whether one of some regions has this name.
fn is_declared(regions: &[Region], name: &str) -> bool
    ensures { result ≡ is_declared regions.now name.now }
{
    regions.iter().any(|region| region.name.as_str() == name)
}

/// A region's origin and length.
fn region_value(link: &LinkInput, region: &Region) -> Result<(u64, u64), NoValue>
    requires { IsShallowRegion region.now }
    ensures { result ≡ region_value region.now }
{
    let origin = evaluate_const(link, &region.origin)?;
    let length = evaluate_const(link, &region.length)?;
    Ok((origin, length))
}

/// The same of the region with this number, whose name isn't to be that of an earlier one.
fn region_of(
    link: &LinkInput,
    regions: &[Region],
    number: usize,
    region: &Region,
) -> Result<(u64, u64), PlaceError>
    requires in_range { number ≤ length regions.now }
    requires few { number < 2 ^ 32 }
    requires shallow { IsShallowRegion region.now }
    ensures { result ≡ region_of regions.now number region.now }
{
    if is_declared(&regions[..number], region.name.as_str()) {
        return Err(PlaceError::RegionDuplicate {
            region: RegionId::from_u32(number as u32),
        });
    }
    match region_value(link, region) {
        Ok(value) => Ok(value),
        Err(cause) => Err(PlaceError::Expression {
            place: Place::Region(number),
            cause,
        }),
    }
}

/// Origin and length of each region, by number, in bytes; or the first refusal, region after region: a name that an earlier one has, or
/// an expression of anything but numbers and arithmetic, or without a value. Takes time for each token, and for each two regions.
#[tactic(auto, using(crate::proofs::GivenLists::given))]
pub fn evaluate_regions(alloc: Global, link: &LinkInput) -> Result<List<(u64, u64)>, PlaceError>
    requires few { length link.now.plan.regions ≤ 2 ^ 32 }
    requires shallow { All IsShallowRegion link.now.plan.regions }
    ensures { GivesRegions result link.now.plan.regions }
{
    let regions = link.plan.regions.as_slice();
    let mut values = Vec::with_capacity(alloc, regions.len())?;
    for (number, region) in regions.iter().enumerate() {
        values.push(region_of(link, regions, number, region)?)?;
    }
    Ok(List::from_vec(values))
}

/// The name of the region with this number; empty behind the last one.
fn name_at(regions: &[Region], number: usize) -> &str {
    match regions.get(number) {
        Some(region) => region.name.as_str(),
        None => "",
    }
}

/// The numbers of regions, in the order of their names' bytes.
fn by_name(alloc: Global, regions: &[Region]) -> Result<Vec<usize>, AllocError> {
    let mut order = Vec::with_capacity(alloc, regions.len())?;
    for number in 0..regions.len() {
        order.push(number)?;
    }
    order.sort_unstable_by(|a, b| name_at(regions, *a).cmp(name_at(regions, *b)));
    Ok(order)
}

/// The number in the order that may be that of the region with this name, by halving.
fn likely_number(regions: &[Region], order: &[usize], name: &str) -> Option<usize> {
    match order.binary_search_by(|number| name_at(regions, *number).cmp(name)) {
        Ok(place) => order.get(place).copied(),
        Err(_) => None,
    }
}

/// Whether there is a region with this number, and this is its name.
fn is_named(regions: &[Region], number: usize, name: &str) -> bool
    ensures { result ≡ is_named regions.now name.now number }
{
    match regions.get(number) {
        Some(region) => region.name.as_str() == name,
        None => false,
    }
}

/// The number of the first region with this name, if one has it.
fn first_named(regions: &[Region], name: &str) -> Option<usize>
    ensures { result ≡ position (λ r. bytes_eq r.name name.now) regions.now }
{
    regions
        .iter()
        .position(|region| region.name.as_str() == name)
}

/// The number of the region with this name, if one has it. A name that isn't found in the order is looked for among all.
#[tactic(auto, using(crate::proofs::RegionNames::named_first))]
fn position_named(regions: &[Region], order: &[usize], name: &str) -> Option<usize>
    requires { HaveOwnNames regions.now }
    ensures { result ≡ position (λ r. bytes_eq r.name name.now) regions.now }
{
    match likely_number(regions, order, name) {
        Some(number) if is_named(regions, number, name) => Some(number),
        _ => first_named(regions, name),
    }
}

/// The region with this number, if there is one.
fn numbered_region(number: Option<usize>) -> SectionRegion
    requires { (r : ℕ) → number ≡ Some r → r < 2 ^ 32 }
    ensures { result ≡ numbered_region number }
{
    match number {
        None => SectionRegion::Undeclared,
        Some(number) => SectionRegion::Within(RegionId::from_u32(number as u32)),
    }
}

/// The region in which a section stands, by the order of the regions' names.
fn section_region(regions: &[Region], order: &[usize], section: &PlanSection) -> SectionRegion
    requires few { length regions.now ≤ 2 ^ 32 }
    requires own { HaveOwnNames regions.now }
    ensures { result ≡ named_region regions.now section.now.region }
{
    match &section.region {
        None => SectionRegion::Free,
        Some(name) => numbered_region(position_named(regions, order, name.as_str())),
    }
}

/// By section: the region in which it stands. Takes time for each section, logarithmic in the regions for a name that is declared.
pub(crate) fn regions_of_sections(
    alloc: Global,
    plan: &Plan,
) -> Result<Vec<SectionRegion>, AllocError>
    requires few { length plan.now.regions ≤ 2 ^ 32 }
    requires own { HaveOwnNames plan.now.regions }
    ensures { IfOk result (λ table. table.items ≡ map (λ s. named_region plan.now.regions s.region) plan.now.sections) }
{
    let regions = plan.regions.as_slice();
    let order = by_name(alloc, regions)?;
    let mut table = Vec::with_capacity(alloc, plan.sections.len())?;
    for section in plan.sections.as_slice() {
        table.push(section_region(regions, &order, section))?;
    }
    Ok(table)
}

/// By region: its origin, by the origins and lengths of all.
pub(crate) fn origins(alloc: Global, regions: &[(u64, u64)]) -> Result<Vec<u64>, AllocError>
    ensures { IfOk result (λ table. table.items ≡ map (λ r. r.0) regions.now) }
{
    let mut table = Vec::with_capacity(alloc, regions.len())?;
    for region in regions {
        table.push(region.0)?;
    }
    Ok(table)
}
