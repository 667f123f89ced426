//! What a section takes of its memory region.
//!
//! A region goes on behind what was placed in it last. A section that stands in one begins there, a location that it takes has to lie
//! inside, and what it leaves isn't to stand past the end.

ghost use Rattle.std.specs.Prelude.{◌≡◌, ℕ, length, slice_get, unwrap_or, OnOk, Some, if◌then◌else◌};
ghost use Rattle.std.specs.List.{slice_index};
ghost use Rattle.lk_place.specs.declared.regions.SectionRegion.TheVariants.{Free};
ghost use Rattle.lk_place.specs.InRegions.{IsAmong, in_region, inside_region, is_within, lies_outside, past_end, past_region, span_of, stands_in};
ghost use Rattle.lk_place.specs.Walk.{IsWalkable, setting_in};
ghost use Rattle.lk_place.specs.Placement.{unless};

use crate::cursors::Cursors;
use crate::error::Refusal;
use crate::regions::SectionRegion;
use crate::walk::Walk;
use lk_link::ids::{OutputSectionId, RegionId};
use lk_link::platform::Platform;

/// Whether a location lies outside a region of this many bytes, in which memory goes on from here.
fn lies_outside(memory: u64, size: u64, location: u64) -> bool
    ensures { result ≡ lies_outside memory size location }
{
    location < memory || location - memory > size
}

/// The region of a section, by those of all.
fn region_at(regions: &[SectionRegion], section: usize) -> SectionRegion
    ensures { result ≡ unwrap_or (slice_get regions.now section) Free }
{
    match regions.get(section) {
        Some(region) => *region,
        None => SectionRegion::Free,
    }
}

impl<P: Platform> Walk<'_, P> {
    /// The region in which a section stands.
    fn region(&self, section: OutputSectionId) -> SectionRegion
        requires walkable { IsWalkable P.segment_start self.now }
        ensures is { result ≡ stands_in self.now.link.now.plan section }
        ensures among { IsAmong (length self.now.link.now.plan.regions) result }
    {
        region_at(self.section_regions, section.as_usize())
    }

    /// Origin and length of a region.
    fn span(&self, region: RegionId) -> (u64, u64)
        requires walkable { IsWalkable P.segment_start self.now }
        ensures { result ≡ span_of (setting_in P.segment_start self.now) region }
    {
        match self.unplaced.regions.get(region.as_usize()) {
            Some(span) => *span,
            None => (0, 0),
        }
    }

    /// The cursors where a section's region goes on, if it stands in one. `goes_on` has by region where it goes on.
    pub(crate) fn enter_region(
        &self,
        section: OutputSectionId,
        from: Cursors,
        goes_on: &[u64],
    ) -> Result<Cursors, Refusal>
        requires walkable { IsWalkable P.segment_start self.now }
        requires each { length goes_on.now ≡ length self.now.link.now.plan.regions }
        ensures { result ≡ in_region (slice_index goes_on.now) section (stands_in self.now.link.now.plan section) from }
    {
        match self.region(section) {
            SectionRegion::Free => Ok(from),
            SectionRegion::Undeclared => Err(Refusal::Undeclared(section)),
            SectionRegion::Within(region) => Ok(Cursors {
                memory: goes_on[region.as_usize()],
                ..from
            }),
        }
    }

    /// The cursors, unless a location waits that lies outside the section's region.
    pub(crate) fn stay_inside(
        &self,
        section: OutputSectionId,
        from: Cursors,
        waiting: Option<u64>,
    ) -> Result<Cursors, Refusal>
        requires walkable { IsWalkable P.segment_start self.now }
        ensures { result ≡ inside_region (setting_in P.segment_start self.now) (stands_in self.now.link.now.plan section) from waiting }
    {
        match self.region(section) {
            SectionRegion::Free => Ok(from),
            SectionRegion::Undeclared => Ok(from),
            SectionRegion::Within(region) => match waiting {
                None => Ok(from),
                Some(location) => {
                    if lies_outside(from.memory, self.span(region).1, location) {
                        Err(Refusal::Outside(location))
                    } else {
                        Ok(from)
                    }
                }
            },
        }
    }

    /// Why memory isn't to stand here, if it stands past the end of a region.
    fn past_end(&self, region: RegionId, memory: u64) -> Option<Refusal>
        requires walkable { IsWalkable P.segment_start self.now }
        ensures { result ≡ past_end (setting_in P.segment_start self.now) region memory }
    {
        let (origin, length) = self.span(region);
        let end = origin.checked_add(length)?;
        if end < memory {
            Some(Refusal::Past {
                region,
                by: memory - end,
            })
        } else {
            None
        }
    }

    /// The cursors behind a section, unless they stand past the end of its region, which then goes on there.
    pub(crate) fn leave_region(
        &self,
        section: OutputSectionId,
        from: Cursors,
        goes_on: &mut [u64],
    ) -> Result<Cursors, Refusal>
        requires walkable { IsWalkable P.segment_start self.now }
        requires each { length goes_on.old ≡ length self.now.link.now.plan.regions }
        ensures ends { result ≡ unless (past_region (setting_in P.segment_start self.now) (stands_in self.now.link.now.plan section) from.memory) from }
        ensures goes_on { OnOk result ((r : ℕ) → slice_index goes_on.new r
            ≡ (if is_within (stands_in self.now.link.now.plan section) r then from.memory else slice_index goes_on.old r)) }
    {
        match self.region(section) {
            SectionRegion::Free => Ok(from),
            SectionRegion::Undeclared => Ok(from),
            SectionRegion::Within(region) => match self.past_end(region, from.memory) {
                Some(refusal) => Err(refusal),
                None => {
                    goes_on[region.as_usize()] = from.memory;
                    Ok(from)
                }
            },
        }
    }
}
