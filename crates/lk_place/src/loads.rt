//! Where a section is loaded from.
//!
//! A section is loaded from where it stands, unless it names a load address. The expression of that is evaluated once, behind the
//! section's last part, so that it may speak of the section itself, and all its parts are loaded from the value.

ghost use Rattle.std.specs.Prelude.{◌≡◌, ◌≤◌, ◌<◌, ◌+◌, ◌-◌, ℕ, OnOk, Some, if◌then◌else◌, length, slice_get};
ghost use Rattle.lk_link.specs.declared.plan.OrderEvent.TheVariants.{Section};
ghost use Rattle.lk_link.specs.Parts.{all_parts};
ghost use Rattle.lk_link.specs.PlanSections.{section_at};
ghost use Rattle.lk_place.specs.AtHand.{AreEvaluableLoads};
ghost use Rattle.lk_place.specs.PlacedBefore.{lies_in, standing_before};
ghost use Rattle.lk_place.specs.Placement.{load_by, loaded_by, loading};
ghost use Rattle.lk_expressions.specs.Records.{record_at};
ghost use Rattle.lk_place.specs.Walk.{IsWalkable, Rewrites, all_loaded, left_loaded, rewritten, setting_in};

use crate::cursors::Cursors;
use crate::error::Refusal;
use crate::walk::Walk;
use lk_expressions::{NoValue, OutputRecordLayout};
use lk_link::ids::OutputSectionId;
use lk_link::platform::Platform;

/// The load address of a section, or the refusal of one whose expression has no value.
fn loading(section: OutputSectionId, value: Result<u64, NoValue>) -> Result<Option<u64>, Refusal>
    ensures { result ≡ loading section value }
{
    match value {
        Ok(address) => Ok(Some(address)),
        Err(cause) => Err(Refusal::NoLoadAddress { section, cause }),
    }
}

/// A record, loaded from this address.
fn load_from(one: &OutputRecordLayout, address: u64) -> OutputRecordLayout
    ensures { result ≡ loaded_by (Some address) one.now }
{
    OutputRecordLayout {
        lma_offset: address,
        ..*one
    }
}

/// Has each record of a range loaded from this address.
fn load_range(records: &mut [OutputRecordLayout], first: usize, behind: usize, address: u64)
    requires within { behind ≤ length records.old }
    requires rises { first ≤ behind }
    ensures { (p : ℕ) → record_at records.new p
        ≡ (if lies_in first (behind - first) p then loaded_by (Some address) (record_at records.old p) else record_at records.old p) }
{
    for place in first..behind {
        records[place] = load_from(&records[place], address);
    }
}

impl<P: Platform> Walk<'_, P> {
    /// The load address of a section, if it names one, by the cursors behind it and the records of what is placed before an event.
    fn load_address(
        &self,
        event: usize,
        section: OutputSectionId,
        behind: Cursors,
        records: &[OutputRecordLayout],
    ) -> Result<Option<u64>, Refusal>
        requires walkable { IsWalkable P.segment_start self.now }
        requires in_range { section < length self.now.link.now.plan.sections }
        requires each { length records.now ≡ length (all_parts self.now.link.now.plan.sections) }
        requires loads { AreEvaluableLoads self.now.link.now.plan }
        ensures { let plan = self.now.link.now.plan in result ≡ load_by (setting_in P.segment_start self.now) section
            (standing_before plan records.now event) behind (section_at plan.sections section).at }
    {
        match &self.link.plan.sections.as_slice()[section.as_usize()].at {
            None => Ok(None),
            Some(expression) => loading(
                section,
                self.early_value(event, expression, behind, records),
            ),
        }
    }

    /// Has the parts of a section loaded from an address, if there is one.
    #[tactic(auto, using(lk_link::proofs::PartNumbers::part_numbers))]
    fn load_parts(
        &self,
        section: OutputSectionId,
        load: Option<u64>,
        records: &mut [OutputRecordLayout],
    )
        requires in_range { section < length self.now.link.now.plan.sections }
        requires each { length records.old ≡ length (all_parts self.now.link.now.plan.sections) }
        ensures { Rewrites (all_loaded (setting_in P.segment_start self.now) section load) records.old records.new }
    {
        match load {
            None => {}
            Some(address) => {
                let (first, behind) = self.link.plan.sections.part_range(section.as_usize());
                load_range(records, first, behind, address)
            }
        }
    }

    /// The number behind that of an event.
    fn number_behind(&self, event: usize) -> usize
        requires { event < length self.now.link.now.plan.events }
        ensures { result ≡ event + 1 }
    {
        let count = self.link.plan.events.as_slice().len();
        if event < count { event + 1 } else { count }
    }

    /// Places the section of the event with this number from the cursors on, has it loaded from its load address, and answers the
    /// cursors behind it.
    pub(crate) fn place_loaded(
        &self,
        event: usize,
        section: OutputSectionId,
        from: Cursors,
        records: &mut [OutputRecordLayout],
    ) -> Result<Cursors, Refusal>
        requires walkable { IsWalkable P.segment_start self.now }
        requires in_range { section < length self.now.link.now.plan.sections }
        requires here { slice_get self.now.link.now.plan.events event ≡ Some (Section section) }
        requires each { length records.old ≡ length (all_parts self.now.link.now.plan.sections) }
        requires loads { AreEvaluableLoads self.now.link.now.plan }
        ensures ends { let setting = setting_in P.segment_start self.now in let standing = standing_before setting.plan records.old event
            in result ≡ left_loaded setting standing section from }
        ensures records { let setting = setting_in P.segment_start self.now in let standing = standing_before setting.plan records.old event
            in OnOk result (Rewrites (rewritten setting standing (Some section) from) records.old records.new) }
    {
        let behind = self.place_section(section, from, records)?;
        let next = self.number_behind(event);
        let load = self.load_address(next, section, behind, &*records)?;
        self.load_parts(section, load, records);
        Ok(behind)
    }
}
