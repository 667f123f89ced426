//! The placement of one output section's parts.
//!
//! The parts with bytes stand one behind the other: each starts at the next multiple of its alignment, in the file too
//! where the section takes bytes of it. The first of them goes by the section's alignment, so that the section starts
//! where it does; parts without bytes rest there. Each record is written at its part's number into one table.

ghost use Rattle.std.specs.Prelude.{◌≡◌, ◌<◌, true, length, position, nat_lt, OnOk, IfOk, IfErr, SomeIff};
ghost use Rattle.lk_link.specs.Alignments.{is_alignment};
ghost use Rattle.lk_link.specs.Parts.{all_parts, part_at};
ghost use Rattle.lk_place.specs.Alignments.{section_alignment};
ghost use Rattle.lk_place.specs.Placement.{behind, first_walked, is_below, is_walked, next_end, overflow_at, placed_at};
ghost use Rattle.lk_place.specs.Placement.{resting, section_end, section_left, section_overflow, section_start, unless, walk_alignment};
ghost use Rattle.lk_place.specs.Setting.{size_at, takes_addresses};
ghost use Rattle.lk_place.specs.Walk.{IsPlacing, IsWalkable, Rewrites, all_written, fitting, one_written, setting_in};

use crate::cursors::{Cursors, Offsets};
use crate::error::Refusal;
use crate::walk::Walk;
use lk_expressions::OutputRecordLayout;
use lk_link::alignment::Alignment;
use lk_link::ids::OutputSectionId;
use lk_link::plan::PlanPart;
use lk_link::platform::Platform;

/// How the parts of one section are placed.
#[derive(Clone, Copy)]
pub(crate) struct Placing {
    section: OutputSectionId,
    /// Where its parts begin.
    begin: Offsets,
    /// Whether they take bytes of the file.
    backed: bool,
    /// The section's alignment.
    greatest: Alignment,
    /// The number of the first walked part.
    walked: usize,
    /// Its record, beside which the others rest, also those before it.
    first: OutputRecordLayout,
}

/// The record of a part that is placed from the offsets on; none where an end passes 2^64 - 1.
#[tactic(auto, unfolding(crate::specs::Placement::placed_at))]
fn fit_part(
    backed: bool,
    alignment: Alignment,
    size: u64,
    from: Offsets,
) -> Option<OutputRecordLayout>
    ensures { SomeIff result (is_below (behind (placed_at backed alignment size from)) ≡ true) (placed_at backed alignment size from) }
{
    let mem_offset = alignment.align_up(from.memory)?;
    let file_offset = if backed {
        alignment.align_up(from.file)?
    } else {
        from.file
    };
    let file_size = if backed { size } else { 0 };
    mem_offset.checked_add(size)?;
    file_offset.checked_add(file_size)?;
    Some(OutputRecordLayout {
        file_size,
        mem_size: size,
        alignment,
        file_offset,
        mem_offset,
        lma_offset: mem_offset,
    })
}

/// The same, or the refusal.
fn place_part(
    backed: bool,
    alignment: Alignment,
    size: u64,
    from: Offsets,
) -> Result<OutputRecordLayout, Refusal>
    ensures { let placed = placed_at backed alignment size from in result ≡ unless (overflow_at (behind placed)) placed }
{
    fit_part(backed, alignment, size, from).ok_or(Refusal::Overflow)
}

/// The offsets behind a part.
fn offsets_behind(placed: &OutputRecordLayout) -> Offsets
    ensures { result ≡ behind placed.now }
{
    Offsets {
        file: placed.file_end(),
        memory: placed.mem_end(),
    }
}

/// The record of a part that isn't walked, beside that of the first walked one.
fn rest_beside(first: &OutputRecordLayout, alignment: Alignment) -> OutputRecordLayout
    ensures { result ≡ resting first.now alignment }
{
    OutputRecordLayout {
        file_size: 0,
        mem_size: 0,
        alignment,
        file_offset: first.file_offset,
        mem_offset: first.mem_offset,
        lma_offset: first.mem_offset,
    }
}

/// The alignment of a part.
fn alignment_of(part: &PlanPart) -> Alignment
    requires { is_alignment part.now.alignment ≡ true }
    ensures { result ≡ part.now.alignment }
{
    Alignment::new(part.alignment).unwrap()
}

/// The number of the first part with bytes, if there is one.
fn first_with_bytes(sizes: &[u64]) -> Option<usize>
    ensures { result ≡ position (nat_lt 0) sizes.now }
{
    sizes.iter().position(|size| *size > 0)
}

impl<P: Platform> Walk<'_, P> {
    /// The number of a section's first walked part: the first with bytes, else the first.
    #[tactic(auto, using(lk_link::proofs::PartNumbers::part_numbers))]
    fn first_walked(&self, section: OutputSectionId) -> usize
        requires walkable { IsWalkable P.segment_start self.now }
        requires in_range { section < length self.now.link.now.plan.sections }
        ensures { result ≡ first_walked (setting_in P.segment_start self.now) section }
    {
        let (first, behind) = self.link.plan.sections.part_range(section.as_usize());
        first + first_with_bytes(&self.sizes[first..behind]).unwrap_or(0)
    }

    /// The alignment of a section.
    fn section_alignment(&self, section: OutputSectionId) -> Alignment
        requires walkable { IsWalkable P.segment_start self.now }
        requires in_range { section < length self.now.link.now.plan.sections }
        ensures { result ≡ section_alignment (setting_in P.segment_start self.now) section }
    {
        self.alignments.sections.as_slice()[section.as_usize()]
    }

    /// The bytes of the part with this number.
    fn size(&self, part: usize) -> u64
        requires { part < length self.now.sizes.now }
        ensures { result ≡ size_at self.now.sizes.now part }
    {
        self.sizes[part]
    }

    /// The alignment of the part with this number.
    fn part_alignment(&self, part: usize) -> Alignment
        requires walkable { IsWalkable P.segment_start self.now }
        requires in_range { part < length (all_parts self.now.link.now.plan.sections) }
        ensures { result ≡ (part_at self.now.link.now.plan.sections part).alignment }
    {
        alignment_of(&self.link.plan.sections.parts()[part])
    }

    /// The alignment at which a walked part is placed.
    fn walk_alignment(&self, placing: &Placing, part: usize) -> Alignment
        requires walkable { IsWalkable P.segment_start self.now }
        requires placing { IsPlacing (setting_in P.segment_start self.now) placing.now }
        requires in_range { part < length (all_parts self.now.link.now.plan.sections) }
        ensures { result ≡ walk_alignment (setting_in P.segment_start self.now) placing.now.section part }
    {
        if part == placing.walked {
            placing.greatest
        } else {
            self.part_alignment(part).lesser(placing.greatest)
        }
    }

    /// Whether a part is walked.
    fn is_walked(&self, placing: &Placing, part: usize) -> bool
        requires placing { IsPlacing (setting_in P.segment_start self.now) placing.now }
        requires in_range { part < length self.now.sizes.now }
        ensures { result ≡ is_walked (setting_in P.segment_start self.now) placing.now.section part }
    {
        self.size(part) > 0 || part == placing.walked
    }

    /// Places a part or lets it rest, writes its record, and answers the offsets behind it.
    #[tactic(auto, using(crate::proofs::PlacedParts::next_parts))]
    fn place_next(
        &self,
        placing: &Placing,
        part: usize,
        from: Offsets,
        records: &mut [OutputRecordLayout],
    ) -> Result<Offsets, Refusal>
        requires walkable { IsWalkable P.segment_start self.now }
        requires placing { IsPlacing (setting_in P.segment_start self.now) placing.now }
        requires in_range { part < length (all_parts self.now.link.now.plan.sections) }
        requires each { length records.old ≡ length (all_parts self.now.link.now.plan.sections) }
        ensures ends { result ≡ fitting (next_end (setting_in P.segment_start self.now) placing.now.section part from) }
        ensures records { let setting = setting_in P.segment_start self.now
            in OnOk result (Rewrites (one_written setting placing.now.section placing.now.begin part from) records.old records.new) }
    {
        if self.is_walked(placing, part) {
            let alignment = self.walk_alignment(placing, part);
            let placed = place_part(placing.backed, alignment, self.size(part), from)?;
            records[part] = placed;
            Ok(offsets_behind(&placed))
        } else {
            records[part] = rest_beside(&placing.first, self.part_alignment(part));
            Ok(from)
        }
    }

    /// Places the parts of a section one behind the other, and answers the offsets behind the last.
    #[tactic(auto, using(lk_link::proofs::PartNumbers::part_numbers))]
    fn place_parts(
        &self,
        placing: &Placing,
        records: &mut [OutputRecordLayout],
    ) -> Result<Offsets, Refusal>
        requires walkable { IsWalkable P.segment_start self.now }
        requires placing { IsPlacing (setting_in P.segment_start self.now) placing.now }
        requires in_range { placing.now.section < length self.now.link.now.plan.sections }
        requires each { length records.old ≡ length (all_parts self.now.link.now.plan.sections) }
        ensures ends { result ≡ fitting (section_end (setting_in P.segment_start self.now) placing.now.section placing.now.begin) }
        ensures records { let setting = setting_in P.segment_start self.now
            in OnOk result (Rewrites (all_written setting placing.now.section placing.now.begin) records.old records.new) }
    {
        let (first, behind) = self
            .link
            .plan
            .sections
            .part_range(placing.section.as_usize());
        let mut cursors = placing.begin;
        for place in 0..behind - first {
            cursors = self.place_next(placing, first + place, cursors, records)?;
        }
        Ok(cursors)
    }

    /// How the parts of a section are placed that begin here, unless the first walked one ends past 2^64 - 1.
    fn placing(&self, section: OutputSectionId, begin: Offsets) -> Result<Placing, Refusal>
        requires walkable { IsWalkable P.segment_start self.now }
        requires in_range { section < length self.now.link.now.plan.sections }
        ensures ok { IfOk result (IsPlacing (setting_in P.segment_start self.now)) }
        ensures same { IfOk result (λ placing. (placing.section ≡ section) × (placing.begin ≡ begin)) }
        ensures refused { let end = section_end (setting_in P.segment_start self.now) section begin
            in IfErr result (λ refusal. Err refusal ≡ fitting end) }
    {
        let backed = self.link.plan.is_file_backed(section);
        let greatest = self.section_alignment(section);
        let walked = self.first_walked(section);
        let first = place_part(backed, greatest, self.size(walked), begin)?;
        Ok(Placing {
            section,
            begin,
            backed,
            greatest,
            walked,
            first,
        })
    }

    /// Whether the parts of a section stand at addresses, and don't count from 0.
    fn takes_addresses(&self, section: OutputSectionId) -> bool
        ensures { result ≡ takes_addresses (setting_in P.segment_start self.now) section }
    {
        self.link.plan.is_allocated(section) && !self.link.options.output.is_partial()
    }

    /// Places a section from the cursors on, and answers the cursors behind it. One that takes no addresses counts from 0 in
    /// place of memory.
    pub(crate) fn place_section(
        &self,
        section: OutputSectionId,
        from: Cursors,
        records: &mut [OutputRecordLayout],
    ) -> Result<Cursors, Refusal>
        requires walkable { IsWalkable P.segment_start self.now }
        requires in_range { section < length self.now.link.now.plan.sections }
        requires each { length records.old ≡ length (all_parts self.now.link.now.plan.sections) }
        ensures ends { let setting = setting_in P.segment_start self.now
            in result ≡ unless (section_overflow setting section from) (section_left setting section from) }
        ensures records { let setting = setting_in P.segment_start self.now
            in OnOk result (Rewrites (all_written setting section (section_start setting section from)) records.old records.new) }
    {
        let addressed = self.takes_addresses(section);
        let begin = Offsets {
            file: from.file,
            memory: if addressed { from.memory } else { 0 },
        };
        let placing = self.placing(section, begin)?;
        let end = self.place_parts(&placing, records)?;
        Ok(Cursors {
            file: end.file,
            memory: if addressed { end.memory } else { from.memory },
            ..from
        })
    }
}
