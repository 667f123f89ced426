//! The plan: output sections with their parts, segments, and the events that place them.

ghost use Rattle.std.specs.Prelude.{◌≡◌, ◌+◌, ◌≤◌, ◌<◌, ◌==◌, length, slice_get, IfOk};
ghost use Rattle.std.specs.Option.{option_copied};
ghost use Rattle.lk_link.specs.PartRules.{is_part};

use crate::expression::Expression;
use crate::ids::{OutputSectionId, PartId, SegmentId};
use crate::list::List;
use crate::text::Text;
use std::alloc::{AllocError, Global};
use std::marker::Model;

/// The attributes of an output section.
pub mod attributes {
    /// Has memory when the program runs.
    pub const ALLOC: u32 = 1;
    /// May be written.
    pub const WRITE: u32 = 2;
    /// Holds code.
    pub const EXEC: u32 = 4;
    /// Holds thread-local data.
    pub const TLS: u32 = 8;
    /// Takes no bytes of the file.
    pub const NOBITS: u32 = 16;
}

/// A part of an output section: the input sections of one alignment.
#[derive(Clone, Copy, Debug, PartialEq, Eq)]
pub struct PlanPart {
    /// Bytes; a power of two up to 65,536 in a checked link.
    pub alignment: u64,
    /// Whether sizes are taken as they are, and not rounded up to the alignment.
    pub packed: bool,
}

/// When an output section is emitted.
#[derive(Clone, Copy, Debug, PartialEq, Eq)]
pub enum Emit {
    /// Where something of it is kept.
    Auto,
    Always,
    Never,
}

impl Emit {
    ghost use Rattle.lk_link.specs.EmitKinds.{is_always, is_never};

    /// Whether it is emitted whatever is kept of it.
    pub fn is_always(self) -> bool
        ensures { result ≡ is_always self }
    {
        matches!(self, Emit::Always)
    }

    /// Whether it isn't emitted even where something of it is kept.
    pub fn is_never(self) -> bool
        ensures { result ≡ is_never self }
    {
        matches!(self, Emit::Never)
    }
}

/// An output section.
#[derive(Drop)]
pub struct PlanSection {
    pub name: Text,
    /// A set of `attributes`, below 32 in a checked link.
    pub attrs: u32,
    /// The least alignment; a power of two up to 65,536 in a checked link.
    pub align: u64,
    /// At least one in a checked link, with alignments that fall.
    pub parts: List<PlanPart>,
    /// The section that this one is secondary to; in a checked link another one, which isn't secondary itself.
    pub primary: Option<OutputSectionId>,
    pub emit: Emit,
    /// The name of the region that it is placed in.
    pub region: Option<Text>,
    /// Where it is loaded from.
    pub at: Option<Expression>,
    /// Whether the file cursor stays where a location moves this section, if it is secondary.
    pub top: bool,
    /// Whether it stretches its primary to its own ends, if it is secondary.
    pub counters: bool,
}

/// What a segment is for.
#[derive(Clone, Copy, Debug, PartialEq, Eq)]
pub enum SegmentKind {
    /// Loaded into memory.
    Load,
    /// Thread-local data.
    Tls,
    /// The stack.
    Stack,
    /// Anything else.
    Other,
}

impl SegmentKind {
    ghost use Rattle.lk_link.specs.SegmentKinds.{is_load, is_stack, is_tls};

    /// Whether it is loaded into memory.
    pub fn is_load(self) -> bool
        ensures { result ≡ is_load self }
    {
        matches!(self, SegmentKind::Load)
    }

    /// Whether it holds thread-local data.
    pub fn is_tls(self) -> bool
        ensures { result ≡ is_tls self }
    {
        matches!(self, SegmentKind::Tls)
    }

    /// Whether it is the stack.
    pub fn is_stack(self) -> bool
        ensures { result ≡ is_stack self }
    {
        matches!(self, SegmentKind::Stack)
    }
}

/// A segment.
#[derive(Clone, Copy, Debug, PartialEq, Eq)]
pub struct PlanSegment {
    pub kind: SegmentKind,
    /// Whether it is told even where nothing is inside.
    pub always: bool,
}

/// A memory region.
#[derive(Drop)]
pub struct Region {
    pub name: Text,
    /// The first address.
    pub origin: Expression,
    /// Bytes.
    pub length: Expression,
}

/// A step of the placement, in order (libwild: `OrderEvent`).
#[derive(Drop)]
pub enum OrderEvent {
    /// A segment opens.
    SegmentStart(SegmentId),
    /// A segment closes.
    SegmentEnd(SegmentId),
    /// A section is placed.
    Section(OutputSectionId),
    /// The location counter moves.
    SetLocation(Expression),
    /// The location counter moves, and not before the start of a section.
    SetLocationRelative(Expression, OutputSectionId),
    /// The next section gets this address.
    SetSectionAddress(Expression),
}

impl OrderEvent {
    ghost use Rattle.lk_link.specs.Rules.{is_location, moves_location};

    /// Whether it sets the location counter.
    pub fn is_location(&self) -> bool
        ensures { result ≡ is_location self.now }
    {
        matches!(
            self,
            OrderEvent::SetLocation(_) | OrderEvent::SetLocationRelative(_, _)
        )
    }

    /// Whether it moves what comes next: it sets the location counter, or gives the next section an address.
    pub fn moves_location(&self) -> bool
        ensures { result ≡ moves_location self.now }
    {
        matches!(
            self,
            OrderEvent::SetLocation(_)
                | OrderEvent::SetLocationRelative(_, _)
                | OrderEvent::SetSectionAddress(_)
        )
    }
}

/// The parts that the plan gives a meaning of their own. The first eleven, up to the section names, are table parts.
#[derive(Clone, Copy, Debug, PartialEq, Eq)]
pub struct NamedParts {
    pub got: Option<PartId>,
    pub plt: Option<PartId>,
    pub symtab_local: Option<PartId>,
    pub symtab_global: Option<PartId>,
    pub strtab: Option<PartId>,
    pub dynsym: Option<PartId>,
    pub dynstr: Option<PartId>,
    pub file_header: Option<PartId>,
    pub program_headers: Option<PartId>,
    pub section_headers: Option<PartId>,
    pub shstrtab: Option<PartId>,
    /// Where the linker's identity goes.
    pub comment: Option<PartId>,
    /// The code that thunks are made for.
    pub primary: Option<PartId>,
}

impl NamedParts {
    ghost use Rattle.lk_link.specs.PartRules.{is_table_part, table_parts};

    /// The table parts, which only the linker fills, in the order in which the plan names them.
    pub fn table_parts(&self) -> [Option<PartId>; 11]
        ensures { result ≡ table_parts self.now }
    {
        [
            self.got,
            self.plt,
            self.symtab_local,
            self.symtab_global,
            self.strtab,
            self.dynsym,
            self.dynstr,
            self.file_header,
            self.program_headers,
            self.section_headers,
            self.shstrtab,
        ]
    }

    /// Whether a part is a table part.
    pub fn is_table_part(&self, part: PartId) -> bool
        ensures { result ≡ is_table_part self.now part }
    {
        is_part(self.got, part)
            || is_part(self.plt, part)
            || is_part(self.symtab_local, part)
            || is_part(self.symtab_global, part)
            || is_part(self.strtab, part)
            || is_part(self.dynsym, part)
            || is_part(self.dynstr, part)
            || is_part(self.file_header, part)
            || is_part(self.program_headers, part)
            || is_part(self.section_headers, part)
            || is_part(self.shstrtab, part)
    }
}

/// Whether it is this part.
pub fn is_part(named: Option<PartId>, part: PartId) -> bool
    ensures { result ≡ is_part part named }
{
    match named {
        None => false,
        Some(named) => named.as_u32() == part.as_u32(),
    }
}

/// The plan of a link.
#[derive(Drop)]
pub struct Plan {
    /// Bytes of a memory page; a power of two up to 65,536 in a checked link.
    pub page: u64,
    /// Where memory starts.
    pub base: Expression,
    /// Whether the base was asked for, and isn't the platform's.
    pub custom_base: bool,
    /// Whether the program headers were asked for, and all segments are told.
    pub custom_phdrs: bool,
    /// Whether the headers stand in a segment.
    pub phdrs_headers: bool,
    pub sections: PlanSections,
    pub segments: List<PlanSegment>,
    pub regions: List<Region>,
    pub events: List<OrderEvent>,
    pub named: NamedParts,
    /// The section whose input sections stay output sections of their own in partial output.
    pub singletons: Option<OutputSectionId>,
}

impl Plan {
    ghost use Rattle.lk_link.specs.PartRules.{is_singleton_part};
    ghost use Rattle.lk_link.specs.PlanSections.{is_singletons, own_attributes, is_allocated, is_file_backed, is_thread_local, is_zero_fill_thread_local, has_memory};

    /// Whether the input sections of a section stay output sections of their own.
    pub fn is_singletons(&self, section: OutputSectionId) -> bool
        ensures { result ≡ is_singletons self.now section }
    {
        match self.singletons {
            Some(singletons) => singletons.as_u32() == section.as_u32(),
            None => false,
        }
    }

    /// Whether a part belongs to the section whose input sections stay output sections of their own.
    pub fn is_singleton_part(&self, part: PartId) -> bool
        ensures { result ≡ is_singleton_part self.now part }
    {
        match self.singletons {
            Some(section) => self.sections.is_part_of(section, part),
            None => false,
        }
    }

    /// The attributes of a section without its primary: none for that of the singletons, which is placed as a section
    /// without attributes. Takes constant time, as the tests below.
    pub fn own_attributes(&self, section: OutputSectionId) -> u32
        ensures { result ≡ own_attributes self.now section }
    {
        if self.is_singletons(section) {
            return 0;
        }
        self.sections.attributes(section)
    }

    /// Whether memory is set aside for a section when the program runs, as for its primary.
    pub fn is_allocated(&self, section: OutputSectionId) -> bool
        ensures { result ≡ is_allocated self.now section }
    {
        self.own_attributes(self.sections.primary_of(section)) & attributes::ALLOC != 0
    }

    /// Whether a section takes bytes of the file, as its primary does.
    pub fn is_file_backed(&self, section: OutputSectionId) -> bool
        ensures { result ≡ is_file_backed self.now section }
    {
        self.own_attributes(self.sections.primary_of(section)) & attributes::NOBITS == 0
    }

    /// Whether a section holds thread-local data.
    pub fn is_thread_local(&self, section: OutputSectionId) -> bool
        ensures { result ≡ is_thread_local self.now section }
    {
        self.own_attributes(section) & attributes::TLS != 0
    }

    /// Whether a section holds thread-local data that is all zero and takes no bytes of the file.
    pub fn is_zero_fill_thread_local(&self, section: OutputSectionId) -> bool
        ensures { result ≡ is_zero_fill_thread_local self.now section }
    {
        self.is_thread_local(section) && self.own_attributes(section) & attributes::NOBITS != 0
    }

    /// Whether a section takes addresses: it is allocated, and not zero-fill thread-local.
    pub fn has_memory(&self, section: OutputSectionId) -> bool
        ensures { result ≡ has_memory self.now section }
    {
        self.is_allocated(section) && !self.is_zero_fill_thread_local(section)
    }
}

/// The output sections, with an index of their parts. Contracts see the list of sections alone.
#[derive(Drop)]
pub struct PlanSections {
    sections: Vec<PlanSection>,
    parts: Vec<PlanPart>,
    starts: Vec<usize>,
}

impl Model for PlanSections {
    ghost use Rattle.std.specs.Prelude.{List};
    ghost use Rattle.lk_link.specs.declared.plan.PlanSection.{PlanSection};
    ghost use Rattle.std.specs.Coded.{codes};
    ghost use Rattle.lk_link.specs.contracts.expression.Expression as expression;

    ghost Value = { List PlanSection };

    ghost coded = { Prim.hlevel (codes, expression.the_row.coded) };

    ghost use Rattle.lk_link.specs.Parts.{IsIndexed};

    ghost view = { λ a. a.sections.items };

    ghost invariant = { λ a. IsIndexed a.sections.items a.parts.items a.starts.items };
}

impl PlanSections {
    ghost use Rattle.lk_link.specs.PartRules.{is_part_of};
    ghost use Rattle.lk_link.specs.Parts.{all_parts, first_part};
    ghost use Rattle.lk_link.specs.PlanSections.{section_at, primary_of};

    /// Makes the index of the sections.
    pub fn new(alloc: Global, sections: List<PlanSection>) -> Result<PlanSections, AllocError>
        ensures { IfOk result (λ all. all ≡ sections) }
    {
        let sections = sections.into_vec();
        let mut parts = Vec::new(alloc);
        let mut starts = Vec::with_capacity(alloc, sections.len())?;
        for section in &sections {
            starts.push(parts.len())?;
            parts.extend_from_slice(section.parts.as_slice())?;
        }
        starts.push(parts.len())?;
        Ok(PlanSections {
            sections,
            parts,
            starts,
        })
    }

    /// All sections, lent.
    pub fn as_slice(&self) -> &[PlanSection]
        ensures { result.now ≡ self.now }
    {
        self.sections.as_slice()
    }

    /// How many sections there are.
    pub fn len(&self) -> usize
        ensures { result ≡ length self.now }
    {
        self.sections.len()
    }

    /// Whether there are none.
    pub fn is_empty(&self) -> bool
        ensures { result ≡ (length self.now == 0) }
    {
        self.sections.is_empty()
    }

    /// The section with this number, if there is one.
    pub fn get(&self, section: OutputSectionId) -> Option<&PlanSection>
        ensures { option_copied result ≡ slice_get self.now section }
    {
        self.sections.as_slice().get(section.as_usize())
    }

    /// The section that this one is secondary to, else itself.
    pub fn primary_of(&self, section: OutputSectionId) -> OutputSectionId
        ensures { result ≡ primary_of self.now section }
    {
        match self.get(section) {
            Some(found) => found.primary.unwrap_or(section),
            None => section,
        }
    }

    /// The attributes of a section; none where there is no such section.
    fn attributes(&self, section: OutputSectionId) -> u32
        ensures { result ≡ (section_at self.now section).attrs }
    {
        match self.get(section) {
            Some(found) => found.attrs,
            None => 0,
        }
    }

    /// The parts of all sections, in order, lent.
    pub fn parts(&self) -> &[PlanPart]
        ensures { result.now ≡ all_parts self.now }
    {
        self.parts.as_slice()
    }

    /// The part with this number over all sections, if there is one. Takes constant time.
    pub fn part(&self, part: PartId) -> Option<&PlanPart>
        ensures { option_copied result ≡ slice_get (all_parts self.now) part }
    {
        self.parts.as_slice().get(part.as_usize())
    }

    /// The number of a section's first part; at the number of sections, the number of parts.
    pub fn first_part(&self, section: usize) -> usize
        requires { section ≤ length self.now }
        ensures { result ≡ first_part self.now section }
    {
        self.starts[section]
    }

    /// The numbers of a section's first part, and of the part behind its last.
    pub fn part_range(&self, section: usize) -> (usize, usize)
        requires { section < length self.now }
        ensures first { result.0 ≡ first_part self.now section }
        ensures behind { result.1 ≡ first_part self.now (section + 1) }
    {
        (self.starts[section], self.starts[section + 1])
    }

    /// Whether a part belongs to this section.
    pub fn is_part_of(&self, section: OutputSectionId, part: PartId) -> bool
        ensures { result ≡ is_part_of self.now section part }
    {
        let section = section.as_usize();
        if section < self.len() {
            let (first, behind) = self.part_range(section);
            first <= part.as_usize() && part.as_usize() < behind
        } else {
            false
        }
    }
}
