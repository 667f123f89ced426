//! Reads a link description from JSON, and gives on the description's types and the check that it is well formed: a caller
//! needs this crate alone, also one that has a platform of its own.
#![tactic(auto)]

pub use lk_check::check_link;
pub use lk_link::relocation::{needs_tlsld, resolution_flags};
pub use lk_link::tables::GREATEST_ENTRY;
pub use lk_link::{
    Alignment, Allocation, Candidate, Candidates, DiscardLocals, Emit, Expression, FileId,
    FileKind, FileRef, Files, Gate, InputFile, InputGroups, InputRef, InputSection, InputSections,
    InputSlot, InputSymbol, Inputs, Limited, LinkFault, LinkInput, List, NamedParts, Names,
    NoDynamicIndex, NoGate, NotAnAddress, Operand, Operator, Options, OrderEvent, OutputKind,
    OutputSectionId, PartId, Place, Plan, PlanPart, PlanSection, PlanSections, PlanSegment,
    Platform, Region, RegionId, RelaxCandidate, Relocation, RelocationKind, Resolution, Rule,
    Section, SectionGcUnit, SectionSlot, SegmentId, SegmentKind, Small64, SymbolId, SymbolIdRange,
    SymbolLoc, SymbolPlacement, SymbolRef, TableCursors, Text, Token, UnloadedSection, ValueFlags,
    alignment, expression, fault, file, flags, gate, groups, ids, laws, limits, link, list, names,
    options, plan, platform, relocation, resolution, section, symbol, tables, text, walks,
};
pub use read::{
    InputError, read_link, read_link_by_workers, read_link_in_pieces,
    read_link_in_pieces_by_workers,
};

mod read;
