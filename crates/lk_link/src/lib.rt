//! The link description: its types, what it means for one to be well formed, and the platform that it is laid out for.
//! What is looked up by a number or a name has its index beside the list, made once when the list is made; contracts see
//! the plain lists. What is said of a type (allocated, loaded, kept) is a method with the definition's name.
#![tactic(auto)]

pub mod alignment;
mod by_number;
mod candidates;
mod ends;
pub mod expression;
pub mod fault;
pub mod file;
pub mod flags;
pub mod gate;
pub mod groups;
pub mod ids;
mod input_sections;
mod inside;
pub mod laws;
pub mod limits;
pub mod link;
pub mod list;
pub mod marks;
pub mod names;
pub mod options;
pub mod part_sections;
pub mod plan;
pub mod platform;
pub mod relocation;
pub mod resolution;
pub mod section;
pub mod symbol;
pub mod tables;
pub mod text;
pub mod walks;

pub use alignment::Alignment;
pub use expression::{Expression, Operand, Operator, Token};
pub use fault::{Limited, LinkFault, Place, Rule};
pub use file::{Candidate, Candidates, FileKind, InputFile, InputSections};
pub use flags::ValueFlags;
pub use gate::{Gate, NoGate};
pub use groups::{InputGroups, SymbolRef};
pub use ids::{FileId, OutputSectionId, PartId, RegionId, SegmentId, SymbolId, SymbolIdRange};
pub use link::LinkInput;
pub use list::List;
pub use names::Names;
pub use options::{DiscardLocals, Options, OutputKind};
pub use plan::{
    Emit, NamedParts, OrderEvent, Plan, PlanPart, PlanSection, PlanSections, PlanSegment, Region,
    SegmentKind,
};
pub use platform::{Platform, Small64};
pub use relocation::{RelaxCandidate, Relocation, RelocationKind};
pub use resolution::{NoDynamicIndex, NotAnAddress, Resolution};
pub use section::{InputSection, InputSlot, Section, SectionGcUnit, SectionSlot, UnloadedSection};
pub use symbol::{InputSymbol, SymbolLoc, SymbolPlacement};
pub use tables::{Allocation, TableCursors};
pub use text::Text;
pub use walks::{FileRef, Files, InputRef, Inputs};
