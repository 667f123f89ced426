//! The options and the plan of a generated link, which are the same for all.

ghost use Rattle.std.specs.Prelude.{◌≡◌, ℕ, IfOk, string_bytes};
ghost use Rattle.lk_generator.specs.Generated.{default_options, generated_plan, no_named_parts, one_part_section};

use lk_link::expression::Expression;
use lk_link::ids::{OutputSectionId, SegmentId};
use lk_link::list::List;
use lk_link::names::Names;
use lk_link::options::{DiscardLocals, Options, OutputKind};
use lk_link::plan::{
    Emit, NamedParts, OrderEvent, Plan, PlanPart, PlanSection, PlanSections, PlanSegment,
    SegmentKind, attributes,
};
use lk_link::text::Text;
use std::alloc::{AllocError, Global};

/// The most bytes of a bucket of merged strings, where nothing else is asked for.
const BUCKET_LIMIT: u64 = 268_435_456;

/// About how many bytes of strings are merged in one go, where nothing else is asked for.
const MERGE_GROUP: u64 = 140_000;

/// The options of a link for which nothing is asked.
pub(crate) fn default_options(alloc: Global) -> Options
    ensures { result ≡ default_options }
{
    Options {
        output: OutputKind::StaticExecutable,
        gc: true,
        error_objects: true,
        error_dynamics: true,
        export_all: false,
        export_list: None,
        restrictive: false,
        strip_all: false,
        discard: DiscardLocals::Default,
        strip_names: Names::empty(alloc),
        identity: None,
        stack: 0,
        entry: None,
        relax: false,
        branch_range: 0,
        bucket_limit: BUCKET_LIMIT,
        merge_group: MERGE_GROUP,
    }
}

/// Code, read-only data and data, in one load segment.
pub(crate) fn generated_plan(alloc: Global) -> Result<Plan, AllocError>
    ensures { IfOk result (λ plan. plan ≡ generated_plan) }
{
    let mut sections = Vec::with_capacity(alloc, 3)?;
    let code = attributes::ALLOC | attributes::EXEC;
    let data = attributes::ALLOC | attributes::WRITE;
    sections.push(one_part_section(alloc, ".text", code, 16)?)?;
    sections.push(one_part_section(alloc, ".rodata", attributes::ALLOC, 1)?)?;
    sections.push(one_part_section(alloc, ".data", data, 8)?)?;
    let mut segments = Vec::with_capacity(alloc, 1)?;
    segments.push(PlanSegment {
        kind: SegmentKind::Load,
        always: false,
    })?;
    let events = events(alloc)?;
    Ok(Plan {
        page: 4096,
        base: Expression::number(alloc, 4_194_304)?,
        custom_base: false,
        custom_phdrs: false,
        phdrs_headers: false,
        sections: PlanSections::new(alloc, List::from_vec(sections))?,
        segments: List::from_vec(segments),
        regions: List::new(alloc),
        events: List::from_vec(events),
        named: NO_NAMED_PARTS,
        singletons: None,
    })
}

/// A plan that gives no part a meaning of its own.
const NO_NAMED_PARTS: NamedParts = NamedParts {
    got: None,
    plt: None,
    symtab_local: None,
    symtab_global: None,
    strtab: None,
    dynsym: None,
    dynstr: None,
    file_header: None,
    program_headers: None,
    section_headers: None,
    shstrtab: None,
    comment: None,
    primary: None,
};

/// The events: the three sections, inside the segment.
fn events(alloc: Global) -> Result<Vec<OrderEvent>, AllocError>
    ensures { IfOk result (λ events. events.items ≡ generated_plan.events) }
{
    let mut events = Vec::with_capacity(alloc, 5)?;
    events.push(OrderEvent::SegmentStart(SegmentId::from_u32(0)))?;
    events.push(OrderEvent::Section(OutputSectionId::from_u32(0)))?;
    events.push(OrderEvent::Section(OutputSectionId::from_u32(1)))?;
    events.push(OrderEvent::Section(OutputSectionId::from_u32(2)))?;
    events.push(OrderEvent::SegmentEnd(SegmentId::from_u32(0)))?;
    Ok(events)
}

/// An output section of one part that isn't packed.
fn one_part_section(
    alloc: Global,
    name: &str,
    attrs: u32,
    alignment: u64,
) -> Result<PlanSection, AllocError>
    ensures { IfOk result (λ section. section ≡ one_part_section name.now attrs alignment) }
{
    let part = PlanPart {
        alignment,
        packed: false,
    };
    Ok(PlanSection {
        name: Text::from_string(String::from_str(alloc, name)?),
        attrs,
        align: 1,
        parts: List::from_vec(Vec::from_slice(alloc, &[part])?),
        primary: None,
        emit: Emit::Auto,
        region: None,
        at: None,
        top: false,
        counters: false,
    })
}
