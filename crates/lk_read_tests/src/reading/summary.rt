//! What a description holds, in a line of text.

use lk_link::{
    Expression, InputFile, InputGroups, InputSection, InputSymbol, Names, Options, OrderEvent,
    Plan, PlanSection, Region, SymbolPlacement, Text, Token,
};
use lk_test_rows::add;
use std::alloc::AllocError;

/// All names, or none where none are given.
fn names_of(names: Option<&Names>) -> Option<&[Text]> {
    match names {
        Some(names) => Some(names.as_slice()),
        None => None,
    }
}

/// Operands and operators, in postfix order, or none where no expression is given.
fn tokens_of(expression: Option<&Expression>) -> Option<&[Token]> {
    match expression {
        Some(expression) => Some(expression.tokens()),
        None => None,
    }
}

pub fn add_options(line: &mut String, options: &Options) -> Result<(), AllocError> {
    let truths = (
        options.gc,
        options.error_objects,
        options.error_dynamics,
        options.export_all,
        options.restrictive,
        options.strip_all,
        options.relax,
    );
    let numbers = (
        options.stack,
        options.branch_range,
        options.bucket_limit,
        options.merge_group,
        options.entry,
    );
    let kinds = (options.output, options.discard);
    add(line, "options", &(kinds, truths, numbers))?;
    let export = names_of(options.export_list.as_ref());
    let strip = options.strip_names.as_slice();
    add(line, "names", &(export, strip, &options.identity))
}

pub fn add_plan(line: &mut String, plan: &Plan) -> Result<(), AllocError> {
    let truths = (plan.custom_base, plan.custom_phdrs, plan.phdrs_headers);
    add(line, "page", &(plan.page, plan.base.tokens(), truths))?;
    for section in plan.sections.as_slice() {
        add_output_section(line, section)?;
    }
    for region in plan.regions.as_slice() {
        add_region(line, region)?;
    }
    for event in plan.events.as_slice() {
        add_event(line, event)?;
    }
    let segments = plan.segments.as_slice();
    add(line, "segments", &(segments, plan.named, plan.singletons))
}

fn add_output_section(line: &mut String, section: &PlanSection) -> Result<(), AllocError> {
    let parts = section.parts.as_slice();
    let values = (section.attrs, section.align, parts, section.primary);
    let truths = (section.emit, section.top, section.counters);
    let place = (&section.region, tokens_of(section.at.as_ref()));
    add(line, "section", &(&section.name, values, truths, place))
}

fn add_region(line: &mut String, region: &Region) -> Result<(), AllocError> {
    let (origin, length) = (region.origin.tokens(), region.length.tokens());
    add(line, "region", &(&region.name, origin, length))
}

fn add_event(line: &mut String, event: &OrderEvent) -> Result<(), AllocError> {
    match event {
        OrderEvent::SegmentStart(id) => add(line, "seg", id),
        OrderEvent::SegmentEnd(id) => add(line, "endseg", id),
        OrderEvent::Section(id) => add(line, "sec", id),
        OrderEvent::SetLocation(location) => add(line, "loc", &location.tokens()),
        OrderEvent::SetLocationRelative(location, section) => {
            add(line, "locrel", &(location.tokens(), section))
        }
        OrderEvent::SetSectionAddress(address) => add(line, "addr", &address.tokens()),
    }
}

pub fn add_groups(line: &mut String, groups: &InputGroups) -> Result<(), AllocError> {
    add(line, "groups", &groups.len())?;
    for group in groups.as_slice() {
        line.push_str(" group")?;
        for file in group.as_slice() {
            add_file(line, file)?;
        }
    }
    Ok(())
}

fn add_file(line: &mut String, file: &InputFile) -> Result<(), AllocError> {
    let candidates = file.candidates.as_slice();
    let truths = (file.archive, file.export, file.check);
    add(line, "file", &(file.kind, &file.name, truths, candidates))?;
    for symbol in file.symbols.as_slice() {
        add_symbol(line, symbol)?;
    }
    for section in file.sections.as_slice() {
        add_input_section(line, section)?;
    }
    Ok(())
}

fn add_symbol(line: &mut String, symbol: &InputSymbol) -> Result<(), AllocError> {
    let truths = (symbol.local, symbol.weak, symbol.hidden);
    add(
        line,
        "symbol",
        &(&symbol.name, symbol.def, symbol.flags.0, truths),
    )?;
    add_placement(line, &symbol.at)
}

/// The word of a placement that is a word alone.
fn word_of(placement: &SymbolPlacement) -> &'static str {
    match placement {
        SymbolPlacement::Undef => " undef",
        SymbolPlacement::Dynamic => " dyn",
        SymbolPlacement::Undefined => " undefined",
        SymbolPlacement::ForceUndefined => " force",
        SymbolPlacement::TlsEnd => " tlsend",
        SymbolPlacement::LoadBaseAddress => " loadbase",
        _ => "",
    }
}

fn add_placement(line: &mut String, placement: &SymbolPlacement) -> Result<(), AllocError> {
    match placement {
        SymbolPlacement::Section { index, offset } => add(line, "sec", &(index, offset)),
        SymbolPlacement::Common { part, size } => add(line, "common", &(part, size)),
        SymbolPlacement::Absolute(value) => add(line, "abs", value),
        SymbolPlacement::SectionStart(id) => add(line, "start", id),
        SymbolPlacement::SectionEnd(id) => add(line, "end", id),
        SymbolPlacement::SectionGroupEnd(id) => add(line, "groupend", id),
        SymbolPlacement::Redirect {
            expression,
            loc,
            provide,
        } => add(line, "redirect", &(expression.tokens(), loc, provide)),
        word => line.push_str(word_of(word)),
    }
}

fn add_input_section(line: &mut String, section: &InputSection) -> Result<(), AllocError> {
    let bytes = section.bytes.as_slice();
    let contents = (section.slot, section.part, section.size, bytes);
    let truths = (section.given, section.strings, section.sorted);
    add(
        line,
        "section",
        &(
            &section.name,
            contents,
            truths,
            section.attrs,
            section.group,
        ),
    )?;
    let (relocs, relax) = (section.relocs.as_slice(), section.relax.as_slice());
    add(line, "holds", &(relocs, relax))
}
