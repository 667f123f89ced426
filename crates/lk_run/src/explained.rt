//! The answer to `why G F I`: the path by which a section is kept that is shown, or that none leads to it.

ghost use Rattle.std.specs.Prelude.{◌≡◌, ◌++◌, codes, string_bytes, option_map, IfOk};
ghost use Rattle.std.specs.List.{flat_map};
ghost use Rattle.lk_input.specs.Reading.{reading_of};
ghost use Rattle.lk_link.specs.Texts.{link_fault_text};
ghost use Rattle.lk_link.specs.WellFormed.{IsWellFormed};
ghost use Rattle.lk_run.specs.Run.{IsAnswerToReading, IsSectionAnswer, IsWhyAnswer, refused};
ghost use Rattle.lk_run.specs.WhyTexts.{no_section_text, unit_line, way_lines, why_line, why_text};

use crate::answer::{Answer, done, refused};
use crate::inputs::{Reading, read_up};
use lk_check::check_link;
use lk_explain::{ExplainError, Unit, explain};
use lk_link::{FileId, LinkFault, LinkInput};
use std::alloc::{AllocError, Global};

/// Bytes that the line of a unit mostly has room in.
const UNIT_LINE: usize = 24;

/// Bytes that the first line and the last have room in.
const FRAME: usize = 48;

/// The line of a unit.
#[tactic(auto, unfolding(crate::specs::WhyTexts::unit_line))]
fn write_unit(text: &mut String, unit: &Unit) -> Result<(), AllocError>
    ensures { IfOk result (λ _. string_bytes text.new ≡ string_bytes text.old ++ unit_line unit.now) }
{
    match *unit {
        Unit::Sym(symbol) => {
            let symbol = symbol.as_u32();
            write!(text, "symbol {symbol}\n")
        }
        Unit::Sec(FileId { group, file }, index) => {
            write!(text, "section {group} {file} {index}\n")
        }
    }
}

/// The lines of units.
fn write_units(text: &mut String, units: &[Unit]) -> Result<(), AllocError>
    ensures { IfOk result (λ _. string_bytes text.new ≡ string_bytes text.old ++ flat_map unit_line units.now) }
{
    for unit in units {
        write_unit(text, unit)?;
    }
    Ok(())
}

/// The line of the words.
#[tactic(auto, unfolding(crate::specs::WhyTexts::why_line))]
fn write_words(text: &mut String, section: FileId, index: u32) -> Result<(), AllocError>
    ensures { IfOk result (λ _. string_bytes text.new ≡ string_bytes text.old ++ why_line section index) }
{
    let FileId { group, file } = section;
    write!(text, "why {group} {file} {index}\n")
}

/// The lines of a path, or that there is none.
fn write_way(text: &mut String, way: &Option<Vec<Unit>>) -> Result<(), AllocError>
    ensures { IfOk result (λ _. string_bytes text.new ≡ string_bytes text.old ++ way_lines (option_map (λ path. path.items) way.now)) }
{
    match way {
        Some(path) => write_units(text, path.as_slice()),
        None => text.push_str("not reached\n"),
    }
}

/// What is told of a section by the path to it, or by that there is none. Made into one buffer, which mostly isn't grown.
fn text_of(
    alloc: Global,
    section: FileId,
    index: u32,
    way: &Option<Vec<Unit>>,
) -> Result<String, AllocError>
    ensures { IfOk result (λ text. string_bytes text ≡ why_text section index (option_map (λ path. path.items) way.now)) }
{
    let count = way.as_ref().map_or(0, |path| path.len());
    let mut text = String::with_capacity(alloc, room_of(count))?;
    write_words(&mut text, section, index)?;
    write_way(&mut text, way)?;
    text.push_str("end\n")?;
    Ok(text)
}

/// How many bytes the text of a path with so many units mostly has.
fn room_of(units: usize) -> usize {
    units.saturating_mul(UNIT_LINE).saturating_add(FRAME)
}

/// The answer that there is no such section.
#[tactic(auto, unfolding(crate::specs::WhyTexts::no_section_text))]
fn answer_missing(alloc: Global, section: FileId, index: u32) -> Result<Answer, AllocError>
    ensures { IfOk result (λ answer. answer ≡ refused (no_section_text section index)) }
{
    let FileId { group, file } = section;
    let text = format!(in alloc; "no such section: {group} {file} {index}\n")?;
    Ok(refused(text))
}

/// The answer that tells the fault of a link.
fn answer_fault(alloc: Global, fault: &LinkFault) -> Result<Answer, AllocError>
    ensures { IfOk result (λ answer. answer ≡ refused (link_fault_text fault.now ++ codes "\n")) }
{
    let text = format!(in alloc; "{fault}\n")?;
    Ok(refused(text))
}

/// The answer to a link without a fault.
fn answer_section(
    alloc: Global,
    link: &LinkInput,
    section: FileId,
    index: u32,
) -> Result<Answer, AllocError>
    requires { IsWellFormed link.now }
    ensures { IfOk result (IsSectionAnswer link.now section index) }
{
    match explain(alloc, link, Unit::Sec(section, index)) {
        Ok(way) => Ok(done(text_of(alloc, section, index, &way)?)),
        Err(ExplainError::NoSuchUnit) => answer_missing(alloc, section, index),
        Err(ExplainError::NoMemory) => Err(AllocError),
    }
}

/// The answer to a link.
fn answer_link(
    alloc: Global,
    link: &LinkInput,
    section: FileId,
    index: u32,
) -> Result<Answer, AllocError>
    ensures { IfOk result (IsWhyAnswer section index link.now) }
{
    match check_link(link) {
        Ok(()) => answer_section(alloc, link, section, index),
        Err(fault) => answer_fault(alloc, &fault),
    }
}

/// The answer of `why G F I` to all bytes of the source.
pub(crate) fn answer_why(
    alloc: Global,
    section: FileId,
    index: u32,
    bytes: Vec<u8>,
) -> Result<Answer, AllocError>
    ensures { IfOk result (IsAnswerToReading (IsWhyAnswer section index) (reading_of bytes.items)) }
{
    match read_up(alloc, bytes)? {
        Reading::Link(link) => {
            let answer = answer_link(alloc, &link, section, index);
            drop(link);
            answer
        }
        Reading::Fault(answer) => Ok(answer),
    }
}
