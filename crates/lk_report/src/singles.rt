//! The lines of the report on singletons: input sections that stay output sections of their own.

ghost use Rattle.std.specs.Prelude.{◌≡◌, ◌+◌, ◌++◌, ◌<◌, ◌≤◌, ◌^◌, if◌then◌else◌, IfOk, is_some, length, string_bytes};
ghost use Rattle.std.specs.List.{count_by};
ghost use Rattle.lk_layout.specs.Layouts.{emitted_count, is_told_singleton, told_singletons};
ghost use Rattle.lk_link.specs.Walks.{input_of};
ghost use Rattle.lk_link.specs.WellFormed.{IsWellFormed};
ghost use Rattle.lk_report.specs.LiveLines.{index_behind, single_text};
ghost use Rattle.lk_report.specs.Report.{each, single_line};

use lk_layout::Layout;
use lk_line::Line;
use lk_link::InputRef;
use lk_link::link::LinkInput;
use lk_link::marks::is_marked;
use lk_live::is_singleton;
use std::alloc::AllocError;

/// The lines of the singletons, whose indexes in the output follow those of the emitted sections. Looks at each input section once
/// where output is linked again; other output has none.
pub(crate) fn write_singles(
    text: &mut String,
    link: &LinkInput,
    layout: &Layout<'_>,
) -> Result<(), AllocError>
    requires good { IsWellFormed link.now }
    ensures { IfOk result (λ _. string_bytes text.new ≡ string_bytes text.old
        ++ each single_line (emitted_count layout.now) (told_singletons link.now layout.now)) }
{
    if !link.options.output.is_partial() {
        return Ok(());
    }
    let mut number = 0usize;
    let mut index = count_emitted(layout.output_section_indexes());
    for input in link.groups.inputs() {
        index = write_if_single(text, link, layout, number, index, input)?;
        number += 1;
    }
    Ok(())
}

/// How many output sections have an index.
#[tactic(auto, using(std::proofs::lemmas::List::Sums::sum_by_more))]
fn count_emitted(indexes: &[Option<u32>]) -> usize
    ensures value { result ≡ count_by is_some indexes.now }
    ensures room { result < 2 ^ 63 }
{
    let _len = length_of(indexes);
    let mut count = 0usize;
    for told in indexes {
        count = count.saturating_add(one_if(told.is_some()));
    }
    count
}

/// How many there are, which is far below 2^64.
fn length_of(indexes: &[Option<u32>]) -> usize
    ensures value { result ≡ length indexes.now }
    ensures room { result < 2 ^ 63 }
{
    indexes.len()
}

/// One, or none.
fn one_if(is_one: bool) -> usize
    ensures { result ≡ (if is_one then 1 else 0) }
{
    if is_one { 1 } else { 0 }
}

/// The line of the input section with this number over all files, if it is a singleton; `index` is then its index in the output. Answers
/// the index that is free behind it.
fn write_if_single(
    text: &mut String,
    link: &LinkInput,
    layout: &Layout<'_>,
    number: usize,
    index: usize,
    input: InputRef<'_>,
) -> Result<usize, AllocError>
    requires room { index + 1 < 2 ^ 64 }
    ensures text { IfOk result (λ _. string_bytes text.new ≡ string_bytes text.old ++ single_text link.now layout.now index (number, input_of input.entry)) }
    ensures index { IfOk result (λ behind. behind ≡ index_behind link.now layout.now index (number, input_of input.entry)) }
{
    if !is_told(link, layout, number, input) {
        return Ok(index);
    }
    write_single(text, index, input)?;
    Ok(index + 1)
}

/// Whether the input section with this number is live, and stays an output section of its own.
fn is_told(link: &LinkInput, layout: &Layout<'_>, number: usize, input: InputRef<'_>) -> bool
    ensures { result ≡ is_told_singleton link.now layout.now (number, input_of input.entry) }
{
    is_marked(layout.live_marks(), number) && is_singleton(link, input.section)
}

/// The line of a singleton.
#[tactic(auto, unfolding(crate::specs::Report::single_line))]
fn write_single(text: &mut String, index: usize, input: InputRef<'_>) -> Result<(), AllocError>
    ensures { IfOk result (λ _. string_bytes text.new ≡ string_bytes text.old ++ single_line index (input_of input.entry)) }
{
    let mut line = Line::new();
    line.put("\n");
    line.put_decimal(index as u64);
    line.put(" ");
    line.put_decimal(input.index as u64);
    line.put(" ");
    line.put_decimal(u64::from(input.file.file));
    line.put(" ");
    line.put_decimal(u64::from(input.file.group));
    line.put("single ");
    line.add_to(text)
}
