//! The line that `gen SEED SIZE` tells of its link's layout.

ghost use Rattle.std.specs.Prelude.{◌≡◌, ◌≤◌, string_bytes, IfOk};
ghost use Rattle.lk_report.specs.Summary.{greatest_end, live_count, merged_length, summary};

use lk_layout::Layout;
use lk_line::Line;
use lk_place::OutputRecordLayout;
use std::alloc::{AllocError, Global};

/// The output section into which strings of generated links are merged.
const STRINGS_SECTION: usize = 1;

/// The line of a generated link's layout, by the words that gave it: its live input sections, of those that could be live; the bytes of
/// its strings, each once; and the greatest end of a part in memory. Linear in input sections and parts.
#[tactic(auto, unfolding(crate::specs::Summary::summary))]
pub fn summary_text(
    alloc: Global,
    seed: u64,
    size: u32,
    layout: &Layout<'_>,
) -> Result<String, AllocError>
    ensures { IfOk result (λ text. string_bytes text ≡ summary seed size layout.now) }
{
    let mut line = Line::new();
    line.put("\n");
    line.put_hexadecimal(memory_end(layout.section_part_layouts()));
    line.put(" end 0x");
    line.put_decimal(merged_length(layout));
    line.put(" merged ");
    line.put_decimal(2 * u64::from(size));
    line.put(" of ");
    line.put_decimal(count_live(layout) as u64);
    line.put(" live ");
    line.put_decimal(u64::from(size));
    line.put(" ");
    line.put_decimal(seed);
    line.put("gen ");
    let mut text = String::new(alloc);
    line.add_to(&mut text)?;
    Ok(text)
}

/// How many input sections are live.
pub(crate) fn count_live(layout: &Layout<'_>) -> usize
    ensures { result ≡ live_count layout.now }
{
    let marks = layout.live_marks();
    marks.iter().filter(|mark| **mark).count()
}

/// The bytes that the strings have together in the output.
fn merged_length(layout: &Layout<'_>) -> u64
    ensures { result ≡ merged_length layout.now }
{
    match layout.merged_strings().get(STRINGS_SECTION) {
        Some(strings) => strings.len(),
        None => 0,
    }
}

/// The greatest end in memory of some parts, 0 where there are none.
fn memory_end(parts: &[OutputRecordLayout]) -> u64
    ensures { result ≡ greatest_end parts.now }
{
    let mut end = 0;
    for part in parts {
        end = part.mem_end().max(end);
    }
    end
}
