//! The file range of an output section, moved.

ghost use Rattle.std.specs.Prelude.{◌≡◌, ◌+◌, ◌^◌, ◌<◌, ℕ, length, sum_by};
ghost use Rattle.lk_place.specs.FileRange.{ran_on};
ghost use Rattle.lk_expressions.specs.Records.{record_at};

use lk_expressions::OutputRecordLayout;
use lk_link::plan::PlanSection;

/// Puts a part at this offset of the file, and gives its end there.
fn put_at(part: &mut OutputRecordLayout, start: u64) -> u64
    requires fits { start + part.old.file_size < 2 ^ 64 }
    ensures part { part.new ≡ record part.old { file_offset = start } }
    ensures end { result ≡ start + part.old.file_size }
{
    *part = OutputRecordLayout {
        file_offset: start,
        ..*part
    };
    part.file_end()
}

/// Puts a section's parts one behind the other in the file, from `start` on and without padding, and gives the end
/// (libwild: `assign_section_file_range`). `parts` are the records of this section's parts alone. Memory stays as it is.
pub fn assign_section_file_range(
    _section: &PlanSection,
    section_layout: &mut OutputRecordLayout,
    parts: &mut [OutputRecordLayout],
    start: u64,
) -> u64
    requires fits { start + sum_by (λ r. r.file_size) parts.old < 2 ^ 64 }
    ensures section { section_layout.new ≡ record section_layout.old { file_offset = start; file_size = sum_by (λ r. r.file_size) parts.old } }
    ensures parts { (p : ℕ) → p < length parts.old → record_at parts.new p ≡ ran_on start parts.old p }
    ensures end { result ≡ start + sum_by (λ r. r.file_size) parts.old }
{
    let mut end = start;
    for number in 0..parts.len() {
        end = put_at(&mut parts[number], end);
    }
    *section_layout = OutputRecordLayout {
        file_offset: start,
        file_size: end - start,
        ..*section_layout
    };
    end
}
