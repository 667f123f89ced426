//! Sections that are told one by one in output that is linked again: output sections whose edges are told, and input sections
//! that stay output sections of their own.

ghost use Rattle.std.specs.Prelude.{◌≡◌, ◌≤◌, length};
ghost use Rattle.lk_link.specs.WellFormed.{IsWellFormed};
ghost use Rattle.lk_tables.specs.Singletons.{singleton_name_bytes, singletons, told_sections};

use lk_live::{Live, is_singleton};
use lk_link::LinkInput;
use lk_link::marks::is_marked;

/// How many singletons a link has, and the bytes of their names, with a zero byte behind each. Looks at each input section once
/// where output is linked again; other output has none (libwild: `PartialLinkPlan`).
pub fn singleton_sizes(link: &LinkInput, live: &Live) -> (u32, u64)
    requires { IsWellFormed link.now }
    ensures count { result.0 ≡ length (singletons link.now live.now) }
    ensures few { result.0 ≤ 16777216 }
    ensures names { result.1 ≡ singleton_name_bytes link.now live.now }
{
    if !link.options.output.is_partial() {
        return (0, 0);
    }
    let mut count = 0u32;
    let mut bytes = 0u64;
    for input in live.inputs(link) {
        if is_singleton(link, input.section) {
            count = count.saturating_add(1);
            bytes = bytes
                .saturating_add(input.section.name.len() as u64)
                .saturating_add(1);
        }
    }
    (count, bytes)
}

/// How many output sections have their edges told, by marks of these. Takes no memory.
pub(crate) fn told_count(link: &LinkInput, told: &[bool]) -> u32
    requires { IsWellFormed link.now }
    ensures { result ≡ length (told_sections link.now told.now) }
{
    let mut count = 0u32;
    for number in 0..link.plan.sections.len() {
        if is_marked(told, number) {
            count = count.saturating_add(1);
        }
    }
    count
}
