//! What is known of output that is linked again: the singletons of each group, with their indexes in the output, and the symbols
//! that are copied though they have no place.

ghost use Rattle.lk_link.specs.WellFormed.{IsWellFormed};

use crate::rows::{Asked, expect_rows};
use crate::sizes::OfSizes;
use lk_check::check_link;
use lk_link::{LinkInput, SymbolId, ValueFlags};
use lk_live::{Live, traverse_alone};
use lk_sizes::{PartialLinkPlan, PartialLinkSingletons, SymbolCopyInfo};
use lk_test_rows::add;
use std::alloc::{AllocError, Global};
use std::test::Fail;

/// Output that isn't linked again; such output without singletons; two live singletons in one group and one in the next, behind four
/// emitted sections; ones without a name or without bytes, and one that nothing keeps; symbols that are undefined, in a discarded
/// section, local there, without a name, and one for which another stands.
const PARTIAL: &str = r#"
{"plan":{"page":16},"groups":[[{"kind":"prelude"}],[{"kind":"object","symbols":[{"at":["undef"],"name":"u"}]}]]} => none undefined [None]
{"options":{"output":"partial"},"plan":{"page":16},"groups":[[{"kind":"prelude"}],[]]} => groups [(0, 0), (0, 0)] empty true indexes [] behind 4 undefined []
{"options":{"output":"partial"},"plan":{"page":16,"sections":[{"parts":[[1,false]]}],"events":[["sec",0]],"singletons":0},"groups":[[{"kind":"prelude"}],[{"kind":"object","sections":[{"slot":"must","size":1,"name":"a"},{"slot":"must","size":1,"name":"bc"}]}],[{"kind":"object","sections":[{"slot":"must","size":1,"name":"def"}]}]]} => groups [(0, 0), (2, 5), (1, 4)] empty false indexes [4, 5, 6] behind 7 undefined []
{"options":{"output":"partial"},"plan":{"page":16,"sections":[{"parts":[[1,false]]},{"parts":[[1,false]]}],"events":[["sec",0],["sec",1]],"singletons":1},"groups":[[{"kind":"prelude"}],[{"kind":"object","sections":[{"slot":"must","size":1,"part":0,"name":"a"},{"slot":"must","part":1},{"slot":"unloaded","part":1,"size":4,"name":"b"}]},{"kind":"object","sections":[{"slot":"must","part":1,"size":2}]}]]} => groups [(0, 0), (2, 2)] empty false indexes [4, 5] behind 6 undefined []
{"options":{"output":"partial"},"plan":{"page":16},"groups":[[{"kind":"prelude"}],[{"kind":"object","sections":[{"slot":"discard"}],"symbols":[{"at":["undef"],"name":"u"},{"at":["sec",0,0],"name":"d"},{"at":["sec",0,0],"name":"l","local":true},{"at":["undef"]},{"at":["undef"],"name":"w","def":0},{"at":["abs",1],"name":"n"}]}]]} => groups [(0, 0), (0, 0)] empty true indexes [] behind 4 undefined [Some("u"), Some("d"), None, None, None, None]
"#;

/// Adds the indexes of all singletons behind four emitted sections.
fn add_indexes(
    alloc: Global,
    line: &mut String,
    singletons: &PartialLinkSingletons,
) -> Result<(), AllocError> {
    let range = singletons.output_index_range(4);
    let mut indexes = Vec::new(alloc);
    for ordinal in 0..range.end - range.start {
        indexes.push(singletons.output_index(range.start, ordinal))?;
    }
    add(line, "indexes", &indexes)?;
    add(line, "behind", &range.end)
}

/// Adds what is known of output that is linked again.
fn add_plan(
    alloc: Global,
    line: &mut String,
    plan: &Option<PartialLinkPlan>,
) -> Result<(), AllocError> {
    match plan {
        Some(plan) => {
            add(line, "groups", &plan.singletons.group_sizes())?;
            add(line, "empty", &plan.singletons.is_empty())?;
            add_indexes(alloc, line, &plan.singletons)
        }
        None => write!(line, "none"),
    }
}

/// Adds the name under which each symbol is copied though it has no place, if it were wanted.
fn add_undefined(
    alloc: Global,
    line: &mut String,
    link: &LinkInput,
    live: &Live,
) -> Result<(), AllocError>
    requires { IsWellFormed link.now }
{
    let mut names = Vec::new(alloc);
    let mut number = 0u32;
    for flags in live.flags.as_slice() {
        let wanted = flags.merge(ValueFlags::DIRECT);
        let symbol = SymbolId::from_u32(number);
        let copy = SymbolCopyInfo::for_undefined(link, symbol, live, wanted);
        names.push(copy.map(|copy| copy.name()))?;
        number = number.saturating_add(1);
    }
    add(line, "undefined", &names)
}

/// Adds both.
fn add_known(
    alloc: Global,
    line: &mut String,
    link: &LinkInput,
    live: &Live,
) -> Result<(), AllocError>
    requires { IsWellFormed link.now }
{
    let plan = PartialLinkPlan::build(alloc, link, live)?;
    add_plan(alloc, line, &plan)?;
    add_undefined(alloc, line, link, live)
}

/// Adds both, of a link that is well formed.
pub fn add_partial(alloc: Global, line: &mut String, link: &LinkInput) -> Result<(), AllocError> {
    if check_link(link).is_err() {
        return Ok(());
    }
    match traverse_alone(alloc, link) {
        Ok(live) => add_known(alloc, line, link, &live),
        Err(_) => Ok(()),
    }
}

#[test]
fn singletons_are_counted_by_group(rt: HostRuntime) -> Result<(), Fail> {
    expect_rows(&rt, rt.alloc(), Asked::Sizes(OfSizes::Partial), PARTIAL)
}
