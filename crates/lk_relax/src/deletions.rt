//! The sizes of input sections without what is deleted of them.

ghost use Rattle.std.specs.Prelude.{◌≡◌, IfOk};
ghost use Rattle.lk_link.specs.Walks.{input_of};
ghost use Rattle.lk_link.specs.WellFormed.{IsWellFormed};
ghost use Rattle.lk_sizes.specs.Tables.{IsInput};
ghost use Rattle.lk_deltas.specs.LinkDeletions.{size_after, sizes_after};

use lk_deltas::{RelaxDeltaMap, deleted_of, opt_input_to_output};
use lk_link::{InputRef, LinkInput};
use std::alloc::{AllocError, Global};

/// The sizes of all input sections, by their numbers, without what is deleted of them. Looks at each section once.
pub fn sizes_after(
    alloc: Global,
    link: &LinkInput,
    deltas: &[RelaxDeltaMap],
) -> Result<Vec<u64>, AllocError>
    requires { IsWellFormed link.now }
    ensures { IfOk result (λ sizes. sizes.items ≡ sizes_after link.now.groups deltas.now) }
{
    let mut sizes = Vec::with_capacity(alloc, link.groups.input_count() as usize)?;
    for input in link.groups.inputs() {
        sizes.push(size_after(link, deltas, input))?;
    }
    Ok(sizes)
}

/// The size of an input section without what is deleted of it.
fn size_after(link: &LinkInput, deltas: &[RelaxDeltaMap], input: InputRef<'_>) -> u64
    requires good { IsWellFormed link.now }
    requires there { IsInput link.now (input_of input) }
    ensures { result ≡ size_after link.now.groups deltas.now (input_of input.entry) }
{
    let deleted = deleted_of(link, deltas, input.file, input.index);
    opt_input_to_output(deleted, input.section.size)
}
