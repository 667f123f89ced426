//! Room for long lists, little of which stays unused.

ghost use Rattle.std.specs.Prelude.{◌≡◌};

use std::alloc::AllocError;

/// Makes room for so many more items, and at once for an eighth of those that are there. So a list that grows by and by is moved seldom, and
/// once all is added that was asked for, an eighth of its room is unused at most.
pub(crate) fn make_room<T>(items: &mut Vec<T>, more: usize) -> Result<(), AllocError>
    ensures { items.new.items ≡ items.old.items }
{
    if more <= items.capacity().saturating_sub(items.len()) {
        return Ok(());
    }
    items.reserve_exact(more.max(items.len() / 8))
}
