//! A slice that is cut by ranges.

ghost use Rattle.std.specs.Prelude.{◌≡◌, IfOk, length, map};
ghost use Rattle.lk_deltas.specs.Shards.{AreShards, shard};

use std::alloc::{AllocError, Global};
use std::ops::Range;

/// Cuts a slice by ranges, so that each part can be written by itself: for each range where it starts, and its items, or 0 and
/// none for one without items. Those with items rise and are apart. What the slice holds once parts are written isn't told
/// (libwild: `split_ordered_symbol_ranges`).
pub fn split_ordered_symbol_ranges<'a, T>(
    alloc: Global,
    items: &'a mut [T],
    ranges: &[Range<usize>],
) -> Result<Vec<(usize, &'a mut [T])>, AllocError>
    requires { AreShards (length items.old) ranges.now }
    ensures { IfOk result (λ shards. map (λ s. (s.0, s.1.now)) shards.items ≡ map (shard items.old) ranges.now) }
{
    let mut shards = Vec::with_capacity(alloc, ranges.len())?;
    let mut rest = items;
    let mut cursor = 0;
    for range in ranges {
        if range.start >= range.end {
            let none: &mut [T] = &mut [];
            shards.push((0, none))?;
            continue;
        }
        let (_gap, from_start) = rest.split_at_mut(range.start - cursor);
        let (shard, behind) = from_start.split_at_mut(range.end - range.start);
        shards.push((range.start, shard))?;
        rest = behind;
        cursor = range.end;
    }
    Ok(shards)
}
