//! What is kept of what a symbol stands for, in 16 bytes; the few that don't fit are kept whole in a list of their own.

ghost use Rattle.std.specs.Prelude.{◌≡◌, IfOk, IfSome, Some};
ghost use Rattle.lk_resolution_list.specs.Kept.{IsShort, IsWithin, StaysTold, short_index, told_of};

use lk_link::{Resolution, ValueFlags};
use std::alloc::AllocError;

/// In place of a number: the symbol has no resolution.
pub(crate) const NO_RESOLUTION: u32 = 4_294_967_295;

/// In place of a number: the resolution is kept whole.
pub(crate) const KEPT_WHOLE: u32 = 4_294_967_294;

/// What is kept of what a symbol stands for.
#[derive(Clone, Copy)]
pub(crate) struct Kept {
    /// The value, also of a resolution that is kept whole.
    pub(crate) raw_value: u64,
    /// The flags; of a resolution that is kept whole its place among those, where its flags stand.
    pub(crate) flags_or_place: u32,
    /// One more than the number in the dynamic symbol table, and 0 for none; or what stands in place of it.
    pub(crate) dynamic: u32,
}

impl Kept {
    /// What it tells, beside the resolutions that are kept whole. Takes constant time.
    pub(crate) fn told(self, wholes: &[Resolution]) -> Option<Resolution>
        ensures { result ≡ told_of wholes.now self }
    {
        if self.dynamic == NO_RESOLUTION {
            return None;
        }
        if self.dynamic == KEPT_WHOLE {
            let whole = wholes.get(self.flags_or_place as usize)?;
            return Some(Resolution {
                raw_value: self.raw_value,
                ..*whole
            });
        }
        Some(Resolution {
            raw_value: self.raw_value,
            flags: ValueFlags(self.flags_or_place),
            dynamic: self.dynamic.checked_sub(1),
            got: None,
            plt: None,
        })
    }
}

/// Keeps what a symbol stands for. What doesn't fit is added to the resolutions that are kept whole.
pub(crate) fn keep(
    wholes: &mut Vec<Resolution>,
    resolution: Option<Resolution>,
) -> Result<Kept, AllocError>
    ensures told { IfOk result (λ kept. told_of wholes.new.items kept ≡ resolution) }
    ensures within { IfOk result (λ kept. IsWithin wholes.new.items kept) }
    ensures stays { StaysTold wholes.old.items wholes.new.items }
{
    let Some(resolution) = resolution else {
        return Ok(Kept {
            raw_value: 0,
            flags_or_place: 0,
            dynamic: NO_RESOLUTION,
        });
    };
    match short(resolution) {
        Some(kept) => Ok(kept),
        None => keep_whole(wholes, resolution),
    }
}

/// A resolution in short, if it fits: without entries in `got` and `plt`, and with no number or one that leaves room for what may stand
/// in place of it.
fn short(resolution: Resolution) -> Option<Kept>
    ensures { IfSome result (λ kept. IsShort kept resolution) }
{
    if resolution.got.is_some() || resolution.plt.is_some() {
        return None;
    }
    let dynamic = short_index(resolution.dynamic)?;
    Some(Kept {
        raw_value: resolution.raw_value,
        flags_or_place: resolution.flags.0,
        dynamic,
    })
}

/// One more than a number, and 0 for none, if that is below what may stand in place of it.
fn short_index(dynamic: Option<u32>) -> Option<u32>
    ensures { result ≡ short_index dynamic }
{
    match dynamic {
        Some(number) if number < KEPT_WHOLE - 1 => Some(number + 1),
        Some(_) => None,
        None => Some(0),
    }
}

/// Adds a resolution to those that are kept whole; refused as want of memory where 2^32 are kept so.
fn keep_whole(wholes: &mut Vec<Resolution>, resolution: Resolution) -> Result<Kept, AllocError>
    ensures told { IfOk result (λ kept. told_of wholes.new.items kept ≡ Some resolution) }
    ensures within { IfOk result (λ kept. IsWithin wholes.new.items kept) }
    ensures stays { StaysTold wholes.old.items wholes.new.items }
{
    let Ok(place) = u32::try_from(wholes.len()) else {
        return Err(AllocError);
    };
    wholes.push(resolution)?;
    Ok(Kept {
        raw_value: resolution.raw_value,
        flags_or_place: place,
        dynamic: KEPT_WHOLE,
    })
}
