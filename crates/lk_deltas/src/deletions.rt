//! What is deleted of the sections of all files.

ghost use Rattle.std.specs.Prelude.{◌≡◌, ◌<◌, ◌^◌, IsSome, slice_get};
ghost use Rattle.std.specs.Option.{option_copied};
ghost use Rattle.lk_link.specs.Files.{file_in};
ghost use Rattle.lk_link.specs.Symbols.{file_number};
ghost use Rattle.lk_deltas.specs.LinkDeletions.{deleted_in, deleted_of};

use crate::delta_map::RelaxDeltaMap;
use crate::deltas::SectionRelaxDeltas;
use lk_link::{FileId, LinkInput};

/// What is deleted of the section of a file with this index, if there is an entry for it; what is deleted of the sections of each
/// file stands at the file's number over all groups. Takes logarithmic time.
pub fn deleted_of<'a>(
    link: &LinkInput,
    deltas: &'a [RelaxDeltaMap],
    file: FileId,
    index: usize,
) -> Option<&'a SectionRelaxDeltas>
    requires there { IsSome (file_in link.now.groups file) }
    requires few { index < 2 ^ 32 }
    ensures { option_copied result ≡ deleted_of link.now.groups deltas.now file index }
{
    map_of(link, deltas, file)?.get(index as u32)
}

/// What is deleted of the sections of a file, if there is an entry for it. Takes constant time.
pub fn map_of<'a>(
    link: &LinkInput,
    deltas: &'a [RelaxDeltaMap],
    file: FileId,
) -> Option<&'a RelaxDeltaMap>
    requires { IsSome (file_in link.now.groups file) }
    ensures { option_copied result ≡ slice_get deltas.now (file_number link.now.groups file) }
{
    deltas.get(link.groups.file_number(file)?)
}

/// What is deleted of a section by its index, in a file of which this is deleted. Takes logarithmic time.
pub fn deleted_in(entries: Option<&RelaxDeltaMap>, index: u32) -> Option<&SectionRelaxDeltas>
    ensures { option_copied result ≡ deleted_in (option_copied entries.entry) index }
{
    entries?.get(index)
}
