//! The commons of one file, among those of all.

ghost use Rattle.std.specs.Prelude.{◌≡◌, ◌++◌, ◌+◌, Some, drop, length, nat_le, position, take};
ghost use Rattle.lk_link.specs.Files.{file_in};
ghost use Rattle.lk_link.specs.Symbols.{first_symbol};
ghost use Rattle.lk_link.specs.Walks.{file_of};
ghost use Rattle.lk_link.specs.WellFormed.{IsWellFormed};
ghost use Rattle.lk_live.specs.declared.live.Live.{Live};
ghost use Rattle.lk_tables.specs.declared.commons.Common.{Common};
ghost use Rattle.lk_sizes.specs.Owners.{commons_of};
ghost use Rattle.lk_sizes.specs.Tables.{AreLeft, reach_from};

use lk_link::{FileRef, LinkInput};
use lk_tables::Common;

/// The number behind those of a file's symbols.
fn symbols_end(link: &LinkInput, file: FileRef<'_>) -> u32
    requires good { IsWellFormed link.now }
    requires there { file_in link.now.groups file.id ≡ Some file.file.now }
    ensures { result ≡ first_symbol link.now.groups file.entry.id + length file.entry.file.now.symbols }
{
    match link.groups.symbol_id_range(file.id) {
        Some(numbers) => numbers.start + numbers.count,
        None => 0,
    }
}

/// The place of the first of some commons whose symbol has this number or a greater one, if there is one.
fn first_from(commons: &[Common], end: u32) -> Option<usize>
    ensures { result ≡ position (λ (c : Common). nat_le end c.symbol) commons.now }
{
    commons
        .iter()
        .position(|common| end <= common.symbol.as_u32())
}

/// The commons before that one, and those from there on.
fn split_at_symbol(commons: &[Common], end: u32) -> (&[Common], &[Common])
    ensures front { result.0.now ≡ take (reach_from end commons.now) commons.now }
    ensures behind { result.1.now ≡ drop (reach_from end commons.now) commons.now }
{
    let place = first_from(commons, end).unwrap_or(commons.len());
    commons.split_at(place)
}

/// The commons of a file that take bytes, and those of the files behind it, by all of these, in the order of their symbols. Looks
/// at those of the file and one more.
pub(crate) fn split_commons<'a>(
    link: &LinkInput,
    file: FileRef<'_>,
    left: &'a [Common],
) -> (&'a [Common], &'a [Common])
    requires good { IsWellFormed link.now }
    requires there { file_in link.now.groups file.id ≡ Some file.file.now }
    ensures own { (live : Live) → AreLeft link.now live (file_of file.entry) left.now → result.0.now ≡ commons_of link.now live (file_of file.entry) }
    ensures all { result.0.now ++ result.1.now ≡ left.now }
{
    split_at_symbol(left, symbols_end(link, file))
}
