//! References to merged sections.

ghost use Rattle.std.specs.Prelude.{◌≡◌, Some, pos, true};
ghost use Rattle.lk_link.specs.Files.{file_in};
ghost use Rattle.lk_link.specs.Walks.{file_of};
ghost use Rattle.lk_merge.specs.Addresses.{image_start};
ghost use Rattle.lk_merge.specs.OutputAddresses.{merge_place, place_address};
ghost use Rattle.lk_resolutions.specs.Resolutions.{found_or_0};
ghost use Rattle.lk_resolutions.specs.Tables.{AreMergedOf};

use lk_link::{FileRef, InputSymbol, LinkInput};
use lk_merge::{
    MergedStringStartAddresses, MergedStringsSection, OffsetPastEnd,
    get_merged_string_output_address_in,
};

/// What is merged of a link, lent, with the addresses of buckets.
#[derive(Clone, Copy)]
pub(crate) struct Merged<'a> {
    pub(crate) link: &'a LinkInput,
    /// By output section.
    pub(crate) sections: &'a [MergedStringsSection<'a>],
    pub(crate) starts: &'a MergedStringStartAddresses,
}

/// The value of a symbol of a file that is placed in a merged section; 0 where it has none.
pub(crate) fn merged_value(merged: Merged<'_>, file: FileRef<'_>, symbol: &InputSymbol) -> u64
    requires belong { AreMergedOf merged.link.now merged.sections.now merged.starts.now }
    requires there { file_in merged.link.now.groups file.id ≡ Some file.file.now }
    ensures { result ≡ found_or_0 (place_address merged.entry.link.now (image_start merged.entry.starts.now) (pos 0) true
        (merge_place merged.entry.link.now.groups (file_of file.entry, symbol.now))) }
{
    let Merged {
        link,
        sections,
        starts,
    } = merged;
    let found = get_merged_string_output_address_in(link, file, symbol, 0, sections, starts, true);
    found_or_0(found)
}

/// An address that is found, else 0.
fn found_or_0(found: Result<Option<u64>, OffsetPastEnd>) -> u64
    ensures { result ≡ found_or_0 found }
{
    match found {
        Ok(address) => address.unwrap_or(0),
        Err(_) => 0,
    }
}
