//! Laws on owners and sizes.

ghost use Rattle.lk_sizes.specs.Addresses.{CommonsRise, TableTellsLiveSections};
ghost use Rattle.lk_size_laws.specs.GroupRanges.{GroupsFollow};
ghost use Rattle.lk_sizes.specs.Images.{ImagesAreOwners, ImagesStandWhereInputsGo};
ghost use Rattle.lk_sizes.specs.PartOwners.{CommonsAreOwners, LiveSectionsAreOwners, ThunksAreOwners};
ghost use Rattle.lk_size_laws.specs.OwnerLaws.{EntriesAreOwners, IdentityIsOwner, OwnersAreLive, OwnersStandOnce, TablePartsHaveEntriesAlone};
ghost use Rattle.lk_sizes.specs.Sorted.{NoOtherOrder, SortedStandByName};
ghost use Rattle.lk_size_laws.specs.Tiles.{OwnersTileTheirPart, OwnersAreAligned};

/// A law: the owners of a part tile it. Each byte of the part has one owner, and no owner reaches out of the part.
pub fn owners_tile_their_part()
    ensures { OwnersTileTheirPart }
{}

/// A law: where a part is no table part and isn't packed, each owner stands at a multiple of the alignment from the part's start.
pub fn owners_are_aligned()
    ensures { OwnersAreAligned }
{}

/// A law: each live section stands among the owners of its part under its number there.
pub fn live_sections_are_owners()
    ensures { LiveSectionsAreOwners }
{}

/// A law: each common of an object that gets a resolution stands among the owners of its part under its number there.
pub fn commons_are_owners()
    ensures { CommonsAreOwners }
{}

/// A law: each owner of a part is the image of its output section, the identity, a live section that goes to it, one of its commons, the
/// block of thunks that a file owns, or an entry of a table there.
pub fn owners_are_live()
    ensures { OwnersAreLive }
{}

/// A law: the commons that take bytes stand in the order of their symbols.
pub fn commons_rise()
    ensures { CommonsRise }
{}

/// A law: by their marks and the table of addresses, the live sections are told with the addresses that they have.
pub fn table_tells_live_sections()
    ensures { TableTellsLiveSections }
{}

/// A law: each merged image stands among the owners of its part under its number there, with its length.
pub fn images_are_owners()
    ensures { ImagesAreOwners }
{}

/// A law: where a section that is merged goes, the image of its output section stands.
pub fn images_stand_where_inputs_go()
    ensures { ImagesStandWhereInputsGo }
{}

/// A law: a part that the plan names for a table has the entries of its table, and no other owner.
pub fn table_parts_have_entries_alone()
    ensures { TablePartsHaveEntriesAlone }
{}

/// A law: each owner of a part stands there once, under its number.
pub fn owners_stand_once()
    ensures { OwnersStandOnce }
{}

/// A law: the block of thunks that a file owns stands among the owners of the primary part under its number there.
pub fn thunks_are_owners()
    ensures { ThunksAreOwners }
{}

/// A law: the linker's identity stands among the owners of the part for comments, behind the image.
pub fn identity_is_owner()
    ensures { IdentityIsOwner }
{}

/// A law: each entry of the tables for which the plan names a part stands among its owners, behind all that is no entry.
pub fn entries_are_owners()
    ensures { EntriesAreOwners }
{}

/// A law: the live sorted sections stand in the order of their names, then of files and indexes, each strictly before the next.
pub fn sorted_stand_by_name()
    ensures { SortedStandByName }
{}

/// A law: they stand so in no other list.
pub fn no_other_order()
    ensures { NoOtherOrder }
{}

/// A law: in each part what the files of a group bring, sorted sections apart, ends where that of the next group begins.
pub fn groups_follow()
    ensures { GroupsFollow }
{}
