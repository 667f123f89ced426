//! Laws on a defined layout, each proved as the contract of a function that does nothing.

ghost use Rattle.lk_soundness.specs.FileBytes.{LaidOutFileHasOneOwner};
ghost use Rattle.lk_soundness.specs.Laws.{DefinedLayoutsAreSound, LaidOutMemoryIsDisjoint, LaidOutSectionsAreApart, ResolvedSectionsAreLive};
ghost use Rattle.lk_soundness.specs.ToldMemory.{MemoryStays};

use lk_check::well_formed_exactly_unfaulted;
use lk_layout::laws::laid_out_links_are_well_formed;
use lk_own_symbols::laws::others_are_no_redirects;
use lk_place::laws::{file_ranges_are_disjoint, parts_take_their_bytes};
use lk_place_laws::laws::{
    memory_ranges_are_disjoint, parts_take_file_bytes, plain_memory_is_congruent,
    plain_memory_is_disjoint, records_keep_alignments, refused_exactly_past,
};
use lk_relax::laws::{
    deleted_sites_are_near, deletions_are_read, relaxed_is_shrunk, relaxed_stands,
};
use lk_resolution_list::laws::redirects_change_values_alone;
use lk_size_laws::laws::{live_sections_are_owners, owners_are_aligned, owners_tile_their_part};
use lk_thunk_plan::laws::{branches_reach, thunks_have_ranges};

/// A law: a defined layout is sound, on a lawful machine.
pub fn defined_layouts_are_sound()
    ensures { DefinedLayoutsAreSound }
{
    well_formed_exactly_unfaulted();
    relaxed_stands();
    relaxed_is_shrunk();
    deletions_are_read();
    deleted_sites_are_near();
    owners_tile_their_part();
    owners_are_aligned();
    live_sections_are_owners();
    parts_take_their_bytes();
    refused_exactly_past();
    file_ranges_are_disjoint();
    plain_memory_is_disjoint();
    plain_memory_is_congruent();
    records_keep_alignments();
    thunks_have_ranges();
    branches_reach();
    redirects_change_values_alone();
    others_are_no_redirects();
}

/// A law: under a plan of whole output in which nothing moves the location and no section stands in a region, no two parts of sections
/// that take addresses share one.
pub fn laid_out_memory_is_disjoint()
    ensures { LaidOutMemoryIsDisjoint }
{
    well_formed_exactly_unfaulted();
    relaxed_stands();
    memory_ranges_are_disjoint();
}

/// A law: nor do two live sections, nor two owners of any kind: an image and a live section, or two images.
pub fn laid_out_sections_are_apart()
    ensures { LaidOutSectionsAreApart }
{
    laid_out_links_are_well_formed();
    live_sections_are_owners();
    defined_layouts_are_sound();
    laid_out_memory_is_disjoint();
}

/// A law: under every plan no byte of the file has two owners (live sections, images, commons, entries of tables, thunks, the identity);
/// each that a part takes there has one, and each owner lies in the file range of its output section.
pub fn laid_out_file_has_one_owner()
    ensures { LaidOutFileHasOneOwner }
{
    well_formed_exactly_unfaulted();
    relaxed_stands();
    live_sections_are_owners();
    parts_take_their_bytes();
    parts_take_file_bytes();
    defined_layouts_are_sound();
}

/// A law: where references are met, a symbol of an object that has a resolution, and stands for a place in a section, stands in a
/// live one, unless the section is merged.
pub fn resolved_sections_are_live()
    ensures { ResolvedSectionsAreLive }
{}

/// A law: where sections are moved in the file, and where segments and sections with their secondaries are told anew, all that is told
/// of memory stays: where each record starts there, and how many bytes it spans.
pub fn memory_stays()
    ensures { MemoryStays }
{
    well_formed_exactly_unfaulted();
    relaxed_stands();
}
