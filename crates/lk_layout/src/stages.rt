//! How far a link is laid out: what each stage of the computation hands on to the next, with what came before.

ghost use Rattle.std.specs.Prelude.{◌≡◌};
ghost use Rattle.lk_layout.specs.Defined.{layout_of};
ghost use Rattle.lk_layout.specs.DynsymStart.{first_export};
ghost use Rattle.lk_layout.specs.Machines.{Machine};
ghost use Rattle.lk_thunk_plan.specs.ThunkPlans.{thunk_size};
ghost use Rattle.lk_layout.specs.Stages.{IsToldLink, made_told};

use crate::late_marks::with_late_marks;
use crate::layout::Layout;
use crate::thunk_users::ThunkUsers;
use lk_deltas::RelaxDeltaMap;
use lk_group_starts::GroupStarts;
use lk_link::ids::FileId;
use lk_link::link::LinkInput;
use lk_link::list::List;
use lk_live::Live;
use lk_place::laws::file_ranges_are_disjoint;
use lk_place::{OutputRecordLayout, Placed, SegmentLayouts};
use lk_resolutions::{Addresses, Images, entry_symbol};
use lk_sizes::{DynamicNumbers, PartOwners, PartialLinkPlan};
use lk_thunk_plan::ThunkPlan;
use lk_thunks::ThunkConfig;

/// A link that is merged, with what is live of it.
#[derive(Drop)]
pub struct KeptLink<'data> {
    pub images: Images<'data>,
    pub live: Live,
}

/// The same, with what comes into each part, what the headers tell, and the plan of the thunks among that.
#[derive(Drop)]
pub struct SizedLink<'data> {
    pub kept: KeptLink<'data>,
    pub owners: PartOwners,
    pub thunks: ThunkPlan,
}

/// The same behind relaxation, with what is deleted of its sections, by file and index, and where its parts and sections stand.
#[derive(Drop)]
pub struct PlacedLink<'data> {
    pub kept: KeptLink<'data>,
    pub thunks: ThunkPlan,
    /// What comes into each part by what is deleted.
    pub owners: PartOwners,
    pub deltas: List<RelaxDeltaMap>,
    pub records: Placed,
}

/// The same, with what its output sections span together with their secondaries, and its segments.
#[derive(Drop)]
pub struct SpannedLink<'data> {
    pub placed: PlacedLink<'data>,
    pub joined: List<OutputRecordLayout>,
    pub segments: SegmentLayouts,
}

/// The same, with the addresses of what stands in its parts, and what symbols stand for.
#[derive(Drop)]
pub struct AddressedLink<'data> {
    pub spanned: SpannedLink<'data>,
    pub addresses: Addresses,
}

/// The same, with where the thunks of each block begin; all branches reach.
#[derive(Drop)]
pub struct ReachingLink<'data> {
    pub addressed: AddressedLink<'data>,
    pub places: List<Option<u64>>,
}

/// The same, with the attributes of its output sections, what is known of output that is linked again, the owners of blocks, and where
/// its groups begin in the tables of symbols.
#[derive(Drop)]
pub struct ToldLink<'data> {
    pub reaching: ReachingLink<'data>,
    pub attributes: List<u32>,
    pub partial_link: Option<PartialLinkPlan>,
    pub block_owners: List<Option<FileId>>,
    pub group_starts: GroupStarts,
}

impl<'data> ToldLink<'data> {
    /// The layout that these make together. By a law no two parts share a byte of the file, so that each section takes what its parts take.
    pub fn into_layout(self, link: &'data LinkInput) -> Layout<'data>
        requires told { (machine : Machine) × IsToldLink machine link.now self }
        ensures { (machine : Machine) (is : IsToldLink machine link.now self.entry) → result ≡ layout_of (made_told is) }
    {
        file_ranges_are_disjoint();
        let reaching = self.reaching;
        let addressed = reaching.addressed;
        let addresses = addressed.addresses;
        let spanned = addressed.spanned;
        let segments = spanned.segments;
        let placed = spanned.placed;
        let KeptLink { images, live } = placed.kept;
        let records = placed.records;
        let plan = placed.thunks;
        let dynsym_start_index = first_export(link, placed.owners.numbers());
        let (header, sorted) = placed.owners.into_told();
        Layout {
            link,
            section_layouts: records.sections.into_vec(),
            merged_section_layouts: spanned.joined,
            section_part_layouts: records.parts.into_vec(),
            section_attributes: self.attributes,
            flags: with_late_marks(link, header.told.as_slice(), live.flags),
            header_info: header,
            segment_layouts: segments.segments,
            tls_layout: segments.tls_layout,
            live_marks: live.marks,
            section_addresses: List::from_vec(addresses.sections),
            section_deletions: placed.deltas,
            merged_strings: images.sections,
            merged_string_start_addresses: addresses.buckets,
            symbol_resolutions: addresses.resolutions,
            entry_symbol_id: entry_symbol(link),
            script_sorted_sections: sorted,
            partial_link: self.partial_link,
            thunk_blocks: plan.blocks,
            thunk_block_owners: self.block_owners,
            thunk_block_addresses: reaching.places,
            thunk_users: ThunkUsers::new(plan.users),
            thunk_size: size_of(plan.config),
            dynsym_start_index,
            group_starts: self.group_starts,
        }
    }
}

/// The bytes of a thunk; 0 where the architecture makes none.
fn size_of(config: Option<ThunkConfig>) -> u64
    ensures { result ≡ thunk_size config }
{
    match config {
        Some(config) => config.thunk_size,
        None => 0,
    }
}

/// The number of the first export in the dynamic symbol table, by the numbers at the first symbol; 0 where there is no such table.
fn first_export(link: &LinkInput, numbers: DynamicNumbers) -> u32
    ensures { result ≡ first_export link.now numbers }
{
    if link.options.output.is_loaded_dynamically() {
        numbers.export
    } else {
        0
    }
}
