//! What has an address in the output: live sections, blocks of thunks, merged data, and symbols.

ghost use Rattle.std.specs.Prelude.{◌≡◌, IfOk, List, Option, length};
ghost use Rattle.std.specs.List.{flat_map};
ghost use Rattle.lk_live.specs.Reach.{AreLive};
ghost use Rattle.lk_link.specs.declared.resolution.Resolution.{Resolution};
ghost use Rattle.lk_link.specs.Inputs.{numbered_files};
ghost use Rattle.lk_link.specs.Parts.{all_parts};
ghost use Rattle.lk_link.specs.WellFormed.{IsWellFormed};
ghost use Rattle.lk_merge.specs.Addresses.{start_addresses};
ghost use Rattle.lk_merge.specs.Hash.{fnv64};
ghost use Rattle.lk_merge.specs.LinkInputs.{link_inputs};
ghost use Rattle.lk_sizes.specs.Images.{image_addresses};
ghost use Rattle.lk_sizes.specs.Addresses.{block_addresses, section_addresses};
ghost use Rattle.lk_sizes.specs.Owners.{Filling};
ghost use Rattle.lk_sizes.specs.Sizing.{AreFilled};
ghost use Rattle.lk_tables.specs.DynamicCounters.{AreNumbersAt};
ghost use Rattle.lk_deltas.specs.LinkDeletions.{sizes_after};
ghost use Rattle.lk_resolutions.specs.AtHand.{AreAtHand, places_at_hand, setting_at_hand};
ghost use Rattle.lk_resolutions.specs.Found.{AreFound, EndInMemory};
ghost use Rattle.lk_resolutions.specs.OutputContent.{in_layout};
ghost use Rattle.lk_resolutions.specs.Starts.{IsPlaced, starts_of};
ghost use Rattle.lk_resolutions.specs.Resolutions.{file_resolutions, symbol_resolutions};
ghost use Rattle.lk_resolutions.specs.Tables.{AreMergedOf};

use crate::merged::Merged;
use crate::resolution::{Tables, resolve_all};
use lk_deltas::RelaxDeltaMap;
use lk_link::{LinkInput, Platform};
use lk_live::Live;
use lk_merge::{MergedStringStartAddresses, MergedStringsSection};
use lk_own_symbols::Edges;
use lk_place::OutputRecordLayout;
use lk_resolution_list::SymbolResolutions;
use lk_sizes::{CommonAddress, OwnerAddresses, PartOwners, image_addresses, owner_addresses};
use std::alloc::{AllocError, Global};

/// The addresses of a layout.
#[derive(Drop)]
pub struct Addresses {
    /// Of each live input section, by its number over all files; 0 for any other.
    pub sections: Vec<u64>,
    /// Of each block of thunks that a file owns, in the order of files.
    pub blocks: Vec<u64>,
    /// Of the buckets of merged sections.
    pub buckets: MergedStringStartAddresses,
    /// Of each symbol, by number, what it stands for; none where it has no resolution.
    pub resolutions: SymbolResolutions,
}

/// Where the parts of a link stand, what is deleted of its sections, and what its own symbols stand at.
#[derive(Clone, Copy)]
pub struct PlacedParts<'a> {
    pub parts: &'a [OutputRecordLayout],
    /// Of each file, by its number over all groups; files past the end lose nothing.
    pub deltas: &'a [RelaxDeltaMap],
    pub edges: &'a Edges<'a>,
}

/// The addresses of live sections, of blocks of thunks and of merged data, and what symbols stand for, by what was found of the parts, for
/// the sizes that are left behind what is deleted. Looks at each input section, each block and each symbol once.
pub fn addresses_of<P: Platform>(
    alloc: Global,
    link: &LinkInput,
    live: &Live,
    merged: &[MergedStringsSection<'_>],
    owners: &PartOwners,
    placed: &PlacedParts<'_>,
    platform: &P,
) -> Result<Addresses, AllocError>
    requires good { IsWellFormed link.now }
    requires live { AreLive link.now live.now }
    requires merged { merged.now ≡ (link_inputs link.now).outputs }
    requires each { length placed.now.parts.now ≡ length (all_parts link.now.plan.sections) }
    requires placed { (filling : Filling) × IsPlaced (in_layout (P.table_sizes platform.now) link.now live.now filling) owners.now placed.now.parts.now
        × (filling.sizes ≡ sizes_after link.now.groups placed.now.deltas.now) }
    ensures sections { (filling : Filling) → AreFilled (in_layout (P.table_sizes platform.now) link.now live.now filling) owners.now
        → IfOk result (λ told. told.sections.items
        ≡ section_addresses (in_layout (P.table_sizes platform.now) link.now live.now filling) (starts_of placed.now.parts.now)) }
    ensures blocks { (filling : Filling) → AreFilled (in_layout (P.table_sizes platform.now) link.now live.now filling) owners.now
        → IfOk result (λ told. told.blocks.items
        ≡ block_addresses (in_layout (P.table_sizes platform.now) link.now live.now filling) (starts_of placed.now.parts.now)) }
    ensures buckets { (filling : Filling) → AreFilled (in_layout (P.table_sizes platform.now) link.now live.now filling) owners.now
        → IfOk result (λ told. told.buckets ≡ start_addresses fnv64 (link_inputs link.now).outputs
        (image_addresses (in_layout (P.table_sizes platform.now) link.now live.now filling) (starts_of placed.now.parts.now))) }
    ensures belong { IfOk result (λ told. AreMergedOf link.now merged.now told.buckets) }
    ensures resolutions { (filling : Filling) → AreFilled (in_layout (P.table_sizes platform.now) link.now live.now filling) owners.now
        → IfOk result (λ told. told.resolutions
        ≡ symbol_resolutions (in_layout (P.table_sizes platform.now) link.now live.now filling) placed.now.deltas.now placed.now.edges.now
        (starts_of placed.now.parts.now)) }
{
    let found = found_addresses(alloc, link, live, merged, owners, placed, platform)?;
    let lent = LentLink {
        link,
        live,
        merged,
        owners,
        parts: placed.parts,
        deltas: placed.deltas,
        edges: placed.edges,
    };
    let tables = found.tables(&lent, platform);
    let resolutions = resolve_all(alloc, platform, &tables, owners.numbers())?;
    Ok(found.with_resolutions(resolutions))
}

/// A link, what is live and merged of it, and where its parts stand, lent for one time.
#[derive(Clone, Copy)]
pub(crate) struct LentLink<'a> {
    pub(crate) link: &'a LinkInput,
    pub(crate) live: &'a Live,
    /// By output section.
    pub(crate) merged: &'a [MergedStringsSection<'a>],
    pub(crate) owners: &'a PartOwners,
    pub(crate) parts: &'a [OutputRecordLayout],
    pub(crate) deltas: &'a [RelaxDeltaMap],
    pub(crate) edges: &'a Edges<'a>,
}

/// The addresses of what is no symbol, and where the parts start.
#[derive(Drop)]
pub(crate) struct FoundAddresses {
    starts: Vec<u64>,
    sections: Vec<u64>,
    commons: Vec<CommonAddress>,
    blocks: Vec<u64>,
    buckets: MergedStringStartAddresses,
}

/// Finds them. Looks at each input section and each block once.
pub(crate) fn found_addresses<P: Platform>(
    alloc: Global,
    link: &LinkInput,
    live: &Live,
    merged: &[MergedStringsSection<'_>],
    owners: &PartOwners,
    placed: &PlacedParts<'_>,
    _platform: &P,
) -> Result<FoundAddresses, AllocError>
    requires good { IsWellFormed link.now }
    requires live { AreLive link.now live.now }
    requires merged { merged.now ≡ (link_inputs link.now).outputs }
    requires each { length placed.now.parts.now ≡ length (all_parts link.now.plan.sections) }
    requires placed { (filling : Filling) × IsPlaced (in_layout (P.table_sizes _platform.now) link.now live.now filling) owners.now placed.now.parts.now
        × (filling.sizes ≡ sizes_after link.now.groups placed.now.deltas.now) }
    ensures found { (filling : Filling) → AreFilled (in_layout (P.table_sizes _platform.now) link.now live.now filling) owners.now
        → IfOk result (AreFound (in_layout (P.table_sizes _platform.now) link.now live.now filling) placed.now.parts.now) }
    ensures belong { IfOk result (λ found. AreMergedOf link.now merged.now found.buckets) }
    ensures fit { IfOk result (λ found. EndInMemory placed.now.parts.now found.starts.items) }
{
    let starts = starts_of(alloc, placed.parts)?;
    let found = owner_addresses(alloc, link, live, owners, &starts)?;
    let OwnerAddresses {
        sections,
        commons,
        blocks,
    } = found;
    let places = image_addresses(alloc, link, owners.contents(), &starts)?;
    let buckets = MergedStringStartAddresses::compute(alloc, merged, &places)?;
    Ok(FoundAddresses {
        starts,
        sections,
        commons,
        blocks,
        buckets,
    })
}

impl FoundAddresses {
    /// What symbols are resolved by.
    pub(crate) fn tables<'a, P: Platform>(
        &'a self,
        lent: &LentLink<'a>,
        _platform: &P,
    ) -> Tables<'a>
        requires good { IsWellFormed lent.now.link.now }
        requires live { AreLive lent.now.link.now lent.now.live.now }
        requires merged { lent.now.merged.now ≡ (link_inputs lent.now.link.now).outputs }
        requires each { length lent.now.parts.now ≡ length (all_parts lent.now.link.now.plan.sections) }
        requires placed { (filling : Filling) × IsPlaced (in_layout (P.table_sizes _platform.now) lent.now.link.now lent.now.live.now filling) lent.now.owners.now lent.now.parts.now
            × (filling.sizes ≡ sizes_after lent.now.link.now.groups lent.now.deltas.now) }
        requires found { (filling : Filling) → AreFilled (in_layout (P.table_sizes _platform.now) lent.now.link.now lent.now.live.now filling) lent.now.owners.now
            → AreFound (in_layout (P.table_sizes _platform.now) lent.now.link.now lent.now.live.now filling) lent.now.parts.now self.now }
        requires belong { AreMergedOf lent.now.link.now lent.now.merged.now self.now.buckets }
        requires fit { EndInMemory lent.now.parts.now self.now.starts.items }
        ensures tables { AreAtHand (P.table_sizes _platform.now) result }
        ensures numbers { AreNumbersAt result.merged.link.now result.live.now result.told.now 0 lent.now.owners.now.numbers }
        ensures resolutions { (filling : Filling) (items : List (Option Resolution)) → AreFilled (in_layout (P.table_sizes _platform.now) lent.now.link.now lent.now.live.now filling) lent.now.owners.now
            → items ≡ flat_map (file_resolutions (places_at_hand result) (setting_at_hand (P.table_sizes _platform.now) result)) (numbered_files result.merged.link.now.groups)
            → items ≡ symbol_resolutions (in_layout (P.table_sizes _platform.now) lent.now.link.now lent.now.live.now filling) lent.now.deltas.now lent.now.edges.now
            (starts_of lent.now.parts.now) }
    {
        Tables {
            merged: Merged {
                link: lent.link,
                sections: lent.merged,
                starts: &self.buckets,
            },
            live: lent.live,
            addresses: self.sections.as_slice(),
            deltas: lent.deltas,
            commons: self.commons.as_slice(),
            edges: lent.edges,
            told: lent.owners.header().told.as_slice(),
            starts: self.starts.as_slice(),
        }
    }

    /// All addresses, with what symbols stand for.
    pub(crate) fn with_resolutions(self, resolutions: SymbolResolutions) -> Addresses
        ensures sections { result.sections ≡ self.sections }
        ensures blocks { result.blocks ≡ self.blocks }
        ensures buckets { result.buckets ≡ self.buckets }
        ensures resolutions { result.resolutions ≡ resolutions }
    {
        Addresses {
            sections: self.sections,
            blocks: self.blocks,
            buckets: self.buckets,
            resolutions,
        }
    }
}

/// Where parts with these records start in memory.
fn starts_of(alloc: Global, parts: &[OutputRecordLayout]) -> Result<Vec<u64>, AllocError>
    ensures value { IfOk result (λ starts. starts.items ≡ starts_of parts.now) }
    ensures fit { IfOk result (λ starts. EndInMemory parts.now starts.items) }
{
    let mut starts = Vec::with_capacity(alloc, parts.len())?;
    for part in parts {
        // Its contract says that the part ends below 2^64, for the addresses inside.
        let _end = part.mem_end();
        starts.push(part.mem_offset)?;
    }
    Ok(starts)
}
