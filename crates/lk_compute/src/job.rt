//! A link to lay out with its machine, and what is found of it on one thread, stage by stage.

ghost use Rattle.std.specs.Prelude.{◌≡◌, IfOk, length};
ghost use Rattle.lk_link.specs.Parts.{all_parts};
ghost use Rattle.lk_deltas.specs.LinkDeletions.{sizes_after};
ghost use Rattle.lk_sizes.specs.Owners.{Filling};
ghost use Rattle.lk_resolutions.specs.OutputContent.{in_layout};
ghost use Rattle.lk_resolutions.specs.Starts.{IsPlaced};
ghost use Rattle.lk_layout.specs.Defined.{Gives};
ghost use Rattle.lk_layout.specs.Headers.{header_bytes};
ghost use Rattle.lk_layout.specs.Machines.{Machine, platform_machine};
ghost use Rattle.lk_layout.specs.Made.{made_deletions};
ghost use Rattle.lk_compute.specs.RedirectWords.{GivesResolutions};
ghost use Rattle.lk_layout.specs.Redirects.{made_edges, placed_resolutions};
ghost use Rattle.lk_layout.specs.Stages.{ArePlainOwners, GivesNear, IsAddressedLink, IsBranchedLink, IsKept, IsPlacedFirst, IsPlacedLink, IsReachingLink, IsSized, IsSpannedLink, IsToldLink, IsValuedLink, Reaches, made_placed, made_spanned};

use crate::headers::header_bytes;
use lk_group_starts::group_starts::{GroupStarts, group_starts};
use lk_layout::stages::{
    AddressedLink, KeptLink, PlacedLink, ReachingLink, SizedLink, SpannedLink, ToldLink,
};
use lk_layout::{Layout, LayoutError};
use lk_link::ids::FileId;
use lk_link::link::LinkInput;
use lk_link::list::List;
use lk_link::platform::Platform;
use lk_own_symbols::laws::segments_end_below;
use lk_own_symbols::{Edges, PlacedLink as AllPlaced, edges_of, evaluate_redirects};
use lk_place::laws::{expressions_are_shallow, parts_take_their_bytes};
use lk_place::{
    OutputRecordLayout, Placed, SegmentFileLayout, SegmentLayouts, compute_segment_layout,
    evaluate_regions, merge_secondary_parts,
};
use lk_relax::laws::{nothing_is_past, relaxed_is_shrunk, relaxed_stands, shrunk_can_be_scanned};
use lk_relax::{
    Relaxation, StandingLink, check_sites, compute_input_section_positions, is_nothing_deleted,
    place_first, relax_owners,
};
use lk_resolution_list::SymbolResolutions;
use lk_resolutions::{Addresses, PlacedParts, addresses_of, check_offsets};
use lk_sizes::part_owners::{add_thunks, plain_owners};
use lk_sizes::{PartOwners, PartialLinkPlan, attributes_of_contents};
use lk_thunk_plan::laws::thunk_owners_are_good;
use lk_thunk_plan::{Branches, ThunkPlan, block_owners, block_places, check_branches, plan_thunks};
use lk_thunks::Arch;
use std::alloc::{AllocError, Global};

/// A link to lay out, with the machine that it is for.
#[derive(Drop)]
pub(crate) struct Job<'a, 'data, P, A> {
    pub(crate) link: &'data LinkInput,
    pub(crate) platform: &'a P,
    pub(crate) arch: &'a A,
}

/// What a job finds on one thread, each by the stage before, which it borrows. All that a stage knows of a job is said here.
pub(crate) trait Finds<'data> {
    ghost use Rattle.lk_link.specs.declared.link.LinkInput.{LinkInput};

    ghost machine: { Self → Machine };

    ghost link: { Self → LinkInput };

    /// Adds up what the live sections bring to each part, without thunks.
    fn plain(&self, alloc: Global, kept: &KeptLink<'data>) -> Result<PartOwners, LayoutError>
        requires kept { IsKept (link self.now) kept.now }
        ensures { Reaches (machine self.now) (link self.now) (ArePlainOwners (machine self.now) (link self.now) kept.now.live) result };

    /// Plans thunks by what comes into the parts without them, and adds these.
    fn with_thunks(
        &self,
        alloc: Global,
        kept: &KeptLink<'data>,
        plain: PartOwners,
    ) -> Result<(PartOwners, ThunkPlan), LayoutError>
        requires kept { IsKept (link self.now) kept.now }
        requires plain { ArePlainOwners (machine self.now) (link self.now) kept.now.live plain }
        ensures { Reaches (machine self.now) (link self.now)
            (λ q. IsSized (machine self.now) (link self.now) (record { kept = kept.now; owners = q.0; thunks = q.1 })) result };

    /// Finds where the parts and sections stand before anything is deleted.
    fn first_placed(
        &self,
        alloc: Global,
        sized: &SizedLink<'data>,
        headers: u64,
    ) -> Result<Placed, LayoutError>
        requires sized { IsSized (machine self.now) (link self.now) sized.now }
        requires headers { headers ≡ header_bytes (machine self.now) (link self.now) sized.now.kept.live }
        ensures { Reaches (machine self.now) (link self.now) (IsPlacedFirst (machine self.now) (link self.now) sized.now.kept.live) result };

    /// Finds where the parts and sections stand, and what relaxation deletes of input sections.
    fn place(
        &self,
        alloc: Global,
        sized: SizedLink<'data>,
    ) -> Result<PlacedLink<'data>, LayoutError>
        requires sized { IsSized (machine self.now) (link self.now) sized }
        ensures { Reaches (machine self.now) (link self.now) (IsPlacedLink (machine self.now) (link self.now)) result };

    /// Finds what the output sections and segments span.
    fn spans(
        &self,
        alloc: Global,
        placed: &PlacedLink<'data>,
    ) -> Result<(List<OutputRecordLayout>, SegmentLayouts), LayoutError>
        requires placed { IsPlacedLink (machine self.now) (link self.now) placed.now }
        ensures { Reaches (machine self.now) (link self.now)
            (λ q. IsSpannedLink (machine self.now) (link self.now) (record { placed = placed.now; joined = q.0; segments = q.1 })) result };

    /// Finds what the linker's own symbols stand at.
    fn edges<'s>(
        &self,
        alloc: Global,
        spanned: &'s SpannedLink<'data>,
    ) -> Result<Edges<'s>, AllocError>
        requires spanned { IsSpannedLink (machine self.now) (link self.now) spanned.now }
        ensures { (is : IsSpannedLink (machine self.now) (link self.now) spanned.now)
            → IfOk result (λ edges. edges ≡ made_edges (made_spanned is)) };

    /// Where the parts stand, what is deleted of sections, and what own symbols stand at, as resolving symbols takes them.
    fn placed_parts<'s>(
        &self,
        spanned: &'s SpannedLink<'data>,
        edges: &'s Edges<'s>,
    ) -> PlacedParts<'s>
        requires spanned { IsSpannedLink (machine self.now) (link self.now) spanned.now }
        ensures parts { (is : IsSpannedLink (machine self.now) (link self.now) spanned.now) → result.parts.now ≡ (made_spanned is).stage.records }
        ensures deltas { (is : IsSpannedLink (machine self.now) (link self.now) spanned.now) → result.deltas.now ≡ made_deletions (made_spanned is) }
        ensures edges { result.edges.now ≡ edges.now }
        ensures each { length result.parts.now ≡ length (all_parts (link self.now).plan.sections) }
        ensures placed { (filling : Filling)
            × IsPlaced (in_layout (machine self.now).sizes (link self.now) spanned.now.placed.kept.live filling) spanned.now.placed.owners result.parts.now
            × (filling.sizes ≡ sizes_after (link self.now).groups result.deltas.now) };

    /// Finds the addresses of what stands in the parts, and what symbols stand for before redirects come to their values.
    fn valued(&self, alloc: Global, spanned: &SpannedLink<'data>) -> Result<Addresses, LayoutError>
        requires spanned { IsSpannedLink (machine self.now) (link self.now) spanned.now }
        ensures { Reaches (machine self.now) (link self.now) (IsValuedLink (machine self.now) (link self.now) spanned.now) result };

    /// Sets the values that redirects come to, where resolutions are kept that go by what is placed. Refuses the first redirect whose
    /// expression has no value.
    fn set_redirects(
        &self,
        alloc: Global,
        spanned: &SpannedLink<'data>,
        resolutions: &mut SymbolResolutions,
    ) -> Result<(), LayoutError>
        requires { IsSpannedLink (machine self.now) (link self.now) spanned.now }
        ensures { (is : IsSpannedLink (machine self.now) (link self.now) spanned.now)
            → resolutions.old ≡ placed_resolutions (made_spanned is) → GivesResolutions (made_spanned is) result resolutions.new };

    /// The same addresses, with what symbols stand for behind all redirects, where all references to merged data choose a byte of theirs.
    fn redirected(
        &self,
        alloc: Global,
        spanned: &SpannedLink<'data>,
        found: Addresses,
    ) -> Result<Addresses, LayoutError>
        requires found { IsValuedLink (machine self.now) (link self.now) spanned.now found }
        ensures { Reaches (machine self.now) (link self.now)
            (λ q. IsAddressedLink (machine self.now) (link self.now) (record { spanned = spanned.now; addresses = q })) result };

    /// Finds where the thunks of each block begin, and looks at branches.
    fn places(
        &self,
        alloc: Global,
        addressed: &AddressedLink<'data>,
    ) -> Result<List<Option<u64>>, LayoutError>
        requires addressed { IsAddressedLink (machine self.now) (link self.now) addressed.now }
        ensures { Reaches (machine self.now) (link self.now)
            (λ q. IsBranchedLink (machine self.now) (link self.now) (record { addressed = addressed.now; places = q })) result };

    /// Looks at the candidates that relaxation deleted, by final addresses, if there are any.
    fn check_deleted(&self, alloc: Global, placed: &PlacedLink<'data>) -> Result<(), LayoutError>
        requires { IsPlacedLink (machine self.now) (link self.now) placed.now }
        ensures { (is : IsPlacedLink (machine self.now) (link self.now) placed.now) → GivesNear (made_placed is) result };

    /// Finds where the thunks of each block begin, and looks at branches, and then at what relaxation deleted.
    fn reaching(
        &self,
        alloc: Global,
        addressed: &AddressedLink<'data>,
    ) -> Result<List<Option<u64>>, LayoutError>
        requires addressed { IsAddressedLink (machine self.now) (link self.now) addressed.now }
        ensures { Reaches (machine self.now) (link self.now)
            (λ q. IsReachingLink (machine self.now) (link self.now) (record { addressed = addressed.now; places = q })) result };

    /// Finds what is told beside that: attributes, what is known of output that is linked again, the owners of blocks, and where
    /// groups begin in the tables of symbols.
    fn completed(
        &self,
        alloc: Global,
        reaching: &ReachingLink<'data>,
    ) -> Result<
        (
            List<u32>,
            Option<PartialLinkPlan>,
            List<Option<FileId>>,
            GroupStarts,
        ),
        LayoutError,
    >
        requires reaching { IsReachingLink (machine self.now) (link self.now) reaching.now }
        ensures { Reaches (machine self.now) (link self.now)
            (λ q. IsToldLink (machine self.now) (link self.now) (record { reaching = reaching.now; attributes = q.0; partial_link = q.1; block_owners = q.2; group_starts = q.3 })) result };

    /// The layout that all this makes.
    fn layout(&self, told: ToldLink<'data>) -> Layout<'data>
        requires told { IsToldLink (machine self.now) (link self.now) told }
        ensures { Gives (machine self.now) (link self.now) (Ok result) };
}

impl<'a, 'data, P: Platform, A: Arch> Finds<'data> for Job<'a, 'data, P, A> {
    ghost machine = { λ job. platform_machine (P.segment_start job.platform.now) (P.table_sizes job.platform.now) (A.config_of job.arch.now) };

    ghost link = { λ job. job.link.now };

    fn plain(&self, alloc: Global, kept: &KeptLink<'data>) -> Result<PartOwners, LayoutError> {
        let lens = &kept.images.lens;
        let plain = plain_owners(alloc, self.link, self.platform, &kept.live, lens)?;
        Ok(plain)
    }

    fn with_thunks(
        &self,
        alloc: Global,
        kept: &KeptLink<'data>,
        plain: PartOwners,
    ) -> Result<(PartOwners, ThunkPlan), LayoutError> {
        let thunks = plan_thunks(alloc, self.link, &kept.live, &plain, self.arch)?;
        // A law, which does nothing: the plan's owners are files of the link, in their order.
        thunk_owners_are_good();
        let owners = add_thunks(alloc, self.link, plain, thunks.owners.as_slice())?;
        Ok((owners, thunks))
    }

    fn first_placed(
        &self,
        alloc: Global,
        sized: &SizedLink<'data>,
        headers: u64,
    ) -> Result<Placed, LayoutError> {
        let by = Relaxation {
            link: self.link,
            live: &sized.kept.live,
            platform: self.platform,
            headers,
        };
        let first = place_first(alloc, &by, &sized.owners)?;
        Ok(first)
    }

    fn place(
        &self,
        alloc: Global,
        sized: SizedLink<'data>,
    ) -> Result<PlacedLink<'data>, LayoutError> {
        let headers = header_bytes(self.link, self.platform, sized.owners.header());
        let first = self.first_placed(alloc, &sized, headers)?;
        let SizedLink {
            kept,
            owners,
            thunks,
        } = sized;
        let by = Relaxation {
            link: self.link,
            live: &kept.live,
            platform: self.platform,
            headers,
        };
        let relaxed = relax_owners(alloc, &by, owners, first)?;
        Ok(PlacedLink {
            kept,
            thunks,
            owners: relaxed.owners,
            deltas: List::from_vec(relaxed.deltas),
            records: relaxed.placed,
        })
    }

    fn spans(
        &self,
        alloc: Global,
        placed: &PlacedLink<'data>,
    ) -> Result<(List<OutputRecordLayout>, SegmentLayouts), LayoutError> {
        let link = self.link;
        let sections = placed.records.sections.as_slice();
        let joined = merge_secondary_parts(alloc, link, sections)?;
        let header = placed.owners.header();
        let emitted = header.emitted.as_slice();
        let active = header.active_segment_ids.as_slice();
        let kind = SegmentFileLayout::FromSections;
        let segments = compute_segment_layout(alloc, link, sections, emitted, active, kind)?;
        Ok((List::from_vec(joined), segments))
    }

    fn edges<'s>(
        &self,
        alloc: Global,
        spanned: &'s SpannedLink<'data>,
    ) -> Result<Edges<'s>, AllocError> {
        // A law, which does nothing: thread-local data end in memory.
        segments_end_below();
        let sections = spanned.placed.records.sections.as_slice();
        let edges = edges_of(
            alloc,
            self.link,
            sections,
            spanned.segments.segments.as_slice(),
        )?;
        Ok(edges)
    }

    fn placed_parts<'s>(
        &self,
        spanned: &'s SpannedLink<'data>,
        edges: &'s Edges<'s>,
    ) -> PlacedParts<'s> {
        // Laws, which do nothing: the parts end where their owners do, also behind what is deleted.
        parts_take_their_bytes();
        relaxed_stands();
        PlacedParts {
            parts: spanned.placed.records.parts.as_slice(),
            deltas: spanned.placed.deltas.as_slice(),
            edges,
        }
    }

    fn valued(
        &self,
        alloc: Global,
        spanned: &SpannedLink<'data>,
    ) -> Result<Addresses, LayoutError> {
        let edges = self.edges(alloc, spanned)?;
        let parts = self.placed_parts(&*spanned, &edges);
        let placed = &spanned.placed;
        let live = &placed.kept.live;
        let merged = placed.kept.images.sections.as_slice();
        let owners = &placed.owners;
        let found = addresses_of(
            alloc,
            self.link,
            live,
            merged,
            owners,
            &parts,
            self.platform,
        )?;
        Ok(found)
    }

    fn set_redirects(
        &self,
        alloc: Global,
        spanned: &SpannedLink<'data>,
        resolutions: &mut SymbolResolutions,
    ) -> Result<(), LayoutError> {
        let link = self.link;
        // Its contract says that no region's expression is too deep.
        expressions_are_shallow();
        let regions = evaluate_regions(alloc, link)?;
        let placed = &spanned.placed;
        let headers = header_bytes(link, self.platform, placed.owners.header());
        let all = AllPlaced {
            link,
            headers,
            regions: regions.as_slice(),
            counters: placed.records.counters.as_slice(),
            sections: placed.records.sections.as_slice(),
            merged: spanned.joined.as_slice(),
        };
        evaluate_redirects(&all, resolutions)?;
        Ok(())
    }

    fn redirected(
        &self,
        alloc: Global,
        spanned: &SpannedLink<'data>,
        found: Addresses,
    ) -> Result<Addresses, LayoutError> {
        let kept = &spanned.placed.kept;
        check_offsets(self.link, &kept.live, kept.images.sections.as_slice())?;
        let mut addresses = found;
        self.set_redirects(alloc, spanned, &mut addresses.resolutions)?;
        Ok(addresses)
    }

    fn places(
        &self,
        alloc: Global,
        addressed: &AddressedLink<'data>,
    ) -> Result<List<Option<u64>>, LayoutError> {
        let placed = &addressed.spanned.placed;
        let plan = &placed.thunks;
        let found = &addressed.addresses;
        let places = block_places(alloc, plan, &found.blocks)?;
        let resolutions = &found.resolutions;
        check_branches(&Branches {
            link: self.link,
            live: &placed.kept.live,
            plan,
            places: &places,
            addresses: &found.sections,
            deltas: placed.deltas.as_slice(),
            resolutions,
        })?;
        Ok(List::from_vec(places))
    }

    fn check_deleted(&self, alloc: Global, placed: &PlacedLink<'data>) -> Result<(), LayoutError> {
        // Laws, which do nothing: where nothing is deleted, no candidate is past its limit, and what is deleted are bytes of candidates.
        nothing_is_past();
        relaxed_is_shrunk();
        shrunk_can_be_scanned();
        let link = self.link;
        let deltas = placed.deltas.as_slice();
        if is_nothing_deleted(deltas) {
            return Ok(());
        }
        let live = &placed.kept.live;
        let owners = &placed.owners;
        let (sections, symbols) = compute_input_section_positions(
            alloc, link, live, owners, deltas,
        )?;
        let parts = placed.records.parts.as_slice();
        check_sites(StandingLink {
            link,
            live,
            sections: &sections,
            symbols: &symbols,
            parts,
            deltas,
        })?;
        Ok(())
    }

    fn reaching(
        &self,
        alloc: Global,
        addressed: &AddressedLink<'data>,
    ) -> Result<List<Option<u64>>, LayoutError> {
        let places = self.places(alloc, addressed)?;
        self.check_deleted(alloc, &addressed.spanned.placed)?;
        Ok(places)
    }

    fn completed(
        &self,
        alloc: Global,
        reaching: &ReachingLink<'data>,
    ) -> Result<
        (
            List<u32>,
            Option<PartialLinkPlan>,
            List<Option<FileId>>,
            GroupStarts,
        ),
        LayoutError,
    > {
        let link = self.link;
        let placed = &reaching.addressed.spanned.placed;
        let attributes = attributes_of_contents(alloc, link, placed.owners.contents())?;
        let partial_link = PartialLinkPlan::build(alloc, link, &placed.kept.live)?;
        let block_owners = block_owners(alloc, &placed.thunks)?;
        let header = placed.owners.header();
        let told = header.told.as_slice();
        let shares = placed.owners.shares();
        let starts = group_starts(alloc, link, self.platform, &placed.kept.live, told, shares)?;
        Ok((
            List::from_vec(attributes),
            partial_link,
            List::from_vec(block_owners),
            starts,
        ))
    }

    fn layout(&self, told: ToldLink<'data>) -> Layout<'data> {
        told.into_layout(self.link)
    }
}
