//! The layout of a whole link.
//!
//! Each stage looks at what the ones before it made, and none goes back: what is merged, what is live, what the live sections bring to
//! each part, where the parts stand and what relaxation deletes, and at last which sections and segments are told, what those span, the address of each live
//! section and what each symbol stands for. A stage that refuses ends the computation, so that the answer is the first refusal in
//! this order, or the layout (`lay_out`). A stage finds on what it borrows, and then moves what it got on, or drops it by
//! name: where a function that owns so much leaves that to its end, the prover follows each of its fields there, for minutes. So
//! a job finds (`Finds`) by what it borrows, and the stages, which own, are functions over any job.

ghost use Rattle.std.specs.Prelude.{◌≤◌};
ghost use Rattle.lk_layout.specs.Defined.{Gives};
ghost use Rattle.lk_layout.specs.Machines.{Machine, platform_machine};
ghost use Rattle.lk_layout.specs.Stages.{ArePlainOwners, IsAddressedLink, IsChecked, IsKept, IsMerged, IsPlacedLink, IsReachingLink, IsSized, IsSpannedLink, IsToldLink, IsValuedLink, Reaches};

use crate::images::{merge_images, merge_images_by_workers};
use crate::job::{Finds, Job};
use lk_check::{check_link, check_link_by_groups};
use lk_gc::walkers::{MOST_WORKERS, walkers};
use lk_gc::{traverse, traverse_alone};
use lk_layout::stages::{
    AddressedLink, KeptLink, PlacedLink, ReachingLink, SizedLink, SpannedLink, ToldLink,
};
use lk_layout::{Layout, LayoutError};
use lk_link::gate::Gate;
use lk_link::link::LinkInput;
use lk_link::platform::Platform;
use lk_resolutions::{Addresses, Images, addresses_of_by_groups};
use lk_sizes::PartOwners;
use lk_sizes::part_owners::plain_owners_by_groups;
use lk_thunk_plan::ThunkPlan;
use lk_thunks::Arch;
use std::alloc::Global;
use std::sync::Wait;
use std::thread::Threads;

/// The layout of a link, on the caller's own thread: the defined answer, unless memory runs out. It waits for
/// nobody, and always returns.
pub fn compute_alone<'data, P: Platform, A: Arch>(
    alloc: Global,
    link: &'data LinkInput,
    platform: &P,
    arch: &A,
) -> Result<Layout<'data>, LayoutError>
    ensures { Gives (platform_machine (P.segment_start platform.now) (P.table_sizes platform.now) (A.config_of arch.now)) link.now result }
{
    check(link)?;
    let images = merge(alloc, link)?;
    let kept = keep(alloc, link, images)?;
    let job = Job {
        link,
        platform,
        arch,
    };
    lay_out(alloc, &job, kept)
}

/// The layout of a link: the defined answer, unless memory runs out (libwild: `layout::compute`). With two or more workers as many threads,
/// 64 at most, merge strings and then find what is reached, and the gate is entered before their steps. Four things more are then found
/// group by group, in two pieces for each processor and on a thread for each piece, whatever that number is: whether what files hold keeps
/// the limits and the rules, which references are at fault, what symbols take in tables, and, where there are three groups or more, what
/// symbols stand for. All else is done on the caller's thread, which waits for them. What is reached and what is at fault is found on the
/// caller's thread too where long lists of asks may be shared by many, as the members of a large section group are: workers go through such
/// a list for each unit that asks for it. With 0 or 1 workers it never calls the gate: it then asks for no leave to enter it.
pub fn compute<'data, R: Threads + Wait + Sync, P: Platform + Sync, A: Arch + Sync, G: Gate + Sync>(
    rt: &R,
    alloc: Global,
    link: &'data LinkInput,
    platform: &P,
    arch: &A,
    workers: u32,
    gate: &G,
) -> Result<Layout<'data>, LayoutError>
    requires gate { 2 ≤ workers → G.may_enter gate.now }
    ensures { Gives (platform_machine (P.segment_start platform.now) (P.table_sizes platform.now) (A.config_of arch.now)) link.now result }
{
    if workers < 2 {
        return compute_alone(alloc, link, platform, arch);
    }
    check_by_groups(rt, link)?;
    let images = merge_by_workers(rt, alloc, link, workers, gate)?;
    let kept = keep_by_workers(rt, alloc, link, images, workers, gate)?;
    let job = Job {
        link,
        platform,
        arch,
    };
    lay_out_by_groups(rt, alloc, &job, kept)
}

/// The layout of a job's link, of which this is kept.
fn lay_out<'data, J: Finds<'data>>(
    alloc: Global,
    job: &J,
    kept: KeptLink<'data>,
) -> Result<Layout<'data>, LayoutError>
    requires kept { IsKept (J.link job.now) kept }
    ensures { Gives (J.machine job.now) (J.link job.now) result }
{
    let plain = job.plain(alloc, &kept);
    let sized = size(alloc, job, kept, plain)?;
    let spanned = stand(alloc, job, sized)?;
    let found = job.valued(alloc, &spanned);
    let addressed = address(alloc, job, spanned, found)?;
    finish(alloc, job, addressed)
}

/// The same, with symbols sized and resolved group by group.
fn lay_out_by_groups<'a, 'data, R: Threads + Sync, P: Platform + Sync, A: Arch>(
    rt: &R,
    alloc: Global,
    job: &Job<'a, 'data, P, A>,
    kept: KeptLink<'data>,
) -> Result<Layout<'data>, LayoutError>
    requires kept { IsKept job.now.link.now kept }
    ensures { Gives (⟦<Job<'a, 'data, P, A> as Finds<'data>>⟧.machine job.now) job.now.link.now result }
{
    let plain = plain_by_groups(rt, alloc, job, &kept);
    let sized = size(alloc, job, kept, plain)?;
    let spanned = stand(alloc, job, sized)?;
    let found = valued_by_groups(rt, alloc, job, &spanned);
    let addressed = address(alloc, job, spanned, found)?;
    finish(alloc, job, addressed)
}

/// Looks for the first fault of a link.
fn check(link: &LinkInput) -> Result<(), LayoutError>
    ensures { (machine : Machine) → Reaches machine link.now (λ _. IsChecked link.now) result }
{
    check_link(link)?;
    Ok(())
}

/// The same, group by group.
fn check_by_groups<R: Threads + Sync>(rt: &R, link: &LinkInput) -> Result<(), LayoutError>
    ensures { (machine : Machine) → Reaches machine link.now (λ _. IsChecked link.now) result }
{
    check_link_by_groups(rt, link)?;
    Ok(())
}

/// Merges what is merged of a link.
fn merge<'data>(alloc: Global, link: &'data LinkInput) -> Result<Images<'data>, LayoutError>
    requires checked { IsChecked link.now }
    ensures { (machine : Machine) → Reaches machine link.now (IsMerged link.now) result }
{
    merge_images(alloc, link)
}

/// The same by so many workers.
fn merge_by_workers<'data, R: Threads + Wait + Sync, G: Gate + Sync>(
    rt: &R,
    alloc: Global,
    link: &'data LinkInput,
    workers: u32,
    gate: &G,
) -> Result<Images<'data>, LayoutError>
    requires checked { IsChecked link.now }
    requires gate { 2 ≤ workers → G.may_enter gate.now }
    ensures { (machine : Machine) → Reaches machine link.now (IsMerged link.now) result }
{
    merge_images_by_workers(rt, alloc, link, workers.min(MOST_WORKERS), gate)
}

/// Finds what is live, and the references that can't be met.
fn keep<'data>(
    alloc: Global,
    link: &'data LinkInput,
    images: Images<'data>,
) -> Result<KeptLink<'data>, LayoutError>
    requires merged { IsMerged link.now images }
    ensures { (machine : Machine) → Reaches machine link.now (IsKept link.now) result }
{
    let live = traverse_alone(alloc, link)?;
    Ok(KeptLink { images, live })
}

/// The same by so many workers, or alone where these would go through long lists again and again.
fn keep_by_workers<'data, R: Threads + Wait + Sync, G: Gate + Sync>(
    rt: &R,
    alloc: Global,
    link: &'data LinkInput,
    images: Images<'data>,
    workers: u32,
    gate: &G,
) -> Result<KeptLink<'data>, LayoutError>
    requires merged { IsMerged link.now images }
    requires gate { 2 ≤ workers → G.may_enter gate.now }
    ensures { (machine : Machine) → Reaches machine link.now (IsKept link.now) result }
{
    let live = traverse(rt, alloc, link, walkers(link, workers), gate)?;
    Ok(KeptLink { images, live })
}

/// Adds up what the live sections bring to each part, without thunks, and symbols group by group.
fn plain_by_groups<'a, 'data, R: Threads + Sync, P: Platform + Sync, A: Arch>(
    rt: &R,
    alloc: Global,
    job: &Job<'a, 'data, P, A>,
    kept: &KeptLink<'data>,
) -> Result<PartOwners, LayoutError>
    requires kept { IsKept job.now.link.now kept.now }
    ensures { Reaches (⟦<Job<'a, 'data, P, A> as Finds<'data>>⟧.machine job.now) job.now.link.now
        (ArePlainOwners (⟦<Job<'a, 'data, P, A> as Finds<'data>>⟧.machine job.now) job.now.link.now kept.now.live) result }
{
    let live = &kept.live;
    let lens = &kept.images.lens;
    let plain = plain_owners_by_groups(rt, alloc, job.link, job.platform, live, lens)?;
    Ok(plain)
}

/// Plans thunks by what comes into the parts without them, if that was found, and adds these.
fn size<'data, J: Finds<'data>>(
    alloc: Global,
    job: &J,
    kept: KeptLink<'data>,
    plain: Result<PartOwners, LayoutError>,
) -> Result<SizedLink<'data>, LayoutError>
    requires kept { IsKept (J.link job.now) kept }
    requires plain { Reaches (J.machine job.now) (J.link job.now) (ArePlainOwners (J.machine job.now) (J.link job.now) kept.live) plain }
    ensures { Reaches (J.machine job.now) (J.link job.now) (IsSized (J.machine job.now) (J.link job.now)) result }
{
    match sizes(alloc, job, &kept, plain) {
        Ok((owners, thunks)) => Ok(SizedLink {
            kept,
            owners,
            thunks,
        }),
        Err(error) => {
            drop(kept);
            Err(error)
        }
    }
}

/// Finds where all stands of a link whose parts are so long, and what the output sections and segments span.
fn stand<'data, J: Finds<'data>>(
    alloc: Global,
    job: &J,
    sized: SizedLink<'data>,
) -> Result<SpannedLink<'data>, LayoutError>
    requires sized { IsSized (J.machine job.now) (J.link job.now) sized }
    ensures { Reaches (J.machine job.now) (J.link job.now) (IsSpannedLink (J.machine job.now) (J.link job.now)) result }
{
    let placed = job.place(alloc, sized)?;
    span(alloc, job, placed)
}

/// Finds what the output sections and segments span.
fn span<'data, J: Finds<'data>>(
    alloc: Global,
    job: &J,
    placed: PlacedLink<'data>,
) -> Result<SpannedLink<'data>, LayoutError>
    requires placed { IsPlacedLink (J.machine job.now) (J.link job.now) placed }
    ensures { Reaches (J.machine job.now) (J.link job.now) (IsSpannedLink (J.machine job.now) (J.link job.now)) result }
{
    match job.spans(alloc, &placed) {
        Ok((joined, segments)) => Ok(SpannedLink {
            placed,
            joined,
            segments,
        }),
        Err(error) => {
            drop(placed);
            Err(error)
        }
    }
}

/// Finds the addresses of what stands in the parts, and what symbols stand for, group by group. Behind the prelude's there have to be two
/// groups: one has nothing to share out, and would be looked at once more.
fn valued_by_groups<'a, 'data, R: Threads + Sync, P: Platform + Sync, A: Arch>(
    rt: &R,
    alloc: Global,
    job: &Job<'a, 'data, P, A>,
    spanned: &SpannedLink<'data>,
) -> Result<Addresses, LayoutError>
    requires spanned { IsSpannedLink (⟦<Job<'a, 'data, P, A> as Finds<'data>>⟧.machine job.now) job.now.link.now spanned.now }
    ensures { Reaches (⟦<Job<'a, 'data, P, A> as Finds<'data>>⟧.machine job.now) job.now.link.now
        (IsValuedLink (⟦<Job<'a, 'data, P, A> as Finds<'data>>⟧.machine job.now) job.now.link.now spanned.now) result }
{
    let link = job.link;
    if link.groups.len() < 3 {
        return job.valued(alloc, spanned);
    }
    let edges = job.edges(alloc, spanned)?;
    let parts = job.placed_parts(&*spanned, &edges);
    let placed = &spanned.placed;
    let live = &placed.kept.live;
    let merged = placed.kept.images.sections.as_slice();
    let owners = &placed.owners;
    let platform = job.platform;
    let found = addresses_of_by_groups(rt, alloc, link, live, merged, owners, &parts, platform)?;
    Ok(found)
}

/// Sets the values of redirects, if addresses were found and what symbols stand for before that.
fn address<'data, J: Finds<'data>>(
    alloc: Global,
    job: &J,
    spanned: SpannedLink<'data>,
    found: Result<Addresses, LayoutError>,
) -> Result<AddressedLink<'data>, LayoutError>
    requires spanned { IsSpannedLink (J.machine job.now) (J.link job.now) spanned }
    requires found { Reaches (J.machine job.now) (J.link job.now) (IsValuedLink (J.machine job.now) (J.link job.now) spanned) found }
    ensures { Reaches (J.machine job.now) (J.link job.now) (IsAddressedLink (J.machine job.now) (J.link job.now)) result }
{
    match addresses(alloc, job, &spanned, found) {
        Ok(addresses) => Ok(AddressedLink { spanned, addresses }),
        Err(error) => {
            drop(spanned);
            Err(error)
        }
    }
}

/// The layout of a link whose symbols are resolved.
fn finish<'data, J: Finds<'data>>(
    alloc: Global,
    job: &J,
    addressed: AddressedLink<'data>,
) -> Result<Layout<'data>, LayoutError>
    requires addressed { IsAddressedLink (J.machine job.now) (J.link job.now) addressed }
    ensures { Gives (J.machine job.now) (J.link job.now) result }
{
    let reaching = find_thunk_places(alloc, job, addressed)?;
    let told = complete(alloc, job, reaching)?;
    Ok(job.layout(told))
}

/// Finds where the thunks of each block begin, and looks at branches, and then at what relaxation deleted.
fn find_thunk_places<'data, J: Finds<'data>>(
    alloc: Global,
    job: &J,
    addressed: AddressedLink<'data>,
) -> Result<ReachingLink<'data>, LayoutError>
    requires addressed { IsAddressedLink (J.machine job.now) (J.link job.now) addressed }
    ensures { Reaches (J.machine job.now) (J.link job.now) (IsReachingLink (J.machine job.now) (J.link job.now)) result }
{
    match job.reaching(alloc, &addressed) {
        Ok(places) => Ok(ReachingLink { addressed, places }),
        Err(error) => {
            drop(addressed);
            Err(error)
        }
    }
}

/// Finds what is told beside that: attributes, what is known of output that is linked again, the owners of blocks, and where groups begin
/// in the tables of symbols.
fn complete<'data, J: Finds<'data>>(
    alloc: Global,
    job: &J,
    reaching: ReachingLink<'data>,
) -> Result<ToldLink<'data>, LayoutError>
    requires reaching { IsReachingLink (J.machine job.now) (J.link job.now) reaching }
    ensures { Reaches (J.machine job.now) (J.link job.now) (IsToldLink (J.machine job.now) (J.link job.now)) result }
{
    match job.completed(alloc, &reaching) {
        Ok((attributes, partial_link, block_owners, group_starts)) => Ok(ToldLink {
            reaching,
            attributes,
            partial_link,
            block_owners,
            group_starts,
        }),
        Err(error) => {
            drop(reaching);
            Err(error)
        }
    }
}

/// What comes into each part, with the plan of the thunks among that.
fn sizes<'data, J: Finds<'data>>(
    alloc: Global,
    job: &J,
    kept: &KeptLink<'data>,
    plain: Result<PartOwners, LayoutError>,
) -> Result<(PartOwners, ThunkPlan), LayoutError>
    requires kept { IsKept (J.link job.now) kept.now }
    requires plain { Reaches (J.machine job.now) (J.link job.now) (ArePlainOwners (J.machine job.now) (J.link job.now) kept.now.live) plain }
    ensures { Reaches (J.machine job.now) (J.link job.now)
        (λ q. IsSized (J.machine job.now) (J.link job.now) (record { kept = kept.now; owners = q.0; thunks = q.1 })) result }
{
    match plain {
        Ok(plain) => job.with_thunks(alloc, kept, plain),
        Err(error) => Err(error),
    }
}

/// The addresses of what stands in the parts, and what symbols stand for, behind all redirects.
fn addresses<'data, J: Finds<'data>>(
    alloc: Global,
    job: &J,
    spanned: &SpannedLink<'data>,
    found: Result<Addresses, LayoutError>,
) -> Result<Addresses, LayoutError>
    requires found { Reaches (J.machine job.now) (J.link job.now) (IsValuedLink (J.machine job.now) (J.link job.now) spanned.now) found }
    ensures { Reaches (J.machine job.now) (J.link job.now)
        (λ q. IsAddressedLink (J.machine job.now) (J.link job.now) (record { spanned = spanned.now; addresses = q })) result }
{
    match found {
        Ok(found) => job.redirected(alloc, spanned, found),
        Err(error) => Err(error),
    }
}
