//! The plan of a link's thunks, by what fills its parts without them.
//!
//! The code of other parts is taken to stand before that of the primary part. Behind it objects are planned end to end, and what the
//! thunks of each block take is added up for the object that owns the block.

ghost use Rattle.std.specs.Prelude.{◌≡◌, [], ◌<◌, ◌^◌, ◌-◌, ℕ, List, IfOk, None, Some, length, map, min, slice_index, sum_by};
ghost use Rattle.std.specs.List.{enumerate_from};
ghost use Rattle.lk_link.specs.declared.plan.attributes.TheConstants.{EXEC};
ghost use Rattle.lk_link.specs.PartRules.{is_part};
ghost use Rattle.lk_link.specs.Parts.{all_parts};
ghost use Rattle.lk_link.specs.PlanSections.{is_set};
ghost use Rattle.lk_link.specs.TableSizes.{TableSizes};
ghost use Rattle.lk_link.specs.WellFormed.{IsWellFormed};
ghost use Rattle.lk_live.specs.Reach.{AreLive};
ghost use Rattle.lk_sizes.specs.Contents.{part_contents, sum_refusal};
ghost use Rattle.lk_sizes.specs.Owners.{content_of, plain_filling};
ghost use Rattle.lk_sizes.specs.Sizing.{AreFilled};
ghost use Rattle.lk_thunks.specs.Building.{builder_of};
ghost use Rattle.lk_thunks.specs.Configs.{IsLawfulConfig};
ghost use Rattle.lk_thunk_plan.specs.Orders.{IsInOrder};
ghost use Rattle.lk_thunk_plan.specs.Planning.{IsPlannedFrom, ThunksAreSmall, has_code_by, other_code_by, set_bytes};
ghost use Rattle.lk_thunk_plan.specs.ThunkPlans.{IsThunkPlan, code_before, owners_among};

use lk_link::part_sections::section_of_part;
use lk_link::plan::attributes;
use lk_link::{FileId, LinkInput, List, PartId};
use lk_live::Live;
use lk_sizes::{PartContents, PartOwners, attributes_of_contents};
use lk_thunks::{Arch, ThunkBlock, ThunkBlockId, ThunkConfig, ThunkLayoutBuilder};
use std::alloc::{AllocError, Global};

/// The thunks of a link.
#[derive(Drop)]
pub struct ThunkPlan {
    /// How thunks are made; none where they aren't.
    pub config: Option<ThunkConfig>,
    /// The thunks of each block, one block at least; none where no thunks are planned.
    pub blocks: List<ThunkBlock>,
    /// Each object that has code of the primary part, in the order of files, with its block and whether it owns it.
    pub users: List<(FileId, ThunkBlockId, bool)>,
    /// The bytes of the thunks of each block, by the object that owns it, in the order of files.
    pub owners: List<(FileId, u64)>,
}

/// Plans the thunks of a link, by what comes into its parts without them, where that is below 2^64 bytes together. Looks at each
/// input section once; where thunks are planned also at each part, and at each input section and each symbol a few times more.
pub fn plan_thunks<A: Arch>(
    alloc: Global,
    link: &LinkInput,
    live: &Live,
    owners: &PartOwners,
    arch: &A,
) -> Result<ThunkPlan, AllocError>
    requires good { IsWellFormed link.now }
    requires live { AreLive link.now live.now }
    requires filled { (sizes : TableSizes) × (lens : List ℕ) × AreFilled (plain_filling (content_of link.now sizes live.now lens)) owners.now
        × (sum_refusal (plain_filling (content_of link.now sizes live.now lens)) ≡ None) }
    ensures plan { (sizes : TableSizes) (lens : List ℕ) → AreFilled (plain_filling (content_of link.now sizes live.now lens)) owners.now
        → IfOk result (IsThunkPlan (A.config_of arch.now) (plain_filling (content_of link.now sizes live.now lens))) }
    ensures order { IfOk result (IsInOrder link.now) }
{
    arch.configs_are_lawful();
    let Some(config) = arch.thunk_config(&link.options, &link.plan) else {
        return Ok(unplanned(alloc, None));
    };
    let Some(builder) = builder_for(link, &config) else {
        return Ok(unplanned(alloc, Some(config)));
    };
    let making = ThunkPlanning { config, builder };
    planned(alloc, link, live, owners.contents(), making)
}

/// The planning of a link, where thunks are made so, if they are planned.
fn builder_for(link: &LinkInput, config: &ThunkConfig) -> Option<ThunkLayoutBuilder>
    requires good { IsWellFormed link.now }
    requires lawful { IsLawfulConfig link.now config.now }
    ensures { result ≡ builder_of link.now (Some config.now) }
{
    ThunkLayoutBuilder::new(link, Some(*config))
}

/// No thunks.
fn unplanned(alloc: Global, config: Option<ThunkConfig>) -> ThunkPlan
    ensures config { result.config ≡ config }
    ensures blocks { result.blocks ≡ [] }
    ensures users { result.users ≡ [] }
    ensures owners { result.owners ≡ [] }
{
    ThunkPlan {
        config,
        blocks: List::new(alloc),
        users: List::new(alloc),
        owners: List::new(alloc),
    }
}

/// How thunks are made, and the planning by that.
#[derive(Clone, Copy)]
struct ThunkPlanning {
    config: ThunkConfig,
    builder: ThunkLayoutBuilder,
}

/// The thunks of a link for which they are planned.
fn planned(
    alloc: Global,
    link: &LinkInput,
    live: &Live,
    contents: &[PartContents],
    making: ThunkPlanning,
) -> Result<ThunkPlan, AllocError>
    requires good { IsWellFormed link.now }
    requires live { AreLive link.now live.now }
    requires lawful { IsLawfulConfig link.now making.config }
    requires filled { (sizes : TableSizes) × (lens : List ℕ) × (contents.now ≡ part_contents (plain_filling (content_of link.now sizes live.now lens)))
        × (sum_refusal (plain_filling (content_of link.now sizes live.now lens)) ≡ None) }
    ensures { (sizes : TableSizes) (lens : List ℕ) → contents.now ≡ part_contents (plain_filling (content_of link.now sizes live.now lens))
        → IfOk result (IsPlannedFrom link.now live.now (Some making.config) making.builder (code_before (plain_filling (content_of link.now sizes live.now lens)))) }
{
    let start = code_before(alloc, link, live, contents)?;
    let (blocks, users) = making.builder.build(alloc, link, live, start)?;
    let owners = owners_among(alloc, making.config.thunk_size, &blocks, &users)?;
    Ok(ThunkPlan {
        config: Some(making.config),
        blocks: List::from_vec(blocks),
        users: List::from_vec(users),
        owners: List::from_vec(owners),
    })
}

/// Where the first object is taken to stand: behind the code of all parts but the primary one; a sum past 2^64 - 1 is given as that.
fn code_before(
    alloc: Global,
    link: &LinkInput,
    _live: &Live,
    contents: &[PartContents],
) -> Result<u64, AllocError>
    requires good { IsWellFormed link.now }
    requires count { length contents.now ≡ length (all_parts link.now.plan.sections) }
    ensures { (sizes : TableSizes) (lens : List ℕ) → contents.now ≡ part_contents (plain_filling (content_of link.now sizes _live.now lens))
        → IfOk result (λ start. start ≡ min (code_before (plain_filling (content_of link.now sizes _live.now lens))) (2 ^ 64 - 1)) }
{
    let attributes = attributes_of_contents(alloc, link, contents)?;
    Ok(sum_code(link, &attributes, contents))
}

/// The bytes of the parts that have code and aren't the primary one, by the attributes of output sections; a sum past 2^64 - 1 is
/// given as that.
fn sum_code(link: &LinkInput, attributes: &[u32], contents: &[PartContents]) -> u64
    requires good { IsWellFormed link.now }
    requires count { length contents.now ≡ length (all_parts link.now.plan.sections) }
    ensures { result ≡ min (sum_by (other_code_by link.now attributes.now) (enumerate_from 0 contents.now)) (2 ^ 64 - 1) }
{
    let mut sum = 0u64;
    for (number, part) in contents.iter().enumerate() {
        sum = sum.saturating_add(code_of(link, attributes, number, part));
    }
    sum
}

/// The bytes of a part with this number, if it has code and isn't the primary one.
fn code_of(link: &LinkInput, attributes: &[u32], number: usize, part: &PartContents) -> u64
    requires good { IsWellFormed link.now }
    requires within { number < length (all_parts link.now.plan.sections) }
    ensures { result ≡ other_code_by link.now attributes.now (number, part.now) }
{
    if has_code(link, attributes, number) {
        part.bytes
    } else {
        0
    }
}

/// Whether a part belongs to an executable output section, and isn't the primary one.
fn has_code(link: &LinkInput, attributes: &[u32], number: usize) -> bool
    requires good { IsWellFormed link.now }
    requires within { number < length (all_parts link.now.plan.sections) }
    ensures { result ≡ has_code_by link.now attributes.now number }
{
    let part = PartId::from_u32(number as u32);
    let section = section_of_part(&link.plan.sections, part);
    is_executable(attributes, section) && !is_primary(link, part)
}

/// Whether an output section with this number is executable, by the attributes of all.
fn is_executable(attributes: &[u32], section: usize) -> bool
    ensures { result ≡ is_set EXEC (slice_index attributes.now section) }
{
    match attributes.get(section) {
        Some(attrs) => *attrs & attributes::EXEC != 0,
        None => false,
    }
}

/// Whether a part is the primary one.
fn is_primary(link: &LinkInput, part: PartId) -> bool
    ensures { result ≡ is_part part link.now.plan.named.primary }
{
    match link.plan.named.primary {
        Some(primary) => primary.as_u32() == part.as_u32(),
        None => false,
    }
}

/// The bytes of the thunks of each block, by the object that owns it.
fn owners_among(
    alloc: Global,
    size: u64,
    blocks: &[ThunkBlock],
    users: &[(FileId, ThunkBlockId, bool)],
) -> Result<Vec<(FileId, u64)>, AllocError>
    requires { ThunksAreSmall size (map (λ b. b.symbols) blocks.now) }
    ensures { IfOk result (λ owners. owners.items ≡ owners_among size (map (λ b. b.symbols) blocks.now) users.now) }
{
    let mut owners = Vec::new(alloc);
    for user in users {
        if user.2 {
            owners.push((user.0, set_bytes(size, blocks, user.1)))?;
        }
    }
    Ok(owners)
}

/// The bytes of a block's thunks; 0 where there is no such block.
fn set_bytes(size: u64, blocks: &[ThunkBlock], block: ThunkBlockId) -> u64
    requires { ThunksAreSmall size (map (λ b. b.symbols) blocks.now) }
    ensures { result ≡ set_bytes size (map (λ b. b.symbols) blocks.now) block }
{
    match blocks.get(block.as_usize()) {
        Some(block) => size * block.symbols.len() as u64,
        None => 0,
    }
}
