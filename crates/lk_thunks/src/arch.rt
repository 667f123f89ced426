//! What depends on the architecture that a link is for.

ghost use Rattle.std.specs.Prelude.{◌≡◌, ℕ, IfSome, Option};
ghost use Rattle.lk_link.specs.WellFormed.{IsWellFormed};
ghost use Rattle.lk_link.specs.declared.link.LinkInput.{LinkInput};
ghost use Rattle.lk_link.specs.declared.options.Options.{Options};
ghost use Rattle.lk_link.specs.declared.plan.Plan.{Plan};
ghost use Rattle.lk_thunks.specs.Configs.{IsLawfulConfig, small64_config};
ghost use Rattle.lk_thunks.specs.declared.arch.ThunkConfig.{ThunkConfig};

use lk_link::laws::{options_are_good, part_fields_are_good, parts_are_aligned};
use lk_link::{LinkInput, Options, PartId, Plan};

/// The most bytes that a thunk may take.
pub const MOST_THUNK: u64 = 65536;

/// How an architecture makes thunks (libwild: `ThunkConfig`).
#[derive(Clone, Copy, Debug, PartialEq, Eq)]
pub struct ThunkConfig {
    /// The part for the bulk of the code, where thunks stand: the one that the plan names.
    pub primary_function_part_id: PartId,
    /// The bytes of a thunk: a multiple of that part's alignment, at most 65,536.
    pub thunk_size: u64,
    /// How far a branch reaches, in bytes: above 2,097,152.
    pub min_branch_range: u64,
}

/// An architecture (libwild: `Arch`).
pub trait Arch {
    /// How thunks are made for some options and a plan, if they are.
    ghost config_of: { Self → Options → Plan → Option ThunkConfig };

    /// How thunks are made for the options and the plan of a link; none where they aren't (libwild: `thunk_config`).
    fn thunk_config(&self, options: &Options, plan: &Plan) -> Option<ThunkConfig>
        ensures { result ≡ config_of self.now options.now plan.now };

    /// What it says for a well-formed link is lawful.
    fn configs_are_lawful(&self)
        ensures { (link : LinkInput) → IsWellFormed link → IfSome (config_of self.now link.options link.plan) (IsLawfulConfig link) };
}

/// The architecture beside the small platform: it has thunks of 16 bytes where the plan names the part for them.
#[derive(Clone, Copy, Debug, PartialEq, Eq)]
pub struct Small64Arch;

impl Arch for Small64Arch {
    ghost config_of = { λ _. small64_config };

    fn thunk_config(&self, options: &Options, plan: &Plan) -> Option<ThunkConfig> {
        let primary = plan.named.primary?;
        Some(ThunkConfig {
            primary_function_part_id: primary,
            thunk_size: 16,
            min_branch_range: options.branch_range,
        })
    }

    fn configs_are_lawful(&self) {
        options_are_good();
        part_fields_are_good();
        parts_are_aligned();
    }
}
