//! The rule on input sections: the first section that breaks it.

ghost use Rattle.std.specs.Prelude.{◌≡◌, not, length, position};
ghost use Rattle.lk_link.specs.declared.fault.Rule.TheVariants as rule;
ghost use Rattle.lk_link.specs.Files.{AreNumbered};
ghost use Rattle.lk_link.specs.InputRules.{is_good_input};
ghost use Rattle.lk_check.specs.FirstBadFile.{first_bad_in_files};
ghost use Rattle.lk_check.specs.FirstFault.{first_place};

use crate::good_inputs::is_good_input;
use lk_link::fault::Place;
use lk_link::file::InputFile;
use lk_link::ids::FileId;
use lk_link::link::LinkInput;
use lk_link::plan::Plan;

/// The first input section that isn't good.
#[tactic(auto, unfolding(crate::specs::FirstFault::first_place))]
pub fn first_place(link: &LinkInput) -> Option<Place>
    requires { AreNumbered link.now.groups }
    ensures { result ≡ first_place link.now rule.InputSections }
{
    let (id, section) = first_bad_input(link)?;
    Some(Place::Input(id, section))
}

/// The same, by its file and its index there.
#[tactic(auto, using(crate::proofs::First::walks))]
fn first_bad_input(link: &LinkInput) -> Option<(FileId, usize)>
    requires { AreNumbered link.now.groups }
    ensures { result ≡ first_bad_in_files (λ f. f.sections) (λ f. is_good_input link.now.plan (length f.symbols)) link.now.groups }
{
    for at in link.groups.files() {
        if let Some(section) = bad_section(&link.plan, at.file) {
            return Some((at.id, section));
        }
    }
    None
}

/// The first input section of a file that isn't good.
fn bad_section(plan: &Plan, file: &InputFile) -> Option<usize>
    ensures { result ≡ position (λ s. not (is_good_input plan.now (length file.now.symbols) s)) file.now.sections }
{
    let symbols = file.symbols.len();
    file.sections
        .as_slice()
        .iter()
        .position(|section| !is_good_input(plan, symbols, section))
}
