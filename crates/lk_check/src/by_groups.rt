//! The rules on what files hold, looked at group by group on several threads.
//!
//! Nearly all links are good. So groups are only asked whether they are, side by side and in any order; where one isn't, the rules are
//! gone through in their own order for the first that is broken.

ghost use Rattle.std.specs.Prelude.{◌≡◌, ◌≤◌, length};
ghost use Rattle.lk_link.specs.Files.{AreNumbered};
ghost use Rattle.lk_link.specs.SymbolRules.{location_count};
ghost use Rattle.lk_link.specs.Symbols.{all_files, symbol_count};
ghost use Rattle.lk_check.specs.ByGroups.{has_good_files, has_good_sections, has_good_symbols, is_good_file, is_good_group};
ghost use Rattle.lk_check.specs.FirstAnswer.{first_of};
ghost use Rattle.lk_check.specs.FirstFault.{all_rules, check_of, rule_fault};

use crate::candidates::has_good_candidates;
use crate::events::location_count;
use crate::expressions::is_good_redirect;
use crate::good_inputs::is_good_input;
use crate::good_symbols::is_good_symbol;
use crate::rules::{check_outside_files, check_rules};
use crate::section_data::has_whole_data;
use crate::tables::has_tables;
use lk_link::fault::LinkFault;
use lk_link::file::InputFile;
use lk_link::limits::{OUTPUT_SECTIONS, SEGMENTS, SYMBOLS};
use lk_link::link::LinkInput;
use lk_link::list::List;
use lk_link::plan::Plan;
use rayon::prelude::*;
use std::thread::Threads;

/// Refuses a link that breaks a rule, by the first such rule at its first place.
pub fn check_rules_by_groups<R: Threads + Sync>(rt: &R, link: &LinkInput) -> Result<(), LinkFault>
    requires files { AreNumbered link.now.groups }
    requires symbols { symbol_count (all_files link.now.groups) ≤ SYMBOLS }
    requires sections { length link.now.plan.sections ≤ OUTPUT_SECTIONS }
    requires segments { length link.now.plan.segments ≤ SEGMENTS }
    ensures { result ≡ check_of (first_of (rule_fault link.now) all_rules) }
{
    if has_good_files(rt, link) {
        check_outside_files(link)
    } else {
        check_rules(link)
    }
}

/// Whether all that the files of a link hold is good.
fn has_good_files<R: Threads + Sync>(rt: &R, link: &LinkInput) -> bool
    ensures { result ≡ has_good_files link.now }
{
    let locations = location_count(&link.plan);
    link.groups.as_slice().par_iter().with_min_len(1).all(
        rt,
        |files: &List<InputFile>| -> bool
            requires { locations ≡ location_count link.now.plan }
            ensures { result ≡ is_good_group link.entry.now files.now }
        { is_good_group(link, locations, files.as_slice()) },
    )
}

/// Whether all that some files hold is good, in a plan with so many events that move the location counter.
fn is_good_group(link: &LinkInput, locations: usize, files: &[InputFile]) -> bool
    requires { locations ≡ location_count link.now.plan }
    ensures { result ≡ is_good_group link.now files.now }
{
    files.iter().all(|file| is_good_file(link, locations, file))
}

/// Whether all that a file holds is good.
#[tactic(auto, unfolding(crate::specs::ByGroups::is_good_file))]
fn is_good_file(link: &LinkInput, locations: usize, file: &InputFile) -> bool
    requires { locations ≡ location_count link.now.plan }
    ensures { result ≡ is_good_file link.now file.now }
{
    has_good_symbols(link, locations, file)
        && has_good_sections(&link.plan, file)
        && has_good_candidates(link, file)
}

/// Whether each symbol of a file is good, and its redirect.
fn has_good_symbols(link: &LinkInput, locations: usize, file: &InputFile) -> bool
    requires { locations ≡ location_count link.now.plan }
    ensures { result ≡ has_good_symbols link.now file.now }
{
    file.symbols.as_slice().iter().all(|symbol| {
        is_good_symbol(link, locations, file, symbol) && is_good_redirect(link, &symbol.at)
    })
}

/// Whether each section of a file is good, what its relocations want has a part, and its data are as many bytes as its size.
fn has_good_sections(plan: &Plan, file: &InputFile) -> bool
    ensures { result ≡ has_good_sections plan.now file.now }
{
    let symbols = file.symbols.len();
    file.sections.as_slice().iter().all(|section| is_good_input(plan, symbols, section)
        && has_tables(&plan.named, section)
        && has_whole_data(section))
}
