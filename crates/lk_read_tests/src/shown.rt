//! What is told of a description, in a line of text.

use crate::checking::add_check;
use crate::look_ups::{add_files, add_members, add_names, add_symbols};
use crate::plans::{add_insides, add_sections};
use crate::reading::summary::{add_groups, add_options, add_plan};
use lk_link::LinkInput;
use lk_test_rows::add;
use std::alloc::{AllocError, Global};

/// What a line tells.
#[derive(Clone, Copy)]
pub enum Shown {
    /// What is read of the options, the plan or the groups.
    Options,
    Plan,
    Groups,
    /// What the check says.
    Check,
    /// What is found by a number or a name.
    Symbols,
    Files,
    Members,
    Names,
    /// The number that the plan's base is.
    Base,
    /// What the plan says of its sections, and what is inside its segments.
    Sections,
    Insides,
}

/// Adds what is asked for.
pub fn add_shown(
    alloc: Global,
    line: &mut String,
    shown: Shown,
    link: &LinkInput,
) -> Result<(), AllocError> {
    match shown {
        Shown::Options => add_options(line, &link.options),
        Shown::Plan => add_plan(line, &link.plan),
        Shown::Groups => add_groups(line, &link.groups),
        Shown::Check => add_check(line, link),
        Shown::Symbols => add_symbols(line, &link.groups),
        Shown::Files => add_files(line, &link.groups),
        Shown::Members => add_members(line, &link.groups),
        Shown::Names => add_names(line, &link.options),
        Shown::Base => add(line, "base", &link.plan.base.as_number()),
        Shown::Sections => add_sections(line, &link.plan),
        Shown::Insides => add_insides(alloc, line, &link.plan),
    }
}
