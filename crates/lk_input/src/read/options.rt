//! The options from JSON.

ghost use Rattle.lk_input.specs.ReadingOptions.{outputs, discards, names_of, options_of};
ghost use Rattle.lk_input.specs.ReadingSteps.{one_of};
ghost use Rattle.lk_input.specs.Keys.{option_key_text};
ghost use Rattle.lk_input.specs.Words.{output_text, discard_text};

use crate::read::described::{Described, one_of};
use crate::read::error::InputError;
use crate::read::member::{defaulted, object, optional};
use crate::read::word::Word;
use lk_link::list::List;
use lk_link::names::Names;
use lk_link::options::{DiscardLocals, Options, OutputKind};
use serde_json::Value;
use std::alloc::Global;

/// How many bytes a bucket of merged strings may take, where the description doesn't say.
pub(crate) const BUCKET_LIMIT: u64 = 268_435_456;

/// How many bytes a group of merged strings takes, where the description doesn't say.
pub(crate) const MERGE_GROUP: u64 = 140_000;

/// A key of the options.
#[derive(Clone, Copy)]
pub(crate) enum OptionKey {
    Output,
    Gc,
    ErrorObjects,
    ErrorDynamics,
    ExportAll,
    ExportList,
    Restrictive,
    StripAll,
    Discard,
    StripNames,
    Identity,
    Stack,
    Entry,
    Relax,
    BranchRange,
    BucketLimit,
    MergeGroup,
}

#[tactic(auto, unfolding(crate::specs::ReadingSteps::written))]
impl Word for OptionKey {
    ghost spelling = { option_key_text };

    fn text(self) -> &'static str {
        match self {
            OptionKey::Output => "output",
            OptionKey::Gc => "gc",
            OptionKey::ErrorObjects => "error_objects",
            OptionKey::ErrorDynamics => "error_dynamics",
            OptionKey::ExportAll => "export_all",
            OptionKey::ExportList => "export_list",
            OptionKey::Restrictive => "restrictive",
            OptionKey::StripAll => "strip_all",
            OptionKey::Discard => "discard",
            OptionKey::StripNames => "strip_names",
            OptionKey::Identity => "identity",
            OptionKey::Stack => "stack",
            OptionKey::Entry => "entry",
            OptionKey::Relax => "relax",
            OptionKey::BranchRange => "branch_range",
            OptionKey::BucketLimit => "bucket_limit",
            OptionKey::MergeGroup => "merge_group",
        }
    }
}

#[tactic(auto, unfolding(crate::specs::Words::output_text, crate::specs::ReadingSteps::written))]
impl Word for OutputKind {
    ghost spelling = { output_text };

    fn text(self) -> &'static str {
        match self {
            OutputKind::StaticExecutable => "static",
            OutputKind::DynamicExecutable => "dynamic",
            OutputKind::SharedObject => "shared",
            OutputKind::Partial => "partial",
        }
    }
}

#[tactic(auto, unfolding(crate::specs::Words::output_text))]
impl Described for OutputKind {
    ghost described = { one_of outputs };

    fn read(alloc: Global, value: &Value) -> Result<OutputKind, InputError> {
        one_of(
            alloc,
            value,
            &[
                OutputKind::StaticExecutable,
                OutputKind::DynamicExecutable,
                OutputKind::SharedObject,
                OutputKind::Partial,
            ],
        )
    }
}

#[tactic(auto, unfolding(crate::specs::Words::discard_text, crate::specs::ReadingSteps::written))]
impl Word for DiscardLocals {
    ghost spelling = { discard_text };

    fn text(self) -> &'static str {
        match self {
            DiscardLocals::Default => "default",
            DiscardLocals::All => "all",
            DiscardLocals::None => "none",
        }
    }
}

#[tactic(auto, unfolding(crate::specs::Words::discard_text))]
impl Described for DiscardLocals {
    ghost described = { one_of discards };

    fn read(alloc: Global, value: &Value) -> Result<DiscardLocals, InputError> {
        one_of(
            alloc,
            value,
            &[
                DiscardLocals::Default,
                DiscardLocals::All,
                DiscardLocals::None,
            ],
        )
    }
}

impl Described for Names {
    ghost described = { names_of };

    fn read(alloc: Global, value: &Value) -> Result<Names, InputError> {
        let names = List::read(alloc, value)?;
        Ok(Names::new(alloc, names)?)
    }
}

#[tactic(auto, unfolding(crate::specs::ReadingOptions::options_of))]
impl Described for Options {
    ghost described = { options_of };

    fn read(alloc: Global, value: &Value) -> Result<Options, InputError> {
        object(alloc, value)?;
        let executable = OutputKind::StaticExecutable;
        let output = defaulted(alloc, value, OptionKey::Output, executable)?;
        let gc = defaulted(alloc, value, OptionKey::Gc, true)?;
        let error_objects = defaulted(alloc, value, OptionKey::ErrorObjects, true)?;
        let error_dynamics = defaulted(alloc, value, OptionKey::ErrorDynamics, true)?;
        let export_all = defaulted(alloc, value, OptionKey::ExportAll, false)?;
        let export_list = optional(alloc, value, OptionKey::ExportList)?;
        let restrictive = defaulted(alloc, value, OptionKey::Restrictive, false)?;
        let strip_all = defaulted(alloc, value, OptionKey::StripAll, false)?;
        let discard = defaulted(alloc, value, OptionKey::Discard, DiscardLocals::Default)?;
        let strip_names = defaulted(alloc, value, OptionKey::StripNames, Names::empty(alloc))?;
        let identity = optional(alloc, value, OptionKey::Identity)?;
        let stack = defaulted(alloc, value, OptionKey::Stack, 0)?;
        let entry = optional(alloc, value, OptionKey::Entry)?;
        let relax = defaulted(alloc, value, OptionKey::Relax, false)?;
        let branch_range = defaulted(alloc, value, OptionKey::BranchRange, 0)?;
        let bucket_limit = defaulted(alloc, value, OptionKey::BucketLimit, BUCKET_LIMIT)?;
        let merge_group = defaulted(alloc, value, OptionKey::MergeGroup, MERGE_GROUP)?;
        Ok(Options {
            output,
            gc,
            error_objects,
            error_dynamics,
            export_all,
            export_list,
            restrictive,
            strip_all,
            discard,
            strip_names,
            identity,
            stack,
            entry,
            relax,
            branch_range,
            bucket_limit,
            merge_group,
        })
    }
}
