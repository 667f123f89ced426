//! Output sections from JSON.

ghost use Rattle.lk_input.specs.ReadingOutputSections.{emits, plan_part_of, plan_section_of};
ghost use Rattle.lk_input.specs.ReadingSteps.{one_of};
ghost use Rattle.lk_input.specs.Keys.{output_section_key_text};
ghost use Rattle.lk_input.specs.Words.{emit_text};

use crate::read::described::{Described, one_of};
use crate::read::error::InputError;
use crate::read::member::{at_most, defaulted, element, fixed_list, object, optional};
use crate::read::word::Word;
use lk_link::list::List;
use lk_link::plan::{Emit, PlanPart, PlanSection};
use lk_link::text::Text;
use serde_json::Value;
use std::alloc::Global;

/// A key of an output section.
#[derive(Clone, Copy)]
pub(crate) enum OutputSectionKey {
    Name,
    Attrs,
    Align,
    Parts,
    Primary,
    Emit,
    Region,
    At,
    Top,
    Counters,
}

#[tactic(auto, unfolding(crate::specs::ReadingSteps::written))]
impl Word for OutputSectionKey {
    ghost spelling = { output_section_key_text };

    fn text(self) -> &'static str {
        match self {
            OutputSectionKey::Name => "name",
            OutputSectionKey::Attrs => "attrs",
            OutputSectionKey::Align => "align",
            OutputSectionKey::Parts => "parts",
            OutputSectionKey::Primary => "primary",
            OutputSectionKey::Emit => "emit",
            OutputSectionKey::Region => "region",
            OutputSectionKey::At => "at",
            OutputSectionKey::Top => "top",
            OutputSectionKey::Counters => "counters",
        }
    }
}

#[tactic(auto, unfolding(crate::specs::Words::emit_text, crate::specs::ReadingSteps::written))]
impl Word for Emit {
    ghost spelling = { emit_text };

    fn text(self) -> &'static str {
        match self {
            Emit::Auto => "auto",
            Emit::Always => "always",
            Emit::Never => "never",
        }
    }
}

#[tactic(auto, unfolding(crate::specs::Words::emit_text))]
impl Described for Emit {
    ghost described = { one_of emits };

    fn read(alloc: Global, value: &Value) -> Result<Emit, InputError> {
        one_of(alloc, value, &[Emit::Auto, Emit::Always, Emit::Never])
    }
}

#[tactic(auto, unfolding(crate::specs::ReadingOutputSections::plan_part_of))]
impl Described for PlanPart {
    ghost described = { plan_part_of };

    fn read(alloc: Global, value: &Value) -> Result<PlanPart, InputError> {
        fixed_list(alloc, value)?;
        let alignment = element(alloc, value, 0)?;
        let packed = element(alloc, value, 1)?;
        at_most(alloc, value, 2)?;
        Ok(PlanPart { alignment, packed })
    }
}

#[tactic(auto, unfolding(crate::specs::ReadingOutputSections::plan_section_of))]
impl Described for PlanSection {
    ghost described = { plan_section_of };

    fn read(alloc: Global, value: &Value) -> Result<PlanSection, InputError> {
        object(alloc, value)?;
        let name = defaulted(alloc, value, OutputSectionKey::Name, Text::new(alloc))?;
        let attrs = defaulted(alloc, value, OutputSectionKey::Attrs, 0)?;
        let align = defaulted(alloc, value, OutputSectionKey::Align, 1)?;
        let parts = defaulted(alloc, value, OutputSectionKey::Parts, List::new(alloc))?;
        let primary = optional(alloc, value, OutputSectionKey::Primary)?;
        let emit = defaulted(alloc, value, OutputSectionKey::Emit, Emit::Auto)?;
        let region = optional(alloc, value, OutputSectionKey::Region)?;
        let at = optional(alloc, value, OutputSectionKey::At)?;
        let top = defaulted(alloc, value, OutputSectionKey::Top, false)?;
        let counters = defaulted(alloc, value, OutputSectionKey::Counters, false)?;
        Ok(PlanSection {
            name,
            attrs,
            align,
            parts,
            primary,
            emit,
            region,
            at,
            top,
            counters,
        })
    }
}
