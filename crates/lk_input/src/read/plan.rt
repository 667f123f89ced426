//! The plan from JSON.

ghost use Rattle.lk_input.specs.ReadingPlan.{named_parts_of, plan_of};
ghost use Rattle.lk_input.specs.Keys.{plan_key_text};

use crate::read::described::Described;
use crate::read::error::InputError;
use crate::read::member::{defaulted, object, optional, required};
use crate::read::word::Word;
use lk_link::expression::Expression;
use lk_link::list::List;
use lk_link::plan::{NamedParts, Plan, PlanSections};
use serde_json::Value;
use std::alloc::Global;

/// A key of the plan.
#[derive(Clone, Copy)]
pub(crate) enum PlanKey {
    Page,
    Base,
    CustomBase,
    CustomPhdrs,
    PhdrsHeaders,
    Sections,
    Segments,
    Regions,
    Events,
    Got,
    Plt,
    SymtabLocal,
    SymtabGlobal,
    Strtab,
    Dynsym,
    Dynstr,
    FileHeader,
    ProgramHeaders,
    SectionHeaders,
    Shstrtab,
    Comment,
    Primary,
    Singletons,
}

#[tactic(auto, unfolding(crate::specs::ReadingSteps::written))]
impl Word for PlanKey {
    ghost spelling = { plan_key_text };

    fn text(self) -> &'static str {
        match self {
            PlanKey::Page => "page",
            PlanKey::Base => "base",
            PlanKey::CustomBase => "custom_base",
            PlanKey::CustomPhdrs => "custom_phdrs",
            PlanKey::PhdrsHeaders => "phdrs_headers",
            PlanKey::Sections => "sections",
            PlanKey::Segments => "segments",
            PlanKey::Regions => "regions",
            PlanKey::Events => "events",
            PlanKey::Got => "got",
            PlanKey::Plt => "plt",
            PlanKey::SymtabLocal => "symtab_local",
            PlanKey::SymtabGlobal => "symtab_global",
            PlanKey::Strtab => "strtab",
            PlanKey::Dynsym => "dynsym",
            PlanKey::Dynstr => "dynstr",
            PlanKey::FileHeader => "file_header",
            PlanKey::ProgramHeaders => "program_headers",
            PlanKey::SectionHeaders => "section_headers",
            PlanKey::Shstrtab => "shstrtab",
            PlanKey::Comment => "comment",
            PlanKey::Primary => "primary",
            PlanKey::Singletons => "singletons",
        }
    }
}

/// The named parts are members of the plan itself.
#[tactic(auto, unfolding(crate::specs::ReadingPlan::named_parts_of))]
impl Described for NamedParts {
    ghost described = { named_parts_of };

    fn read(alloc: Global, value: &Value) -> Result<NamedParts, InputError> {
        let got = optional(alloc, value, PlanKey::Got)?;
        let plt = optional(alloc, value, PlanKey::Plt)?;
        let symtab_local = optional(alloc, value, PlanKey::SymtabLocal)?;
        let symtab_global = optional(alloc, value, PlanKey::SymtabGlobal)?;
        let strtab = optional(alloc, value, PlanKey::Strtab)?;
        let dynsym = optional(alloc, value, PlanKey::Dynsym)?;
        let dynstr = optional(alloc, value, PlanKey::Dynstr)?;
        let file_header = optional(alloc, value, PlanKey::FileHeader)?;
        let program_headers = optional(alloc, value, PlanKey::ProgramHeaders)?;
        let section_headers = optional(alloc, value, PlanKey::SectionHeaders)?;
        let shstrtab = optional(alloc, value, PlanKey::Shstrtab)?;
        let comment = optional(alloc, value, PlanKey::Comment)?;
        let primary = optional(alloc, value, PlanKey::Primary)?;
        Ok(NamedParts {
            got,
            plt,
            symtab_local,
            symtab_global,
            strtab,
            dynsym,
            dynstr,
            file_header,
            program_headers,
            section_headers,
            shstrtab,
            comment,
            primary,
        })
    }
}

#[tactic(auto, unfolding(crate::specs::ReadingPlan::plan_of))]
impl Described for Plan {
    ghost described = { plan_of };

    fn read(alloc: Global, value: &Value) -> Result<Plan, InputError> {
        object(alloc, value)?;
        let page = required(alloc, value, PlanKey::Page)?;
        let zero = Expression::number(alloc, 0)?;
        let base = defaulted(alloc, value, PlanKey::Base, zero)?;
        let custom_base = defaulted(alloc, value, PlanKey::CustomBase, false)?;
        let custom_phdrs = defaulted(alloc, value, PlanKey::CustomPhdrs, false)?;
        let phdrs_headers = defaulted(alloc, value, PlanKey::PhdrsHeaders, false)?;
        let sections = defaulted(alloc, value, PlanKey::Sections, List::new(alloc))?;
        let segments = defaulted(alloc, value, PlanKey::Segments, List::new(alloc))?;
        let regions = defaulted(alloc, value, PlanKey::Regions, List::new(alloc))?;
        let events = defaulted(alloc, value, PlanKey::Events, List::new(alloc))?;
        let named = NamedParts::read(alloc, value)?;
        let singletons = optional(alloc, value, PlanKey::Singletons)?;
        Ok(Plan {
            page,
            base,
            custom_base,
            custom_phdrs,
            phdrs_headers,
            sections: PlanSections::new(alloc, sections)?,
            segments,
            regions,
            events,
            named,
            singletons,
        })
    }
}
