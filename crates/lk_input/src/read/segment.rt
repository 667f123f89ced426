//! Segments and memory regions from JSON.

ghost use Rattle.lk_input.specs.ReadingSegments.{segment_kinds, plan_segment_of, region_of};
ghost use Rattle.lk_input.specs.ReadingSteps.{one_of};
ghost use Rattle.lk_input.specs.Keys.{segment_key_text, region_key_text};
ghost use Rattle.lk_input.specs.Words.{segment_kind_text};

use crate::read::described::{Described, one_of};
use crate::read::error::InputError;
use crate::read::member::{defaulted, object, required};
use crate::read::word::Word;
use lk_link::plan::{PlanSegment, Region, SegmentKind};
use lk_link::text::Text;
use serde_json::Value;
use std::alloc::Global;

/// A key of a segment.
#[derive(Clone, Copy)]
pub(crate) enum SegmentKey {
    Kind,
    Always,
}

#[tactic(auto, unfolding(crate::specs::ReadingSteps::written))]
impl Word for SegmentKey {
    ghost spelling = { segment_key_text };

    fn text(self) -> &'static str {
        match self {
            SegmentKey::Kind => "kind",
            SegmentKey::Always => "always",
        }
    }
}

#[tactic(auto, unfolding(crate::specs::Words::segment_kind_text, crate::specs::ReadingSteps::written))]
impl Word for SegmentKind {
    ghost spelling = { segment_kind_text };

    fn text(self) -> &'static str {
        match self {
            SegmentKind::Load => "load",
            SegmentKind::Tls => "tls",
            SegmentKind::Stack => "stack",
            SegmentKind::Other => "other",
        }
    }
}

#[tactic(auto, unfolding(crate::specs::Words::segment_kind_text))]
impl Described for SegmentKind {
    ghost described = { one_of segment_kinds };

    fn read(alloc: Global, value: &Value) -> Result<SegmentKind, InputError> {
        one_of(
            alloc,
            value,
            &[
                SegmentKind::Load,
                SegmentKind::Tls,
                SegmentKind::Stack,
                SegmentKind::Other,
            ],
        )
    }
}

#[tactic(auto, unfolding(crate::specs::ReadingSegments::plan_segment_of))]
impl Described for PlanSegment {
    ghost described = { plan_segment_of };

    fn read(alloc: Global, value: &Value) -> Result<PlanSegment, InputError> {
        object(alloc, value)?;
        let kind = required(alloc, value, SegmentKey::Kind)?;
        let always = defaulted(alloc, value, SegmentKey::Always, false)?;
        Ok(PlanSegment { kind, always })
    }
}

/// A key of a memory region.
#[derive(Clone, Copy)]
pub(crate) enum RegionKey {
    Name,
    Origin,
    Length,
}

#[tactic(auto, unfolding(crate::specs::ReadingSteps::written))]
impl Word for RegionKey {
    ghost spelling = { region_key_text };

    fn text(self) -> &'static str {
        match self {
            RegionKey::Name => "name",
            RegionKey::Origin => "origin",
            RegionKey::Length => "length",
        }
    }
}

#[tactic(auto, unfolding(crate::specs::ReadingSegments::region_of))]
impl Described for Region {
    ghost described = { region_of };

    fn read(alloc: Global, value: &Value) -> Result<Region, InputError> {
        object(alloc, value)?;
        let name = defaulted(alloc, value, RegionKey::Name, Text::new(alloc))?;
        let origin = required(alloc, value, RegionKey::Origin)?;
        let length = required(alloc, value, RegionKey::Length)?;
        Ok(Region {
            name,
            origin,
            length,
        })
    }
}
