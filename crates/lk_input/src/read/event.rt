//! The events of the placement from JSON.

ghost use Rattle.std.specs.Prelude.{◌≡◌};
ghost use Rattle.serde_json.specs.View.{view};
ghost use Rattle.lk_input.specs.ReadingEvents.{events, event_in, order_event_of};
ghost use Rattle.lk_input.specs.ReadingSteps.{Reads, one_of};
ghost use Rattle.lk_input.specs.Words.{event_text};

use crate::read::described::{Described, one_of};
use crate::read::error::InputError;
use crate::read::member::{double, element, fixed_list, single};
use crate::read::word::Word;
use lk_link::plan::OrderEvent;
use serde_json::Value;
use std::alloc::Global;

/// What an event begins with.
#[derive(Clone, Copy)]
pub(crate) enum EventForm {
    SegmentStart,
    SegmentEnd,
    Section,
    Location,
    RelativeLocation,
    SectionAddress,
}

#[tactic(auto, unfolding(crate::specs::Words::event_text, crate::specs::ReadingSteps::written))]
impl Word for EventForm {
    ghost spelling = { event_text };

    fn text(self) -> &'static str {
        match self {
            EventForm::SegmentStart => "seg",
            EventForm::SegmentEnd => "endseg",
            EventForm::Section => "sec",
            EventForm::Location => "loc",
            EventForm::RelativeLocation => "locrel",
            EventForm::SectionAddress => "addr",
        }
    }
}

#[tactic(auto, unfolding(crate::specs::Words::event_text))]
impl Described for EventForm {
    ghost described = { one_of events };

    fn read(alloc: Global, value: &Value) -> Result<EventForm, InputError> {
        one_of(
            alloc,
            value,
            &[
                EventForm::SegmentStart,
                EventForm::SegmentEnd,
                EventForm::Section,
                EventForm::Location,
                EventForm::RelativeLocation,
                EventForm::SectionAddress,
            ],
        )
    }
}

/// The event that begins so.
#[tactic(auto, unfolding(crate::specs::ReadingEvents::event_in))]
fn event_in(alloc: Global, value: &Value, form: EventForm) -> Result<OrderEvent, InputError>
    ensures { Reads result (event_in form (view value.now)) }
{
    Ok(match form {
        EventForm::SegmentStart => OrderEvent::SegmentStart(single(alloc, value)?),
        EventForm::SegmentEnd => OrderEvent::SegmentEnd(single(alloc, value)?),
        EventForm::Section => OrderEvent::Section(single(alloc, value)?),
        EventForm::Location => OrderEvent::SetLocation(single(alloc, value)?),
        EventForm::RelativeLocation => {
            let (location, section) = double(alloc, value)?;
            OrderEvent::SetLocationRelative(location, section)
        }
        EventForm::SectionAddress => OrderEvent::SetSectionAddress(single(alloc, value)?),
    })
}

#[tactic(auto, unfolding(crate::specs::ReadingEvents::order_event_of))]
impl Described for OrderEvent {
    ghost described = { order_event_of };

    fn read(alloc: Global, value: &Value) -> Result<OrderEvent, InputError> {
        fixed_list(alloc, value)?;
        let form = element(alloc, value, 0)?;
        event_in(alloc, value, form)
    }
}
