//! Which sections stand inside each segment: those that are placed while it is open. One pass over the events for each
//! segment, of which there are few.

ghost use Rattle.std.specs.Prelude.{◌≡◌, ◌≤◌, length, IfOk};
ghost use Rattle.lk_link.specs.Inside.{sections_inside, segment_insides};
ghost use Rattle.lk_link.specs.Rules.{is_start, is_end};

use crate::ids::{OutputSectionId, SegmentId};
use crate::limits::SEGMENTS;
use crate::list::List;
use crate::plan::{OrderEvent, Plan};
use std::alloc::{AllocError, Global};

impl Plan {
    /// The sections inside each segment, by number. Takes time for each event and segment.
    pub fn sections_of_segments(
        &self,
        alloc: Global,
    ) -> Result<Vec<List<OutputSectionId>>, AllocError>
        requires { length self.now.segments ≤ SEGMENTS }
        ensures { IfOk result (λ insides. insides.items ≡ segment_insides self.now) }
    {
        let mut insides = Vec::with_capacity(alloc, self.segments.len())?;
        for (number, _) in self.segments.as_slice().iter().enumerate() {
            let segment = SegmentId::from_u32(number as u32);
            insides.push(sections_of_segment(alloc, self.events.as_slice(), segment)?)?;
        }
        Ok(insides)
    }
}

/// Whether an event opens the segment.
fn opens(event: &OrderEvent, segment: SegmentId) -> bool
    ensures { result ≡ is_start segment event.now }
{
    match *event {
        OrderEvent::SegmentStart(opened) => opened.as_u32() == segment.as_u32(),
        _ => false,
    }
}

/// Whether an event closes the segment.
fn closes(event: &OrderEvent, segment: SegmentId) -> bool
    ensures { result ≡ is_end segment event.now }
{
    match *event {
        OrderEvent::SegmentEnd(closed) => closed.as_u32() == segment.as_u32(),
        _ => false,
    }
}

/// The sections that are placed while the segment is open, in order.
fn sections_of_segment(
    alloc: Global,
    events: &[OrderEvent],
    segment: SegmentId,
) -> Result<List<OutputSectionId>, AllocError>
    ensures { IfOk result (λ inside. inside ≡ sections_inside events.now segment) }
{
    let mut inside = Vec::new(alloc);
    let mut opened = false;
    let mut closed = false;
    for event in events {
        if let OrderEvent::Section(section) = *event {
            if opened && !closed {
                inside.push(section)?;
            }
        }
        opened = opened || opens(event, segment);
        closed = closed || closes(event, segment);
    }
    Ok(List::from_vec(inside))
}
