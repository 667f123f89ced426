//! Which plans are plain: those whose memory goes along the file inside each load segment.
//!
//! One pass over the events keeps which load segment is open, and whether something stands in it that leaves a gap in the file.
//! A plain plan opens no load segment while another is open, so that one segment is all there is to know.

ghost use Rattle.std.specs.Prelude.{◌≡◌, ◌==◌, ◌↔◌, false, All, IsTrue};
ghost use Rattle.std.specs.Option.{option_map_or};
ghost use Rattle.lk_link.specs.WellFormed.{IsEventOrder, IsInRange};
ghost use Rattle.lk_place.specs.Plain.{IsPlain};
ghost use Rattle.lk_place.specs.PlainScan.{accepts, is_found_plain, leaves_gap, passes, scanned, unscanned};

use lk_link::ids::{OutputSectionId, SegmentId};
use lk_link::options::OutputKind;
use lk_link::plan::{OrderEvent, Plan};

/// What is known of the events so far.
#[derive(Clone, Copy)]
struct Scan {
    /// The load segment that is open, if one is.
    inside: Option<SegmentId>,
    /// Whether a section that leaves a gap in the file was placed since it opened.
    gap: bool,
}

/// Whether a section leaves a gap in the file, behind which nothing may take bytes of it.
fn leaves_gap(plan: &Plan, section: OutputSectionId) -> bool
    ensures { result ≡ leaves_gap plan.now section }
{
    !(plan.is_file_backed(section) || plan.is_zero_fill_thread_local(section))
}

/// Whether the end of this segment closes the load segment that is open.
fn closes_load(scan: &Scan, segment: SegmentId) -> bool
    ensures { result ≡ option_map_or (λ i. i == segment) scan.now.inside false }
{
    match scan.inside {
        Some(inside) => inside.as_u32() == segment.as_u32(),
        None => false,
    }
}

/// Whether an event is as a plain plan has it.
fn accepts(plan: &Plan, scan: &Scan, event: &OrderEvent) -> bool
    requires { IsInRange plan.now event.now }
    ensures { result ≡ accepts plan.now scan.now event.now }
{
    match *event {
        OrderEvent::SegmentStart(segment) => {
            !plan.segments.as_slice()[segment.as_usize()].kind.is_load() || scan.inside.is_none()
        }
        OrderEvent::SegmentEnd(_) => true,
        OrderEvent::Section(section) => {
            scan.inside.is_none()
                || (plan.is_allocated(section)
                    && !(plan.is_file_backed(section)
                        && (scan.gap || plan.is_zero_fill_thread_local(section))))
        }
        _ => false,
    }
}

/// What is known behind an event.
fn scanned(plan: &Plan, scan: &Scan, event: &OrderEvent) -> Scan
    requires { IsInRange plan.now event.now }
    ensures { result ≡ scanned plan.now scan.now event.now }
{
    match *event {
        OrderEvent::SegmentStart(segment) => {
            if plan.segments.as_slice()[segment.as_usize()].kind.is_load() {
                Scan {
                    inside: Some(segment),
                    gap: false,
                }
            } else {
                *scan
            }
        }
        OrderEvent::SegmentEnd(segment) => {
            if closes_load(scan, segment) {
                Scan {
                    inside: None,
                    gap: scan.gap,
                }
            } else {
                *scan
            }
        }
        OrderEvent::Section(section) => Scan {
            inside: scan.inside,
            gap: scan.gap || leaves_gap(plan, section),
        },
        _ => *scan,
    }
}

/// Whether all events are as a plain plan has them.
#[tactic(auto, unfolding(crate::specs::PlainScan::passes))]
fn passes(plan: &Plan) -> bool
    requires { All (IsInRange plan.now) plan.now.events }
    ensures { result ≡ passes plan.now unscanned plan.now.events }
{
    let mut scan = Scan {
        inside: None,
        gap: false,
    };
    for event in plan.events.as_slice() {
        if !accepts(plan, &scan, event) {
            return false;
        }
        scan = scanned(plan, &scan, event);
    }
    true
}

/// Whether a plan is found to be plain.
fn is_found_plain(plan: &Plan, output: OutputKind) -> bool
    requires { All (IsInRange plan.now) plan.now.events }
    ensures { result ≡ is_found_plain plan.now output }
{
    !output.is_partial() && plan.regions.is_empty() && passes(plan)
}

/// Whether a plan is plain for this kind of output. Takes one pass over its events, and no memory.
pub fn is_plain(plan: &Plan, output: OutputKind) -> bool
    requires { IsEventOrder plan.now }
    ensures { IsTrue result ↔ IsPlain plan.now output }
{
    is_found_plain(plan, output)
}
