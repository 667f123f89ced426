//! The rule on events: each section is placed once; each segment is opened once, and closed once after that; what an event
//! names is there; and only where a script is does the location counter move.
//!
//! The events are walked once, in their order, with three lists of marks: on the sections that were placed, on the
//! segments that were opened, and on those that were closed. The marks tell all that the rule asks of the events before
//! one. So each event takes constant time: what it names has to have a place in its list and no mark there, and a segment
//! that closes has to have the mark of one that opened; then the event sets its mark. Behind the last event each mark has
//! to be set. The first event that doesn't pass is the first behind which the events can't be in order any more; where all
//! pass and a mark is left, something is missing, and its place is the number of events.
//!
//! The limits bound how many sections and segments there are, so the marks stand in arrays of fixed lengths: the check
//! wants no memory, and can't be refused it.

ghost use Rattle.std.specs.Prelude.{◌≡◌, ℕ, ◌+◌, ◌≤◌, false, true, List, [], ◌∷◌, ◌++◌, count_by, length, replicate};
ghost use Rattle.lk_link.specs.declared.plan.OrderEvent.{OrderEvent};
ghost use Rattle.lk_link.specs.declared.plan.Plan.{Plan};
ghost use Rattle.std.specs.List.{list_all, list_any};
ghost use Rattle.lk_link.specs.declared.fault.Rule.TheVariants as rule;
ghost use Rattle.lk_link.specs.FileKinds.{is_script};
ghost use Rattle.lk_link.specs.Rules.{has_script, is_location};
ghost use Rattle.lk_link.specs.SymbolRules.{location_count};
ghost use Rattle.lk_check.specs.FirstBadEvent.{is_good_event, first_bad_event, is_complete};
ghost use Rattle.lk_check.specs.FirstFault.{first_place};
ghost use Rattle.lk_check.specs.Marks.{AreMarks, Marks};

use lk_link::fault::Place;
use lk_link::file::InputFile;
use lk_link::limits::{OUTPUT_SECTIONS, SEGMENTS};
use lk_link::link::LinkInput;
use lk_link::list::List;
use lk_link::marks::is_marked;
use lk_link::plan::{OrderEvent, Plan};

/// The most output sections.
const MOST_SECTIONS: usize = OUTPUT_SECTIONS as usize;

/// The most segments.
const MOST_SEGMENTS: usize = SEGMENTS as usize;

/// The most sections and segments together.
const MOST_MARKED: usize = MOST_SECTIONS + MOST_SEGMENTS;

/// The first event behind which it can't be any more that each section is placed once, and each segment opened once, and closed once after
/// that, that what an event names is there, and that the location counter moves only where a script is; the number of events for what is
/// missing. Takes time for each event, section and segment, and no memory.
#[tactic(auto, unfolding(crate::specs::FirstFault::first_place))]
pub fn first_place(link: &LinkInput) -> Option<Place>
    requires sections { length link.now.plan.sections ≤ OUTPUT_SECTIONS }
    requires segments { length link.now.plan.segments ≤ SEGMENTS }
    ensures { result ≡ first_place link.now rule.Events }
{
    let script = has_script(link.groups.as_slice());
    let event = first_bad_event::<MOST_SECTIONS, MOST_SEGMENTS>(&link.plan, script)?;
    Some(Place::Event(event))
}

/// Whether a file is a script.
fn has_script(groups: &[List<InputFile>]) -> bool
    ensures { result ≡ has_script groups.now }
{
    groups.iter().any(|files| has_script_in(files.as_slice()))
}

/// Whether one of these files is.
fn has_script_in(files: &[InputFile]) -> bool
    ensures { result ≡ list_any (λ f. is_script f.kind) files.now }
{
    files.iter().any(|file| file.kind.is_script())
}

/// How many events move the location counter. Takes time for each event.
pub fn location_count(plan: &Plan) -> usize
    ensures { result ≡ location_count plan.now }
{
    count_locations(plan.events.as_slice())
}

/// How many of these events do.
fn count_locations(events: &[OrderEvent]) -> usize
    ensures { result ≡ count_by is_location events.now }
{
    let mut count = 0;
    for event in events {
        if event.is_location() {
            count += 1;
        }
    }
    count
}

/// The first event that breaks the rule, in a plan of at most so many sections and segments.
#[tactic(auto, using(crate::proofs::MarkLemmas::room))]
fn first_bad_event<const SECTIONS: usize, const SEGMENTS: usize>(
    plan: &Plan,
    script: bool,
) -> Option<usize>
    requires sections { length plan.now.sections ≤ SECTIONS }
    requires segments { length plan.now.segments ≤ SEGMENTS }
    requires marks { SECTIONS + SEGMENTS ≤ MOST_MARKED }
    ensures { result ≡ first_bad_event script plan.now }
{
    let mut placed = [false; SECTIONS];
    let mut opened = [false; SEGMENTS];
    let mut closed = [false; SEGMENTS];
    let sections = plan.sections.len();
    let segments = plan.segments.len();
    bad_event(
        plan,
        script,
        &mut placed[..sections],
        &mut opened[..segments],
        &mut closed[..segments],
    )
}

/// The same, with room for a mark on each section, and on each segment that opened or closed.
fn bad_event(
    plan: &Plan,
    script: bool,
    placed: &mut [bool],
    opened: &mut [bool],
    closed: &mut [bool],
) -> Option<usize>
    requires placed { placed.old ≡ replicate (length plan.now.sections) false }
    requires opened { opened.old ≡ replicate (length plan.now.segments) false }
    requires closed { closed.old ≡ replicate (length plan.now.segments) false }
    ensures { result ≡ first_bad_event script plan.now }
{
    for (place, event) in plan.events.as_slice().iter().enumerate() {
        if !admits(event, script, placed, opened, closed) {
            return Some(place);
        }
    }
    if is_complete(placed, opened, closed) {
        None
    } else {
        Some(plan.events.len())
    }
}

/// Whether an event may stand behind those before it, which gave the marks; marks what it names.
#[tactic(auto, using(crate::proofs::MarkLemmas::admission))]
fn admits(
    event: &OrderEvent,
    script: bool,
    placed: &mut [bool],
    opened: &mut [bool],
    closed: &mut [bool],
) -> bool
    ensures exact { (plan : Plan) (before : List OrderEvent) → AreMarks plan before placed.old opened.old closed.old
        → result ≡ is_good_event script plan before event.now }
    ensures marks { (plan : Plan) (before : List OrderEvent) → AreMarks plan before placed.old opened.old closed.old
        → result ≡ true → AreMarks plan (before ++ event.now ∷ []) placed.new opened.new closed.new }
{
    match event {
        OrderEvent::Section(section) => mark(placed, section.as_usize()),
        OrderEvent::SegmentStart(segment) => mark(opened, segment.as_usize()),
        OrderEvent::SegmentEnd(segment) => {
            is_marked(opened, segment.as_usize()) && mark(closed, segment.as_usize())
        }
        OrderEvent::SetLocation(_) => script,
        OrderEvent::SetLocationRelative(_, section) => {
            script && section.as_usize() < placed.len()
        }
        OrderEvent::SetSectionAddress(_) => true,
    }
}

/// Whether each section was placed, and each segment opened and closed, by the marks of all events.
#[tactic(auto, using(crate::proofs::MarkLemmas::completion))]
fn is_complete(placed: &[bool], opened: &[bool], closed: &[bool]) -> bool
    ensures { (plan : Plan) → AreMarks plan plan.events placed.now opened.now closed.now → result ≡ is_complete plan }
{
    all_marked(placed) && all_marked(opened) && all_marked(closed)
}

/// Whether a number that has a place among the marks had none; marks it.
fn mark(marks: &mut [bool], number: usize) -> bool
    ensures { Marks number marks.old marks.new result }
{
    if number < marks.len() && !marks[number] {
        marks[number] = true;
        true
    } else {
        false
    }
}

/// Whether all have marks.
fn all_marked(marks: &[bool]) -> bool
    ensures { result ≡ list_all (λ m. m) marks.now }
{
    marks.iter().all(|mark| *mark)
}
