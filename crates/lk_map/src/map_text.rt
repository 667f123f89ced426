//! The text of a map, read line by line.

ghost use Rattle.std.specs.Prelude.{◌≡◌, ℕ, ◌+◌, ◌++◌, IfOk};
ghost use Rattle.lk_map.specs.Alike.{kept_sections, kept_segments};
ghost use Rattle.lk_map.specs.Forms.{follows};
ghost use Rattle.lk_map.specs.MapText.{section_at, section_told, segment_at, segment_told, LinesRise};
ghost use Rattle.lk_map.specs.Reading.{is_end};
ghost use Rattle.lk_map.specs.Values.{shown};
ghost use Rattle.lk_map.specs.Written.{Gives};

use crate::cut::cut_line;
use crate::forms::{END_RANK, ENTRY_RANK, Form, LAYOUT_RANK, SECTION_RANK, SEGMENT_RANK, rank_of};
use crate::lines::{Values, read_line};
use crate::straight::{Kept, line_alike};
use std::alloc::{AllocError, Global};

/// The line of an output section.
#[derive(Clone, Copy, Debug, PartialEq, Eq)]
pub struct SectionLine {
    /// The number of the line, from 1.
    pub line: usize,
    /// Where the section starts in memory.
    pub mem_offset: u64,
    /// Its bytes there.
    pub mem_size: u64,
    /// Where it starts in the file.
    pub file_offset: u64,
    /// Its bytes there.
    pub file_size: u64,
    /// Its attributes, a sum of 1 for allocated, 8 for thread-local, 16 for zero-filled, and others.
    pub attrs: u64,
}

/// The line of a segment.
#[derive(Clone, Copy, Debug, PartialEq, Eq)]
pub struct SegmentLine {
    /// The number of the line, from 1.
    pub line: usize,
    /// Where the segment starts in memory.
    pub mem_offset: u64,
    /// Its bytes there.
    pub mem_size: u64,
    /// Where it starts in the file.
    pub file_offset: u64,
    /// Its bytes there.
    pub file_size: u64,
}

/// A map: its lines of sections and of segments, as they stand.
#[derive(Drop)]
pub struct MapText {
    pub sections: Vec<SectionLine>,
    pub segments: Vec<SegmentLine>,
}

/// Why a text can't be read as a map.
#[derive(Clone, Copy, Debug, PartialEq, Eq, Drop)]
pub enum MapError {
    /// No map goes on at this line, counted from 1. Where a text stops early, that is the line that isn't ended, or isn't there.
    NotMap { line: usize },
    /// Memory ran out.
    NoMemory,
}

impl From<AllocError> for MapError {
    ghost use Rattle.lk_map.specs.declared.map_text.MapError.TheVariants.{NoMemory};

    ghost from_gives = { λ _ e. e ≡ NoMemory };

    fn from(_: AllocError) -> MapError {
        MapError::NoMemory
    }
}

/// The section of a line with these values.
fn section_line(line: usize, values: &Values) -> SectionLine
    ensures { result ≡ section_at line (shown values.now) }
{
    SectionLine {
        line,
        mem_offset: values.number(2),
        mem_size: values.number(3),
        file_offset: values.number(4),
        file_size: values.number(5),
        attrs: values.number(8),
    }
}

/// The segment of a line with these values.
fn segment_line(line: usize, values: &Values) -> SegmentLine
    ensures { result ≡ segment_at line (shown values.now) }
{
    SegmentLine {
        line,
        mem_offset: values.number(1),
        mem_size: values.number(2),
        file_offset: values.number(3),
        file_size: values.number(4),
    }
}

impl MapText {
    /// Keeps what a line tells, if it is of a section or a segment.
    #[tactic(auto, unfolding(crate::specs::MapText::section_told, crate::specs::MapText::segment_told))]
    fn keep(&mut self, line: usize, form: Form, values: &Values) -> Result<(), AllocError>
        ensures sections { IfOk result (λ _. self.new.sections.items ≡ self.old.sections.items ++ section_told line form (shown values.now)) }
        ensures segments { IfOk result (λ _. self.new.segments.items ≡ self.old.segments.items ++ segment_told line form (shown values.now)) }
    {
        let rank = rank_of(form);
        if rank == SECTION_RANK {
            self.sections.push(section_line(line, values))?;
        }
        if rank == SEGMENT_RANK {
            self.segments.push(segment_line(line, values))?;
        }
        Ok(())
    }

    /// Keeps what is kept of a line.
    #[inline(always)]
    fn keep_alike(&mut self, kept: &Kept) -> Result<(), AllocError>
        ensures sections { IfOk result (λ _. self.new.sections.items ≡ self.old.sections.items ++ kept_sections kept.now) }
        ensures segments { IfOk result (λ _. self.new.segments.items ≡ self.old.segments.items ++ kept_segments kept.now) }
    {
        match *kept {
            Kept::Section(section) => self.sections.push(section)?,
            Kept::Segment(segment) => self.segments.push(segment)?,
            Kept::Nothing => {}
        }
        Ok(())
    }
}

/// Whether a line of this form can stand behind one of the other form, or be the first.
#[tactic(auto, unfolding(crate::specs::Forms::follows))]
fn goes_on(before: Option<Form>, form: Form) -> bool
    ensures { result ≡ follows before form }
{
    let rank = rank_of(form);
    match before {
        None => rank == LAYOUT_RANK,
        Some(before) => {
            let last = rank_of(before);
            if last == ENTRY_RANK {
                rank == END_RANK
            } else {
                last <= rank && LAYOUT_RANK < rank && rank < END_RANK
            }
        }
    }
}

/// Whether the last line was the end.
#[tactic(auto, unfolding(crate::specs::Reading::is_end))]
fn is_last(before: Option<Form>) -> bool
    ensures { result ≡ is_end before }
{
    match before {
        None => false,
        Some(before) => rank_of(before) == END_RANK,
    }
}

/// Reads a map: the lines of a report, in the order of their kinds, each ended by a line feed.
pub fn read_map(alloc: Global, text: &[u8]) -> Result<MapText, MapError>
    ensures read { Gives result text.now }
    ensures rises { IfOk result (λ map. LinesRise map.sections.items) }
{
    let mut map = MapText {
        sections: Vec::new(alloc),
        segments: Vec::new(alloc),
    };
    let mut values = Values::none();
    let mut before = None;
    let mut line = 1;
    let mut rest = text;
    'lines: loop {
        // Most lines have the form of the line before them.
        if let Some((kept, after)) = line_alike(line, before, rest) {
            map.keep_alike(&kept)?;
            line += 1;
            rest = after;
            continue 'lines;
        }
        let (here, behind) = cut_line(rest);
        let Some(behind) = behind else {
            if here.is_empty() && is_last(before) {
                return Ok(map);
            }
            return Err(MapError::NotMap { line });
        };
        let Some(form) = read_line(&mut values, here) else {
            return Err(MapError::NotMap { line });
        };
        if !goes_on(before, form) {
            return Err(MapError::NotMap { line });
        }
        map.keep(line, form, &values)?;
        before = Some(form);
        line += 1;
        rest = behind;
    }
}
