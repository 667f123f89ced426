//! A pass over the candidates of one section.

ghost use Rattle.std.specs.Prelude.{⊤, ◌≡◌, ◌==◌, ◌++◌, [], ◌∷◌, All, IfOk, OnOk, cond, false, min};
ghost use Rattle.std.specs.List.{position, slice_get};
ghost use Rattle.std.specs.Option.{option_copied, option_map_or};
ghost use Rattle.lk_deltas.specs.Candidates.{AreCandidates, AreOf, goes, is_past, is_short, lesser, margin, picked, range_of, ranges_in, short_by};
ghost use Rattle.lk_deltas.specs.DeltaWords.{AreDeltas, ranges_of};

use crate::deltas::{Delta, SectionRelaxDeltas};
use lk_link::relocation::RelaxCandidate;
use std::alloc::{AllocError, Global};

/// What comes of a candidate whose bytes are there.
#[derive(Clone, Copy, Debug, PartialEq, Eq)]
pub enum Outcome {
    /// Its symbol can't tell.
    Untouched,
    /// Its symbol is near, so its bytes go.
    Goes,
    /// Its symbol is too far, by so many bytes.
    Short(u64),
}

impl Outcome {
    /// Whether the symbol is too far.
    pub fn is_short(self) -> bool
        ensures { result ≡ is_short self }
    {
        matches!(self, Outcome::Short(_))
    }
}

/// What tells the outcome of a candidate.
pub trait Judge {
    ghost use Rattle.lk_link.specs.declared.relocation.RelaxCandidate.{RelaxCandidate};
    ghost use Rattle.lk_deltas.specs.declared.candidates.Outcome.{Outcome};

    /// What comes of each candidate whose bytes are there.
    ghost told: { Self → RelaxCandidate → Outcome };

    /// What has to be known of a candidate, so that it can be told.
    ghost asks: { Self → RelaxCandidate → Type 0 } = { λ _ _. ⊤ };

    /// What comes of a candidate whose bytes are there.
    fn tell(&self, candidate: &RelaxCandidate) -> Outcome
        requires { asks self.now candidate.now }
        ensures { result ≡ told self.now candidate.now };
}

/// What a pass finds in one section.
#[derive(Drop)]
pub struct Scan {
    /// What is to be deleted besides what is deleted, rising and apart.
    pub ranges: Vec<(u64, u64)>,
    /// By how many bytes a candidate is too far, at least, if one is.
    pub margin: Option<u64>,
}

impl Scan {
    /// A candidate more, of which this comes.
    fn add(&mut self, candidate: &RelaxCandidate, outcome: Outcome) -> Result<(), AllocError>
        ensures ranges { OnOk result (self.new.ranges.items ≡ self.old.ranges.items ++ cond (goes outcome) (range_of candidate.now ∷ []) []) }
        ensures margin { OnOk result (self.new.margin ≡ lesser self.old.margin (short_by outcome)) }
    {
        match outcome {
            Outcome::Untouched => {}
            Outcome::Goes => self.ranges.push((candidate.at, candidate.del))?,
            Outcome::Short(bytes) => self.margin = Some(lesser_of(self.margin, bytes)),
        }
        Ok(())
    }
}

/// Looks at each candidate of a section whose bytes are there: what goes besides the deleted ranges, and the margin. Takes time by
/// the number of candidates.
pub fn scan_candidates<J: Judge>(
    alloc: Global,
    candidates: &[RelaxCandidate],
    deleted: Option<&SectionRelaxDeltas>,
    judge: &J,
) -> Result<Scan, AllocError>
    requires rising { AreCandidates candidates.now }
    requires each { All (J.asks judge.now) candidates.now }
    requires some { AreOf (ranges_in (option_copied deleted)) candidates.now }
    ensures ranges { IfOk result (λ scan. scan.ranges.items ≡ picked (J.told judge.now) (ranges_in (option_copied deleted.entry)) candidates.now) }
    ensures margin { IfOk result (λ scan. scan.margin ≡ margin (J.told judge.now) (ranges_in (option_copied deleted.entry)) candidates.now) }
{
    match deleted {
        Some(deleted) => scan_beside(alloc, candidates, deleted.deltas(), judge),
        None => scan_beside(alloc, candidates, &[], judge),
    }
}

/// Walks the candidates and the deleted ranges side by side.
fn scan_beside<J: Judge>(
    alloc: Global,
    candidates: &[RelaxCandidate],
    old: &[Delta],
    judge: &J,
) -> Result<Scan, AllocError>
    requires rising { AreCandidates candidates.now }
    requires each { All (J.asks judge.now) candidates.now }
    requires some { AreOf (ranges_of old.now) candidates.now }
    ensures ranges { IfOk result (λ scan. scan.ranges.items ≡ picked (J.told judge.now) (ranges_of old.now) candidates.now) }
    ensures margin { IfOk result (λ scan. scan.margin ≡ margin (J.told judge.now) (ranges_of old.now) candidates.now) }
{
    let mut scan = Scan {
        ranges: Vec::new(alloc),
        margin: None,
    };
    let mut passed = 0;
    for candidate in candidates {
        if is_at(old, passed, candidate) {
            passed += 1;
        } else {
            scan.add(candidate, judge.tell(candidate))?;
        }
    }
    Ok(scan)
}

/// The index of the first candidate of a section that is past its limit: its bytes are gone, and it is too far. Takes time by the number
/// of candidates.
pub fn first_past<J: Judge>(
    candidates: &[RelaxCandidate],
    deleted: &SectionRelaxDeltas,
    judge: &J,
) -> Option<usize>
    requires rising { AreCandidates candidates.now }
    requires each { All (J.asks judge.now) candidates.now }
    requires some { AreOf deleted.now candidates.now }
    ensures { result ≡ position (is_past (J.told judge.now) deleted.now) candidates.now }
{
    first_beside(candidates, deleted.deltas(), judge)
}

/// Walks the candidates and the deleted ranges side by side, up to the first candidate that is past its limit.
fn first_beside<J: Judge>(candidates: &[RelaxCandidate], old: &[Delta], judge: &J) -> Option<usize>
    requires rising { AreCandidates candidates.now }
    requires each { All (J.asks judge.now) candidates.now }
    requires some { AreOf (ranges_of old.now) candidates.now }
    ensures { result ≡ position (is_past (J.told judge.now) (ranges_of old.now)) candidates.now }
{
    let mut passed = 0;
    for (index, candidate) in candidates.iter().enumerate() {
        if is_at(old, passed, candidate) {
            if judge.tell(candidate).is_short() {
                return Some(index);
            }
            passed += 1;
        }
    }
    None
}

/// Whether the deleted range at a place is that of a candidate.
fn is_at(old: &[Delta], place: usize, candidate: &RelaxCandidate) -> bool
    ensures { result ≡ option_map_or (λ d. d.range.0 == candidate.now.at) (slice_get old.now place) false }
{
    match old.get(place) {
        Some(delta) => delta.range.0 == candidate.at,
        None => false,
    }
}

/// The lesser of a number, if there is one, and another.
fn lesser_of(margin: Option<u64>, bytes: u64) -> u64
    ensures { result ≡ option_map_or (min bytes) margin bytes }
{
    match margin {
        Some(margin) => bytes.min(margin),
        None => bytes,
    }
}
