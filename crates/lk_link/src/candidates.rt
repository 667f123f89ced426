//! The candidates of a file, kept a second time by output section, so that those of one are found at once.

ghost use Rattle.std.specs.Prelude.{◌≡◌, ◌==◌, [], IfOk, length, map};
ghost use Rattle.lk_link.specs.CandidateIndex.{candidates_of, with_output};

use crate::by_number::ByNumber;
use crate::file::Candidate;
use crate::ids::OutputSectionId;
use crate::list::List;
use std::alloc::{AllocError, Global};
use std::marker::Model;

/// The candidates of a file, with an index by output section. Contracts see the candidates alone.
#[derive(Drop)]
pub struct Candidates {
    candidates: List<Candidate>,
    /// The same ones, by their output section.
    by_output: ByNumber<Candidate>,
}

impl Model for Candidates {
    ghost use Rattle.std.specs.Prelude.{List};
    ghost use Rattle.lk_link.specs.declared.file.Candidate.{Candidate};

    ghost Value = { List Candidate };

    ghost use Rattle.lk_link.specs.CandidateIndex.{IsCandidateIndex};

    ghost view = { λ a. a.candidates };

    ghost invariant = { λ a. IsCandidateIndex a.candidates a.by_output };
}

impl Candidates {
    /// No candidates; takes no memory.
    pub fn empty(alloc: Global) -> Candidates
        ensures { result ≡ [] }
    {
        Candidates {
            candidates: List::new(alloc),
            by_output: ByNumber::empty(alloc),
        }
    }

    /// Makes the index of the candidates.
    pub fn new(alloc: Global, candidates: List<Candidate>) -> Result<Candidates, AllocError>
        ensures { IfOk result (λ all. all ≡ candidates) }
    {
        let by_output = ByNumber::new(alloc, with_outputs(alloc, candidates.as_slice())?)?;
        Ok(Candidates {
            candidates,
            by_output,
        })
    }

    /// All candidates, lent.
    pub fn as_slice(&self) -> &[Candidate]
        ensures { result.now ≡ self.now }
    {
        self.candidates.as_slice()
    }

    /// How many candidates there are.
    pub fn len(&self) -> usize
        ensures { result ≡ length self.now }
    {
        self.candidates.len()
    }

    /// Whether there are none.
    pub fn is_empty(&self) -> bool
        ensures { result ≡ (length self.now == 0) }
    {
        self.candidates.is_empty()
    }

    /// The candidates of an output section, in their order. Takes logarithmic time.
    pub fn of(&self, output: OutputSectionId) -> &[Candidate]
        ensures { result.now ≡ candidates_of output self.now }
    {
        self.by_output.of(output.as_u32())
    }
}

/// The candidates, each with its output section.
fn with_outputs(
    alloc: Global,
    candidates: &[Candidate],
) -> Result<Vec<(u32, Candidate)>, AllocError>
    ensures { IfOk result (λ all. all.items ≡ map with_output candidates.now) }
{
    candidates
        .iter()
        .map(|candidate| (candidate.output.as_u32(), *candidate))
        .collect(alloc)
}
