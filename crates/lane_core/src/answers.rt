//! Answers: graded jobs.

ghost use Rattle.std.specs.Prelude.{◌≡◌, MatchResult, IfOk};
ghost use Rattle.grid_core.specs.Nonogram.{IsNonogram};
ghost use Rattle.solve_core.specs.Picks.{picked};
ghost use Rattle.solve_core.specs.Report.{findings_of};
ghost use Rattle.solve_core.specs.Verdicts.{Holds};
ghost use Rattle.lane_core.specs.Outcome.{IsOutcome};

use grid_core::{NoMemory, Puzzle};
use solve_core::{Findings, Pick};

/// A graded job: its number, puzzle, limit on guesses and pick, with the outcome.
/// The outcome is the report of this puzzle under this limit and by this pick, or `NoMemory`.
pub struct Answer {
    number: u32,
    puzzle: Puzzle,
    guesses: u32,
    pick: Pick,
    outcome: Result<Findings, NoMemory>,
    pub ghost reported: { ∥ IsOutcome puzzle guesses pick outcome ∥₁ },
}

/// Written by hand so that callers' proofs see one call, whatever the outcome is: a derived drop
/// is expanded at each exit of each caller.
impl Drop for Answer {
    fn drop(self) {
        let Answer {
            number: _,
            puzzle: _,
            guesses: _,
            pick: _,
            outcome: _,
        } = self;
    }
}

impl Answer {
    /// Returns the answer of these parts. `outcome` has to be the report of `puzzle` under the
    /// limit `guesses` and by `pick`, or `NoMemory`.
    pub(crate) fn new(
        number: u32,
        puzzle: Puzzle,
        guesses: u32,
        pick: Pick,
        outcome: Result<Findings, NoMemory>,
    ) -> Answer
        requires { IsOutcome puzzle guesses pick outcome }
        ensures number { result.number ≡ number }
        ensures puzzle { result.puzzle ≡ puzzle }
        ensures guesses { result.guesses ≡ guesses }
        ensures pick { result.pick ≡ pick }
        ensures outcome { result.outcome ≡ outcome }
    {
        Answer {
            number,
            puzzle,
            guesses,
            pick,
            outcome,
        }
    }

    /// Returns the number of the job.
    pub fn number(&self) -> u32
        ensures { result ≡ self.now.number }
    {
        self.number
    }

    /// Returns the puzzle of the job.
    pub fn puzzle(&self) -> &Puzzle
        ensures { result.now ≡ self.now.puzzle }
    {
        &self.puzzle
    }

    /// Returns the job's limit on guesses.
    pub fn guesses(&self) -> u32
        ensures { result ≡ self.now.guesses }
    {
        self.guesses
    }

    /// Returns the job's pick, the rule that chooses the cell of each guess.
    pub fn pick(&self) -> Pick
        ensures { result ≡ self.now.pick }
    {
        self.pick
    }

    /// Returns the report of the answer's puzzle under its limit on guesses and by its pick; the
    /// verdict of the report is true of all grids. `NoMemory` if an allocation failed while the job
    /// was graded.
    #[tactic(auto, using(crate::proofs::AnswersLemmas::found))]
    pub fn outcome(&self) -> Result<&Findings, NoMemory>
        ensures value { MatchResult result
            (λ found. self.now.outcome ≡ Ok found.now)
            (λ refused. self.now.outcome ≡ Err refused) }
        ensures report { IfOk result (λ found. found.now
            ≡ findings_of self.now.pick self.now.puzzle self.now.guesses) }
        ensures holds { IfOk result (λ found.
            Holds (picked self.now.pick self.now.puzzle.width)
            self.now.puzzle self.now.guesses found.now.verdict) }
    {
        recall_invariant(&self.puzzle);
        match &self.outcome {
            Ok(found) => Ok(found),
            Err(refused) => Err(*refused),
        }
    }
}

/// Brings the invariant of `puzzle`, that it is a nonogram, into the caller's proof. It has no
/// other effect.
fn recall_invariant(puzzle: &Puzzle)
    ensures { IsNonogram puzzle.now }
{
    // Called for its contract, which states the invariant.
    puzzle.width();
}
