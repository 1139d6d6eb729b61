//! Jobs: puzzles to be graded.

ghost use Rattle.std.specs.Prelude.{◌≡◌, ◌≤◌};
ghost use Rattle.lane_core.specs.declared.jobs.TheConstants.{MAX_GUESSES};

use grid_core::Puzzle;
use solve_core::Pick;

/// The greatest limit on guesses that a job may have.
pub const MAX_GUESSES: u32 = 1_000_000;

/// A puzzle to be graded, with a number, a limit on guesses (at most 1,000,000) and a pick, the
/// rule that chooses the cell of each guess.
#[derive(Debug, Drop)]
pub struct Job {
    /// The job's number, which its answer has too.
    pub number: u32,
    /// The puzzle to be graded.
    pub puzzle: Puzzle,
    /// The limit on guesses, at most 1,000,000.
    pub guesses: u32,
    /// The rule that chooses the cell of each guess.
    pub pick: Pick,
    pub ghost within_limit: { guesses ≤ MAX_GUESSES },
}

impl Job {
    /// Returns the job of these parts. `guesses`, the limit on guesses, has to be at most
    /// 1,000,000.
    pub fn new(number: u32, puzzle: Puzzle, guesses: u32, pick: Pick) -> Job
        requires { guesses ≤ MAX_GUESSES }
        ensures number { result.number ≡ number }
        ensures puzzle { result.puzzle ≡ puzzle }
        ensures guesses { result.guesses ≡ guesses }
        ensures pick { result.pick ≡ pick }
    {
        Job {
            number,
            puzzle,
            guesses,
            pick,
        }
    }
}
