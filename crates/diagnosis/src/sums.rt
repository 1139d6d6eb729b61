//! How many filled cells the clues of a puzzle ask for.

ghost use Rattle.std.specs.Prelude.{◌≡◌, ◌*◌, ◌≤◌, length, sum, sum_by};
ghost use Rattle.grid_core.specs.declared.limits.TheConstants.{MAX_SIDE, MAX_RUNS};
ghost use Rattle.diagnosis.specs.Sums.{sums_of};

use grid_core::{Clue, MAX_RUNS, MAX_SIDE, Puzzle};

/// How many filled cells the row clues of a puzzle ask for, and how many the column clues do.
#[derive(Clone, Copy, Debug, PartialEq, Eq)]
pub struct Sums {
    /// The sum of all numbers in row clues, at most 8,388,608.
    pub rows: u32,
    /// The sum of all numbers in column clues, at most 8,388,608.
    pub columns: u32,
}

/// Returns the sum of a clue's numbers.
pub(crate) fn clue_sum(clue: &Clue) -> u32
    ensures sum { result ≡ sum clue.now }
    ensures bound { result ≤ MAX_SIDE * MAX_RUNS }
    ensures count { length clue.now ≤ MAX_RUNS }
{
    let mut sum = 0;
    for number in clue.numbers() {
        sum += u32::from(*number);
    }
    sum
}

/// Returns the sum of all numbers in `clues`, which are those of one axis.
fn axis_sum(clues: &[Clue]) -> u32
    requires { length clues.now ≤ MAX_SIDE }
    ensures { result ≡ sum_by sum clues.now }
{
    let mut sum = 0;
    for clue in clues {
        sum += clue_sum(clue);
    }
    sum
}

/// Returns how many filled cells the row clues of `puzzle` ask for, and how many the column clues
/// do.
pub fn puzzle_sums(puzzle: &Puzzle) -> Sums
    ensures { result ≡ sums_of puzzle.now }
{
    Sums {
        rows: axis_sum(puzzle.rows()),
        columns: axis_sum(puzzle.columns()),
    }
}
