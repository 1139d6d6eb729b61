//! Whether a puzzle's goal meets its clues, given the verdict on the puzzle.

ghost use Rattle.std.specs.Prelude.{◌≡◌, ◌*◌, ◌<◌, ◌≤◌, ◌↔◌, ℕ, IsTrue, false, length, slice_index_or, true};
ghost use Rattle.bit_sets.specs.Masks.{IsMaskOf};
ghost use Rattle.survey_text.specs.Goals.{goal_word};
ghost use Rattle.survey_text.specs.steps.Goals.{AreColours, IsOnlySolution, IsOnlyWhereOne, IsRowShown};

use bit_sets::{BitSet, prefix};
use grid_core::{BitLine, GoalWord, Grid, Puzzle};
use solve_core::Verdict;

/// Returns the set of the indices at which `values` is true.
#[tactic(auto, using(std::proofs::lemmas::Bool::cases_eq, bit_sets::proofs::Doubling::one_within))]
fn set_of<W: BitSet>(values: &[bool]) -> W
    requires { length values.now ≤ W.WIDTH }
    ensures { IsMaskOf
        (λ k. (k < length values.now) × (slice_index_or values.now k false ≡ true))
        (W.bits result) }
{
    // From the last value to the first, so that each costs a shift by the constant 1, not by `x`.
    let mut set = W::empty();
    for x in (0..values.len()).rev() {
        set = set.shifted_up(1).with_bit(0, values[x]);
    }
    set
}

/// Reports whether `values` is true exactly at the filled cells of `line`. Compares all of them at
/// once, as sets.
fn is_line_shown<W: BitSet>(line: &BitLine<W>, values: &[bool]) -> bool
    requires { length values.now ≡ length line.now }
    ensures { IsTrue result ↔ AreColours line.now values.now }
{
    let cells = prefix(line.len());
    let differing = line.filled().symmetric_difference(set_of(values));
    differing.intersection(cells).is_empty()
}

/// Reports whether `values`, which has a value for each cell of `grid` in row order, is true
/// exactly at the filled cells in row `y`.
fn is_row_shown(grid: &Grid, y: u16, values: &[bool]) -> bool
    requires row { y < grid.now.height }
    requires cells { length values.now ≡ grid.now.width * grid.now.height }
    ensures { IsTrue result ↔ IsRowShown grid.now values.now y }
{
    let row = grid.row(y);
    let width = usize::from(grid.width());
    let first = usize::from(y) * width;
    let values = &values[first..first + width];
    // Rows of at most 64 cells are compared in one `u64` instead of 256 bits, which is faster.
    if width <= 64 {
        is_line_shown(&row.resized::<u64>(), values)
    } else {
        is_line_shown(&row, values)
    }
}

/// Reports whether `values`, which has a value for each cell of `grid` in row order, is true
/// exactly at the filled cells.
fn is_shown(grid: &Grid, values: &[bool]) -> bool
    requires { length values.now ≡ grid.now.width * grid.now.height }
    ensures { IsTrue result ↔ ((y : ℕ) → y < grid.now.height → IsRowShown grid.now values.now y) }
{
    for y in 0..grid.height() {
        if !is_row_shown(grid, y, values) {
            return false;
        }
    }
    true
}

/// Returns the word for the goal of a puzzle whose only solution is `solution`: the goal meets the
/// clues exactly if it shows that solution.
fn goal_word_beside(puzzle: &Puzzle, solution: &Grid) -> GoalWord
    requires { IsOnlySolution puzzle.now solution.now }
    ensures { result ≡ goal_word puzzle.now }
{
    // Called for its contract, which the proof needs: the grid has width times height cells.
    solution.width();
    match puzzle.goal() {
        None => GoalWord::Absent,
        Some(values) => {
            if is_shown(solution, values) {
                GoalWord::Meets
            } else {
                GoalWord::Misses
            }
        }
    }
}

/// Returns the word for the puzzle's goal. If `verdict` has the only solution, the goal is compared
/// with that, and otherwise it is checked against the clues.
pub(crate) fn goal_word(puzzle: &Puzzle, verdict: &Verdict) -> GoalWord
    requires { IsOnlyWhereOne puzzle.now verdict.now }
    ensures { result ≡ goal_word puzzle.now }
{
    match verdict {
        Verdict::One(solution) => goal_word_beside(puzzle, solution),
        _ => puzzle.goal_word(),
    }
}
