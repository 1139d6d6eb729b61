//! Pictures: the colours of all cells, and whether they meet the clues.

ghost use Rattle.std.specs.Prelude.{◌≡◌, ◌+◌, ◌*◌, ◌^◌, ◌<◌, ◌≤◌, ◌↔◌, ℕ, false, length, IsTrue, slice_index_or};
ghost use Rattle.grid_core.specs.Nonogram.{Meets, MeetsLine, cells_at, line_on, strided_indices};
ghost use Rattle.grid_core.specs.steps.Pictures.{values_of};
ghost use Rattle.grid_core.specs.declared.axes.Axis.TheVariants.{Rows, Columns};

use crate::limits::MAX_SIDE;
use crate::runs::has_runs;
use crate::{Clue, Grid, Puzzle};

/// The colours of all cells in row order, from a full grid or from a goal.
#[derive(Clone, Copy)]
pub(crate) enum Picture<'a> {
    /// A full grid.
    Cells(&'a Grid),
    /// The values of a goal, `true` for filled.
    Values(&'a [bool]),
}

impl Picture<'_> {
    /// Reports whether the cell at index `place` in row order is filled.
    fn is_filled(self, index: usize) -> bool
        requires { index < length (values_of self) }
        ensures { result ≡ slice_index_or (values_of self.entry) index false }
    {
        match self {
            Picture::Cells(grid) => grid.get_index(index).is_filled(),
            Picture::Values(values) => values[index],
        }
    }
}

/// Copies to `line` the colours of the cell at index `first` in row order and of each `step` cells
/// further on, `true` for filled.
fn read_line(picture: Picture<'_>, first: usize, step: usize, line: &mut [bool])
    requires small { length (values_of picture) < 2 ^ 63 }
    requires within { (i : ℕ) → i < length line.old
        → first + i * step < length (values_of picture) }
    ensures { line.new
        ≡ cells_at false (values_of picture.entry) (strided_indices first step (length line.old)) }
{
    for i in 0..line.len() {
        line[i] = picture.is_filled(first + i * step);
    }
}

/// Reports whether the runs of a line are `clue`. The line has `count` cells: the one at index
/// `first` in row order, and each `step` cells further on.
fn is_line_met(picture: Picture<'_>, first: usize, step: usize, count: u16, clue: &Clue) -> bool
    requires small { length (values_of picture) < 2 ^ 63 }
    requires short { count ≤ MAX_SIDE }
    requires within { (i : ℕ) → i < count → first + i * step < length (values_of picture) }
    ensures { IsTrue result ↔ MeetsLine (values_of picture.entry)
        (record { indices = strided_indices first step count; clue = clue.now }) }
{
    // An array for the longest line, since an allocation could fail.
    let mut cells = [false; MAX_SIDE as usize];
    let line = &mut cells[..usize::from(count)];
    read_line(picture, first, step, line);
    has_runs(line, clue.numbers())
}

/// Reports whether `picture` meets the clue of each row.
fn are_rows_met(puzzle: &Puzzle, picture: Picture<'_>) -> bool
    requires { length (values_of picture) ≡ puzzle.now.width * puzzle.now.height }
    ensures { IsTrue result ↔ ((y : ℕ) → y < length puzzle.now.rows
        → MeetsLine (values_of picture.entry) (line_on Rows puzzle.now y)) }
{
    let width = puzzle.width();
    for y in 0..puzzle.height() {
        let first = usize::from(y) * usize::from(width);
        if !is_line_met(picture, first, 1, width, puzzle.row_clue(y)) {
            return false;
        }
    }
    true
}

/// Reports whether `picture` meets the clue of each column.
fn are_columns_met(puzzle: &Puzzle, picture: Picture<'_>) -> bool
    requires { length (values_of picture) ≡ puzzle.now.width * puzzle.now.height }
    ensures { IsTrue result ↔ ((x : ℕ) → x < length puzzle.now.columns
        → MeetsLine (values_of picture.entry) (line_on Columns puzzle.now x)) }
{
    let step = usize::from(puzzle.width());
    for x in 0..puzzle.width() {
        if !is_line_met(
            picture,
            usize::from(x),
            step,
            puzzle.height(),
            puzzle.col_clue(x),
        ) {
            return false;
        }
    }
    true
}

/// Reports whether `picture`, which has to have the puzzle's number of cells, meets the clues of
/// all lines.
pub(crate) fn is_met(puzzle: &Puzzle, picture: Picture<'_>) -> bool
    requires { length (values_of picture) ≡ puzzle.now.width * puzzle.now.height }
    ensures { IsTrue result ↔ Meets puzzle.now (values_of picture.entry) }
{
    are_rows_met(puzzle, picture) && are_columns_met(puzzle, picture)
}
