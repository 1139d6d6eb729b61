//! The rows in which a puzzle's goal and a grid differ.

ghost use Rattle.std.specs.Prelude.{◌≡◌, ◌*◌, ◌<◌, IfOk, length};
ghost use Rattle.diagnosis.specs.Goals.{goal_rows, has_colour, is_row_off, rows_off};

use grid_core::{Cell, Grid, NoMemory, Puzzle};
use std::alloc::Global;

/// Reports whether `cell` is filled, if `filled`, or isn't, if not.
fn has_colour(filled: bool, cell: Cell) -> bool
    ensures { result ≡ has_colour filled cell }
{
    cell.is_filled() == filled
}

/// Reports whether some cell of row `y` of `grid` doesn't have the colour that `goal` has there.
fn is_row_off(goal: &[bool], grid: &Grid, y: u16) -> bool
    requires goal { length goal.now ≡ grid.now.width * grid.now.height }
    requires row { y < grid.now.height }
    ensures { result ≡ is_row_off goal.now grid.now y }
{
    let first = usize::from(y) * usize::from(grid.width());
    for x in 0..grid.width() {
        if !has_colour(goal[first + usize::from(x)], grid.get(x, y)) {
            return true;
        }
    }
    false
}

/// Returns the rows of `grid` in which some cell doesn't have the colour that `goal` has there.
/// Fails with `NoMemory` if an allocation fails.
fn rows_off(alloc: Global, goal: &[bool], grid: &Grid) -> Result<Vec<u16>, NoMemory>
    requires { length goal.now ≡ grid.now.width * grid.now.height }
    ensures { IfOk result (λ rows. rows.items ≡ rows_off goal.now grid.now) }
{
    let mut found = Vec::new(alloc);
    for y in 0..grid.height() {
        if is_row_off(goal, grid, y) {
            found.push(y)?;
        }
    }
    Ok(found)
}

/// Returns the rows, counted from 0 at the top, in which the puzzle's goal and `grid`, which has the
/// puzzle's size, differ; no rows if there is no goal. Fails with `NoMemory` if an allocation fails.
pub fn goal_rows(alloc: Global, puzzle: &Puzzle, grid: &Grid) -> Result<Vec<u16>, NoMemory>
    requires width { grid.now.width ≡ puzzle.now.width }
    requires height { grid.now.height ≡ puzzle.now.height }
    ensures { IfOk result (λ rows. rows.items ≡ goal_rows puzzle.now grid.now) }
{
    match puzzle.goal() {
        Some(goal) => rows_off(alloc, goal, grid),
        None => Ok(Vec::new(alloc)),
    }
}
