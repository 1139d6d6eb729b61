//! Closing a grid whose cells are given, and the report on it.

ghost use Rattle.std.specs.Prelude.{◌≡◌, IfOk, option_map};
ghost use Rattle.grid_core.specs.Nonogram.{lines_of};
ghost use Rattle.solve_core.specs.Closure.{if_alive};
ghost use Rattle.solve_core.specs.Report.{grid_of};
ghost use Rattle.solve_core.specs.Sizes.{HasSizeOf};
ghost use Rattle.nonograde_c.specs.Closing.{close_text, closed_by};

use crate::settings::Closing;
use grid_core::{Grid, NoMemory, Puzzle};
use reports::push_closed;
use solve_core::Solver;
use std::alloc::Global;

/// Closes `grid`, which has the puzzle's size. Returns whether it is alive; the cells of a dead
/// grid are unspecified. Allocates nothing.
fn close(solver: &mut Solver, grid: &mut Grid, by: Closing) -> bool
    requires { HasSizeOf solver.old grid.old }
    ensures closed { if_alive result grid.new.cells
        ≡ closed_by by (lines_of solver.old) grid.old.cells }
    ensures size { HasSizeOf solver.old grid.new }
{
    match by {
        Closing::ByLines => solver.close_lines(grid),
        Closing::ByTrials => solver.close_trials(grid),
    }
}

/// Closes `grid`, which has the puzzle's size. Returns it, or `None` if it is dead. Fails with
/// `NoMemory` if an allocation does.
fn closed_grid(
    alloc: Global,
    puzzle: &Puzzle,
    mut grid: Grid,
    by: Closing,
) -> Result<Option<Grid>, NoMemory>
    requires { HasSizeOf puzzle.now grid }
    ensures { IfOk result (λ closed. closed
        ≡ option_map (grid_of puzzle.now) (closed_by by (lines_of puzzle.now) grid.cells)) }
{
    let mut solver = Solver::new(alloc, puzzle)?;
    if close(&mut solver, &mut grid, by) {
        Ok(Some(grid))
    } else {
        Ok(None)
    }
}

/// Closes `grid`, which has the puzzle's size, and returns the report on it, as `lines` prints it:
/// `one K` if all cells are then known and `open K` if not, with K the number of known cells, and
/// then the rows; or `none 0` if the grid is dead. Fails with `NoMemory` if an allocation does.
pub fn close_text(
    alloc: Global,
    puzzle: &Puzzle,
    grid: Grid,
    by: Closing,
) -> Result<Vec<u8>, NoMemory>
    requires { HasSizeOf puzzle.now grid }
    ensures { IfOk result (λ text. text.items ≡ close_text by puzzle.now grid.cells) }
{
    let mut text = Vec::new(alloc);
    let closed = closed_grid(alloc, puzzle, grid, by)?;
    push_closed(&mut text, &closed)?;
    Ok(text)
}
