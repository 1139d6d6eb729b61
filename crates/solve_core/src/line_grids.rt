//! The unknown grid of a puzzle, closed under line deduction.
ghost use Rattle.std.specs.Prelude.{◌≡◌, IfOk};
ghost use Rattle.solve_core.specs.Report.{line_grid};

use crate::solver::Solver;
use grid_core::{Grid, NoMemory, Puzzle};
use std::alloc::Global;

/// Returns the unknown grid of `puzzle` closed under line deduction; `None` if it is dead.
/// Allocates everything before the first line is deduced; `NoMemory` if an allocation fails.
pub fn line_grid(alloc: Global, puzzle: &Puzzle) -> Result<Option<Grid>, NoMemory>
    ensures { IfOk result (λ grid. grid ≡ line_grid puzzle.now) }
{
    let mut grid = Grid::unknown(alloc, puzzle.width(), puzzle.height())?;
    let alive = Solver::new(alloc, puzzle)?.close_lines(&mut grid);
    Ok(if alive { Some(grid) } else { None })
}
