//! A puzzle with the buffers for closing its grids.
ghost use Rattle.std.specs.Prelude.{◌≡◌, IfOk};
ghost use Rattle.grid_core.specs.Nonogram.{lines_of};
ghost use Rattle.solve_core.specs.Closure.{closure};
ghost use Rattle.solve_core.specs.Extensions.{extensions_of};
ghost use Rattle.solve_core.specs.Sizes.{HasSizeOf};
ghost use Rattle.solve_core.specs.Trials.{trials};
ghost use Rattle.solve_core.specs.Closure.{if_alive};

use crate::any_workspaces::AnyWorkspace;
use crate::extensions::Extensions;
use crate::picks::Pick;
use grid_core::{Grid, NoMemory, Puzzle};
use std::alloc::Global;
use std::marker::Model;

/// A puzzle with the buffers for closing its grids under line deduction or trials.
pub struct Solver<'p> {
    puzzle: &'p Puzzle,
    workspace: AnyWorkspace,
}

/// Written by hand so that callers' proofs see one call: a derived drop is expanded at each exit of
/// each caller, for each of the set widths.
impl Drop for Solver<'_> {
    fn drop(self) {
        let Solver {
            puzzle: _,
            workspace: _,
        } = self;
    }
}

impl<'p> Model for Solver<'p> {
    ghost use Rattle.std.specs.Prelude.{◌≡◌};
    ghost use Rattle.grid_core.specs.Nonogram.{Nonogram, plain};

    ghost Value = { Nonogram };

    ghost view = { λ s. s.puzzle.now };

    ghost invariant = { λ s. s.workspace.puzzle
        ≡ plain s.puzzle.now.width s.puzzle.now.height s.puzzle.now.rows s.puzzle.now.columns };
}

impl<'p> Solver<'p> {
    /// Allocates all buffers that closing takes. Fails with `NoMemory` if an allocation fails.
    pub fn new(alloc: Global, puzzle: &'p Puzzle) -> Result<Solver<'p>, NoMemory>
        ensures { IfOk result (λ solver. solver ≡ puzzle.now) }
    {
        let mut workspace = AnyWorkspace::new(alloc)?;
        workspace.reset(alloc, puzzle)?;
        Ok(Solver { puzzle, workspace })
    }

    /// Closes `grid`, which has the puzzle's size, under line deduction. Returns whether it is
    /// alive; the cells of a dead grid are unspecified. Allocates nothing.
    #[must_use]
    pub fn close_lines(&mut self, grid: &mut Grid) -> bool
        requires size { HasSizeOf self.old grid.old }
        ensures closed { if_alive result grid.new.cells
            ≡ closure (lines_of self.old) grid.old.cells }
        ensures size { HasSizeOf self.old grid.new }
        ensures puzzle { self.new ≡ self.old }
    {
        self.workspace.close_lines(grid)
    }

    /// Closes `grid`, which has the puzzle's size, under trials. Returns whether it is alive; the
    /// cells of a dead grid are unspecified. Allocates nothing.
    #[must_use]
    pub fn close_trials(&mut self, grid: &mut Grid) -> bool
        requires size { HasSizeOf self.old grid.old }
        ensures tried { if_alive result grid.new.cells ≡ trials (lines_of self.old) grid.old.cells }
        ensures size { HasSizeOf self.old grid.new }
        ensures puzzle { self.new ≡ self.old }
    {
        self.workspace.close_trials(grid)
    }

    /// Returns the solutions that extend `grid`, which has the puzzle's size: closes a copy of it
    /// under trials and searches from there, with at most `guesses` guesses at cells that `pick`
    /// chooses. Fails with `NoMemory` if an allocation fails; the solver can be used again.
    pub fn extensions(
        &mut self,
        alloc: Global,
        grid: &Grid,
        guesses: u32,
        pick: Pick,
    ) -> Result<Extensions, NoMemory>
        requires { HasSizeOf self.old grid.now }
        ensures extensions { IfOk result (λ extensions. extensions
            ≡ extensions_of pick self.old grid.now.cells guesses) }
        ensures puzzle { self.new ≡ self.old }
    {
        self.workspace.extensions(alloc, grid, guesses, pick)
    }
}
