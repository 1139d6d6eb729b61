//! The solutions of a puzzle that extend a given grid.
ghost use Rattle.std.specs.Prelude.{◌≡◌, IfOk};
ghost use Rattle.solve_core.specs.Extensions.{extensions_of};
ghost use Rattle.solve_core.specs.Sizes.{HasSizeOf};

use crate::Verdict;
use crate::picks::Pick;
use crate::solving::workspaces::Workspace;
use grid_core::{Grid, NoMemory};
use line_core::LineBits;
use std::alloc::Global;

/// How many solutions of a puzzle extend a given grid, as far as a search could determine it.
#[derive(Debug, Drop)]
pub struct Extensions {
    /// The verdict on the full grids that meet the clues and know all that the given grid knows.
    pub verdict: Verdict,
    /// How many guesses were spent: one for each colour that was guessed at a cell. Never more than
    /// the limit.
    pub spent: u32,
}

impl<W: LineBits> Workspace<W> {
    /// Returns the solutions that extend `grid`, which has the puzzle's size: closes it under
    /// trials and searches from there, with at most `guesses` guesses at cells that `pick` chooses.
    /// Allocates everything before the first line is deduced; `NoMemory` if an allocation fails.
    pub fn extensions(
        &mut self,
        alloc: Global,
        grid: &Grid,
        guesses: u32,
        pick: Pick,
    ) -> Result<Extensions, NoMemory>
        requires { HasSizeOf self.old.puzzle grid.now }
        ensures extensions { IfOk result (λ extensions. extensions
            ≡ extensions_of pick self.old.puzzle grid.now.cells guesses) }
        ensures puzzle { self.new.puzzle ≡ self.old.puzzle }
    {
        let mut branches = Vec::new(alloc);
        let mut solutions = self.reserve_search(alloc, &mut branches)?;
        self.board.load(grid);
        if !self.close_trials() {
            return Ok(Extensions {
                verdict: Verdict::Nothing,
                spent: 0,
            });
        }
        let end = self.search(&mut branches, &mut solutions, guesses, pick);
        Ok(Extensions {
            verdict: solutions.verdict(end.cut),
            spent: end.spent,
        })
    }
}
