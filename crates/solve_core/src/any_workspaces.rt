//! Workspaces in the narrowest sets that fit their puzzles. Nothing else knows the set widths.
ghost use Rattle.std.specs.Prelude.{◌≡◌, IfOk, OnErr, OnOk};
ghost use Rattle.grid_core.specs.Nonogram.{lines_of};
ghost use Rattle.solve_core.specs.Closure.{closure, if_alive};
ghost use Rattle.solve_core.specs.Extensions.{extensions_of};
ghost use Rattle.solve_core.specs.Report.{findings_of, unknown_grid};
ghost use Rattle.solve_core.specs.Sizes.{HasSizeOf};
ghost use Rattle.solve_core.specs.Trials.{trials};
ghost use Rattle.solve_core.specs.steps.Workspaces.{IsPreparedFor};

use crate::extensions::Extensions;
use crate::findings::Findings;
use crate::picks::Pick;
use crate::searching::branches::Branch;
use crate::solving::workspaces::Workspace;
use crate::widths::width_for;
use bit_sets::Bits256;
use grid_core::{Grid, NoMemory, Puzzle};
use line_core::SetWidth;
use std::alloc::Global;
use std::marker::Model;

/// A workspace in sets of 64, 128 or 256 indices.
#[derive(Drop)]
pub enum SizedWorkspace {
    Narrow(Workspace<u64>),
    Middle(Workspace<u128>),
    Wide(Workspace<Bits256>),
}

/// A workspace in the narrowest sets that fit its puzzle, with a buffer for the branches of the
/// searches of its reports.
#[derive(Drop)]
pub struct AnyWorkspace {
    sized: SizedWorkspace,
    branches: Vec<Branch>,
}

impl Model for AnyWorkspace {
    ghost use Rattle.solve_core.specs.steps.AnyWorkspaces.{state_in};
    ghost use Rattle.solve_core.specs.steps.Workspaces.{WorkspaceState};

    ghost Value = { WorkspaceState };

    ghost view = { λ s. state_in s.sized };
}

impl AnyWorkspace {
    /// Allocates a workspace for a puzzle of one blank cell. Fails with `NoMemory` if an allocation
    /// fails.
    pub fn new(alloc: Global) -> Result<AnyWorkspace, NoMemory> {
        Ok(AnyWorkspace {
            sized: SizedWorkspace::Narrow(Workspace::new(alloc)?),
            branches: Vec::new(alloc),
        })
    }

    /// Prepares the workspace for `puzzle`, or replaces it by a new one if the puzzle takes sets of
    /// another width. Fails with `NoMemory` if an allocation fails; the workspace is as it was then.
    pub fn reset(&mut self, alloc: Global, puzzle: &Puzzle) -> Result<(), NoMemory>
        ensures ok { OnOk result (IsPreparedFor puzzle.now self.new) }
        ensures err { OnErr result (self.new ≡ self.old) }
    {
        match width_for(puzzle.rows(), puzzle.columns()) {
            SetWidth::Narrow => {
                if let SizedWorkspace::Narrow(workspace) = &mut self.sized {
                    return workspace.reset(alloc, puzzle);
                }
                let mut workspace = Workspace::new(alloc)?;
                workspace.reset(alloc, puzzle)?;
                self.sized = SizedWorkspace::Narrow(workspace);
            }
            SetWidth::Middle => {
                if let SizedWorkspace::Middle(workspace) = &mut self.sized {
                    return workspace.reset(alloc, puzzle);
                }
                let mut workspace = Workspace::new(alloc)?;
                workspace.reset(alloc, puzzle)?;
                self.sized = SizedWorkspace::Middle(workspace);
            }
            SetWidth::Wide => {
                if let SizedWorkspace::Wide(workspace) = &mut self.sized {
                    return workspace.reset(alloc, puzzle);
                }
                let mut workspace = Workspace::new(alloc)?;
                workspace.reset(alloc, puzzle)?;
                self.sized = SizedWorkspace::Wide(workspace);
            }
        }
        Ok(())
    }

    /// Closes `grid`, which has the puzzle's size, under line deduction. Returns whether it is
    /// alive; the cells of a dead grid are unspecified.
    pub fn close_lines(&mut self, grid: &mut Grid) -> bool
        requires { HasSizeOf self.old.puzzle grid.old }
        ensures closed { if_alive result grid.new.cells
            ≡ closure (lines_of self.old.puzzle) grid.old.cells }
        ensures size { HasSizeOf self.old.puzzle grid.new }
        ensures puzzle { self.new.puzzle ≡ self.old.puzzle }
    {
        match &mut self.sized {
            SizedWorkspace::Narrow(workspace) => workspace.close_lines_of(grid),
            SizedWorkspace::Middle(workspace) => workspace.close_lines_of(grid),
            SizedWorkspace::Wide(workspace) => workspace.close_lines_of(grid),
        }
    }

    /// Closes `grid`, which has the puzzle's size, under trials. Returns whether it is alive; the
    /// cells of a dead grid are unspecified.
    pub fn close_trials(&mut self, grid: &mut Grid) -> bool
        requires { HasSizeOf self.old.puzzle grid.old }
        ensures tried { if_alive result grid.new.cells
            ≡ trials (lines_of self.old.puzzle) grid.old.cells }
        ensures size { HasSizeOf self.old.puzzle grid.new }
        ensures puzzle { self.new.puzzle ≡ self.old.puzzle }
    {
        match &mut self.sized {
            SizedWorkspace::Narrow(workspace) => workspace.close_trials_of(grid),
            SizedWorkspace::Middle(workspace) => workspace.close_trials_of(grid),
            SizedWorkspace::Wide(workspace) => workspace.close_trials_of(grid),
        }
    }

    /// Returns the report on the puzzle, by a board whose cells are all unknown. Fails with
    /// `NoMemory` if an allocation fails.
    pub fn report(&mut self, alloc: Global, guesses: u32, pick: Pick) -> Result<Findings, NoMemory>
        requires { self.old.board.cells ≡ unknown_grid self.old.puzzle }
        ensures { IfOk result (λ findings.
            findings ≡ findings_of pick self.old.puzzle guesses) }
    {
        let branches = &mut self.branches;
        match &mut self.sized {
            SizedWorkspace::Narrow(workspace) => workspace.report(alloc, branches, guesses, pick),
            SizedWorkspace::Middle(workspace) => workspace.report(alloc, branches, guesses, pick),
            SizedWorkspace::Wide(workspace) => workspace.report(alloc, branches, guesses, pick),
        }
    }

    /// Returns the solutions that extend `grid`, which has the puzzle's size, as far as `guesses`
    /// guesses at cells that `pick` chooses determine them. Fails with `NoMemory` if an allocation
    /// fails.
    pub fn extensions(
        &mut self,
        alloc: Global,
        grid: &Grid,
        guesses: u32,
        pick: Pick,
    ) -> Result<Extensions, NoMemory>
        requires { HasSizeOf self.old.puzzle grid.now }
        ensures extensions { IfOk result (λ extensions. extensions
            ≡ extensions_of pick self.old.puzzle grid.now.cells guesses) }
        ensures puzzle { self.new.puzzle ≡ self.old.puzzle }
    {
        match &mut self.sized {
            SizedWorkspace::Narrow(workspace) => workspace.extensions(alloc, grid, guesses, pick),
            SizedWorkspace::Middle(workspace) => workspace.extensions(alloc, grid, guesses, pick),
            SizedWorkspace::Wide(workspace) => workspace.extensions(alloc, grid, guesses, pick),
        }
    }
}
