//! A puzzle that is being solved, in sets of one width.
ghost use Rattle.std.specs.Prelude.{◌≡◌, ◌+◌, ◌*◌, ◌<◌, length, OnErr, OnOk};
ghost use Rattle.grid_core.specs.Nonogram.{lines_of};
ghost use Rattle.grid_core.specs.steps.Axes.{line_count};
ghost use Rattle.solve_core.specs.Closure.{closure, if_alive};
ghost use Rattle.solve_core.specs.Sizes.{HasSizeOf};
ghost use Rattle.solve_core.specs.Trials.{trials};
ghost use Rattle.solve_core.specs.steps.Widths.{FitsIn};
ghost use Rattle.solve_core.specs.steps.Workspaces.{clue_index, IsPreparedFor};

use crate::deducing::deducer::{Deducer, append_clues, max_clues};
use crate::grids::boards::Board;
use crate::grids::line_mask::LineMask;
use crate::records::conflict_hints::ConflictHints;
use crate::records::consistent::ConsistentColours;
use grid_core::{Axis, Clue, Grid, NoMemory, Puzzle};
use line_core::LineBits;
use std::alloc::Global;
use std::marker::Model;

/// Everything that solving a puzzle takes, in sets that fit its lines and the numbers of its clues.
/// All memory is allocated before the first line is deduced, and is used again for the next puzzle.
pub struct Workspace<W: LineBits> {
    pub(crate) deducer: Deducer<W>,
    /// The clues of the next puzzle, while the workspace is prepared for it.
    next_clues: Vec<Clue>,
    pub(crate) board: Board<W>,
    /// The dirty lines, which may deduce more than their cells show.
    pub(crate) dirty: LineMask<W>,
    pub(crate) conflict_hints: ConflictHints<W>,
    pub(crate) consistent: ConsistentColours<W>,
    /// How many trials in succession ended alive, counted up to 255.
    pub(crate) live_streak: u8,
}

/// Written by hand so that callers' proofs see one call: a derived drop is expanded at each exit of
/// each caller.
impl<W: LineBits> Drop for Workspace<W> {
    fn drop(self) {
        let Workspace {
            deducer: _,
            next_clues: _,
            board: _,
            dirty: _,
            conflict_hints: _,
            consistent: _,
            live_streak: _,
        } = self;
    }
}

impl<W: LineBits> Model for Workspace<W> {
    ghost use Rattle.solve_core.specs.steps.Workspaces.{state_of, IsWorkspace, WorkspaceState};

    ghost Value = { WorkspaceState };

    ghost view = { λ s. state_of s.deducer s.board s.dirty s.consistent };

    ghost invariant = { λ s.
        IsWorkspace W.WIDTH (state_of s.deducer s.board s.dirty s.consistent) };
}

impl<W: LineBits> Workspace<W> {
    /// Allocates a workspace for a puzzle of one blank cell. Fails with `NoMemory` if an allocation
    /// fails.
    pub fn new(alloc: Global) -> Result<Workspace<W>, NoMemory> {
        Ok(Workspace {
            deducer: Deducer::new(alloc)?,
            next_clues: Vec::with_capacity(alloc, max_clues::<W>())?,
            board: Board::new(alloc)?,
            dirty: LineMask::none(),
            conflict_hints: ConflictHints::new(alloc),
            consistent: ConsistentColours::new(alloc)?,
            live_streak: 0,
        })
    }

    /// Prepares the workspace for `puzzle`, with a board whose cells are all unknown. Fails with
    /// `NoMemory` if an allocation fails; the workspace is as it was then.
    pub fn reset(&mut self, alloc: Global, puzzle: &Puzzle) -> Result<(), NoMemory>
        requires { FitsIn W.WIDTH puzzle.now.rows puzzle.now.columns }
        ensures ok { OnOk result (IsPreparedFor puzzle.now self.new) }
        ensures err { OnErr result (self.new ≡ self.old) }
    {
        let (width, height) = (puzzle.width(), puzzle.height());
        // All that can fail comes before the first part that is of `puzzle`.
        self.next_clues.clear();
        append_clues(alloc, &mut self.next_clues, puzzle.rows())?;
        append_clues(alloc, &mut self.next_clues, puzzle.columns())?;
        self.conflict_hints
            .reset(usize::from(width) * usize::from(height))?;
        self.deducer.reserve(alloc, width, height)?;
        self.board.reset(width, height)?;
        self.deducer.swap_clues(&mut self.next_clues);
        self.consistent.reset(height);
        self.dirty = LineMask::none();
        self.live_streak = 0;
        Ok(())
    }

    /// Returns the index of the clue of line `i` of an axis.
    #[inline(always)]
    pub fn clue_index(&self, axis: Axis, i: u16) -> u16
        requires { i < line_count axis self.now.puzzle.width self.now.puzzle.height }
        ensures { result ≡ clue_index axis self.now.puzzle.height i }
    {
        match axis {
            Axis::Rows => i,
            Axis::Columns => self.board.lines().height() as u16 + i,
        }
    }

    /// Returns the column and the row of the cell with index `place`.
    pub fn column_and_row(&self, place: usize) -> (u16, u16)
        requires { place < length self.now.board.cells }
        ensures column { result.0 < self.now.puzzle.width }
        ensures row { result.1 < self.now.puzzle.height }
        ensures place { place ≡ result.1 * self.now.puzzle.width + result.0 }
    {
        let width = self.board.lines().width();
        ((place % width) as u16, (place / width) as u16)
    }

    /// Closes `grid`, which has the puzzle's size, under line deduction. Returns whether it is
    /// alive; the cells of a dead grid are unspecified.
    pub fn close_lines_of(&mut self, grid: &mut Grid) -> bool
        requires size { HasSizeOf self.old.puzzle grid.old }
        ensures closed { if_alive result grid.new.cells
            ≡ closure (lines_of self.old.puzzle) grid.old.cells }
        ensures size { HasSizeOf self.old.puzzle grid.new }
        ensures puzzle { self.new.puzzle ≡ self.old.puzzle }
    {
        self.board.load(grid);
        let alive = self.close_lines();
        self.board.lines().write(grid);
        alive
    }

    /// Closes `grid`, which has the puzzle's size, under trials. Returns whether it is alive; the
    /// cells of a dead grid are unspecified.
    pub fn close_trials_of(&mut self, grid: &mut Grid) -> bool
        requires size { HasSizeOf self.old.puzzle grid.old }
        ensures tried { if_alive result grid.new.cells
            ≡ trials (lines_of self.old.puzzle) grid.old.cells }
        ensures size { HasSizeOf self.old.puzzle grid.new }
        ensures puzzle { self.new.puzzle ≡ self.old.puzzle }
    {
        self.board.load(grid);
        let alive = self.close_trials();
        self.board.lines().write(grid);
        alive
    }
}
