//! The board of a search: a grid as rows and columns, with a trail by which assignments are undone.
ghost use Rattle.std.specs.Prelude.{◌≡◌, ℕ, ◌+◌, ◌-◌, ◌*◌, ◌<◌, ◌≤◌, length, take, slice_index_or, slice_set, true, IfOk, OnErr, OnOk};
ghost use Rattle.grid_core.specs.Cells.{is_known};
ghost use Rattle.grid_core.specs.Nonogram.{line_indices};
ghost use Rattle.grid_core.specs.steps.Axes.{line_count};
ghost use Rattle.bit_sets.specs.Masks.{Has};
ghost use Rattle.solve_core.specs.Closure.{with_cells};
ghost use Rattle.grid_core.specs.PartialGrid.{IsSize};
ghost use Rattle.grid_core.specs.declared.cells.Cell.TheVariants.{Unknown};
ghost use Rattle.solve_core.specs.steps.Boards.{board_without_trail, cells_along, grid_of_board, unknown_board, CanAssignLine, IsWhole};
ghost use Rattle.solve_core.specs.steps.Branches.{cells_before};
ghost use Rattle.solve_core.specs.steps.Trails.{IsTrailed, unknown_count};

use crate::grids::grid_lines::GridLines;
use crate::grids::trails::TrailEntry;
use bit_sets::BitSet;
use grid_core::{Axis, Cell, Grid, NoMemory};
use line_core::{BitLine, LineBits};
use std::alloc::Global;
use std::marker::Model;

/// A grid as rows and columns, with a trail by which assignments are undone in reverse order.
/// Its buffers are allocated once.
pub struct Board<W: LineBits> {
    lines: GridLines<W>,
    trail: Vec<TrailEntry<W>>,
}

/// Written by hand so that callers' proofs see one call: a derived drop is expanded at each exit of
/// each caller.
impl<W: LineBits> Drop for Board<W> {
    fn drop(self) {
        let Board { lines: _, trail: _ } = self;
    }
}

impl<W: LineBits> Model for Board<W> {
    ghost use Rattle.std.specs.Prelude.{vec_capacity};
    ghost use Rattle.solve_core.specs.steps.Boards.{board_of, IsBoard};
    ghost use Rattle.solve_core.specs.steps.Trails.{TrailedGrid};

    ghost Value = { TrailedGrid };

    ghost view = { λ b. board_of b.lines b.trail.items };

    ghost invariant = { λ b. IsBoard W.WIDTH b.lines b.trail.items (vec_capacity b.trail) };
}

impl<W: LineBits> Board<W> {
    /// Returns a board of one unknown cell. Fails with `NoMemory` if an allocation fails.
    pub fn new(alloc: Global) -> Result<Board<W>, NoMemory>
        ensures { IfOk result (λ board. board ≡ unknown_board 1 1) }
    {
        Ok(Board {
            lines: GridLines::new(alloc)?,
            trail: Vec::with_capacity(alloc, 1)?,
        })
    }

    /// Replaces the board by one of `width` columns and `height` rows, whose cells are all unknown,
    /// with an empty trail. Fails with `NoMemory` if an allocation fails, and changes nothing then.
    pub fn reset(&mut self, width: u16, height: u16) -> Result<(), NoMemory>
        requires size { IsSize width height }
        requires fits { (width ≤ W.WIDTH) × (height ≤ W.WIDTH) }
        ensures ok { OnOk result (self.new ≡ unknown_board width height) }
        ensures err { OnErr result (self.new ≡ self.old) }
    {
        let cells = usize::from(width) * usize::from(height);
        self.trail.reserve(cells.saturating_sub(self.trail.len()))?;
        self.trail.clear();
        self.lines.reset(width, height);
        Ok(())
    }

    /// Returns the board's rows and columns.
    pub fn lines(&self) -> &GridLines<W>
        ensures lines { result.now ≡ grid_of_board self.now }
        ensures size { IsSize self.now.width self.now.height }
        ensures count { length self.now.cells ≡ self.now.width * self.now.height }
    {
        &self.lines
    }

    /// Returns the entries of the trail, oldest first.
    pub fn trail(&self) -> &[TrailEntry<W>]
        ensures len { length result.now ≡ length self.now.trail }
        ensures trail { length self.now.trail + unknown_count self.now.cells
            ≤ length self.now.cells }
        ensures few { length self.now.cells ≤ 65536 }
    {
        &self.trail
    }

    /// Returns line `i` of an axis.
    pub fn line(&self, axis: Axis, i: u16) -> &BitLine<W>
        requires { i < line_count axis self.now.width self.now.height }
        ensures cells { result.now ≡ cells_along self.now axis i }
        ensures whole { IsWhole self.now }
    {
        self.lines.line(axis, i)
    }

    /// Assigns the cells in `changes` of line `i` of an axis, so that it becomes `new`, and appends
    /// an entry to the trail.
    pub fn assign_line(&mut self, axis: Axis, i: u16, new: &BitLine<W>, changes: W)
        requires { CanAssignLine self.old axis i new.now (W.bits changes) }
        ensures cells { self.new.cells ≡ with_cells self.old.cells
            (line_indices axis self.old.width self.old.height i) new.now }
        ensures trail { IsTrailed self.old self.new }
    {
        self.lines.replace_line(axis, i, new, changes);
        // The capacity suffices: it is one entry for each cell, and each entry assigned at least
        // one unknown cell.
        self.trail.push_reserved(TrailEntry {
            axis,
            line: i,
            changes,
        });
    }

    /// Assigns the colour `cell` to the unknown cell in column `x` and row `y`, and appends an
    /// entry to the trail.
    pub fn assign_cell(&mut self, x: u16, y: u16, cell: Cell)
        requires column { x < self.old.width }
        requires row { y < self.old.height }
        requires unknown { slice_index_or self.old.cells (y * self.old.width + x) Unknown
            ≡ Unknown }
        requires known { is_known cell ≡ true }
        ensures cells { self.new.cells ≡ slice_set self.old.cells (y * self.old.width + x) cell }
        ensures trail { IsTrailed self.old self.new }
    {
        let mut row = self.lines.line(Axis::Rows, y).copy();
        row.assign(x, cell);
        self.assign_line(Axis::Rows, y, &row, W::empty().with_bit(x, true));
    }

    /// Undoes the last entry of the trail and removes it.
    fn undo_last(&mut self)
        requires { 0 < length self.old.trail }
        ensures { self.new ≡ record self.old {
          cells = cells_before self.old.cells self.old.trail (length self.old.trail - 1);
          trail = take (length self.old.trail - 1) self.old.trail;
        } }
    {
        let Some(entry) = self.trail.pop() else {
            return;
        };
        let line = self.lines.line(entry.axis, entry.line);
        let line = line.with_unknown(entry.changes);
        self.lines
            .replace_line(entry.axis, entry.line, &line, entry.changes);
    }

    /// Undoes all assignments since the trail had `checkpoint` entries, the last one first. Does
    /// nothing if the trail isn't longer than that.
    pub fn undo_to(&mut self, checkpoint: usize)
        ensures { self.new ≡ record self.old {
          cells = cells_before self.old.cells self.old.trail checkpoint;
          trail = take checkpoint self.old.trail;
        } }
    {
        while self.trail().len() > checkpoint {
            self.undo_last();
        }
    }

    /// Returns the rows in which a cell was assigned since the trail had `checkpoint` entries.
    pub fn rows_touched_since(&self, checkpoint: usize) -> W
        requires { checkpoint ≤ length self.now.trail }
        ensures { (y : ℕ) → Has (W.bits result) y → y < self.now.height }
    {
        let mut rows = W::empty();
        for entry in &self.trail[checkpoint..] {
            rows = rows.union(entry.rows());
        }
        rows
    }

    /// Loads the cells of `grid`, which has the board's size, and clears the trail.
    pub fn load(&mut self, grid: &Grid)
        requires width { grid.now.width ≡ self.old.width }
        requires height { grid.now.height ≡ self.old.height }
        ensures board { self.new ≡ board_without_trail grid.now }
        ensures count { length grid.now.cells ≡ grid.now.width * grid.now.height }
    {
        self.lines.load(grid);
        self.trail.clear();
    }
}
