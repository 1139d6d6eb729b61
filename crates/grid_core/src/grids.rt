//! Partly known grids.

ghost use Rattle.std.specs.Prelude.{◌≡◌, ℕ, ◌+◌, ◌*◌, ◌/◌, ◌%◌, ◌<◌, ◌≤◌, [], length, replicate, count_by, position, option_map, vec_capacity, IfOk, slice_index_or, slice_set};
ghost use Rattle.grid_core.specs.Cells.{is_known, is_unknown};
ghost use Rattle.grid_core.specs.PartialGrid.{PartialGrid, cell_at, IsSize, cell_index};
ghost use Rattle.grid_core.specs.StoredRows.{padded_rows, AreRowsOf};
ghost use Rattle.grid_core.specs.Rows.{cells_of_rows, row_of, with_row};
ghost use Rattle.grid_core.specs.declared.cells.Cell.TheVariants.{Unknown};

use crate::rows::Row;
use crate::{BitLine, Cell, NoMemory};
use bit_sets::{BitSet, Bits256};
use std::alloc::Global;
use std::marker::Model;

/// A partly known grid: a width and a height, from 1 to 256 cells each, and the cells in row order.
#[derive(Debug)]
pub struct Grid {
    width: u16,
    height: u16,
    /// The rows from the top to the lowest one that was written; those below are unknown. The
    /// capacity suffices for all rows, so that writing a row never allocates.
    rows: Vec<Row>,
}

/// Written by hand so that callers' proofs see one call: a derived drop is expanded at each exit of
/// each caller.
impl Drop for Grid {
    fn drop(self) {
        let Grid {
            width: _,
            height: _,
            rows: _,
        } = self;
    }
}

impl Model for Grid {
    ghost use Rattle.std.specs.Prelude.{vec_capacity};
    ghost use Rattle.grid_core.specs.PartialGrid.{PartialGrid, IsSize};
    ghost use Rattle.grid_core.specs.Rows.{cells_of_rows};
    ghost use Rattle.grid_core.specs.StoredRows.{AreRows, padded_rows, rows_cells};

    ghost Value = { PartialGrid };

    ghost view = { λ g. record {
      width = g.width;
      height = g.height;
      cells = cells_of_rows (rows_cells g.width (padded_rows g.height g.rows.items));
    } };

    ghost invariant = { λ g. IsSize g.width g.height
        × AreRows g.width g.height g.rows.items (vec_capacity g.rows) };
}

/// Appends unknown rows until there are `count`. Allocates nothing: the capacity of `rows` has to
/// be at least `count`.
fn grow_to(rows: &mut Vec<Row>, count: usize)
    requires { count ≤ vec_capacity rows.old }
    ensures rows { rows.new.items ≡ padded_rows count rows.old.items }
    ensures capacity { vec_capacity rows.new ≡ vec_capacity rows.old }
{
    for _ in 0..count.saturating_sub(rows.len()) {
        rows.push_reserved(Row::unknown());
    }
}

/// Replaces the rows by those of `lines`. Allocates nothing: the capacity of `rows` has to be at
/// least the number of lines.
fn write_all<W: BitSet>(rows: &mut Vec<Row>, lines: &[BitLine<W>])
    requires { length lines.now ≤ vec_capacity rows.old }
    ensures rows { AreRowsOf lines.now rows.new.items }
    ensures capacity { vec_capacity rows.new ≡ vec_capacity rows.old }
{
    rows.clear();
    for line in lines {
        rows.push_reserved(Row::of(line));
    }
}

impl Grid {
    /// Returns a grid of unknown cells, or `NoMemory` if an allocation fails. `width` and `height`
    /// have to be from 1 to 256.
    #[tactic(auto, using(crate::proofs::StoredRows::none_written))]
    pub fn unknown(alloc: Global, width: u16, height: u16) -> Result<Grid, NoMemory>
        requires { IsSize width height }
        ensures { IfOk result (λ g. g ≡ record {
          width = width;
          height = height;
          cells = replicate (width * height) Unknown;
        }) }
    {
        // No row is initialized: one that is never written counts as unknown.
        Ok(Grid {
            width,
            height,
            rows: Vec::with_capacity(alloc, usize::from(height))?,
        })
    }

    /// Returns the number of cells in a row, from 1 to 256.
    #[tactic(auto, using(crate::proofs::StoredRows::counted))]
    pub fn width(&self) -> u16
        ensures width { result ≡ self.now.width }
        ensures size { IsSize self.now.width self.now.height }
        ensures cells { length self.now.cells ≡ self.now.width * self.now.height }
    {
        self.width
    }

    /// Returns the number of cells in a column, from 1 to 256.
    pub fn height(&self) -> u16
        ensures { result ≡ self.now.height }
    {
        self.height
    }

    /// Returns row `y`, counted from 0 at the top.
    #[tactic(auto, using(crate::proofs::StoredRows::counted))]
    pub fn row(&self, y: u16) -> BitLine<Bits256>
        requires { y < self.now.height }
        ensures row { result ≡ row_of self.now y }
        ensures count { length self.now.cells ≡ self.now.width * self.now.height }
    {
        match self.rows.get(usize::from(y)) {
            Some(row) => row.line(self.width),
            None => BitLine::unknown(self.width),
        }
    }

    /// Returns the cell in column `x`, counted from 0 at the left, and row `y`, counted from 0 at
    /// the top.
    #[tactic(auto, using(crate::proofs::RowLists::rows_read))]
    pub fn get(&self, x: u16, y: u16) -> Cell
        requires column { x < self.now.width }
        requires row { y < self.now.height }
        ensures { result ≡ cell_at self.now x y }
    {
        self.row(y).get(x)
    }

    /// Returns the column and the row of the cell at index `place` in row order.
    fn column_and_row(&self, index: usize) -> (u16, u16)
        requires { index < length self.now.cells }
        ensures column { result.0 < self.now.width }
        ensures row { result.1 < self.now.height }
        ensures index { result.1 * self.now.width + result.0 ≡ index }
    {
        let width = usize::from(self.width());
        ((index % width) as u16, (index / width) as u16)
    }

    /// Returns the cell at index `place` in row order.
    pub fn get_index(&self, index: usize) -> Cell
        requires { index < length self.now.cells }
        ensures { result ≡ slice_index_or self.now.cells index Unknown }
    {
        let (x, y) = self.column_and_row(index);
        self.get(x, y)
    }

    /// Replaces the cell in column `x` and row `y` by `cell`, which may also be unknown.
    #[tactic(auto, using(crate::proofs::RowLists::rows_read))]
    pub fn set(&mut self, x: u16, y: u16, cell: Cell)
        requires column { x < self.old.width }
        requires row { y < self.old.height }
        ensures { self.new
            ≡ record self.old { cells = slice_set self.old.cells (cell_index self.old x y) cell } }
    {
        let mut row = self.row(y);
        row.set(x, cell);
        self.write_row(y, &row);
    }

    /// Replaces the cell at index `place` in row order by `cell`, which may also be unknown.
    pub fn set_index(&mut self, index: usize, cell: Cell)
        requires { index < length self.old.cells }
        ensures { self.new ≡ record self.old { cells = slice_set self.old.cells index cell } }
    {
        let (x, y) = self.column_and_row(index);
        self.set(x, y, cell);
    }

    /// Replaces the cells of row `y` by those of `line`, which has to be as long as the row.
    #[tactic(auto, using(crate::proofs::StoredRows::counted))]
    pub fn write_row<W: BitSet>(&mut self, y: u16, line: &BitLine<W>)
        requires row { y < self.old.height }
        requires width { self.old.width ≡ length line.now }
        ensures row { self.new ≡ with_row self.old y line.now }
        ensures count { length self.old.cells ≡ self.old.width * self.old.height }
    {
        let index = usize::from(y);
        grow_to(&mut self.rows, index + 1);
        self.rows[index] = Row::of(line);
    }

    /// Replaces all cells by those of `lines`, one line for each row, from the top.
    pub fn write_rows<W: BitSet>(&mut self, lines: &[BitLine<W>])
        requires height { length lines.now ≡ self.old.height }
        requires widths { (y : ℕ) → y < length lines.now
            → length (slice_index_or lines.now y []) ≡ self.old.width }
        ensures { self.new ≡ record self.old { cells = cells_of_rows lines.now } }
    {
        write_all(&mut self.rows, lines);
    }

    /// Copies the cells of row `y` to `line`, which has to be as long as the row.
    #[tactic(auto, using(crate::proofs::RowLists::rows_read))]
    pub fn load_row<W: BitSet>(&self, y: u16, line: &mut BitLine<W>)
        requires row { y < self.now.height }
        requires width { self.now.width ≡ length line.old }
        ensures cells { line.new ≡ row_of self.now y }
        ensures count { length self.now.cells ≡ self.now.width * self.now.height }
    {
        line.load(&self.row(y));
    }

    /// Returns the number of known cells.
    pub fn known(&self) -> u32
        ensures { result ≡ count_by is_known self.now.cells }
    {
        let mut known = 0;
        for index in 0..usize::from(self.width()) * usize::from(self.height()) {
            if self.get_index(index).is_known() {
                known += 1;
            }
        }
        known
    }

    /// Returns the column and the row of the first unknown cell in row order, or `None` if the grid
    /// is full.
    pub fn first_unknown(&self) -> Option<(u16, u16)>
        ensures { result ≡ option_map (λ k. (k % self.now.width, k / self.now.width))
            (position is_unknown self.now.cells) }
    {
        for y in 0..self.height {
            if let Some(x) = self.row(y).first_unknown(0) {
                return Some((x, y));
            }
        }
        None
    }

    /// Returns a copy of the grid, or `NoMemory` if an allocation fails.
    pub fn copy(&self, alloc: Global) -> Result<Grid, NoMemory>
        ensures { IfOk result (λ g. g ≡ self.now) }
    {
        // A clone need not have the capacity for rows that were never written.
        let mut rows = self.rows.clone()?;
        rows.reserve(usize::from(self.height) - rows.len())?;
        Ok(Grid {
            width: self.width,
            height: self.height,
            rows,
        })
    }
}
