//! A grid as rows and columns.
ghost use Rattle.std.specs.Prelude.{◌≡◌, ◌+◌, ◌-◌, ◌*◌, ◌<◌, ◌≤◌, ℕ, [], count_by, length, replicate, slice_index_or, slice_set, vec_capacity, IfOk};
ghost use Rattle.grid_core.specs.Cells.{is_known};
ghost use Rattle.grid_core.specs.steps.Axes.{line_count};
ghost use Rattle.grid_core.specs.PartialGrid.{IsSize};
ghost use Rattle.grid_core.specs.Rows.{cells_of_rows, row_of};
ghost use Rattle.grid_core.specs.declared.cells.Cell.TheVariants.{Unknown};
ghost use Rattle.grid_core.specs.declared.axes.Axis.TheVariants.{Rows, Columns};
ghost use Rattle.grid_core.specs.Lines.{IsUnknownCell, IsUnknownFrom};
ghost use Rattle.solve_core.specs.steps.GridLines.{unknown_lines, with_line, AreLinesOf, CanReplace};
ghost use Rattle.bit_sets.specs.Masks.{Has};
ghost use Rattle.solve_core.specs.steps.Boards.{board_without_trail, cells_along, IsWhole};
ghost use Rattle.solve_core.specs.Picks.{most_known};

use crate::grids::crossing_writes::write_changes;
use crate::picks::{RowSets, in_at_least, known_across, known_beside, most_known};
use bit_sets::next_index;
use grid_core::{Axis, Cell, Grid, NoMemory};
use line_core::{BitLine, LineBits};
use std::alloc::Global;
use std::marker::Model;

/// A grid that stores each row and each column as a line, so that no line has to be gathered cell
/// by cell. Each cell stands in its row and in its column. The capacities suffice for all grids
/// whose lines the sets fit.
pub struct GridLines<W: LineBits> {
    rows: Vec<BitLine<W>>,
    columns: Vec<BitLine<W>>,
    ghost capacity: { (W.WIDTH ≤ vec_capacity rows) × (W.WIDTH ≤ vec_capacity columns) },
}

/// Written by hand so that callers' proofs see one call: a derived drop is expanded at each exit of
/// each caller.
impl<W: LineBits> Drop for GridLines<W> {
    fn drop(self) {
        let GridLines {
            rows: _,
            columns: _,
        } = self;
    }
}

impl<W: LineBits> Model for GridLines<W> {
    ghost use Rattle.std.specs.Prelude.{length};
    ghost use Rattle.grid_core.specs.PartialGrid.{PartialGrid};
    ghost use Rattle.solve_core.specs.steps.GridLines.{AreLinesOf};
    ghost use Rattle.grid_core.specs.Rows.{cells_of_rows};

    ghost Value = { PartialGrid };

    ghost view = { λ g. record {
      width = length g.columns.items;
      height = length g.rows.items;
      cells = cells_of_rows g.rows.items;
    } };

    ghost invariant = { λ g. AreLinesOf (cells_of_rows g.rows.items) g.rows.items g.columns.items };
}

/// Replaces the contents of `lines` by `count` unknown lines of `len` cells each. Allocates nothing:
/// the capacity has to be at least `count`.
fn fill_with_unknown<W: LineBits>(lines: &mut Vec<BitLine<W>>, len: u16, count: u16)
    requires len { (1 ≤ len) × (len ≤ W.WIDTH) }
    requires capacity { count ≤ vec_capacity lines.old }
    ensures lines { lines.new.items ≡ replicate count (replicate len Unknown) }
    ensures capacity { vec_capacity lines.new ≡ vec_capacity lines.old }
{
    lines.clear();
    for _ in 0..count {
        lines.push_reserved(BitLine::unknown(len));
    }
}

/// Loads the rows of `grid`, a whole row at a time.
fn load_rows<W: LineBits>(rows: &mut [BitLine<W>], grid: &Grid)
    requires few { length rows.old ≤ 256 }
    requires count { length rows.old ≡ grid.now.height }
    requires lengths { (y : ℕ) → y < length rows.old
        → length (slice_index_or rows.old y []) ≡ grid.now.width }
    ensures rows { (y : ℕ) → y < length rows.old
        → slice_index_or rows.new y [] ≡ row_of grid.now y }
    ensures len { length rows.new ≡ length rows.old }
    ensures count { 0 < length rows.old → length grid.now.cells ≡ grid.now.width * grid.now.height }
{
    for y in 0..rows.len() {
        grid.load_row(y as u16, &mut rows[y]);
    }
}

/// Writes the cells of `row`, which is row `y`, into the columns.
fn write_across<W: LineBits>(columns: &mut [BitLine<W>], y: usize, row: &BitLine<W>)
    requires few { (length columns.old ≤ 256) × (y < 256) }
    requires count { length columns.old ≡ length row.now }
    requires lengths { (x : ℕ) → x < length columns.old
        → y < length (slice_index_or columns.old x []) }
    ensures cells { (x : ℕ) → x < length columns.old → slice_index_or columns.new x []
        ≡ slice_set (slice_index_or columns.old x []) y (slice_index_or row.now x Unknown) }
    ensures len { length columns.new ≡ length columns.old }
{
    for x in 0..columns.len() {
        columns[x].set(y as u16, row.get(x as u16));
    }
}

/// Writes the cells of all `rows` into the columns.
fn load_columns<W: LineBits>(columns: &mut [BitLine<W>], rows: &[BitLine<W>])
    requires few { (length columns.old ≤ 256) × (length rows.now ≤ 256) }
    requires rows { (y : ℕ) → y < length rows.now
        → length (slice_index_or rows.now y []) ≡ length columns.old }
    requires columns { (x : ℕ) → x < length columns.old
        → length (slice_index_or columns.old x []) ≡ length rows.now }
    ensures cells { (x y : ℕ) → x < length columns.old → y < length rows.now
        → slice_index_or (slice_index_or columns.new x []) y Unknown
        ≡ slice_index_or (slice_index_or rows.now y []) x Unknown }
    ensures lengths { (x : ℕ) → x < length columns.old
        → length (slice_index_or columns.new x []) ≡ length rows.now }
    ensures len { length columns.new ≡ length columns.old }
{
    for y in 0..rows.len() {
        write_across(columns, y, &rows[y]);
    }
}

/// Loads the cells of `grid` into `rows` and `columns`.
fn load_lines<W: LineBits>(rows: &mut [BitLine<W>], columns: &mut [BitLine<W>], grid: &Grid)
    requires lines { AreLinesOf (cells_of_rows rows.old) rows.old columns.old }
    requires width { grid.now.width ≡ length columns.old }
    requires height { grid.now.height ≡ length rows.old }
    ensures lines { AreLinesOf grid.now.cells rows.new columns.new }
    ensures rows { length rows.new ≡ length rows.old }
    ensures columns { length columns.new ≡ length columns.old }
{
    load_rows(rows, grid);
    load_columns(columns, rows);
}

impl<W: LineBits> RowSets for GridLines<W> {
    type Set = W;

    ghost grid = { λ g. g };

    fn row_len(&self) -> u16 {
        self.rows[0].len()
    }

    fn row_count(&self) -> usize {
        self.rows.len()
    }

    fn unknown_in_row(&self, y: usize) -> W {
        self.rows[y].unknown_cells()
    }
}

/// Returns how many cells of `line` are known.
fn known_in<W: LineBits>(line: &BitLine<W>) -> u32
    ensures { result ≡ count_by is_known line.now }
{
    let count = line.len();
    let mut unknown = 0;
    let mut from = 0;
    while let Some(place) = line.first_unknown(from) {
        unknown += 1;
        from = place + 1;
    }
    u32::from(count - unknown)
}

impl<W: LineBits> GridLines<W> {
    /// Returns a grid of one unknown cell. Fails with `NoMemory` if an allocation fails.
    pub fn new(alloc: Global) -> Result<GridLines<W>, NoMemory>
        ensures { IfOk result (λ lines. lines ≡ unknown_lines 1 1) }
    {
        let mut rows = Vec::with_capacity(alloc, usize::from(W::WIDTH))?;
        let mut columns = Vec::with_capacity(alloc, usize::from(W::WIDTH))?;
        fill_with_unknown(&mut rows, 1, 1);
        fill_with_unknown(&mut columns, 1, 1);
        Ok(GridLines { rows, columns })
    }

    /// Replaces the grid by an unknown one of `width` columns and `height` rows. Allocates nothing.
    pub fn reset(&mut self, width: u16, height: u16)
        requires size { IsSize width height }
        requires fits { (width ≤ W.WIDTH) × (height ≤ W.WIDTH) }
        ensures { self.new ≡ unknown_lines width height }
    {
        fill_with_unknown(&mut self.rows, width, height);
        fill_with_unknown(&mut self.columns, height, width);
    }

    /// Returns how many cells a row has.
    pub fn width(&self) -> usize
        ensures width { result ≡ self.now.width }
        ensures size { IsSize self.now.width self.now.height }
        ensures count { length self.now.cells ≡ self.now.width * self.now.height }
    {
        self.columns.len()
    }

    /// Returns how many cells a column has.
    pub fn height(&self) -> usize
        ensures { result ≡ self.now.height }
    {
        self.rows.len()
    }

    /// Returns how many cells the grid has, at most 65,536.
    pub fn count(&self) -> usize
        ensures count { result ≡ length self.now.cells }
        ensures size { IsSize self.now.width self.now.height }
        ensures product { length self.now.cells ≡ self.now.width * self.now.height }
        ensures within { length self.now.cells ≤ 65536 }
    {
        self.rows.len() * self.columns.len()
    }

    /// Returns how many cells of the grid are known.
    #[tactic(auto, using(crate::proofs::GridLineSteps::known_by_rows, crate::proofs::GridLineSteps::few_known))]
    pub fn known(&self) -> u32
        ensures { result ≡ count_by is_known self.now.cells }
    {
        self.rows.iter().map(|row| known_in(row)).sum()
    }

    /// Returns the unknown cells of row `y` that have at least `least`, 0 to 4, neighbours that are
    /// known or outside the grid.
    pub fn cells_by_known_neighbours(&self, y: usize, least: usize) -> W
        requires row { y < self.now.height }
        requires least { least ≤ 4 }
        ensures unknown { (x : ℕ) → Has (W.bits result) x
            → (x < self.now.width) × IsUnknownCell self.now.cells (y * self.now.width + x) }
        ensures each { least ≡ 0 → (x : ℕ) → x < self.now.width →
            IsUnknownCell self.now.cells (y * self.now.width + x) → Has (W.bits result) x }
        ensures fits { self.now.width ≤ W.WIDTH }
    {
        let len = self.row_len();
        let unknown = self.unknown_in_row(y);
        if least == 0 {
            return unknown;
        }
        let beside = known_beside(unknown, len);
        in_at_least(unknown, &beside, &known_across(self, y), least)
    }

    /// Returns the index of the first unknown cell in row order from index `from` on, if there is
    /// one.
    pub fn first_unknown(&self, from: usize) -> Option<usize>
        requires { from ≤ length self.now.cells }
        ensures { IsUnknownFrom self.now.cells from result }
    {
        let width = self.width();
        let mut column = from % width;
        for y in from / width..self.height() {
            if let Some(x) = next_index(self.cells_by_known_neighbours(y, 0), column as u16) {
                return Some(y * width + usize::from(x));
            }
            column = 0;
        }
        None
    }

    /// Returns the index of the unknown cell that has the most neighbours that are known or outside
    /// the grid, and of several the first in row order; `None` if the grid is full.
    pub fn most_known(&self) -> Option<usize>
        ensures { result ≡ most_known self.now.width self.now.cells }
    {
        most_known(self)
    }

    /// Returns line `i` of an axis.
    pub fn line(&self, axis: Axis, i: u16) -> &BitLine<W>
        requires { i < line_count axis self.now.width self.now.height }
        ensures cells { result.now ≡ cells_along (board_without_trail self.now) axis i }
        ensures whole { IsWhole (board_without_trail self.now) }
    {
        match axis {
            Axis::Rows => &self.rows[usize::from(i)],
            Axis::Columns => &self.columns[usize::from(i)],
        }
    }

    /// Replaces line `i` of an axis by `new`, which differs from it at most in the cells in
    /// `changes`, each of which is unknown before or afterwards. Writes these into the crossing
    /// lines too.
    // Inlined, since a call would pass the new line in memory, and the processor would wait for its
    // fields.
    #[inline(always)]
    pub fn replace_line(&mut self, axis: Axis, i: u16, new: &BitLine<W>, changes: W)
        requires fits { length new.now ≤ W.WIDTH }
        requires can { CanReplace self.old axis i new.now (W.bits changes) }
        ensures { self.new ≡ with_line self.old axis i new.now }
    {
        let place = usize::from(i);
        match axis {
            Axis::Rows => {
                self.rows[place].copy_from(new);
                write_changes(&mut self.columns, i, new, changes);
            }
            Axis::Columns => {
                self.columns[place].copy_from(new);
                write_changes(&mut self.rows, i, new, changes);
            }
        }
    }

    /// Loads the cells of `grid`, which has the same size.
    #[tactic(auto, using(crate::proofs::GridLineSteps::lines_cells, crate::proofs::Names::with_items_is))]
    pub fn load(&mut self, grid: &Grid)
        requires width { grid.now.width ≡ self.old.width }
        requires height { grid.now.height ≡ self.old.height }
        ensures lines { self.new ≡ grid.now }
        ensures count { length grid.now.cells ≡ grid.now.width * grid.now.height }
    {
        load_lines(&mut self.rows, &mut self.columns, grid);
    }

    /// Writes the cells into `grid`, which has the same size.
    pub fn write(&self, grid: &mut Grid)
        requires width { grid.old.width ≡ self.now.width }
        requires height { grid.old.height ≡ self.now.height }
        ensures { grid.new ≡ self.now }
    {
        grid.write_rows(&self.rows);
    }
}
