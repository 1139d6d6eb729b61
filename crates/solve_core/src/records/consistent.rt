//! Consistent colours of a grid's cells: those that are known not to be refuted, and need no trial.
ghost use Rattle.std.specs.Prelude.{◌≡◌, ◌+◌, ◌*◌, ◌/◌, ◌%◌, ◌<◌, ◌≤◌, ◌↔◌, ℕ, List, Some, false, length, vec_capacity, IsTrue, IfOk, IfSome};
ghost use Rattle.grid_core.specs.declared.cells.Cell.{Cell as CellValue};
ghost use Rattle.grid_core.specs.Cells.{Extends};
ghost use Rattle.grid_core.specs.Lines.{IsUnknownCell};
ghost use Rattle.grid_core.specs.Nonogram.{Nonogram, lines_of};
ghost use Rattle.bit_sets.specs.Masks.{Has, IsMaskOf};
ghost use Rattle.solve_core.specs.Closure.{round};
ghost use Rattle.solve_core.specs.Trials.{is_refuted};
ghost use Rattle.solve_core.specs.steps.ConsistentColours.{AreBothRecorded, AreConsistent, AreRecordedFrom, IsRecorded};

use crate::grids::grid_lines::GridLines;
use crate::records::colour_sets::{ColourSets, fill_with_none, join_each};
use bit_sets::next_index;
use grid_core::{Axis, Cell, NoMemory};
use line_core::LineBits;
use std::alloc::Global;
use std::marker::Model;

/// For each row of a grid, the cells at which filled is recorded as consistent, and those at which
/// blank is, in buffers that are allocated once.
#[derive(Drop)]
pub struct ConsistentColours<W: LineBits> {
    rows: Vec<ColourSets<W>>,
    /// For each row, the colours that were recorded before more cells became known. Most of these
    /// still aren't refuted, so trials of them are postponed.
    postponed: Vec<ColourSets<W>>,
    ghost capacity: { (W.WIDTH ≤ vec_capacity rows) × (W.WIDTH ≤ vec_capacity postponed) },
}

impl<W: LineBits> Model for ConsistentColours<W> {
    ghost use Rattle.std.specs.Prelude.{List};
    ghost use Rattle.solve_core.specs.steps.ColourMasks.{ColourMasks};

    ghost Value = { List ColourMasks };

    ghost view = { λ o. o.rows.items };
}

impl<W: LineBits> ConsistentColours<W> {
    /// Returns a record for a grid of one row. Fails with `NoMemory` if an allocation fails.
    pub fn new(alloc: Global) -> Result<ConsistentColours<W>, NoMemory>
        ensures { IfOk result (λ colours. length colours ≡ 1) }
    {
        let mut colours = ConsistentColours {
            rows: Vec::with_capacity(alloc, usize::from(W::WIDTH))?,
            postponed: Vec::with_capacity(alloc, usize::from(W::WIDTH))?,
        };
        colours.reset(1);
        Ok(colours)
    }

    /// Replaces the record by an empty one for a grid of `height` rows. Allocates nothing.
    pub fn reset(&mut self, height: u16)
        requires { height ≤ W.WIDTH }
        ensures { length self.new ≡ height }
    {
        fill_with_none(&mut self.rows, usize::from(height));
        fill_with_none(&mut self.postponed, usize::from(height));
    }

    /// Clears the record, which is then correct for any grid. No colour is postponed.
    pub fn clear(&mut self)
        ensures consistent { (p : Nonogram) (cells : List CellValue)
            → AreConsistent p self.new cells }
        ensures rows { length self.new ≡ length self.old }
    {
        let count = self.postponed.len();
        fill_with_none(&mut self.postponed, count);
        let count = self.rows.len();
        fill_with_none(&mut self.rows, count);
    }

    /// Postpones the colours that are recorded, and clears the record, which is then correct for
    /// any grid.
    pub fn postpone(&mut self)
        ensures consistent { (p : Nonogram) (cells : List CellValue)
            → AreConsistent p self.new cells }
        ensures rows { length self.new ≡ length self.old }
    {
        join_each(&mut self.postponed, &self.rows);
        let count = self.rows.len();
        fill_with_none(&mut self.rows, count);
    }

    /// Reports whether `colour` is postponed at column `x` of row `y`.
    pub fn is_postponed(&self, x: u16, y: usize, colour: Cell) -> bool
        requires { x < W.WIDTH }
    {
        match self.postponed.get(y) {
            None => false,
            Some(row) => row.contains(x, colour),
        }
    }

    /// Reports whether `colour` is recorded as consistent at column `x` of row `y`.
    pub fn contains(&self, x: u16, y: usize, colour: Cell) -> bool
        requires column { x < W.WIDTH }
        requires row { y < length self.now }
        ensures { IsTrue result ↔ IsRecorded self.now x y colour }
    {
        self.rows[y].contains(x, colour)
    }

    /// Returns the columns at which no colour is left to try in row `y`: both are recorded as
    /// consistent or, unless `all`, postponed.
    fn settled(&self, y: usize, all: bool) -> W
        requires { y < length self.now }
        ensures { IsTrue all → IsMaskOf (λ x. AreBothRecorded self.now x y) (W.bits result) }
    {
        let row = &self.rows[y];
        if all {
            return row.in_both();
        }
        match self.postponed.get(y) {
            None => row.in_both(),
            Some(postponed) => row.joined(postponed).in_both(),
        }
    }

    /// Records `colour`, which must not be refuted there, as consistent at column `x` of row `y`.
    pub fn add(&mut self, x: u16, y: usize, colour: Cell)
        requires column { x < W.WIDTH }
        requires row { y < length self.old }
        ensures consistent { (p : Nonogram) (cells : List CellValue) → x < p.width
            → is_refuted (lines_of p) cells (y * p.width + x) colour ≡ false
            → AreConsistent p self.old cells → AreConsistent p self.new cells }
        ensures rows { length self.new ≡ length self.old }
    {
        self.rows[y].add(x, colour);
    }

    /// Records the colours of the known cells of `rows` as consistent. `lines` has to be closed and
    /// alive: then none of its colours is refuted in any grid that knows no more than it does.
    pub fn add_rows(&mut self, lines: &GridLines<W>, rows: W)
        requires rows { (y : ℕ) → Has (W.bits rows) y → y < lines.now.height }
        requires height { lines.now.height ≡ length self.old }
        ensures consistent { (p : Nonogram) (cells : List CellValue) → lines.now.width ≡ p.width →
            round (lines_of p) lines.now.cells ≡ Some lines.now.cells →
            Extends cells lines.now.cells →
            AreConsistent p self.old cells → AreConsistent p self.new cells }
        ensures rows { length self.new ≡ length self.old }
    {
        let mut left = rows;
        while !left.is_empty() {
            let y = left.first_index();
            left = left.with_bit(y, false);
            self.rows[usize::from(y)].add_line(lines.line(Axis::Rows, y));
        }
    }

    /// Returns the index of the first unknown cell in row order from index `from` on at which not
    /// both colours are recorded as consistent or, unless `all`, postponed, and that has at least
    /// `least`, 0 to 4, neighbours that are known or outside the grid. `None` if there is none.
    pub fn next_untried(
        &self,
        lines: &GridLines<W>,
        from: usize,
        least: usize,
        all: bool,
    ) -> Option<usize>
        requires height { lines.now.height ≡ length self.now }
        requires from { from ≤ length lines.now.cells }
        requires least { least ≤ 4 }
        ensures found { IfSome result (λ place.
            (from ≤ place) × IsUnknownCell lines.now.cells place) }
        ensures passed { IsTrue all → least ≡ 0
            → AreRecordedFrom self.now lines.now.width lines.now.cells from result }
    {
        let width = lines.width();
        let mut column = from % width;
        for y in from / width..lines.height() {
            let untried = lines
                .cells_by_known_neighbours(y, least)
                .difference(self.settled(y, all));
            if let Some(x) = next_index(untried, column as u16) {
                return Some(y * width + usize::from(x));
            }
            column = 0;
        }
        None
    }
}
