//! The cells in which two grids differ.

ghost use Rattle.std.specs.Prelude.{◌≡◌, ◌*◌, ◌<◌, ◌≤◌, IfOk};
ghost use Rattle.grid_core.specs.declared.limits.TheConstants.{MAX_SIDE};
ghost use Rattle.diagnosis.specs.Differences.{differing_cells, is_same_cell, position_at};

use grid_core::{Cell, Grid, NoMemory};
use std::alloc::Global;

/// The position of a cell in a grid.
#[derive(Clone, Copy, Debug, PartialEq, Eq)]
pub struct Position {
    /// The row, counted from 0 at the top.
    pub row: u16,
    /// The column, counted from 0 at the left.
    pub column: u16,
}

impl Position {
    /// Returns the position of the cell at `index` in row order, in a grid of `width` columns.
    pub(crate) fn of_index(width: u16, index: usize) -> Position
        requires width { 1 ≤ width }
        requires index { index < width * MAX_SIDE }
        ensures { result ≡ position_at width index }
    {
        let width = usize::from(width);
        Position {
            row: (index / width) as u16,
            column: (index % width) as u16,
        }
    }
}

/// Reports whether two cells are the same: both unknown, both filled or both blank.
fn is_same_cell(cell: Cell, other: Cell) -> bool
    ensures { result ≡ is_same_cell cell other }
{
    cell == other
}

/// Returns the positions of all cells in which two grids of one size differ, in row order. Fails
/// with `NoMemory` if an allocation fails.
pub fn differing_cells(
    alloc: Global,
    first: &Grid,
    second: &Grid,
) -> Result<Vec<Position>, NoMemory>
    requires width { second.now.width ≡ first.now.width }
    requires height { second.now.height ≡ first.now.height }
    ensures { IfOk result (λ cells. cells.items ≡ differing_cells first.now second.now) }
{
    let width = first.width();
    let mut found = Vec::new(alloc);
    for index in 0..usize::from(width) * usize::from(first.height()) {
        let position = Position::of_index(width, index);
        let Position { row, column } = position;
        if !is_same_cell(first.get(column, row), second.get(column, row)) {
            found.push(position)?;
        }
    }
    Ok(found)
}
