//! A second implementation, for tests, of how `docs/solving.md` defines the cell that a rule picks
//! ("The search"). It shares nothing with the solver but `Cell` and `Pick`.

use grid_core::Cell;
use solve_core::Pick;

/// Reports whether the cell in column `x` and row `y` is known or outside the grid.
fn is_known_or_outside(width: u16, cells: &[Cell], x: u16, y: u16) -> bool {
    let index = usize::from(y)
        .wrapping_mul(usize::from(width))
        .wrapping_add(usize::from(x));
    match cells.get(index) {
        Some(cell) if x < width => cell.is_known(),
        _ => true,
    }
}

/// Returns how many of a cell's four neighbours are known or outside the grid.
fn known_neighbours(width: u16, cells: &[Cell], x: u16, y: u16) -> u32 {
    let mut count = 0u32;
    // Left of column 0 and above row 0 the number wraps to 65,535, which is outside each grid.
    for (x, y) in [
        (x.wrapping_sub(1), y),
        (x.wrapping_add(1), y),
        (x, y.wrapping_sub(1)),
        (x, y.wrapping_add(1)),
    ] {
        if is_known_or_outside(width, cells, x, y) {
            count = count.wrapping_add(1);
        }
    }
    count
}

/// Returns the column and the row of the cell that `pick` picks in a grid of `width` by `height`
/// cells: by `First` the first unknown cell in row order, by `Most` the first of those with the
/// most known neighbours. `None` if no cell is unknown.
pub fn picked(pick: Pick, width: u16, height: u16, cells: &[Cell]) -> Option<(u16, u16)> {
    let mut best = None;
    let mut most = 0u32;
    for y in 0..height {
        for x in 0..width {
            let count = match pick {
                Pick::First => 0,
                Pick::Most => known_neighbours(width, cells, x, y),
            };
            let is_better = best.is_none() || count > most;
            if is_better && !is_known_or_outside(width, cells, x, y) {
                best = Some((x, y));
                most = count;
            }
        }
    }
    best
}
