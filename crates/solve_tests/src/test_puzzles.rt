//! Pseudorandom lines, grids and puzzles for tests, and small ones by number.

ghost use Rattle.std.specs.Prelude.{◌≡◌, ◌<◌, IfOk};
ghost use Rattle.grid_core.specs.PartialGrid.{IsSize};

use crate::oracle_lines::{Cells, runs};
use grid_core::{Cell, Clue, Grid, MAX_SIDE, NoMemory, Puzzle, Texts};
use std::alloc::{AllocError, Global};
use std::test::Fail;

/// A linear congruential generator of pseudorandom numbers, with its state.
#[derive(Drop)]
pub struct Draws(pub u64);

impl Draws {
    /// Returns the next number, of 31 bits.
    pub fn draw(&mut self) -> u64 {
        self.0 = self
            .0
            .wrapping_mul(6_364_136_223_846_793_005)
            .wrapping_add(1_442_695_040_888_963_407);
        self.0 >> 33
    }
}

/// Returns `count` cells, the digits of `number` in base 3 from the lowest on: 0 is unknown, 1
/// filled and 2 blank.
pub fn numbered_cells(alloc: Global, count: usize, number: u32) -> Result<Cells, AllocError> {
    let mut cells = Vec::new(alloc);
    let mut rest = number;
    for _ in 0..count {
        cells.push(match rest % 3 {
            0 => Cell::Unknown,
            1 => Cell::Filled,
            _ => Cell::Blank,
        })?;
        rest /= 3;
    }
    Ok(cells)
}

/// Appends `len` cells, of which about `known` of 64 are known: about 1 of 64 in the wrong colour,
/// all others in their colour in the full line whose filled cells are the lowest bits of `full`.
pub fn push_partly_known(
    cells: &mut Cells,
    len: usize,
    full: u64,
    known: u64,
    draws: &mut Draws,
) -> Result<(), AllocError> {
    let mut rest = full;
    for _ in 0..len {
        let filled = rest % 2 == 1;
        cells.push(match draws.draw() % 64 {
            0 => Cell::from_filled(!filled),
            draw if draw < known => Cell::from_filled(filled),
            _ => Cell::Unknown,
        })?;
        rest /= 2;
    }
    Ok(())
}

/// A full grid of up to 6 by 6 cells. Its rows are listed from the top; bit `x` of a row is set if
/// the cell in column `x` is filled, and the bits above the width have no meaning.
#[derive(Drop)]
pub struct Picture {
    pub width: u16,
    pub height: u16,
    rows: Vec<u64>,
}

impl Picture {
    /// Returns a pseudorandom picture. Each cell is filled with a probability of 1/4, 1/2 or 3/4,
    /// which is the same for all its cells.
    pub fn drawn(alloc: Global, draws: &mut Draws) -> Result<Picture, AllocError> {
        let width = (draws.draw() % 6) as u16 + 1;
        let height = (draws.draw() % 6) as u16 + 1;
        let chance = draws.draw() % 3;
        let mut rows = Vec::new(alloc);
        for _ in 0..height {
            let (some, other) = (draws.draw(), draws.draw());
            rows.push(match chance {
                0 => some & other,
                1 => some,
                _ => some | other,
            })?;
        }
        Ok(Picture {
            width,
            height,
            rows,
        })
    }

    /// Returns column `x` as a number: bit `y` is set if the cell in row `y` is filled.
    fn column(&self, x: u16) -> u64 {
        let mut full = 0u64;
        for row in self.rows.iter().rev() {
            let filled = row.wrapping_shr(u32::from(x)) % 2;
            full = full.wrapping_mul(2).wrapping_add(filled);
        }
        full
    }

    /// Returns a grid of which about 26 of 64 cells are known: about 1 of 64 in the wrong colour,
    /// the others as in the picture.
    pub fn partly_known(&self, alloc: Global, draws: &mut Draws) -> Result<Cells, AllocError> {
        let mut cells = Vec::new(alloc);
        for row in &self.rows {
            push_partly_known(&mut cells, usize::from(self.width), *row, 26, draws)?;
        }
        Ok(cells)
    }

    /// Returns the puzzle with the picture's clues. If `is_changed`, one row is drawn again after
    /// the row clues are taken and before the column clues are, so that the two may contradict each
    /// other.
    pub fn puzzle(
        &mut self,
        alloc: Global,
        is_changed: bool,
        draws: &mut Draws,
    ) -> Result<Puzzle, Fail> {
        let mut rows = Vec::new(alloc);
        for row in &self.rows {
            let lengths = runs(alloc, self.width, *row)?;
            rows.push(Clue::from_numbers(alloc, &lengths)?)?;
        }
        if is_changed {
            let index = draws.draw() as usize % self.rows.len().max(1);
            if let Some(row) = self.rows.get_mut(index) {
                *row = draws.draw();
            }
        }
        let mut columns = Vec::new(alloc);
        for x in 0..self.width {
            let lengths = runs(alloc, self.height, self.column(x))?;
            columns.push(Clue::from_numbers(alloc, &lengths)?)?;
        }
        Ok(Puzzle::new(self.width, self.height, rows, columns, Texts::none(), None)?)
    }
}

/// Clues of up to 4 cells. The first 2, 3 and 5 are all that fit on a line of 1, 2 and 3 cells, and
/// the next 1, 2 and 3 are all that need one cell more.
const CLUES: [&[u16]; 8] = [&[], &[1], &[2], &[3], &[1, 1], &[4], &[1, 2], &[2, 1]];

/// The sizes of all puzzles of up to 3 by 3 cells: width, height, and the number of choices of
/// their clues among `CLUES`.
pub static SIZES: [(u16, u16, u32); 9] = [
    (1, 1, 9),
    (2, 1, 45),
    (3, 1, 216),
    (1, 2, 45),
    (2, 2, 625),
    (3, 2, 8_000),
    (1, 3, 216),
    (2, 3, 8_000),
    (3, 3, 262_144),
];

/// Returns the clues of `count` lines of `len` cells, 1 to 3, that the lowest digits of `number`
/// choose. Removes these digits, and adds to `misfits` the number of clues that do not fit on their
/// lines.
pub fn chosen_clues(
    alloc: Global,
    count: u16,
    len: u16,
    number: &mut u32,
    misfits: &mut u32,
) -> Result<Vec<Clue>, Fail> {
    let mut clues = Vec::new(alloc);
    for _ in 0..count {
        let (fitting, choices) = match len {
            1 => (2, 3),
            2 => (3, 5),
            _ => (5, 8),
        };
        let index = *number % choices;
        *number /= choices;
        if fitting <= index {
            *misfits = misfits.wrapping_add(1);
        }
        clues.push(Clue::from_numbers(alloc, CLUES[index as usize])?)?;
    }
    Ok(clues)
}

/// Returns the clues with these numbers. `None` if some numbers are no clue, or if an allocation
/// fails.
fn clues_of(alloc: Global, lists: &[&[u16]]) -> Option<Vec<Clue>> {
    let mut clues = Vec::new(alloc);
    for numbers in lists {
        let clue = Clue::from_numbers(alloc, numbers).ok()?;
        clues.push(clue).ok()?;
    }
    Some(clues)
}

/// Returns the puzzle with these clues of its rows and of its columns. `None` if there is no such
/// puzzle, or if an allocation fails.
pub fn puzzle_with(alloc: Global, rows: &[&[u16]], columns: &[&[u16]]) -> Option<Puzzle> {
    let longest = usize::from(MAX_SIDE);
    if rows.len() > longest || columns.len() > longest {
        return None;
    }
    let width = columns.len() as u16;
    let height = rows.len() as u16;
    let rows = clues_of(alloc, rows)?;
    let columns = clues_of(alloc, columns)?;
    Puzzle::new(width, height, rows, columns, Texts::none(), None).ok()
}

/// Sets the cells of row `y` to those of `cells` from index `first` on; cells after the end of
/// `cells` become unknown.
fn set_row(grid: &mut Grid, y: u16, cells: &[Cell], first: usize)
    requires { y < grid.old.height }
    ensures width { grid.new.width ≡ grid.old.width }
    ensures height { grid.new.height ≡ grid.old.height }
{
    for x in 0..grid.width() {
        let index = first.wrapping_add(usize::from(x));
        let cell = cells.get(index).copied().unwrap_or(Cell::Unknown);
        grid.set(x, y, cell);
    }
}

/// Returns the grid of `width` by `height` cells with `cells` in row order; cells after the end of
/// `cells` are unknown.
pub fn grid_of(alloc: Global, width: u16, height: u16, cells: &[Cell]) -> Result<Grid, NoMemory>
    requires { IsSize width height }
    ensures width { IfOk result (λ grid. grid.width ≡ width) }
    ensures height { IfOk result (λ grid. grid.height ≡ height) }
{
    let mut grid = Grid::unknown(alloc, width, height)?;
    for y in 0..height {
        let first = usize::from(y).wrapping_mul(usize::from(width));
        set_row(&mut grid, y, cells, first);
    }
    Ok(grid)
}
