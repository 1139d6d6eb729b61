//! A second implementation, for tests, of what `docs/solving.md` defines for grids ("Closure and
//! trials", "What is meant"), in the plainest way: by rounds. It shares nothing with the solver but
//! `Cell`, `Clue` and `Puzzle`.
//!
//! A grid is the list of its cells in row order, and `None` if it is dead.

use crate::oracle_lines::{Cells, deduced, full_lines};
use grid_core::{Cell, Clue, Puzzle};
use std::alloc::{AllocError, Global};

/// A row or a column: the indices of its cells, and the full lines whose runs are its clue.
#[derive(Drop)]
pub struct PlainLine {
    indices: Vec<usize>,
    full_lines: Vec<u64>,
}

/// Appends a line of `len` cells for each clue. The first cells of two lines in succession are
/// `apart` indices apart, and two cells in succession of one line are `step` indices apart.
fn push_lines(
    lines: &mut Vec<PlainLine>,
    alloc: Global,
    clues: &[Clue],
    len: u16,
    apart: usize,
    step: usize,
) -> Result<(), AllocError> {
    let mut first = 0usize;
    for clue in clues {
        let mut indices = Vec::new(alloc);
        let mut index = first;
        for _ in 0..len {
            indices.push(index)?;
            index = index.wrapping_add(step);
        }
        let full_lines = full_lines(alloc, len, clue.numbers())?;
        lines.push(PlainLine {
            indices,
            full_lines,
        })?;
        first = first.wrapping_add(apart);
    }
    Ok(())
}

/// Returns the rows of a puzzle and then its columns.
pub fn plain_lines(alloc: Global, puzzle: &Puzzle) -> Result<Vec<PlainLine>, AllocError> {
    let (width, height) = (puzzle.width(), puzzle.height());
    let across = usize::from(width);
    let mut lines = Vec::new(alloc);
    push_lines(&mut lines, alloc, puzzle.rows(), width, across, 1)?;
    push_lines(&mut lines, alloc, puzzle.columns(), height, 1, across)?;
    Ok(lines)
}

/// Assigns `colour` to the cell with index `index` if it is unknown. Returns false if the cell has
/// the other colour. If `colour` is unknown, nothing changes and the result is true.
fn assign(cells: &mut [Cell], index: usize, colour: Cell) -> bool {
    let Some(cell) = cells.get_mut(index) else {
        return false;
    };
    if cell.is_unknown() {
        *cell = colour;
    }
    colour.is_unknown() || *cell == colour
}

/// Returns the grid after a round, which deduces each line from `cells`. It is dead if a line is
/// dead, or if a row and a column deduce different colours of one cell.
fn after_round(
    alloc: Global,
    lines: &[PlainLine],
    cells: &[Cell],
) -> Result<Option<Cells>, AllocError> {
    let mut after = cells.to_vec(alloc)?;
    for line in lines {
        let mut known = Vec::new(alloc);
        for index in &line.indices {
            known.push(cells.get(*index).copied().unwrap_or(Cell::Unknown))?;
        }
        let Some(colours) = deduced(alloc, &known, &line.full_lines)? else {
            return Ok(None);
        };
        for (index, colour) in line.indices.iter().zip(&colours) {
            if !assign(&mut after, *index, *colour) {
                return Ok(None);
            }
        }
    }
    Ok(Some(after))
}

/// Returns the closure of a grid: the grid after rounds until one changes nothing.
pub fn closure(
    alloc: Global,
    lines: &[PlainLine],
    cells: &[Cell],
) -> Result<Option<Cells>, AllocError> {
    let mut now = cells.to_vec(alloc)?;
    // Each round but the last makes a cell known, so no more rounds are needed.
    for _ in 0..=cells.len() {
        match after_round(alloc, lines, &now)? {
            Some(after) if after == now => break,
            Some(after) => now = after,
            None => return Ok(None),
        }
    }
    Ok(Some(now))
}

/// Reports whether `colour` is refuted for the unknown cell with index `index`: the closure of the
/// grid with that colour there is dead.
fn is_refuted(
    alloc: Global,
    lines: &[PlainLine],
    cells: &[Cell],
    index: usize,
    colour: Cell,
) -> Result<bool, AllocError> {
    let mut tried = cells.to_vec(alloc)?;
    if let Some(cell) = tried.get_mut(index) {
        *cell = colour;
    }
    Ok(closure(alloc, lines, &tried)?.is_none())
}

/// Returns the grid after a trial round, which tries both colours of each unknown cell in `cells`,
/// assigns the other colour where one is refuted, and then takes the closure. It is dead if both
/// colours of a cell are refuted, or if the closure is dead.
fn after_trial_round(
    alloc: Global,
    lines: &[PlainLine],
    cells: &[Cell],
) -> Result<Option<Cells>, AllocError> {
    let mut after = Vec::new(alloc);
    for (index, cell) in cells.iter().enumerate() {
        if cell.is_known() {
            after.push(*cell)?;
            continue;
        }
        let no_filled = is_refuted(alloc, lines, cells, index, Cell::Filled)?;
        let no_blank = is_refuted(alloc, lines, cells, index, Cell::Blank)?;
        after.push(match (no_filled, no_blank) {
            (false, false) => Cell::Unknown,
            (false, true) => Cell::Filled,
            (true, false) => Cell::Blank,
            (true, true) => return Ok(None),
        })?;
    }
    closure(alloc, lines, &after)
}

/// Returns the grid closed under trials: the grid after trial rounds until one changes nothing.
pub fn trials(
    alloc: Global,
    lines: &[PlainLine],
    cells: &[Cell],
) -> Result<Option<Cells>, AllocError> {
    let mut now = cells.to_vec(alloc)?;
    // Each trial round but the last makes a cell known, so no more are needed.
    for _ in 0..=cells.len() {
        match after_trial_round(alloc, lines, &now)? {
            Some(after) if after == now => break,
            Some(after) => now = after,
            None => return Ok(None),
        }
    }
    Ok(Some(now))
}
