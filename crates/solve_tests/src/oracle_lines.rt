//! A second implementation, for tests, of what `docs/solving.md` defines for one line ("Lines",
//! "What is meant"), in the plainest way: by listing all full lines. It shares nothing with the
//! deduction but `Cell`.
//!
//! A full line is a number: bit `k` is set if cell `k` is filled.

use grid_core::Cell;
use std::alloc::{AllocError, Global};

/// The cells of a line from one end to the other, or those of a grid in row order.
pub type Cells = Vec<Cell>;

/// Returns the lengths of the runs of filled cells of a full line of `len` cells, in order.
pub fn runs(alloc: Global, len: u16, full: u64) -> Result<Vec<u16>, AllocError> {
    let mut lengths = Vec::new(alloc);
    let mut length = 0u16;
    let mut rest = full;
    for _ in 0..len {
        if rest % 2 == 1 {
            length = length.wrapping_add(1);
        } else if length > 0 {
            lengths.push(length)?;
            length = 0;
        }
        rest /= 2;
    }
    if length > 0 {
        lengths.push(length)?;
    }
    Ok(lengths)
}

/// Returns all full lines of `len` cells whose runs are `clue`. Tries all 2^`len` full lines, so
/// `len` has to be small.
pub fn full_lines(alloc: Global, len: u16, clue: &[u16]) -> Result<Vec<u64>, AllocError> {
    let mut lines = Vec::new(alloc);
    for full in 0..1u64.wrapping_shl(u32::from(len)) {
        let runs = runs(alloc, len, full)?;
        if runs.as_slice() == clue {
            lines.push(full)?;
        }
    }
    Ok(lines)
}

/// Reports whether a full line has the colour of each known cell of `line`.
fn agrees(full: u64, line: &[Cell]) -> bool {
    let mut rest = full;
    for cell in line {
        if cell.is_known() && *cell != Cell::from_filled(rest % 2 == 1) {
            return false;
        }
        rest /= 2;
    }
    true
}

/// Returns the deduced line: each cell has the colour that all placings share, and is unknown if
/// they differ. The placings are those of `full_lines`, the full lines of the clue, that agree with
/// `line`. `None` if there is no placing.
pub fn deduced(
    alloc: Global,
    line: &[Cell],
    full_lines: &[u64],
) -> Result<Option<Cells>, AllocError> {
    let mut has_placing = false;
    let mut sometimes_filled = 0u64;
    let mut sometimes_blank = 0u64;
    for full in full_lines {
        if agrees(*full, line) {
            has_placing = true;
            sometimes_filled = sometimes_filled | *full;
            sometimes_blank = sometimes_blank | !*full;
        }
    }
    if !has_placing {
        return Ok(None);
    }
    let mut cells = Vec::new(alloc);
    for _ in 0..line.len() {
        cells.push(
            match (sometimes_filled % 2 == 1, sometimes_blank % 2 == 1) {
                (true, false) => Cell::Filled,
                (false, true) => Cell::Blank,
                _ => Cell::Unknown,
            },
        )?;
        sometimes_filled /= 2;
        sometimes_blank /= 2;
    }
    Ok(Some(cells))
}
