//! Reading the cells of a partly known grid, as a caller gives them.

ghost use Rattle.std.specs.Prelude.{◌≡◌, ◌*◌, length, Some, None, IfOk, if◌then◌else◌, option_map};
ghost use Rattle.puzzle_text.specs.Answers.{each_some};
ghost use Rattle.solve_core.specs.Report.{grid_of};
ghost use Rattle.nonograde_c.specs.GivenCells.{after_lf, after_line_end, cell_from_byte, cells_of, given_cells, joined_rows};

use grid_core::{Cell, Grid, NoMemory, Puzzle};
use std::alloc::Global;

/// Returns the cell for which a byte stands, if it stands for one.
fn cell_from_byte(byte: u8) -> Option<Cell>
    ensures { result ≡ cell_from_byte byte }
{
    match byte {
        b'#' => Some(Cell::Filled),
        b'.' => Some(Cell::Blank),
        b'?' => Some(Cell::Unknown),
        _ => None,
    }
}

/// Returns the bytes after an LF, which has to be the first one.
fn after_lf(bytes: &[u8]) -> Option<&[u8]>
    ensures { option_map (λ rest. rest.now) result ≡ after_lf bytes.now }
{
    match bytes {
        [b'\n', rest @ ..] => Some(rest),
        _ => None,
    }
}

/// Returns the bytes after the line end at the start: LF, CR LF, or the end of the bytes.
fn after_line_end(bytes: &[u8]) -> Option<&[u8]>
    ensures { option_map (λ rest. rest.now) result ≡ after_line_end bytes.now }
{
    match bytes {
        [] => Some(bytes),
        [b'\r', rest @ ..] => after_lf(rest),
        _ => after_lf(bytes),
    }
}

/// Returns the bytes of `height` rows of `width` bytes without the line ends, one of which has to
/// follow each row but the last; `None` if anything else stands between or after the rows. Fails
/// with `NoMemory` if an allocation does.
fn joined_rows(
    alloc: Global,
    width: usize,
    height: u16,
    bytes: &[u8],
) -> Result<Option<Vec<u8>>, NoMemory>
    ensures { IfOk result (λ rows. option_map (λ row. row.items) rows
        ≡ joined_rows width height bytes.now) }
{
    let mut rows = Vec::new(alloc);
    let mut rest = bytes;
    for _y in 0..height {
        let (row, below) = rest.split_at(width.min(rest.len()));
        rows.extend_from_slice(row)?;
        let Some(next) = after_line_end(below) else {
            return Ok(None);
        };
        rest = next;
    }
    if rest.is_empty() {
        Ok(Some(rows))
    } else {
        Ok(None)
    }
}

/// Replaces the cells of `grid` by those for which `bytes` stand, one for each cell. Returns
/// whether each byte stands for a cell; if not, the cells are unspecified.
fn write_cells(grid: &mut Grid, bytes: &[u8]) -> bool
    requires { length bytes.now ≡ length grid.old.cells }
    ensures cells { (if result then Some grid.new.cells else None)
        ≡ each_some cell_from_byte bytes.now }
    ensures width { grid.new.width ≡ grid.old.width }
    ensures height { grid.new.height ≡ grid.old.height }
{
    for (index, byte) in bytes.iter().enumerate() {
        let Some(cell) = cell_from_byte(*byte) else {
            return false;
        };
        grid.set_index(index, cell);
    }
    true
}

/// Returns the grid of the puzzle's size that has the cells for which `bytes` stand, if there is
/// one for each of its cells. Fails with `NoMemory` if an allocation does.
fn grid_of(alloc: Global, puzzle: &Puzzle, bytes: &[u8]) -> Result<Option<Grid>, NoMemory>
    ensures { IfOk result (λ grid. grid ≡ option_map (grid_of puzzle.now)
        (cells_of (puzzle.now.width * puzzle.now.height) bytes.now)) }
{
    let (width, height) = (puzzle.width(), puzzle.height());
    if bytes.len() != usize::from(width) * usize::from(height) {
        return Ok(None);
    }
    let mut grid = Grid::unknown(alloc, width, height)?;
    if write_cells(&mut grid, bytes) {
        Ok(Some(grid))
    } else {
        Ok(None)
    }
}

/// Returns the grid of the puzzle's size whose cells `bytes` give, if they give all of its cells
/// and nothing else (`given_cells`). Fails with `NoMemory` if an allocation does.
pub fn given_grid(alloc: Global, puzzle: &Puzzle, bytes: &[u8]) -> Result<Option<Grid>, NoMemory>
    ensures { IfOk result (λ grid. grid ≡ option_map (grid_of puzzle.now)
        (given_cells puzzle.now.width puzzle.now.height bytes.now)) }
{
    let (width, height) = (usize::from(puzzle.width()), puzzle.height());
    if bytes.len() == width * usize::from(height) {
        return grid_of(alloc, puzzle, bytes);
    }
    match joined_rows(alloc, width, height, bytes)? {
        Some(joined) => grid_of(alloc, puzzle, &joined),
        None => Ok(None),
    }
}
