//! Pictures of two solutions side by side, with the cells in which they differ.

ghost use Rattle.std.specs.Prelude.{◌≡◌, ◌++◌, ◌+◌, ◌<◌, ◌≤◌, OnOk};
ghost use Rattle.grid_core.specs.declared.limits.TheConstants.{MAX_SIDE};
ghost use Rattle.survey_text.specs.Grids.{cell_byte};
ghost use Rattle.check_text.specs.Pictures.{cells_text, difference_byte, differences_text, picture_row, pictures};
ghost use Rattle.check_text.specs.Windows.{IsWindowOf};

use crate::windows::Window;
use grid_core::{Cell, Grid, NoMemory};
use puzzle_text::push_bytes;

/// Returns the printed byte of a cell: `?` if it is unknown, `#` if it is filled, `.` if it is
/// blank.
fn cell_byte(cell: Cell) -> u8
    ensures { result ≡ cell_byte cell }
{
    match cell {
        Cell::Unknown => b'?',
        Cell::Filled => b'#',
        Cell::Blank => b'.',
    }
}

/// Returns `*` if two cells differ, and `.` if not.
fn difference_byte(cell: Cell, other: Cell) -> u8
    ensures { result ≡ difference_byte cell other }
{
    if cell == other { b'.' } else { b'*' }
}

/// Appends the printed bytes of the cells of row `y` in the columns of `window`.
fn push_cells(text: &mut Vec<u8>, grid: &Grid, window: Window, y: u16) -> Result<(), NoMemory>
    requires columns { window.column + window.width ≤ grid.now.width }
    requires limit { grid.now.width ≤ MAX_SIDE }
    requires row { y < grid.now.height }
    ensures { OnOk result (text.new.items ≡ text.old.items ++ cells_text grid.now window y) }
{
    for step in 0..window.width {
        let x = window.column + step;
        text.push(cell_byte(grid.get(x, y)))?;
    }
    Ok(())
}

/// Appends, for each cell of row `y` in the columns of `window`, `*` if the grids differ in it and
/// `.` if not.
fn push_differences(
    text: &mut Vec<u8>,
    first: &Grid,
    second: &Grid,
    window: Window,
    y: u16,
) -> Result<(), NoMemory>
    requires columns { window.column + window.width ≤ first.now.width }
    requires limit { first.now.width ≤ MAX_SIDE }
    requires row { y < first.now.height }
    requires same_width { second.now.width ≡ first.now.width }
    requires same_height { second.now.height ≡ first.now.height }
    ensures { OnOk result (text.new.items
        ≡ text.old.items ++ differences_text first.now second.now window y) }
{
    for step in 0..window.width {
        let x = window.column + step;
        text.push(difference_byte(first.get(x, y), second.get(x, y)))?;
    }
    Ok(())
}

/// Appends row `y` of the three pictures: of the first grid, of the second, and of the cells in
/// which they differ.
fn push_picture_row(
    text: &mut Vec<u8>,
    first: &Grid,
    second: &Grid,
    window: Window,
    y: u16,
) -> Result<(), NoMemory>
    requires columns { window.column + window.width ≤ first.now.width }
    requires limit { first.now.width ≤ MAX_SIDE }
    requires row { y < first.now.height }
    requires same_width { second.now.width ≡ first.now.width }
    requires same_height { second.now.height ≡ first.now.height }
    ensures { OnOk result (text.new.items
        ≡ text.old.items ++ picture_row first.now second.now window y) }
{
    push_bytes(text, b"    ")?;
    push_cells(text, first, window, y)?;
    push_bytes(text, b"   ")?;
    push_cells(text, second, window, y)?;
    push_bytes(text, b"   ")?;
    push_differences(text, first, second, window, y)?;
    push_bytes(text, b"\n")
}

/// Appends three pictures side by side, each of the cells of `window`: of the first grid, of the
/// second, and of the cells in which they differ.
pub(crate) fn push_pictures(
    text: &mut Vec<u8>,
    first: &Grid,
    second: &Grid,
    window: Window,
) -> Result<(), NoMemory>
    requires within { IsWindowOf first.now window }
    requires same_width { second.now.width ≡ first.now.width }
    requires same_height { second.now.height ≡ first.now.height }
    ensures { OnOk result (text.new.items
        ≡ text.old.items ++ pictures first.now second.now window) }
{
    for step in 0..window.height {
        push_picture_row(text, first, second, window, window.row + step)?;
    }
    Ok(())
}
