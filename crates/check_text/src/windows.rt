//! The part of a grid that pictures show.

ghost use Rattle.std.specs.Prelude.{◌≡◌, ◌++◌, OnOk};
ghost use Rattle.check_text.specs.Windows.{first_position, is_whole, IsWindowOf, shown_range, window_around, window_heading, window_start};

use diagnosis::Position;
use grid_core::{Grid, NoMemory};
use puzzle_text::{push_bytes, push_number};

/// The most rows and the most columns that a picture shows.
const MAX_SHOWN: u16 = 24;

/// How many indices a window shows before the one that it is placed around.
const SHOWN_BEFORE: u16 = 11;

/// A rectangle of cells of a grid.
#[derive(Clone, Copy)]
pub(crate) struct Window {
    /// The first row, counted from 0 at the top.
    pub row: u16,
    /// The first column, counted from 0 at the left.
    pub column: u16,
    /// How many rows there are.
    pub height: u16,
    /// How many columns there are.
    pub width: u16,
}

/// Returns the first index that a window shows along a side of `side` cells, if it is placed around
/// `index`.
fn window_start(index: u16, side: u16) -> u16
    ensures { result ≡ window_start index side }
{
    let latest = side.saturating_sub(MAX_SHOWN);
    index.saturating_sub(SHOWN_BEFORE).min(latest)
}

/// Returns the position of the first differing cell; the upper left one if no cell differs.
pub(crate) fn first_position(cells: &[Position]) -> Position
    ensures { result ≡ first_position cells.now }
{
    match cells.first() {
        Some(position) => *position,
        None => Position { row: 0, column: 0 },
    }
}

impl Window {
    /// Returns a window of `grid` around a position: the whole grid, or 24 of its rows, or columns,
    /// if there are more.
    pub(crate) fn around(grid: &Grid, position: Position) -> Window
        ensures window { result ≡ window_around grid.now position }
        ensures within { IsWindowOf grid.now result }
    {
        let (height, width) = (grid.height(), grid.width());
        Window {
            row: window_start(position.row, height),
            column: window_start(position.column, width),
            height: height.min(MAX_SHOWN),
            width: width.min(MAX_SHOWN),
        }
    }

    /// Reports whether the window shows all cells of `grid`.
    fn is_whole(self, grid: &Grid) -> bool
        ensures { result ≡ is_whole grid.now self }
    {
        self.height == grid.height() && self.width == grid.width()
    }
}

/// Appends two numbers that are counted from 1, the first and the last of `count` from `start` on:
/// `12 to 35`.
fn push_range(text: &mut Vec<u8>, start: u16, count: u16) -> Result<(), NoMemory>
    ensures { OnOk result (text.new.items ≡ text.old.items ++ shown_range start count) }
{
    push_number(text, u64::from(start) + 1)?;
    push_bytes(text, b" to ")?;
    push_number(text, u64::from(start) + u64::from(count))
}

/// Appends the line above pictures of a part of `grid`, which states the rows and the columns of
/// `window`; nothing if the window shows all cells.
pub(crate) fn push_window_heading(
    text: &mut Vec<u8>,
    grid: &Grid,
    window: Window,
) -> Result<(), NoMemory>
    ensures { OnOk result (text.new.items ≡ text.old.items ++ window_heading grid.now window) }
{
    if window.is_whole(grid) {
        return Ok(());
    }
    push_bytes(text, b"    rows ")?;
    push_range(text, window.row, window.height)?;
    push_bytes(text, b", columns ")?;
    push_range(text, window.column, window.width)?;
    push_bytes(text, b":\n")
}
