//! The finding on a puzzle with at least two solutions.

ghost use Rattle.std.specs.Prelude.{◌≡◌, ◌*◌, ◌++◌, OnOk};
ghost use Rattle.diagnosis.specs.Differences.{differing_cells};
ghost use Rattle.check_text.specs.Findings.{finding};
ghost use Rattle.check_text.specs.Ambiguity.{ambiguity, ambiguity_text, shown_solutions};

use crate::heads::{Level, push_head};
use crate::numbers::{push_cell_count, push_grouped};
use crate::pictures::push_pictures;
use crate::windows::{Window, first_position, push_window_heading};
use diagnosis::Position;
use grid_core::{Grid, NoMemory};
use puzzle_text::push_bytes;
use std::alloc::Global;

/// Appends that there are two solutions, with the number of cells in which they differ and the
/// number of all cells.
pub(crate) fn push_ambiguity_text(
    text: &mut Vec<u8>,
    alloc: Global,
    differing: usize,
    first: &Grid,
) -> Result<(), NoMemory>
    ensures { OnOk result (text.new.items
        ≡ text.old.items ++ ambiguity_text differing (first.now.width * first.now.height)) }
{
    let cells = u64::from(first.width()) * u64::from(first.height());
    push_bytes(text, b"at least two solutions, which differ in ")?;
    push_grouped(text, alloc, differing as u64)?;
    push_bytes(text, b" of ")?;
    push_cell_count(text, alloc, cells)
}

/// Appends the finding that a puzzle has at least two solutions, with the number of cells in which
/// they differ, without pictures.
fn push_ambiguity_line(
    text: &mut Vec<u8>,
    alloc: Global,
    name: &[u8],
    differing: usize,
    first: &Grid,
) -> Result<(), NoMemory>
    ensures { OnOk result (text.new.items ≡ text.old.items ++ finding name.now Level.Error
        (ambiguity_text differing (first.now.width * first.now.height))) }
{
    push_head(text, name, None, Level::Error)?;
    push_ambiguity_text(text, alloc, differing, first)?;
    push_bytes(text, b"\n")
}

/// Appends pictures of two solutions and of the cells in which they differ: of whole grids, or of a
/// window around the first differing cell, with a line above that states which rows and columns it
/// shows.
fn push_shown_solutions(
    text: &mut Vec<u8>,
    first: &Grid,
    second: &Grid,
    cells: &[Position],
) -> Result<(), NoMemory>
    requires cells { cells.now ≡ differing_cells first.now second.now }
    requires width { second.now.width ≡ first.now.width }
    requires height { second.now.height ≡ first.now.height }
    ensures { OnOk result (text.new.items
        ≡ text.old.items ++ shown_solutions first.now second.now) }
{
    let window = Window::around(first, first_position(cells));
    push_window_heading(text, first, window)?;
    push_pictures(text, first, second, window)
}

/// Appends the finding that a puzzle has these two solutions, which differ in `cells`, and pictures
/// of them. Fails with `NoMemory` if an allocation fails.
pub(crate) fn push_ambiguity(
    text: &mut Vec<u8>,
    alloc: Global,
    name: &[u8],
    first: &Grid,
    second: &Grid,
    cells: &[Position],
) -> Result<(), NoMemory>
    requires cells { cells.now ≡ differing_cells first.now second.now }
    requires width { second.now.width ≡ first.now.width }
    requires height { second.now.height ≡ first.now.height }
    ensures { OnOk result (text.new.items
        ≡ text.old.items ++ ambiguity name.now first.now second.now) }
{
    push_ambiguity_line(text, alloc, name, cells.len(), first)?;
    push_shown_solutions(text, first, second, cells)
}
