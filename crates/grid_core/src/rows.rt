//! The rows of a grid as they are stored: without their length, which is the grid's width.

ghost use Rattle.std.specs.Prelude.{◌≡◌, ◌≤◌, length};
ghost use Rattle.grid_core.specs.StoredRows.{IsStoredRow, row_cells, unknown_row};

use crate::BitLine;
use bit_sets::{BitSet, Bits256};

/// A row of a grid: the indices of its filled cells, and those of its blank cells.
#[derive(Clone, Copy, Debug)]
pub(crate) struct Row {
    filled: Bits256,
    blank: Bits256,
}

impl Row {
    /// Returns a row of unknown cells.
    pub(crate) fn unknown() -> Row
        ensures { result ≡ unknown_row }
    {
        Row {
            filled: Bits256::empty(),
            blank: Bits256::empty(),
        }
    }

    /// Returns the cells of `line` as a row.
    #[tactic(auto, using(crate::proofs::LineCells::length_seen), unfolding(crate::specs::StoredRows::IsStoredRow))]
    pub(crate) fn of<W: BitSet>(line: &BitLine<W>) -> Row
        ensures cells { row_cells (length line.now) result ≡ line.now }
        ensures row { IsStoredRow (length line.now) result }
    {
        Row {
            filled: line.filled.widened(),
            blank: line.blank.widened(),
        }
    }

    /// Returns the row as a line of `width` cells.
    #[tactic(auto, unfolding(crate::specs::StoredRows::IsStoredRow))]
    pub(crate) fn line(&self, width: u16) -> BitLine<Bits256>
        requires { IsStoredRow width self.now }
        ensures { result ≡ row_cells width self.now }
    {
        BitLine::from_sets(width, self.filled, self.blank)
    }
}
