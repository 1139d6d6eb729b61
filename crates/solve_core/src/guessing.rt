//! The choice of the cell to guess next in a grid.

ghost use Rattle.std.specs.Prelude.{◌≡◌, ◌%◌, ◌/◌, option_map};
ghost use Rattle.solve_core.specs.Picks.{picked};

use crate::picks::{Pick, RowSets, most_known};
use bit_sets::Bits256;
use grid_core::Grid;

impl RowSets for Grid {
    type Set = Bits256;

    ghost grid = { λ g. g };

    fn row_len(&self) -> u16 {
        self.width()
    }

    fn row_count(&self) -> usize {
        usize::from(self.height())
    }

    #[tactic(auto, using(grid_core::proofs::RowLists::rows_read, grid_core::proofs::LineLaws::lines_lie))]
    fn unknown_in_row(&self, y: usize) -> Bits256 {
        self.row(y as u16).unknown_cells()
    }
}

/// Returns the column and the row, from 0, of the cell of `grid` that is to be guessed next by the
/// rule `pick`; `None` exactly if the grid is full. Allocates nothing.
pub fn next_guess(grid: &Grid, pick: Pick) -> Option<(u16, u16)>
    ensures { result ≡ option_map (λ k. (k % grid.now.width, k / grid.now.width))
        (picked pick grid.now.width grid.now.cells) }
{
    match pick {
        Pick::First => grid.first_unknown(),
        Pick::Most => {
            let place = most_known(grid)?;
            let width = usize::from(grid.width());
            Some(((place % width) as u16, (place / width) as u16))
        }
    }
}
