//! Builds a puzzle from parts that are known to fit together.

ghost use Rattle.std.specs.Prelude.{◌≡◌, ◌*◌, true};
ghost use Rattle.grid_core.specs.Nonogram.{HasClueForEachLine, bools_of, is_goal};
ghost use Rattle.grid_core.specs.PartialGrid.{IsSize};

use grid_core::{Clue, Puzzle, Texts};

/// Returns the puzzle with these parts. The contract requires all that `Puzzle::new` checks, so
/// this never fails.
pub(crate) fn puzzle_from_parts(
    width: u16,
    height: u16,
    rows: Vec<Clue>,
    columns: Vec<Clue>,
    texts: Texts,
    goal: Option<Vec<bool>>,
) -> Puzzle
    requires size { IsSize width height }
    requires clues { HasClueForEachLine width height rows.items columns.items }
    requires goal { is_goal (width * height) (bools_of goal) ≡ true }
    ensures { result ≡ record {
      width = width;
      height = height;
      rows = rows.items;
      columns = columns.items;
      texts = texts;
      goal = bools_of goal;
    } }
{
    match Puzzle::new(width, height, rows, columns, texts, goal) {
        Ok(puzzle) => puzzle,
        Err(_) => unreachable!(),
    }
}
