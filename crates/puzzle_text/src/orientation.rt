//! Decides which of the two sizes of a `.nin` text is the width.

ghost use Rattle.std.specs.Prelude.{◌≡◌, ◌+◌, ◌≤◌, ◌++◌, length, take, drop, true, IfOk};
ghost use Rattle.grid_core.specs.Nonogram.{plain};
ghost use Rattle.grid_core.specs.PartialGrid.{IsSize};
ghost use Rattle.puzzle_text.specs.Orientation.{is_admissible, orient, oriented_puzzle};
ghost use Rattle.puzzle_text.specs.Written.{is_ambiguous};

use crate::fitting::{filled_if_both_fit, filled_if_fitting};
use crate::parts::puzzle_from_parts;
use grid_core::{Clue, NoMemory, Puzzle, Texts};

/// Reports whether a puzzle of these sizes and clues is admissible: each clue fits its line, and
/// the row clues add up to as many filled cells as the column clues.
fn are_admissible(width: u16, height: u16, rows: &[Clue], columns: &[Clue]) -> bool
    requires rows { length rows.now ≤ 65535 }
    requires columns { length columns.now ≤ 65535 }
    ensures { result ≡ is_admissible (plain width height rows.now columns.now) }
{
    let in_rows = filled_if_fitting(width, rows);
    let in_columns = filled_if_fitting(height, columns);
    in_rows.is_some() && in_rows == in_columns
}

/// Reports whether the puzzle of these sizes is admissible whose row clues are the first `height`
/// clues, and whose column clues are the others.
fn is_admissible(width: u16, height: u16, clues: &[Clue]) -> bool
    requires length { length clues.now ≡ width + height }
    ensures { result ≡ is_admissible (oriented_puzzle width height clues.now) }
{
    let (rows, columns) = clues.split_at(usize::from(height));
    are_admissible(width, height, rows, columns)
}

/// Returns the puzzle of these sizes whose row clues are the first `height` clues, and whose column
/// clues are the others. Fails with `NoMemory` if an allocation fails.
fn oriented_puzzle(width: u16, height: u16, clues: Vec<Clue>) -> Result<Puzzle, NoMemory>
    requires size { IsSize width height }
    requires count { length clues.items ≡ width + height }
    ensures { IfOk result (λ p. p ≡ oriented_puzzle width height clues.items) }
{
    let mut rows = clues;
    let columns = rows.split_off(usize::from(height))?;
    Ok(puzzle_from_parts(width, height, rows, columns, Texts::none(), None))
}

/// Returns the puzzle of width `a` and height `b`, unless only the puzzle of width `b` and height
/// `a` is admissible. A puzzle is admissible if each clue fits its line and the row clues add up to
/// as many filled cells as the column clues.
pub(crate) fn orient(a: u16, b: u16, clues: Vec<Clue>) -> Result<Puzzle, NoMemory>
    requires size { IsSize a b }
    requires count { length clues.items ≡ a + b }
    ensures { IfOk result (λ p. p ≡ orient a b clues.items) }
{
    if !is_admissible(a, b, &clues) && is_admissible(b, a, &clues) {
        oriented_puzzle(b, a, clues)
    } else {
        oriented_puzzle(a, b, clues)
    }
}

/// Reports whether the puzzle would be admissible with its sizes exchanged: its rows would be the
/// first `width` of all clues, the row clues before the column clues.
fn is_other_admissible(width: u16, height: u16, rows: &[Clue], columns: &[Clue]) -> bool
    requires rows { length rows.now ≡ height }
    requires columns { length columns.now ≡ width }
    ensures { result ≡ is_admissible (oriented_puzzle height width (rows.now ++ columns.now)) }
{
    // The other puzzle's rows are the first and the third of these slices, its columns the second
    // and the fourth. So the clues don't have to be copied into one list.
    let (first, second) = rows.split_at(usize::from(width.min(height)));
    let (third, fourth) = columns.split_at(usize::from(width.saturating_sub(height)));
    let in_rows = filled_if_both_fit(height, first, third);
    let in_columns = filled_if_both_fit(width, second, fourth);
    in_rows.is_some() && in_rows == in_columns
}

/// Reports whether the puzzle's text in `.nin` would be read with the sizes exchanged.
pub(crate) fn is_ambiguous(puzzle: &Puzzle) -> bool
    ensures { result ≡ is_ambiguous puzzle.now }
{
    let (width, height) = (puzzle.width(), puzzle.height());
    let (rows, columns) = (puzzle.rows(), puzzle.columns());
    width != height
        && !are_admissible(width, height, rows, columns)
        && is_other_admissible(width, height, rows, columns)
}
