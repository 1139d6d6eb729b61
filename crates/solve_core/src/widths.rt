//! The set width that a puzzle is solved in.
ghost use Rattle.std.specs.Prelude.{◌≤◌, All, length, ℕ};
ghost use Rattle.grid_core.specs.declared.limits.TheConstants.{MAX_SIDE};
ghost use Rattle.line_core.specs.Widths.{bits_of_width};
ghost use Rattle.line_core.specs.declared.widths.SetWidth.{SetWidth};
ghost use Rattle.solve_core.specs.steps.Widths.{FitsIn};

use grid_core::Clue;
use line_core::{SetWidth, bits_needed};

/// Returns how many indices sets need to have at least `least`, and to fit each number of `clues`.
fn places_for_clues(clues: &[Clue], least: u16) -> u16
    requires { least ≤ MAX_SIDE }
    ensures least { least ≤ result }
    ensures clues { All (All (λ number. number ≤ result)) clues.now }
    ensures fewest { (bound : ℕ) → least ≤ bound → All (All (λ number. number ≤ bound)) clues.now
        → result ≤ bound }
    ensures most { result ≤ MAX_SIDE }
{
    let mut needed = least;
    for clue in clues {
        needed = bits_needed(needed, clue.numbers());
    }
    needed
}

/// Returns the least set width that fits the lines of the puzzle with the clues `rows` and
/// `columns`, and the numbers of these.
pub fn width_for(rows: &[Clue], columns: &[Clue]) -> SetWidth
    requires { (length rows.now ≤ MAX_SIDE) × (length columns.now ≤ MAX_SIDE) }
    ensures fits { FitsIn (bits_of_width result) rows.now columns.now }
    ensures least { (width : SetWidth) → FitsIn (bits_of_width width) rows.now columns.now
        → bits_of_width result ≤ bits_of_width width }
{
    let sides = rows.len().max(columns.len()) as u16;
    let needed = places_for_clues(rows, sides);
    SetWidth::of(places_for_clues(columns, needed))
}
