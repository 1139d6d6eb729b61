//! Checks whether clues fit the lines of a grid.

ghost use Rattle.std.specs.Prelude.{◌≡◌, ◌+◌, ◌-◌, ◌<◌, ◌≤◌, ◌^◌, ◌++◌, sum, length, Some, None, IfSome, if◌then◌else◌};
ghost use Rattle.std.specs.List.{list_all};
ghost use Rattle.puzzle_text.specs.Orientation.{fits, sum_all};

use grid_core::{Clue, MAX_RUNS};

/// Returns the sum of a clue's numbers.
fn sum_of(numbers: &[u16]) -> u32
    requires { length numbers.now ≤ MAX_RUNS }
    ensures { result ≡ sum numbers.now }
{
    numbers.iter().map(|number| u32::from(*number)).sum()
}

/// Returns how many cells a clue fills, if it fits a line of `len` cells.
#[tactic(auto, using(crate::proofs::NumbersLemmas::clue_bounds))]
fn filled_within(len: u16, clue: &Clue) -> Option<u32>
    ensures cells { result ≡ (if fits len clue.now then Some (sum clue.now) else None) }
    ensures within { IfSome result (λ cells. cells ≤ 32768) }
{
    let numbers = clue.numbers();
    let cells = sum_of(numbers);
    // Runs have a blank cell between each two, one less than there are runs. That 1 is added on the
    // right instead, since for the empty clue the left side would be negative.
    (cells + numbers.len() as u32 <= u32::from(len) + 1).then_some(cells)
}

/// Returns how many cells these clues fill together, if each of them fits a line of `len` cells.
pub(crate) fn filled_if_fitting(len: u16, clues: &[Clue]) -> Option<u32>
    requires { length clues.now ≤ 65535 }
    ensures sum { result
        ≡ (if list_all (fits len) clues.now then Some (sum_all clues.now) else None) }
    ensures within { IfSome result (λ sum. sum < 2 ^ 31) }
{
    let mut sum = 0;
    for clue in clues {
        sum += filled_within(len, clue)?;
    }
    Some(sum)
}

/// Returns how many cells the clues of both lists fill together, if each of them fits a line of
/// `len` cells.
pub(crate) fn filled_if_both_fit(len: u16, first: &[Clue], second: &[Clue]) -> Option<u32>
    requires first { length first.now ≤ 65535 }
    requires second { length second.now ≤ 65535 }
    ensures { result ≡ (if list_all (fits len) (first.now ++ second.now)
        then Some (sum_all (first.now ++ second.now)) else None) }
{
    Some(filled_if_fitting(len, first)? + filled_if_fitting(len, second)?)
}
