//! Compares the runs of filled cells with the beginning of a clue.

ghost use Rattle.std.specs.Prelude.{◌≡◌, ◌<◌, Bool, List, length, slice_index_or};
ghost use Rattle.bit_sets.specs.Masks.{IsMaskOf};
ghost use Rattle.line_core.specs.steps.CluePrefix.{IsFilled, IsCluePrefix, mirrored_if};
ghost use Rattle.line_core.specs.steps.Feasibility.{AreLengths};

use bit_sets::{BitSet, prefix};

/// Returns number `j` of `clue`, counted from 0 at its first number, or, if `MIRRORED`, at its last
/// one.
fn mirrored_number<const MIRRORED: bool>(clue: &[u16], j: usize) -> u16
    requires { j < length clue.now }
    ensures { result ≡ slice_index_or (mirrored_if MIRRORED clue.now) j 0 }
{
    if MIRRORED {
        clue[clue.len() - 1 - j]
    } else {
        clue[j]
    }
}

/// Compares the runs of `filled` with the first numbers of `clue`, or, if `MIRRORED`, with its last
/// ones in reverse order. Returns how many runs there are, or `None` if they are not the beginning
/// of the clue.
pub fn match_clue_prefix<W: BitSet, const MIRRORED: bool>(filled: W, clue: &[u16]) -> Option<usize>
    requires { AreLengths W.WIDTH clue.now }
    ensures { (cells : List Bool) → IsMaskOf (IsFilled cells) (W.bits filled)
        → IsCluePrefix cells (mirrored_if MIRRORED clue.now) result }
{
    let mut left = filled;
    let mut least = 0;
    for j in 0..clue.len() {
        if left.is_empty() {
            return Some(j);
        }
        let start = left.first_index();
        if start < least {
            return None;
        }
        let number = mirrored_number::<MIRRORED>(clue, j);
        // Flips as many cells as the number demands, which clears the run. If its length differs, a
        // cell remains at or below index `number`, where the next run may not start.
        left = left
            .shifted_down(start)
            .symmetric_difference(prefix(number));
        least = number + 1;
    }
    if !left.is_empty() {
        return None;
    }
    Some(clue.len())
}
