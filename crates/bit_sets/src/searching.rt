//! Searching a set from an index on.

ghost use Rattle.std.specs.Prelude.{◌≤◌};
ghost use Rattle.bit_sets.specs.Masks.{IsFirstFrom};

use crate::BitSet;

/// Returns the first index of `set` that is `from` or greater, if there is one.
pub fn next_index<W: BitSet>(set: W, from: u16) -> Option<u16>
    requires { from ≤ W.WIDTH }
    ensures { IsFirstFrom W.WIDTH (W.bits set) from result }
{
    // A shift by the whole width isn't allowed.
    if from == W::WIDTH {
        return None;
    }
    let later = set.intersection(W::full().shifted_up(from));
    if later.is_empty() {
        return None;
    }
    Some(later.first_index())
}
