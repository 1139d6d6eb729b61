//! The set operations of the prefix scan: the gaps between runs, and the ends of runs.

ghost use Rattle.std.specs.Prelude.{◌≡◌, ◌-◌, ◌<◌, ◌≤◌};
ghost use Rattle.bit_sets.specs.Masks.{Has, IsMaskOf, IsFlooded, IsShifted};

use bit_sets::BitSet;

/// Returns the gap before the first run: the cells from the first one on, as long as they can be
/// blank.
pub fn first_gap<W: BitSet>(not_filled: W) -> W
    ensures { IsMaskOf (IsFlooded
        (λ k. Has (W.bits not_filled) k × (k ≡ 0))
        (Has (W.bits not_filled))) (W.bits result) }
{
    W::flood(not_filled.intersection(W::first()), not_filled)
}

/// Returns the last cells of a run of `length` cells, one for each index of `starts` that is in
/// `fit_starts`, the indices from which `length` cells can be filled.
pub fn run_ends<W: BitSet>(starts: W, fit_starts: W, length: u16) -> W
    requires { (0 < length) × (length ≤ W.WIDTH) }
    ensures { IsMaskOf (IsShifted W.WIDTH
        (λ s. Has (W.bits starts) s × Has (W.bits fit_starts) s)
        (length - 1)) (W.bits result) }
{
    starts.intersection(fit_starts).shifted_up(length - 1)
}

/// Returns the gap after a run with the last cells `ends`: the cells after each of these, as long
/// as they can be blank.
#[tactic(auto, using(bit_sets::proofs::Doubling::one_within))]
pub fn gap_after<W: BitSet>(ends: W, not_filled: W) -> W
    ensures { IsMaskOf (IsFlooded
        (λ k. IsShifted W.WIDTH (Has (W.bits ends)) 1 k × Has (W.bits not_filled) k)
        (Has (W.bits not_filled))) (W.bits result) }
{
    W::flood(ends.shifted_up(1).intersection(not_filled), not_filled)
}
