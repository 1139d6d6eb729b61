//! Spreading: extending each index of a set downwards, by one length or by many lengths at once.

ghost use Rattle.std.specs.Prelude.{◌^◌, ◌≡◌, ◌+◌, ◌<◌, ◌≤◌, ◌⊎◌, ℕ, map};
ghost use Rattle.bit_sets.specs.Masks.{Has, IsMaskOf, SomeFrom, SomeLevel, AreLevelsOf};

use crate::BitSet;
use crate::fit_tables::{LEVELS, level_of};

/// Returns each index `i` for which `i` or `i + by` is in `mask`.
pub fn or_shifted<W: BitSet>(mask: W, by: u16) -> W
    requires { by < W.WIDTH }
    ensures { IsMaskOf (λ i. Has (W.bits mask) i ⊎ Has (W.bits mask) (i + by))
        (W.bits result) }
{
    mask.union(mask.shifted_down(by))
}

/// Adds `mask` to `levels` so that `spread_levels` later extends each of its indices downwards to
/// `length` indices. Level `k` extends by `2^k` indices, with `k` the greatest for which
/// `2^k <= length`; the remaining `length - 2^k` are added here, by a second, overlapping copy of
/// the mask.
pub fn add_spread<W: BitSet>(levels: &mut [W; LEVELS], mask: W, length: u16)
    requires { (0 < length) × (length ≤ W.WIDTH) }
    ensures { AreLevelsOf (λ i. SomeLevel W.LOG2_WIDTH (map W.bits levels.old) i
        ⊎ SomeFrom (Has (W.bits mask)) length i) W.LOG2_WIDTH (map W.bits levels.new) }
{
    let (level, rest) = level_of(length);
    levels[level] = levels[level].union(or_shifted(mask, rest));
}

/// Joins the mask of level `level + 1`, extended downwards by half of its length, `2^level`, to
/// that of `level`, which extends it by the other half.
fn spread_into<W: BitSet>(levels: &mut [W; LEVELS], level: usize)
    requires { level < W.LOG2_WIDTH }
    ensures { AreLevelsOf (SomeLevel (level + 1) (map W.bits levels.old)) level
        (map W.bits levels.new) }
{
    levels[level] = levels[level].union(or_shifted(levels[level + 1], 1 << level));
}

/// Returns each index `i` for which the mask of some level `k` has an element in `i..i + 2^k`.
/// Works from the top: each level is extended by half its length and joined to the level below.
/// Overwrites `levels`.
pub fn spread_levels<W: BitSet>(levels: &mut [W; LEVELS]) -> W
    ensures { IsMaskOf (SomeLevel W.LOG2_WIDTH (map W.bits levels.old)) (W.bits result) }
{
    for k in 0..W::LOG2_WIDTH {
        spread_into(levels, W::LOG2_WIDTH - 1 - k);
    }
    levels[0]
}

/// Returns each index `i` for which `mask` has an element in `i..i + length`.
pub fn spread<W: BitSet>(mask: W, length: u16) -> W
    requires { (0 < length) × (length ≤ W.WIDTH) }
    ensures { IsMaskOf (SomeFrom (Has (W.bits mask)) length) (W.bits result) }
{
    // Each iteration doubles the length by which the mask is spread. The last step adds the rest,
    // which is no longer than that, so that the two copies of the mask leave nothing out between
    // them.
    let mut spread = mask;
    let mut have = 1;
    while 2 * have <= length {
        spread = or_shifted(spread, have);
        have *= 2;
    }
    or_shifted(spread, length - have)
}
