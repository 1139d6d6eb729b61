//! Fits: indices from which on a given number of consecutive indices are in a set.

ghost use Rattle.std.specs.Prelude.{◌^◌, ◌≡◌, ◌+◌, ◌<◌, ◌≤◌, ℕ, map};
ghost use Rattle.bit_sets.specs.Masks.{Has, IsMaskOf, AllFrom, IsFitTable};

use crate::BitSet;

/// The number of powers of two from 1 to 256. A fit table, and the masks that `spread_levels`
/// extends, have one level for each.
pub const LEVELS: usize = 9;

/// Returns each index `i` for which `i` and `i + by` are in `mask`.
pub fn and_shifted<W: BitSet>(mask: W, by: u16) -> W
    requires { by < W.WIDTH }
    ensures { IsMaskOf (λ i. Has (W.bits mask) i × Has (W.bits mask) (i + by))
        (W.bits result) }
{
    mask.intersection(mask.shifted_down(by))
}

/// Returns the level of a length, which is its logarithm to base 2, rounded down, and the rest: the
/// length less 2 to the power of the level.
pub fn level_of(length: u16) -> (usize, u16)
    requires { (0 < length) × (length ≤ 256) }
    ensures level { result.0 < 9 }
    ensures length { 2 ^ result.0 + result.1 ≡ length }
    ensures rest { result.1 < 2 ^ result.0 }
{
    // Setting the lowest bit doesn't change the level, and lets the compiler see that the argument
    // of the logarithm is not 0.
    let level = u32::from(length | 1).ilog2();
    (level as usize, length ^ (1 << level))
}

/// Returns the fit table of `mask`: level `k` has each index from which on `2^k` consecutive
/// indices are in the mask. Levels above `W::LOG2_WIDTH` are unspecified.
pub fn fit_table<W: BitSet>(mask: W) -> [W; LEVELS]
    ensures { IsFitTable (W.bits mask) W.LOG2_WIDTH (map W.bits result) }
{
    let mut table = [mask; LEVELS];
    for level in 0..W::LOG2_WIDTH {
        table[level + 1] = and_shifted(table[level], 1 << level);
    }
    table
}

/// Returns each index from which on `length` consecutive indices are in the mask whose fit table is
/// `table`.
pub fn fit_starts_in_table<W: BitSet>(table: &[W; LEVELS], length: u16) -> W
    requires { (0 < length) × (length ≤ W.WIDTH) }
    ensures { (mask : ℕ) → IsFitTable mask W.LOG2_WIDTH (map W.bits table.now)
        → IsMaskOf (AllFrom (Has mask) length) (W.bits result) }
{
    // Two stretches of `2^level` indices that overlap or touch make one of `length`.
    let (level, rest) = level_of(length);
    and_shifted(table[level], rest)
}

/// Returns each index from which on `length` consecutive indices are in `mask`. For one length this
/// costs less than a fit table.
pub fn fit_starts<W: BitSet>(mask: W, length: u16) -> W
    requires { (0 < length) × (length ≤ W.WIDTH) }
    ensures { IsMaskOf (AllFrom (Has (W.bits mask)) length) (W.bits result) }
{
    let mut starts = mask;
    let mut have = 1;
    while 2 * have <= length {
        starts = and_shifted(starts, have);
        have *= 2;
    }
    and_shifted(starts, length - have)
}
