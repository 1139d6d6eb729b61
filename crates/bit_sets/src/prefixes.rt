//! Sets of the first indices: all of them, those that a set lacks, and a set mirrored in them.

ghost use Rattle.std.specs.Prelude.{◌≡◌, ◌+◌, ◌-◌, ◌<◌, ◌≤◌, ℕ, false};
ghost use Rattle.bit_sets.specs.Masks.{Has, has, IsMaskOf};

use crate::BitSet;

/// Returns the set of the indices below `len`.
pub fn prefix<W: BitSet>(len: u16) -> W
    requires { (0 < len) × (len ≤ W.WIDTH) }
    ensures { IsMaskOf (λ i. i < len) (W.bits result) }
{
    W::full().shifted_down(W::WIDTH - len)
}

/// Returns the indices below `len` that are not in `mask`.
pub fn complement_within<W: BitSet>(mask: W, len: u16) -> W
    requires { (0 < len) × (len ≤ W.WIDTH) }
    ensures { IsMaskOf (λ i. (i < len) × (has (W.bits mask) i ≡ false)) (W.bits result) }
{
    prefix::<W>(len).difference(mask)
}

/// Returns `mask` mirrored in its first `len` indices: index `i` becomes `len - 1 - i`. Indices
/// from `len` on are dropped.
pub fn reversed_within<W: BitSet>(mask: W, len: u16) -> W
    requires { (0 < len) × (len ≤ W.WIDTH) }
    ensures { IsMaskOf (λ i. (i < len) × Has (W.bits mask) (len - 1 - i)) (W.bits result) }
{
    // Reversed in the whole width, the first `len` indices are the last ones.
    mask.reversed().shifted_down(W::WIDTH - len)
}
