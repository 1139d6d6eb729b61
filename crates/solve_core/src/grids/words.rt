//! The words of a bit set, of 64 indices each.
ghost use Rattle.std.specs.Prelude.{◌≡◌, ℕ, ◌+◌, ◌<◌, false};
ghost use Rattle.bit_sets.specs.Masks.{Has, IsWithBit, IsMaskOf};

use bit_sets::BitSet;
use line_core::LineBits;

/// How many indices a word has.
pub const WORD: u16 = 64;

/// Returns those of the 64 indices from `from` on that are in `set`, as a word in which they count
/// from 0.
pub fn word_from<W: LineBits>(set: W, from: u16) -> u64
    requires { from < W.WIDTH }
    ensures { IsMaskOf (λ i. (i < 64) × Has (W.bits set) (i + from)) result }
{
    u64::narrowed(set.shifted_down(from).widened())
}

/// Returns `word`, which isn't empty, without its first index.
pub fn without_first(word: u64) -> u64
    requires { 0 < word }
    ensures less { result < word }
    ensures rest { (k : ℕ) → Has word k → ((i : ℕ) → i < k → Has word i → ⊥)
        → IsMaskOf (IsWithBit (Has word) k false) result }
{
    // Clears the lowest bit in one step, without looking for it.
    word & (word - 1)
}
