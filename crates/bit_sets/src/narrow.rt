//! Bit sets of 64 and of 128 indices, each in one word.
#![tactic(auto, using(crate::proofs::WordSteps::words))]

ghost use Rattle.std.specs.Prelude.{◌≡◌, ◌≢◌, ◌+◌, ◌*◌, ◌^◌, ◌<◌, ◌≤◌, ◌==◌, ◌⊎◌, ℕ, false, refl};
ghost use Rattle.std.proofs.Common.{arith};
ghost use Rattle.bit_sets.specs.Masks.{Has, has, IsMaskOf, IsReversed, IsShifted};

use crate::{BitSet, Bits256};

/// The stored form of a set of 128 indices: `low` has those below 64, and `high` the others, less
/// 64.
#[derive(Clone, Copy, Debug)]
pub struct WordPair {
    pub low: u64,
    pub high: u64,
}

impl WordPair {
    /// Returns the mirrored set.
    fn reversed(self) -> WordPair
        ensures { IsMaskOf (IsReversed 128 (Has (self.high * 2 ^ 64 + self.low)))
            (result.high * 2 ^ 64 + result.low) }
    {
        let low = self.high.reversed();
        let high = self.low.reversed();
        WordPair { low, high }
    }
}

/// Returns `mask` with each index in `low` exchanged with the one that is greater by `by`. No other
/// index is kept.
fn swap_pairs(mask: u64, low: u64, by: u16) -> u64
    requires { by < 64 }
    ensures { IsMaskOf (λ i. (Has mask (i + by) × Has low i)
        ⊎ IsShifted 64 (λ k. Has mask k × Has low k) by i) result }
{
    let lower = mask.shifted_down(by).intersection(low);
    let upper = mask.intersection(low).shifted_up(by);
    lower.union(upper)
}

impl BitSet for u64 {
    type Stored = u64;

    ghost bits = { λ word. word };

    ghost stored_bits = { λ word. word };

    ghost WIDTH = { 64 };

    ghost LOG2_WIDTH = { 6 };

    const WIDTH: u16 = 64;

    const LOG2_WIDTH: usize = 6;

    fn empty() -> u64 {
        0
    }

    fn full() -> u64 {
        u64::MAX
    }

    fn is_empty(self) -> bool {
        self == 0
    }

    fn contains(self, index: u16) -> bool {
        (self >> index) & 1 == 1
    }

    fn intersection(self, other: u64) -> u64 {
        self & other
    }

    fn union(self, other: u64) -> u64 {
        self | other
    }

    fn symmetric_difference(self, other: u64) -> u64 {
        self ^ other
    }

    fn shifted_up(self, by: u16) -> u64 {
        self << by
    }

    fn shifted_down(self, by: u16) -> u64 {
        self >> by
    }

    fn flood(sources: u64, free: u64) -> u64 {
        // The sum carries from each source upwards through adjacent free indices, and so changes
        // their bits. The sources are added in the end, since their own bits may be unchanged.
        let changed = free.wrapping_add(sources).symmetric_difference(free);
        changed.intersection(free).union(sources)
    }

    fn reversed(self) -> u64 {
        // By swaps of groups of 1, 2, 4 and so on up to 32 indices: with the library's
        // `reverse_bits` deductions take about five times as many instructions.
        let ones = swap_pairs(self, 0x5555555555555555, 1);
        let twos = swap_pairs(ones, 0x3333333333333333, 2);
        let fours = swap_pairs(twos, 0x0f0f0f0f0f0f0f0f, 4);
        let eights = swap_pairs(fours, 0x00ff00ff00ff00ff, 8);
        let sixteens = swap_pairs(eights, 0x0000ffff0000ffff, 16);
        swap_pairs(sixteens, 0x00000000ffffffff, 32)
    }

    fn first_index(self) -> u16 {
        self.trailing_zeros() as u16
    }

    fn last_index(self) -> u16 {
        self.ilog2() as u16
    }

    #[tactic(auto, using(crate::proofs::Halves::parts))]
    fn narrowed(wide: Bits256) -> u64 {
        (wide.low & 0xffffffffffffffff) as u64
    }

    fn widened(self) -> Bits256 {
        u128::from(self).widened()
    }

    fn to_stored(self) -> u64 {
        self
    }

    fn from_stored(stored: u64) -> u64 {
        stored
    }

    fn hash_word(self) -> u64 {
        self
    }

    ghost width_is = { refl };

    ghost top_is = { (Prim.omega arith, Prim.omega arith) };

    ghost small = { Prim.omega arith };
}

impl BitSet for u128 {
    type Stored = WordPair;

    ghost bits = { λ word. word };

    ghost stored_bits = { λ words. words.high * 2 ^ 64 + words.low };

    ghost WIDTH = { 128 };

    ghost LOG2_WIDTH = { 7 };

    const WIDTH: u16 = 128;

    const LOG2_WIDTH: usize = 7;

    fn empty() -> u128 {
        0
    }

    fn full() -> u128 {
        u128::MAX
    }

    fn is_empty(self) -> bool {
        self == 0
    }

    fn contains(self, index: u16) -> bool {
        (self >> index) & 1 == 1
    }

    fn intersection(self, other: u128) -> u128 {
        self & other
    }

    fn union(self, other: u128) -> u128 {
        self | other
    }

    fn symmetric_difference(self, other: u128) -> u128 {
        self ^ other
    }

    fn shifted_up(self, by: u16) -> u128 {
        self << by
    }

    fn shifted_down(self, by: u16) -> u128 {
        self >> by
    }

    fn flood(sources: u128, free: u128) -> u128 {
        let changed = free.wrapping_add(sources).symmetric_difference(free);
        changed.intersection(free).union(sources)
    }

    fn reversed(self) -> u128 {
        u128::from_stored(self.to_stored().reversed())
    }

    fn first_index(self) -> u16 {
        self.trailing_zeros() as u16
    }

    fn last_index(self) -> u16 {
        self.ilog2() as u16
    }

    #[tactic(auto, using(crate::proofs::Halves::parts))]
    fn narrowed(wide: Bits256) -> u128 {
        wide.low
    }

    fn widened(self) -> Bits256 {
        Bits256 { low: self, high: 0 }
    }

    fn to_stored(self) -> WordPair {
        WordPair {
            low: (self & 0xffffffffffffffff) as u64,
            high: (self >> 64) as u64,
        }
    }

    fn from_stored(stored: WordPair) -> u128 {
        ((stored.high as u128) << 64) | stored.low as u128
    }

    fn reverse_stored(stored: WordPair, len: u16) -> WordPair {
        // For full sets the words are reversed one by one, so that LLVM does an array of them two
        // words at a time.
        if len == 128 {
            return stored.reversed();
        }
        u128::from_stored(stored)
            .reversed()
            .shifted_down(128 - len)
            .to_stored()
    }

    fn hash_word(self) -> u64 {
        ((self >> 64) as u64) ^ ((self & 0xffffffffffffffff) as u64)
    }

    ghost width_is = { refl };

    ghost top_is = { (Prim.omega arith, Prim.omega arith) };

    ghost small = { Prim.omega arith };
}
