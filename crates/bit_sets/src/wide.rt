//! Bit sets of 256 indices.
#![tactic(auto, using(crate::proofs::Halves::wholes))]

ghost use Rattle.std.specs.Prelude.{◌≡◌, ◌+◌, ◌*◌, ◌^◌, ◌<◌, ◌≤◌, ◌⊎◌, ℕ, refl};
ghost use Rattle.std.proofs.Common.{arith};
ghost use Rattle.bit_sets.specs.Masks.{Has, IsWithBit, IsMaskOf, bits_of};

use crate::BitSet;

/// A set of 256 indices in two halves: `low` has those below 128, and `high` the others, less 128.
#[derive(Clone, Copy, Debug)]
pub struct Bits256 {
    pub low: u128,
    pub high: u128,
}

impl BitSet for Bits256 {
    type Stored = Bits256;

    ghost bits = { bits_of };

    ghost stored_bits = { bits_of };

    ghost WIDTH = { 256 };

    ghost LOG2_WIDTH = { 8 };

    const WIDTH: u16 = 256;

    const LOG2_WIDTH: usize = 8;

    fn empty() -> Bits256 {
        Bits256 { low: 0, high: 0 }
    }

    #[tactic(auto, using(crate::proofs::WordSteps::full_256))]
    fn full() -> Bits256 {
        Bits256 {
            low: u128::MAX,
            high: u128::MAX,
        }
    }

    #[tactic(auto, using(crate::proofs::Halves::empty_halves))]
    fn is_empty(self) -> bool {
        (self.low | self.high) == 0
    }

    fn contains(self, index: u16) -> bool {
        if index < 128 {
            self.low.contains(index)
        } else {
            self.high.contains(index - 128)
        }
    }

    fn with_bit(self, index: u16, value: bool) -> Bits256 {
        if index < 128 {
            let low = self.low.with_bit(index, value);
            Bits256 { low, ..self }
        } else {
            let high = self.high.with_bit(index - 128, value);
            Bits256 { high, ..self }
        }
    }

    fn intersection(self, other: Bits256) -> Bits256 {
        let low = self.low.intersection(other.low);
        let high = self.high.intersection(other.high);
        Bits256 { low, high }
    }

    fn union(self, other: Bits256) -> Bits256 {
        let low = self.low.union(other.low);
        let high = self.high.union(other.high);
        Bits256 { low, high }
    }

    fn symmetric_difference(self, other: Bits256) -> Bits256 {
        let low = self.low.symmetric_difference(other.low);
        let high = self.high.symmetric_difference(other.high);
        Bits256 { low, high }
    }

    fn shifted_up(self, by: u16) -> Bits256 {
        // A shift by 0 is a case of its own: `over` would be shifted by the whole width of a half.
        if by == 0 {
            self
        } else if by < 128 {
            let over = self.low.shifted_down(128 - by);
            let low = self.low.shifted_up(by);
            let high = self.high.shifted_up(by).union(over);
            Bits256 { low, high }
        } else {
            let high = self.low.shifted_up(by - 128);
            Bits256 { low: 0, high }
        }
    }

    fn shifted_down(self, by: u16) -> Bits256 {
        if by == 0 {
            self
        } else if by < 128 {
            let over = self.high.shifted_up(128 - by);
            let low = self.low.shifted_down(by).union(over);
            let high = self.high.shifted_down(by);
            Bits256 { low, high }
        } else {
            let low = self.high.shifted_down(by - 128);
            Bits256 { low, high: 0 }
        }
    }

    fn flood(sources: Bits256, free: Bits256) -> Bits256 {
        // As for the narrower sets, with a sum of two halves.
        let low = free.low.wrapping_add(sources.low);
        let carry = u128::from(low < sources.low);
        let high = free.high.wrapping_add(sources.high).wrapping_add(carry);
        let changed = Bits256 { low, high }.symmetric_difference(free);
        changed.intersection(free).union(sources)
    }

    fn reversed(self) -> Bits256 {
        let low = self.high.reversed();
        let high = self.low.reversed();
        Bits256 { low, high }
    }

    fn first_index(self) -> u16 {
        if self.low == 0 {
            self.high.first_index() + 128
        } else {
            self.low.first_index()
        }
    }

    fn last_index(self) -> u16 {
        if self.high == 0 {
            self.low.last_index()
        } else {
            self.high.last_index() + 128
        }
    }

    fn narrowed(wide: Bits256) -> Bits256 {
        wide
    }

    fn widened(self) -> Bits256 {
        self
    }

    fn to_stored(self) -> Bits256 {
        self
    }

    fn from_stored(stored: Bits256) -> Bits256 {
        stored
    }

    fn hash_word(self) -> u64 {
        self.low.hash_word() ^ self.high.hash_word().rotate_left(17)
    }

    ghost width_is = { refl };

    ghost top_is = { (Prim.omega arith, Prim.omega arith) };

    ghost small = { Prim.omega arith };
}
