//! The trait of bit sets.

ghost use Rattle.std.specs.Prelude.{◌≡◌, ◌≢◌, ◌+◌, ◌-◌, ◌*◌, ◌^◌, ◌<◌, ◌≤◌, ◌==◌, ◌⊎◌, ℕ, false, refl};
ghost use Rattle.std.proofs.Common.{arith};
ghost use Rattle.std.specs.Mem.{type_size};
ghost use Rattle.bit_sets.specs.Masks.{Has, has, IsFlooded, IsWithBit, IsMaskOf, IsShifted, IsReversed, bits_of};

use crate::Bits256;

/// A set of indices below a fixed width, one bit each.
pub trait BitSet: Copy {
    /// The form in which arrays store a set. `u64` and `Bits256` are stored as they are, `u128` as
    /// two `u64`, which the processor loads and stores as a pair.
    type Stored: Copy;

    /// The bits of a set as one natural number.
    ghost bits: { Self → ℕ };

    /// The bits of a stored set as one natural number.
    ghost stored_bits: { Self.Stored → ℕ };

    /// The width: the number of indices that a set can have, which are less than it.
    ghost WIDTH: { ℕ };

    /// The logarithm of the width to base 2.
    ghost LOG2_WIDTH: { ℕ };

    /// The width: the number of indices that a set can have, which are less than it.
    const WIDTH: u16;

    /// The logarithm of the width to base 2.
    const LOG2_WIDTH: usize;

    /// Returns the empty set.
    fn empty() -> Self
        ensures { bits result ≡ 0 };

    /// Returns the set of index 0 alone.
    #[tactic(auto, using(crate::proofs::Doubling::one_within))]
    fn first() -> Self
        ensures { IsMaskOf (λ i. i ≡ 0) (bits result) }
    {
        Self::full().shifted_down(Self::WIDTH - 1)
    }

    /// Returns the set of all indices below the width.
    fn full() -> Self
        ensures { IsMaskOf (λ i. i < WIDTH) (bits result) };

    /// Reports whether the set is empty.
    fn is_empty(self) -> bool
        ensures { result ≡ (bits self == 0) };

    /// Reports whether `index` is in the set.
    fn contains(self, index: u16) -> bool
        requires { index < WIDTH }
        ensures { result ≡ has (bits self) index };

    /// Returns the set with `index` added if `value` is true, and removed if not.
    fn with_bit(self, index: u16, value: bool) -> Self
        requires { index < WIDTH }
        ensures { IsMaskOf (IsWithBit (Has (bits self)) index value) (bits result) }
    {
        let bit = Self::first().shifted_up(index);
        if value {
            self.union(bit)
        } else {
            self.difference(bit)
        }
    }

    /// Returns the indices that are in both sets.
    fn intersection(self, other: Self) -> Self
        ensures { IsMaskOf (λ i. Has (bits self) i × Has (bits other) i) (bits result) };

    /// Returns the indices that are in at least one of the sets.
    fn union(self, other: Self) -> Self
        ensures { IsMaskOf (λ i. Has (bits self) i ⊎ Has (bits other) i) (bits result) };

    /// Returns the indices that are in exactly one of the sets.
    fn symmetric_difference(self, other: Self) -> Self
        ensures { IsMaskOf (λ i. has (bits self) i ≢ has (bits other) i) (bits result) };

    /// Returns the indices that are in `self` and not in `other`.
    fn difference(self, other: Self) -> Self
        ensures { IsMaskOf (λ i. Has (bits self) i × (has (bits other) i ≡ false))
            (bits result) }
    {
        self.symmetric_difference(self.intersection(other))
    }

    /// Returns the set with `by` added to each index. Indices that would reach the width are
    /// dropped.
    fn shifted_up(self, by: u16) -> Self
        requires { by < WIDTH }
        ensures { IsMaskOf (IsShifted WIDTH (Has (bits self)) by) (bits result) };

    /// Returns the set with `by` subtracted from each index. Indices below `by` are dropped.
    fn shifted_down(self, by: u16) -> Self
        requires { by < WIDTH }
        ensures { IsMaskOf (λ i. Has (bits self) (i + by)) (bits result) };

    /// Returns the indices that are reached from those in `sources` by going upwards within `free`.
    /// All sources have to be free.
    fn flood(sources: Self, free: Self) -> Self
        requires { (i : ℕ) → Has (bits sources) i → Has (bits free) i }
        ensures { IsMaskOf (IsFlooded (Has (bits sources)) (Has (bits free))) (bits result) };

    /// Returns the mirrored set: index `i` becomes `WIDTH - 1 - i`.
    fn reversed(self) -> Self
        ensures { IsMaskOf (IsReversed WIDTH (Has (bits self))) (bits result) };

    /// Returns the least index of the set, which must not be empty.
    fn first_index(self) -> u16
        requires { 0 < bits self }
        ensures within { result < WIDTH }
        ensures in_mask { Has (bits self) result }
        ensures least { (i : ℕ) → Has (bits self) i → result ≤ i };

    /// Returns the greatest index of the set, which must not be empty.
    fn last_index(self) -> u16
        requires { 0 < bits self }
        ensures within { result < WIDTH }
        ensures in_mask { Has (bits self) result }
        ensures greatest { (i : ℕ) → Has (bits self) i → i ≤ result };

    /// Returns the set of those indices of `wide` that are below the width.
    fn narrowed(wide: Bits256) -> Self
        ensures { IsMaskOf (λ i. (i < WIDTH) × Has (bits_of wide) i) (bits result) };

    /// Returns the same indices as a set of the greatest width.
    fn widened(self) -> Bits256
        ensures { bits_of result ≡ bits self };

    /// Returns the stored form of the set.
    fn to_stored(self) -> Self::Stored
        ensures { stored_bits result ≡ bits self };

    /// Returns the set that is stored as `stored`.
    fn from_stored(stored: Self::Stored) -> Self
        ensures { bits result ≡ stored_bits stored };

    /// Returns a stored set mirrored in its first `len` indices: index `i` becomes `len - 1 - i`.
    /// Indices from `len` on are dropped.
    fn reverse_stored(stored: Self::Stored, len: u16) -> Self::Stored
        requires { (0 < len) × (len ≤ WIDTH) }
        ensures { IsMaskOf (λ i. (i < len) × Has (stored_bits stored) (len - 1 - i))
            (stored_bits result) }
    {
        let mirrored = Self::from_stored(stored).reversed();
        mirrored.shifted_down(Self::WIDTH - len).to_stored()
    }

    /// Returns a word that depends on all bits of the set, for hashing. Equal sets have equal
    /// words, though the contract doesn't promise it.
    fn hash_word(self) -> u64;

    /// The width is a power of two, and `LOG2_WIDTH` is its logarithm.
    ghost width_is: { WIDTH ≡ 2 ^ LOG2_WIDTH };

    /// The width is from 2 to 256.
    ghost top_is: { (1 ≤ LOG2_WIDTH) × (LOG2_WIDTH ≤ 8) };

    /// A set takes at most 32 bytes of memory.
    ghost small: { type_size Self.row ≤ 32 };
}
