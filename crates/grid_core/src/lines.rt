//! Lines, stored as two bit sets.

ghost use Rattle.std.specs.Prelude.{◌≡◌, ◌≢◌, ℕ, ◌+◌, ◌<◌, ◌≤◌, ◌↔◌, ◌++◌, IsTrue, length, replicate, slice_index_or, slice_set, take, drop, true};
ghost use Rattle.grid_core.specs.declared.cells.Cell.TheVariants.{Blank, Filled, Unknown};
ghost use Rattle.grid_core.specs.Cells.{Extends, is_filled, is_known};
ghost use Rattle.grid_core.specs.declared.limits.TheConstants.{MAX_SIDE};
ghost use Rattle.bit_sets.specs.Masks.{Has, IsMaskOf, has};
ghost use Rattle.grid_core.specs.Lines.{IsChanged, IsUnknownCell, IsUnknownFrom, is_blank, line_cells, with_unknown_at};

use crate::Cell;
use bit_sets::{BitSet, Bits256, complement_within, next_index, prefix};
use std::marker::Model;

/// The cells of a line, stored as two sets of cell indices: the filled cells and the blank ones. A
/// line has from 1 to `W::WIDTH` cells. In contracts it is the list of its cells.
#[derive(Drop)]
pub struct BitLine<W: BitSet> {
    /// The number of cells. The field has the size of a 64-bit set, so that the most frequent lines
    /// have no padding, which LLVM would copy in pieces that overlap.
    len: usize,
    pub(crate) filled: W,
    pub(crate) blank: W,
}

impl<W: BitSet> Model for BitLine<W> {
    ghost use Rattle.std.specs.Prelude.{List};
    ghost use Rattle.grid_core.specs.declared.cells.Cell.{Cell as CellValue};
    ghost use Rattle.grid_core.specs.Lines.{line_cells, IsLine};

    ghost Value = { List CellValue };

    ghost view = { λ line. line_cells line.len (W.bits line.filled) (W.bits line.blank) };

    ghost invariant = { λ line. IsLine W.WIDTH line.len
        (W.bits line.filled) (W.bits line.blank) };
}

/// Reports whether `cell` is known to be blank.
fn is_blank(cell: Cell) -> bool
    ensures { result ≡ is_blank cell }
{
    matches!(&cell, Cell::Blank)
}

impl<W: BitSet> BitLine<W> {
    /// Returns a line of `len` unknown cells.
    #[tactic(auto, using(crate::proofs::LineCells::none_known))]
    pub fn unknown(len: u16) -> BitLine<W>
        requires { (1 ≤ len) × (len ≤ W.WIDTH) }
        ensures { result ≡ replicate len Unknown }
    {
        BitLine {
            len: usize::from(len),
            filled: W::empty(),
            blank: W::empty(),
        }
    }

    /// Returns the line of `len` cells that are filled at the indices in `filled` and blank at
    /// those in `blank`. No index may be in both sets, and none may be `len` or greater.
    pub fn from_sets(len: u16, filled: W, blank: W) -> BitLine<W>
        requires len { (1 ≤ len) × (len ≤ W.WIDTH) }
        requires apart { (i : ℕ) → Has (W.bits filled) i → Has (W.bits blank) i → ⊥ }
        requires filled_in { (i : ℕ) → Has (W.bits filled) i → i < len }
        requires blank_in { (i : ℕ) → Has (W.bits blank) i → i < len }
        ensures { result ≡ line_cells len (W.bits filled) (W.bits blank) }
    {
        BitLine {
            len: usize::from(len),
            filled,
            blank,
        }
    }

    /// Returns a copy of the line.
    pub fn copy(&self) -> BitLine<W>
        ensures { result ≡ self.now }
    {
        BitLine {
            len: self.len,
            filled: self.filled,
            blank: self.blank,
        }
    }

    /// Overwrites the cells with those of `other`, which has the same length.
    #[tactic(auto, using(crate::proofs::LineCells::length_seen))]
    pub fn copy_from(&mut self, other: &BitLine<W>)
        requires { length other.now ≡ length self.old }
        ensures { self.new ≡ other.now }
    {
        // Both sets are read before either is written, so that they are copied as one block.
        let (filled, blank) = (other.filled, other.blank);
        self.filled = filled;
        self.blank = blank;
    }

    /// Returns the number of cells, from 1 to 256.
    #[tactic(auto, using(crate::proofs::LineCells::length_seen))]
    pub fn len(&self) -> u16
        ensures len { result ≡ length self.now }
        ensures some { 1 ≤ length self.now }
        ensures fits { length self.now ≤ W.WIDTH }
        ensures within { length self.now ≤ MAX_SIDE }
    {
        self.len as u16
    }

    /// Returns the cell at index `i`.
    #[tactic(auto, using(crate::proofs::LineCells::seen))]
    pub fn get(&self, i: u16) -> Cell
        requires { i < length self.now }
        ensures { result ≡ slice_index_or self.now i Unknown }
    {
        if self.filled.contains(i) {
            Cell::Filled
        } else if self.blank.contains(i) {
            Cell::Blank
        } else {
            Cell::Unknown
        }
    }

    /// Replaces the cell at index `i` by `cell`, which may also be unknown.
    #[tactic(auto, using(crate::proofs::LineCells::length_seen))]
    pub fn set(&mut self, i: u16, cell: Cell)
        requires { i < length self.old }
        ensures { self.new ≡ slice_set self.old i cell }
    {
        self.filled = self.filled.with_bit(i, cell.is_filled());
        self.blank = self.blank.with_bit(i, is_blank(cell));
    }

    /// Returns the set of the indices of the filled cells.
    pub fn filled(&self) -> W
        ensures { IsMaskOf (λ i. slice_index_or self.now i Unknown ≡ Filled) (W.bits result) }
    {
        self.filled
    }

    /// Returns the set of the indices of the blank cells.
    pub fn blank(&self) -> W
        ensures { IsMaskOf (λ i. slice_index_or self.now i Unknown ≡ Blank) (W.bits result) }
    {
        self.blank
    }

    /// Returns the set of the indices of the unknown cells.
    #[tactic(auto, using(crate::proofs::LineCells::length_seen))]
    pub fn unknown_cells(&self) -> W
        ensures cells { IsMaskOf (IsUnknownCell self.now) (W.bits result) }
        ensures fits { length self.now ≤ W.WIDTH }
    {
        complement_within(self.filled.union(self.blank), self.len as u16)
    }

    /// Returns the index of the first unknown cell at or after index `from`, if there is one.
    pub fn first_unknown(&self, from: u16) -> Option<u16>
        requires { from ≤ length self.now }
        ensures { IsUnknownFrom self.now from result }
    {
        next_index(self.unknown_cells(), from)
    }

    /// Assigns the known `cell` to the cell at index `i`, which has to be unknown.
    #[tactic(auto, using(crate::proofs::LineCells::seen))]
    pub fn assign(&mut self, i: u16, cell: Cell)
        requires i { i < length self.old }
        requires unknown { slice_index_or self.old i Unknown ≡ Unknown }
        requires known { is_known cell ≡ true }
        ensures { self.new ≡ slice_set self.old i cell }
    {
        // Neither set has the index of an unknown cell, so only one of them changes.
        if cell.is_filled() {
            self.filled = self.filled.with_bit(i, true);
        } else {
            self.blank = self.blank.with_bit(i, true);
        }
    }

    /// Returns the line with the cells at the indices in `places` unknown.
    #[tactic(auto, using(crate::proofs::LineCells::length_line))]
    pub fn with_unknown(&self, indices: W) -> BitLine<W>
        ensures cells { result ≡ with_unknown_at (W.bits indices) self.now }
        ensures fits { length result ≤ W.WIDTH }
    {
        BitLine {
            len: self.len,
            filled: self.filled.difference(indices),
            blank: self.blank.difference(indices),
        }
    }

    /// Returns the line of the `len` cells from index `from` on.
    #[tactic(auto, using(crate::proofs::LineCells::length_seen))]
    pub fn slice(&self, from: u16, len: u16) -> BitLine<W>
        requires { (1 ≤ len) × (from + len ≤ length self.now) }
        ensures { result ≡ take len (drop from self.now) }
    {
        let filled = self.filled.shifted_down(from);
        let blank = self.blank.shifted_down(from);
        let indices = prefix(len);
        BitLine {
            len: usize::from(len),
            filled: filled.intersection(indices),
            blank: blank.intersection(indices),
        }
    }

    /// Returns the line with the cells from index `from` on replaced by those of `slice`, which has
    /// to know at least what the line knows of them.
    #[tactic(auto, using(crate::proofs::LineCells::length_seen))]
    pub fn with_slice(&self, from: u16, slice: &BitLine<W>) -> BitLine<W>
        requires within { from + length slice.now ≤ length self.now }
        requires more { Extends (take (length slice.now) (drop from self.now)) slice.now }
        ensures { result
            ≡ take from self.now ++ (slice.now ++ drop (from + length slice.now) self.now) }
    {
        // `slice` knows all that it replaces, so its sets are added and nothing is removed.
        BitLine {
            len: self.len,
            filled: self.filled.union(slice.filled.shifted_up(from)),
            blank: self.blank.union(slice.blank.shifted_up(from)),
        }
    }

    /// Returns the set of the indices at which `other`, which has the same length, differs.
    #[tactic(auto, using(crate::proofs::LineCells::length_seen))]
    pub fn diff(&self, other: &BitLine<W>) -> W
        requires { length other.now ≡ length self.now }
        ensures changes { IsMaskOf (IsChanged self.now other.now) (W.bits result) }
        ensures fits { length self.now ≤ W.WIDTH }
    {
        // No set has an index at or beyond the length, so the result needs no mask.
        let filled = self.filled.symmetric_difference(other.filled);
        let blank = self.blank.symmetric_difference(other.blank);
        filled.union(blank)
    }

    /// Reports whether `other` has the same cells.
    #[tactic(auto, using(crate::proofs::Changing::alike))]
    pub fn is_same(&self, other: &BitLine<W>) -> bool
        ensures { IsTrue result ↔ (self.now ≡ other.now) }
    {
        other.len == self.len && self.diff(other).is_empty()
    }

    /// Overwrites the cells with those of `other`, a line of the same length in the widest sets.
    #[tactic(auto, using(crate::proofs::LineCells::length_seen))]
    pub fn load(&mut self, other: &BitLine<Bits256>)
        requires { length other.now ≡ length self.old }
        ensures { self.new ≡ other.now }
    {
        self.filled = W::narrowed(other.filled);
        self.blank = W::narrowed(other.blank);
    }

    /// Returns a hash of the line's cells, for tables of lines. Equal lines have equal hashes,
    /// though the contract doesn't promise it; the length is not hashed.
    pub fn hash(&self) -> u64 {
        // The factors differ, so that exchanging the colours changes the hash.
        let filled = self.filled.hash_word().wrapping_mul(0x9e37_79b9_7f4a_7c15);
        let blank = self.blank.hash_word().wrapping_mul(0xd1b5_4a32_d192_ed03);
        filled.wrapping_add(blank)
    }

    /// Returns the line in sets of another width, which is at least the line's length.
    #[tactic(auto, using(crate::proofs::LineCells::seen))]
    pub fn resized<V: BitSet>(&self) -> BitLine<V>
        requires { length self.now ≤ V.WIDTH }
        ensures { result ≡ self.now }
    {
        BitLine {
            len: self.len,
            filled: V::narrowed(self.filled.widened()),
            blank: V::narrowed(self.blank.widened()),
        }
    }

    /// Returns the line in the widest sets.
    pub fn widened(&self) -> BitLine<Bits256>
        ensures { result ≡ self.now }
    {
        BitLine {
            len: self.len,
            filled: self.filled.widened(),
            blank: self.blank.widened(),
        }
    }
}
