//! Sets of indices along a line, one for each colour.

ghost use Rattle.std.specs.Prelude.{◌≡◌, ◌<◌, ◌≤◌, ◌⊎◌, ℕ, length, replicate, slice_index_or, vec_capacity};
ghost use Rattle.grid_core.specs.declared.cells.Cell.{Cell as CellValue};
ghost use Rattle.grid_core.specs.declared.cells.Cell.TheVariants.{Unknown};
ghost use Rattle.bit_sets.specs.Masks.{Has, has, IsMaskOf};
ghost use Rattle.solve_core.specs.steps.ColourMasks.{mask_of, no_colours};

use bit_sets::BitSet;
use grid_core::Cell;
use line_core::BitLine;
use std::marker::Model;

/// A set of indices for filled, and one for blank.
#[derive(Drop)]
pub struct ColourSets<W: BitSet> {
    pub filled: W,
    pub blank: W,
}

impl<W: BitSet> Model for ColourSets<W> {
    ghost use Rattle.solve_core.specs.steps.ColourMasks.{ColourMasks};

    ghost Value = { ColourMasks };

    ghost view = { λ s. record { filled = W.bits s.filled; blank = W.bits s.blank } };
}

impl<W: BitSet> ColourSets<W> {
    /// Returns two empty sets.
    pub fn none() -> ColourSets<W>
        ensures { result ≡ no_colours }
    {
        ColourSets {
            filled: W::empty(),
            blank: W::empty(),
        }
    }

    /// Reports whether the set of `colour` has the index `place`; false if `colour` is unknown.
    pub fn contains(&self, index: u16, colour: Cell) -> bool
        requires { index < W.WIDTH }
        ensures { result ≡ has (mask_of colour self.now) index }
    {
        match colour {
            Cell::Unknown => false,
            Cell::Filled => self.filled.contains(index),
            Cell::Blank => self.blank.contains(index),
        }
    }

    /// Returns the indices that are in both sets.
    pub fn in_both(&self) -> W
        ensures { IsMaskOf (λ i. Has self.now.filled i × Has self.now.blank i) (W.bits result) }
    {
        self.filled.intersection(self.blank)
    }

    /// Adds `index` to the set of `colour`; does nothing if that is unknown.
    pub fn add(&mut self, index: u16, colour: Cell)
        requires { index < W.WIDTH }
        ensures only { (c : CellValue) (i : ℕ) → Has (mask_of c self.new) i
            → Has (mask_of c self.old) i ⊎ ((c ≡ colour) × (i ≡ index)) }
    {
        match colour {
            Cell::Unknown => {}
            Cell::Filled => self.filled = self.filled.with_bit(index, true),
            Cell::Blank => self.blank = self.blank.with_bit(index, true),
        }
    }

    /// Returns the indices that are in the sets of either.
    pub fn joined(&self, other: &ColourSets<W>) -> ColourSets<W> {
        ColourSets {
            filled: self.filled.union(other.filled),
            blank: self.blank.union(other.blank),
        }
    }

    /// Adds the known cells of `line`, each to the set of its colour.
    pub fn add_line(&mut self, line: &BitLine<W>)
        ensures only { (c : CellValue) (i : ℕ) → i < length line.now → Has (mask_of c self.new) i →
            Has (mask_of c self.old) i ⊎ (slice_index_or line.now i Unknown ≡ c) }
    {
        self.filled = self.filled.union(line.filled());
        self.blank = self.blank.union(line.blank());
    }
}

/// Adds to each of `sets` the indices of the one with the same number in `others`.
pub fn join_each<W: BitSet>(sets: &mut [ColourSets<W>], others: &[ColourSets<W>]) {
    for i in 0..sets.len() {
        if let Some(other) = others.get(i) {
            sets[i] = sets[i].joined(other);
        }
    }
}

/// Replaces the contents of `sets` by `count` pairs of empty sets. Allocates nothing: the
/// capacity has to be at least `count`.
pub fn fill_with_none<W: BitSet>(sets: &mut Vec<ColourSets<W>>, count: usize)
    requires { count ≤ vec_capacity sets.old }
    ensures sets { sets.new.items ≡ replicate count no_colours }
    ensures capacity { vec_capacity sets.new ≡ vec_capacity sets.old }
{
    sets.clear();
    for _ in 0..count {
        sets.push_reserved(ColourSets::none());
    }
}
