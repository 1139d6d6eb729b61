//! The entries of a trail.
ghost use Rattle.std.specs.Prelude.{◌<◌, ℕ};
ghost use Rattle.bit_sets.specs.Masks.{Has};
ghost use Rattle.solve_core.specs.steps.Trails.{IsEntryOf};

use grid_core::Axis;
use line_core::LineBits;
use std::marker::Model;

/// A trail entry: a line that was assigned to, by its axis and its number, and its cells that
/// changed.
#[derive(Drop)]
pub struct TrailEntry<W: LineBits> {
    pub axis: Axis,
    pub line: u16,
    pub changes: W,
}

impl<W: LineBits> Model for TrailEntry<W> {
    ghost use Rattle.std.specs.Prelude.{◌<◌};
    ghost use Rattle.solve_core.specs.steps.Trails.{LineEntry};

    ghost Value = { LineEntry };

    ghost view = { λ s. record { axis = s.axis; line = s.line; changes = W.bits s.changes } };

    ghost invariant = { λ s. s.line < W.WIDTH };
}

impl<W: LineBits> TrailEntry<W> {
    /// Returns the rows in which cells changed: the line itself, or the rows that cross it at its
    /// changes.
    pub fn rows(&self) -> W
        ensures { (width height y : ℕ) → IsEntryOf width height self.now → Has (W.bits result) y
            → y < height }
    {
        match self.axis {
            Axis::Rows => W::empty().with_bit(self.line, true),
            Axis::Columns => self.changes,
        }
    }
}
