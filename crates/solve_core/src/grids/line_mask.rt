//! Sets of a grid's lines.
ghost use Rattle.std.specs.Prelude.{◌≡◌, ◌<◌, ◌≤◌, ◌↔◌, ◌⊎◌, ℕ};
ghost use Rattle.grid_core.specs.declared.axes.Axis.{Axis as AxisValue};
ghost use Rattle.grid_core.specs.Nonogram.{crossing};
ghost use Rattle.grid_core.specs.steps.Axes.{line_count};
ghost use Rattle.bit_sets.specs.Masks.{Has, IsWithBit, IsMaskOf};
ghost use Rattle.solve_core.specs.steps.LineMasks.{mask_on, IsEmptyMask, IsInMask};

use bit_sets::prefix;
use grid_core::Axis;
use line_core::LineBits;
use std::marker::Model;

/// A set of a grid's lines: one bit set for the rows, and one for the columns.
#[derive(Drop)]
pub struct LineMask<W: LineBits> {
    rows: W,
    columns: W,
}

impl<W: LineBits> Model for LineMask<W> {
    ghost use Rattle.solve_core.specs.steps.LineMasks.{LineMasks};

    ghost Value = { LineMasks };

    ghost view = { λ m. record { rows = W.bits m.rows; columns = W.bits m.columns } };
}

impl<W: LineBits> LineMask<W> {
    /// Returns the empty set.
    pub fn none() -> LineMask<W>
        ensures { IsEmptyMask result }
    {
        LineMask {
            rows: W::empty(),
            columns: W::empty(),
        }
    }

    /// Returns the set of all rows and columns that the bit sets can hold.
    pub fn all() -> LineMask<W>
        ensures { (axis : AxisValue) (i : ℕ) → i < W.WIDTH → IsInMask result axis i }
    {
        LineMask {
            rows: W::full(),
            columns: W::full(),
        }
    }

    /// Becomes the set of all lines of a grid of `width` columns and `height` rows.
    pub fn set_all(&mut self, width: u16, height: u16)
        requires width { (1 ≤ width) × (width ≤ W.WIDTH) }
        requires height { (1 ≤ height) × (height ≤ W.WIDTH) }
        ensures { (axis : AxisValue) (i : ℕ)
            → IsInMask self.new axis i ↔ (i < line_count axis width height) }
    {
        self.rows = prefix(height);
        self.columns = prefix(width);
    }

    /// Adds line `i` of an axis if `wanted`, and otherwise removes it.
    pub fn set(&mut self, axis: Axis, i: u16, wanted: bool)
        requires { i < W.WIDTH }
        ensures own { IsMaskOf (IsWithBit (Has (mask_on axis self.old)) i wanted)
            (mask_on axis self.new) }
        ensures other { mask_on (crossing axis) self.new ≡ mask_on (crossing axis) self.old }
    {
        match axis {
            Axis::Rows => self.rows = self.rows.with_bit(i, wanted),
            Axis::Columns => self.columns = self.columns.with_bit(i, wanted),
        }
    }

    /// Adds `lines` of an axis.
    pub fn add(&mut self, axis: Axis, lines: W)
        ensures own { IsMaskOf (λ i. Has (mask_on axis self.old) i ⊎ Has (W.bits lines) i)
            (mask_on axis self.new) }
        ensures other { mask_on (crossing axis) self.new ≡ mask_on (crossing axis) self.old }
    {
        match axis {
            Axis::Rows => self.rows = self.rows.union(lines),
            Axis::Columns => self.columns = self.columns.union(lines),
        }
    }

    /// Returns a copy.
    pub fn copy(&self) -> LineMask<W>
        ensures { result ≡ self.now }
    {
        LineMask {
            rows: self.rows,
            columns: self.columns,
        }
    }

    /// Returns those lines of an axis that are in the set.
    pub fn on(&self, axis: Axis) -> W
        ensures { W.bits result ≡ mask_on axis self.now }
    {
        match axis {
            Axis::Rows => self.rows,
            Axis::Columns => self.columns,
        }
    }
}
