//! Lookahead: the support of a line after one more of its cells is known.

ghost use Rattle.std.specs.Prelude.{◌≡◌, ◌<◌, ◌≤◌, not, IsTrue};
ghost use Rattle.line_core.specs.steps.Lookahead.{LeavesUndecided};
ghost use Rattle.line_core.specs.Lookahead.{no_support, no_lookahead, masks_if};
ghost use Rattle.line_core.specs.steps.Combining.{AreMore, HasColour};
ghost use Rattle.line_core.specs.Support.{deduced_from};

use bit_sets::{BitSet, prefix};
use grid_core::BitLine;
use std::marker::Model;

/// The greatest length of a line, in cells, for which a lookahead table is built.
pub const MAX_LOOKAHEAD_LEN: u16 = 128;

/// The support of a line: the cells that are filled in some placing, and the cells that are blank
/// in some.
#[derive(Drop)]
pub struct Support<W: BitSet> {
    pub fillable: W,
    pub blankable: W,
}

impl<W: BitSet> Model for Support<W> {
    ghost use Rattle.line_core.specs.Lookahead.{SupportMasks};

    ghost Value = { SupportMasks };

    ghost view = { λ c.
        record { fillable = W.bits c.fillable; blankable = W.bits c.blankable } };
}

impl<W: BitSet> Support<W> {
    /// Returns the empty support, that of a dead line.
    pub fn none() -> Support<W>
        ensures { result ≡ no_support }
    {
        Support {
            fillable: W::empty(),
            blankable: W::empty(),
        }
    }

    /// Returns a copy of `self`.
    pub(crate) fn copied(&self) -> Support<W>
        ensures { result ≡ self.now }
    {
        Support {
            fillable: self.fillable,
            blankable: self.blankable,
        }
    }

    /// Returns the union with `more`, colour by colour.
    pub(crate) fn with(&self, more: &Support<W>) -> Support<W>
        ensures { AreMore (HasColour more.now) self.now result }
    {
        Support {
            fillable: self.fillable.union(more.fillable),
            blankable: self.blankable.union(more.blankable),
        }
    }

    /// Returns the deduced line of `len` cells with this support, in which each cell has the colour
    /// that it can only have; `None`, for a dead line, if the first cell is in the support in
    /// neither colour.
    pub fn deduced_from(&self, len: u16) -> Option<BitLine<W>>
        requires { (1 ≤ len) × (len ≤ W.WIDTH) }
        ensures { result ≡ deduced_from len self.now.fillable self.now.blankable }
    {
        // In a placing the first cell has a colour, so if it can take none there is no placing.
        if !self.fillable.union(self.blankable).contains(0) {
            return None;
        }
        let within = prefix(len);
        let filled = self
            .fillable
            .difference(self.blankable)
            .intersection(within);
        let blank = self
            .blankable
            .difference(self.fillable)
            .intersection(within);
        Some(BitLine::from_sets(len, filled, blank))
    }

    /// Reports whether the first cell is in the support in some colour, so that the line is alive,
    /// and each of `cells` is in both, so that it stays unknown.
    pub(crate) fn leaves_undecided(&self, cells: W) -> bool
        ensures { IsTrue result → LeavesUndecided self.now (W.bits cells) }
    {
        let both = self.fillable.intersection(self.blankable);
        self.fillable.union(self.blankable).contains(0) && cells.difference(both).is_empty()
    }
}

/// The support of a line after one of its unknown cells is filled, and after that cell is made
/// blank.
#[derive(Drop)]
pub struct Lookahead<W: BitSet> {
    pub if_filled: Support<W>,
    pub if_blank: Support<W>,
}

impl<W: BitSet> Model for Lookahead<W> {
    ghost use Rattle.line_core.specs.Lookahead.{LookaheadMasks};

    ghost Value = { LookaheadMasks };

    ghost view = { λ p. record { if_filled = p.if_filled; if_blank = p.if_blank } };
}

impl<W: BitSet> Lookahead<W> {
    /// Returns the pair of two empty supports.
    pub fn none() -> Lookahead<W>
        ensures { result ≡ no_lookahead }
    {
        Lookahead {
            if_filled: Support::none(),
            if_blank: Support::none(),
        }
    }

    /// Returns the support after the cell is filled, if `filled`, and otherwise the one after it is
    /// made blank.
    pub fn support_if(&self, filled: bool) -> &Support<W>
        ensures { result.now ≡ masks_if filled self.now }
    {
        if filled {
            &self.if_filled
        } else {
            &self.if_blank
        }
    }

    /// Adds `more` to the support after the cell is filled, if `filled`, and otherwise to the one
    /// after it is made blank.
    pub(crate) fn add_if(&mut self, filled: bool, more: &Support<W>)
        ensures more { AreMore (HasColour more.now)
            (masks_if filled self.old) (masks_if filled self.new) }
        ensures other { masks_if (not filled) self.new ≡ masks_if (not filled) self.old }
    {
        if filled {
            self.if_filled = self.if_filled.with(more);
        } else {
            self.if_blank = self.if_blank.with(more);
        }
    }
}
