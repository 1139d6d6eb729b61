//! The prefix scan: goes over the runs of a line from left to right, in a few set operations each.

ghost use Rattle.std.specs.Prelude.{◌≡◌, ◌<◌, ◌≤◌, ℕ, List, [], ◌∷◌, map};
ghost use Rattle.grid_core.specs.declared.cells.Cell.{Cell};
ghost use Rattle.bit_sets.specs.Masks.{IsMaskOf, IsFitTable};
ghost use Rattle.line_core.specs.steps.Feasibility.{IsEndAfter};
ghost use Rattle.line_core.specs.steps.PrefixScan.{IsDomainOf, IsScanOver};

use crate::domains::LineDomain;
use crate::gaps::{first_gap, gap_after, run_ends};
use bit_sets::{BitSet, LEVELS, fit_starts_in_table};

/// The state of a prefix scan, which goes over the runs of a line from left to right.
#[derive(Drop)]
pub struct PrefixScan<W: BitSet> {
    /// The cells of the line that are not known to be filled.
    not_filled: W,
    /// The indices at which the next run may start, as far as the cells before allow: those right
    /// after a cell of the gap, and, as long as no run has been passed, the first cell.
    starts: W,
    /// The prefix gap after the runs that were passed: the cells that can be blank with exactly
    /// these runs before them.
    gap: W,
}

impl<W: BitSet> PrefixScan<W> {
    /// Returns a scan that has passed no run yet. Each call of `PrefixScan::next_run` takes the fit
    /// table of the cells that can be filled.
    #[tactic(auto, using(bit_sets::proofs::Doubling::one_within))]
    pub fn new(domain: &LineDomain<W>) -> PrefixScan<W>
        ensures { (line : List Cell) (fits : List ℕ)
            → IsDomainOf W.WIDTH line domain.now.len
            (W.bits domain.now.not_filled) (W.bits domain.now.not_blank)
            → IsFitTable (W.bits domain.now.not_blank) W.LOG2_WIDTH fits
            → IsScanOver W.WIDTH W.LOG2_WIDTH line [] (W.bits result.not_filled) fits
            (W.bits result.starts) (W.bits result.gap) }
    {
        let gap = first_gap(domain.not_filled);
        PrefixScan {
            not_filled: domain.not_filled,
            starts: gap.shifted_up(1).union(W::first()),
            gap,
        }
    }

    /// Returns the prefix gap after the runs that were passed.
    pub fn gap(&self) -> W
        ensures { result ≡ self.now.gap }
    {
        self.gap
    }

    /// Returns the indices at which the next run may start, as far as the cells before allow.
    pub fn starts(&self) -> W
        ensures { result ≡ self.now.starts }
    {
        self.starts
    }

    /// Passes a run of `number` cells. Returns its ends, as far as the cells before them allow. The
    /// fit table is that of the cells that can be filled.
    #[tactic(auto, using(bit_sets::proofs::Doubling::one_within))]
    pub fn next_run(&mut self, fits: &[W; LEVELS], number: u16) -> W
        requires { (0 < number) × (number ≤ W.WIDTH) }
        ensures ends { (line : List Cell) (runs : List ℕ)
            → IsScanOver W.WIDTH W.LOG2_WIDTH line runs
            (W.bits self.old.not_filled) (map W.bits fits.now)
            (W.bits self.old.starts) (W.bits self.old.gap)
            → IsMaskOf (IsEndAfter line runs number) (W.bits result) }
        ensures scanned { (line : List Cell) (runs : List ℕ)
            → IsScanOver W.WIDTH W.LOG2_WIDTH line runs
            (W.bits self.old.not_filled) (map W.bits fits.now)
            (W.bits self.old.starts) (W.bits self.old.gap)
            → IsScanOver W.WIDTH W.LOG2_WIDTH line (number ∷ runs)
            (W.bits self.new.not_filled) (map W.bits fits.now)
            (W.bits self.new.starts) (W.bits self.new.gap) }
    {
        let fit_starts = fit_starts_in_table(fits, number);
        let ends = run_ends(self.starts, fit_starts, number);
        self.gap = gap_after(ends, self.not_filled);
        self.starts = self.gap.shifted_up(1);
        ends
    }
}
