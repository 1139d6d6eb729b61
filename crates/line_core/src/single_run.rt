//! Deduction of a line whose clue is a single run, from the indices at which the run can start.

ghost use Rattle.std.specs.Prelude.{◌≡◌, ◌+◌, ◌<◌, ◌≤◌, List, length};
ghost use Rattle.grid_core.specs.declared.cells.Cell.{Cell};
ghost use Rattle.bit_sets.specs.Masks.{IsMaskOf};
ghost use Rattle.line_core.specs.steps.SingleRun.{IsSingleRunStart};
ghost use Rattle.line_core.specs.steps.PrefixScan.{IsDomainOf};
ghost use Rattle.line_core.specs.steps.Feasibility.{AreLengths, IsFillable, IsBlankable};

use crate::domains::LineDomain;
use bit_sets::{BitSet, fit_starts, prefix, spread};

/// Returns the indices at which a single run of `number` cells can start: all of its cells can be
/// filled, and it covers each cell that is known to be filled.
fn single_run_starts<W: BitSet>(domain: &LineDomain<W>, number: u16) -> W
    ghost line: { List Cell }
    requires domain { IsDomainOf W.WIDTH line domain.now.len
        (W.bits domain.now.not_filled) (W.bits domain.now.not_blank) }
    requires number { (0 < number) × (number ≤ W.WIDTH) }
    ensures { IsMaskOf (IsSingleRunStart line number) (W.bits result) }
{
    let starts = fit_starts(domain.not_blank, number);
    let filled = prefix::<W>(domain.len).difference(domain.not_filled);
    if filled.is_empty() {
        return starts;
    }
    // The run ends no earlier than at the last filled cell, and starts no later than at the first.
    let least = (filled.last_index() + 1).saturating_sub(number);
    let greatest = filled.first_index();
    starts
        .intersection(prefix(greatest + 1))
        .intersection(W::full().shifted_up(least))
}

/// Returns the cells that a run of `number` cells fills wherever in `least..=greatest` it starts.
fn single_run_overlap<W: BitSet>(least: u16, greatest: u16, number: u16) -> W
    requires order { least ≤ greatest }
    requires within { greatest < W.WIDTH }
    requires number { (0 < number) × (number ≤ W.WIDTH) }
    ensures { IsMaskOf (λ i. (i < W.WIDTH) × (greatest ≤ i) × (i < least + number))
        (W.bits result) }
{
    if least + number <= greatest {
        return W::empty();
    }
    prefix::<W>(least + number - greatest).shifted_up(greatest)
}

/// Returns the cells that are filled in some placing, and the cells that are blank in some, for a
/// clue of one run.
pub fn single_run_support<W: BitSet>(domain: &LineDomain<W>, clue: &[u16]) -> (W, W)
    ghost line: { List Cell }
    requires domain { IsDomainOf W.WIDTH line domain.now.len
        (W.bits domain.now.not_filled) (W.bits domain.now.not_blank) }
    requires clue { AreLengths W.WIDTH clue.now }
    requires one { length clue.now ≡ 1 }
    ensures filled { IsMaskOf (IsFillable line clue.now) (W.bits result.0) }
    ensures blank { IsMaskOf (IsBlankable line clue.now) (W.bits result.1) }
{
    let number = clue[0];
    let starts = single_run_starts(domain, number);
    if starts.is_empty() {
        return (W::empty(), W::empty());
    }
    let overlap = single_run_overlap::<W>(starts.first_index(), starts.last_index(), number);
    let fillable = spread(starts.shifted_up(number - 1), number);
    (fillable, prefix::<W>(domain.len).difference(overlap))
}
