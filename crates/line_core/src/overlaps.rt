//! Deduction of a line whose cells are all unknown: a run longer than the slack fills the overlap
//! of its leftmost and rightmost positions in all placings.

ghost use Rattle.std.specs.Prelude.{◌≡◌, ◌+◌, ◌<◌, ◌≤◌, ◌↔◌, IsTrue, List, length, replicate};
ghost use Rattle.grid_core.specs.declared.cells.Cell.{Cell};
ghost use Rattle.grid_core.specs.declared.cells.Cell.TheVariants.{Unknown};
ghost use Rattle.bit_sets.specs.Masks.{IsMaskOf};
ghost use Rattle.line_core.specs.steps.Overlaps.{needed, IsOverlap};
ghost use Rattle.line_core.specs.steps.PrefixScan.{IsDomainOf};
ghost use Rattle.line_core.specs.steps.Feasibility.{AreLengths, IsFillable, IsBlankable};

use crate::domains::LineDomain;
use bit_sets::{BitSet, prefix};
use grid_core::MAX_SIDE;

/// Reports whether all cells of a line are unknown: those that can be blank are those that can be
/// filled.
pub fn is_unknown<W: BitSet>(domain: &LineDomain<W>) -> bool
    ghost line: { List Cell }
    requires { IsDomainOf W.WIDTH line domain.now.len
        (W.bits domain.now.not_filled) (W.bits domain.now.not_blank) }
    ensures { IsTrue result ↔ (line ≡ replicate domain.now.len Unknown) }
{
    domain
        .not_filled
        .symmetric_difference(domain.not_blank)
        .is_empty()
}

/// Returns the number of cells that the runs of a clue take if each has a blank cell after it.
#[tactic(auto, using(crate::proofs::Packing::start_few))]
fn cells_needed(clue: &[u16]) -> u16
    requires { AreLengths MAX_SIDE clue.now }
    ensures { result ≡ needed clue.now }
{
    let mut needed = 0;
    for number in clue {
        needed += *number + 1;
    }
    needed
}

/// Returns the cells that some run fills wherever it starts, if the starts of each run are its
/// least start and the next `slack` indices.
fn overlaps<W: BitSet>(clue: &[u16], slack: u16) -> W
    requires clue { AreLengths W.WIDTH clue.now }
    requires fits { needed clue.now + slack ≤ W.WIDTH + 1 }
    ensures { IsMaskOf (IsOverlap clue.now slack) (W.bits result) }
{
    let mut overlap = W::empty();
    let mut greatest_start = slack;
    for number in clue {
        if *number > slack {
            overlap = overlap.union(prefix::<W>(*number - slack).shifted_up(greatest_start));
        }
        greatest_start += *number + 1;
    }
    overlap
}

/// Returns the cells that are filled in some placing, and the cells that are blank in some, of a
/// line of `len` unknown cells.
pub fn unknown_line_support<W: BitSet>(len: u16, clue: &[u16]) -> (W, W)
    requires len { (1 ≤ len) × (len ≤ W.WIDTH) }
    requires clue { AreLengths W.WIDTH clue.now }
    ensures filled { IsMaskOf (IsFillable (replicate len Unknown) clue.now) (W.bits result.0) }
    ensures blank { IsMaskOf (IsBlankable (replicate len Unknown) clue.now) (W.bits result.1) }
{
    // The blank cell that is counted after the last run may lie outside the line.
    let needed = cells_needed(clue);
    if len + 1 < needed {
        return (W::empty(), W::empty());
    }
    let slack = len + 1 - needed;
    let overlap = overlaps::<W>(clue, slack);
    let line = prefix::<W>(len);
    // With any slack, each cell is filled in some placing, unless the clue is empty; with none,
    // there is one placing, and the overlaps are its runs.
    let fillable = if slack == 0 || clue.is_empty() {
        overlap
    } else {
        line
    };
    (fillable, line.difference(overlap))
}
