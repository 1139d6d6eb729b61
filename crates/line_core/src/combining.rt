//! Combines the prefix supports of a line and of the mirrored line into the support of the line
//! after each of its unknown cells is filled or made blank.

ghost use Rattle.std.specs.Prelude.{◌≡◌, ◌+◌, ◌*◌, ◌<◌, ◌≤◌, ℕ, List, length, map, slice_index_or, true, false};
ghost use Rattle.grid_core.specs.declared.cells.Cell.{Cell};
ghost use Rattle.bit_sets.specs.Masks.{IsMaskOf};
ghost use Rattle.line_core.specs.Lookahead.{no_lookahead};
ghost use Rattle.line_core.specs.steps.Lookahead.{AreMasks, AreLookaheads, AreFeasible, IsFeasibleGap};
ghost use Rattle.line_core.specs.steps.Combining.{AreLookaheadsMore, AreEndSupports, CanBeBesideGap, CanBeBesideRun, CanBeWithBlank, CanBeWithFilled, HasColour};
ghost use Rattle.line_core.specs.steps.Feasibility.{IsFeasibleEnd};

use crate::lookahead::{Lookahead, Support};
use crate::prefix_supports::{ROW_STRIDE, run_and_prefix};
use crate::suffixes::MAX_GAPS;
use bit_sets::{BitSet, prefix};

/// Adds `support` to the lookahead of each cell in `from..to`: to the support after that cell is
/// filled, if `filled`, and otherwise to the one after it is made blank.
fn add_to_each<W: BitSet>(
    lookaheads: &mut [Lookahead<W>],
    filled: bool,
    from: u16,
    to: u16,
    support: &Support<W>,
)
    requires { (from ≤ to) × (to ≤ length lookaheads.old) }
    ensures { AreLookaheadsMore filled
        (λ x colour k. (from ≤ x) × (x < to) × HasColour support.now colour k)
        lookaheads.old lookaheads.new }
{
    for index in from..to {
        lookaheads[usize::from(index)].add_if(filled, support);
    }
}

/// The prefix supports of a line and of the mirrored line.
#[derive(Drop)]
pub struct EndSupports<'a, W: BitSet> {
    /// The number of cells of the line.
    pub len: u16,
    /// The prefix supports of the line.
    pub before: &'a [Support<W>],
    /// The prefix supports of the mirrored line, whose cells keep the indices of the line.
    pub after: &'a [Support<W>],
}

/// Returns the support of the line, given the feasible gap at `index` after `j` runs: the prefix
/// support of the gap together with that of the same gap on the mirrored line.
fn support_with_gap<W: BitSet>(
    clue: &[u16],
    j: usize,
    index: u16,
    supports: &EndSupports<'_, W>,
) -> Support<W>
    ghost line: { List Cell }
    requires j { j ≤ length clue.now }
    requires index { IsFeasibleGap line clue.now j index }
    requires supports { AreEndSupports W.WIDTH line clue.now
        supports.now.len supports.now.before.now supports.now.after.now }
    ensures { AreMasks (CanBeBesideGap line clue.now j index) result }
{
    let mirrored = usize::from(supports.len - 1 - index);
    supports.before[ROW_STRIDE * j + usize::from(index)].with(
        &supports.after[ROW_STRIDE * (clue.len() - j) + mirrored],
    )
}

/// Returns the support of the line, given that run `j` ends at `end`, one of its feasible ends.
#[tactic(auto, using(crate::proofs::CombiningLemmas::ends))]
fn support_with_run<W: BitSet>(
    clue: &[u16],
    j: usize,
    end: u16,
    supports: &EndSupports<'_, W>,
) -> Support<W>
    ghost line: { List Cell }
    requires j { j < length clue.now }
    requires end { IsFeasibleEnd line clue.now j end }
    requires supports { AreEndSupports W.WIDTH line clue.now
        supports.now.len supports.now.before.now supports.now.after.now }
    ensures { AreMasks (CanBeBesideRun line clue.now j end) result }
{
    let next = end + 1;
    let start = next - clue[j];
    let run = prefix::<W>(clue[j]).shifted_up(start);
    let support = run_and_prefix(start, run, &supports.before[ROW_STRIDE * j..]);
    // The last run may end at the last cell of the line, without a gap after it.
    if next < supports.len {
        let mirrored = usize::from(supports.len - 1 - next);
        return support.with(&supports.after[ROW_STRIDE * (clue.len() - (j + 1)) + mirrored]);
    }
    support
}

/// Adds, for each feasible gap after `j` runs, the support of the line given that gap to the
/// support after that cell is made blank.
#[tactic(auto, using(crate::proofs::CombiningLemmas::places))]
fn add_gaps<W: BitSet>(
    clue: &[u16],
    j: usize,
    gaps: W,
    supports: &EndSupports<'_, W>,
    lookaheads: &mut [Lookahead<W>],
)
    ghost line: { List Cell }
    requires j { j ≤ length clue.now }
    requires gaps { IsMaskOf (IsFeasibleGap line clue.now j) (W.bits gaps) }
    requires supports { AreEndSupports W.WIDTH line clue.now
        supports.now.len supports.now.before.now supports.now.after.now }
    requires lookaheads { length line ≤ length lookaheads.old }
    ensures { AreLookaheadsMore false (λ x. CanBeWithBlank line clue.now x j)
        lookaheads.old lookaheads.new }
{
    let mut left = gaps;
    while !left.is_empty() {
        let index = left.first_index();
        left = left.with_bit(index, false);
        let support = support_with_gap(clue, j, index, supports);
        add_to_each(lookaheads, false, index, index + 1, &support);
    }
}

/// Adds, for each feasible end of run `j`, the support of the line given that end to the supports
/// after each cell of that run is filled.
#[tactic(auto, using(crate::proofs::CombiningLemmas::places))]
fn add_run<W: BitSet>(
    clue: &[u16],
    j: usize,
    ends: W,
    supports: &EndSupports<'_, W>,
    lookaheads: &mut [Lookahead<W>],
)
    ghost line: { List Cell }
    requires j { j < length clue.now }
    requires ends { IsMaskOf (IsFeasibleEnd line clue.now j) (W.bits ends) }
    requires supports { AreEndSupports W.WIDTH line clue.now
        supports.now.len supports.now.before.now supports.now.after.now }
    requires lookaheads { length line ≤ length lookaheads.old }
    ensures { AreLookaheadsMore true (λ x. CanBeWithFilled line clue.now x j)
        lookaheads.old lookaheads.new }
{
    let mut left = ends;
    while !left.is_empty() {
        let end = left.first_index();
        left = left.with_bit(end, false);
        let support = support_with_run(clue, j, end, supports);
        let next = end + 1;
        add_to_each(lookaheads, true, next - clue[j], next, &support);
    }
}

/// Resets the entries of the first `len` cells to empty supports.
fn clear<W: BitSet>(lookaheads: &mut [Lookahead<W>], len: u16)
    requires { len ≤ length lookaheads.old }
    ensures none { (x : ℕ) → x < len → slice_index_or lookaheads.new x no_lookahead ≡ no_lookahead }
    ensures count { length lookaheads.new ≡ length lookaheads.old }
{
    for index in 0..len {
        lookaheads[usize::from(index)] = Lookahead::none();
    }
}

/// Writes, for each unknown cell of a line, the line's support after that cell is filled and after
/// it is made blank. `gaps` and `ends` are the feasible ones.
pub fn combine_supports<W: BitSet>(
    clue: &[u16],
    gaps: &[W::Stored; MAX_GAPS],
    ends: &[W::Stored; MAX_GAPS],
    supports: &EndSupports<'_, W>,
    lookaheads: &mut [Lookahead<W>],
)
    ghost line: { List Cell }
    requires feasible { AreFeasible line clue.now
        (map W.stored_bits gaps.now) (map W.stored_bits ends.now) }
    requires supports { AreEndSupports W.WIDTH line clue.now
        supports.now.len supports.now.before.now supports.now.after.now }
    requires lookaheads { length line ≤ length lookaheads.old }
    ensures lookaheads { AreLookaheads line clue.now lookaheads.new }
    ensures count { length lookaheads.new ≡ length lookaheads.old }
{
    clear(lookaheads, supports.len);
    let count = clue.len();
    for j in 0..count {
        add_gaps(clue, j, W::from_stored(gaps[j]), supports, lookaheads);
        add_run(clue, j, W::from_stored(ends[j]), supports, lookaheads);
    }
    let last = W::from_stored(gaps[count]);
    add_gaps(clue, count, last, supports, lookaheads);
}
