//! Prefix supports: the support of the cells up to a gap, given that gap.

ghost use Rattle.std.specs.Prelude.{◌≡◌, ◌+◌, ◌-◌, ◌*◌, ◌<◌, ◌≤◌, ◌⊎◌, ℕ, List, [], false, length, map, slice_index_or, true};
ghost use Rattle.grid_core.specs.declared.cells.Cell.{Cell};
ghost use Rattle.bit_sets.specs.Masks.{Has, IsMaskOf};
ghost use Rattle.line_core.specs.steps.PrefixScan.{IsDomainOf};
ghost use Rattle.line_core.specs.steps.Feasibility.{AreLengths, IsGapAfter};
ghost use Rattle.line_core.specs.Lookahead.{no_support};
ghost use Rattle.line_core.specs.declared.lookahead.TheConstants.{MAX_LOOKAHEAD_LEN};
ghost use Rattle.line_core.specs.steps.Lookahead.{IsPrefixSupport, AreMasks, AreFeasible};
ghost use Rattle.line_core.specs.steps.PrefixSupports.{AreFeasibleAt, HasRows, HasRowsFor, IsCellOf, IsMirroredIn, WritesPrefixSupports, WritesRow};
ghost use Rattle.line_core.specs.steps.Combining.{AreMore, HasColour};

use crate::domains::LineDomain;
use crate::lookahead::Support;
use crate::prefix_scan::PrefixScan;
use crate::suffixes::{MAX_GAPS, first_suffix_gap, suffix_ends, write_suffixes};
use bit_sets::{BitSet, fit_table, prefix};

/// The number of entries in a row of a table of prefix supports: one for each index of a gap on a
/// line of at most `MAX_LOOKAHEAD_LEN` cells. The table has one row for each number of runs before
/// the gap.
pub const ROW_STRIDE: usize = 128;

/// Writes the feasible gaps of a line, before each run and after the last one, and the feasible
/// ends of each run. `suffixes` is a buffer for the suffix sets.
pub fn write_feasible<W: BitSet>(
    domain: &LineDomain<W>,
    clue: &[u16],
    suffixes: &mut [W::Stored; MAX_GAPS],
    gaps: &mut [W::Stored; MAX_GAPS],
    ends: &mut [W::Stored; MAX_GAPS],
)
    ghost line: { List Cell }
    requires domain { IsDomainOf W.WIDTH line domain.now.len
        (W.bits domain.now.not_filled) (W.bits domain.now.not_blank) }
    requires clue { AreLengths W.WIDTH clue.now }
    ensures { AreFeasible line clue.now
        (map W.stored_bits gaps.new) (map W.stored_bits ends.new) }
{
    write_suffixes(domain, clue, suffixes);
    let fits = fit_table(domain.not_blank);
    let mut scan = PrefixScan::new(domain);
    let first = scan.gap().intersection(first_suffix_gap(clue, suffixes));
    gaps[0] = first.to_stored();
    for j in 0..clue.len() {
        let run_ends = scan.next_run(&fits, clue[j]);
        let suffix: W = suffix_ends(clue, suffixes, j);
        let gap = scan.gap().intersection(suffix.shifted_up(1));
        ends[j] = run_ends.intersection(suffix).to_stored();
        gaps[j + 1] = gap.to_stored();
    }
}

/// Returns the indices `first..first + count`, or, if `MIRRORED`, these mirrored within the first
/// `len` indices, by a shift of `indices`, the first `count` indices.
fn mirrored_cells<W: BitSet, const MIRRORED: bool>(
    len: u16,
    first: u16,
    count: u16,
    indices: W,
) -> W
    requires len { len ≤ W.WIDTH }
    requires count { (0 < count) × (first + count ≤ len) }
    requires indices { IsMaskOf (λ i. i < count) (W.bits indices) }
    ensures { IsMaskOf (IsMirroredIn MIRRORED len first (first + count)) (W.bits result) }
{
    let from = if MIRRORED { len - first - count } else { first };
    indices.shifted_up(from)
}

/// Returns the part of the support of the cells up to the gap at `index` for which no run ends
/// right before the gap: its own cell is blank, and, if `longer` has `index`, the cells before have
/// the prefix support `last` of the gap one cell before.
fn gap_support<W: BitSet, const MIRRORED: bool>(
    len: u16,
    index: u16,
    longer: W,
    last: &Support<W>,
) -> Support<W>
    requires { IsCellOf W.WIDTH len index }
    ensures { AreMasks (λ filled k.
        ((filled ≡ false) × IsMirroredIn MIRRORED len index (index + 1) k)
        ⊎ (Has (W.bits longer) index × HasColour last.now filled k)) result }
{
    let own = Support {
        fillable: W::empty(),
        blankable: mirrored_cells::<W, MIRRORED>(len, index, 1, prefix(1)),
    };
    if longer.contains(index) {
        own.with(last)
    } else {
        own
    }
}

/// Returns the support of the cells up to the end of a run that starts at `start`: those of `run`
/// are filled, and the cells before have the prefix support of the gap right before it, from the
/// row `before`.
pub fn run_and_prefix<W: BitSet>(start: u16, run: W, before: &[Support<W>]) -> Support<W>
    requires { start ≤ length before.now }
    ensures { AreMasks (λ filled k. ((filled ≡ true) × Has (W.bits run) k)
        ⊎ ((0 < start) × HasColour (slice_index_or before.now (start - 1) no_support) filled k))
        result }
{
    let own = Support {
        fillable: run,
        blankable: W::empty(),
    };
    if start == 0 {
        return own;
    }
    own.with(&before[usize::from(start - 1)])
}

/// A run that may end right before a gap.
#[derive(Drop)]
struct EndedRun<W: BitSet> {
    /// Its length.
    number: u16,
    /// The first `number` indices.
    indices: W,
    /// The indices right after its feasible ends.
    ended: W,
}

/// Returns the support of the cells up to the gap at `index`: `in_gap`, that without a run right
/// before the gap, and, if `run` can end there, the support given that it does.
fn prefix_support<W: BitSet, const MIRRORED: bool>(
    in_gap: Support<W>,
    len: u16,
    index: u16,
    run: &EndedRun<W>,
    before: &[Support<W>],
) -> Support<W>
    requires index { IsCellOf W.WIDTH len index }
    requires number { 0 < run.now.number }
    requires indices { IsMaskOf (λ i. i < run.now.number) (W.bits run.now.indices) }
    requires ended { Has (W.bits run.now.ended) index → run.now.number ≤ index }
    requires before { index ≤ length before.now }
    ensures { AreMore (λ filled k. Has (W.bits run.now.ended) index
        × (((filled ≡ true) × IsMirroredIn MIRRORED len (index - run.now.number) index k)
        ⊎ ((run.now.number < index)
        × HasColour (slice_index_or before.now (index - run.now.number - 1) no_support) filled k)))
        in_gap result }
{
    if !run.ended.contains(index) {
        return in_gap;
    }
    let start = index - run.number;
    let cells = mirrored_cells::<W, MIRRORED>(len, start, run.number, run.indices);
    in_gap.with(&run_and_prefix(start, cells, before))
}

/// Writes the prefix support of each feasible gap before the first run: all cells up to the gap are
/// blank.
#[tactic(auto, using(crate::proofs::GapRows::walks))]
fn write_first<W: BitSet, const MIRRORED: bool>(len: u16, gaps: W, row: &mut [Support<W>])
    ghost line: { List Cell }
    requires len { (len ≡ length line) × (len ≤ W.WIDTH) }
    requires short { length line ≤ MAX_LOOKAHEAD_LEN }
    requires gaps { (i : ℕ) → Has (W.bits gaps) i → IsGapAfter line [] i }
    requires size { length line ≤ length row.old }
    ensures row { (i : ℕ) → Has (W.bits gaps) i
        → IsPrefixSupport MIRRORED line [] i (slice_index_or row.new i no_support) }
    ensures count { length row.new ≡ length row.old }
{
    let mut left = gaps;
    while !left.is_empty() {
        let index = left.first_index();
        left = left.with_bit(index, false);
        row[usize::from(index)] = Support {
            fillable: W::empty(),
            blankable: mirrored_cells::<W, MIRRORED>(len, 0, index + 1, prefix(index + 1)),
        };
    }
}

/// The feasible gaps after a run, and its feasible ends.
#[derive(Drop)]
struct FeasibleAt<W: BitSet> {
    gaps: W,
    ends: W,
}

/// Writes the prefix support of each feasible gap after run `j` to the next row of `table`, which
/// has those of the gaps before the run.
#[tactic(auto, using(crate::proofs::GapRows::walks))]
fn write_row<W: BitSet, const MIRRORED: bool>(
    len: u16,
    clue: &[u16],
    j: usize,
    feasible: &FeasibleAt<W>,
    table: &mut [Support<W>],
)
    ghost line: { List Cell }
    requires len { (len ≡ length line) × (len ≤ W.WIDTH) }
    requires clue { AreLengths W.WIDTH clue.now }
    requires j { j < length clue.now }
    requires feasible { AreFeasibleAt line clue.now j
        (W.bits feasible.now.gaps) (W.bits feasible.now.ends) }
    requires table { HasRows MIRRORED line clue.now j table.old }
    ensures { WritesRow MIRRORED line clue.now j table.old table.new }
{
    let number = clue[j];
    let longer = feasible.gaps.shifted_up(1);
    let ended = feasible.ends.shifted_up(1);
    let indices = prefix::<W>(number);
    let run = EndedRun {
        number,
        indices,
        ended,
    };
    let (done, row) = table.split_at_mut(ROW_STRIDE * (j + 1));
    let (_, before) = done.split_at_mut(ROW_STRIDE * j);
    // From left to right: a gap right after another one takes over the prefix support of that one,
    // which is `last` then.
    let mut last = Support::none();
    let mut left = feasible.gaps;
    while !left.is_empty() {
        let index = left.first_index();
        left = left.with_bit(index, false);
        let in_gap = gap_support::<W, MIRRORED>(len, index, longer, &last);
        last = prefix_support::<W, MIRRORED>(in_gap, len, index, &run, before);
        row[usize::from(index)] = last.copied();
    }
}

/// Writes, for each number of runs and each feasible gap after them, the support of the cells up to
/// that gap, given that gap. If `MIRRORED`, the gaps are those of the mirrored line; the cells keep
/// their own indices.
pub fn write_prefix_supports<W: BitSet, const MIRRORED: bool>(
    len: u16,
    clue: &[u16],
    gaps: &[W::Stored; MAX_GAPS],
    ends: &[W::Stored; MAX_GAPS],
    table: &mut [Support<W>],
)
    ghost line: { List Cell }
    requires len { (len ≡ length line) × (len ≤ W.WIDTH) }
    requires clue { AreLengths W.WIDTH clue.now }
    requires feasible { AreFeasible line clue.now
        (map W.stored_bits gaps.now) (map W.stored_bits ends.now) }
    requires table { HasRowsFor line clue.now table.old }
    ensures { WritesPrefixSupports MIRRORED line clue.now table.old table.new }
{
    write_first::<W, MIRRORED>(len, W::from_stored(gaps[0]), table);
    for j in 0..clue.len() {
        let next = W::from_stored(gaps[j + 1]);
        let run_ends = W::from_stored(ends[j]);
        let feasible = FeasibleAt {
            gaps: next,
            ends: run_ends,
        };
        write_row::<W, MIRRORED>(len, clue, j, &feasible, table);
    }
}
