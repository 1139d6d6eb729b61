//! The suffix sets of a line: where runs may end, and the first gap may be, as far as the cells
//! after allow.

ghost use Rattle.std.specs.Prelude.{◌≡◌, ◌+◌, ◌<◌, ◌≤◌, List, length, map};
ghost use Rattle.grid_core.specs.declared.cells.Cell.{Cell};
ghost use Rattle.bit_sets.specs.Masks.{IsMaskOf};
ghost use Rattle.line_core.specs.steps.PrefixScan.{IsDomainOf};
ghost use Rattle.line_core.specs.declared.suffixes.TheConstants.{MAX_GAPS};
ghost use Rattle.line_core.specs.steps.Feasibility.{AreLengths, AreReversedMasks, AreReversedSuffixes, AreSuffixes, IsSuffixEnd, IsSuffixGap};

use crate::domains::{LineDomain, reversed};
use crate::prefix_scan::PrefixScan;
use bit_sets::{BitSet, fit_table};
use grid_core::MAX_RUNS;

/// The greatest number of gaps of a clue: one before each run, and one after the last.
pub const MAX_GAPS: usize = MAX_RUNS + 1;

/// Writes where the runs of the mirrored line may start, as far as its cells before allow, in the
/// order of the mirrored clue, and then its prefix gap after the last run.
// Forced inline: as a call it would add 30 instructions to each deduction.
#[inline(always)]
fn write_reversed_suffixes<W: BitSet>(
    domain: &LineDomain<W>,
    clue: &[u16],
    suffixes: &mut [W::Stored; MAX_GAPS],
)
    ghost line: { List Cell }
    requires domain { IsDomainOf W.WIDTH line domain.now.len
        (W.bits domain.now.not_filled) (W.bits domain.now.not_blank) }
    requires clue { AreLengths W.WIDTH clue.now }
    ensures suffixes { AreReversedSuffixes W.WIDTH line clue.now
        (map W.stored_bits suffixes.new) }
    ensures count { length suffixes.new ≡ MAX_GAPS }
{
    let reversed = reversed(domain);
    let fits = fit_table(reversed.not_blank);
    let mut scan = PrefixScan::new(&reversed);
    let count = clue.len();
    for j in 0..count {
        suffixes[j] = scan.starts().to_stored();
        scan.next_run(&fits, clue[count - 1 - j]);
    }
    suffixes[count] = scan.gap().to_stored();
}

/// Mirrors each set of `masks` within the first `len` indices, and drops its elements beyond them.
fn reverse_all<W: BitSet>(masks: &mut [W::Stored], len: u16)
    requires { (0 < len) × (len ≤ W.WIDTH) }
    ensures { AreReversedMasks len (map W.stored_bits masks.old) (map W.stored_bits masks.new) }
{
    for i in 0..masks.len() {
        masks[i] = W::reverse_stored(masks[i], len);
    }
}

/// Writes the suffix ends of each run of `clue`, the last run first, and then the suffix gap before
/// the first run.
#[inline(always)]
pub fn write_suffixes<W: BitSet>(
    domain: &LineDomain<W>,
    clue: &[u16],
    suffixes: &mut [W::Stored; MAX_GAPS],
)
    ghost line: { List Cell }
    requires domain { IsDomainOf W.WIDTH line domain.now.len
        (W.bits domain.now.not_filled) (W.bits domain.now.not_blank) }
    requires clue { AreLengths W.WIDTH clue.now }
    ensures { AreSuffixes line clue.now (map W.stored_bits suffixes.new) }
{
    // A run ends on the line where it starts on the mirrored line, so that the prefix scan serves
    // both directions.
    write_reversed_suffixes(domain, clue, suffixes);
    reverse_all::<W>(&mut suffixes[..clue.len() + 1], domain.len);
}

/// Returns the suffix gap before the first run: the cells that can be blank with exactly the runs
/// of `clue` after them. `suffixes` are those of `write_suffixes`.
pub fn first_suffix_gap<W: BitSet>(clue: &[u16], suffixes: &[W::Stored; MAX_GAPS]) -> W
    requires { length clue.now ≤ MAX_RUNS }
    ensures { (line : List Cell) → AreSuffixes line clue.now (map W.stored_bits suffixes.now)
        → IsMaskOf (IsSuffixGap line clue.now 0) (W.bits result) }
{
    W::from_stored(suffixes[clue.len()])
}

/// Returns the suffix ends of run `j`: the cells at which it may end, as far as the cells after
/// allow. `suffixes` are those of `write_suffixes`.
pub fn suffix_ends<W: BitSet>(clue: &[u16], suffixes: &[W::Stored; MAX_GAPS], j: usize) -> W
    requires count { length clue.now ≤ MAX_RUNS }
    requires j { j < length clue.now }
    ensures { (line : List Cell) → AreSuffixes line clue.now (map W.stored_bits suffixes.now)
        → IsMaskOf (IsSuffixEnd line clue.now j) (W.bits result) }
{
    W::from_stored(suffixes[clue.len() - 1 - j])
}
