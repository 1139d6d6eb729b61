//! Deduction: finds the cells of a line that have the same colour in all placings.

ghost use Rattle.std.specs.Prelude.{◌≡◌, ◌<◌, ◌≤◌, List, Some, length, map, true, IfOk};
ghost use Rattle.grid_core.specs.Clues.{is_clue};
ghost use Rattle.grid_core.specs.declared.cells.Cell.{Cell};
ghost use Rattle.bit_sets.specs.Masks.{IsMaskOf};
ghost use Rattle.line_core.specs.Deduction.{deduced};
ghost use Rattle.line_core.specs.Lookahead.{HasEntries, WritesLookaheads};
ghost use Rattle.line_core.specs.steps.PrefixScan.{IsDomainOf, padded};
ghost use Rattle.line_core.specs.steps.Feasibility.{AreLengths, AreSuffixes, IsFillable, IsBlankable};

use crate::Line;
use crate::buffers::SuffixBuffers;
use crate::domains::{LineDomain, padded};
use crate::known_ends::{inner_clue_range, known_ends};
use crate::lookahead::{Lookahead, Support};
use crate::lookahead_buffers::LookaheadBuffers;
use crate::overlaps::{is_unknown, unknown_line_support};
use crate::prefix_scan::PrefixScan;
use crate::single_run::single_run_support;
use crate::suffixes::{MAX_GAPS, first_suffix_gap, suffix_ends, write_suffixes};
use crate::widths::bits_needed;
use bit_sets::{BitSet, Bits256, LEVELS, add_spread, fit_table, prefix, spread_levels};
use grid_core::{BitLine, Clue, MAX_SIDE, NoMemory};
use std::alloc::Global;
use std::marker::Model;

/// Returns the cells that are filled in some placing, and the cells that are blank in some, by a
/// prefix scan of the line. `suffixes` are its suffix sets, as `write_suffixes` writes them.
fn scanned_support<W: BitSet>(
    domain: &LineDomain<W>,
    clue: &[u16],
    suffixes: &[W::Stored; MAX_GAPS],
) -> (W, W)
    ghost line: { List Cell }
    requires domain { IsDomainOf W.WIDTH line domain.now.len
        (W.bits domain.now.not_filled) (W.bits domain.now.not_blank) }
    requires clue { AreLengths W.WIDTH clue.now }
    requires suffixes { AreSuffixes line clue.now (map W.stored_bits suffixes.now) }
    ensures filled { IsMaskOf (IsFillable line clue.now) (W.bits result.0) }
    ensures blank { IsMaskOf (IsBlankable line clue.now) (W.bits result.1) }
{
    let fits = fit_table(domain.not_blank);
    let mut scan = PrefixScan::new(domain);
    let mut blankable = scan.gap().intersection(first_suffix_gap(clue, suffixes));
    // The ends of each run are collected by its length, and all are extended to whole runs at once
    // in the end.
    let mut spread = [W::empty(); LEVELS];
    for j in 0..clue.len() {
        let ends = scan.next_run(&fits, clue[j]);
        let suffix = suffix_ends(clue, suffixes, j);
        let feasible = ends.intersection(suffix);
        add_spread(&mut spread, feasible, clue[j]);
        blankable = blankable.union(scan.gap().intersection(suffix.shifted_up(1)));
    }
    (spread_levels(&mut spread), blankable)
}

/// Returns the cells that are filled in some placing, and the cells that are blank in some, of any
/// line. `suffixes` is a buffer for the suffix sets.
fn general_support<W: BitSet>(
    domain: &LineDomain<W>,
    clue: &[u16],
    suffixes: &mut [W::Stored; MAX_GAPS],
) -> (W, W)
    ghost line: { List Cell }
    requires domain { IsDomainOf W.WIDTH line domain.now.len
        (W.bits domain.now.not_filled) (W.bits domain.now.not_blank) }
    requires clue { AreLengths W.WIDTH clue.now }
    ensures filled { IsMaskOf (IsFillable line clue.now) (W.bits result.0) }
    ensures blank { IsMaskOf (IsBlankable line clue.now) (W.bits result.1) }
{
    if clue.len() == 1 {
        return single_run_support(domain, clue);
    }
    write_suffixes(domain, clue, suffixes);
    scanned_support(domain, clue, suffixes)
}

/// Returns the cells that are filled in some placing, and the cells that are blank in some. A line
/// whose cells are all unknown is computed directly; any other line is padded to the width of the
/// sets, and scanned unless its clue is a single run. `suffixes` is a buffer for the suffix sets.
fn line_support<W: BitSet>(
    line: &BitLine<W>,
    clue: &[u16],
    suffixes: &mut [W::Stored; MAX_GAPS],
) -> (W, W)
    ghost cells: { List Cell }
    requires cells { line.now ≡ cells }
    requires clue { is_clue W.WIDTH clue.now ≡ true }
    ensures filled { IsMaskOf (IsFillable cells clue.now) (W.bits result.0) }
    ensures blank { IsMaskOf (IsBlankable cells clue.now) (W.bits result.1) }
{
    let domain = LineDomain::of(line);
    if is_unknown(&domain) {
        return unknown_line_support(domain.len, clue);
    }
    // A padded line is mirrored without a shift. The appended cells are blank in each placing, so
    // they have to be removed from the second set only.
    let (fillable, blankable) = general_support(&padded(&domain), clue, suffixes);
    (fillable, blankable.intersection(prefix(domain.len)))
}

/// Returns the deduced line, or `None` if there is no placing. `suffixes` is a buffer for the
/// suffix sets.
fn deduce_numbers<W: BitSet>(
    suffixes: &mut [W::Stored; MAX_GAPS],
    line: &BitLine<W>,
    clue: &[u16],
) -> Option<BitLine<W>>
    requires { is_clue W.WIDTH clue.now ≡ true }
    ensures { result ≡ deduced line.now clue.now }
{
    let (fillable, blankable) = line_support(line, clue, suffixes);
    Support {
        fillable,
        blankable,
    }
    .deduced_from(line.len())
}

/// Returns the deduced line, or `None` if there is no placing. Uses sets of 64 indices, on which
/// each operation costs less, if these hold the line and the numbers of the clue, and sets of type
/// `W` if not. `narrow` and `suffixes` are buffers for the suffix sets of these types.
fn deduce_narrowed<W: BitSet>(
    narrow: &mut [u64; MAX_GAPS],
    suffixes: &mut [W::Stored; MAX_GAPS],
    line: &BitLine<W>,
    clue: &[u16],
) -> Option<BitLine<W>>
    requires { is_clue W.WIDTH clue.now ≡ true }
    ensures { result ≡ deduced line.now clue.now }
{
    if bits_needed(line.len(), clue) > 64 {
        return deduce_numbers(suffixes, line, clue);
    }
    match deduce_numbers::<u64>(narrow, &line.resized(), clue) {
        None => None,
        Some(deduced) => Some(deduced.resized()),
    }
}

/// Returns the deduced line, or `None` if there is no placing. Trims the known cells at both ends
/// first, if there are enough of them, and deduces the cells between them alone. `narrow` and
/// `suffixes` are buffers for the suffix sets.
fn deduce_trimmed<W: BitSet>(
    narrow: &mut [u64; MAX_GAPS],
    suffixes: &mut [W::Stored; MAX_GAPS],
    line: &BitLine<W>,
    clue: &[u16],
) -> Option<BitLine<W>>
    requires { is_clue W.WIDTH clue.now ≡ true }
    ensures { result ≡ deduced line.now clue.now }
{
    let (front, back) = known_ends(line);
    if front == 0 && back == 0 {
        return deduce_narrowed(narrow, suffixes, line, clue);
    }
    let (from, to) = inner_clue_range(line, front, back, clue)?;
    let inner = line.slice(front, line.len() - front - back);
    match deduce_narrowed(narrow, suffixes, &inner, &clue[from..to]) {
        None => None,
        Some(deduced) => Some(line.with_slice(front, &deduced)),
    }
}

/// The buffers for deducing lines of at most `longest` cells. Contracts see them as that length.
#[derive(Drop)]
pub struct Tables {
    longest: u16,
    buffers: SuffixBuffers,
}

impl Model for Tables {
    ghost use Rattle.std.specs.Prelude.{ℕ};

    ghost Value = { ℕ };

    ghost view = { λ tables. tables.longest };
}

impl Tables {
    /// Allocates the buffers for lines of at most `longest` cells, 1 to 256. Returns `NoMemory` if
    /// an allocation fails.
    pub fn new(alloc: Global, longest: u16) -> Result<Tables, NoMemory>
        requires { (1 ≤ longest) × (longest ≤ MAX_SIDE) }
        ensures { IfOk result (λ tables. tables ≡ longest) }
    {
        Ok(Tables {
            longest,
            buffers: SuffixBuffers::new(alloc)?,
        })
    }
}

/// Writes, for each unknown cell of a line of at most `MAX_LOOKAHEAD_LEN` cells, the line's support
/// after that cell is filled and after it is made blank. `suffix` is a buffer for the suffix sets.
/// The entries of known cells are unspecified.
fn write_lookaheads_within<W: BitSet>(
    suffix: &mut [W::Stored; MAX_GAPS],
    buffers: &mut LookaheadBuffers<W>,
    line: &BitLine<W>,
    clue: &[u16],
    lookaheads: &mut [Lookahead<W>],
)
    requires clue { is_clue W.WIDTH clue.now ≡ true }
    requires buffers { length clue.now ≤ buffers.old.max_runs }
    requires lookaheads { HasEntries line.now lookaheads.old }
    ensures lookaheads { WritesLookaheads clue.now line.now lookaheads.old lookaheads.new }
    ensures buffers { buffers.new.max_runs ≡ buffers.old.max_runs }
{
    buffers.write_lookaheads(line, clue, suffix, lookaheads);
}

/// A bit set in which lines are stored and deduced.
pub trait LineBits: BitSet {
    /// Returns the line in which each cell has the colour that all placings share, and is unknown
    /// if they differ; `None` if there is no placing. `clue` has at most 128 numbers, each from 1
    /// to the width of the sets.
    fn deduce(tables: &mut Tables, line: &BitLine<Self>, clue: &[u16]) -> Option<BitLine<Self>>
        requires { is_clue Self.WIDTH clue.now ≡ true }
        ensures answer { result ≡ deduced line.now clue.now }
        ensures tables { tables.new ≡ tables.old };

    /// Writes, for each unknown cell of `line`, the support of the line after that cell is filled
    /// and after it is made blank. The line has at most `MAX_LOOKAHEAD_LEN` cells, and `clue` at
    /// most 128 numbers, each from 1 to the width of the sets. The entries of known cells are
    /// unspecified.
    fn write_lookaheads(
        tables: &mut Tables,
        buffers: &mut LookaheadBuffers<Self>,
        line: &BitLine<Self>,
        clue: &[u16],
        lookaheads: &mut [Lookahead<Self>],
    )
        requires clue { is_clue Self.WIDTH clue.now ≡ true }
        requires buffers { length clue.now ≤ buffers.old.max_runs }
        requires lookaheads { HasEntries line.now lookaheads.old }
        ensures lookaheads { WritesLookaheads clue.now line.now lookaheads.old lookaheads.new }
        ensures tables { tables.new ≡ tables.old }
        ensures buffers { buffers.new.max_runs ≡ buffers.old.max_runs };
}

impl LineBits for u64 {
    fn deduce(tables: &mut Tables, line: &BitLine<u64>, clue: &[u16]) -> Option<BitLine<u64>> {
        deduce_numbers(&mut tables.buffers.narrow[0], line, clue)
    }

    fn write_lookaheads(
        tables: &mut Tables,
        buffers: &mut LookaheadBuffers<u64>,
        line: &BitLine<u64>,
        clue: &[u16],
        lookaheads: &mut [Lookahead<u64>],
    ) {
        let suffixes = &mut tables.buffers.narrow[0];
        write_lookaheads_within(suffixes, buffers, line, clue, lookaheads);
    }
}

impl LineBits for u128 {
    fn deduce(tables: &mut Tables, line: &BitLine<u128>, clue: &[u16]) -> Option<BitLine<u128>> {
        let buffers = &mut tables.buffers;
        deduce_trimmed(&mut buffers.narrow[0], &mut buffers.middle[0], line, clue)
    }

    fn write_lookaheads(
        tables: &mut Tables,
        buffers: &mut LookaheadBuffers<u128>,
        line: &BitLine<u128>,
        clue: &[u16],
        lookaheads: &mut [Lookahead<u128>],
    ) {
        let suffixes = &mut tables.buffers.middle[0];
        write_lookaheads_within(suffixes, buffers, line, clue, lookaheads);
    }
}

impl LineBits for Bits256 {
    fn deduce(
        tables: &mut Tables,
        line: &BitLine<Bits256>,
        clue: &[u16],
    ) -> Option<BitLine<Bits256>> {
        let buffers = &mut tables.buffers;
        deduce_trimmed(&mut buffers.narrow[0], &mut buffers.wide[0], line, clue)
    }

    fn write_lookaheads(
        tables: &mut Tables,
        buffers: &mut LookaheadBuffers<Bits256>,
        line: &BitLine<Bits256>,
        clue: &[u16],
        lookaheads: &mut [Lookahead<Bits256>],
    ) {
        let suffixes = &mut tables.buffers.wide[0];
        write_lookaheads_within(suffixes, buffers, line, clue, lookaheads);
    }
}

/// Returns the line in which each cell has the colour that all placings of `clue` on `line` share,
/// and is unknown if they differ; `None` if there is no placing. The line may have no more cells
/// than `tables` was made for.
pub fn deduce(tables: &mut Tables, line: &Line, clue: &Clue) -> Option<Line>
    requires { length line.now ≤ tables.old }
    ensures answer { result ≡ deduced line.now clue.now }
    ensures tables { tables.new ≡ tables.old }
{
    Bits256::deduce(tables, line, clue.numbers())
}
