//! Computes the lookahead of all unknown cells of a line, in buffers that are allocated once.

ghost use Rattle.std.specs.Prelude.{◌≡◌, ◌+◌, ◌*◌, ◌<◌, ◌≤◌, List, length, map, reverse, vec_capacity, vec_len, IfOk};
ghost use Rattle.grid_core.specs.declared.cells.Cell.{Cell};
ghost use Rattle.line_core.specs.Lookahead.{HasEntries, WritesLookaheads};
ghost use Rattle.grid_core.specs.declared.limits.TheConstants.{MAX_RUNS};
ghost use Rattle.line_core.specs.declared.prefix_supports.TheConstants.{ROW_STRIDE};
ghost use Rattle.line_core.specs.steps.PrefixScan.{IsDomainOf};
ghost use Rattle.line_core.specs.steps.Lookahead.{AreFeasible};
ghost use Rattle.line_core.specs.steps.Feasibility.{AreLengths};

use crate::combining::{EndSupports, combine_supports};
use crate::domains::{LineDomain, reversed};
use crate::lookahead::{Lookahead, Support};
use crate::prefix_supports::{ROW_STRIDE, write_feasible, write_prefix_supports};
use crate::suffixes::MAX_GAPS;
use bit_sets::BitSet;
use grid_core::{BitLine, MAX_RUNS, NoMemory};
use std::alloc::Global;

/// Initializes a buffer with empty sets on its first use. Allocates nothing.
fn ensure_initialized<W: BitSet>(buffer: &mut Vec<[W::Stored; MAX_GAPS]>)
    requires { 0 < vec_capacity buffer.old }
    ensures ready { 0 < vec_len buffer.new }
    ensures fits { 0 < vec_capacity buffer.new }
{
    // Not done where it is allocated: many puzzles are solved without a lookahead table.
    if buffer.is_empty() {
        buffer.push_reserved([W::empty().to_stored(); MAX_GAPS]);
    }
}

/// Extends `table` to the rows that a clue of `runs` runs needs, one of `ROW_STRIDE` entries for
/// each gap. Allocates nothing: the capacity has to suffice.
fn make_rows<W: BitSet>(table: &mut Vec<Support<W>>, runs: usize)
    requires runs { runs ≤ MAX_RUNS }
    requires fits { ROW_STRIDE * (runs + 1) ≤ vec_capacity table.old }
    ensures rows { ROW_STRIDE * (runs + 1) ≤ vec_len table.new }
    ensures fits { vec_capacity table.new ≡ vec_capacity table.old }
{
    while table.len() < ROW_STRIDE * (runs + 1) {
        table.push_reserved(Support::none());
    }
}

/// Writes the feasible gaps and the feasible ends of runs of the mirrored line, whose clue is
/// `mirrored`. `suffix` is a buffer for the suffix sets.
fn write_mirrored_feasible<W: BitSet>(
    domain: &LineDomain<W>,
    mirrored: &[u16],
    suffix: &mut [W::Stored; MAX_GAPS],
    gaps: &mut [W::Stored; MAX_GAPS],
    ends: &mut [W::Stored; MAX_GAPS],
)
    ghost line: { List Cell }
    requires domain { IsDomainOf W.WIDTH line domain.now.len
        (W.bits domain.now.not_filled) (W.bits domain.now.not_blank) }
    requires clue { AreLengths W.WIDTH mirrored.now }
    ensures { AreFeasible (reverse line) mirrored.now
        (map W.stored_bits gaps.new) (map W.stored_bits ends.new) }
{
    write_feasible(&reversed(domain), mirrored, suffix, gaps, ends);
}

/// The buffers for computing lookahead for clues of at most `max_runs` runs. All are allocated
/// once, and initialized as far as they are used.
pub struct LookaheadBuffers<W: BitSet> {
    /// The feasible gaps of a line.
    gaps: Vec<[W::Stored; MAX_GAPS]>,
    /// The feasible ends of its runs.
    ends: Vec<[W::Stored; MAX_GAPS]>,
    /// Its prefix supports, one row of `ROW_STRIDE` entries for each gap.
    before: Vec<Support<W>>,
    /// The prefix supports of the mirrored line, one row of `ROW_STRIDE` entries for each gap.
    after: Vec<Support<W>>,
    /// The greatest number of runs of a clue.
    max_runs: usize,
    ghost gaps_fit: { 0 < vec_capacity gaps },
    ghost ends_fit: { 0 < vec_capacity ends },
    ghost before_fits: { ROW_STRIDE * (max_runs + 1) ≤ vec_capacity before },
    ghost after_fits: { ROW_STRIDE * (max_runs + 1) ≤ vec_capacity after },
    ghost few: { max_runs ≤ MAX_RUNS },
}

/// Written by hand so that callers' proofs see one call: a derived drop is expanded at each exit of
/// each caller.
impl<W: BitSet> Drop for LookaheadBuffers<W> {
    fn drop(self) {
        let LookaheadBuffers {
            gaps: _,
            ends: _,
            before: _,
            after: _,
            max_runs: _,
        } = self;
    }
}

impl<W: BitSet> LookaheadBuffers<W> {
    /// Allocates the buffers for clues of at most `max_runs` runs, 0 to 128. Returns `NoMemory` if
    /// an allocation fails.
    pub fn new(alloc: Global, max_runs: usize) -> Result<LookaheadBuffers<W>, NoMemory>
        requires { max_runs ≤ MAX_RUNS }
        ensures { IfOk result (λ buffers. buffers.max_runs ≡ max_runs) }
    {
        let entries = ROW_STRIDE * (max_runs + 1);
        Ok(LookaheadBuffers {
            gaps: Vec::with_capacity(alloc, 1)?,
            ends: Vec::with_capacity(alloc, 1)?,
            before: Vec::with_capacity(alloc, entries)?,
            after: Vec::with_capacity(alloc, entries)?,
            max_runs,
        })
    }

    /// Returns the greatest number of runs of a clue for which the buffers suffice.
    pub fn max_runs(&self) -> usize
        ensures { result ≡ self.now.max_runs }
    {
        self.max_runs
    }

    /// Writes, for each unknown cell of `line`, the support of the line after that cell is filled
    /// and after it is made blank. `suffix` is a buffer; the entries of known cells are
    /// unspecified.
    pub(crate) fn write_lookaheads(
        &mut self,
        line: &BitLine<W>,
        clue: &[u16],
        suffix: &mut [W::Stored; MAX_GAPS],
        lookaheads: &mut [Lookahead<W>],
    )
        ghost cells: { List Cell }
        requires cells { line.now ≡ cells }
        requires clue { AreLengths W.WIDTH clue.now }
        requires max_runs { length clue.now ≤ self.old.max_runs }
        requires lookaheads { HasEntries cells lookaheads.old }
        ensures lookaheads { WritesLookaheads clue.now cells lookaheads.old lookaheads.new }
        ensures max_runs { self.new.max_runs ≡ self.old.max_runs }
    {
        ensure_initialized::<W>(&mut self.gaps);
        ensure_initialized::<W>(&mut self.ends);
        make_rows(&mut self.before, clue.len());
        make_rows(&mut self.after, clue.len());
        let domain = LineDomain::of(line);
        let (gaps, ends) = (&mut self.gaps[0], &mut self.ends[0]);
        // The mirrored line comes first: both lines use the same buffers for gaps and ends, and
        // only those of the line itself are needed afterwards.
        let mut numbers = [0; MAX_RUNS];
        let mirrored = &mut numbers[..clue.len()];
        mirrored.copy_from_slice(clue);
        mirrored.reverse();
        write_mirrored_feasible(&domain, mirrored, suffix, gaps, ends);
        write_prefix_supports::<W, true>(domain.len, mirrored, gaps, ends, &mut self.after);
        write_feasible(&domain, clue, suffix, gaps, ends);
        write_prefix_supports::<W, false>(domain.len, clue, gaps, ends, &mut self.before);
        let supports = EndSupports {
            len: domain.len,
            before: &self.before,
            after: &self.after,
        };
        combine_supports(clue, gaps, ends, &supports, lookaheads);
    }
}
