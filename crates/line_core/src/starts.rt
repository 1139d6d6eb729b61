//! The leftmost and the rightmost placing of a line.

ghost use Rattle.std.specs.Prelude.{◌≡◌, ◌<◌, ◌≤◌, [], length, map, take, slice_index, ℕ, List, Some, None, IfOk, MatchBool};
ghost use Rattle.grid_core.specs.declared.cells.Cell.{Cell};
ghost use Rattle.bit_sets.specs.Masks.{Has};
ghost use Rattle.line_core.specs.RunStarts.{leftmost, rightmost};
ghost use Rattle.line_core.specs.steps.Outermost.{outermost, IsAsFar, IsOuterStart};
ghost use Rattle.line_core.specs.steps.PrefixScan.{IsDomainOf};
ghost use Rattle.line_core.specs.steps.Feasibility.{AreLengths, AreSuffixes, HasPlacing};

use crate::Line;
use crate::domains::LineDomain;
use crate::prefix_scan::PrefixScan;
use crate::suffixes::{MAX_GAPS, suffix_ends, write_suffixes};
use bit_sets::{BitSet, Bits256, fit_table};
use grid_core::{BitLine, Clue, MAX_RUNS, MAX_SIDE, NoMemory};
use std::alloc::Global;
use std::marker::Model;

/// The direction in which the runs of a placing are moved as far as they can be.
#[derive(Clone, Copy)]
pub enum Direction {
    Left,
    Right,
}

/// Returns the index of a nonempty set that is furthest in a direction: the least or the greatest
/// one.
fn outermost_index<W: BitSet>(direction: Direction, indices: W) -> u16
    requires { 0 < W.bits indices }
    ensures within { result < W.WIDTH }
    ensures in_mask { Has (W.bits indices) result }
    ensures outermost { (i : ℕ) → Has (W.bits indices) i → IsAsFar direction result i }
{
    match direction {
        Direction::Left => indices.first_index(),
        Direction::Right => indices.last_index(),
    }
}

/// A buffer for the start of each run of a placing.
#[derive(Drop)]
struct StartList {
    starts: [u16; MAX_RUNS],
}

/// Writes, for each run, the start that is furthest in a direction among all placings. Returns
/// whether there is a placing; if not, the contents of `list` are unspecified. `suffixes` are the
/// suffix sets of the line.
fn write_starts<W: BitSet>(
    direction: Direction,
    domain: &LineDomain<W>,
    clue: &[u16],
    suffixes: &[W::Stored; MAX_GAPS],
    list: &mut StartList,
) -> bool
    ghost line: { List Cell }
    requires domain { IsDomainOf W.WIDTH line domain.now.len
        (W.bits domain.now.not_filled) (W.bits domain.now.not_blank) }
    requires clue { AreLengths W.WIDTH clue.now }
    requires some { 0 < length clue.now }
    requires suffix { AreSuffixes line clue.now (map W.stored_bits suffixes.now) }
    ensures starts { MatchBool result
        ((j : ℕ) → j < length clue.now
        → IsOuterStart direction line clue.now j (slice_index list.new.starts j))
        (HasPlacing line clue.now → ⊥) }
    ensures len { length list.new.starts ≡ length list.old.starts }
{
    let fits = fit_table(domain.not_blank);
    let mut scan = PrefixScan::new(domain);
    // For each run the outermost of all its ends in placings is taken. Together these belong to one
    // placing, so the choice for one run does not restrict those for others.
    for j in 0..clue.len() {
        let ends = scan.next_run(&fits, clue[j]);
        let feasible = ends.intersection(suffix_ends(clue, suffixes, j));
        if feasible.is_empty() {
            return false;
        }
        list.starts[j] = outermost_index(direction, feasible) + 1 - clue[j];
    }
    true
}

/// Writes the starts of the placing that is outermost in a direction, using sets of type `W`.
/// Returns whether there is a placing; if not, the contents of `list` are unspecified. `suffixes`
/// is a buffer for the suffix sets.
fn find_starts<W: BitSet>(
    direction: Direction,
    line: &BitLine<W>,
    clue: &[u16],
    suffixes: &mut [W::Stored; MAX_GAPS],
    list: &mut StartList,
) -> bool
    ghost cells: { List Cell }
    requires cells { line.now ≡ cells }
    requires clue { AreLengths W.WIDTH clue.now }
    ensures { MatchBool result
        (outermost direction cells clue.now ≡ Some (take (length clue.now) list.new.starts))
        (outermost direction cells clue.now ≡ None) }
{
    if clue.is_empty() {
        return line.filled().is_empty();
    }
    let domain = LineDomain::of(line);
    write_suffixes(&domain, clue, suffixes);
    write_starts(direction, &domain, clue, suffixes, list)
}

/// The starts of the runs of a placing, in order, with the buffer for finding them. Contracts see
/// it as the list of the starts.
#[derive(Drop)]
pub struct Starts {
    count: usize,
    list: StartList,
    /// The buffer for the suffix sets of a line.
    suffixes: Vec<[Bits256; MAX_GAPS]>,
}

impl Model for Starts {
    ghost use Rattle.std.specs.Prelude.{◌<◌, ◌≤◌, ℕ, List, take, vec_len};
    ghost use Rattle.grid_core.specs.declared.limits.TheConstants.{MAX_RUNS};

    ghost Value = { List ℕ };

    ghost view = { λ starts. take starts.count starts.list.starts };

    ghost invariant = { λ starts.
        (starts.count ≤ MAX_RUNS) × (0 < vec_len starts.suffixes) };
}

impl Starts {
    /// Allocates the buffer, with an empty list of starts. Returns `NoMemory` if an allocation
    /// fails.
    pub fn new(alloc: Global) -> Result<Starts, NoMemory>
        ensures { IfOk result (λ starts. starts ≡ []) }
    {
        Ok(Starts {
            count: 0,
            list: StartList {
                starts: [0; MAX_RUNS],
            },
            suffixes: vec![in alloc; [Bits256::empty(); MAX_GAPS]]?,
        })
    }

    /// Returns the starts that the last call of `leftmost` or `rightmost` stored here, as cell
    /// indices counted from 0. The list is empty if that call found no placing, and before the
    /// first call.
    pub fn list(&self) -> &[u16]
        ensures { result.now ≡ self.now }
    {
        &self.list.starts[..self.count]
    }

    /// Stores the starts of the placing that is outermost in a direction. Returns whether there is
    /// a placing; if not, the list of starts is empty.
    fn find(&mut self, direction: Direction, line: &Line, clue: &[u16]) -> bool
        requires { AreLengths MAX_SIDE clue.now }
        ensures { MatchBool result
            (outermost direction line.now clue.now ≡ Some self.new)
            ((outermost direction line.now clue.now ≡ None) × (self.new ≡ [])) }
    {
        let found = find_starts(direction, line, clue, &mut self.suffixes[0], &mut self.list);
        self.count = if found { clue.len() } else { 0 };
        found
    }
}

/// Stores the starts of the leftmost placing, each of which is the least start of its run among all
/// placings. Returns `false`, with an empty list of starts, if there is no placing.
pub fn leftmost(line: &Line, clue: &Clue, starts: &mut Starts) -> bool
    ensures { MatchBool result
        (leftmost line.now clue.now ≡ Some starts.new)
        ((leftmost line.now clue.now ≡ None) × (starts.new ≡ [])) }
{
    starts.find(Direction::Left, line, clue.numbers())
}

/// Stores the starts of the rightmost placing, each of which is the greatest start of its run among
/// all placings. Returns `false`, with an empty list of starts, if there is no placing.
pub fn rightmost(line: &Line, clue: &Clue, starts: &mut Starts) -> bool
    ensures { MatchBool result
        (rightmost line.now clue.now ≡ Some starts.new)
        ((rightmost line.now clue.now ≡ None) × (starts.new ≡ [])) }
{
    starts.find(Direction::Right, line, clue.numbers())
}
