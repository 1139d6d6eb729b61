//! The rules by which the cell of the next guess is chosen.

ghost use Rattle.std.specs.Prelude.{◌≡◌, ◌+◌, ◌*◌, ◌<◌, ◌≤◌, ℕ, false, length, IfSome};
ghost use Rattle.bit_sets.specs.Masks.{Has, has, IsMaskOf};
ghost use Rattle.grid_core.specs.PartialGrid.{IsSize, PartialGrid, cell_at, cell_index};
ghost use Rattle.solve_core.specs.Picks.{is_known_or_outside, known_neighbours, most_known};
ghost use Rattle.solve_core.specs.steps.Counts.{IsFirstHighest, IsUnknownIn, count_across, count_beside, set_count, two_of};

use bit_sets::{BitSet, complement_within, prefix};
use std::marker::Model;

/// The rule by which the unknown cell to guess next is chosen.
#[derive(Clone, Copy, Debug, PartialEq, Eq)]
pub enum Pick {
    /// The first unknown cell in row order.
    First,
    /// The unknown cell that has the most neighbours, of four, that are known or outside the grid,
    /// and of several the first in row order.
    Most,
}

/// A grid whose rows are read as sets of columns.
pub trait RowSets {
    /// A set of columns.
    type Set: BitSet;

    /// The grid that is read.
    ghost grid: { Self → PartialGrid };

    /// Returns how many cells a row has.
    fn row_len(&self) -> u16
        ensures len { result ≡ (grid self.now).width }
        ensures fits { (grid self.now).width ≤ Self.Set.WIDTH }
        ensures size { IsSize (grid self.now).width (grid self.now).height }
        ensures count { length (grid self.now).cells
            ≡ (grid self.now).width * (grid self.now).height };

    /// Returns how many rows the grid has.
    fn row_count(&self) -> usize
        ensures { result ≡ (grid self.now).height };

    /// Returns the columns in which row `y` has an unknown cell.
    fn unknown_in_row(&self, y: usize) -> Self::Set
        requires { (y < (grid self.now).height) × (y < 256) }
        ensures { IsMaskOf (IsUnknownIn (grid self.now) y) (Self.Set.bits result) };
}

/// Two sets of indices, as the indices that are in either of them, and those that are in both.
#[derive(Drop)]
pub struct TwoSets<W: BitSet> {
    either: W,
    both: W,
}

impl<W: BitSet> Model for TwoSets<W> {
    ghost use Rattle.std.specs.Prelude.{ℕ};
    ghost use Rattle.bit_sets.specs.Masks.{Has};

    ghost Value = { ℕ × ℕ };

    ghost view = { λ t. (W.bits t.either, W.bits t.both) };

    ghost invariant = { λ t. (i : ℕ) → Has (W.bits t.both) i → Has (W.bits t.either) i };
}

impl<W: BitSet> TwoSets<W> {
    /// Returns the two sets `set` and `other`.
    fn of(set: W, other: W) -> TwoSets<W>
        ensures { (i : ℕ) →
            set_count result i ≡ two_of (has (W.bits set) i) (has (W.bits other) i) }
    {
        TwoSets {
            either: set.union(other),
            both: set.intersection(other),
        }
    }
}

/// Returns those of `indices` that are in at least `count`, 0 to 4, of four sets, the two of
/// `first` and the two of `second`.
pub fn in_at_least<W: BitSet>(
    indices: W,
    first: &TwoSets<W>,
    second: &TwoSets<W>,
    count: usize,
) -> W
    requires { count ≤ 4 }
    ensures { IsMaskOf
        (λ i. Has (W.bits indices) i
        × (count ≤ set_count first.now i + set_count second.now i))
        (W.bits result) }
{
    match count {
        0 => indices,
        1 => indices.intersection(first.either.union(second.either)),
        2 => indices.intersection(
            first
                .both
                .union(second.both)
                .union(first.either.intersection(second.either)),
        ),
        3 => indices.intersection(
            first
                .both
                .intersection(second.either)
                .union(first.either.intersection(second.both)),
        ),
        _ => indices.intersection(first.both.intersection(second.both)),
    }
}

/// Counts for each of `indices` in how many of four sets it is, the two of `first` and the two of
/// `second`. Returns the greatest count and the first index that has it; `None` if no count is at
/// least `least`.
fn first_in_most_sets<W: BitSet>(
    indices: W,
    first: &TwoSets<W>,
    second: &TwoSets<W>,
    least: usize,
) -> Option<(usize, u16)>
    ensures { IsFirstHighest
        (λ i. set_count first.now i + set_count second.now i)
        (Has (W.bits indices)) least result }
{
    let mut count = 5;
    while count > least {
        count -= 1;
        let found = in_at_least(indices, first, second, count);
        if !found.is_empty() {
            return Some((count, found.first_index()));
        }
    }
    None
}

/// Returns how many horizontal neighbours of each cell of a row are known or outside the grid. The
/// row has `len` cells, of which those in `unknown` are unknown.
pub fn known_beside<W: BitSet>(unknown: W, len: u16) -> TwoSets<W>
    requires { (0 < len) × (len ≤ W.WIDTH) }
    ensures { (x : ℕ) → x < len → set_count result x ≡ count_beside (W.bits unknown) x }
{
    // No cell outside the row is in `unknown`, so both ends have a known neighbour there.
    let left = complement_within(unknown.shifted_up(1), len);
    let right = complement_within(unknown.shifted_down(1), len);
    TwoSets::of(left, right)
}

/// Returns the columns in which row `y` has a known cell; all columns if the row is `outside` the
/// grid.
fn known_or_outside<G: RowSets>(grid: &G, outside: bool, y: usize) -> G::Set
    requires { outside ≡ false → y < (G.grid grid.now).height }
    ensures known { (x : ℕ) → x < (G.grid grid.now).width → has (G.Set.bits result) x
        ≡ is_known_or_outside outside (cell_at (G.grid grid.now) x y) }
    ensures count { length (G.grid grid.now).cells
        ≡ (G.grid grid.now).width * (G.grid grid.now).height }
{
    let len = grid.row_len();
    if outside {
        prefix(len)
    } else {
        complement_within(grid.unknown_in_row(y), len)
    }
}

/// Returns how many vertical neighbours of each cell of row `y` are known or outside the grid.
pub fn known_across<G: RowSets>(grid: &G, y: usize) -> TwoSets<G::Set>
    requires { y < (G.grid grid.now).height }
    ensures { (x : ℕ) → x < (G.grid grid.now).width
        → set_count result x ≡ count_across (G.grid grid.now) y x }
{
    let count = grid.row_count();
    // The index of a row outside the grid isn't used: saturating only keeps the subtraction from
    // underflowing.
    let above = known_or_outside(grid, y == 0, y.saturating_sub(1));
    let below = known_or_outside(grid, y + 1 == count, y + 1);
    TwoSets::of(above, below)
}

/// Returns the greatest number of neighbours that are known or outside the grid among the unknown
/// cells of row `y`, and the first column with such a cell; `None` if none has at least `least`.
fn most_in_row<G: RowSets>(grid: &G, y: usize, least: usize) -> Option<(usize, u16)>
    requires { y < (G.grid grid.now).height }
    ensures { IsFirstHighest
        (λ x. known_neighbours (G.grid grid.now).width (G.grid grid.now).cells
        (cell_index (G.grid grid.now) x y))
        (IsUnknownIn (G.grid grid.now) y) least result }
{
    let len = grid.row_len();
    let unknown = grid.unknown_in_row(y);
    let beside = known_beside(unknown, len);
    first_in_most_sets(unknown, &beside, &known_across(grid, y), least)
}

/// Returns the index of the unknown cell that has the most neighbours that are known or outside the
/// grid, and of several the first in row order; `None` if the grid is full.
pub fn most_known<G: RowSets>(grid: &G) -> Option<usize>
    ensures most { result ≡ most_known (G.grid grid.now).width (G.grid grid.now).cells }
    ensures within { IfSome result (λ index. index < length (G.grid grid.now).cells) }
{
    let width = usize::from(grid.row_len());
    let mut best = None;
    let mut least = 0;
    for y in 0..grid.row_count() {
        if let Some((count, x)) = most_in_row(grid, y, least) {
            best = Some(y * width + usize::from(x));
            // Later cells need a greater count, so that of equal ones the first stays.
            least = count + 1;
        }
    }
    best
}
