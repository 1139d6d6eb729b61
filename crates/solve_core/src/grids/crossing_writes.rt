//! Changes of a line, written into the lines that cross it: by words of 64 indices, and one colour
//! after the other, so that no cell's colour has to be looked up.
ghost use Rattle.std.specs.Prelude.{◌≡◌, ℕ, ◌<◌, ◌≤◌, [], length, slice_index_or, slice_set, true};
ghost use Rattle.grid_core.specs.declared.cells.Cell.TheVariants.{Unknown};
ghost use Rattle.grid_core.specs.Cells.{is_known};
ghost use Rattle.bit_sets.specs.Masks.{Has};
ghost use Rattle.solve_core.specs.steps.CrossingWrites.{CanWriteIn, IsIn};

use crate::grids::words::{WORD, without_first, word_from};
use bit_sets::BitSet;
use grid_core::Cell;
use line_core::{BitLine, LineBits};

/// Assigns `colour` to cell `i` of `line`, which is unknown, or makes the cell unknown if `colour`
/// is.
fn write_cell<W: LineBits>(line: &mut BitLine<W>, i: u16, colour: Cell)
    requires i { i < length line.old }
    requires unknown { is_known colour ≡ true → slice_index_or line.old i Unknown ≡ Unknown }
    ensures { line.new ≡ slice_set line.old i colour }
{
    if colour.is_known() {
        line.assign(i, colour);
    } else {
        line.set(i, colour);
    }
}

/// Writes `colour`, which may be unknown, into cell `i` of each line whose number is in `indices`
/// and among the 64 from `from` on.
fn write_word<W: LineBits>(lines: &mut [BitLine<W>], i: u16, indices: W, from: u16, colour: Cell)
    requires from { from < W.WIDTH }
    requires cells { (k : ℕ) → IsIn (W.bits indices) from k → CanWriteIn lines.old i colour k }
    ensures changed { (k : ℕ) → IsIn (W.bits indices) from k →
        slice_index_or lines.new k [] ≡ slice_set (slice_index_or lines.old k []) i colour }
    ensures others { (k : ℕ) → (IsIn (W.bits indices) from k → ⊥)
        → slice_index_or lines.new k [] ≡ slice_index_or lines.old k [] }
    ensures len { length lines.new ≡ length lines.old }
{
    let mut left = word_from(indices, from);
    while !left.is_empty() {
        let k = left.first_index();
        left = without_first(left);
        write_cell(&mut lines[usize::from(from + k)], i, colour);
    }
}

/// Writes `colour`, which may be unknown, into cell `i` of each line whose number is in `indices`.
fn write_each<W: LineBits>(lines: &mut [BitLine<W>], i: u16, indices: W, colour: Cell)
    requires within { (k : ℕ) → Has (W.bits indices) k → k < W.WIDTH }
    requires cells { (k : ℕ) → Has (W.bits indices) k → CanWriteIn lines.old i colour k }
    ensures changed { (k : ℕ) → Has (W.bits indices) k →
        slice_index_or lines.new k [] ≡ slice_set (slice_index_or lines.old k []) i colour }
    ensures others { (k : ℕ) → (Has (W.bits indices) k → ⊥)
        → slice_index_or lines.new k [] ≡ slice_index_or lines.old k [] }
    ensures len { length lines.new ≡ length lines.old }
{
    let mut from = 0;
    while from < W::WIDTH {
        write_word(lines, i, indices, from, colour);
        from += WORD;
    }
}

/// Writes into cell `i` of each line whose number is in `changes` the cell that `new` has at that
/// number.
pub fn write_changes<W: LineBits>(lines: &mut [BitLine<W>], i: u16, new: &BitLine<W>, changes: W)
    requires within { (k : ℕ) → Has (W.bits changes) k → k < W.WIDTH }
    requires cells { (k : ℕ) → Has (W.bits changes) k
        → CanWriteIn lines.old i (slice_index_or new.now k Unknown) k }
    ensures changed { (k : ℕ) → Has (W.bits changes) k → slice_index_or lines.new k []
        ≡ slice_set (slice_index_or lines.old k []) i (slice_index_or new.now k Unknown) }
    ensures others { (k : ℕ) → (Has (W.bits changes) k → ⊥)
        → slice_index_or lines.new k [] ≡ slice_index_or lines.old k [] }
    ensures len { length lines.new ≡ length lines.old }
{
    let filled = changes.intersection(new.filled());
    let blank = changes.intersection(new.blank());
    write_each(lines, i, filled, Cell::Filled);
    write_each(lines, i, blank, Cell::Blank);
    let unknown = changes.difference(filled.union(blank));
    write_each(lines, i, unknown, Cell::Unknown);
}
