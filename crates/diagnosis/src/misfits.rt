//! Clues that need more cells than their line has.

ghost use Rattle.std.specs.Prelude.{◌≡◌, ◌<◌, ◌++◌, [], length, IfOk, slice_index_or};
ghost use Rattle.grid_core.specs.Nonogram.{IsNonogram, clues_on};
ghost use Rattle.grid_core.specs.declared.limits.TheConstants.{MAX_SIDE};
ghost use Rattle.diagnosis.specs.Misfits.{cells_needed, fit_of, misfits_of, misfits_on};

use crate::sums::clue_sum;
use grid_core::{Axis, Clue, NoMemory, Puzzle};
use std::alloc::Global;

/// A clue that doesn't fit its line.
#[derive(Clone, Copy, Debug, PartialEq, Eq)]
pub struct Misfit {
    /// The axis of the line.
    pub axis: Axis,
    /// The number of the line, counted from 0 at the top or at the left.
    pub index: u16,
    /// How many cells the clue needs: the sum of its numbers, and a blank cell between each two.
    pub needed: u32,
    /// How many cells the line has.
    pub cells: u32,
}

/// Returns how many cells a line needs for its clue.
fn cells_needed(clue: &Clue) -> u32
    ensures { result ≡ cells_needed clue.now }
{
    clue_sum(clue) + clue.numbers().len().saturating_sub(1) as u32
}

/// Returns the clue of line `index` of an axis, whether it fits or not, with the cells that it needs
/// and those that its line has.
fn fit(puzzle: &Puzzle, axis: Axis, index: u16) -> Misfit
    requires { index < length (clues_on axis puzzle.now) }
    ensures { result ≡ fit_of axis puzzle.now index }
{
    let (clue, cells) = match axis {
        Axis::Rows => (&puzzle.rows()[usize::from(index)], puzzle.width()),
        Axis::Columns => (&puzzle.columns()[usize::from(index)], puzzle.height()),
    };
    Misfit {
        axis,
        index,
        needed: cells_needed(clue),
        cells: u32::from(cells),
    }
}

/// Returns how many lines an axis has.
pub(crate) fn line_count(puzzle: &Puzzle, axis: Axis) -> u16
    ensures count { result ≡ length (clues_on axis puzzle.now) }
    ensures puzzle { IsNonogram puzzle.now }
{
    match axis {
        Axis::Rows => puzzle.rows().len() as u16,
        Axis::Columns => puzzle.columns().len() as u16,
    }
}

/// Appends the clues of an axis that don't fit their line, in order. Fails with `NoMemory` if an
/// allocation fails.
fn push_misfits(found: &mut Vec<Misfit>, puzzle: &Puzzle, axis: Axis) -> Result<(), NoMemory>
    ensures { IfOk result (λ _. found.new.items ≡ found.old.items ++ misfits_on axis puzzle.now) }
{
    for index in 0..line_count(puzzle, axis) {
        let fit = fit(puzzle, axis, index);
        if fit.cells < fit.needed {
            found.push(fit)?;
        }
    }
    Ok(())
}

/// Returns the clues of `puzzle` that need more cells than their line has: those of the rows from
/// the top, and then those of the columns from the left. Fails with `NoMemory` if an allocation
/// fails.
pub fn puzzle_misfits(alloc: Global, puzzle: &Puzzle) -> Result<Vec<Misfit>, NoMemory>
    ensures { IfOk result (λ misfits. misfits.items ≡ misfits_of puzzle.now) }
{
    let mut found = Vec::new(alloc);
    push_misfits(&mut found, puzzle, Axis::Rows)?;
    push_misfits(&mut found, puzzle, Axis::Columns)?;
    Ok(found)
}
