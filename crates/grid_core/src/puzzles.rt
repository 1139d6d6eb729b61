//! Puzzles.

ghost use Rattle.std.specs.Prelude.{◌≡◌, ◌*◌, ◌<◌, ◌↔◌, true, false, length, option_map, IfOk, IsErrOf, IsTrue, IfSome, slice_index_or, []};
ghost use Rattle.std.specs.List.{AllByRecursion};
ghost use Rattle.grid_core.specs.Clues.{is_clue};
ghost use Rattle.grid_core.specs.Nonogram.{GoalMeets, IsNonogram, HasClueForEachLine, Solves, bools_of, is_goal};
ghost use Rattle.grid_core.specs.PartialGrid.{IsSize};

use crate::limits::MAX_SIDE;
use crate::pictures::{Picture, is_met};
use crate::{Cell, Clue, Grid, NoMemory, Texts};
use std::alloc::Global;
use std::marker::Model;
use thiserror::Error;

/// The error of making a puzzle.
#[derive(Clone, Copy, Debug, PartialEq, Eq, Error)]
pub enum PuzzleFault {
    /// The width or the height is 0 or greater than 256.
    #[error("a side is from 1 to 256")]
    BadSize,
    /// The number of row clues is not the height, or the number of column clues is not the width.
    #[error("there is one clue for each line")]
    BadCount,
    /// The goal does not have one value for each cell.
    #[error("the goal has one value for each cell")]
    BadGoal,
}

/// A nonogram: a width and a height, from 1 to 256 cells each, the clue of each row and column,
/// texts, and perhaps a goal, the intended colours of all cells in row order. The clues may be
/// contradictory: they need not fit their lines, and rows and columns may require different numbers
/// of filled cells.
#[derive(Debug)]
pub struct Puzzle {
    width: u16,
    height: u16,
    rows: Vec<Clue>,
    columns: Vec<Clue>,
    texts: Texts,
    goal: Option<Vec<bool>>,
}

/// Written by hand so that callers' proofs see one call: a derived drop is expanded at each exit of
/// each caller.
impl Drop for Puzzle {
    fn drop(self) {
        let Puzzle {
            width: _,
            height: _,
            rows: _,
            columns: _,
            texts: _,
            goal: _,
        } = self;
    }
}

impl Model for Puzzle {
    ghost use Rattle.std.specs.Prelude.{◌≡◌};
    ghost use Rattle.grid_core.specs.Nonogram.{Nonogram, IsNonogram, bools_of};

    ghost Value = { Nonogram };

    ghost view = { λ p. record {
      width = p.width;
      height = p.height;
      rows = p.rows.items;
      columns = p.columns.items;
      texts = p.texts;
      goal = bools_of p.goal;
    } };

    ghost invariant = { λ p. IsNonogram (record {
      width = p.width;
      height = p.height;
      rows = p.rows.items;
      columns = p.columns.items;
      texts = p.texts;
      goal = bools_of p.goal;
    }) };
}

/// Whether a puzzle has a goal that meets its clues.
#[derive(Clone, Copy, Debug, PartialEq, Eq)]
pub enum GoalWord {
    /// The puzzle has no goal.
    Absent,
    /// The goal meets the clues of all lines.
    Meets,
    /// The goal does not meet the clue of some line.
    Misses,
}

impl Puzzle {
    /// Returns the puzzle of this size, with these clues, from the top and from the left, these
    /// texts and this goal. Fails with `BadSize` if the width or the height is 0 or greater than
    /// 256; otherwise with `BadCount` if there is not one clue for each row and each column;
    /// otherwise with `BadGoal` if there is a goal that does not have one value for each cell. It
    /// doesn't fail for any other reason.
    pub fn new(
        width: u16,
        height: u16,
        rows: Vec<Clue>,
        columns: Vec<Clue>,
        texts: Texts,
        goal: Option<Vec<bool>>,
    ) -> Result<Puzzle, PuzzleFault>
        ensures ok { IfOk result (λ p. p ≡ record {
          width = width;
          height = height;
          rows = rows.items;
          columns = columns.items;
          texts = texts;
          goal = bools_of goal;
        }) }
        ensures puzzle { IfOk result (λ p. IsNonogram p) }
        ensures bad_size { IsErrOf result PuzzleFault.BadSize ↔ ¬ IsSize width height }
        ensures bad_count { IsErrOf result PuzzleFault.BadCount
            ↔ (IsSize width height × ¬ HasClueForEachLine width height rows.items columns.items) }
        ensures bad_goal { IsErrOf result PuzzleFault.BadGoal
            ↔ (IsSize width height × HasClueForEachLine width height rows.items columns.items
            × (is_goal (width * height) (bools_of goal) ≡ false)) }
    {
        if !(1..=MAX_SIDE).contains(&width) || !(1..=MAX_SIDE).contains(&height) {
            return Err(PuzzleFault::BadSize);
        }
        if rows.len() != usize::from(height) || columns.len() != usize::from(width) {
            return Err(PuzzleFault::BadCount);
        }
        if !is_goal(usize::from(width) * usize::from(height), &goal) {
            return Err(PuzzleFault::BadGoal);
        }
        // These three calls do nothing but bring the invariants of the parts into the proof.
        recall_invariant(&rows);
        recall_invariant(&columns);
        texts.recall_invariant();
        Ok(Puzzle {
            width,
            height,
            rows,
            columns,
            texts,
            goal,
        })
    }

    /// Returns the number of cells in a row, from 1 to 256.
    pub fn width(&self) -> u16
        ensures width { result ≡ self.now.width }
        ensures puzzle { IsNonogram self.now }
    {
        self.width
    }

    /// Returns the number of cells in a column, from 1 to 256.
    pub fn height(&self) -> u16
        ensures { result ≡ self.now.height }
    {
        self.height
    }

    /// Returns the clue of row `y`, counted from 0 at the top.
    pub fn row_clue(&self, y: u16) -> &Clue
        requires { y < self.now.height }
        ensures { result.now ≡ slice_index_or self.now.rows y [] }
    {
        &self.rows[usize::from(y)]
    }

    /// Returns the clue of column `x`, counted from 0 at the left.
    pub fn col_clue(&self, x: u16) -> &Clue
        requires { x < self.now.width }
        ensures { result.now ≡ slice_index_or self.now.columns x [] }
    {
        &self.columns[usize::from(x)]
    }

    /// Returns the clues of the rows, from the top.
    pub fn rows(&self) -> &[Clue]
        ensures rows { result.now ≡ self.now.rows }
        ensures puzzle { IsNonogram self.now }
    {
        self.rows.as_slice()
    }

    /// Returns the clues of the columns, from the left.
    pub fn columns(&self) -> &[Clue]
        ensures columns { result.now ≡ self.now.columns }
        ensures puzzle { IsNonogram self.now }
    {
        self.columns.as_slice()
    }

    /// Returns the texts that describe the puzzle.
    pub fn texts(&self) -> &Texts
        ensures { result.now ≡ self.now.texts }
    {
        &self.texts
    }

    /// Returns the goal's values in row order, `true` for filled, if there is a goal.
    pub fn goal(&self) -> Option<&[bool]>
        ensures goal { option_map (λ cells. cells.now) result ≡ self.now.goal }
        ensures size { IfSome self.now.goal (λ values.
            length values ≡ self.now.width * self.now.height) }
    {
        match &self.goal {
            Some(cells) => Some(cells.as_slice()),
            None => None,
        }
    }

    /// Returns a copy of the puzzle, or `NoMemory` if an allocation fails.
    pub fn copy(&self, alloc: Global) -> Result<Puzzle, NoMemory>
        ensures { IfOk result (λ p. p ≡ self.now) }
    {
        Ok(Puzzle {
            width: self.width,
            height: self.height,
            rows: copy_clues(alloc, &self.rows)?,
            columns: copy_clues(alloc, &self.columns)?,
            texts: self.texts.copy(alloc)?,
            goal: copy_goal(&self.goal)?,
        })
    }

    /// Reports whether `grid` solves the puzzle: it has the puzzle's width and height, is full, and
    /// meets the clue of each line.
    pub fn solved_by(&self, grid: &Grid) -> bool
        ensures { IsTrue result ↔ Solves self.now grid.now }
    {
        if grid.width() != self.width() || grid.height() != self.height() {
            return false;
        }
        if grid.first_unknown().is_some() {
            return false;
        }
        is_met(self, Picture::Cells(grid))
    }

    /// Reports whether there is a goal, and whether it meets the clues of all lines.
    pub fn goal_word(&self) -> GoalWord
        ensures absent { (result ≡ GoalWord.Absent) ↔ (self.now.goal ≡ None) }
        ensures meets { (result ≡ GoalWord.Meets) ↔ GoalMeets self.now }
    {
        match self.goal() {
            None => GoalWord::Absent,
            Some(values) => {
                if is_met(self, Picture::Values(values)) {
                    GoalWord::Meets
                } else {
                    GoalWord::Misses
                }
            }
        }
    }
}

/// Returns a copy of the clues, or `NoMemory` if an allocation fails.
fn copy_clues(alloc: Global, clues: &[Clue]) -> Result<Vec<Clue>, NoMemory>
    ensures { IfOk result (λ copies. copies.items ≡ clues.now) }
{
    let mut copies = Vec::with_capacity(alloc, clues.len())?;
    for clue in clues {
        copies.push(clue.copy(alloc)?)?;
    }
    Ok(copies)
}

/// Returns a copy of the goal, if there is one, or `NoMemory` if an allocation fails.
fn copy_goal(goal: &Option<Vec<bool>>) -> Result<Option<Vec<bool>>, NoMemory>
    ensures { IfOk result (λ copied. bools_of copied ≡ bools_of goal.now) }
{
    match goal {
        Some(values) => Ok(Some(values.clone()?)),
        None => Ok(None),
    }
}

/// Reports whether the goal, if there is one, has `count` values.
fn is_goal(count: usize, goal: &Option<Vec<bool>>) -> bool
    ensures { result ≡ is_goal count (bools_of goal.now) }
{
    match goal {
        Some(values) => values.len() == count,
        None => true,
    }
}

/// Brings the invariant of each clue, that its numbers are in range and not too many, into the
/// caller's proof. It has no other effect.
fn recall_invariant(mut clues: &[Clue])
    ensures { AllByRecursion (λ clue. is_clue MAX_SIDE clue ≡ true) clues.entry.now }
{
    'recalling: while let [clue, rest @ ..] = clues {
        clue.numbers();
        clues = rest;
    }
}
