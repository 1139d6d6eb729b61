//! The diagnosis of a puzzle.

ghost use Rattle.std.specs.Prelude.{◌≡◌, IfOk, None};
ghost use Rattle.grid_core.specs.Nonogram.{IsNonogram};
ghost use Rattle.solve_core.specs.Report.{line_closure};
ghost use Rattle.diagnosis.specs.Diagnoses.{HaveSizeOf, IsDiagnosisOf, IsOutcomeOf, IsReportOn};

use crate::contradictions::{Refutation, refutation_of};
use crate::differences::{Position, differing_cells};
use crate::goals::goal_rows;
use crate::misfits::{Misfit, puzzle_misfits};
use crate::sums::{Sums, puzzle_sums};
use grid_core::{Grid, NoMemory, Puzzle};
use solve_core::{Findings, Grade, Verdict};
use std::alloc::Global;

/// What is wrong with the solutions of a puzzle.
#[derive(Debug, Drop)]
pub enum Outcome<'a> {
    /// There is no solution: this refuted the puzzle.
    Refuted(Refutation),
    /// There is one solution. These rows, counted from 0, differ from the puzzle's goal, if it has
    /// one.
    Unique(Vec<u16>),
    /// There are at least two solutions.
    Ambiguous {
        /// The solution that was found first.
        first: &'a Grid,
        /// Another solution.
        second: &'a Grid,
        /// The cells in which these two differ, in row order.
        differing: Vec<Position>,
    },
    /// The limit on guesses cut the search short.
    Unsettled,
}

/// What is wrong with a puzzle, and where. It borrows the solutions from the findings of a report.
#[derive(Debug, Drop)]
pub struct Diagnosis<'a> {
    /// The clues that don't fit their line, rows first. If there is one, there is no solution.
    pub misfits: Vec<Misfit>,
    /// How many filled cells the clues ask for. If these numbers differ, there is no solution.
    pub sums: Sums,
    /// What the verdict shows.
    pub outcome: Outcome<'a>,
}

/// Returns what the verdict on `puzzle` in `findings` shows. Fails with `NoMemory` if an allocation
/// fails.
fn outcome_of<'a>(
    alloc: Global,
    puzzle: &Puzzle,
    findings: &'a Findings,
) -> Result<Outcome<'a>, NoMemory>
    requires sizes { HaveSizeOf puzzle.now findings.now.verdict }
    requires dead { findings.now.verdict ≡ Verdict.Nothing → findings.now.grade ≡ Grade.Lines
        → line_closure puzzle.now ≡ None }
    ensures { IfOk result (IsOutcomeOf puzzle.now findings.now) }
{
    Ok(match &findings.verdict {
        Verdict::Nothing => Outcome::Refuted(refutation_of(alloc, puzzle, findings.grade)?),
        Verdict::One(grid) => Outcome::Unique(goal_rows(alloc, puzzle, grid)?),
        Verdict::Several(first, second) => Outcome::Ambiguous {
            first,
            second,
            differing: differing_cells(alloc, first, second)?,
        },
        Verdict::Unsettled(_) => Outcome::Unsettled,
    })
}

/// Brings the invariant of `puzzle`, that it is a nonogram, into the caller's proof. It has no
/// other effect.
fn recall_invariant(puzzle: &Puzzle)
    ensures { IsNonogram puzzle.now }
{
    // Called for its contract, which states the invariant.
    puzzle.width();
}

/// Returns what is wrong with `puzzle`, by the `findings` of a report on it. Fails with `NoMemory` if
/// an allocation fails.
pub fn diagnose<'a>(
    alloc: Global,
    puzzle: &Puzzle,
    findings: &'a Findings,
) -> Result<Diagnosis<'a>, NoMemory>
    requires { IsReportOn puzzle.now findings.now }
    ensures { IfOk result (IsDiagnosisOf puzzle.now findings.now) }
{
    recall_invariant(puzzle);
    Ok(Diagnosis {
        misfits: puzzle_misfits(alloc, puzzle)?,
        sums: puzzle_sums(puzzle),
        outcome: outcome_of(alloc, puzzle, findings)?,
    })
}
