//! The solutions of a puzzle as values of JSON.

ghost use Rattle.std.specs.Prelude.{◌≡◌, IfOk, map};
ghost use Rattle.diagnosis.specs.Diagnoses.{HaveSizeOf};
ghost use Rattle.serde_json.specs.View.{view};
ghost use Rattle.survey_text.specs.Entries.{solutions_of};
ghost use Rattle.survey_json.specs.Entries.{differing_data};
ghost use Rattle.survey_json.specs.Pictures.{grid_data};
ghost use Rattle.survey_json.specs.Values.{array_of};

use crate::pictures::{differences_value, grid_value};
use grid_core::{Grid, NoMemory, Puzzle};
use serde_json::Value;
use solve_core::Verdict;
use std::alloc::Global;
use survey_text::GradedPuzzle;

/// Returns the array of the pictures of `grids`.
fn grids_value(alloc: Global, grids: &[&Grid]) -> Result<Value, NoMemory>
    ensures { IfOk result (λ value.
        view value ≡ array_of (map (λ grid. grid_data grid.now) grids.now)) }
{
    let mut values = Vec::with_capacity(alloc, grids.len())?;
    for grid in grids {
        values.push(grid_value(alloc, grid)?)?;
    }
    Ok(Value::from(values))
}

/// Returns the array of the solutions in `verdict`, in the order in which they were found.
pub(crate) fn solutions_value(alloc: Global, verdict: &Verdict) -> Result<Value, NoMemory>
    ensures { IfOk result (λ value.
        view value ≡ array_of (map grid_data (solutions_of verdict.now))) }
{
    match verdict {
        Verdict::Nothing => grids_value(alloc, &[]),
        Verdict::One(grid) => grids_value(alloc, &[grid]),
        Verdict::Several(first, second) => grids_value(alloc, &[first, second]),
        Verdict::Unsettled(None) => grids_value(alloc, &[]),
        Verdict::Unsettled(Some(grid)) => grids_value(alloc, &[grid]),
    }
}

/// Returns the picture of the cells in which two solutions differ; null if there aren't two. The
/// grids of `verdict` have the size of `puzzle`.
fn differences_in(alloc: Global, puzzle: &Puzzle, verdict: &Verdict) -> Result<Value, NoMemory>
    requires { HaveSizeOf puzzle.now verdict.now }
    ensures { IfOk result (λ value. view value ≡ differing_data verdict.now) }
{
    match verdict {
        Verdict::Several(first, second) => differences_value(alloc, first, second),
        Verdict::Nothing | Verdict::One(_) | Verdict::Unsettled(_) => Ok(Value::Null),
    }
}

/// Returns the picture of the cells in which two solutions of a graded puzzle differ; null if there
/// aren't two.
#[tactic(auto, using(diagnosis::proofs::VerdictSizes::sizes_of_verdict))]
pub(crate) fn differing_value(alloc: Global, graded: &GradedPuzzle<'_>) -> Result<Value, NoMemory>
    ensures { IfOk result (λ value. view value
        ≡ differing_data graded.now.findings.now.verdict) }
{
    // Called for its contract, which the proof needs: the findings are those of a report.
    graded.answer.outcome()?;
    differences_in(alloc, graded.puzzle(), &graded.findings.verdict)
}
