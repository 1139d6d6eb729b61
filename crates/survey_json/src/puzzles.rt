//! What an entry's object has of its puzzle.

ghost use Rattle.std.specs.Prelude.{◌≡◌, IfOk};
ghost use Rattle.serde_json.specs.View.{view};
ghost use Rattle.survey_json.specs.Puzzles.{axis_word, clue_data, clues_data, misfit_data, misfits_data, sums_data};

use crate::values::{Members, word_value};
use diagnosis::{Misfit, Sums};
use grid_core::{Axis, Clue, NoMemory};
use serde_json::{Value, put};
use std::alloc::Global;

/// Returns the array of a clue's numbers.
fn clue_value(alloc: Global, clue: &Clue) -> Result<Value, NoMemory>
    ensures { IfOk result (λ value. view value ≡ clue_data clue.now) }
{
    let mut numbers = Vec::with_capacity(alloc, clue.numbers().len())?;
    for number in clue.numbers() {
        numbers.push(Value::from(*number))?;
    }
    Ok(Value::from(numbers))
}

/// Returns the array of the clues of an axis.
pub(crate) fn clues_value(alloc: Global, clues: &[Clue]) -> Result<Value, NoMemory>
    ensures { IfOk result (λ value. view value ≡ clues_data clues.now) }
{
    let mut lines = Vec::with_capacity(alloc, clues.len())?;
    for clue in clues {
        lines.push(clue_value(alloc, clue)?)?;
    }
    Ok(Value::from(lines))
}

/// Returns the word for a line of an axis.
fn axis_word(axis: Axis) -> &'static str
    ensures { result.now ≡ axis_word axis }
{
    match axis {
        Axis::Rows => "row",
        Axis::Columns => "column",
    }
}

/// Returns the object of a clue that doesn't fit its line.
fn misfit_value(alloc: Global, misfit: Misfit) -> Result<Value, NoMemory>
    ensures { IfOk result (λ value. view value ≡ misfit_data misfit) }
{
    let mut members = Members::new(alloc);
    put(
        &mut members,
        alloc,
        "axis",
        word_value(alloc, axis_word(misfit.axis))?,
    )?;
    put(&mut members, alloc, "cells", Value::from(misfit.cells))?;
    put(&mut members, alloc, "line", Value::from(misfit.index))?;
    put(&mut members, alloc, "needed", Value::from(misfit.needed))?;
    Ok(Value::from(members))
}

/// Returns the array of the clues that don't fit their line.
pub(crate) fn misfits_value(alloc: Global, misfits: &[Misfit]) -> Result<Value, NoMemory>
    ensures { IfOk result (λ value. view value ≡ misfits_data misfits.now) }
{
    let mut values = Vec::with_capacity(alloc, misfits.len())?;
    for misfit in misfits {
        values.push(misfit_value(alloc, *misfit)?)?;
    }
    Ok(Value::from(values))
}

/// Returns the object of how many cells clues fill.
pub(crate) fn sums_value(alloc: Global, sums: Sums) -> Result<Value, NoMemory>
    ensures { IfOk result (λ value. view value ≡ sums_data sums) }
{
    let mut members = Members::new(alloc);
    put(&mut members, alloc, "columns", Value::from(sums.columns))?;
    put(&mut members, alloc, "rows", Value::from(sums.rows))?;
    Ok(Value::from(members))
}
