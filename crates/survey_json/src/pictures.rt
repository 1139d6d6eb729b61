//! Pictures: arrays with a string for each row, and in it a mark for each cell.

ghost use Rattle.std.specs.Prelude.{◌≡◌, ◌+◌, ◌*◌, ◌<◌, ◌≤◌, [], ◌∷◌, ◌++◌, IfOk, OnOk, Some, length, string_bytes};
ghost use Rattle.serde_json.specs.View.{view};
ghost use Rattle.survey_text.specs.Grids.{grid_text};
ghost use Rattle.survey_json.specs.Pictures.{colour_mark, difference_mark, difference_row, differences_data, goal_data, goal_row, grid_data, grid_row, picture_or_null};

use grid_core::{Grid, NoMemory, Puzzle};
use serde_json::Value;
use std::alloc::Global;
use survey_text::push_grid;

/// Returns row `y` of `grid`, counted from 0 at the top, as a mark for each cell. `text` is the text
/// of the grid.
#[tactic(auto, using(crate::proofs::RowLemmas::row_within))]
fn grid_row(alloc: Global, grid: &Grid, text: &[u8], y: u16) -> Result<String, NoMemory>
    requires row { y < grid.now.height }
    requires text { text.now ≡ grid_text grid.now }
    ensures { IfOk result (λ row. string_bytes row ≡ grid_row grid.now y) }
{
    let width = usize::from(grid.width());
    let first = usize::from(y) * (width + 1);
    Ok(String::from_utf8_lossy(alloc, &text[first..first + width])?)
}

/// Returns the picture of `grid`.
pub(crate) fn grid_value(alloc: Global, grid: &Grid) -> Result<Value, NoMemory>
    ensures { IfOk result (λ value. view value ≡ grid_data grid.now) }
{
    let mut text = Vec::new(alloc);
    push_grid(&mut text, grid)?;
    let mut rows = Vec::with_capacity(alloc, usize::from(grid.height()))?;
    for y in 0..grid.height() {
        rows.push(Value::from(grid_row(alloc, grid, &text, y)?))?;
    }
    Ok(Value::from(rows))
}

/// Appends the ASCII character `mark`.
fn push_mark(row: &mut String, mark: char) -> Result<(), NoMemory>
    requires { mark < 128 }
    ensures { OnOk result (string_bytes row.new ≡ string_bytes row.old ++ mark ∷ []) }
{
    row.push(mark)?;
    Ok(())
}

/// Returns `*` if the cells of two grids in column `x` and row `y` differ, and `.` if not.
fn difference_mark(first: &Grid, second: &Grid, x: u16, y: u16) -> char
    requires column { x < first.now.width }
    requires row { y < first.now.height }
    requires width { second.now.width ≡ first.now.width }
    requires height { second.now.height ≡ first.now.height }
    ensures { result ≡ difference_mark first.now second.now y x }
{
    if first.get(x, y) == second.get(x, y) {
        '.'
    } else {
        '*'
    }
}

/// Returns a mark for each cell of row `y`: whether two grids differ in it.
fn difference_row(alloc: Global, first: &Grid, second: &Grid, y: u16) -> Result<String, NoMemory>
    requires row { y < first.now.height }
    requires width { second.now.width ≡ first.now.width }
    requires height { second.now.height ≡ first.now.height }
    ensures { IfOk result (λ row. string_bytes row ≡ difference_row first.now second.now y) }
{
    let mut row = String::with_capacity(alloc, usize::from(first.width()))?;
    for x in 0..first.width() {
        push_mark(&mut row, difference_mark(first, second, x, y))?;
    }
    Ok(row)
}

/// Returns the picture of the cells in which two grids of one size differ: `*` where they do, `.`
/// where they don't.
pub(crate) fn differences_value(
    alloc: Global,
    first: &Grid,
    second: &Grid,
) -> Result<Value, NoMemory>
    requires width { second.now.width ≡ first.now.width }
    requires height { second.now.height ≡ first.now.height }
    ensures { IfOk result (λ value. view value ≡ differences_data first.now second.now) }
{
    let mut rows = Vec::with_capacity(alloc, usize::from(first.height()))?;
    for y in 0..first.height() {
        rows.push(Value::from(difference_row(alloc, first, second, y)?))?;
    }
    Ok(Value::from(rows))
}

/// Returns the mark for a colour of a goal: `#` for filled, `.` for blank.
fn colour_mark(filled: bool) -> char
    ensures { result ≡ colour_mark filled }
{
    if filled { '#' } else { '.' }
}

/// Returns row `y` of a goal, of which `values` are the colours of all cells in rows of `width`
/// cells, as a mark for each cell.
fn goal_row(alloc: Global, width: u16, values: &[bool], y: u16) -> Result<String, NoMemory>
    requires { (y + 1) * width ≤ length values.now }
    ensures { IfOk result (λ row. string_bytes row ≡ goal_row width values.now y) }
{
    let mut row = String::with_capacity(alloc, usize::from(width))?;
    let first = usize::from(y) * usize::from(width);
    for x in 0..width {
        push_mark(&mut row, colour_mark(values[first + usize::from(x)]))?;
    }
    Ok(row)
}

/// Returns the picture of a goal, of which `values` are the colours of all cells in row order.
fn goal_picture(alloc: Global, puzzle: &Puzzle, values: &[bool]) -> Result<Value, NoMemory>
    requires { length values.now ≡ puzzle.now.width * puzzle.now.height }
    ensures { IfOk result (λ value.
        view value ≡ picture_or_null puzzle.now (Some values.now)) }
{
    let mut rows = Vec::with_capacity(alloc, usize::from(puzzle.height()))?;
    for y in 0..puzzle.height() {
        rows.push(Value::from(goal_row(alloc, puzzle.width(), values, y)?))?;
    }
    Ok(Value::from(rows))
}

/// Returns the picture of the puzzle's goal; null if there is no goal.
pub(crate) fn goal_value(alloc: Global, puzzle: &Puzzle) -> Result<Value, NoMemory>
    ensures { IfOk result (λ value. view value ≡ goal_data puzzle.now) }
{
    match puzzle.goal() {
        Some(values) => goal_picture(alloc, puzzle, values),
        None => Ok(Value::Null),
    }
}
