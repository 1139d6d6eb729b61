//! The answers of the calls for C, before they are written to the caller's buffer.

ghost use Rattle.std.specs.Prelude.{◌≡◌, ℕ, ◌+◌, ◌≤◌, length, None, Err, IfOk};
ghost use Rattle.grid_core.specs.Nonogram.{IsNonogram};
ghost use Rattle.puzzle_text.specs.Answers.{Gives};
ghost use Rattle.puzzle_text.specs.Formats.{text_as};
ghost use Rattle.solve_core.specs.Sizes.{HasSizeOf};
ghost use Rattle.nonograde_c.specs.Calls.{RefusesSetting, RefusesText, convert_answer, format_from_number, lines_answer, no_memory, of_writer, pick_within, puzzle_of, solve_answer};
ghost use Rattle.nonograde_c.specs.Checking.{check_answer};
ghost use Rattle.nonograde_c.specs.Closing.{close_answer, closing_from_number};
ghost use Rattle.nonograde_c.specs.Extending.{extend_answer};
ghost use Rattle.nonograde_c.specs.Facts.{facts_answer};
ghost use Rattle.nonograde_c.specs.GivenCells.{grid_answer};
ghost use Rattle.nonograde_c.specs.JsonReports.{report_answer};
ghost use Rattle.nonograde_c.specs.Lengths.{FitsIn, buffer_size};
ghost use Rattle.nonograde_c.specs.steps.Answers.{shown};

use crate::checking::check_text;
use crate::closing::close_text;
use crate::extending::extend_text;
use crate::facts::{Facts, grade_facts};
use crate::faults::Fault;
use crate::given_cells::given_grid;
use crate::json_reports::report_text;
use crate::settings::{closing_from_number, format_from_number, pick_within};
use grid_core::{Grid, Puzzle};
use puzzle_text::{Format, TextFault, WriteFault};
use reports::{lines_text, solve_text};
use std::alloc::Global;

/// Returns the puzzle of a text. `format` is the number of its format.
fn read_puzzle(alloc: Global, text: &[u8], format: u32) -> Result<Puzzle, Fault>
    ensures answer { Gives no_memory (λ p. p) result (puzzle_of format text.now) }
    ensures refuses { RefusesText format text.now (λ fault. result ≡ Err fault) }
    ensures puzzle { IfOk result (λ p. IsNonogram p) }
{
    let Some(format) = format_from_number(format) else {
        return Err(Fault::Setting);
    };
    match format.read(alloc, text) {
        Ok(puzzle) => {
            // Called for its contract, which states the invariant of the puzzle.
            puzzle.width();
            Ok(puzzle)
        }
        Err(fault) => Err(Fault::Text(fault)),
    }
}

/// Returns the grid of the puzzle's size whose cells `cells` give. Fails with `Cells` if they don't
/// fit the puzzle.
fn read_grid(alloc: Global, puzzle: &Puzzle, cells: &[u8]) -> Result<Grid, Fault>
    ensures answer { Gives no_memory (λ grid. grid) result (grid_answer puzzle.now cells.now) }
    ensures size { IfOk result (HasSizeOf puzzle.now) }
    ensures few { IfOk result (λ grid. length grid.cells ≤ 65536) }
{
    match given_grid(alloc, puzzle, cells)? {
        Some(grid) => {
            // Called for its contract, which states how many cells there are.
            grid.width();
            Ok(grid)
        }
        None => Err(Fault::Cells),
    }
}

/// Returns what `lines` prints for a puzzle's text: a line, and the grid that line logic reaches.
/// `format` is the number of the text's format.
pub fn lines_answer(alloc: Global, text: &[u8], format: u32) -> Result<Vec<u8>, Fault>
    ensures answer { Gives no_memory (λ text. text) (shown result)
        (lines_answer format text.now) }
    ensures refuses { RefusesText format text.now (λ fault. result ≡ Err fault) }
    ensures within { (width height : ℕ) → FitsIn width height (puzzle_of format text.now) →
        IfOk result (λ answer. length answer.items ≤ buffer_size width height) }
{
    let puzzle = read_puzzle(alloc, text, format)?;
    Ok(lines_text(alloc, &puzzle)?)
}

/// Returns what `solve` prints for a puzzle's text: its line in a survey, with `name`, and its
/// solutions. `format` is the number of the text's format, `pick` that of a guess rule.
pub fn solve_answer(
    alloc: Global,
    name: &[u8],
    text: &[u8],
    format: u32,
    guesses: u32,
    pick: u32,
) -> Result<Vec<u8>, Fault>
    ensures answer { Gives no_memory (λ text. text) (shown result)
        (solve_answer guesses pick name.now format text.now) }
    ensures refuses { RefusesSetting (pick_within guesses pick) format text.now
        (λ fault. result ≡ Err fault) }
    ensures within { (width height : ℕ) → FitsIn width height (puzzle_of format text.now) →
        IfOk result (λ answer. length answer.items ≤ buffer_size width height + length name.now) }
{
    let Some(pick) = pick_within(guesses, pick) else {
        return Err(Fault::Setting);
    };
    let puzzle = read_puzzle(alloc, text, format)?;
    Ok(solve_text(alloc, name, puzzle, guesses, pick)?)
}

/// Returns the line of JSON that a survey prints for a puzzle's text, as its first entry with the
/// name `name`. `format` is the number of the text's format, `pick` that of a guess rule.
pub fn report_answer(
    alloc: Global,
    name: &[u8],
    text: &[u8],
    format: u32,
    guesses: u32,
    pick: u32,
) -> Result<Vec<u8>, Fault>
    ensures answer { Gives no_memory (λ text. text) (shown result)
        (report_answer guesses pick name.now format text.now) }
    ensures refuses { RefusesSetting (pick_within guesses pick) format text.now
        (λ fault. result ≡ Err fault) }
{
    let Some(pick) = pick_within(guesses, pick) else {
        return Err(Fault::Setting);
    };
    let puzzle = read_puzzle(alloc, text, format)?;
    Ok(report_text(alloc, name, text, puzzle, guesses, pick)?)
}

/// Returns what `check` prints for a puzzle's text: a line for each finding, which begins with
/// `name`; one if the text is refused. `format` is the number of the text's format, `pick` that of
/// a guess rule.
pub fn check_answer(
    alloc: Global,
    name: &[u8],
    text: &[u8],
    format: u32,
    guesses: u32,
    pick: u32,
) -> Result<Vec<u8>, Fault>
    ensures answer { Gives no_memory (λ text. text) (shown result)
        (check_answer guesses pick name.now format text.now) }
    ensures setting { pick_within guesses pick ≡ None → result ≡ Err Fault.Setting }
    ensures format { format_from_number format ≡ None → result ≡ Err Fault.Setting }
{
    let Some(pick) = pick_within(guesses, pick) else {
        return Err(Fault::Setting);
    };
    let Some(format) = format_from_number(format) else {
        return Err(Fault::Setting);
    };
    Ok(check_text(alloc, name, text, format, guesses, pick)?)
}

/// Returns the facts that grading finds about a puzzle's text. `format` is the number of the text's
/// format, `pick` that of a guess rule.
pub fn facts_answer(
    alloc: Global,
    text: &[u8],
    format: u32,
    guesses: u32,
    pick: u32,
) -> Result<Facts, Fault>
    ensures answer { Gives no_memory (λ facts. facts) result
        (facts_answer guesses pick format text.now) }
    ensures refuses { RefusesSetting (pick_within guesses pick) format text.now
        (λ fault. result ≡ Err fault) }
{
    let Some(pick) = pick_within(guesses, pick) else {
        return Err(Fault::Setting);
    };
    let puzzle = read_puzzle(alloc, text, format)?;
    Ok(grade_facts(alloc, puzzle, guesses, pick)?)
}

/// Returns the report on the grid of a puzzle's text that has the cells `cells`, once it is closed.
/// `format` is the number of the text's format, `by` that of the way of closing.
pub fn close_answer(
    alloc: Global,
    text: &[u8],
    format: u32,
    cells: &[u8],
    by: u32,
) -> Result<Vec<u8>, Fault>
    ensures answer { Gives no_memory (λ text. text) (shown result)
        (close_answer by format text.now cells.now) }
    ensures refuses { RefusesSetting (closing_from_number by) format text.now
        (λ fault. result ≡ Err fault) }
    ensures within { (width height : ℕ) → FitsIn width height (puzzle_of format text.now) →
        IfOk result (λ answer. length answer.items ≤ buffer_size width height) }
{
    let Some(by) = closing_from_number(by) else {
        return Err(Fault::Setting);
    };
    let puzzle = read_puzzle(alloc, text, format)?;
    let grid = read_grid(alloc, &puzzle, cells)?;
    Ok(close_text(alloc, &puzzle, grid, by)?)
}

/// Returns the report on the solutions of a puzzle's text that extend the grid with the cells
/// `cells`: a line with the word of the verdict and how many guesses were spent, and the solutions.
/// `format` is the number of the text's format, `pick` that of a guess rule.
pub fn extend_answer(
    alloc: Global,
    text: &[u8],
    format: u32,
    cells: &[u8],
    guesses: u32,
    pick: u32,
) -> Result<Vec<u8>, Fault>
    ensures answer { Gives no_memory (λ text. text) (shown result)
        (extend_answer guesses pick format text.now cells.now) }
    ensures refuses { RefusesSetting (pick_within guesses pick) format text.now
        (λ fault. result ≡ Err fault) }
    ensures within { (width height : ℕ) → FitsIn width height (puzzle_of format text.now) →
        IfOk result (λ answer. length answer.items ≤ buffer_size width height) }
{
    let Some(pick) = pick_within(guesses, pick) else {
        return Err(Fault::Setting);
    };
    let puzzle = read_puzzle(alloc, text, format)?;
    let grid = read_grid(alloc, &puzzle, cells)?;
    Ok(extend_text(alloc, &puzzle, &grid, guesses, pick)?)
}

/// Returns the text of `puzzle` in a format.
fn written(alloc: Global, puzzle: &Puzzle, to: Format) -> Result<Vec<u8>, Fault>
    ensures { Gives no_memory (λ text. text) (shown result) (of_writer (text_as to puzzle.now)) }
{
    match to.write(alloc, puzzle) {
        Ok(text) => Ok(text),
        Err(WriteFault::Ambiguous) => Err(Fault::Ambiguous),
        Err(WriteFault::NoMemory) => Err(Fault::Text(TextFault::NoMemory)),
    }
}

/// Returns a puzzle's text in another format. `format` is the number of the text's format, `to`
/// that of the other one.
pub fn convert_answer(alloc: Global, text: &[u8], format: u32, to: u32) -> Result<Vec<u8>, Fault>
    ensures answer { Gives no_memory (λ text. text) (shown result)
        (convert_answer to format text.now) }
    ensures refuses { RefusesSetting (format_from_number to) format text.now
        (λ fault. result ≡ Err fault) }
{
    let Some(to) = format_from_number(to) else {
        return Err(Fault::Setting);
    };
    let puzzle = read_puzzle(alloc, text, format)?;
    written(alloc, &puzzle, to)
}
