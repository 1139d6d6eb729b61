//! The reports on one puzzle: on its closure under line deduction, and on its grade and solutions.

ghost use Rattle.std.specs.Prelude.{◌≡◌, ◌≤◌, ◌<◌, ◌↔◌, ◌++◌, true, false, length, Ok, Err, IfErr, IfOk, OnOk, MatchResult};
ghost use Rattle.std.specs.List.{list_all};
ghost use Rattle.grid_core.specs.Cells.{is_known};
ghost use Rattle.puzzle_text.specs.Answers.{Gives};
ghost use Rattle.puzzle_text.specs.Formats.{is_format};
ghost use Rattle.reports.specs.Reports.{closed_text, closed_word, grid_report, lines_text, parsed, solve_text, text_or_fault};

use grid_core::{Grid, NoMemory, Puzzle};
use lane_core::{Job, MAX_GUESSES, grade};
use puzzle_text::{
    Entry, EntryFault, MAX_PUZZLE_LEN, TextFault, push_bytes, push_number, read_entry,
};
use solve_core::{Pick, line_grid};
use std::alloc::Global;
use survey_text::{print_graded, push_grid};

/// Reports whether all cells of `grid` are known.
fn is_full(grid: &Grid) -> bool
    ensures { result ≡ list_all is_known grid.now.cells }
{
    grid.first_unknown().is_none()
}

/// Returns the first word of the report on a closed grid that is alive: `one` if it is full, and
/// `open` if not.
fn closed_word(grid: &Grid) -> &'static str
    ensures { result.now ≡ closed_word grid.now }
{
    if is_full(grid) { "one" } else { "open" }
}

/// Appends the report on a closed grid that is alive: its word, the number of known cells, and its
/// rows.
fn push_report(text: &mut Vec<u8>, grid: &Grid) -> Result<(), NoMemory>
    ensures { OnOk result (text.new.items ≡ text.old.items ++ grid_report grid.now) }
{
    push_bytes(text, closed_word(grid).as_bytes())?;
    push_bytes(text, b" ")?;
    push_number(text, u64::from(grid.known()))?;
    push_bytes(text, b"\n")?;
    push_grid(text, grid)
}

/// Appends the report on a closed grid: `one K` if it is full, or `open K` if not, with K the
/// number of known cells, and then its rows; or `none 0` if it is dead, which is `None`.
pub fn push_closed(text: &mut Vec<u8>, closed: &Option<Grid>) -> Result<(), NoMemory>
    ensures { OnOk result (text.new.items ≡ text.old.items ++ closed_text closed.now) }
{
    match closed {
        Some(grid) => push_report(text, grid),
        None => push_bytes(text, b"none 0\n"),
    }
}

/// Returns the report on the closure of `puzzle` under line deduction: `one K` if that is full, or
/// `open K` if not, with K the number of known cells, and then its rows; or `none 0` if it is dead.
/// Fails with `NoMemory` if an allocation does.
pub fn lines_text(alloc: Global, puzzle: &Puzzle) -> Result<Vec<u8>, NoMemory>
    ensures { IfOk result (λ text. text.items ≡ lines_text puzzle.now) }
{
    let mut text = Vec::new(alloc);
    let closed = line_grid(alloc, puzzle)?;
    push_closed(&mut text, &closed)?;
    Ok(text)
}

/// Returns the text in `made`, or, if an allocation failed, the fault `Text(NoMemory)`.
fn text_or_fault(made: Result<Vec<u8>, NoMemory>) -> Result<Vec<u8>, EntryFault>
    ensures { MatchResult made
        (λ text. result ≡ Ok text) (λ _. result ≡ Err (EntryFault.Text TextFault.NoMemory)) }
{
    match made {
        Ok(text) => Ok(text),
        Err(_) => Err(EntryFault::Text(TextFault::NoMemory)),
    }
}

/// Returns the text of `lines_text`, with a failed allocation reported as the entry's fault
/// `Text(NoMemory)`.
fn lines_answer(alloc: Global, puzzle: &Puzzle) -> Result<Vec<u8>, EntryFault>
    ensures answer { Gives (EntryFault.Text TextFault.NoMemory) (λ text. text.items) result
        (Ok (lines_text puzzle.now)) }
    ensures reading { IfErr result (λ fault. fault ≡ EntryFault.Text TextFault.NoMemory) }
{
    text_or_fault(lines_text(alloc, puzzle))
}

/// Reads the puzzle in the text `body`, whose format the ending of `name` determines, and returns
/// the report on its closure under line deduction (`lines_text`). Fails with the fault of the text,
/// or with `Text(NoMemory)` if an allocation fails.
pub fn lines_report(alloc: Global, name: &[u8], body: &[u8]) -> Result<Vec<u8>, EntryFault>
    ensures answer { Gives (EntryFault.Text TextFault.NoMemory) (λ text. text.items) result
        (text_or_fault lines_text (parsed name.now body.now)) }
    // `NoMemory` is never returned in place of these faults.
    ensures unknown { result ≡ Err EntryFault.UnknownFormat ↔ is_format name.now ≡ false }
    ensures too_long { is_format name.now ≡ true → MAX_PUZZLE_LEN < length body.now
        → result ≡ Err (EntryFault.Text TextFault.TooLong) }
{
    match read_entry(alloc, &Entry { name, body }) {
        Ok(puzzle) => lines_answer(alloc, &puzzle),
        Err(fault) => Err(fault),
    }
}

/// Grades `puzzle` and returns its line in a survey, numbered 1 and with this name, and its
/// solutions, each followed by an empty line. The search spends at most `guesses` guesses, 0 to
/// 1,000,000, on cells that `pick` chooses. Fails with `NoMemory` if an allocation does, in grading
/// or in printing.
pub fn solve_text(
    alloc: Global,
    name: &[u8],
    puzzle: Puzzle,
    guesses: u32,
    pick: Pick,
) -> Result<Vec<u8>, NoMemory>
    requires { guesses ≤ MAX_GUESSES }
    ensures { IfOk result (λ text. text.items ≡ solve_text name.now guesses pick puzzle) }
{
    // Graded as the only entry of a survey would be, so that the text is the same as there.
    let answer = grade(alloc, Job::new(1, puzzle, guesses, pick));
    print_graded(alloc, 1, name, &answer, true)
}

/// Reads the puzzle in the text `body`, whose format the ending of `name` determines, grades it,
/// and returns the report on its grade and solutions (`solve_text`). Fails with the fault of the
/// text, or with `Text(NoMemory)` if an allocation fails.
pub fn solve_report(
    alloc: Global,
    name: &[u8],
    body: &[u8],
    guesses: u32,
    pick: Pick,
) -> Result<Vec<u8>, EntryFault>
    requires { guesses ≤ MAX_GUESSES }
    ensures answer { Gives (EntryFault.Text TextFault.NoMemory) (λ text. text.items) result
        (text_or_fault (solve_text name.now guesses pick) (parsed name.now body.now)) }
    // `NoMemory` is never returned in place of these faults.
    ensures unknown { result ≡ Err EntryFault.UnknownFormat ↔ is_format name.now ≡ false }
    ensures too_long { is_format name.now ≡ true → MAX_PUZZLE_LEN < length body.now
        → result ≡ Err (EntryFault.Text TextFault.TooLong) }
{
    match read_entry(alloc, &Entry { name, body }) {
        Ok(puzzle) => text_or_fault(solve_text(alloc, name, puzzle, guesses, pick)),
        Err(fault) => Err(fault),
    }
}
