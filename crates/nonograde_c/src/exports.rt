//! The functions that C programs call. `include/nonograde.h` documents them for those.

ghost use Rattle.std.specs.Prelude.{◌≡◌, ℕ, ◌+◌, ◌≤◌, length, None, Err, Ok};
ghost use Rattle.nonograde_c.specs.Calls.{Answers, Fills, RefusesSetting, RefusesText, convert_answer, format_from_number, lines_answer, pick_within, puzzle_of, solve_answer};
ghost use Rattle.nonograde_c.specs.Checking.{check_answer};
ghost use Rattle.nonograde_c.specs.Closing.{close_answer, closing_from_number};
ghost use Rattle.nonograde_c.specs.Extending.{extend_answer};
ghost use Rattle.nonograde_c.specs.declared.faults.Fault.TheVariants.{Setting};
ghost use Rattle.nonograde_c.specs.Facts.{AnswersFacts, FillsFacts, facts_answer};
ghost use Rattle.nonograde_c.specs.JsonReports.{report_answer};
ghost use Rattle.nonograde_c.specs.Lengths.{FitsIn, buffer_size};

use crate::answers::{
    check_answer, close_answer, convert_answer, extend_answer, facts_answer, lines_answer,
    report_answer, solve_answer,
};
use crate::facts::{Facts, fill_facts};
use crate::lengths::buffer_size;
use crate::replies::{Reply, fill_answer, fill_text};
use reports::VERSION;
use std::alloc::Global;

/// Grades and solves a puzzle's text. The answer is its line in a survey, as entry 1 with the name
/// `name`, and its solutions, each followed by an empty line. `format` is the text's format: 0 is
/// `.non`, 1 `.mk`, 2 `.nin`. The search makes at most `guesses` guesses, from 0 to 1,000,000, by
/// the rule `pick`: 0 guesses the first unknown cell, 1 the one with the most known neighbours.
#[unsafe(no_mangle)]
pub extern "C" fn nonograde_solve(
    alloc: Global,
    name: &[u8],
    text: &[u8],
    format: u32,
    guesses: u32,
    pick: u32,
    buffer: &mut [u8],
) -> Reply
    ensures answer { Answers (solve_answer guesses pick name.now format text.now) result
        buffer.old buffer.new }
    // These faults are found before anything is allocated, so `NoMemory` never hides them.
    ensures refuses { RefusesSetting (pick_within guesses pick) format text.now
        (λ fault. Fills (Err fault) result buffer.old buffer.new) }
    ensures within { (width height : ℕ) → FitsIn width height (puzzle_of format text.now) →
        result.length ≤ buffer_size width height + length name.now }
{
    let answer = solve_answer(alloc, name, text, format, guesses, pick);
    fill_answer(buffer, &answer)
}

/// Grades a puzzle's text. The answer is its line in a survey as JSON, as entry 1 with the name
/// `name`. The other arguments are those of `nonograde_solve`.
#[unsafe(no_mangle)]
pub extern "C" fn nonograde_report(
    alloc: Global,
    name: &[u8],
    text: &[u8],
    format: u32,
    guesses: u32,
    pick: u32,
    buffer: &mut [u8],
) -> Reply
    ensures answer { Answers (report_answer guesses pick name.now format text.now) result
        buffer.old buffer.new }
    // These faults are found before anything is allocated, so `NoMemory` never hides them.
    ensures refuses { RefusesSetting (pick_within guesses pick) format text.now
        (λ fault. Fills (Err fault) result buffer.old buffer.new) }
{
    let answer = report_answer(alloc, name, text, format, guesses, pick);
    fill_answer(buffer, &answer)
}

/// Checks a puzzle's text. The answer is what `nonograde check` prints about it: a line for each
/// finding, which begins with `name`, and pictures of two solutions; nothing if there is no
/// finding. A text that is refused has a finding too. The other arguments are those of
/// `nonograde_solve`.
#[unsafe(no_mangle)]
pub extern "C" fn nonograde_check(
    alloc: Global,
    name: &[u8],
    text: &[u8],
    format: u32,
    guesses: u32,
    pick: u32,
    buffer: &mut [u8],
) -> Reply
    ensures answer { Answers (check_answer guesses pick name.now format text.now) result
        buffer.old buffer.new }
    // These faults are found before anything is allocated, so `NoMemory` never hides them.
    ensures setting { pick_within guesses pick ≡ None →
        Fills (Err Setting) result buffer.old buffer.new }
    ensures format { format_from_number format ≡ None →
        Fills (Err Setting) result buffer.old buffer.new }
{
    let answer = check_answer(alloc, name, text, format, guesses, pick);
    fill_answer(buffer, &answer)
}

/// Grades a puzzle's text, writes what that finds to `facts`, and returns the number of the status.
/// If it is a fault, the facts are 0 but for the line that it is about. The other arguments are
/// those of `nonograde_solve`.
#[unsafe(no_mangle)]
pub extern "C" fn nonograde_grade(
    alloc: Global,
    text: &[u8],
    format: u32,
    guesses: u32,
    pick: u32,
    facts: &mut Facts,
) -> u32
    ensures answer { AnswersFacts (facts_answer guesses pick format text.now) result facts.new }
    // These faults are found before anything is allocated, so `NoMemory` never hides them.
    ensures refuses { RefusesSetting (pick_within guesses pick) format text.now
        (λ fault. FillsFacts (Err fault) result facts.new) }
{
    let answer = facts_answer(alloc, text, format, guesses, pick);
    fill_facts(facts, answer)
}

/// Applies line logic to a puzzle's text. The answer is `one K` if all cells are known and `open K`
/// if not, with K the number of known cells, and then the rows; or `none 0` if there is a
/// contradiction. `format` is the text's format: 0 is `.non`, 1 `.mk`, 2 `.nin`.
#[unsafe(no_mangle)]
pub extern "C" fn nonograde_lines(
    alloc: Global,
    text: &[u8],
    format: u32,
    buffer: &mut [u8],
) -> Reply
    ensures answer { Answers (lines_answer format text.now) result buffer.old buffer.new }
    // These faults are found before anything is allocated, so `NoMemory` never hides them.
    ensures refuses { RefusesText format text.now
        (λ fault. Fills (Err fault) result buffer.old buffer.new) }
    ensures within { (width height : ℕ) → FitsIn width height (puzzle_of format text.now) →
        result.length ≤ buffer_size width height }
{
    let answer = lines_answer(alloc, text, format);
    fill_answer(buffer, &answer)
}

/// Closes a grid of a puzzle's text whose cells may be partly known. `cells` has them row by row:
/// `#` for a filled cell, `.` for a blank one, `?` for an unknown one; either without line ends, or
/// with LF or CR LF after each row, where the last one may be missing. `by` is 0 to close the grid
/// under line deduction, 1 under trials. The answer is `one K` if all cells are then known and
/// `open K` if not, with K the number of known cells, and then the rows; or `none 0` if the grid is
/// dead. `format` is the text's format: 0 is `.non`, 1 `.mk`, 2 `.nin`.
#[unsafe(no_mangle)]
pub extern "C" fn nonograde_close(
    alloc: Global,
    text: &[u8],
    format: u32,
    cells: &[u8],
    by: u32,
    buffer: &mut [u8],
) -> Reply
    ensures answer { Answers (close_answer by format text.now cells.now) result
        buffer.old buffer.new }
    // These faults are found before anything is allocated, so `NoMemory` never hides them.
    ensures refuses { RefusesSetting (closing_from_number by) format text.now
        (λ fault. Fills (Err fault) result buffer.old buffer.new) }
    ensures within { (width height : ℕ) → FitsIn width height (puzzle_of format text.now) →
        result.length ≤ buffer_size width height }
{
    let answer = close_answer(alloc, text, format, cells, by);
    fill_answer(buffer, &answer)
}

/// Searches for the solutions of a puzzle's text that extend a grid whose cells may be partly
/// known. `cells` has them as for `nonograde_close`. The answer is a line with the verdict on these
/// solutions, `none`, `one`, `several` or `unsettled`, and how many guesses were spent, and then
/// the solutions, of several the first two, each followed by an empty line. The verdict is
/// `unsettled` only if all guesses that `guesses` allows were spent. The other arguments are those
/// of `nonograde_solve`.
#[unsafe(no_mangle)]
pub extern "C" fn nonograde_extend(
    alloc: Global,
    text: &[u8],
    format: u32,
    cells: &[u8],
    guesses: u32,
    pick: u32,
    buffer: &mut [u8],
) -> Reply
    ensures answer { Answers (extend_answer guesses pick format text.now cells.now) result
        buffer.old buffer.new }
    // These faults are found before anything is allocated, so `NoMemory` never hides them.
    ensures refuses { RefusesSetting (pick_within guesses pick) format text.now
        (λ fault. Fills (Err fault) result buffer.old buffer.new) }
    ensures within { (width height : ℕ) → FitsIn width height (puzzle_of format text.now) →
        result.length ≤ buffer_size width height }
{
    let answer = extend_answer(alloc, text, format, cells, guesses, pick);
    fill_answer(buffer, &answer)
}

/// Converts a puzzle's text from the format `format` to the format `to`: 0 is `.non`, 1 `.mk`,
/// 2 `.nin`.
#[unsafe(no_mangle)]
pub extern "C" fn nonograde_convert(
    alloc: Global,
    text: &[u8],
    format: u32,
    to: u32,
    buffer: &mut [u8],
) -> Reply
    ensures answer { Answers (convert_answer to format text.now) result buffer.old buffer.new }
    // These faults are found before anything is allocated, so `NoMemory` never hides them.
    ensures refuses { RefusesSetting (format_from_number to) format text.now
        (λ fault. Fills (Err fault) result buffer.old buffer.new) }
{
    let answer = convert_answer(alloc, text, format, to);
    fill_answer(buffer, &answer)
}

/// Writes the version, as `nonograde --version` prints it.
#[unsafe(no_mangle)]
pub extern "C" fn nonograde_version(buffer: &mut [u8]) -> Reply
    ensures { Fills (Ok VERSION.now) result buffer.old buffer.new }
{
    fill_text(buffer, VERSION.as_bytes())
}

/// Returns the length of a buffer that holds each answer of `nonograde_lines`, `nonograde_close`
/// and `nonograde_extend`, and with the length of the name added each one of `nonograde_solve`, on
/// puzzles of at most this width and height.
#[unsafe(no_mangle)]
pub extern "C" fn nonograde_buffer_size(width: u32, height: u32) -> usize
    ensures { result ≡ buffer_size width height }
{
    buffer_size(width, height)
}
