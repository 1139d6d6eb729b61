//! What is wrong with a puzzle's text, as `check` prints it.

ghost use Rattle.std.specs.Prelude.{◌≡◌, ◌≤◌, IfOk};
ghost use Rattle.solve_core.specs.Report.{findings_of};
ghost use Rattle.check_text.specs.TextFindings.{text_finding};
ghost use Rattle.puzzle_text.specs.Formats.{read_as};
ghost use Rattle.grid_core.specs.declared.limits.TheConstants.{MAX_SIDE};
ghost use Rattle.nonograde_c.specs.Checking.{checked, checked_text};

use check_text::{CheckOptions, push_graded, push_text_finding};
use grid_core::{NoMemory, Puzzle};
use lane_core::{Job, MAX_GUESSES, grade};
use puzzle_text::{Format, TextFault};
use solve_core::Pick;
use std::alloc::Global;

/// Grades `puzzle`, and returns what `check` prints about it: a line for each finding, which begins
/// with `name`, and pictures of two solutions; nothing if there is no finding. The search spends at
/// most `guesses` guesses, 0 to 1,000,000, on cells that `pick` chooses. Fails with `NoMemory` if
/// an allocation does.
fn check_puzzle(
    alloc: Global,
    name: &[u8],
    puzzle: Puzzle,
    guesses: u32,
    pick: Pick,
) -> Result<Vec<u8>, NoMemory>
    requires { guesses ≤ MAX_GUESSES }
    ensures { IfOk result (λ text.
        text.items ≡ checked name.now guesses puzzle (findings_of pick puzzle guesses)) }
{
    let answer = grade(alloc, Job::new(1, puzzle, guesses, pick));
    let every_grade = CheckOptions {
        grade: None,
        all: false,
    };
    let mut text = Vec::new(alloc);
    push_graded(&mut text, alloc, every_grade, name, &answer)?;
    Ok(text)
}

/// Returns what `check` prints about the text `body`, which the reader of `format` refused with
/// `fault`: a line that begins with `name`. Fails with `NoMemory` if an allocation does.
fn check_refused(
    alloc: Global,
    name: &[u8],
    format: Format,
    body: &[u8],
    fault: TextFault,
) -> Result<Vec<u8>, NoMemory>
    ensures { IfOk result (λ text. text.items ≡ text_finding name.now format body.now fault) }
{
    let mut text = Vec::new(alloc);
    push_text_finding(&mut text, alloc, name, format, body, fault)?;
    Ok(text)
}

/// Returns what `check` prints about the text `body`: on its puzzle, or on the text if the reader
/// of `format` refuses it. Each line of a finding begins with `name`. The search spends at most
/// `guesses` guesses, 0 to 1,000,000, on cells that `pick` chooses. Fails with `NoMemory` if an
/// allocation does.
pub fn check_text(
    alloc: Global,
    name: &[u8],
    body: &[u8],
    format: Format,
    guesses: u32,
    pick: Pick,
) -> Result<Vec<u8>, NoMemory>
    requires { guesses ≤ MAX_GUESSES }
    ensures { IfOk result (λ text. text.items
        ≡ checked_text name.now guesses pick format body.now (read_as format MAX_SIDE body.now)) }
{
    match format.read(alloc, body) {
        Ok(puzzle) => check_puzzle(alloc, name, puzzle, guesses, pick),
        Err(TextFault::NoMemory) => Err(NoMemory),
        Err(fault) => check_refused(alloc, name, format, body, fault),
    }
}
