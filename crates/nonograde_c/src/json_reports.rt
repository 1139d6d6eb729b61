//! The report on a puzzle as a line of JSON.

ghost use Rattle.std.specs.Prelude.{◌≡◌, ◌≤◌, IfOk};
ghost use Rattle.nonograde_c.specs.JsonReports.{report_text};

use grid_core::{NoMemory, Puzzle};
use lane_core::{Job, MAX_GUESSES, grade};
use solve_core::Pick;
use std::alloc::Global;
use survey_json::push_json_line;
use survey_text::ListedEntry;

/// Grades `puzzle`, which is in the text `body`, and returns the line of JSON that a survey prints
/// for it as its first entry. The search spends at most `guesses` guesses, 0 to 1,000,000, on cells
/// that `pick` chooses. Fails with `NoMemory` if an allocation does.
pub fn report_text(
    alloc: Global,
    name: &[u8],
    body: &[u8],
    puzzle: Puzzle,
    guesses: u32,
    pick: Pick,
) -> Result<Vec<u8>, NoMemory>
    requires { guesses ≤ MAX_GUESSES }
    ensures { IfOk result (λ line.
        line.items ≡ report_text name.now body.now guesses pick puzzle) }
{
    let answer = grade(alloc, Job::new(1, puzzle, guesses, pick));
    let entry = ListedEntry::graded(name, body, &answer)?;
    let mut line = Vec::new(alloc);
    push_json_line(&mut line, alloc, 1, &entry)?;
    Ok(line)
}
