//! What `check` prints of the means that a puzzle with one solution took.

ghost use Rattle.std.specs.Prelude.{◌≡◌, ◌*◌, ◌++◌, None, OnOk, Some, MatchOption, is_some};
ghost use Rattle.check_text.specs.Grades.{beyond, beyond_lines, beyond_trials, grade_finding, means, solved_line};

use crate::findings::push_finding;
use crate::heads::Level;
use crate::numbers::push_cell_count;
use grid_core::{NoMemory, Puzzle};
use puzzle_text::push_bytes;
use solve_core::Grade;
use std::alloc::Global;
use survey_text::push_name;

/// Returns the sentence on a puzzle that takes more than line logic; `None` if it doesn't.
fn beyond_lines(grade: Grade) -> Option<&'static [u8]>
    ensures { MatchOption result (beyond_lines grade ≡ None)
        (λ sentence. beyond_lines grade ≡ Some sentence.now) }
{
    match grade {
        Grade::Lines => None,
        Grade::Trials => Some(b"line logic alone does not solve it (it takes trials)"),
        Grade::Search => Some(b"line logic alone does not solve it (it takes a search)"),
    }
}

/// Returns the sentence on a puzzle that takes more than trials; `None` if it doesn't.
fn beyond_trials(grade: Grade) -> Option<&'static [u8]>
    ensures { MatchOption result (beyond_trials grade ≡ None)
        (λ sentence. beyond_trials grade ≡ Some sentence.now) }
{
    match grade {
        Grade::Lines | Grade::Trials => None,
        Grade::Search => Some(b"trials do not solve it (it takes a search)"),
    }
}

/// Returns the sentence on a puzzle whose grade is above the greatest one asked for; `None` if it
/// isn't, or if none is asked for.
fn beyond(greatest: Option<Grade>, grade: Grade) -> Option<&'static [u8]>
    ensures { MatchOption result (beyond greatest grade ≡ None)
        (λ sentence. beyond greatest grade ≡ Some sentence.now) }
{
    match greatest {
        Some(Grade::Lines) => beyond_lines(grade),
        Some(Grade::Trials) => beyond_trials(grade),
        Some(Grade::Search) | None => None,
    }
}

/// Reports whether a puzzle's grade is above the greatest one asked for, if one is.
pub(crate) fn is_beyond(greatest: Option<Grade>, grade: Grade) -> bool
    ensures { result ≡ is_some (beyond greatest grade) }
{
    beyond(greatest, grade).is_some()
}

/// Appends the finding that a puzzle's grade is above the greatest one asked for; nothing if it
/// isn't, or if none is asked for.
pub(crate) fn push_grade_finding(
    text: &mut Vec<u8>,
    name: &[u8],
    greatest: Option<Grade>,
    grade: Grade,
) -> Result<(), NoMemory>
    ensures { OnOk result (text.new.items
        ≡ text.old.items ++ grade_finding name.now (beyond greatest grade)) }
{
    match beyond(greatest, grade) {
        Some(sentence) => push_finding(text, name, Level::Warning, sentence),
        None => Ok(()),
    }
}

/// Returns the means that solved a puzzle.
fn means(grade: Grade) -> &'static [u8]
    ensures { result.now ≡ means grade }
{
    match grade {
        Grade::Lines => b"line logic",
        Grade::Trials => b"trials",
        Grade::Search => b"search",
    }
}

/// Appends a line that a puzzle has one solution, by which means, and how many cells it has:
/// `one solution, by line logic (42 cells)`.
pub(crate) fn push_solved(
    text: &mut Vec<u8>,
    alloc: Global,
    name: &[u8],
    puzzle: &Puzzle,
    grade: Grade,
) -> Result<(), NoMemory>
    ensures { OnOk result (text.new.items
        ≡ text.old.items ++ solved_line name.now puzzle.now grade) }
{
    push_name(text, name)?;
    push_bytes(text, b": one solution, by ")?;
    push_bytes(text, means(grade))?;
    push_bytes(text, b" (")?;
    let cells = u64::from(puzzle.width()) * u64::from(puzzle.height());
    push_cell_count(text, alloc, cells)?;
    push_bytes(text, b")\n")
}
