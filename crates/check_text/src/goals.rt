//! The findings on a puzzle's goal.

ghost use Rattle.std.specs.Prelude.{◌≡◌, ◌+◌, ◌++◌, OnOk, decimal};
ghost use Rattle.check_text.specs.Quoting.{quoted};
ghost use Rattle.survey_text.specs.Goals.{goal_word};
ghost use Rattle.check_text.specs.Findings.{finding};
ghost use Rattle.check_text.specs.Goals.{goal_difference, goal_difference_text, missed_goal, row_numbers, rows_word};

use crate::findings::push_finding;
use crate::heads::{Level, push_head};
use crate::quoting::push_quoted;
use grid_core::{GoalWord, NoMemory, Puzzle};
use puzzle_text::{push_bytes, push_number};
use std::alloc::Global;

/// Appends the number of a row, counted from 1, which `row` counts from 0.
fn push_row_number(text: &mut Vec<u8>, row: u16) -> Result<(), NoMemory>
    ensures { OnOk result (text.new.items ≡ text.old.items ++ decimal (row + 1)) }
{
    push_number(text, u64::from(row) + 1)
}

/// Appends the numbers of rows, which `rows` counts from 0, counted from 1 and with a comma between
/// two: `3, 4, 9`.
fn push_row_numbers(text: &mut Vec<u8>, rows: &[u16]) -> Result<(), NoMemory>
    ensures { OnOk result (text.new.items ≡ text.old.items ++ row_numbers rows.now) }
{
    if let [first, others @ ..] = rows {
        push_row_number(text, *first)?;
        for row in others {
            push_bytes(text, b", ")?;
            push_row_number(text, *row)?;
        }
    }
    Ok(())
}

/// Returns `row` if there is one row, and `rows` if not.
fn rows_word(rows: &[u16]) -> &'static [u8]
    ensures { result.now ≡ rows_word rows.now }
{
    if rows.len() == 1 { b"row " } else { b"rows " }
}

/// Appends the numbers of rows, which `rows` counts from 0, as they are quoted: counted from 1.
fn push_quoted_rows(text: &mut Vec<u8>, alloc: Global, rows: &[u16]) -> Result<(), NoMemory>
    ensures { OnOk result (text.new.items ≡ text.old.items ++ quoted (row_numbers rows.now)) }
{
    let mut numbers = Vec::new(alloc);
    push_row_numbers(&mut numbers, rows)?;
    push_quoted(text, &numbers)
}

/// Appends that a puzzle's goal differs from the only solution in some rows, which `rows` counts
/// from 0.
pub(crate) fn push_goal_difference_text(
    text: &mut Vec<u8>,
    alloc: Global,
    rows: &[u16],
) -> Result<(), NoMemory>
    ensures { OnOk result (text.new.items ≡ text.old.items ++ goal_difference_text rows.now) }
{
    push_bytes(text, b"the goal differs from the only solution in ")?;
    push_bytes(text, rows_word(rows))?;
    push_quoted_rows(text, alloc, rows)
}

/// Appends the finding that a puzzle's goal differs from the only solution in some rows, which
/// `rows` counts from 0.
fn push_differing_rows(
    text: &mut Vec<u8>,
    alloc: Global,
    name: &[u8],
    rows: &[u16],
) -> Result<(), NoMemory>
    ensures { OnOk result (text.new.items
        ≡ text.old.items ++ finding name.now Level.Warning (goal_difference_text rows.now)) }
{
    push_head(text, name, None, Level::Warning)?;
    push_goal_difference_text(text, alloc, rows)?;
    push_bytes(text, b"\n")
}

/// Appends the finding that a puzzle's goal differs from the only solution in some rows, which
/// `rows` counts from 0; nothing if it differs in none.
pub(crate) fn push_goal_difference(
    text: &mut Vec<u8>,
    alloc: Global,
    name: &[u8],
    rows: &[u16],
) -> Result<(), NoMemory>
    ensures { OnOk result (text.new.items
        ≡ text.old.items ++ goal_difference name.now rows.now) }
{
    if rows.is_empty() {
        return Ok(());
    }
    push_differing_rows(text, alloc, name, rows)
}

/// Returns the word for the puzzle's goal: it is absent, or it meets the clues or misses them.
fn goal_word(puzzle: &Puzzle) -> GoalWord
    ensures { result ≡ goal_word puzzle.now }
{
    puzzle.goal_word()
}

/// Appends the finding that a puzzle's goal doesn't meet the clues; nothing if it does, or if there
/// is no goal.
pub(crate) fn push_missed_goal(
    text: &mut Vec<u8>,
    name: &[u8],
    puzzle: &Puzzle,
) -> Result<(), NoMemory>
    ensures { OnOk result (text.new.items
        ≡ text.old.items ++ missed_goal name.now (goal_word puzzle.now)) }
{
    match goal_word(puzzle) {
        GoalWord::Absent | GoalWord::Meets => Ok(()),
        GoalWord::Misses => push_finding(
            text,
            name,
            Level::Warning,
            b"the goal does not meet the clues",
        ),
    }
}
