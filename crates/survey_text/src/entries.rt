//! Printing the entries of a survey: the line of each, and its solutions if asked for.

ghost use Rattle.std.specs.Prelude.{◌≡◌, ◌++◌, IfOk, IsOk, OnOk, codes, Ok, Err};
ghost use Rattle.std.specs.List.{flat_map};
ghost use Rattle.puzzle_text.specs.Words.{word_of};
ghost use Rattle.survey_text.specs.Entries.{counts_text, entry_line, entry_text, found_of, grade_word, result_text, shown_outcome, solution_text, solutions_of, solutions_text, verdict_text, verdict_word};
ghost use Rattle.survey_text.specs.steps.Entries.{shown_listed};
ghost use Rattle.survey_text.specs.Goals.{goal_text};

use crate::Outcome;
use crate::listed::{GradedPuzzle, ListedEntry};
use crate::names::push_name;
use crate::pictures::push_grid;
use grid_core::{GoalWord, Grid, NoMemory, Puzzle};
use lane_core::Answer;
use puzzle_text::{EntryFault, push_bytes, push_number};
use solve_core::{Findings, Grade, Verdict};
use std::alloc::Global;

/// Appends the word for `verdict` and a space.
fn push_verdict_word(text: &mut Vec<u8>, verdict: &Verdict) -> Result<(), NoMemory>
    ensures { OnOk result (text.new.items
        ≡ text.old.items ++ verdict_word verdict.now ++ codes " ") }
{
    match verdict {
        Verdict::Nothing => push_bytes(text, b"none "),
        Verdict::One(_) => push_bytes(text, b"one "),
        Verdict::Several(_, _) => push_bytes(text, b"several "),
        Verdict::Unsettled(_) => push_bytes(text, b"unsettled "),
    }
}

/// Appends the word for `grade` and a space.
fn push_grade_word(text: &mut Vec<u8>, grade: Grade) -> Result<(), NoMemory>
    ensures { OnOk result (text.new.items ≡ text.old.items ++ grade_word grade ++ codes " ") }
{
    match grade {
        Grade::Lines => push_bytes(text, b"line "),
        Grade::Trials => push_bytes(text, b"trials "),
        Grade::Search => push_bytes(text, b"search "),
    }
}

/// Appends the word for whether a goal meets its clues, and a space.
fn push_goal_word(text: &mut Vec<u8>, word: GoalWord) -> Result<(), NoMemory>
    ensures { OnOk result (text.new.items ≡ text.old.items ++ goal_text word ++ codes " ") }
{
    match word {
        GoalWord::Absent => push_bytes(text, b"absent "),
        GoalWord::Meets => push_bytes(text, b"meets "),
        GoalWord::Misses => push_bytes(text, b"misses "),
    }
}

/// Appends the size of `puzzle`, as `20x15` for width 20 and height 15, its verdict and its grade,
/// each followed by a space.
fn push_verdict(text: &mut Vec<u8>, puzzle: &Puzzle, findings: &Findings) -> Result<(), NoMemory>
    ensures { OnOk result (text.new.items
        ≡ text.old.items ++ verdict_text puzzle.now findings.now ++ codes " ") }
{
    push_number(text, u64::from(puzzle.width()))?;
    text.push(b'x')?;
    push_number(text, u64::from(puzzle.height()))?;
    text.push(b' ')?;
    push_verdict_word(text, &findings.verdict)?;
    push_grade_word(text, findings.grade)
}

/// Appends how many cells are known after line deduction and after trials, how many guesses were
/// spent, and the word for the goal, each followed by a space.
fn push_counts(text: &mut Vec<u8>, found: &GradedPuzzle<'_>) -> Result<(), NoMemory>
    ensures { OnOk result (text.new.items
        ≡ text.old.items
        ++ counts_text found.now.answer.now.puzzle found.now.findings.now ++ codes " ") }
{
    let findings = found.findings;
    push_number(text, u64::from(findings.line_known))?;
    text.push(b' ')?;
    push_number(text, u64::from(findings.trial_known))?;
    text.push(b' ')?;
    push_number(text, u64::from(findings.spent))?;
    text.push(b' ')?;
    push_goal_word(text, found.goal)
}

/// Appends the size of a puzzle and all that was found of it, followed by a space.
fn push_found(text: &mut Vec<u8>, found: &GradedPuzzle<'_>) -> Result<(), NoMemory>
    ensures { OnOk result (text.new.items
        ≡ text.old.items ++ result_text (Ok (found.now.answer.now.puzzle, found.now.findings.now))
        ++ codes " ") }
{
    push_verdict(text, found.puzzle(), found.findings)?;
    push_counts(text, found)
}

/// Appends `refused` and the word of `fault`, each followed by a space.
fn push_refusal(text: &mut Vec<u8>, fault: EntryFault) -> Result<(), NoMemory>
    ensures { OnOk result (text.new.items
        ≡ text.old.items ++ codes "refused " ++ word_of fault ++ codes " ") }
{
    push_bytes(text, b"refused ")?;
    fault.word().push(text)?;
    text.push(b' ')?;
    Ok(())
}

/// Appends what was found of the puzzle of `entry`, or why the entry is refused, followed by a
/// space.
fn push_result(text: &mut Vec<u8>, entry: &ListedEntry<'_>) -> Result<(), NoMemory>
    ensures { OnOk result (text.new.items
        ≡ text.old.items ++ result_text (shown_listed entry.now).result ++ codes " ") }
{
    match &entry.result {
        Ok(found) => push_found(text, found),
        Err(fault) => push_refusal(text, *fault),
    }
}

/// Appends the line of `entry`: its number, its result, its name and LF.
fn push_line(text: &mut Vec<u8>, number: u32, entry: &ListedEntry<'_>) -> Result<(), NoMemory>
    ensures { OnOk result (text.new.items
        ≡ text.old.items ++ entry_line number (shown_listed entry.now)) }
{
    push_number(text, u64::from(number))?;
    text.push(b' ')?;
    push_result(text, entry)?;
    push_name(text, entry.name)?;
    text.push(b'\n')?;
    Ok(())
}

/// Appends the rows of a solution and an empty line.
fn push_solution(text: &mut Vec<u8>, grid: &Grid) -> Result<(), NoMemory>
    ensures { OnOk result (text.new.items ≡ text.old.items ++ solution_text grid.now) }
{
    push_grid(text, grid)?;
    text.push(b'\n')?;
    Ok(())
}

/// Appends the solutions in `verdict`, at most two, in the order in which they were found, each
/// followed by an empty line.
pub fn push_solutions(text: &mut Vec<u8>, verdict: &Verdict) -> Result<(), NoMemory>
    ensures { OnOk result (text.new.items
        ≡ text.old.items ++ flat_map solution_text (solutions_of verdict.now)) }
{
    match verdict {
        Verdict::Nothing => Ok(()),
        Verdict::One(grid) => push_solution(text, grid),
        Verdict::Several(first, second) => {
            push_solution(text, first)?;
            push_solution(text, second)
        }
        Verdict::Unsettled(None) => Ok(()),
        Verdict::Unsettled(Some(grid)) => push_solution(text, grid),
    }
}

/// Appends the solutions of `entry`: none if it is refused.
fn push_shown(text: &mut Vec<u8>, entry: &ListedEntry<'_>) -> Result<(), NoMemory>
    ensures { OnOk result (text.new.items
        ≡ text.old.items ++ solutions_text (shown_listed entry.now).result) }
{
    match &entry.result {
        Ok(found) => push_solutions(text, &found.findings.verdict),
        Err(_) => Ok(()),
    }
}

/// Appends the line of `entry`, which begins with `number`, and its solutions if `show` is set.
pub(crate) fn push_entry(
    text: &mut Vec<u8>,
    number: u32,
    entry: &ListedEntry<'_>,
    show: bool,
) -> Result<(), NoMemory>
    ensures { OnOk result (text.new.items
        ≡ text.old.items ++ entry_text show number (shown_listed entry.now)) }
{
    push_line(text, number, entry)?;
    if show {
        push_shown(text, entry)?;
    }
    Ok(())
}

/// Returns the text of an entry: its line, which begins with `number`, and, if `show` is set, each
/// of its solutions, followed by an empty line. An answer that failed with `NoMemory` is printed as
/// an entry refused with that word. Fails with `NoMemory` if an allocation for the text does.
pub fn print_entry(
    alloc: Global,
    number: u32,
    outcome: &Outcome,
    show: bool,
) -> Result<Vec<u8>, NoMemory>
    ensures { IfOk result (λ text.
        text.items ≡ entry_text show number (shown_outcome outcome.now)) }
{
    let mut text = Vec::new(alloc);
    push_entry(&mut text, number, &outcome.listed(), show)?;
    Ok(text)
}

/// Returns the text of an entry whose puzzle was graded: its line, which begins with `number`, and,
/// if `show` is set, each of its solutions, followed by an empty line. Fails with `NoMemory` if the
/// answer did, or if an allocation for the text does.
pub fn print_graded(
    alloc: Global,
    number: u32,
    name: &[u8],
    answer: &Answer,
    show: bool,
) -> Result<Vec<u8>, NoMemory>
    ensures text { IfOk result (λ text. text.items ≡ entry_text show number
        (record { name = name.now; result = found_of answer.now.puzzle answer.now.outcome })) }
    ensures report { OnOk result (IsOk answer.now.outcome) }
{
    // The text form doesn't print the entry's text, so that may be any.
    let entry = ListedEntry::graded(name, b"", answer)?;
    let mut text = Vec::new(alloc);
    push_entry(&mut text, number, &entry, show)?;
    Ok(text)
}
