//! The findings on a graded puzzle.

ghost use Rattle.std.specs.Prelude.{◌≡◌, ◌++◌, IfOk, OnOk};
ghost use Rattle.diagnosis.specs.Diagnoses.{HaveSizeOf, IsDiagnosisOf};
ghost use Rattle.diagnosis.specs.Differences.{differing_cells};
ghost use Rattle.solve_core.specs.Report.{findings_of};
ghost use Rattle.check_text.specs.PuzzleFindings.{is_warned, puzzle_findings, puzzle_level, several_text, solved_if_asked, unique_level, unique_text};

use crate::ambiguity::push_ambiguity;
use crate::goals::{push_goal_difference, push_missed_goal};
use crate::grades::{is_beyond, push_grade_finding, push_solved};
use crate::heads::Level;
use crate::unfinished::push_unfinished;
use crate::unsolvable::push_unsolvable;
use diagnosis::{Diagnosis, Outcome, Position, diagnose};
use grid_core::{Grid, NoMemory, Puzzle};
use lane_core::Answer;
use solve_core::{Findings, Grade};
use std::alloc::Global;

/// What is asked of puzzles, and what is printed of them.
#[derive(Clone, Copy, Debug, PartialEq, Eq)]
pub struct CheckOptions {
    /// The greatest grade that a puzzle with one solution may have without a warning. `None` allows
    /// each grade.
    pub grade: Option<Grade>,
    /// Whether a puzzle without findings has a line too.
    pub all: bool,
}

/// Reports whether there is a finding on a puzzle with one solution, from which its goal differs in
/// `rows`.
fn is_warned(options: CheckOptions, rows: &[u16], grade: Grade) -> bool
    ensures { result ≡ is_warned options rows.now grade }
{
    !rows.is_empty() || is_beyond(options.grade, grade)
}

/// Appends the line of a puzzle with one solution on which there is no finding, if `options` ask for
/// all puzzles.
fn push_solved_if_asked(
    text: &mut Vec<u8>,
    alloc: Global,
    options: CheckOptions,
    name: &[u8],
    puzzle: &Puzzle,
    rows: &[u16],
    grade: Grade,
) -> Result<(), NoMemory>
    ensures { OnOk result (text.new.items
        ≡ text.old.items ++ solved_if_asked options name.now puzzle.now rows.now grade) }
{
    if is_warned(options, rows, grade) || !options.all {
        return Ok(());
    }
    push_solved(text, alloc, name, puzzle, grade)
}

/// Appends the findings on a puzzle with one solution, from which its goal differs in `rows`; if
/// there is none and `options` ask for all puzzles, the line of a puzzle without findings.
fn push_unique(
    text: &mut Vec<u8>,
    alloc: Global,
    options: CheckOptions,
    name: &[u8],
    puzzle: &Puzzle,
    rows: &[u16],
    grade: Grade,
) -> Result<(), NoMemory>
    ensures { OnOk result (text.new.items
        ≡ text.old.items ++ unique_text options name.now puzzle.now rows.now grade) }
{
    push_goal_difference(text, alloc, name, rows)?;
    push_grade_finding(text, name, options.grade, grade)?;
    push_solved_if_asked(text, alloc, options, name, puzzle, rows, grade)
}

/// Returns the level of the findings on a puzzle with one solution, from which its goal differs in
/// `rows`.
fn unique_level(options: CheckOptions, rows: &[u16], grade: Grade) -> Option<Level>
    ensures { result ≡ unique_level options rows.now grade }
{
    if is_warned(options, rows, grade) {
        Some(Level::Warning)
    } else {
        None
    }
}

/// Appends the findings on a puzzle with two solutions: these, which differ in `cells`, with pictures
/// of them, and that the goal doesn't meet the clues, if it doesn't.
fn push_several(
    text: &mut Vec<u8>,
    alloc: Global,
    name: &[u8],
    puzzle: &Puzzle,
    first: &Grid,
    second: &Grid,
    cells: &[Position],
) -> Result<(), NoMemory>
    requires cells { cells.now ≡ differing_cells first.now second.now }
    requires width { second.now.width ≡ first.now.width }
    requires height { second.now.height ≡ first.now.height }
    ensures { OnOk result (text.new.items
        ≡ text.old.items ++ several_text name.now puzzle.now first.now second.now) }
{
    push_ambiguity(text, alloc, name, first, second, cells)?;
    push_missed_goal(text, name, puzzle)
}

/// Appends what is printed on `puzzle` by its diagnosis, which was made of a report's `findings`,
/// under a limit of `guesses` guesses. Returns the level of the worst finding.
fn push_diagnosis(
    text: &mut Vec<u8>,
    alloc: Global,
    options: CheckOptions,
    name: &[u8],
    puzzle: &Puzzle,
    guesses: u32,
    findings: &Findings,
    diagnosis: &Diagnosis<'_>,
) -> Result<Option<Level>, NoMemory>
    requires sizes { HaveSizeOf puzzle.now findings.now.verdict }
    requires diagnosis { IsDiagnosisOf puzzle.now findings.now diagnosis.now }
    ensures text { OnOk result (text.new.items ≡ text.old.items
        ++ puzzle_findings options name.now puzzle.now guesses findings.now) }
    ensures level { IfOk result (λ worst. worst ≡ puzzle_level options puzzle.now findings.now) }
{
    let grade = findings.grade;
    let Diagnosis {
        misfits,
        sums,
        outcome,
    } = diagnosis;
    match outcome {
        Outcome::Refuted(refutation) => {
            push_unsolvable(text, alloc, name, puzzle, misfits, *sums, *refutation)?;
            Ok(Some(Level::Error))
        }
        Outcome::Unique(rows) => {
            push_unique(text, alloc, options, name, puzzle, rows, grade)?;
            Ok(unique_level(options, rows, grade))
        }
        Outcome::Ambiguous {
            first,
            second,
            differing,
        } => {
            push_several(text, alloc, name, puzzle, first, second, differing)?;
            Ok(Some(Level::Error))
        }
        Outcome::Unsettled => {
            let level = push_unfinished(text, alloc, name, puzzle, *sums, guesses)?;
            Ok(Some(level))
        }
    }
}

/// Appends the findings on a graded puzzle, each a line that begins with `name`, the name of its
/// file; two solutions are followed by pictures of them. If there is no finding and `options` ask
/// for all puzzles, appends one line without a level. Returns the level of the worst finding.
/// Fails with `NoMemory` if the answer did, or if an allocation fails.
#[tactic(auto, using(diagnosis::proofs::VerdictSizes::sizes_of_verdict))]
pub fn push_graded(
    text: &mut Vec<u8>,
    alloc: Global,
    options: CheckOptions,
    name: &[u8],
    answer: &Answer,
) -> Result<Option<Level>, NoMemory>
    ensures text { OnOk result (text.new.items ≡ text.old.items
        ++ puzzle_findings options name.now answer.now.puzzle answer.now.guesses
        (findings_of answer.now.pick answer.now.puzzle answer.now.guesses)) }
    ensures level { IfOk result (λ worst. worst
        ≡ puzzle_level options answer.now.puzzle
        (findings_of answer.now.pick answer.now.puzzle answer.now.guesses)) }
{
    let findings = answer.outcome()?;
    let puzzle = answer.puzzle();
    // Called for its contract, which the proof needs: the puzzle is a nonogram.
    puzzle.width();
    let diagnosis = diagnose(alloc, puzzle, findings)?;
    let guesses = answer.guesses();
    push_diagnosis(
        text, alloc, options, name, puzzle, guesses, findings, &diagnosis,
    )
}
