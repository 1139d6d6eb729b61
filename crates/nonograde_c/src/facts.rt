//! What grading finds of a puzzle, as a structure of numbers.

ghost use Rattle.std.specs.Prelude.{◌≡◌, ◌≤◌, IfOk};
ghost use Rattle.solve_core.specs.Report.{findings_of};
ghost use Rattle.survey_text.specs.Goals.{goal_word};
ghost use Rattle.nonograde_c.specs.Facts.{FillsFacts, facts_of, goal_number, grade_number, refused_facts, verdict_number};

use crate::faults::{Fault, Status};
use grid_core::{GoalWord, NoMemory, Puzzle};
use lane_core::{Job, MAX_GUESSES, grade};
use solve_core::{Findings, Grade, Pick, Verdict};
use std::alloc::Global;

/// What grading finds of a puzzle. The numbers of the words are those of `nonograde.h`.
#[repr(C)]
#[derive(Clone, Copy, Debug, PartialEq, Eq)]
pub struct Facts {
    /// The width in cells, from 1 to 256.
    pub width: u32,
    /// The height in cells, from 1 to 256.
    pub height: u32,
    /// The number of the verdict.
    pub verdict: u32,
    /// The number of the grade.
    pub grade: u32,
    /// How many cells are known after line logic; 0 if that finds a contradiction.
    pub line_cells: u32,
    /// How many cells are known after trials; 0 if line logic or trials find a contradiction.
    pub trial_cells: u32,
    /// How many guesses were spent.
    pub guesses: u32,
    /// The number of the word for the goal.
    pub goal: u32,
    /// The number of the line that the fault of a refused text is about; 0 if there is none.
    pub fault_line: u32,
}

impl Facts {
    /// Returns the facts that are written for a fault: only the line that it is about.
    pub fn refused(fault: Fault) -> Facts
        ensures { result ≡ refused_facts fault }
    {
        Facts {
            width: 0,
            height: 0,
            verdict: 0,
            grade: 0,
            line_cells: 0,
            trial_cells: 0,
            guesses: 0,
            goal: 0,
            fault_line: fault.line().unwrap_or(0),
        }
    }
}

/// Returns the number of a verdict.
fn verdict_number(verdict: &Verdict) -> u32
    ensures { result ≡ verdict_number verdict.now }
{
    match verdict {
        Verdict::Nothing => 0,
        Verdict::One(_) => 1,
        Verdict::Several(_, _) => 2,
        Verdict::Unsettled(_) => 3,
    }
}

/// Returns the number of a grade.
fn grade_number(grade: Grade) -> u32
    ensures { result ≡ grade_number grade }
{
    match grade {
        Grade::Lines => 0,
        Grade::Trials => 1,
        Grade::Search => 2,
    }
}

/// Returns the number of a word for a goal.
fn goal_number(goal: GoalWord) -> u32
    ensures { result ≡ goal_number goal }
{
    match goal {
        GoalWord::Absent => 0,
        GoalWord::Meets => 1,
        GoalWord::Misses => 2,
    }
}

/// Returns the number of the word for the puzzle's goal.
fn goal_of(puzzle: &Puzzle) -> u32
    ensures { result ≡ goal_number (goal_word puzzle.now) }
{
    goal_number(puzzle.goal_word())
}

/// Returns the facts about a puzzle that has these findings.
fn facts_of(puzzle: &Puzzle, findings: &Findings) -> Facts
    ensures { result ≡ facts_of puzzle.now findings.now }
{
    Facts {
        width: u32::from(puzzle.width()),
        height: u32::from(puzzle.height()),
        verdict: verdict_number(&findings.verdict),
        grade: grade_number(findings.grade),
        line_cells: findings.line_known,
        trial_cells: findings.trial_known,
        guesses: findings.spent,
        goal: goal_of(puzzle),
        fault_line: 0,
    }
}

/// Grades `puzzle`, and returns the facts about it. The search spends at most `guesses` guesses, 0
/// to 1,000,000, on cells that `pick` chooses. Fails with `NoMemory` if an allocation does.
pub fn grade_facts(
    alloc: Global,
    puzzle: Puzzle,
    guesses: u32,
    pick: Pick,
) -> Result<Facts, NoMemory>
    requires { guesses ≤ MAX_GUESSES }
    ensures { IfOk result (λ facts.
        facts ≡ facts_of puzzle (findings_of pick puzzle guesses)) }
{
    let answer = grade(alloc, Job::new(1, puzzle, guesses, pick));
    let findings = answer.outcome()?;
    Ok(facts_of(answer.puzzle(), findings))
}

/// Writes an answer to `facts`: what was found, or the line that the fault is about. Returns the
/// number of the status.
pub fn fill_facts(facts: &mut Facts, answer: Result<Facts, Fault>) -> u32
    ensures { FillsFacts answer result facts.new }
{
    match answer {
        Ok(found) => {
            *facts = found;
            Status::Answered.number()
        }
        Err(fault) => {
            *facts = Facts::refused(fault);
            fault.status().number()
        }
    }
}
