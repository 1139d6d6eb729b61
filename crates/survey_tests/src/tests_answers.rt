//! Tests of the answers to puzzles that were solved by hand.

use crate::tests_samples::TEN;
use grid_core::GoalWord;
use lane_core::{Answer, Job};
use puzzle_text::{entries, read_entry};
use solve_core::{Grade, Pick};
use std::alloc::Global;
use std::process::Abort;
use std::test::Fail;
use survey_core::collect_one;

/// For each puzzle among the entries of `TEN`: its number, its grade, the guesses spent, and the
/// word for its goal.
const EIGHT: [(u32, Grade, u32, GoalWord); 8] = [
    (1, Grade::Lines, 0, GoalWord::Absent),
    (2, Grade::Lines, 0, GoalWord::Absent),
    (4, Grade::Trials, 0, GoalWord::Absent),
    (5, Grade::Trials, 0, GoalWord::Absent),
    (6, Grade::Search, 2, GoalWord::Absent),
    (8, Grade::Trials, 0, GoalWord::Absent),
    (9, Grade::Lines, 0, GoalWord::Meets),
    (10, Grade::Lines, 0, GoalWord::Misses),
];

/// Returns a job for each puzzle among the entries of `TEN`, with the number of its entry and a
/// limit of 1,000 guesses.
pub(crate) fn eight_jobs(alloc: Global) -> Result<Vec<Job>, Fail> {
    let mut jobs = Vec::new(alloc);
    for (entry, number) in entries(alloc, TEN.as_bytes())?.iter().zip(1u32..) {
        if let Ok(puzzle) = read_entry(alloc, entry) {
            jobs.push(Job::new(number, puzzle, 1000, Pick::First))?;
        }
    }
    Ok(jobs)
}

/// Reports whether an answer has a report with the grade `grade` and `spent` guesses, or has none
/// and `may_be_missing` is true.
fn is_reported(answer: &Answer, grade: Grade, spent: u32, may_be_missing: bool) -> bool {
    match answer.outcome() {
        Ok(found) => found.grade == grade && found.spent == spent,
        Err(_) => may_be_missing,
    }
}

/// Asserts that these are the answers to the jobs of `eight_jobs`, in job order, each with its
/// report. If `refused`, an allocation failed, and reports may be missing.
pub(crate) fn assert_answers(rt: &impl Abort, answers: &[Answer], refused: bool) {
    assert!(rt; answers.len() == 8);
    for (answer, (number, grade, spent, goal)) in answers.iter().zip(EIGHT) {
        let given = (
            answer.number(),
            answer.guesses(),
            answer.puzzle().goal_word(),
        );
        assert!(rt; given == (number, 1000, goal), "puzzle {number}");
        let is_reported = is_reported(answer, grade, spent, refused);
        assert!(rt; is_reported, "puzzle {number}");
    }
}

#[test]
fn one_thread_answers_eight_puzzles(rt: HostRuntime) -> Result<(), Fail> {
    let jobs = eight_jobs(rt.alloc())?;
    let answers = collect_one(rt.alloc(), jobs).ok().ok_or("memory")?;
    assert_answers(&rt, &answers, false);
    Ok(())
}
