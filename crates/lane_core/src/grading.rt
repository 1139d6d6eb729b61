//! Grading jobs.

ghost use Rattle.lane_core.specs.Answers.{IsAnswerTo};

use crate::answers::Answer;
use crate::jobs::Job;
use solve_core::Reporter;
use std::alloc::Global;

/// Grades `job` and returns its answer. If an allocation fails, its outcome is `NoMemory`.
pub fn grade(alloc: Global, job: Job) -> Answer
    ensures { IsAnswerTo job result }
{
    grade_by(&mut Reporter::new(), alloc, job)
}

/// Grades `job` and returns its answer, as `grade` does. `reporter` keeps its buffers from one job
/// to the next.
pub fn grade_by(reporter: &mut Reporter, alloc: Global, job: Job) -> Answer
    ensures { IsAnswerTo job result }
{
    let Job {
        number,
        puzzle,
        guesses,
        pick,
    } = job;
    let outcome = reporter.report(alloc, &puzzle, guesses, pick);
    Answer::new(number, puzzle, guesses, pick, outcome)
}
