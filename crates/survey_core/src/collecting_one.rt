//! Grading jobs on the caller's thread.

ghost use Rattle.std.specs.Prelude.{IfOk};
ghost use Rattle.lane_core.specs.Answers.{AreAnswersTo};

use grid_core::NoMemory;
use lane_core::{Answer, Job, grade_by};
use solve_core::Reporter;
use std::alloc::Global;
use std::collections::VecDeque;

/// Grades the jobs on the caller's thread, and returns the answers in job order. Fails with
/// `NoMemory` if the list of answers can't be allocated; an allocation that fails while a job is
/// graded is reported in its answer.
pub fn collect_one(alloc: Global, jobs: Vec<Job>) -> Result<Vec<Answer>, NoMemory>
    ensures { IfOk result (λ answers. AreAnswersTo jobs.items answers.items) }
{
    let mut answers = Vec::with_capacity(alloc, jobs.len())?;
    let mut jobs = VecDeque::from(jobs);
    // One reporter for all jobs, so that its buffers are used again.
    let mut reporter = Reporter::new();
    'grading: while let Some(job) = jobs.pop_front() {
        answers.push_reserved(grade_by(&mut reporter, alloc, job));
    }
    Ok(answers)
}
