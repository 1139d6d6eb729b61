//! Dealing jobs to lanes in turn, and interleaving the answers of the lanes back into job order.

ghost use Rattle.std.specs.Prelude.{◌≡◌, ◌<◌, ◌≤◌, ℕ, [], IfOk, length, map, slice_index_or, vec_len, vec_capacity};
ghost use Rattle.lane_core.specs.Answers.{AreAnswersTo};
ghost use Rattle.survey_core.specs.steps.Dealt.{dealt};

use grid_core::NoMemory;
use lane_core::{Answer, Job};
use std::alloc::Global;
use std::collections::VecDeque;
use std::snapshot::Snapshot;

/// Deals the jobs to `lanes` lanes in turn, and returns the jobs of each lane in order: the job at
/// index `k` goes to lane `k % lanes`. Fails with `NoMemory` if an allocation does.
pub fn deal_out(
    alloc: Global,
    jobs: Vec<Job>,
    lanes: usize,
) -> Result<Vec<VecDeque<Job, Global>>, NoMemory>
    requires some { 0 < lanes }
    ensures lanes { IfOk result (λ queues. vec_len queues ≡ lanes) }
    ensures dealt { IfOk result (λ queues. (k : ℕ) → k < lanes
        → slice_index_or (map (λ q. q.items) queues.items) k [] ≡ dealt jobs.items lanes k) }
{
    let count = jobs.len();
    let mut queues = no_jobs(alloc, lanes, count.div_ceil(lanes))?;
    let mut jobs = jobs.into_iter();
    for place in 0..count {
        let Some(job) = jobs.next() else {
            unreachable!()
        };
        let queue = &mut queues[place % lanes];
        queue.push_back(job)?;
    }
    Ok(queues)
}

/// Returns an empty queue for each of `lanes` lanes, with a capacity of `capacity` jobs.
fn no_jobs(
    alloc: Global,
    lanes: usize,
    capacity: usize,
) -> Result<Vec<VecDeque<Job, Global>>, NoMemory>
    ensures lanes { IfOk result (λ queues. vec_len queues ≡ lanes) }
    ensures empty { IfOk result (λ queues.
        (k : ℕ) → slice_index_or (map (λ q. q.items) queues.items) k [] ≡ []) }
{
    let mut queues = Vec::with_capacity(alloc, lanes)?;
    for _ in 0..lanes {
        queues.push(VecDeque::with_capacity(alloc, capacity)?)?;
    }
    Ok(queues)
}

/// Returns an empty list with a capacity of `count`.
pub fn empty_list<T>(alloc: Global, count: usize) -> Result<Vec<T>, NoMemory>
    ensures empty { IfOk result (λ list. list.items ≡ []) }
    ensures capacity { IfOk result (λ list. vec_capacity list ≡ count) }
{
    Ok(Vec::with_capacity(alloc, count)?)
}

/// Returns the answers of all lanes in job order: takes the next answer of each lane in turn, so
/// that answer `j` of lane `k` gets the index `k + j * lanes`. `interleaved` is an empty list with
/// a capacity of at least `count`, the number of jobs.
pub fn interleave(
    jobs: &Snapshot<Vec<Job>>,
    count: usize,
    lanes: usize,
    queues: Vec<VecDeque<Answer, Global>>,
    interleaved: Vec<Answer>,
) -> Vec<Answer>
    requires some { 0 < lanes }
    requires lanes { vec_len queues ≡ lanes }
    requires answered { (k : ℕ) → k < lanes →
        AreAnswersTo (dealt jobs.now.value.items lanes k)
        (slice_index_or (map (λ q. q.items) queues.items) k []) }
    requires empty { interleaved.items ≡ [] }
    requires count { count ≡ length jobs.now.value.items }
    requires capacity { count ≤ vec_capacity interleaved }
    ensures { AreAnswersTo jobs.now.value.items result.items }
{
    // `interleaved` comes from the caller, since nothing is to be allocated once threads were
    // started.
    let mut queues = queues;
    let mut interleaved = interleaved;
    for place in 0..count {
        let queue = &mut queues[place % lanes];
        let Some(answer) = queue.pop_front() else {
            unreachable!()
        };
        interleaved.push_reserved(answer);
    }
    interleaved
}
