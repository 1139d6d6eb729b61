//! Grading jobs over several lanes, each with a worker in a thread of its own.

ghost use Rattle.std.specs.Prelude.{◌≡◌, ◌<◌, ◌≤◌, [], IfOk, IsOk, length, map, vec_len, vec_capacity};
ghost use Rattle.std.specs.VecDeque.{deque_len};
ghost use Rattle.lane_core.specs.Answers.{AreAnswersTo};
ghost use Rattle.survey_core.specs.declared.collecting.CollectFault.TheVariants.{NoMemory as collect_memory};
ghost use Rattle.survey_core.specs.steps.Collected.{dealt_jobs, EachAnswered};

use crate::job_order::{deal_out, empty_list, interleave};
use crate::lanes::DealtLane;
use crate::settings::{MAX_LANES, MAX_RING};
use crate::workers::{LaneContext, wake_interval, worker_parkers};
use grid_core::NoMemory;
use lane_core::{Answer, Gate, Job};
use puzzle_text::MAX_ENTRIES;
use std::alloc::Global;
use std::collections::VecDeque;
use std::snapshot::Snapshot;
use std::sync::Wait;
use std::thread;
use std::thread::{Parker, Scope, Threads};
use thiserror::Error;

/// The greatest number of jobs: that of the entries of a collection.
pub const MAX_JOBS: usize = MAX_ENTRIES;

/// Why collecting the answers failed.
#[derive(Clone, Copy, Debug, PartialEq, Eq, Error)]
pub enum CollectFault {
    /// An allocation failed; in `collect`, before any thread was started.
    #[error("out of memory")]
    NoMemory,
    /// The thread of a worker could not be started, whatever the cause. The workers that were
    /// started before it have ended.
    #[error("a thread was not started")]
    Thread,
}

impl From<NoMemory> for CollectFault {
    ghost from_gives = { λ _ fault. fault ≡ collect_memory };

    fn from(_refused: NoMemory) -> CollectFault {
        CollectFault::NoMemory
    }
}

/// Grades the jobs over `lanes` lanes, each with a worker in a thread of its own and with rings of
/// the capacity `ring`, and returns the answers in job order. There may be 0 to 10,000 jobs and 1
/// to 16 lanes, and the capacity may be 1 to 64.
///
/// The job at index `k` goes to lane `k % lanes`. All memory but that for starting threads and for
/// grading is allocated before any thread is started, and all threads are started before the first
/// job is sent; without jobs no thread is started. Fails with `NoMemory` if an allocation before
/// that fails, and with `Thread` if a thread can't be started. An allocation that fails while a job
/// is graded is reported in its answer.
pub fn collect<R: Threads + Wait + Sync, G: Gate + Sync>(
    rt: &R,
    alloc: Global,
    jobs: Vec<Job>,
    lanes: u16,
    ring: u16,
    gate: &G,
) -> Result<Vec<Answer>, CollectFault>
    requires jobs { vec_len jobs ≤ MAX_JOBS }
    requires lanes { (1 ≤ lanes) × (lanes ≤ MAX_LANES) }
    requires ring { (1 ≤ ring) × (ring ≤ MAX_RING) }
    ensures answers { IfOk result (λ answers. AreAnswersTo jobs.items answers.items) }
    ensures no_jobs { jobs.items ≡ [] → IsOk result }
{
    if jobs.is_empty() {
        return Ok(Vec::new(alloc));
    }
    let ring = usize::from(ring);
    let parker = Parker::new();
    let context = LaneContext {
        rt,
        alloc,
        gate,
        parker: &parker,
        wake_interval: wake_interval(ring),
    };
    collect_some(&context, jobs, usize::from(lanes), ring)
}

/// Grades any number of jobs over `lanes` lanes with rings of the capacity `ring`, and returns the
/// answers in job order.
fn collect_some<R: Threads + Wait + Sync, G: Gate + Sync>(
    context: &LaneContext<'_, R, G>,
    jobs: Vec<Job>,
    lanes: usize,
    ring: usize,
) -> Result<Vec<Answer>, CollectFault>
    requires lanes { 1 ≤ lanes }
    requires ring { (1 ≤ ring) × (ring ≤ MAX_RING) }
    ensures { IfOk result (λ answers. AreAnswersTo jobs.items answers.items) }
{
    // All lists are allocated here: once a thread was started, collecting can't fail for memory.
    let alloc = context.alloc;
    let all = Snapshot::of(&jobs);
    let count = jobs.len();
    let interleaved = empty_list(alloc, count)?;
    let settled = empty_list(alloc, lanes)?;
    let parkers = worker_parkers(alloc, lanes)?;
    let opened = open_lanes(alloc, deal_out(alloc, jobs, lanes)?, &parkers, ring)?;
    let complete = run_lanes(context, opened)?;
    let queues = settle_all(context.rt, complete, settled);
    Ok(interleave(&all, count, lanes, queues, interleaved))
}

/// Opens a lane for each queue of jobs, with the parker at the same index of `parkers` for its
/// worker. `ring` is the capacity of the lanes' rings, from 1 to 64.
fn open_lanes<'s>(
    alloc: Global,
    queues: Vec<VecDeque<Job, Global>>,
    parkers: &'s [Parker],
    ring: usize,
) -> Result<VecDeque<DealtLane<'s>, Global>, NoMemory>
    requires parkers { vec_len queues ≤ length parkers.now }
    requires ring { (1 ≤ ring) × (ring ≤ MAX_RING) }
    ensures jobs { IfOk result (λ lanes.
        dealt_jobs lanes.items ≡ map (λ q. q.items) queues.items) }
    ensures len { IfOk result (λ lanes. deque_len lanes ≡ vec_len queues) }
{
    let mut lanes = VecDeque::with_capacity(alloc, queues.len())?;
    for waiting in queues {
        let parker = &parkers[lanes.len()];
        lanes.push_back(DealtLane::open(alloc, waiting, parker, ring)?)?;
    }
    Ok(lanes)
}

/// Starts the workers of the lanes, takes turns at the lanes until each is complete, and returns
/// them once all workers have ended.
fn run_lanes<'b, R: Threads + Wait + Sync, G: Gate + Sync>(
    context: &LaneContext<'_, R, G>,
    lanes: VecDeque<DealtLane<'b>, Global>,
) -> Result<VecDeque<DealtLane<'b>, Global>, CollectFault>
    ensures jobs { IfOk result (λ complete.
        dealt_jobs complete.items ≡ dealt_jobs lanes.entry.items) }
    ensures len { IfOk result (λ complete. deque_len complete ≡ deque_len lanes.entry) }
{
    thread::scope(
        thread::scope_env(),
        context.rt,
        move |scope| -> Result<VecDeque<DealtLane<'_>, Global>, CollectFault>
            ensures jobs { IfOk result (λ complete.
                dealt_jobs complete.items ≡ dealt_jobs lanes.entry.items) }
            ensures len { IfOk result (λ complete. deque_len complete ≡ deque_len lanes.entry) }
        {
            let mut lanes = start_all(context, scope, lanes)?;
            take_turns(context, &mut lanes);
            Ok(lanes)
        },
    )
}

/// Starts the worker of each lane, and returns the lanes. If one can't be started, stops those
/// before it and fails with `Thread`.
fn start_all<'s, 'b: 's, E, R: Threads + Wait + Sync, G: Gate + Sync>(
    context: &'s LaneContext<'s, R, G>,
    scope: &Scope<'s, E>,
    lanes: VecDeque<DealtLane<'b>, Global>,
) -> Result<VecDeque<DealtLane<'b>, Global>, CollectFault>
    ensures jobs { IfOk result (λ started.
        dealt_jobs started.items ≡ dealt_jobs lanes.entry.items) }
    ensures len { IfOk result (λ started. deque_len started ≡ deque_len lanes.entry) }
{
    let mut lanes = lanes;
    // The queue is turned round once, so that its order stays.
    for _ in 0..lanes.len() {
        let Some(lane) = lanes.pop_front() else {
            unreachable!()
        };
        match lane.start(context, scope) {
            Ok(started) => lanes.push_back_reserved(started),
            Err(refused) => {
                stop_all(context.rt, lanes);
                return Err(refused);
            }
        }
    }
    Ok(lanes)
}

/// Asks each worker that was started to finish, and waits until its thread ends.
fn stop_all<R: Threads>(rt: &R, lanes: VecDeque<DealtLane<'_>, Global>) {
    for lane in lanes {
        lane.stop(rt);
    }
}

/// Takes turns at the lanes until each is complete. After a round in which nothing was sent or
/// taken, the collector parks until a worker wakes it.
fn take_turns<R: Wait, G>(
    context: &LaneContext<'_, R, G>,
    lanes: &mut VecDeque<DealtLane<'_>, Global>,
)
    ensures jobs { dealt_jobs lanes.new.items ≡ dealt_jobs lanes.old.items }
    ensures len { deque_len lanes.new ≡ deque_len lanes.old }
{
    'rounds: for _ in context.rt.forever() {
        let moved = take_round(lanes);
        if lanes.iter().all(|lane| lane.is_complete()) {
            return;
        }
        if !moved {
            context.parker.park(context.rt);
        }
    }
    unreachable!()
}

/// Takes one turn at each lane. Returns whether anything was sent or taken at any of them.
#[tactic(auto, using(crate::proofs::CollectedLemmas::places))]
fn take_round(lanes: &mut VecDeque<DealtLane<'_>, Global>) -> bool
    ensures jobs { dealt_jobs lanes.new.items ≡ dealt_jobs lanes.old.items }
    ensures len { deque_len lanes.new ≡ deque_len lanes.old }
{
    let mut moved = false;
    'lanes: for place in 0..lanes.len() {
        let lane = &mut lanes[place];
        if lane.turn() {
            moved = true;
        }
    }
    moved
}

/// Settles the lanes in order, and returns the answers of each in the list `buffer`. Each has to be
/// complete: this tries again for ever to settle one that isn't.
fn settle_all<R: Threads + Wait>(
    rt: &R,
    lanes: VecDeque<DealtLane<'_>, Global>,
    buffer: Vec<VecDeque<Answer, Global>>,
) -> Vec<VecDeque<Answer, Global>>
    requires { (buffer.items ≡ []) × (deque_len lanes ≤ vec_capacity buffer) }
    ensures { EachAnswered (dealt_jobs lanes.entry.items) (map (λ q. q.items) result.items) }
{
    let mut lanes = lanes;
    let mut settled = buffer;
    'settling: for _ in rt.forever() {
        let Some(lane) = lanes.pop_front() else {
            return settled;
        };
        match lane.settle(rt) {
            Ok(answers) => settled.push_reserved(answers),
            // A complete lane settles at the first call. The proof doesn't use that.
            Err(lane) => lanes.push_front_reserved(lane),
        }
    }
    unreachable!()
}
