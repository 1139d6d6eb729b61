//! Workers, each in a thread of its own, and how the two ends of a lane wake each other: an end with
//! nothing to do parks, and the other end wakes it.

ghost use Rattle.std.specs.Prelude.{◌≡◌, ◌≤◌, ◌+◌, ◌*◌, IfOk, vec_len};
ghost use Rattle.lane_core.specs.Lane.{IsFinished};
ghost use Rattle.lane_core.specs.Ends.{back_lists, SameBack};
ghost use Rattle.survey_core.specs.steps.WorkerEnds.{dealt_back};

use crate::collecting::CollectFault;
use crate::heap_reserve::HeapReserve;
use grid_core::NoMemory;
use lane_core::{Gate, LaneBack, Step};
use std::alloc::Global;
use std::snapshot::Snapshot;
use std::sync::Wait;
use std::thread::{Parker, Promise, PromisedHandle, Scope, Threads};

/// The context that the collector and its workers share.
#[derive(Drop)]
pub struct LaneContext<'s, R, G> {
    /// The runtime, which starts threads and lets them wait.
    pub rt: &'s R,
    /// The allocator for grading.
    pub alloc: Global,
    /// The gate that each job enters before it is graded.
    pub gate: &'s G,
    /// The parker of the collector.
    pub parker: &'s Parker,
    /// How many answers a worker puts, at most, before it wakes the collector.
    pub wake_interval: usize,
}

/// Returns a parker for each of `workers` workers. Fails with `NoMemory` if an allocation does.
pub fn worker_parkers(alloc: Global, workers: usize) -> Result<Vec<Parker>, NoMemory>
    ensures { IfOk result (λ parkers. vec_len parkers ≡ workers) }
{
    let mut parkers = Vec::with_capacity(alloc, workers)?;
    for _ in 0..workers {
        parkers.push(Parker::new())?;
    }
    Ok(parkers)
}

/// Returns how many answers a worker puts, at most, before it wakes the collector: half of the
/// capacity of its ring, `ring`, and at least 1. The collector then refills the lane while the
/// worker grades the other half.
pub fn wake_interval(ring: usize) -> usize
    ensures some { 1 ≤ result }
    ensures half { 2 ≤ ring → 2 * result ≤ ring }
    ensures most { ring ≤ 2 * result + 1 }
{
    (ring / 2).max(1)
}

/// The parker of a worker and that of the collector, which the worker wakes once for several
/// answers, and before it parks or ends itself if an answer was put since.
#[derive(Drop)]
pub struct WakeBatcher<'s> {
    own: &'s Parker,
    collector: &'s Parker,
    wake_interval: usize,
    pending_answers: usize,
}

impl<'s> WakeBatcher<'s> {
    /// Counts an answer that was put, and wakes the collector if at least `wake_interval` answers
    /// were put since it was last woken.
    pub fn answer_put(&mut self) {
        self.pending_answers = self.pending_answers.saturating_add(1);
        if self.pending_answers >= self.wake_interval {
            self.wake_collector();
        }
    }

    /// Wakes the collector if an answer was put since it was last woken.
    pub fn wake_collector(&mut self) {
        if self.pending_answers > 0 {
            self.pending_answers = 0;
            self.collector.unpark();
        }
    }

    /// Wakes the collector if an answer was put since it was last woken, and parks until the
    /// collector wakes this worker.
    pub fn park<R: Wait>(&mut self, rt: &R) {
        // In this order: else the two could park at the same time, each waiting for the other.
        self.wake_collector();
        self.own.park(rt);
    }
}

/// The promise that a worker returns the back of its own lane, with the finish taken.
#[derive(Drop)]
pub struct FinishedBackOf(Snapshot<LaneBack>);

impl Promise<LaneBack> for FinishedBackOf {
    ghost kept_by = { λ promise back.
        SameBack promise.0.value back × IsFinished (back_lists back) };
}

/// Takes steps at the lane's back until the finish is taken, and returns the back. After a step
/// that could do nothing, the worker parks. It wakes the collector once for several answers, and
/// for those put since before it parks or ends.
pub fn run_worker<R: Wait, G: Gate>(
    rt: &R,
    alloc: Global,
    gate: &G,
    back: LaneBack,
    batcher: WakeBatcher<'_>,
) -> LaneBack
    ensures lane { SameBack back result }
    ensures finished { IsFinished (back_lists result) }
{
    let mut back = back;
    let mut batcher = batcher;
    let mut reserve = HeapReserve::new(alloc);
    for _ in rt.forever() {
        match back.step(alloc, gate) {
            Step::Graded => {
                batcher.answer_put();
                // Answers stay on this thread's heap until the survey is printed.
                reserve.top_up();
            }
            Step::Idle | Step::Waiting => batcher.park(rt),
            Step::Done => {
                batcher.wake_collector();
                return back;
            }
        }
    }
    unreachable!()
}

/// The worker's end of a lane: it is here until the worker is started, which then has it in a
/// thread.
#[derive(Drop)]
pub enum WorkerEnd {
    /// The end itself.
    Here(LaneBack),
    /// The handle of the worker's thread, which promises the end.
    Away(PromisedHandle<LaneBack, FinishedBackOf>),
}

impl WorkerEnd {
    /// Starts the worker in a thread of `scope`, if it is not started yet; its parker is `parker`.
    /// Fails with `Thread` if the thread can't be started.
    pub fn start<'s, E, R: Wait + Sync, G: Gate + Sync>(
        self,
        context: &'s LaneContext<'s, R, G>,
        scope: &Scope<'s, E>,
        parker: &'s Parker,
    ) -> Result<WorkerEnd, CollectFault>
        ensures { IfOk result (λ end. dealt_back end ≡ dealt_back self) }
    {
        let WorkerEnd::Here(back) = self else {
            return Ok(self);
        };
        let promise = FinishedBackOf(Snapshot::of(&back));
        // The closure captures plain references: one that captured `context`, whose type has a
        // lifetime, would ensure nothing of its result.
        let (rt, alloc, gate) = (context.rt, context.alloc, context.gate);
        let (collector, wake_interval) = (context.parker, context.wake_interval);
        match scope.spawn_with(promise, move || {
            let batcher = WakeBatcher {
                own: parker,
                collector,
                wake_interval,
                pending_answers: 0,
            };
            run_worker(rt, alloc, gate, back, batcher)
        }) {
            Ok(worker) => Ok(WorkerEnd::Away(worker)),
            Err(_) => Err(CollectFault::Thread),
        }
    }

    /// Returns the worker's end. If its worker was started, waits until the thread ends.
    pub fn join<R: Threads>(self, rt: &R) -> LaneBack
        ensures { SameBack (dealt_back self) result }
    {
        match self {
            WorkerEnd::Here(back) => back,
            WorkerEnd::Away(worker) => worker.join(rt),
        }
    }
}
