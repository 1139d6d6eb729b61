//! A lane of a collection, from opening to its answers.

ghost use Rattle.std.specs.Prelude.{◌≡◌, ◌++◌};
ghost use Rattle.lane_core.specs.Messages.{jobs_of};
ghost use Rattle.lane_core.specs.Ends.{front_lists, AreOneLane};
ghost use Rattle.survey_core.specs.steps.WorkerEnds.{dealt_back};

use crate::collecting::CollectFault;
use crate::workers::{LaneContext, WorkerEnd};
use grid_core::NoMemory;
use lane_core::{Answer, Gate, Job, Lane, LaneFront, deal, open_lane, settle};
use std::alloc::Global;
use std::collections::VecDeque;
use std::snapshot::Snapshot;
use std::sync::Wait;
use std::thread::{Parker, Scope, Threads};

/// A lane with the jobs dealt to it and the answers to them. All its memory is allocated when it is
/// opened.
#[derive(Drop)]
pub struct DealtLane<'s> {
    front: LaneFront,
    worker: WorkerEnd,
    /// The parker of the worker.
    parker: &'s Parker,
    /// The jobs that are still to be sent.
    waiting: VecDeque<Job, Global>,
    /// The answers received so far, in a list that has just the capacity for all.
    got: Vec<Answer>,
    /// The jobs dealt to the lane, in order.
    pub dealt: Snapshot<VecDeque<Job, Global>>,
    pub ghost one_lane: { AreOneLane front (dealt_back worker) },
    pub ghost jobs: { jobs_of (front_lists front).sent ++ waiting.items ≡ dealt.value.items },
    pub ghost received: { got.items ≡ (front_lists front).received },
}

impl<'s> DealtLane<'s> {
    ghost use Rattle.std.specs.Prelude.{◌≡◌, ◌≤◌, IfOk, MatchResult};
    ghost use Rattle.lane_core.specs.Answers.{AreAnswersTo};
    ghost use Rattle.lane_core.specs.declared.lane_pair.TheConstants.{MAX_RING};

    /// Opens a lane for the jobs `waiting`, and allocates a list for all their answers. `parker` is
    /// the parker of its worker, and `ring` the capacity of its rings, from 1 to 64. Fails with
    /// `NoMemory` if an allocation does.
    pub fn open(
        alloc: Global,
        waiting: VecDeque<Job, Global>,
        parker: &'s Parker,
        ring: usize,
    ) -> Result<DealtLane<'s>, NoMemory>
        requires least { 1 ≤ ring }
        requires most { ring ≤ MAX_RING }
        ensures { IfOk result (λ lane. lane.dealt.value ≡ waiting) }
    {
        let got = Vec::with_capacity(alloc, waiting.len())?;
        let (front, back) = open_lane(alloc, ring)?;
        Ok(DealtLane {
            front,
            worker: WorkerEnd::Here(back),
            parker,
            dealt: Snapshot::of(&waiting),
            waiting,
            got,
        })
    }

    /// Starts the lane's worker in a thread of `scope`. Fails with `Thread` if it can't be started.
    pub fn start<'t, E, R: Wait + Sync, G: Gate + Sync>(
        self,
        context: &'t LaneContext<'t, R, G>,
        scope: &Scope<'t, E>,
    ) -> Result<DealtLane<'s>, CollectFault>
    where
        's: 't,
        ensures { IfOk result (λ lane. lane.dealt ≡ self.entry.dealt) }
    {
        let mut lane = self;
        lane.worker = lane.worker.start(context, scope, lane.parker)?;
        Ok(lane)
    }

    /// Takes a turn at the lane: sends what its ring accepts and takes the answers that are there.
    /// If any was sent or taken, wakes the worker and returns `true`.
    pub fn turn(&mut self) -> bool
        ensures { self.new.dealt ≡ self.old.dealt }
    {
        let moved = deal(&mut self.front, &mut self.waiting, &mut self.got);
        if moved {
            self.parker.unpark();
        }
        moved
    }

    /// Reports whether each job was sent and answered, and the finish was sent, so that the worker
    /// ends.
    pub fn is_complete(&self) -> bool {
        let answered = self.waiting.is_empty() && self.got.len() == self.got.capacity();
        answered && self.front.has_sent_finish()
    }

    /// Asks the worker to finish, wakes it, and waits until its thread ends.
    pub fn stop<R: Threads>(self, rt: &R) {
        // Called before any job is sent, so the ring of messages is empty and accepts the finish.
        let mut front = self.front;
        let _ = front.finish();
        self.parker.unpark();
        let _back = self.worker.join(rt);
    }

    /// Waits until the worker ends, settles the lane, and returns the answers to its jobs, in
    /// order. Returns the lane as an error if a job waits or the lane can't be settled. The lane has
    /// to be complete: else its worker may never end.
    pub fn settle<R: Threads>(self, rt: &R) -> Result<VecDeque<Answer, Global>, DealtLane<'s>>
        ensures { MatchResult result
            (λ answers. AreAnswersTo self.entry.dealt.value.items answers.items)
            (λ lane. lane.dealt ≡ self.entry.dealt) }
    {
        if !self.waiting.is_empty() {
            return Err(self);
        }
        let mut lane = self;
        match settle(lane.front, lane.worker.join(rt)) {
            Ok(()) => Ok(VecDeque::from(lane.got)),
            Err((_, front, back)) => {
                lane.front = front;
                lane.worker = WorkerEnd::Here(back);
                Err(lane)
            }
        }
    }
}
