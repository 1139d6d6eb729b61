//! Lanes with both ends in one value.

ghost use Rattle.std.specs.Prelude.{◌≡◌, ◌++◌, ◌<◌, length, IsTrue, IsFalse};
ghost use Rattle.lane_core.specs.Stepping.{Steps, Works, IsWorkDone};
ghost use Rattle.lane_core.specs.steps.WorkLeft.{work_left};
ghost use Rattle.lane_core.specs.Ends.{front_lists, back_lists, back_capacity, known_messages, AreOneLane, SameFront, SameBack};

use crate::answers::Answer;
use crate::backs::LaneBack;
use crate::faults::{FinishFault, SendFault, SettleFault};
use crate::fronts::LaneFront;
use crate::gates::Gate;
use crate::jobs::Job;
use crate::lane_pair::open_ends;
use crate::lanes::Lane;
use crate::settling::settle;
use crate::steps::Step;
use grid_core::NoMemory;
use std::alloc::Global;

/// The greatest capacity of a batch lane: 10,000 jobs, the most of a survey, and the finish.
pub const MAX_BATCH: usize = 10_001;

/// A lane with both ends in one value, for a thread that sends, grades and takes in batches.
#[derive(Drop)]
pub struct BatchLane {
    front: LaneFront,
    back: LaneBack,
    pub ghost one_lane: { AreOneLane front back },
}

impl BatchLane {
    ghost use Rattle.std.specs.Prelude.{◌≡◌, ◌≤◌, IfOk, IfErr, MatchResult, length, take, true};
    ghost use Rattle.lane_core.specs.Messages.{jobs_of, finish_is_last};
    ghost use Rattle.lane_core.specs.Answers.{AreAnswersTo};
    ghost use Rattle.lane_core.specs.Lane.{initial_front, initial_back, IsFinished, IsDrained};
    ghost use Rattle.lane_core.specs.Settling.{IsSettleFault};
    ghost use Rattle.lane_core.specs.Batch.{batch_front, batch_back, batch_capacity, SameEnds};

    /// Opens a lane whose rings hold `capacity` messages and as many answers, from 1 to 10,001.
    /// Returns `NoMemory` if an allocation fails.
    pub fn new(alloc: Global, capacity: usize) -> Result<BatchLane, NoMemory>
        requires least { 1 ≤ capacity }
        requires most { capacity ≤ MAX_BATCH }
        ensures capacity { IfOk result (λ lane. batch_capacity lane ≡ capacity) }
        ensures front { IfOk result (λ lane. batch_front lane ≡ initial_front) }
        ensures back { IfOk result (λ lane. batch_back lane ≡ initial_back) }
    {
        let (front, back) = open_ends(alloc, capacity)?;
        Ok(BatchLane { front, back })
    }

    /// Grades jobs as a worker does, until the finish has been taken, or no message and no held
    /// answer is left, or an answer is held because the ring of answers is full.
    pub fn work<G: Gate>(&mut self, alloc: Global, gate: &G)
        ensures lane { SameEnds self.old self.new }
        ensures front { batch_front self.new ≡ batch_front self.old }
        ensures worked { Works (batch_capacity self.old)
            (batch_back self.old) (batch_back self.new) }
        ensures ended { IsWorkDone (batch_capacity self.old)
            (batch_front self.new) (batch_back self.new) }
    {
        // Ends, since each turn that returns true lessens `work_left`. The proofs name the loop by
        // its label.
        'grading: while grade_next(&mut self.front, &mut self.back, alloc, gate) {}
    }

    /// Settles the lane if it is finished and drained, as `settle` does. Otherwise returns the
    /// fault and the lane, unchanged.
    pub fn close(self) -> Result<(), (SettleFault, BatchLane)>
        ensures cases { MatchResult result
            (λ _. IsFinished (batch_back self)
            × IsDrained (batch_front self) (batch_back self))
            (λ e. IsSettleFault e.0 (batch_front self) (batch_back self)) }
        ensures answers { MatchResult result
            (λ _. AreAnswersTo (jobs_of (batch_front self).sent) (batch_front self).received)
            (λ _. AreAnswersTo
            (take (length (batch_front self).received) (jobs_of (batch_front self).sent))
            (batch_front self).received) }
        ensures last { finish_is_last (batch_front self).sent ≡ true }
        ensures back { IfErr result (λ e. SameEnds self e.1
            × (batch_front e.1 ≡ batch_front self)
            × (batch_back e.1 ≡ batch_back self)) }
    {
        let BatchLane { front, back } = self;
        match settle(front, back) {
            Ok(()) => Ok(()),
            Err((fault, front, back)) => Err((fault, BatchLane { front, back })),
        }
    }
}

/// Reports whether a message waits or an answer is held. Looks at both ends of the ring of
/// messages: the worker's end alone is not proved to see the newest one.
fn has_work(front: &mut LaneFront, back: &mut LaneBack) -> bool
    requires { AreOneLane front.old back.old }
    ensures front { SameFront front.old front.new
        × (front_lists front.new ≡ front_lists front.old) }
    ensures back { SameBack back.old back.new × (back_lists back.new ≡ back_lists back.old) }
    ensures waiting { (back_lists back.old).taken ++ known_messages back.new
        ≡ (front_lists front.old).sent }
    ensures some { IsTrue result → back.old.held ≡ None → 0 < length (known_messages back.new) }
    ensures none { IsFalse result
        → (length (known_messages back.new) ≡ 0) × (back.old.held ≡ None) }
{
    let waiting = back.messages.slots_beside(&mut front.messages);
    waiting > 0 || back.held.is_some()
}

/// Takes one step of the worker if a message waits or an answer is held.
/// Returns whether an answer was put; otherwise the work is done (`IsWorkDone`).
fn grade_next<G: Gate>(front: &mut LaneFront, back: &mut LaneBack, alloc: Global, gate: &G) -> bool
    requires { AreOneLane front.old back.old }
    ensures front { SameFront front.old front.new
        × (front_lists front.new ≡ front_lists front.old) }
    ensures back { SameBack back.old back.new }
    ensures more { IsTrue result
        → Steps (back_capacity back.old) Step.Graded (back_lists back.old) (back_lists back.new)
        × (work_left (front_lists front.old) (back_lists back.new)
        < work_left (front_lists front.old) (back_lists back.old)) }
    ensures last { IsFalse result
        → Works (back_capacity back.old) (back_lists back.old) (back_lists back.new)
        × IsWorkDone (back_capacity back.old) (front_lists front.old) (back_lists back.new) }
{
    if !has_work(front, back) {
        return false;
    }
    match back.step(alloc, gate) {
        Step::Graded => true,
        _ => false,
    }
}

impl Lane for BatchLane {
    ghost use Rattle.rtrb.specs.Ring.{known_items};
    ghost use Rattle.lane_core.specs.Batch.{batch_front, batch_capacity, SameWork, SameWork-refl, SameWork-trans, SameWork-capacity};

    ghost lists = { batch_front };

    ghost known_answers = { λ lane. known_items lane.front.answers };

    ghost capacity = { batch_capacity };

    ghost same_lane = { SameWork };

    ghost same_lane_refl = { SameWork-refl };

    ghost same_lane_trans = { SameWork-trans };

    ghost same_capacity = { SameWork-capacity };

    fn send(&mut self, job: Job) -> Result<(), SendFault> {
        self.front.send(job)
    }

    fn finish(&mut self) -> Result<(), FinishFault> {
        self.front.finish()
    }

    fn take(&mut self) -> Option<Answer> {
        self.front.take()
    }
}
