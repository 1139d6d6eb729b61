//! Scripts of calls at a lane on one thread, with each allocation failing in turn. They also show
//! what no contract says: whether an end finds a ring full or empty.

use crate::tests_lanes::{
    Batch, Both, Call, Called, Reply, Turn, jobs, jobs_for, result_of, take_turns,
};
use alloc_failures::{arm, disarm};
use lane_core::*;
use std::alloc::Global;
use std::collections::VecDeque;
use std::process::Abort;
use std::test::Fail;

/// More allocations than any script makes.
const MOST_GROWTHS: usize = 1000;

/// Calls at a lane of capacity 1, until the finish is sent but not taken.
const BEFORE_THE_FINISH: [(Call, Reply); 11] = [
    (Call::Take, Reply::Nothing),
    (Call::Work, Reply::Stepped(Step::Idle)),
    (Call::Send(1), Reply::Accepted),
    (Call::Send(2), Reply::FullReturning(2)),
    (Call::Work, Reply::Stepped(Step::Graded)),
    (Call::Send(2), Reply::Accepted),
    (Call::Finish, Reply::Full),
    (Call::Work, Reply::Stepped(Step::Waiting)),
    (Call::Finish, Reply::Accepted),
    (Call::Finish, Reply::Finished),
    (Call::Send(3), Reply::FinishedReturning(3)),
];

/// The calls after `BEFORE_THE_FINISH`, until the finish is taken and one answer is left.
const TAKING_THE_FINISH: [(Call, Reply); 3] = [
    (Call::Take, Reply::Answered(1)),
    (Call::Work, Reply::Stepped(Step::Graded)),
    (Call::Work, Reply::Stepped(Step::Done)),
];

/// The calls after `TAKING_THE_FINISH`, which take the answer that is left.
const DRAINING: [(Call, Reply); 2] = [
    (Call::Work, Reply::Stepped(Step::Done)),
    (Call::Take, Reply::Answered(2)),
];

/// Calls at a batch lane of capacity 2, until the finish is sent but not taken.
const BATCH: [(Call, Reply); 9] = [
    (Call::Send(1), Reply::Accepted),
    (Call::Send(2), Reply::Accepted),
    (Call::Send(3), Reply::FullReturning(3)),
    (Call::Finish, Reply::Full),
    (Call::Work, Reply::Worked),
    (Call::Send(3), Reply::Accepted),
    (Call::Finish, Reply::Accepted),
    (Call::Finish, Reply::Finished),
    (Call::Send(4), Reply::FinishedReturning(4)),
];

/// The calls after `BATCH`, until the finish is taken and two answers are left.
const FINISHING_THE_BATCH: [(Call, Reply); 2] = [
    (Call::Take, Reply::Answered(1)),
    (Call::Work, Reply::Worked),
];

/// The calls after `FINISHING_THE_BATCH`, which take the two answers that are left.
const DRAINING_THE_BATCH: [(Call, Reply); 3] = [
    (Call::Take, Reply::Answered(2)),
    (Call::Take, Reply::Answered(3)),
    (Call::Take, Reply::Nothing),
];

/// The scripts for a lane of capacity 1.
const LANE_SCRIPTS: [&[(Call, Reply)]; 3] = [&BEFORE_THE_FINISH, &TAKING_THE_FINISH, &DRAINING];

/// The scripts for a batch lane of capacity 2.
const BATCH_SCRIPTS: [&[(Call, Reply)]; 3] = [&BATCH, &FINISHING_THE_BATCH, &DRAINING_THE_BATCH];

/// Asserts that `reply` is `wanted`, or is the answer `wanted` without its report, since an
/// allocation failed. Returns whether it is `wanted`.
fn is_told(rt: &impl Abort, reply: Reply, wanted: Reply) -> bool {
    if let (Reply::Refused(number), Reply::Answered(wanted)) = (reply, wanted) {
        assert_eq!(rt; number, wanted);
        return false;
    }
    assert_eq!(rt; reply, wanted);
    true
}

/// Makes the calls of a script and asserts their replies. Returns whether each answer has its
/// report.
fn follow<L: Called>(
    rt: &impl Abort,
    alloc: Global,
    lane: &mut L,
    jobs: &mut VecDeque<Job, Global>,
    script: &[(Call, Reply)],
) -> bool {
    let mut all = true;
    for (call, wanted) in script {
        if !is_told(rt, lane.call(alloc, *call, jobs), *wanted) {
            all = false;
        }
    }
    all
}

/// A lane, and what is done at it.
#[derive(Clone, Copy)]
enum Scene {
    /// The scripts `LANE_SCRIPTS` at a lane of capacity 1.
    Lane,
    /// The scripts `BATCH_SCRIPTS` at a batch lane of capacity 2.
    Batch,
    /// Three jobs, dealt at a batch lane of capacity 2.
    Deal,
}

/// Asserts that the lane cannot be settled yet, for the reason `wanted`, and returns the lane.
fn unended<L: Called>(rt: &impl Abort, lane: L, wanted: SettleFault) -> L {
    let (fault, lane) = lane.end().expect_err(rt, "ended");
    assert!(rt; fault == wanted, "{wanted:?}");
    lane
}

/// Makes the calls of three scripts, and settles the lane after the third. Asserts that it cannot
/// be settled after the first, since the finish is not taken, nor after the second, since answers
/// are left. Returns whether each answer has its report, or `None` if there is no lane.
fn follow_to_the_end<L: Called>(
    rt: &impl Abort,
    alloc: Global,
    lane: Option<L>,
    jobs: &mut VecDeque<Job, Global>,
    scripts: [&[(Call, Reply)]; 3],
) -> Option<bool> {
    let [begin, finish, drain] = scripts;
    let mut lane = lane?;
    let begun = follow(rt, alloc, &mut lane, jobs, begin);
    let mut lane = unended(rt, lane, SettleFault::Unfinished);
    let finished = follow(rt, alloc, &mut lane, jobs, finish);
    let mut lane = unended(rt, lane, SettleFault::NotDrained);
    let drained = follow(rt, alloc, &mut lane, jobs, drain);
    assert!(rt; lane.end().is_ok());
    Some(begun && finished && drained)
}

/// Asserts that these are the answers to the jobs from 1 on. Returns whether each has its report.
fn are_answers(rt: &impl Abort, answers: &[Answer]) -> bool {
    let mut all = true;
    for (answer, number) in answers.iter().zip(1..4u32) {
        if !is_told(rt, result_of(answer), Reply::Answered(number)) {
            all = false;
        }
    }
    all
}

/// Three jobs at a batch lane of capacity 2: the third is sent once the first two are graded.
const DEALING: [Turn; 6] = [
    Turn::Deal((true, 1, 0)),
    Turn::Call(Call::Work, Reply::Worked),
    Turn::Deal((true, 0, 2)),
    Turn::Call(Call::Work, Reply::Worked),
    Turn::Deal((true, 0, 3)),
    Turn::Deal((false, 0, 3)),
];

/// Deals three jobs at a lane of capacity 2 and settles it. Returns whether each answer has its
/// report, or `None` if there is no lane or the list of answers can't be allocated.
fn deal_three<L: Called>(
    rt: &(impl Abort + AllocGlobal),
    lane: Option<L>,
    waiting: &mut VecDeque<Job, Global>,
) -> Option<bool> {
    let mut lane = lane?;
    let mut got = Vec::with_capacity(rt.alloc(), 64).ok()?;
    take_turns(rt, &mut lane, waiting, &mut got, &DEALING);
    assert!(rt; lane.end().is_ok());
    Some(are_answers(rt, &got))
}

impl Scene {
    /// Returns the jobs that are sent or dealt.
    fn jobs(self, alloc: Global) -> Result<VecDeque<Job, Global>, Fail> {
        match self {
            Scene::Lane => jobs_for(alloc, &BEFORE_THE_FINISH),
            Scene::Batch => jobs_for(alloc, &BATCH),
            Scene::Deal => jobs(alloc, 1, 3),
        }
    }

    /// Plays the scene. Returns whether each answer has its report, or `None` if the allocation of
    /// a list or of the lane fails.
    fn follow(
        self,
        rt: &(impl Abort + AllocGlobal),
        jobs: &mut VecDeque<Job, Global>,
    ) -> Option<bool> {
        let alloc = rt.alloc();
        match self {
            Scene::Lane => follow_to_the_end(rt, alloc, Both::open(alloc, 1), jobs, LANE_SCRIPTS),
            Scene::Batch => follow_to_the_end(
                rt,
                alloc,
                Batch::open(alloc, 2),
                jobs,
                BATCH_SCRIPTS,
            ),
            Scene::Deal => deal_three(rt, Batch::open(alloc, 2), jobs),
        }
    }
}

/// Plays a scene with each allocation failing in turn, and then with none failing. Each call has to
/// return the expected result, except that, if an allocation fails, the lane may not be opened or
/// an answer may have no report.
fn follow_all(rt: &(impl Abort + AllocGlobal), scene: Scene) -> Result<(), Fail> {
    let alloc = rt.alloc();
    for growth in 1..MOST_GROWTHS {
        // Made before the tool is armed, so that these allocations are not counted.
        let mut jobs = scene.jobs(alloc)?;
        arm(alloc, growth);
        let all = scene.follow(rt, &mut jobs);
        let refused = disarm(alloc);
        assert!(rt; refused || all == Some(true), "growth {growth}");
        if !refused {
            return Ok(());
        }
    }
    assert!(rt; false, "growths without end");
    Ok(())
}

#[test]
fn lane_on_one_thread(rt: HostRuntime) -> Result<(), Fail> {
    follow_all(&rt, Scene::Lane)
}

#[test]
fn batch_lane(rt: HostRuntime) -> Result<(), Fail> {
    follow_all(&rt, Scene::Batch)
}

#[test]
fn dealing_a_batch(rt: HostRuntime) -> Result<(), Fail> {
    follow_all(&rt, Scene::Deal)
}
