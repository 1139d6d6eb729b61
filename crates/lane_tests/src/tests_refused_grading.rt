//! Tests of the calls of `lane_core` with failing allocations: each allocation of a call fails in
//! turn, and calls that allocate nothing are made with every allocation failing.

use crate::tests_lanes::{
    Batch, Call, Called, Reply, Turn, job, jobs, puzzle_with, result_of, take_turns,
};
use alloc_failures::{CallResult, arm, disarm, expected_if, is_active, sweep};
use grid_core::NoMemory;
use lane_core::*;
use solve_core::Pick;
use std::alloc::Global;
use std::collections::VecDeque;
use std::process::Abort;
use std::test::Fail;

/// Classifies the result of opening a batch lane. The lane has to have no answer, and to accept the
/// finish.
fn result_of_lane<L: Lane + Drop>(answer: Result<L, NoMemory>) -> CallResult {
    match answer {
        Ok(mut lane) => expected_if(lane.take().is_none() && lane.finish().is_ok()),
        Err(NoMemory) => CallResult::NoMemory,
    }
}

/// Classifies the result of `open_lane`. The front has to have sent no finish, and to have no
/// answer.
fn result_of_ends(answer: Result<(LaneFront, LaneBack), NoMemory>) -> CallResult {
    match answer {
        Ok((mut front, _)) => expected_if(!front.has_sent_finish() && front.take().is_none()),
        Err(NoMemory) => CallResult::NoMemory,
    }
}

#[test]
fn lanes_are_opened_or_refused(rt: HostRuntime) -> Result<(), Fail> {
    let alloc = rt.alloc();
    sweep(alloc, || result_of_lane(BatchLane::new(alloc, 3)))?;
    sweep(alloc, || result_of_ends(open_lane(alloc, 3)))?;
    Ok(())
}

/// Classifies the answer to job 7.
fn result_of_answer(answer: &Answer) -> CallResult {
    match answer.outcome() {
        Ok(_) => expected_if(answer.number() == 7 && answer.guesses() == 1000),
        Err(NoMemory) => CallResult::NoMemory,
    }
}

#[test]
fn jobs_are_graded_or_refused(rt: HostRuntime) -> Result<(), Fail> {
    let alloc = rt.alloc();
    let puzzle = puzzle_with(alloc, 8, 1, &[8], &[1])?;
    sweep(alloc, || match puzzle.copy(alloc) {
        Ok(puzzle) => result_of_answer(&grade(alloc, Job::new(7, puzzle, 1000, Pick::First))),
        Err(NoMemory) => CallResult::NoMemory,
    })?;
    Ok(())
}

/// Tests that a lane's worker keeps the buffers of its reporter: for its second job it allocates no
/// more than the two grids for solutions, which the first one's answer has.
#[test]
fn buffers_are_kept_for_the_next_job(rt: HostRuntime) -> Result<(), Fail> {
    let alloc = rt.alloc();
    let mut lane = BatchLane::new(alloc, 2)?;
    assert!(rt; lane.send(job(alloc, 8)?).is_ok());
    lane.work(alloc, &OpenGate);
    assert!(rt; lane.send(job(alloc, 7)?).is_ok());
    arm(alloc, 3);
    lane.work(alloc, &OpenGate);
    assert!(rt; !disarm(alloc), "a third allocation");
    for number in [8u32, 7] {
        let answer = lane.take().ok_or("no answer")?;
        assert!(rt; result_of(&answer) == Reply::Answered(number));
    }
    assert!(rt; is_active(alloc));
    Ok(())
}

/// Takes turns at a lane with every allocation failing, and asserts that none was requested.
fn take_turns_in_place<L: Called>(
    rt: &(impl Abort + AllocGlobal),
    lane: &mut L,
    waiting: &mut VecDeque<Job, Global>,
    got: &mut Vec<Answer>,
    turns: &[Turn],
) {
    arm(rt.alloc(), 0);
    take_turns(rt, lane, waiting, got, turns);
    assert!(rt; !disarm(rt.alloc()), "no growth");
}

/// Two jobs are sent, the second one by a deal, which sends the finish too.
const SENDING: [Turn; 2] = [
    Turn::Call(Call::Send(1), Reply::Accepted),
    Turn::Deal((true, 0, 0)),
];

/// Two answers are taken: one by a deal, for which `got` has the capacity, and one by a call.
const TAKING: [Turn; 2] = [
    Turn::Deal((true, 0, 1)),
    Turn::Call(Call::Take, Reply::Answered(2)),
];

/// Asserts that the calls of a lane allocate nothing, apart from grading.
fn assert_no_growth<L: Called>(
    rt: &(impl Abort + AllocGlobal),
    lane: Option<L>,
) -> Result<(), Fail> {
    let mut lane = lane.ok_or("memory")?;
    let mut waiting = jobs(rt.alloc(), 1, 2)?;
    let mut got = Vec::with_capacity(rt.alloc(), 1)?;
    take_turns_in_place(rt, &mut lane, &mut waiting, &mut got, &SENDING);
    lane.call(rt.alloc(), Call::Work, &mut waiting);
    take_turns_in_place(rt, &mut lane, &mut waiting, &mut got, &TAKING);
    arm(rt.alloc(), 0);
    let ended = lane.end().is_ok();
    assert!(rt; !disarm(rt.alloc()), "no growth");
    assert!(rt; ended);
    Ok(())
}

#[test]
fn lanes_take_no_memory(rt: HostRuntime) -> Result<(), Fail> {
    assert_no_growth(&rt, Batch::open(rt.alloc(), 3))?;
    assert!(rt; is_active(rt.alloc()));
    Ok(())
}
