//! Tests of the limits of `lane_core`, with their numbers written out.

use crate::tests_lanes::{Batch, Both, Call, Called, Reply, Turn, deal_jobs, jobs, puzzle_with};
use lane_core::*;
use solve_core::Pick;
use std::process::Abort;
use std::test::Fail;

/// Asserts that a lane accepts `count` jobs, and then returns `reply` to `call`.
fn assert_holds<L: Called>(
    rt: &(impl Abort + AllocGlobal),
    lane: Option<L>,
    count: u32,
    call: Call,
    reply: Reply,
) -> Result<(), Fail> {
    let mut lane = lane.ok_or("memory")?;
    let mut waiting = jobs(rt.alloc(), 0, count.wrapping_add(1))?;
    for number in 0..count {
        let sent = lane.call(rt.alloc(), Call::Send(number), &mut waiting);
        assert!(rt; sent == Reply::Accepted, "job {number}");
    }
    assert!(rt; lane.call(rt.alloc(), call, &mut waiting) == reply);
    Ok(())
}

/// 65 answers at a batch lane: a deal takes 64 of them, and the next one the last.
const TAKING_65: [Turn; 4] = [
    Turn::Deal((true, 0, 0)),
    Turn::Call(Call::Work, Reply::Worked),
    Turn::Deal((true, 0, 64)),
    Turn::Deal((true, 0, 65)),
];

#[test]
fn one_turn_takes_64_answers(rt: HostRuntime) -> Result<(), Fail> {
    let lane = Batch::open(rt.alloc(), 66);
    deal_jobs(&rt, lane, 0, 65, 65, &TAKING_65)?;
    Ok(())
}

#[test]
fn the_largest_ring_holds_64_messages(rt: HostRuntime) -> Result<(), Fail> {
    let lane = Both::open(rt.alloc(), 64);
    assert_holds(&rt, lane, 64, Call::Send(64), Reply::FullReturning(64))
}

#[test]
fn the_largest_batch_holds_10001_messages(rt: HostRuntime) -> Result<(), Fail> {
    let lane = Batch::open(rt.alloc(), 10_001);
    assert_holds(&rt, lane, 10_001, Call::Finish, Reply::Full)
}

#[test]
fn large_jobs_with_the_most_guesses(rt: HostRuntime) -> Result<(), Fail> {
    for side in [1, 100, 256] {
        let puzzle = puzzle_with(rt.alloc(), side, side, &[], &[])?;
        let answer = grade(rt.alloc(), Job::new(1, puzzle, 1_000_000, Pick::Most));
        assert!(rt;
            answer.guesses() == 1_000_000 && answer.pick() == Pick::Most,
            "{side}"
        );
        assert!(rt; answer.outcome().is_ok(), "{side}");
    }
    Ok(())
}
