//! Pseudorandom scripts of calls at a lane on one thread. The expected replies are those of a model
//! that only counts messages and answers.

ghost use Rattle.std.specs.Prelude.{◌≤◌};

use crate::tests_lanes::{Both, Call, Called, Reply, jobs_for};
use lane_core::*;
use std::alloc::Global;
use std::process::Abort;
use std::test::Fail;

/// The model of a lane. Jobs are numbered from 0 in the order in which they are accepted; `sent`
/// and `taken` count messages, with the finish, and `put` and `received` count answers.
#[derive(Clone, Copy, Debug)]
struct Counts {
    capacity: u32,
    sent: u32,
    taken: u32,
    put: u32,
    received: u32,
    held: bool,
    finish_sent: bool,
    finish_taken: bool,
}

impl Counts {
    /// Returns the model of a lane that was just opened.
    fn new(capacity: u32) -> Counts {
        Counts {
            capacity,
            sent: 0,
            taken: 0,
            put: 0,
            received: 0,
            held: false,
            finish_sent: false,
            finish_taken: false,
        }
    }

    /// Returns how many jobs were sent, which is the number of the next one.
    fn jobs(&self) -> u32 {
        if self.finish_sent {
            self.sent.wrapping_sub(1)
        } else {
            self.sent
        }
    }

    /// Reports whether the finish was taken and no answer is left in the lane.
    fn is_drained(&self) -> bool {
        self.finish_taken && !self.held && self.received == self.put
    }

    /// Reports whether the answer to each job was put and received.
    fn is_answered(&self) -> bool {
        self.received == self.jobs() && self.put == self.jobs()
    }

    /// Counts a call, and returns its reply.
    fn reply(&mut self, call: Call) -> Reply {
        match call {
            Call::Send(number) => self.send(number),
            Call::Finish => self.finish(),
            Call::Take => self.take(),
            Call::Work => Reply::Stepped(self.step()),
        }
    }

    /// Reports whether the ring of messages is full.
    fn messages_are_full(&self) -> bool {
        self.sent == self.taken.wrapping_add(self.capacity)
    }

    fn send(&mut self, number: u32) -> Reply {
        if self.finish_sent {
            return Reply::FinishedReturning(number);
        }
        if self.messages_are_full() {
            return Reply::FullReturning(number);
        }
        self.sent = self.sent.wrapping_add(1);
        Reply::Accepted
    }

    fn finish(&mut self) -> Reply {
        if self.finish_sent {
            return Reply::Finished;
        }
        if self.messages_are_full() {
            return Reply::Full;
        }
        self.sent = self.sent.wrapping_add(1);
        self.finish_sent = true;
        Reply::Accepted
    }

    fn take(&mut self) -> Reply {
        if self.received == self.put {
            return Reply::Nothing;
        }
        let number = self.received;
        self.received = self.received.wrapping_add(1);
        Reply::Answered(number)
    }

    fn step(&mut self) -> Step {
        if self.finish_taken {
            return Step::Done;
        }
        if self.held {
            return self.put_or_hold();
        }
        if self.taken == self.sent {
            return Step::Idle;
        }
        // No message follows the finish, so it is next once all jobs are taken.
        let last = self.taken == self.jobs();
        self.taken = self.taken.wrapping_add(1);
        if last {
            self.finish_taken = true;
            return Step::Done;
        }
        self.put_or_hold()
    }

    /// Counts an answer as put, or as held if the ring of answers is full.
    fn put_or_hold(&mut self) -> Step {
        self.held = self.put == self.received.wrapping_add(self.capacity);
        if self.held {
            return Step::Waiting;
        }
        self.put = self.put.wrapping_add(1);
        Step::Graded
    }
}

/// A lane and its model.
#[derive(Drop)]
struct Script<L> {
    lane: L,
    counts: Counts,
}

impl<L: Called> Script<L> {
    /// Makes a call at the lane and in the model, and asserts that the replies are the same.
    fn call(&mut self, rt: &impl Abort, alloc: Global, call: Call) -> Result<(), Fail> {
        let reply = self.counts.reply(call);
        let mut jobs = jobs_for(alloc, &[(call, reply)])?;
        assert_eq!(rt; self.lane.call(alloc, call, &mut jobs), reply);
        Ok(())
    }

    /// Sends the finish, takes steps of the worker, and takes answers until the lane is drained.
    fn drain(&mut self, rt: &impl Abort, alloc: Global) -> Result<(), Fail> {
        // More turns than any lane here needs; `end` fails if they did not drain it.
        for _ in 0..100 {
            if self.counts.is_drained() {
                return Ok(());
            }
            for call in [Call::Finish, Call::Work, Call::Take] {
                self.call(rt, alloc, call)?;
            }
        }
        Ok(())
    }

    /// Asserts that the lane is drained and all jobs are answered, and settles the lane.
    fn end(self, rt: &impl Abort) {
        assert!(rt; self.counts.is_drained());
        assert!(rt; self.counts.is_answered());
        assert!(rt; self.lane.end().is_ok());
    }

    /// Makes 40 pseudorandom calls, from the state `start` of the generator on. Returns its state
    /// after them.
    fn call_at_random(&mut self, rt: &impl Abort, alloc: Global, start: u64) -> Result<u64, Fail> {
        let mut state = start;
        for _ in 0..40 {
            state = advance(state);
            let number = self.counts.jobs();
            self.call(rt, alloc, call_of(state, number))?;
        }
        Ok(state)
    }
}

/// Returns the state that follows `state` in a linear congruential generator.
fn advance(state: u64) -> u64 {
    state
        .wrapping_mul(6_364_136_223_846_793_005)
        .wrapping_add(1_442_695_040_888_963_407)
}

/// Returns the call for a state of the generator. If it sends a job, that has the number `number`.
fn call_of(state: u64, number: u32) -> Call {
    match (state >> 33) % 4 {
        0 => Call::Send(number),
        1 => Call::Finish,
        2 => Call::Take,
        _ => Call::Work,
    }
}

/// Makes the calls of one script at a lane, from the state `start` of the generator on, drains the
/// lane and settles it. Returns the state after the script.
fn follow_script<L: Called>(
    rt: &impl Abort,
    alloc: Global,
    lane: Option<L>,
    capacity: u32,
    start: u64,
) -> Result<u64, Fail> {
    let lane = lane.ok_or("memory")?;
    let counts = Counts::new(capacity);
    let mut script = Script { lane, counts };
    let state = script.call_at_random(rt, alloc, start)?;
    script.drain(rt, alloc)?;
    script.end(rt);
    Ok(state)
}

/// Makes the calls of 1,000 scripts, each at a lane of its own of this capacity.
fn follow_scripts(rt: &impl Abort, alloc: Global, capacity: u32) -> Result<(), Fail>
    requires least { 1 ≤ capacity }
    requires most { capacity ≤ MAX_RING }
{
    let mut state = 1;
    for _ in 0..1000 {
        let lane = Both::open(alloc, capacity as usize);
        state = follow_script(rt, alloc, lane, capacity, state)?;
    }
    Ok(())
}

#[test]
fn scripts_at_three_capacities(rt: HostRuntime) -> Result<(), Fail> {
    follow_scripts(&rt, rt.alloc(), 1)?;
    follow_scripts(&rt, rt.alloc(), 2)?;
    follow_scripts(&rt, rt.alloc(), 64)
}
