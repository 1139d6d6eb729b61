//! Tests of what no contract of `collect` says: that lanes work at the same time, that jobs are
//! dealt in turn, and that threads can be started.

ghost use Rattle.std.specs.Prelude.{◌≤◌};

use lane_core::{Gate, Job, OpenGate};
use puzzle_text::read_nin;
use solve_core::Pick;
use std::alloc::Global;
use std::process::Abort;
use std::sync::Wait;
use std::sync::atomic::{AtomicU32, Ordering};
use std::test::Fail;
use std::thread::Threads;
use survey_core::{MAX_JOBS, MAX_LANES, MAX_RING, collect};

/// How often a job at a gate looks for others. Bounded, so that a test fails and does not hang.
const MOST_TURNS: u32 = 100_000_000;

/// Returns `count` jobs with the numbers from 0 on, each with a puzzle of one cell.
pub fn jobs_numbered(alloc: Global, count: u32) -> Result<Vec<Job>, Fail> {
    let mut jobs = Vec::new(alloc);
    for number in 0..count {
        let puzzle = read_nin(alloc, b"1 1\n1\n1\n")?;
        jobs.push(Job::new(number, puzzle, 1000, Pick::First))?;
    }
    Ok(jobs)
}

/// Asserts that `collect` returns the answers to `count` jobs in job order, over `lanes` lanes with
/// rings of the capacity `ring`.
pub(crate) fn assert_answered<R: Threads + Wait + Sync + Abort + AllocGlobal, G: Gate + Sync>(
    rt: &R,
    count: u32,
    lanes: u16,
    ring: u16,
    gate: &G,
) -> Result<(), Fail>
    requires lanes { (1 ≤ lanes) × (lanes ≤ MAX_LANES) }
    requires ring { (1 ≤ ring) × (ring ≤ MAX_RING) }
{
    let jobs = jobs_numbered(rt.alloc(), count)?;
    assert!(rt; jobs.len() <= MAX_JOBS);
    let answers = collect(rt, rt.alloc(), jobs, lanes, ring, gate)?;
    let numbers = answers.iter().map(|answer| answer.number());
    assert!(rt; numbers.eq(0..count), "{count} jobs, {lanes} lanes");
    Ok(())
}

/// A gate at which each job waits until `wanted` jobs have entered.
#[derive(Drop)]
struct Meeting {
    wanted: u32,
    entered: AtomicU32,
    saw_all: AtomicU32,
}

impl Gate for Meeting {
    fn enter(&self, _number: u32) {
        self.entered.fetch_add(1, Ordering::SeqCst);
        for _ in 0..MOST_TURNS {
            if self.entered.load(Ordering::SeqCst) == self.wanted {
                self.saw_all.fetch_add(1, Ordering::SeqCst);
                return;
            }
        }
    }
}

#[test]
fn each_lane_has_a_thread(rt: HostRuntime) -> Result<(), Fail> {
    for lanes in [2u16, MAX_LANES] {
        let wanted = u32::from(lanes);
        let gate = Meeting {
            wanted,
            entered: AtomicU32::new(0),
            saw_all: AtomicU32::new(0),
        };
        assert_answered(&rt, wanted, lanes, 1, &gate)?;
        let saw_all = gate.saw_all.load(Ordering::SeqCst);
        assert!(rt; saw_all == wanted, "{lanes} lanes");
    }
    Ok(())
}

/// The initial value of `FirstWaits.seen`, which is more than the number of jobs.
const NOTHING_SEEN: u32 = 100;

/// A gate at which job 0 waits until three jobs with odd numbers have entered, and then records how
/// many other jobs with even numbers have.
#[derive(Drop)]
struct FirstWaits {
    odd: AtomicU32,
    even: AtomicU32,
    seen: AtomicU32,
}

impl Gate for FirstWaits {
    fn enter(&self, number: u32) {
        if number % 2 == 1 {
            self.odd.fetch_add(1, Ordering::SeqCst);
            return;
        }
        if number > 0 {
            self.even.fetch_add(1, Ordering::SeqCst);
            return;
        }
        for _ in 0..MOST_TURNS {
            if self.odd.load(Ordering::SeqCst) == 3 {
                self.seen
                    .store(self.even.load(Ordering::SeqCst), Ordering::SeqCst);
                return;
            }
        }
    }
}

#[test]
fn jobs_are_dealt_in_turn(rt: HostRuntime) -> Result<(), Fail> {
    // One lane gets the jobs 0, 2 and 4, so none of these enters while job 0 waits.
    let gate = FirstWaits {
        odd: AtomicU32::new(0),
        even: AtomicU32::new(0),
        seen: AtomicU32::new(NOTHING_SEEN),
    };
    assert_answered(&rt, 6, 2, 1, &gate)?;
    assert!(rt; gate.seen.load(Ordering::SeqCst) == 0);
    Ok(())
}

#[test]
fn answers_stand_in_job_order(rt: HostRuntime) -> Result<(), Fail> {
    for (count, lanes, ring) in [
        (0u32, 16u16, 1u16),
        (1, 16, 64),
        (40, 1, 1),
        (40, 3, 8),
        (300, 16, 1),
    ] {
        assert_answered(&rt, count, lanes, ring, &OpenGate)?;
    }
    Ok(())
}
