//! Tests of lanes whose ends park and wake each other. No contract says that no wake is lost, nor
//! that a lane goes on while others are parked or held, nor that none is settled too early.

ghost use Rattle.std.specs.Prelude.{◌≤◌};

use crate::tests::{one_thread_survey, surveyed_entries};
use crate::tests_collect::assert_answered;
use crate::tests_samples::settings;
use lane_core::{Gate, OpenGate};
use std::alloc::Global;
use std::process::Abort;
use std::sync::Wait;
use std::sync::atomic::{AtomicU32, Ordering};
use std::test::Fail;
use std::thread::Threads;
use survey_core::{MAX_LANES, MAX_RING};

/// Entries with tiny puzzles, whose answers differ.
const TINY: [&[u8]; 3] = [
    b"@ one.mk\n1 1\n0\n#\n0\n",
    b"@ clash.mk\n1 1\n1\n#\n0\n",
    b"@ two.mk\n2 2\n1\n1\n#\n1\n1\n",
];

/// Returns a collection of `count` entries, which are those of `TINY` in turn.
fn tiny_collection(alloc: Global, count: u32) -> Result<Vec<u8>, Fail> {
    let mut text = Vec::new(alloc);
    for number in 0..count {
        text.extend_from_slice(TINY[number as usize % 3])?;
    }
    Ok(text)
}

/// Asserts that the survey of a collection's entries over `lanes` lanes is `wanted`, with rings of
/// the capacities 1, 2 and 8, twice each.
fn assert_surveys(
    rt: &(impl Threads + Wait + Sync + Abort + AllocGlobal),
    collection: &[u8],
    lanes: u16,
    wanted: &[u8],
) -> Result<(), Fail> {
    for ring in [1u16, 2, 8, 8, 2, 1] {
        let survey = surveyed_entries(rt, collection, &settings(lanes, ring, false), &OpenGate)?;
        let is_alike = survey.as_slice() == wanted;
        assert!(rt; is_alike, "{lanes} lanes, rings of {ring}");
    }
    Ok(())
}

#[test]
fn surveys_of_tiny_puzzles_end_alike(rt: HostRuntime) -> Result<(), Fail> {
    for count in 0..21u32 {
        let collection = tiny_collection(rt.alloc(), count)?;
        let wanted = one_thread_survey(rt.alloc(), &collection, false)?;
        for lanes in 1..=MAX_LANES {
            assert_surveys(&rt, &collection, lanes, &wanted)?;
        }
    }
    Ok(())
}

/// How often job 0 looks for others at the gate. Bounded, so that a test fails and does not hang.
const MOST_TURNS: u32 = 100_000_000;

/// A gate for four lanes, at which the first job of the lane `held` waits until `wanted` jobs of the
/// other three lanes have entered.
#[derive(Drop)]
struct HoldsLane {
    held: u32,
    wanted: u32,
    others: AtomicU32,
    saw_all: AtomicU32,
}

impl Gate for HoldsLane {
    fn enter(&self, number: u32) {
        if number % 4 != self.held {
            self.others.fetch_add(1, Ordering::SeqCst);
            return;
        }
        if number != self.held {
            return;
        }
        for _ in 0..MOST_TURNS {
            if self.others.load(Ordering::SeqCst) == self.wanted {
                self.saw_all.fetch_add(1, Ordering::SeqCst);
                return;
            }
        }
    }
}

/// Asserts that 200 jobs over four lanes are answered, and that the jobs of three lanes are graded
/// while the first job of the lane `held` waits.
fn assert_others_go_on(
    rt: &(impl Threads + Wait + Sync + Abort + AllocGlobal),
    held: u32,
    ring: u16,
) -> Result<(), Fail>
    requires ring { (1 ≤ ring) × (ring ≤ MAX_RING) }
{
    let gate = HoldsLane {
        held,
        wanted: 150,
        others: AtomicU32::new(0),
        saw_all: AtomicU32::new(0),
    };
    assert_answered(rt, 200, 4, ring, &gate)?;
    assert!(rt;
        gate.saw_all.load(Ordering::SeqCst) == 1,
        "lane {held}, rings of {ring}"
    );
    Ok(())
}

#[test]
fn lanes_go_on_while_one_is_held(rt: HostRuntime) -> Result<(), Fail> {
    for ring in [1u16, 2, 8] {
        assert_others_go_on(&rt, 0, ring)?;
    }
    Ok(())
}

/// Each lane in turn is the last that becomes complete. A lane that was settled before would be
/// waited for for ever, and the test would be ended by its limit of time.
#[test]
fn lanes_are_settled_once_complete(rt: HostRuntime) -> Result<(), Fail> {
    for held in 0..4u32 {
        assert_others_go_on(&rt, held, 1)?;
    }
    Ok(())
}
