//! Tests of surveys that are read and printed in chunks, each in a thread of its own. No contract
//! says that such a survey succeeds, with the bytes that one thread prints, nor that it is flushed
//! once.

use crate::tests::{one_thread_survey, repeated, surveyed_entries};
use crate::tests_samples::{TEN, settings};
use crate::tests_streams::{FailingWriter, failing_writer};
use lane_core::OpenGate;
use puzzle_text::entries;
use std::sync::Wait;
use std::test::Fail;
use std::thread::Threads;
use survey_core::{MAX_LANES, RunFault, survey_entries};

#[test]
fn surveys_in_parts_are_alike(rt: HostRuntime) -> Result<(), Fail> {
    for count in [6usize, 7, 33] {
        let collection = repeated(rt.alloc(), TEN.as_bytes(), count)?;
        for show in [false, true] {
            let wanted = one_thread_survey(rt.alloc(), &collection, show)?;
            for lanes in 1..=MAX_LANES {
                let settings = settings(lanes, 8, show);
                let survey = surveyed_entries(&rt, &collection, &settings, &OpenGate)?;
                assert!(rt; survey == wanted, "{count} times, {lanes} lanes");
            }
        }
    }
    Ok(())
}

/// The result of a survey, and how often it flushed its output.
type Ending = (Result<(), RunFault>, u32);

/// Returns how a survey of `length` bytes ends if its output takes `limit` bytes.
fn ending_within(limit: usize, length: usize) -> Ending {
    if limit < length {
        (Err(RunFault::Write(limit as u64)), 0)
    } else {
        (Ok(()), 1)
    }
}

/// Surveys a collection's entries into an output that takes `limit` bytes. Returns how the survey
/// ends, and whether the bytes that are written are the first `limit` ones of `wanted`, or all of
/// them.
fn surveyed_within(
    rt: &(impl Threads + Wait + Sync + AllocGlobal),
    collection: &[u8],
    limit: usize,
    wanted: &[u8],
) -> Result<(Ending, bool), Fail> {
    let found = entries(rt.alloc(), collection)?;
    let mut output = failing_writer(rt.alloc(), 1000, limit, false);
    let settings = settings(4, 8, true);
    let outcome = survey_entries(rt, rt.alloc(), &found, &mut output, &settings, &OpenGate);
    let FailingWriter { taken, flushes, .. } = output.inner;
    let is_sent = taken.as_slice() == &wanted[..limit.min(wanted.len())];
    Ok(((outcome, flushes), is_sent))
}

#[test]
fn writers_fail_in_each_part(rt: HostRuntime) -> Result<(), Fail> {
    let collection = repeated(rt.alloc(), TEN.as_bytes(), 33)?;
    let wanted = one_thread_survey(rt.alloc(), &collection, true)?;
    for limit in (0..wanted.len() + 500).step_by(499) {
        let (ending, is_sent) = surveyed_within(&rt, &collection, limit, &wanted)?;
        assert!(rt; is_sent, "{limit} bytes");
        assert!(rt;
            ending == ending_within(limit, wanted.len()),
            "{limit} bytes"
        );
    }
    Ok(())
}
