//! Tests of calls of `survey_core` of which each allocation, and each start of a thread, fails in
//! turn.

use crate::tests::{one_thread_survey, repeated};
use crate::tests_answers::{assert_answers, eight_jobs};
use crate::tests_forms::{NumberedForm, THREE, THREE_NUMBERED};
use crate::tests_progress::{Errors, Taken, enter};
use crate::tests_samples::{TEN, TEN_SURVEY, settings};
use alloc_failures::{CallResult, arm, disarm, expected_if, sweep};
use lane_core::{Gate, OpenGate};
use std::io::ErrorKind;
use std::sync::Wait;
use std::sync::atomic::{AtomicU32, Ordering};
use std::test::Fail;
use std::thread::Threads;
use survey_core::{Counted, MAX_JOBS, ProgressGate, RunFault, collect, run_survey, run_survey_as};

/// More allocations and starts of threads than any call here makes.
const MOST_GROWTHS: usize = 3000;

/// A gate that counts the jobs that enter.
#[derive(Drop)]
struct Entries {
    count: AtomicU32,
}

impl Gate for Entries {
    fn enter(&self, _number: u32) {
        self.count.fetch_add(1, Ordering::SeqCst);
    }
}

#[test]
fn answers_are_collected_or_refused(rt: HostRuntime) -> Result<(), Fail> {
    let alloc = rt.alloc();
    for growth in 1..MOST_GROWTHS {
        let jobs = eight_jobs(alloc)?;
        assert!(rt; jobs.len() <= MAX_JOBS);
        let gate = Entries {
            count: AtomicU32::new(0),
        };
        arm(alloc, growth);
        let answers = collect(&rt, alloc, jobs, 3, 1, &gate);
        let refused = disarm(alloc);
        match &answers {
            Ok(answers) => assert_answers(&rt, answers, refused),
            Err(_) => assert!(rt; refused, "growth {growth}"),
        }
        let entered = gate.count.load(Ordering::SeqCst);
        // `collect` fails before the first job is sent, or not at all.
        let wanted = if answers.is_ok() { 8 } else { 0 };
        assert!(rt; entered == wanted, "growth {growth}");
        if !refused {
            return Ok(());
        }
    }
    assert!(rt; false, "growths without end");
    Ok(())
}

/// Surveys a collection into `text`, whose capacity has to suffice, and classifies the result. A
/// survey that fails has to leave `text` empty.
fn result_of_survey<R: Threads + Wait + Sync + AllocGlobal>(
    rt: &R,
    collection: &[u8],
    lanes: u16,
    text: Vec<u8>,
    wanted: &[u8],
) -> CallResult {
    let mut reader = Counted::new(collection);
    let mut output = Counted::new(text);
    let settings = settings(lanes, 1, false);
    match run_survey(
        rt,
        rt.alloc(),
        &mut reader,
        &mut output,
        &settings,
        &OpenGate,
    ) {
        Ok(()) => expected_if(output.inner.as_slice() == wanted),
        Err(RunFault::NoMemory | RunFault::Thread) if output.inner.is_empty() =>
            CallResult::NoMemory,
        Err(_) => CallResult::Other,
    }
}

#[test]
fn surveys_are_written_or_refused(rt: HostRuntime) -> Result<(), Fail> {
    let alloc = rt.alloc();
    sweep(alloc, || match Vec::with_capacity(alloc, 1000) {
        Ok(text) => result_of_survey(&rt, TEN.as_bytes(), 3, text, TEN_SURVEY.as_bytes()),
        Err(_) => CallResult::NoMemory,
    })?;
    Ok(())
}

/// Tests a survey in three chunks, most of whose entries are refused.
#[test]
fn surveys_in_parts_are_written_or_refused(rt: HostRuntime) -> Result<(), Fail> {
    let alloc = rt.alloc();
    let mut collection = repeated(alloc, b"@ what.txt\n", 90)?;
    collection.extend_from_slice(TEN.as_bytes())?;
    let wanted = one_thread_survey(alloc, &collection, false)?;
    sweep(alloc, || match Vec::with_capacity(alloc, 5000) {
        Ok(text) => result_of_survey(&rt, &collection, 3, text, &wanted),
        Err(_) => CallResult::NoMemory,
    })?;
    Ok(())
}

/// Surveys `THREE` in the form of `NumberedForm` into `text`, whose capacity has to suffice, and
/// classifies the result. A survey that fails has to leave `text` empty.
fn result_of_form<R: Threads + Wait + Sync + AllocGlobal>(rt: &R, text: Vec<u8>) -> CallResult {
    let mut reader = Counted::new(THREE.as_bytes());
    let mut output = Counted::new(text);
    let settings = settings(3, 1, false);
    let form = NumberedForm { mark: b"[" };
    match run_survey_as(
        rt,
        rt.alloc(),
        &mut reader,
        &mut output,
        &settings,
        &form,
        &OpenGate,
    ) {
        Ok(()) => expected_if(output.inner.as_slice() == THREE_NUMBERED.as_bytes()),
        Err(RunFault::NoMemory | RunFault::Thread) if output.inner.is_empty() =>
            CallResult::NoMemory,
        Err(_) => CallResult::Other,
    }
}

#[test]
fn forms_are_written_or_refused(rt: HostRuntime) -> Result<(), Fail> {
    let alloc = rt.alloc();
    sweep(alloc, || match Vec::with_capacity(alloc, 1000) {
        Ok(text) => result_of_form(&rt, text),
        Err(_) => CallResult::NoMemory,
    })?;
    Ok(())
}

/// Tests the progress of the most jobs, of the most files: its last line is printed, or nothing is
/// if the allocation of the line or the start of the thread failed.
#[test]
fn progress_is_told_or_refused(rt: HostRuntime) -> Result<(), Fail> {
    let alloc = rt.alloc();
    for growth in 1..MOST_GROWTHS {
        let taken = Taken::new(alloc)?;
        let errors = Errors::new(&rt, &taken, ErrorKind::Other)?;
        arm(alloc, growth);
        if let Ok(gate) = ProgressGate::new(rt, alloc, errors, Some(u32::MAX)) {
            enter(&gate, MAX_JOBS as u32);
            gate.close(MAX_JOBS);
        }
        if !disarm(alloc) {
            assert!(rt; taken.is(&rt, b"\r10000 of 10000 files graded, 0 refused\n"));
            return Ok(());
        }
        assert!(rt; taken.is(&rt, b""), "growth {growth}");
    }
    assert!(rt; false, "growths without end");
    Ok(())
}
