//! Tests of the bytes that surveys print, of surveys that grade puzzles at the same time, and of
//! the sentences of faults.

use crate::tests_samples::{NOTHING, TEN, TEN_SHOWN, TEN_SURVEY, settings};
use lane_core::{Gate, Job, OpenGate, grade};
use puzzle_text::{
    CollectionFault, Entry, EntryFault, MAX_ENTRIES, TextFault, entries, read_entry,
};
use reports::ConvertFault;
use solve_core::Pick;
use std::alloc::Global;
use std::fmt::Display;
use std::process::Abort;
use std::sync::Wait;
use std::sync::atomic::{AtomicU32, Ordering};
use std::test::Fail;
use std::thread::Threads;
use survey_core::*;

/// Surveys a collection. Returns the result and the bytes that are written.
pub(crate) fn surveyed<R: Threads + Wait + Sync + AllocGlobal, G: Gate + Sync>(
    rt: &R,
    collection: &[u8],
    settings: &Settings,
    gate: &G,
) -> (Result<(), RunFault>, Vec<u8>) {
    let mut reader = Counted::new(collection);
    let mut output = Counted::new(Vec::new(rt.alloc()));
    let outcome = run_survey(rt, rt.alloc(), &mut reader, &mut output, settings, gate);
    (outcome, output.inner)
}

/// Surveys the entries of a collection. Returns the bytes that are written.
pub(crate) fn surveyed_entries<R: Threads + Wait + Sync + AllocGlobal, G: Gate + Sync>(
    rt: &R,
    collection: &[u8],
    settings: &Settings,
    gate: &G,
) -> Result<Vec<u8>, Fail> {
    let found = entries(rt.alloc(), collection)?;
    let mut output = Counted::new(Vec::new(rt.alloc()));
    survey_entries(rt, rt.alloc(), &found, &mut output, settings, gate)?;
    Ok(output.inner)
}

/// Asserts that the survey of a collection returns `wanted` and writes `text`.
pub(crate) fn assert_survey(
    rt: &(impl Threads + Wait + Sync + Abort + AllocGlobal),
    collection: &[u8],
    settings: &Settings,
    wanted: Result<(), RunFault>,
    text: &str,
) {
    let (outcome, printed) = surveyed(rt, collection, settings, &OpenGate);
    assert!(rt; outcome == wanted);
    assert!(rt; printed.as_slice() == text.as_bytes());
}

#[test]
fn surveys_ten_entries(rt: HostRuntime) {
    for (lanes, ring, show, text) in [
        (1u16, 1u16, false, TEN_SURVEY),
        (1, 8, true, TEN_SHOWN),
        (3, 1, true, TEN_SHOWN),
        (3, 8, false, TEN_SURVEY),
        (16, 1, false, TEN_SURVEY),
        (16, 8, true, TEN_SHOWN),
    ] {
        let settings = settings(lanes, ring, show);
        assert_survey(&rt, TEN.as_bytes(), &settings, Ok(()), text);
    }
}

/// Returns `line` repeated `count` times.
pub(crate) fn repeated(alloc: Global, line: &[u8], count: usize) -> Result<Vec<u8>, Fail> {
    let mut text = Vec::new(alloc);
    for _ in 0..count {
        text.extend_from_slice(line)?;
    }
    Ok(text)
}

/// The end of a survey of 10,000 entries, each of which is refused.
const MOST_REFUSED: &[u8] = b"10000 refused NoSize a.mk\n\
    entries 10000 refused 10000 none 0 one 0 several 0 unsettled 0 line 0 trials 0 search 0\n";

#[test]
fn largest_collections_pass(rt: HostRuntime) -> Result<(), Fail> {
    let settings = Settings {
        lanes: 16,
        ring: 64,
        guesses: 1_000_000,
        pick: Pick::First,
        show: false,
    };
    assert_survey(&rt, TEN.as_bytes(), &settings, Ok(()), TEN_SURVEY);
    let long = vec![in rt.alloc(); b'\n'; 16_777_216]?;
    assert_survey(&rt, &long, &settings, Ok(()), NOTHING);
    let most = repeated(rt.alloc(), b"@ a.mk\n", 10_000)?;
    let (outcome, printed) = surveyed(&rt, &most, &settings, &OpenGate);
    assert!(rt; outcome.is_ok());
    assert!(rt; printed.ends_with(MOST_REFUSED));
    Ok(())
}

/// Returns the outcome of an entry, graded with at most two guesses.
fn outcome_of(alloc: Global, number: u32, entry: &Entry<'_>) -> Result<Outcome, Fail> {
    let name = Vec::from_slice(alloc, entry.name)?;
    let result = match read_entry(alloc, entry) {
        Ok(puzzle) => Ok(grade(alloc, Job::new(number, puzzle, 2, Pick::First))),
        Err(fault) => Err(fault),
    };
    Ok(Outcome { name, result })
}

/// Returns the outcome of each entry of a collection, graded with at most two guesses.
fn outcomes_of(alloc: Global, collection: &[u8]) -> Result<Vec<Outcome>, Fail> {
    let mut outcomes = Vec::new(alloc);
    for (entry, number) in entries(alloc, collection)?.iter().zip(1u32..) {
        outcomes.push(outcome_of(alloc, number, entry)?)?;
    }
    Ok(outcomes)
}

/// Returns the survey of a collection, graded on one thread with at most two guesses.
pub(crate) fn one_thread_survey(
    alloc: Global,
    collection: &[u8],
    show: bool,
) -> Result<Vec<u8>, Fail> {
    let outcomes = outcomes_of(alloc, collection)?;
    if outcomes.len() > MAX_ENTRIES {
        return Err("too many".into());
    }
    Ok(print_survey(alloc, &outcomes, show)?)
}

/// The text of the sixth entry of `TEN`, graded with at most two guesses, with its solutions.
const SIXTH_SHOWN: &[u8] = b"6 2x2 several search 0 0 2 absent two.mk\n#.\n.#\n\n.#\n#.\n\n";

/// Returns what `print_entry` returns for the sixth entry of `TEN`, with its solutions.
fn sixth_shown(alloc: Global) -> Result<Vec<u8>, Fail> {
    let outcomes = outcomes_of(alloc, TEN.as_bytes())?;
    Ok(print_entry(alloc, 6, outcomes.get(5).ok_or("entry")?, true)?)
}

#[test]
fn prints_ten_entries(rt: HostRuntime) -> Result<(), Fail> {
    for (show, text) in [(false, TEN_SURVEY), (true, TEN_SHOWN)] {
        let survey = one_thread_survey(rt.alloc(), TEN.as_bytes(), show)?;
        assert!(rt; survey.as_slice() == text.as_bytes());
    }
    assert!(rt; sixth_shown(rt.alloc())?.as_slice() == SIXTH_SHOWN);
    Ok(())
}

/// The text of a refused entry, number 3, whose name has three control characters.
const REFUSED_ENTRY: &[u8] = b"3 refused BadNumber:2 bad??? .mk\n";

/// The survey of one refused entry whose name has three control characters.
const REFUSED_SURVEY: &[u8] = b"1 refused BadNumber:2 bad??? .mk\n\
    entries 1 refused 1 none 0 one 0 several 0 unsettled 0 line 0 trials 0 search 0\n";

#[test]
fn prints_refused_entries(rt: HostRuntime) -> Result<(), Fail> {
    let refused = Outcome {
        name: Vec::from_slice(rt.alloc(), b"bad\t\x7f\x1f .mk")?,
        result: Err(EntryFault::Text(TextFault::BadNumber(2))),
    };
    let line = print_entry(rt.alloc(), 3, &refused, true)?;
    assert!(rt; line.as_slice() == REFUSED_ENTRY);
    let text = print_survey(rt.alloc(), &[refused], false)?;
    assert!(rt; text.as_slice() == REFUSED_SURVEY);
    Ok(())
}

/// A gate at which each of two jobs, with the numbers 1 and 2, waits until both have entered.
#[derive(Drop)]
struct Pair {
    entered: AtomicU32,
    saw_both: AtomicU32,
}

impl Gate for Pair {
    fn enter(&self, number: u32) {
        self.entered.fetch_add(number, Ordering::SeqCst);
        // Bounded, so that the test fails, and does not hang, if only one job is graded at a time.
        for _ in 0..100_000_000u32 {
            if self.entered.load(Ordering::SeqCst) == 3 {
                self.saw_both.fetch_add(1, Ordering::SeqCst);
                return;
            }
        }
    }
}

/// A collection of two entries, whose puzzles are the jobs 1 and 2.
const PAIR: &str = "@ one.mk\n1 1\n0\n#\n0\n@ clash.mk\n1 1\n1\n#\n0\n";

/// Returns a gate that no job has entered.
fn pair_gate() -> Pair {
    Pair {
        entered: AtomicU32::new(0),
        saw_both: AtomicU32::new(0),
    }
}

#[test]
fn surveys_grade_at_the_same_time(rt: HostRuntime) -> Result<(), Fail> {
    let settings = settings(2, 1, false);
    let gate = pair_gate();
    let (outcome, _) = surveyed(&rt, PAIR.as_bytes(), &settings, &gate);
    outcome?;
    assert!(rt; gate.saw_both.load(Ordering::SeqCst) == 2);
    Ok(())
}

#[test]
fn surveys_of_entries_grade_at_the_same_time(rt: HostRuntime) -> Result<(), Fail> {
    let settings = settings(2, 1, false);
    let gate = pair_gate();
    surveyed_entries(&rt, PAIR.as_bytes(), &settings, &gate)?;
    assert!(rt; gate.saw_both.load(Ordering::SeqCst) == 2);
    Ok(())
}

/// Asserts that each fault is displayed as its sentence.
fn assert_told<F: Display>(
    rt: &(impl Abort + AllocGlobal),
    sentences: &[(F, &str)],
) -> Result<(), Fail> {
    for (fault, sentence) in sentences {
        let text = format!(in rt.alloc(); "{fault}")?;
        assert!(rt; text.as_str() == *sentence, "{sentence}");
    }
    Ok(())
}

#[test]
fn faults_in_sentences(rt: HostRuntime) -> Result<(), Fail> {
    let stray = RunFault::Collection(CollectionFault::Stray(1));
    let sentences = [
        (RunFault::Read, "the reader failed"),
        (stray, "line 1 belongs to no entry or names none"),
        (RunFault::Thread, "a thread was not started"),
        (RunFault::NoMemory, "out of memory"),
        (RunFault::Write(7), "the writer failed after 7 bytes"),
    ];
    assert_told(&rt, &sentences)?;
    let sentences = [
        (CollectFault::NoMemory, "out of memory"),
        (CollectFault::Thread, "a thread was not started"),
    ];
    assert_told(&rt, &sentences)?;
    let entry = ConvertFault::Entry(EntryFault::Text(TextFault::BadLine(3)));
    let ambiguous = "the text would be read with the sizes the other way round";
    let sentences = [
        (entry, "line 3 belongs nowhere or is too long"),
        (ConvertFault::Ambiguous, ambiguous),
        (ConvertFault::NoMemory, "out of memory"),
    ];
    assert_told(&rt, &sentences)
}
