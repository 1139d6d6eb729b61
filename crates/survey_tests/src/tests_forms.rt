//! Tests of surveys in a form that isn't text. No contract says that such a survey succeeds, with
//! the bytes that one thread prints.

ghost use Rattle.std.specs.Prelude.{◌≡◌, ◌++◌, OnOk};
ghost use Rattle.survey_text.specs.Listed.{form_entry};
ghost use Rattle.survey_tests.specs.NumberedForm.{limit_or_word, numbered_form};

use crate::tests::repeated;
use crate::tests_samples::settings;
use crate::tests_streams::{FailingWriter, failing_writer};
use grid_core::NoMemory;
use lane_core::OpenGate;
use puzzle_text::{entries, push_bytes, push_number};
use std::alloc::Global;
use std::sync::Wait;
use std::test::Fail;
use std::thread::Threads;
use survey_core::{Counted, MAX_LANES, RunFault, run_survey_as, survey_entries_as};
use survey_text::{ListedEntry, SurveyForm, Totals};

/// A form that prints `mark`, then the number, the name, the limit on guesses or the fault, and the
/// text of each entry, and then how many entries there are and how many are refused.
#[derive(Drop)]
pub(crate) struct NumberedForm<'a> {
    pub(crate) mark: &'a [u8],
}

/// Appends the limit on the guesses for the puzzle of `entry`, or the word of its fault.
fn push_limit_or_word(text: &mut Vec<u8>, entry: &ListedEntry<'_>) -> Result<(), NoMemory>
    ensures { OnOk result (text.new.items
        ≡ text.old.items ++ limit_or_word (form_entry entry.now).result) }
{
    match &entry.result {
        Ok(graded) => push_number(text, u64::from(graded.answer.guesses())),
        Err(fault) => fault.word().push(text),
    }
}

impl<'a> SurveyForm for NumberedForm<'a> {
    ghost form = { λ numbered. numbered_form numbered.mark.now };

    fn push_head(&self, text: &mut Vec<u8>) -> Result<(), NoMemory> {
        push_bytes(text, self.mark)
    }

    fn push_entry(
        &self,
        text: &mut Vec<u8>,
        number: u32,
        entry: &ListedEntry<'_>,
    ) -> Result<(), NoMemory> {
        push_number(text, u64::from(number))?;
        push_bytes(text, b" ")?;
        push_bytes(text, entry.name)?;
        push_bytes(text, b" ")?;
        push_limit_or_word(text, entry)?;
        push_bytes(text, b"\n")?;
        push_bytes(text, entry.body)
    }

    fn push_tail(&self, text: &mut Vec<u8>, totals: &Totals) -> Result<(), NoMemory> {
        push_number(text, totals.entries as u64)?;
        push_bytes(text, b" ")?;
        push_number(text, totals.refused as u64)
    }
}

/// A collection of three entries, of which the second is refused.
pub(crate) const THREE: &str = "@ one.mk\n1 1\n0\n#\n0\n\
    @ what.txt\nnothing\n\
    @ clash.mk\n1 1\n1\n#\n0\n";

/// The survey of `THREE` with the mark `[`.
pub(crate) const THREE_NUMBERED: &str = "[1 one.mk 1000\n1 1\n0\n#\n0\n\
    2 what.txt UnknownFormat\nnothing\n\
    3 clash.mk 1000\n1 1\n1\n#\n0\n\
    3 1";

/// Surveys a collection, and its entries, with this mark. Returns the bytes that are written.
fn numbered(
    rt: &(impl Threads + Wait + Sync + AllocGlobal),
    collection: &[u8],
    lanes: u16,
    mark: &[u8],
) -> Result<(Vec<u8>, Vec<u8>), Fail> {
    let alloc = rt.alloc();
    let form = NumberedForm { mark };
    let settings = settings(lanes, 1, false);
    let mut reader = Counted::new(collection);
    let mut first = Counted::new(Vec::new(alloc));
    run_survey_as(
        rt,
        alloc,
        &mut reader,
        &mut first,
        &settings,
        &form,
        &OpenGate,
    )?;
    let found = entries(alloc, collection)?;
    let mut second = Counted::new(Vec::new(alloc));
    survey_entries_as(rt, alloc, &found, &mut second, &settings, &form, &OpenGate)?;
    Ok((first.inner, second.inner))
}

#[test]
fn forms_print_three_parts(rt: HostRuntime) -> Result<(), Fail> {
    for lanes in 1..=MAX_LANES {
        let (first, second) = numbered(&rt, THREE.as_bytes(), lanes, b"[")?;
        assert!(rt; first.as_slice() == THREE_NUMBERED.as_bytes());
        assert!(rt; second.as_slice() == THREE_NUMBERED.as_bytes());
    }
    let (nothing, _) = numbered(&rt, b"", 4, b"[")?;
    assert!(rt; nothing.as_slice() == b"[0 0".as_slice());
    let (unmarked, _) = numbered(&rt, b"", 4, b"")?;
    assert!(rt; unmarked.as_slice() == b"0 0".as_slice());
    Ok(())
}

/// Returns the survey of `count` times the entry `@ a.mk` without a text, with the mark `[[`.
fn refused_numbered(alloc: Global, count: usize) -> Result<Vec<u8>, Fail> {
    let mut text = Vec::from_slice(alloc, b"[[")?;
    for number in 1..=count {
        let line = format!(in alloc; "{number} a.mk NoSize\n")?;
        text.extend_from_slice(line.as_bytes())?;
    }
    let totals = format!(in alloc; "{count} {count}")?;
    text.extend_from_slice(totals.as_bytes())?;
    Ok(text)
}

#[test]
fn forms_in_chunks_are_alike(rt: HostRuntime) -> Result<(), Fail> {
    for count in [63usize, 64, 200, 1000] {
        let collection = repeated(rt.alloc(), b"@ a.mk\n", count)?;
        let wanted = refused_numbered(rt.alloc(), count)?;
        for lanes in 1..=MAX_LANES {
            let (first, second) = numbered(&rt, &collection, lanes, b"[[")?;
            assert!(rt; first == wanted, "{count} times, {lanes} lanes");
            assert!(rt; second == wanted, "{count} times, {lanes} lanes");
        }
    }
    Ok(())
}

/// Surveys 200 entries in four chunks into an output that takes `limit` bytes. Returns the result,
/// and the bytes that are written.
fn numbered_within(
    rt: &(impl Threads + Wait + Sync + AllocGlobal),
    collection: &[u8],
    limit: usize,
) -> Result<(Result<(), RunFault>, Vec<u8>), Fail> {
    let found = entries(rt.alloc(), collection)?;
    let mut output = failing_writer(rt.alloc(), 1000, limit, false);
    let form = NumberedForm { mark: b"[[" };
    let settings = settings(4, 8, false);
    let outcome = survey_entries_as(
        rt,
        rt.alloc(),
        &found,
        &mut output,
        &settings,
        &form,
        &OpenGate,
    );
    let FailingWriter { taken, .. } = output.inner;
    Ok((outcome, taken))
}

#[test]
fn writers_fail_before_entries_and_after(rt: HostRuntime) -> Result<(), Fail> {
    let collection = repeated(rt.alloc(), b"@ a.mk\n", 200)?;
    let wanted = refused_numbered(rt.alloc(), 200)?;
    let length = wanted.len();
    let limits = [
        0,
        1,
        2,
        3,
        length / 2,
        length.saturating_sub(7),
        length.saturating_sub(1),
    ];
    for limit in limits {
        let (outcome, taken) = numbered_within(&rt, &collection, limit)?;
        assert!(rt;
            outcome == Err(RunFault::Write(limit as u64)),
            "{limit} bytes"
        );
        assert!(rt;
            taken.len() == limit && wanted.starts_with(&taken),
            "{limit} bytes"
        );
    }
    Ok(())
}
