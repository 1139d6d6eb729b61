//! Tests of lines with failing allocations: each allocation fails in turn.

use crate::lines::{LOSSY, NONE, ONE, REFUSED, SEVERAL, TOTALS};
use crate::tests::{
    BAD_CLUE, BAD_TEXT, COUNTS, LOSSY_NAME, NONE_PUZZLE, ONE_PUZZLE, SEVERAL_PUZZLE, answer_to,
    is_line, line_of,
};
use alloc_failures::{CallResult, expected_if, sweep};
use grid_core::NoMemory;
use puzzle_text::{EntryFault, TextFault, read_mk, read_non};
use std::alloc::Global;
use std::test::Fail;
use survey_json::{JsonForm, push_escaped, push_json_totals};
use survey_text::{ListedEntry, SurveyForm};

/// Prints the line of an entry with each allocation failing in turn. With ample memory it is `line`.
fn prints_or_fails(
    alloc: Global,
    number: u32,
    entry: &ListedEntry<'_>,
    line: &str,
) -> Result<(), Fail> {
    sweep(alloc, || match line_of(alloc, number, entry) {
        Ok(text) => expected_if(is_line(&text, line)),
        Err(NoMemory) => CallResult::NoMemory,
    })?;
    Ok(())
}

/// One solution, with all texts and a goal.
#[test]
fn single_solutions_are_printed_or_refused(rt: HostRuntime) -> Result<(), Fail> {
    let alloc = rt.alloc();
    let answer = answer_to(alloc, read_non(alloc, ONE_PUZZLE)?, 1000);
    let entry = ListedEntry::graded(b"one.non", ONE_PUZZLE, &answer)?;
    prints_or_fails(alloc, 1, &entry, ONE)
}

/// No solution, with three clues that don't fit.
#[test]
fn misfits_are_printed_or_refused(rt: HostRuntime) -> Result<(), Fail> {
    let alloc = rt.alloc();
    let answer = answer_to(alloc, read_mk(alloc, NONE_PUZZLE)?, 1000);
    let entry = ListedEntry::graded(b"none.mk", NONE_PUZZLE, &answer)?;
    prints_or_fails(alloc, 2, &entry, NONE)
}

/// Two solutions.
#[test]
fn two_solutions_are_printed_or_refused(rt: HostRuntime) -> Result<(), Fail> {
    let alloc = rt.alloc();
    let answer = answer_to(alloc, read_non(alloc, SEVERAL_PUZZLE)?, 1000);
    let entry = ListedEntry::graded(b"several.non", SEVERAL_PUZZLE, &answer)?;
    prints_or_fails(alloc, 4_294_967_295, &entry, SEVERAL)
}

/// A refused entry whose name isn't UTF-8.
#[test]
fn faults_are_printed_or_refused(rt: HostRuntime) -> Result<(), Fail> {
    let fault = EntryFault::Text(TextFault::TooLong);
    let entry = ListedEntry::refused(LOSSY_NAME, b"", fault);
    prints_or_fails(rt.alloc(), 8, &entry, LOSSY)
}

/// Returns the text of an entry in the form.
fn form_line(alloc: Global, number: u32, entry: &ListedEntry<'_>) -> Result<Vec<u8>, NoMemory> {
    let mut text = Vec::new(alloc);
    JsonForm { alloc }.push_entry(&mut text, number, entry)?;
    Ok(text)
}

/// A refused entry in the form, with a message that quotes a line.
#[test]
fn forms_are_printed_or_refused(rt: HostRuntime) -> Result<(), Fail> {
    let alloc = rt.alloc();
    let entry = ListedEntry::refused(b"bad.mk", BAD_TEXT, BAD_CLUE);
    sweep(alloc, || match form_line(alloc, 5, &entry) {
        Ok(text) => expected_if(is_line(&text, REFUSED)),
        Err(NoMemory) => CallResult::NoMemory,
    })?;
    Ok(())
}

/// Returns the line of totals.
fn totals_line(alloc: Global) -> Result<Vec<u8>, NoMemory> {
    let mut text = Vec::new(alloc);
    push_json_totals(&mut text, alloc, COUNTS)?;
    Ok(text)
}

/// The line of totals.
#[test]
fn totals_are_printed_or_refused(rt: HostRuntime) -> Result<(), Fail> {
    let alloc = rt.alloc();
    sweep(alloc, || match totals_line(alloc) {
        Ok(text) => expected_if(is_line(&text, TOTALS)),
        Err(NoMemory) => CallResult::NoMemory,
    })?;
    Ok(())
}

/// Returns the escaped form of a line.
fn escaped(alloc: Global, line: &[u8]) -> Result<Vec<u8>, NoMemory> {
    let mut text = Vec::new(alloc);
    push_escaped(&mut text, line)?;
    Ok(text)
}

/// An escaped line.
#[test]
fn lines_are_escaped_or_refused(rt: HostRuntime) -> Result<(), Fail> {
    let alloc = rt.alloc();
    sweep(alloc, || match escaped(alloc, b"<a><b><c><d>") {
        Ok(text) => {
            let line = b"\\u003ca>\\u003cb>\\u003cc>\\u003cd>";
            expected_if(text.as_slice() == line.as_slice())
        }
        Err(NoMemory) => CallResult::NoMemory,
    })?;
    Ok(())
}
