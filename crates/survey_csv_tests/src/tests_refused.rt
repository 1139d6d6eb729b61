//! Tests of records with failing allocations: each allocation fails in turn.

use crate::tests::{listed, outcome_of, record};
use alloc_failures::{CallResult, expected_if, sweep};
use grid_core::NoMemory;
use lane_core::{Job, grade};
use puzzle_text::read_mk;
use solve_core::Pick;
use std::alloc::Global;
use std::test::Fail;
use survey_csv::{CsvForm, push_csv_header};
use survey_text::{ListedEntry, SurveyForm};

/// Classifies a text, given the one that is expected.
fn result_of_text(text: Result<Vec<u8>, NoMemory>, wanted: &[u8]) -> CallResult {
    match text {
        Ok(found) => expected_if(found.as_slice() == wanted),
        Err(NoMemory) => CallResult::NoMemory,
    }
}

/// Appends the record of entry 1, `a.mk`, to a text with each allocation failing in turn. With ample
/// memory the text is then `wanted`.
fn is_written_or_refused(alloc: Global, body: &[u8], wanted: &[u8]) -> Result<(), Fail> {
    let outcome = outcome_of(alloc, b"a.mk", body, 0);
    let entry = listed(b"a.mk", body, &outcome)?;
    sweep(
        alloc,
        || result_of_text(record(alloc, 1, &entry, b"m,n"), wanted),
    )?;
    Ok(())
}

#[test]
fn graded_entries_are_written_or_refused(rt: HostRuntime) -> Result<(), Fail> {
    is_written_or_refused(
        rt.alloc(),
        b"1 1\n1\n#\n1\n",
        b"1,a.mk,1,1,one,line,1,1,0,absent,,,\"m,n\",,\n",
    )
}

#[test]
fn refused_entries_are_written_or_refused(rt: HostRuntime) -> Result<(), Fail> {
    is_written_or_refused(
        rt.alloc(),
        b"1 1\nx\n#\n1\n",
        b"1,a.mk,,,,,,,,,BadNumber,2,\"m,n\",,\n",
    )
}

/// Appends a header with each allocation failing in turn.
#[test]
fn headers_are_written_or_refused(rt: HostRuntime) -> Result<(), Fail> {
    let alloc = rt.alloc();
    sweep(alloc, || {
        let mut text = Vec::new(alloc);
        match push_csv_header(&mut text) {
            Ok(()) => expected_if(text.starts_with(b"number,name,")),
            Err(NoMemory) => CallResult::NoMemory,
        }
    })?;
    Ok(())
}

/// Grades a puzzle and writes its record with each allocation failing in turn: an answer that failed
/// has no record.
#[test]
fn failed_answers_have_no_record(rt: HostRuntime) -> Result<(), Fail> {
    let alloc = rt.alloc();
    let wanted = b"1,a.mk,1,1,one,line,1,1,0,absent,,,,,\n";
    let body = b"1 1\n1\n#\n1\n";
    let puzzle = read_mk(alloc, body)?;
    sweep(alloc, || match puzzle.copy(alloc) {
        Ok(puzzle) => {
            let answer = grade(alloc, Job::new(1, puzzle, 0, Pick::First));
            match ListedEntry::graded(b"a.mk", body, &answer) {
                Ok(entry) => result_of_text(record(alloc, 1, &entry, b""), wanted),
                Err(NoMemory) => CallResult::NoMemory,
            }
        }
        Err(NoMemory) => CallResult::NoMemory,
    })?;
    Ok(())
}

/// Returns the record of entry 1 with the message on it, in the form of csv.
fn form_record(alloc: Global, entry: &ListedEntry<'_>) -> Result<Vec<u8>, NoMemory> {
    let mut text = Vec::new(alloc);
    CsvForm { alloc }.push_entry(&mut text, 1, entry)?;
    Ok(text)
}

/// Appends an entry with two solutions in the form of csv, with each allocation failing in turn.
#[test]
fn form_entries_are_written_or_refused(rt: HostRuntime) -> Result<(), Fail> {
    let alloc = rt.alloc();
    let body = b"2 2\n1\n1\n#\n1\n1\n";
    let wanted = b"1,a.mk,2,2,several,search,0,0,2,absent,,,\
        \"at least two solutions, which differ in 4 of 4 cells\",,\n";
    let outcome = outcome_of(alloc, b"a.mk", body, 1000);
    let entry = listed(b"a.mk", body, &outcome)?;
    sweep(alloc, || result_of_text(form_record(alloc, &entry), wanted))?;
    Ok(())
}
