//! Tests of messages with failing allocations: each allocation fails in turn.

use crate::tests_messages::{message_on, message_on_text};
use alloc_failures::{CallResult, expected_if, sweep};
use grid_core::NoMemory;
use puzzle_text::{EntryFault, TextFault, read_mk};
use std::test::Fail;

/// Classifies a message, given the one that is expected.
fn result_of_message(message: Result<Vec<u8>, NoMemory>, wanted: &[u8]) -> CallResult {
    match message {
        Ok(text) => expected_if(text.as_slice() == wanted),
        Err(NoMemory) => CallResult::NoMemory,
    }
}

/// One row's clue doesn't fit.
#[test]
fn messages_on_puzzles_are_printed_or_refused(rt: HostRuntime) -> Result<(), Fail> {
    let alloc = rt.alloc();
    let puzzle = read_mk(alloc, b"2 3\n1 1\n2 1\n#\n1\n1\n1\n")?;
    let wanted = b"no solution: row 2 needs 4 cells (2 1) and has 3";
    sweep(
        alloc,
        || result_of_message(message_on(alloc, &puzzle, 1000), wanted),
    )?;
    Ok(())
}

#[test]
fn messages_on_texts_are_printed_or_refused(rt: HostRuntime) -> Result<(), Fail> {
    let alloc = rt.alloc();
    let fault = EntryFault::Text(TextFault::BadNumber(2));
    let wanted = b"\"7 x\" is not a clue (at most 128 numbers from 1 to 256, or 0 alone)";
    sweep(alloc, || {
        let message = message_on_text(alloc, b"a.mk", b"1 1\n7 x\n#\n1\n", fault);
        result_of_message(message, wanted)
    })?;
    Ok(())
}
