//! Tests of the findings on refused texts with failing allocations: each allocation fails in turn.

use alloc_failures::{CallResult, expected_if, sweep};
use check_text::push_refused;
use grid_core::NoMemory;
use puzzle_text::{EntryFault, TextFault};
use std::alloc::Global;
use std::test::Fail;

/// Classifies an appended text, given the text that is expected.
fn result_of_push(answer: Result<(), NoMemory>, text: &[u8], wanted: &[u8]) -> CallResult {
    match answer {
        Ok(()) => expected_if(text == wanted),
        Err(NoMemory) => CallResult::NoMemory,
    }
}

/// Appends a text's finding with each allocation failing in turn. With ample memory the finding is
/// `wanted`.
fn is_found_or_refused(
    alloc: Global,
    name: &[u8],
    body: &[u8],
    fault: TextFault,
    wanted: &[u8],
) -> Result<(), Fail> {
    sweep(alloc, || {
        let mut text = Vec::new(alloc);
        let answer = push_refused(&mut text, alloc, name, body, EntryFault::Text(fault));
        result_of_push(answer, &text, wanted)
    })?;
    Ok(())
}

#[test]
fn counts_are_printed_or_refused(rt: HostRuntime) -> Result<(), Fail> {
    is_found_or_refused(
        rt.alloc(),
        b"a.non",
        b"width 2\nheight 2\nrows\n1\n1\n1\ncolumns\n1\n1\n",
        TextFault::BadCount,
        b"a.non: error: there are 3 clue lines for 2 rows, and 2 for 2 columns\n",
    )
}

#[test]
fn lines_are_quoted_or_refused(rt: HostRuntime) -> Result<(), Fail> {
    is_found_or_refused(
        rt.alloc(),
        b"a.mk",
        b"1 1\n7 x\n#\n1\n",
        TextFault::BadNumber(2),
        b"a.mk:2: error: \"7 x\" is not a clue (at most 128 numbers from 1 to 256, or 0 alone)\n",
    )
}
