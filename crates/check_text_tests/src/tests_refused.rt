//! Tests of findings with failing allocations: each allocation fails in turn.

use crate::tests::{FINDINGS_ALONE, answer_to, printed};
use alloc_failures::{CallResult, expected_if, sweep};
use check_text::Level;
use grid_core::NoMemory;
use lane_core::Answer;
use puzzle_text::{read_mk, read_non};
use std::alloc::Global;
use std::test::Fail;

/// Prints the findings on a graded puzzle with each allocation failing in turn. With ample memory
/// their text is `text`, and the worst has the level `level`.
fn prints_or_fails(
    alloc: Global,
    answer: &Answer,
    text: &[u8],
    level: Option<Level>,
) -> Result<(), Fail> {
    sweep(alloc, || match printed(alloc, FINDINGS_ALONE, answer) {
        Ok(found) => expected_if(found.0.as_slice() == text && found.1 == level),
        Err(NoMemory) => CallResult::NoMemory,
    })?;
    Ok(())
}

/// One row clue is too long, and the sums differ.
#[test]
fn misfits_are_printed_or_refused(rt: HostRuntime) -> Result<(), Fail> {
    let alloc = rt.alloc();
    let answer = answer_to(alloc, read_mk(alloc, b"1 1\n2\n#\n1\n")?, 0);
    prints_or_fails(
        alloc,
        &answer,
        b"p.mk: error: no solution: row 1 needs 2 cells (2) and has 1\n\
        p.mk: error: no solution: the rows fill 2 cells, the columns 1\n",
        Some(Level::Error),
    )
}

/// Two solutions, and a goal that is neither.
#[test]
fn solutions_are_printed_or_refused(rt: HostRuntime) -> Result<(), Fail> {
    let alloc = rt.alloc();
    let puzzle = b"width 2\nheight 2\nrows\n1\n1\ncolumns\n1\n1\ngoal \"1111\"\n";
    let answer = answer_to(alloc, read_non(alloc, puzzle)?, 1000);
    prints_or_fails(
        alloc,
        &answer,
        b"p.mk: error: at least two solutions, which differ in 4 of 4 cells\n    \
        #.   .#   **\n    \
        .#   #.   **\n\
        p.mk: warning: the goal does not meet the clues\n",
        Some(Level::Error),
    )
}

/// A goal that differs from the only solution.
#[test]
fn goals_are_printed_or_refused(rt: HostRuntime) -> Result<(), Fail> {
    let alloc = rt.alloc();
    let puzzle = b"width 1\nheight 2\nrows\n1\n1\ncolumns\n2\ngoal \"00\"\n";
    let answer = answer_to(alloc, read_non(alloc, puzzle)?, 1000);
    prints_or_fails(
        alloc,
        &answer,
        b"p.mk: warning: the goal differs from the only solution in rows 1, 2\n",
        Some(Level::Warning),
    )
}
