//! Tests of diagnoses with failing allocations: each allocation fails in turn.

use crate::tests::findings_on;
use alloc_failures::{CallResult, expected_if, sweep};
use diagnosis::{Outcome, diagnose};
use grid_core::{NoMemory, Puzzle};
use puzzle_text::read_mk;
use std::alloc::Global;
use std::test::Fail;

/// Returns how many cells differ in the solutions that a diagnosis found.
fn differing_count(outcome: &Outcome<'_>) -> usize {
    match outcome {
        Outcome::Ambiguous { differing, .. } => differing.len(),
        Outcome::Refuted(_) | Outcome::Unique(_) | Outcome::Unsettled => 0,
    }
}

/// Returns how many clues of `puzzle` don't fit their line, and how many cells differ in two
/// solutions.
fn counts_of(alloc: Global, puzzle: &Puzzle) -> Result<(usize, usize), NoMemory> {
    let findings = findings_on(alloc, puzzle)?;
    let found = diagnose(alloc, puzzle, &findings)?;
    Ok((found.misfits.len(), differing_count(&found.outcome)))
}

/// Diagnoses the puzzle of this `.mk` text with each allocation failing in turn. With ample memory
/// `misfits` clues don't fit their line, and `cells` cells differ in two solutions.
fn diagnoses_or_fails(
    alloc: Global,
    text: &[u8],
    misfits: usize,
    cells: usize,
) -> Result<(), Fail> {
    let puzzle: Puzzle = read_mk(alloc, text)?;
    sweep(alloc, || match counts_of(alloc, &puzzle) {
        Ok(counts) => expected_if(counts == (misfits, cells)),
        Err(NoMemory) => CallResult::NoMemory,
    })?;
    Ok(())
}

/// One row clue and one column clue are too long.
#[test]
fn misfits_are_found_or_refused(rt: HostRuntime) -> Result<(), Fail> {
    diagnoses_or_fails(rt.alloc(), b"2 2\n0\n3\n#\n3\n2\n", 2, 0)
}

/// Two solutions differ in each of four cells.
#[test]
fn differing_cells_are_found_or_refused(rt: HostRuntime) -> Result<(), Fail> {
    diagnoses_or_fails(rt.alloc(), b"2 2\n1\n1\n#\n1\n1\n", 0, 4)
}

/// All clues fit their line; the second round of line logic is dead.
#[test]
fn contradictions_are_found_or_refused(rt: HostRuntime) -> Result<(), Fail> {
    diagnoses_or_fails(rt.alloc(), b"2 3\n2\n2\n#\n0\n1\n0\n", 0, 0)
}
