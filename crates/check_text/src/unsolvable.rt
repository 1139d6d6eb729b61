//! The findings on a puzzle without solutions.

ghost use Rattle.std.specs.Prelude.{◌≡◌, ◌++◌, OnOk, Some};
ghost use Rattle.std.specs.List.{flat_map};
ghost use Rattle.check_text.specs.Findings.{finding};
ghost use Rattle.check_text.specs.Unsolvable.{clue_findings, do_clues_refute, misfit_finding, misfit_text, sums_finding, sums_text, unsolvable};

use crate::clue_texts::{push_clue_in_parentheses, push_line_name};
use crate::heads::{Level, push_head};
use crate::numbers::{push_cell_count, push_grouped};
use crate::refutations::push_refutation;
use diagnosis::{Misfit, Refutation, Sums};
use grid_core::{NoMemory, Puzzle};
use puzzle_text::push_bytes;
use std::alloc::Global;

/// Appends that there is no solution since the clue of a line doesn't fit:
/// `no solution: row 2 needs 8 cells (4 1 1) and has 7`.
pub(crate) fn push_misfit_text(
    text: &mut Vec<u8>,
    alloc: Global,
    puzzle: &Puzzle,
    misfit: Misfit,
) -> Result<(), NoMemory>
    ensures { OnOk result (text.new.items ≡ text.old.items ++ misfit_text puzzle.now misfit) }
{
    push_bytes(text, b"no solution: ")?;
    push_line_name(text, misfit.axis, misfit.index)?;
    push_bytes(text, b" needs ")?;
    push_cell_count(text, alloc, u64::from(misfit.needed))?;
    push_clue_in_parentheses(text, alloc, puzzle, misfit.axis, misfit.index)?;
    push_bytes(text, b" and has ")?;
    push_grouped(text, alloc, u64::from(misfit.cells))
}

/// Appends the finding on a clue that doesn't fit its line.
fn push_misfit(
    text: &mut Vec<u8>,
    alloc: Global,
    name: &[u8],
    puzzle: &Puzzle,
    misfit: Misfit,
) -> Result<(), NoMemory>
    ensures { OnOk result (text.new.items
        ≡ text.old.items ++ misfit_finding name.now puzzle.now misfit) }
{
    push_head(text, name, None, Level::Error)?;
    push_misfit_text(text, alloc, puzzle, misfit)?;
    push_bytes(text, b"\n")
}

/// Appends a finding for each clue that doesn't fit its line.
fn push_misfits(
    text: &mut Vec<u8>,
    alloc: Global,
    name: &[u8],
    puzzle: &Puzzle,
    misfits: &[Misfit],
) -> Result<(), NoMemory>
    ensures { OnOk result (text.new.items
        ≡ text.old.items ++ flat_map (misfit_finding name.now puzzle.now) misfits.now) }
{
    for misfit in misfits {
        push_misfit(text, alloc, name, puzzle, *misfit)?;
    }
    Ok(())
}

/// Appends that there is no solution since the rows fill another number of cells than the columns:
/// `no solution: the rows fill 26 cells, the columns 25`.
pub(crate) fn push_sums_text(text: &mut Vec<u8>, alloc: Global, sums: Sums) -> Result<(), NoMemory>
    ensures { OnOk result (text.new.items ≡ text.old.items ++ sums_text sums) }
{
    push_bytes(text, b"no solution: the rows fill ")?;
    push_cell_count(text, alloc, u64::from(sums.rows))?;
    push_bytes(text, b", the columns ")?;
    push_grouped(text, alloc, u64::from(sums.columns))
}

/// Appends the finding that the rows fill another number of cells than the columns.
fn push_unequal_sums(
    text: &mut Vec<u8>,
    alloc: Global,
    name: &[u8],
    sums: Sums,
) -> Result<(), NoMemory>
    ensures { OnOk result (text.new.items
        ≡ text.old.items ++ finding name.now Level.Error (sums_text sums)) }
{
    push_head(text, name, None, Level::Error)?;
    push_sums_text(text, alloc, sums)?;
    push_bytes(text, b"\n")
}

/// Appends the finding that the rows fill another number of cells than the columns; nothing if the
/// numbers are equal.
pub(crate) fn push_sums(
    text: &mut Vec<u8>,
    alloc: Global,
    name: &[u8],
    sums: Sums,
) -> Result<(), NoMemory>
    ensures { OnOk result (text.new.items ≡ text.old.items ++ sums_finding name.now sums) }
{
    if sums.rows == sums.columns {
        return Ok(());
    }
    push_unequal_sums(text, alloc, name, sums)
}

/// Appends the findings on a puzzle's clues: one for each clue that doesn't fit its line, and one if
/// the sums differ.
fn push_clue_findings(
    text: &mut Vec<u8>,
    alloc: Global,
    name: &[u8],
    puzzle: &Puzzle,
    misfits: &[Misfit],
    sums: Sums,
) -> Result<(), NoMemory>
    ensures { OnOk result (text.new.items
        ≡ text.old.items ++ clue_findings name.now puzzle.now misfits.now sums) }
{
    push_misfits(text, alloc, name, puzzle, misfits)?;
    push_sums(text, alloc, name, sums)
}

/// Reports whether the clues alone show that there is no solution: some clue doesn't fit its line,
/// or the rows fill another number of cells than the columns.
fn do_clues_refute(misfits: &[Misfit], sums: Sums) -> bool
    ensures { result ≡ do_clues_refute misfits.now sums }
{
    !misfits.is_empty() || sums.rows != sums.columns
}

/// Appends the findings on a puzzle without solutions: those on its clues, by the clues that don't
/// fit and the sums; if there is none, the one with what refuted the puzzle. Fails with `NoMemory`
/// if an allocation fails.
pub(crate) fn push_unsolvable(
    text: &mut Vec<u8>,
    alloc: Global,
    name: &[u8],
    puzzle: &Puzzle,
    misfits: &[Misfit],
    sums: Sums,
    refutation: Refutation,
) -> Result<(), NoMemory>
    ensures { OnOk result (text.new.items ≡ text.old.items
        ++ unsolvable name.now puzzle.now misfits.now sums (Some refutation)) }
{
    if do_clues_refute(misfits, sums) {
        push_clue_findings(text, alloc, name, puzzle, misfits, sums)
    } else {
        push_refutation(text, alloc, name, puzzle, refutation)
    }
}
