//! Tests of the calls of `solve_core` with failing allocations: each allocation of a call fails in
//! turn, and calls that allocate nothing are made with every allocation failing.

use crate::test_puzzles::puzzle_with;
use alloc_failures::{CallResult, SweepFailure, arm, disarm, expected_if, is_active, sweep};
use grid_core::{Cell, Grid, NoMemory, Puzzle};
use solve_core::*;
use std::alloc::Global;
use std::test::Fail;

/// The clue of a line with one filled cell.
const ONE: &[u16] = &[1];

/// Returns how many cells of a puzzle lines make known, from an unknown grid and by a new solver.
fn known_by_lines(alloc: Global, puzzle: &Puzzle) -> Result<u32, NoMemory> {
    let mut grid = Grid::unknown(alloc, puzzle.width(), puzzle.height())?;
    let mut solver = Solver::new(alloc, puzzle)?;
    let _ = solver.close_lines(&mut grid);
    Ok(grid.known())
}

#[test]
fn solvers_are_made_or_refused(rt: HostRuntime) -> Result<(), Fail> {
    let alloc = rt.alloc();
    let puzzle = puzzle_with(alloc, &[&[2]], &[ONE, ONE]).ok_or("puzzle")?;
    sweep(alloc, || match known_by_lines(alloc, &puzzle) {
        Ok(known) => expected_if(known == 2),
        Err(NoMemory) => CallResult::NoMemory,
    })?;
    Ok(())
}

#[test]
fn line_grids_are_made_or_refused(rt: HostRuntime) -> Result<(), Fail> {
    let alloc = rt.alloc();
    let puzzle = puzzle_with(alloc, &[&[2]], &[ONE, ONE]).ok_or("puzzle")?;
    sweep(alloc, || match line_grid(alloc, &puzzle) {
        Ok(Some(grid)) => expected_if(grid.known() == 2),
        Ok(None) => CallResult::Other,
        Err(NoMemory) => CallResult::NoMemory,
    })?;
    Ok(())
}

/// Reports whether `findings` are right for the puzzle with the clue 1 in each of three rows and
/// three columns and a limit of `guesses` guesses, which is 0, 2 or 3.
fn is_found(findings: &Findings, puzzle: &Puzzle, guesses: u32) -> bool {
    if findings.spent != guesses || findings.grade != Grade::Search {
        return false;
    }
    match &findings.verdict {
        Verdict::Unsettled(None) => guesses == 0,
        Verdict::Unsettled(Some(grid)) => guesses == 2 && puzzle.solved_by(grid),
        Verdict::Several(first, second) => {
            guesses == 3 && puzzle.solved_by(first) && puzzle.solved_by(second)
        }
        _ => false,
    }
}

/// Makes a report of at most `guesses` guesses with each allocation failing in turn. Returns how
/// many allocations failed.
fn growths_with(alloc: Global, puzzle: &Puzzle, guesses: u32) -> Result<usize, SweepFailure> {
    sweep(
        alloc,
        || match report(alloc, puzzle, guesses, Pick::First) {
            Ok(findings) => expected_if(is_found(&findings, puzzle, guesses)),
            Err(NoMemory) => CallResult::NoMemory,
        },
    )
}

#[test]
fn reports_are_made_or_refused(rt: HostRuntime) -> Result<(), Fail> {
    let alloc = rt.alloc();
    let puzzle = puzzle_with(alloc, &[ONE, ONE, ONE], &[ONE, ONE, ONE]).ok_or("puzzle")?;
    let growths = growths_with(alloc, &puzzle, 0)?;
    // A report allocates all its buffers before it deduces its first line.
    for guesses in [2, 3] {
        assert!(rt;
            growths_with(alloc, &puzzle, guesses)? == growths,
            "{guesses}"
        );
    }
    Ok(())
}

/// Returns the solutions of a puzzle whose first cell is filled, by a new solver.
fn with_first_filled(alloc: Global, puzzle: &Puzzle) -> Result<Extensions, NoMemory> {
    let mut grid = Grid::unknown(alloc, puzzle.width(), puzzle.height())?;
    grid.set_index(0, Cell::Filled);
    Solver::new(alloc, puzzle)?.extensions(alloc, &grid, 2, Pick::First)
}

/// Tests the puzzle with the clue 1 in each of three rows and three columns: with the first cell
/// filled it has two solutions, between which one cell decides.
#[test]
fn extensions_are_found_or_refused(rt: HostRuntime) -> Result<(), Fail> {
    let alloc = rt.alloc();
    let puzzle = puzzle_with(alloc, &[ONE, ONE, ONE], &[ONE, ONE, ONE]).ok_or("puzzle")?;
    sweep(alloc, || match with_first_filled(alloc, &puzzle) {
        Ok(found) => expected_if(match &found.verdict {
            Verdict::Several(first, second) => {
                found.spent == 2 && puzzle.solved_by(first) && puzzle.solved_by(second)
            }
            _ => false,
        }),
        Err(NoMemory) => CallResult::NoMemory,
    })?;
    Ok(())
}

/// Tests that a reporter's second report allocates no more than the two grids for solutions, which
/// the first one gave away with its verdict.
#[test]
fn buffers_are_kept_for_the_next_report(rt: HostRuntime) -> Result<(), Fail> {
    let alloc = rt.alloc();
    let puzzle = puzzle_with(alloc, &[ONE, ONE, ONE], &[ONE, ONE, ONE]).ok_or("puzzle")?;
    let mut reporter = Reporter::new();
    let first = reporter.report(alloc, &puzzle, 3, Pick::First)?;
    arm(alloc, 3);
    let second = reporter.report(alloc, &puzzle, 3, Pick::First);
    assert!(rt; !disarm(alloc), "a third allocation");
    assert!(rt; is_found(&first, &puzzle, 3));
    assert!(rt; is_found(&second?, &puzzle, 3));
    assert!(rt; is_active(alloc));
    Ok(())
}

/// Tests a puzzle of eight cells, of which lines make none known and trials all.
#[test]
fn closing_takes_no_memory(rt: HostRuntime) -> Result<(), Fail> {
    let alloc = rt.alloc();
    let puzzle = puzzle_with(alloc, &[&[2], &[1, 1]], &[ONE, ONE, ONE, ONE]).ok_or("puzzle")?;
    let mut grid = Grid::unknown(alloc, puzzle.width(), puzzle.height())?;
    let mut solver = Solver::new(alloc, &puzzle)?;
    arm(alloc, 0);
    let by_lines = solver.close_lines(&mut grid) && grid.known() == 0;
    let by_trials = solver.close_trials(&mut grid) && puzzle.solved_by(&grid);
    assert!(rt; !disarm(alloc), "no growth");
    assert!(rt; by_lines && by_trials);
    assert!(rt; is_active(alloc));
    Ok(())
}
