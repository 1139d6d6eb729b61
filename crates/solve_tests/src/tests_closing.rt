//! Tests of the closures, of the cells that are guessed, and of puzzles that need bit sets of each
//! width.

ghost use Rattle.std.specs.Prelude.{◌≡◌};

use crate::oracle_closing::{PlainLine, closure, plain_lines, trials};
use crate::oracle_lines::Cells;
use crate::oracle_picks::picked;
use crate::test_puzzles::*;
use grid_core::{Cell, Grid, MAX_SIDE, NoMemory, Puzzle, Texts};
use solve_core::{Pick, Reporter, Solver, line_grid, next_guess};
use std::alloc::{AllocError, Global};
use std::test::Fail;

/// Reports whether a grid was closed to `wanted`, or found to be dead if `wanted` is `None`.
/// `alive` is what the solver returned.
fn is_closed(
    alloc: Global,
    alive: bool,
    grid: &Grid,
    wanted: Option<Cells>,
) -> Result<bool, AllocError> {
    let Some(wanted) = wanted else {
        return Ok(!alive);
    };
    let mut cells = Vec::new(alloc);
    for y in 0..grid.height() {
        for x in 0..grid.width() {
            cells.push(grid.get(x, y))?;
        }
    }
    Ok(alive && cells == wanted)
}

/// Reports whether `solver` closes the grid with these cells as the oracle does, by lines and under
/// trials.
fn closes_alike(
    alloc: Global,
    puzzle: &Puzzle,
    lines: &[PlainLine],
    solver: &mut Solver,
    cells: &[Cell],
) -> Result<bool, Fail>
    requires { solver.old ≡ puzzle.now }
    ensures { solver.new ≡ puzzle.now }
{
    let mut by_lines = grid_of(alloc, puzzle.width(), puzzle.height(), cells)?;
    let mut by_trials = grid_of(alloc, puzzle.width(), puzzle.height(), cells)?;
    let lines_alive = solver.close_lines(&mut by_lines);
    let trials_alive = solver.close_trials(&mut by_trials);
    let (closed, tried) = (closure(alloc, lines, cells)?, trials(alloc, lines, cells)?);
    Ok(
        is_closed(alloc, lines_alive, &by_lines, closed)?
            && is_closed(alloc, trials_alive, &by_trials, tried)?,
    )
}

/// Reports whether one solver closes the unknown grid of a puzzle, and then the grid with these
/// cells, as the oracle does.
fn are_closed_alike(alloc: Global, puzzle: &Puzzle, cells: &[Cell]) -> Result<bool, Fail> {
    let lines = plain_lines(alloc, puzzle)?;
    let unknown = vec![in alloc; Cell::Unknown; cells.len()]?;
    let mut solver = Solver::new(alloc, puzzle)?;
    Ok(
        closes_alike(alloc, puzzle, &lines, &mut solver, &unknown)?
            && closes_alike(alloc, puzzle, &lines, &mut solver, cells)?,
    )
}

/// Tests all puzzles of up to 3 by 3 cells of whose clues at most one does not fit on its line;
/// that one needs one cell more.
#[test]
fn small_puzzles_are_closed_alike(rt: HostRuntime) -> Result<(), Fail> {
    let alloc = rt.alloc();
    let mut draws = Draws(1);
    for &(width, height, count) in &SIZES {
        for number in 0..count {
            let mut rest = number;
            let mut misfits = 0;
            let rows = chosen_clues(alloc, height, width, &mut rest, &mut misfits)?;
            let columns = chosen_clues(alloc, width, height, &mut rest, &mut misfits)?;
            if misfits > 1 {
                continue;
            }
            let puzzle = Puzzle::new(width, height, rows, columns, Texts::none(), None)?;
            let cell_count = usize::from(width) * usize::from(height);
            let full = draws.draw();
            let mut cells = Vec::new(alloc);
            push_partly_known(&mut cells, cell_count, full, 26, &mut draws)?;
            assert!(rt;
                are_closed_alike(alloc, &puzzle, &cells)?,
                "{width} by {height}: {number}"
            );
        }
    }
    Ok(())
}

#[test]
fn drawn_puzzles_are_closed_alike(rt: HostRuntime) -> Result<(), Fail> {
    let alloc = rt.alloc();
    let mut draws = Draws(1);
    for round in 0..2_000u32 {
        let mut picture = Picture::drawn(alloc, &mut draws)?;
        let cells = picture.partly_known(alloc, &mut draws)?;
        let puzzle = picture.puzzle(alloc, round % 2 == 1, &mut draws)?;
        assert!(rt; are_closed_alike(alloc, &puzzle, &cells)?, "{round}");
    }
    Ok(())
}

/// Reports whether `next_guess` picks the cell that the oracle picks, by both rules.
fn is_guessed_alike(alloc: Global, width: u16, height: u16, cells: &[Cell]) -> Result<bool, Fail> {
    if width == 0 || width > MAX_SIDE || height == 0 || height > MAX_SIDE {
        return Ok(false);
    }
    let grid = grid_of(alloc, width, height, cells)?;
    for pick in [Pick::First, Pick::Most] {
        if next_guess(&grid, pick) != picked(pick, width, height, cells) {
            return Ok(false);
        }
    }
    Ok(true)
}

/// Width, height and number of the grids of each of some small sizes: 3 states for each cell.
static GRIDS: [(u16, u16, u32); 11] = [
    (1, 1, 3),
    (2, 1, 9),
    (3, 1, 27),
    (4, 1, 81),
    (1, 2, 9),
    (2, 2, 81),
    (3, 2, 729),
    (1, 3, 27),
    (2, 3, 729),
    (3, 3, 19_683),
    (1, 4, 81),
];

/// Tests all grids of up to 3 by 3 cells or of four in a line, and pseudorandom ones of up to 6 by
/// 6.
#[test]
fn guesses_are_alike(rt: HostRuntime) -> Result<(), Fail> {
    let alloc = rt.alloc();
    for &(width, height, count) in &GRIDS {
        for number in 0..count {
            let cells = numbered_cells(alloc, usize::from(width) * usize::from(height), number)?;
            assert!(rt;
                is_guessed_alike(alloc, width, height, &cells)?,
                "{width} by {height}: {number}"
            );
        }
    }
    let mut draws = Draws(1);
    for round in 0..10_000u32 {
        let picture = Picture::drawn(alloc, &mut draws)?;
        let cells = picture.partly_known(alloc, &mut draws)?;
        assert!(rt;
            is_guessed_alike(alloc, picture.width, picture.height, &cells)?,
            "{round}"
        );
    }
    Ok(())
}

/// The clue of a blank line.
const NONE: &[u16] = &[];

/// The clue of a line with one filled cell.
const ONE: &[u16] = &[1];

/// The clues of 256 blank lines, as many as an axis can have.
const BLANK: [&[u16]; 256] = [NONE; 256];

/// Reports whether `close_lines` and `line_grid` make all `cells` cells of a blank puzzle known.
fn is_closed_by_lines(alloc: Global, puzzle: &Puzzle, cells: u32) -> Result<bool, NoMemory> {
    let mut solver = Solver::new(alloc, puzzle)?;
    let mut grid = Grid::unknown(alloc, puzzle.width(), puzzle.height())?;
    let alive = solver.close_lines(&mut grid);
    Ok(match line_grid(alloc, puzzle)? {
        Some(closed) => alive && grid.known() == cells && closed.known() == cells,
        None => false,
    })
}

#[test]
fn puzzles_of_all_widths_are_solved_in_turn(rt: HostRuntime) -> Result<(), Fail> {
    let alloc = rt.alloc();
    let narrow = puzzle_with(alloc, &[ONE, ONE], &[ONE, ONE]).ok_or("puzzle")?;
    let mut reporter = Reporter::new();
    // Widths for each set width, and the narrow puzzle after each, since the reporter reuses its
    // buffers.
    for width in [256usize, 3, 129, 65, 64] {
        let lines = &BLANK[..width];
        let blank = puzzle_with(alloc, lines, lines).ok_or("puzzle")?;
        let cells = width.wrapping_mul(width) as u32;
        assert!(rt; is_closed_by_lines(alloc, &blank, cells)?, "{width}");
        let found = reporter.report(alloc, &blank, 2, Pick::First)?;
        assert!(rt; found.line_known == cells && found.spent == 0, "{width}");
        let found = reporter.report(alloc, &narrow, 2, Pick::First)?;
        assert!(rt;
            found.line_known == 0 && found.trial_known == 0 && found.spent == 2,
            "after {width}"
        );
    }
    Ok(())
}
