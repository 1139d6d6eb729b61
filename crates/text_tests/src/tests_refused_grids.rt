//! Tests of the calls of `grid_core` with failing allocations: each allocation of a call fails in
//! turn, and calls that allocate nothing are made with every allocation failing.

use crate::tests::{are_same, clues};
use alloc_failures::{CallResult, SweepFailure, arm, disarm, expected_if, is_active, sweep};
use grid_core::*;
use puzzle_text::read_non;
use std::alloc::Global;
use std::test::Fail;

/// The demonstration puzzle.
const DEMO: &[u8] =
    b"title \"Demo\"\nwidth 5\nheight 10\n\nrows\n2\n2,1\n1,1\n3\n1,1\n1,1\n2\n1,1\n1,2\n2\n\n\
    columns\n2,1\n2,1,3\n7\n1,3\n2,1\n\n\
    goal \"01100011010010101110101001010000110010100101111000\"\n";

/// More numbers than a clue stores inline.
const TWELVE: [u16; 12] = [1, 2, 3, 4, 5, 6, 7, 8, 9, 10, 11, 12];

/// A call that allocates memory, with its arguments.
#[derive(Clone, Copy)]
enum Call<'a> {
    /// `Clue::from_numbers`, and whether the numbers are a clue.
    MakeClue(&'a [u16], bool),
    /// `Clue::copy`.
    CopyClue(&'a Clue),
    /// `Puzzle::copy`.
    CopyPuzzle(&'a Puzzle),
    /// `Grid::unknown`, with 256 by 255 cells.
    MakeGrid,
    /// `Grid::copy`, for the solution of a puzzle.
    CopyGrid(&'a Grid, &'a Puzzle),
}

/// Makes the call and returns whether its result is the expected one.
fn is_wanted(alloc: Global, call: Call<'_>) -> Result<bool, NoMemory> {
    match call {
        Call::MakeClue(numbers, fit) => match Clue::from_numbers(alloc, numbers) {
            Ok(clue) => Ok(fit && clue.numbers() == numbers),
            Err(ClueFault::BadNumber) => Ok(!fit),
            Err(ClueFault::NoMemory) => Err(NoMemory),
        },
        Call::CopyClue(clue) => {
            let copy = clue.copy(alloc)?;
            Ok(copy.numbers() == clue.numbers())
        }
        Call::CopyPuzzle(puzzle) => {
            let copy = puzzle.copy(alloc)?;
            Ok(are_same(&copy, puzzle))
        }
        Call::MakeGrid => {
            let grid = Grid::unknown(alloc, 256, 255)?;
            Ok(grid.width() == 256 && grid.height() == 255 && grid.known() == 0)
        }
        Call::CopyGrid(grid, puzzle) => {
            let copy = grid.copy(alloc)?;
            Ok(puzzle.solved_by(&copy))
        }
    }
}

/// Makes the call with each of its allocations failing in turn. Returns how many failed.
fn sweep_call(alloc: Global, call: Call<'_>) -> Result<usize, SweepFailure> {
    sweep(alloc, || match is_wanted(alloc, call) {
        Ok(wanted) => expected_if(wanted),
        Err(NoMemory) => CallResult::NoMemory,
    })
}

#[test]
fn clues_are_made_or_refused(rt: HostRuntime) -> Result<(), Fail> {
    sweep_call(rt.alloc(), Call::MakeClue(&TWELVE, true))?;
    sweep_call(rt.alloc(), Call::MakeClue(&[0; 12], false))?;
    Ok(())
}

#[test]
fn clues_are_copied_or_refused(rt: HostRuntime) -> Result<(), Fail> {
    let clue = Clue::from_numbers(rt.alloc(), &TWELVE)?;
    sweep_call(rt.alloc(), Call::CopyClue(&clue))?;
    Ok(())
}

/// Reports whether the title is `title` and the author is `author`.
fn has_title(texts: &Texts, title: &[u8]) -> bool {
    texts.get(Field::Title) == Some(title) && texts.get(Field::By) == Some(b"author".as_slice())
}

#[test]
fn texts_are_set_or_refused(rt: HostRuntime) -> Result<(), Fail> {
    let alloc = rt.alloc();
    // `set` allocates once: with its second allocation failing it succeeds.
    for growth in [2, 1] {
        let mut texts = Texts::none();
        texts.set(alloc, Field::Title, b"before")?;
        texts.set(alloc, Field::By, b"author")?;
        arm(alloc, growth);
        let answer = texts.set(alloc, Field::Title, b"after");
        let refused = disarm(alloc);
        match answer {
            Ok(()) => assert!(rt; !refused && has_title(&texts, b"after")),
            Err(fault) => assert!(rt;
                refused
                    && growth == 1
                    && fault == TextsFault::NoMemory
                    && has_title(&texts, b"before")
            ),
        }
        texts.set(alloc, Field::Title, b"after")?;
        assert!(rt; has_title(&texts, b"after"), "the next call");
    }
    Ok(())
}

#[test]
fn puzzles_are_copied_or_refused(rt: HostRuntime) -> Result<(), Fail> {
    let puzzle = read_non(rt.alloc(), DEMO)?;
    sweep_call(rt.alloc(), Call::CopyPuzzle(&puzzle))?;
    Ok(())
}

#[test]
fn long_clues_are_copied_or_refused(rt: HostRuntime) -> Result<(), Fail> {
    let alloc = rt.alloc();
    // Each clue needs an allocation of its own.
    let rows = clues(alloc, &TWELVE, 2)?;
    let columns = clues(alloc, &TWELVE, 1)?;
    let puzzle = Puzzle::new(1, 2, rows, columns, Texts::none(), None)?;
    sweep_call(alloc, Call::CopyPuzzle(&puzzle))?;
    Ok(())
}

#[test]
fn grids_are_made_or_refused(rt: HostRuntime) -> Result<(), Fail> {
    sweep_call(rt.alloc(), Call::MakeGrid)?;
    Ok(())
}

/// Returns the goal of the demonstration puzzle as a grid. Sets each cell as the first unknown one,
/// and returns `None` if `first_unknown` finds no cell of the grid.
fn solution(alloc: Global, puzzle: &Puzzle) -> Result<Option<Grid>, NoMemory> {
    let Some(goal) = puzzle.goal() else {
        return Ok(None);
    };
    let mut grid = Grid::unknown(alloc, 5, 10)?;
    for filled in goal {
        let Some((x, y)) = grid.first_unknown() else {
            return Ok(None);
        };
        // `set` requires this, and no invariant of the loop says it.
        if x >= grid.width() || y >= grid.height() {
            return Ok(None);
        }
        grid.set(x, y, Cell::from_filled(*filled));
    }
    Ok(Some(grid))
}

#[test]
fn grids_are_copied_or_refused(rt: HostRuntime) -> Result<(), Fail> {
    let alloc = rt.alloc();
    let puzzle = read_non(alloc, DEMO)?;
    let grid = solution(alloc, &puzzle)?.ok_or("grid")?;
    sweep_call(alloc, Call::CopyGrid(&grid, &puzzle))?;
    Ok(())
}

/// Reports whether sizes, clues, title and goal are those of the demonstration puzzle.
fn is_demonstration(puzzle: &Puzzle) -> bool {
    puzzle.width() == 5
        && puzzle.height() == 10
        && puzzle.row_clue(1).numbers() == [2, 1].as_slice()
        && puzzle.col_clue(2).numbers() == [7].as_slice()
        && puzzle.texts().get(Field::Title) == Some(b"Demo".as_slice())
        && puzzle.goal_word() == GoalWord::Meets
}

/// Makes a cell of the solution `grid` unknown and sets it again. Returns whether each call on the
/// grid has the expected result.
fn are_cells_well(puzzle: &Puzzle, grid: &mut Grid) -> bool {
    // Shows that the cells below are cells of the grid, as its methods require.
    if grid.width() != 5 || grid.height() != 10 {
        return false;
    }
    grid.set_index(7, Cell::Unknown);
    let first = grid.first_unknown();
    let early = puzzle.solved_by(grid);
    grid.set(2, 1, Cell::Filled);
    first == Some((2, 1))
        && !early
        && grid.get(1, 0) == Cell::Filled
        && grid.get_index(0) == Cell::Blank
        && grid.known() == 50
        && puzzle.solved_by(grid)
}

/// Writes the fifth row of the solution `grid` over the first. Returns whether each call on the
/// grid has the expected result.
fn are_rows_well(puzzle: &Puzzle, grid: &mut Grid) -> bool {
    if grid.height() != 10 {
        return false;
    }
    let row = grid.row(4);
    if row.len() != grid.width() {
        return false;
    }
    grid.write_row(0, &row);
    grid.row(0).is_same(&row)
        && !grid.row(1).is_same(&row)
        && grid.known() == 50
        && !puzzle.solved_by(grid)
}

#[test]
fn looks_take_no_memory(rt: HostRuntime) -> Result<(), Fail> {
    let alloc = rt.alloc();
    let puzzle = read_non(alloc, DEMO)?;
    let mut grid = solution(alloc, &puzzle)?.ok_or("grid")?;
    let rows = clues(alloc, &TWELVE, 1)?;
    let columns = clues(alloc, &TWELVE, 1)?;
    let goal = vec![in alloc; true; 1]?;
    arm(alloc, 0);
    let is_made = Puzzle::new(1, 1, rows, columns, Texts::none(), Some(goal)).is_ok();
    let is_none = Texts::none().get(Field::Title).is_none();
    let well = is_demonstration(&puzzle)
        && are_cells_well(&puzzle, &mut grid)
        && are_rows_well(&puzzle, &mut grid);
    assert!(rt; !disarm(alloc), "no growth");
    assert!(rt; well && is_made && is_none);
    assert!(rt; is_active(alloc));
    Ok(())
}
