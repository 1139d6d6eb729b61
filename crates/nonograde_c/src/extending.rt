//! The solutions that extend a grid whose cells are given, and the report on them.

ghost use Rattle.std.specs.Prelude.{◌≡◌, ◌++◌, IfOk, OnOk};
ghost use Rattle.solve_core.specs.Sizes.{HasSizeOf};
ghost use Rattle.nonograde_c.specs.Extending.{extend_text, extensions_line, extensions_text};

use grid_core::{Grid, NoMemory, Puzzle};
use puzzle_text::{push_bytes, push_number};
use solve_core::{Extensions, Pick, Solver};
use std::alloc::Global;
use survey_text::{push_solutions, verdict_word};

/// Appends the line on the solutions that extend a grid: the word of the verdict, and how many
/// guesses were spent.
fn push_line(text: &mut Vec<u8>, extensions: &Extensions) -> Result<(), NoMemory>
    ensures { OnOk result (text.new.items ≡ text.old.items ++ extensions_line extensions.now) }
{
    push_bytes(text, verdict_word(&extensions.verdict).as_bytes())?;
    push_bytes(text, b" ")?;
    push_number(text, u64::from(extensions.spent))?;
    push_bytes(text, b"\n")
}

/// Appends the report on the solutions that extend a grid: the line on them, and each of them,
/// followed by an empty line.
fn push_extensions(text: &mut Vec<u8>, extensions: &Extensions) -> Result<(), NoMemory>
    ensures { OnOk result (text.new.items ≡ text.old.items ++ extensions_text extensions.now) }
{
    push_line(text, extensions)?;
    push_solutions(text, &extensions.verdict)
}

/// Searches for the solutions that extend `grid`, which has the puzzle's size, and returns the
/// report on them: a line with the word of the verdict and how many guesses were spent, and the
/// solutions, each followed by an empty line. The search spends at most `guesses` guesses on cells
/// that `pick` chooses. Fails with `NoMemory` if an allocation does.
pub fn extend_text(
    alloc: Global,
    puzzle: &Puzzle,
    grid: &Grid,
    guesses: u32,
    pick: Pick,
) -> Result<Vec<u8>, NoMemory>
    requires { HasSizeOf puzzle.now grid.now }
    ensures { IfOk result (λ text.
        text.items ≡ extend_text pick guesses puzzle.now grid.now.cells) }
{
    let mut solver = Solver::new(alloc, puzzle)?;
    let extensions = solver.extensions(alloc, grid, guesses, pick)?;
    let mut text = Vec::new(alloc);
    push_extensions(&mut text, &extensions)?;
    Ok(text)
}
