//! What refuted a puzzle without solutions, if its clues alone don't.

ghost use Rattle.std.specs.Prelude.{◌≡◌, ◌++◌, OnOk};
ghost use Rattle.grid_core.specs.declared.axes.Axis.TheVariants.{Columns, Rows};
ghost use Rattle.check_text.specs.Refutations.{contradiction_text, no_placing_text, refutation_text, two_colours_text};
ghost use Rattle.check_text.specs.Unsolvable.{refutation_finding};

use crate::clue_texts::{push_clue_in_parentheses, push_line_name, push_line_with_clue};
use crate::heads::{Level, push_head};
use diagnosis::{Contradiction, Position, Refutation};
use grid_core::{Axis, NoMemory, Puzzle};
use puzzle_text::push_bytes;
use std::alloc::Global;

/// Appends that line logic leaves no placing for a line, with its clue.
fn push_no_placing(
    text: &mut Vec<u8>,
    alloc: Global,
    puzzle: &Puzzle,
    axis: Axis,
    index: u16,
) -> Result<(), NoMemory>
    ensures { OnOk result (text.new.items
        ≡ text.old.items ++ no_placing_text puzzle.now axis index) }
{
    push_bytes(text, b"no solution: by line logic no placing is left for ")?;
    push_line_name(text, axis, index)?;
    push_clue_in_parentheses(text, alloc, puzzle, axis, index)
}

/// Appends that by line logic the row and the column of a cell contradict each other, with their
/// clues.
fn push_two_colours(
    text: &mut Vec<u8>,
    alloc: Global,
    puzzle: &Puzzle,
    position: Position,
) -> Result<(), NoMemory>
    ensures { OnOk result (text.new.items
        ≡ text.old.items ++ two_colours_text puzzle.now position) }
{
    push_bytes(text, b"no solution: by line logic ")?;
    push_line_with_clue(text, alloc, puzzle, Axis::Rows, position.row)?;
    push_bytes(text, b" and ")?;
    push_line_with_clue(text, alloc, puzzle, Axis::Columns, position.column)?;
    push_bytes(text, b" contradict each other in their common cell")
}

/// Appends that there is no solution, since line logic shows this contradiction.
fn push_contradiction(
    text: &mut Vec<u8>,
    alloc: Global,
    puzzle: &Puzzle,
    contradiction: Contradiction,
) -> Result<(), NoMemory>
    ensures { OnOk result (text.new.items
        ≡ text.old.items ++ contradiction_text puzzle.now contradiction) }
{
    match contradiction {
        Contradiction::NoPlacing { axis, index } => {
            push_no_placing(text, alloc, puzzle, axis, index)
        }
        Contradiction::TwoColours(position) => push_two_colours(text, alloc, puzzle, position),
    }
}

/// Appends that there is no solution, with what refuted the puzzle.
pub(crate) fn push_refutation_text(
    text: &mut Vec<u8>,
    alloc: Global,
    puzzle: &Puzzle,
    refutation: Refutation,
) -> Result<(), NoMemory>
    ensures { OnOk result (text.new.items
        ≡ text.old.items ++ refutation_text puzzle.now refutation) }
{
    match refutation {
        Refutation::Lines(contradiction) => push_contradiction(text, alloc, puzzle, contradiction),
        Refutation::Trials => push_bytes(
            text,
            b"no solution: each colour of some cell leads to a contradiction",
        ),
        Refutation::Search => push_bytes(text, b"no solution: the search found none"),
    }
}

/// Appends the finding that a puzzle has no solution, with what refuted it.
pub(crate) fn push_refutation(
    text: &mut Vec<u8>,
    alloc: Global,
    name: &[u8],
    puzzle: &Puzzle,
    refutation: Refutation,
) -> Result<(), NoMemory>
    ensures { OnOk result (text.new.items
        ≡ text.old.items ++ refutation_finding name.now puzzle.now refutation) }
{
    push_head(text, name, None, Level::Error)?;
    push_refutation_text(text, alloc, puzzle, refutation)?;
    push_bytes(text, b"\n")
}
