//! The names of lines, and their clues.

ghost use Rattle.std.specs.Prelude.{◌≡◌, ◌++◌, [], OnOk, slice_index_or};
ghost use Rattle.grid_core.specs.Nonogram.{clues_on};
ghost use Rattle.puzzle_text.specs.Written.{clue_text};
ghost use Rattle.check_text.specs.ClueTexts.{axis_word, clue_in_parentheses, line_clue, line_name, line_with_clue};

use crate::quoting::push_quoted;
use grid_core::{Axis, Clue, NoMemory, Puzzle};
use puzzle_text::{push_bytes, push_number};
use std::alloc::Global;

/// Returns the word for a line of an axis.
fn axis_word(axis: Axis) -> &'static [u8]
    ensures { result.now ≡ axis_word axis }
{
    match axis {
        Axis::Rows => b"row",
        Axis::Columns => b"column",
    }
}

/// Appends the name of line `index` of an axis, counted from 1: `row 2` for index 1.
pub(crate) fn push_line_name(text: &mut Vec<u8>, axis: Axis, index: u16) -> Result<(), NoMemory>
    ensures { OnOk result (text.new.items ≡ text.old.items ++ line_name axis index) }
{
    push_bytes(text, axis_word(axis))?;
    push_bytes(text, b" ")?;
    push_number(text, u64::from(index) + 1)
}

/// Appends the numbers of a clue, with a space between two; `0` if there are none.
fn push_clue(text: &mut Vec<u8>, numbers: &[u16]) -> Result<(), NoMemory>
    ensures { OnOk result (text.new.items ≡ text.old.items ++ clue_text 32 numbers.now) }
{
    match numbers {
        [] => push_bytes(text, b"0")?,
        [first, others @ ..] => {
            push_number(text, u64::from(*first))?;
            for number in others {
                text.push(b' ')?;
                push_number(text, u64::from(*number))?;
            }
        }
    }
    Ok(())
}

/// Returns the clues of the lines of an axis.
fn clues_on(puzzle: &Puzzle, axis: Axis) -> &[Clue]
    ensures { result.now ≡ clues_on axis puzzle.now }
{
    match axis {
        Axis::Rows => puzzle.rows(),
        Axis::Columns => puzzle.columns(),
    }
}

/// Returns the numbers of the clue of line `index` of an axis; none if there is no such line.
fn clue_numbers(puzzle: &Puzzle, axis: Axis, index: u16) -> &[u16]
    ensures { result.now ≡ slice_index_or (clues_on axis puzzle.now) index [] }
{
    match clues_on(puzzle, axis).get(usize::from(index)) {
        Some(clue) => clue.numbers(),
        None => &[],
    }
}

/// Appends the clue of line `index` of an axis as it is quoted: its numbers, with a space between
/// two.
fn push_line_clue(
    text: &mut Vec<u8>,
    alloc: Global,
    puzzle: &Puzzle,
    axis: Axis,
    index: u16,
) -> Result<(), NoMemory>
    ensures { OnOk result (text.new.items ≡ text.old.items ++ line_clue puzzle.now axis index) }
{
    let mut clue = Vec::new(alloc);
    push_clue(&mut clue, clue_numbers(puzzle, axis, index))?;
    push_quoted(text, &clue)
}

/// Appends the clue of line `index` of an axis in parentheses: ` (4 1 1)`.
pub(crate) fn push_clue_in_parentheses(
    text: &mut Vec<u8>,
    alloc: Global,
    puzzle: &Puzzle,
    axis: Axis,
    index: u16,
) -> Result<(), NoMemory>
    ensures { OnOk result (text.new.items
        ≡ text.old.items ++ clue_in_parentheses puzzle.now axis index) }
{
    push_bytes(text, b" (")?;
    push_line_clue(text, alloc, puzzle, axis, index)?;
    push_bytes(text, b")")
}

/// Appends the name of line `index` of an axis and its clue in parentheses: `row 2 (4 1 1)`.
pub(crate) fn push_line_with_clue(
    text: &mut Vec<u8>,
    alloc: Global,
    puzzle: &Puzzle,
    axis: Axis,
    index: u16,
) -> Result<(), NoMemory>
    ensures { OnOk result (text.new.items
        ≡ text.old.items ++ line_with_clue puzzle.now axis index) }
{
    push_line_name(text, axis, index)?;
    push_clue_in_parentheses(text, alloc, puzzle, axis, index)
}
