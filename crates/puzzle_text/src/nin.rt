//! The reader for the format `.nin`.

ghost use Rattle.std.specs.Prelude.{◌≡◌, ◌<◌, map, length, Err};
ghost use Rattle.puzzle_text.specs.Answers.{Gives};
ghost use Rattle.puzzle_text.specs.Nin.{nin_of, read_nin};
ghost use Rattle.puzzle_text.specs.steps.Shown.{shown_line};

use crate::clue_lines::section_clues;
use crate::faults::TextFault;
use crate::limits::MAX_PUZZLE_LEN;
use crate::lines::{TextLine, all_lines};
use crate::orientation::orient;
use crate::quick::quick_nin;
use crate::sections::section_lines;
use crate::sizes::size_line;
use grid_core::{MAX_SIDE, Puzzle};
use std::alloc::Global;

fn nin_of(alloc: Global, lines: &[TextLine<'_>]) -> Result<Puzzle, TextFault>
    ensures { Gives TextFault.NoMemory (λ p. p) result
        (nin_of MAX_SIDE (map shown_line lines.now)) }
{
    let ((a, b), section) = size_line(lines)?;
    let count = usize::from(a) + usize::from(b);
    let clue_lines = section_lines(alloc, count, section)?.ok_or(TextFault::BadCount)?;
    let clues = section_clues(alloc, &clue_lines)?;
    Ok(orient(a, b, clues)?)
}

/// Reads a puzzle in the format `.nin`: a line with the two sizes, then the clue lines of the rows
/// and of the columns. The first size is the width, unless only with the other order each clue fits
/// its line and the row clues add up to as many filled cells as the column clues. A text with
/// faults fails with the first of them in the order of `TextFault`.
pub fn read_nin(alloc: Global, bytes: &[u8]) -> Result<Puzzle, TextFault>
    ensures answer { Gives TextFault.NoMemory (λ p. p) result (read_nin MAX_SIDE bytes.now) }
    // `NoMemory` is never returned in place of this fault.
    ensures too_long { MAX_PUZZLE_LEN < length bytes.now → result ≡ Err TextFault.TooLong }
{
    if bytes.len() > MAX_PUZZLE_LEN {
        return Err(TextFault::TooLong);
    }
    if let Some(puzzle) = quick_nin(alloc, bytes) {
        return Ok(puzzle);
    }
    let lines = all_lines(alloc, bytes)?;
    nin_of(alloc, &lines)
}
