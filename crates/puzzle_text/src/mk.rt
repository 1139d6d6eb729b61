//! The reader for the format `.mk`.

ghost use Rattle.std.specs.Prelude.{◌≡◌, ◌+◌, ◌<◌, ◌++◌, map, length, Err, IfOk, IfSome};
ghost use Rattle.std.specs.List.{position};
ghost use Rattle.std.specs.Option.{option_map};
ghost use Rattle.grid_core.specs.PartialGrid.{IsSize};
ghost use Rattle.puzzle_text.specs.Answers.{Gives};
ghost use Rattle.puzzle_text.specs.Lines.{is_hash};
ghost use Rattle.puzzle_text.specs.Mk.{at_hash, before_hash, section_lines_of_both, mk_of, puzzle_of, read_mk};
ghost use Rattle.puzzle_text.specs.steps.Shown.{shown_section_lines, shown_line};

use crate::clue_lines::both_clues;
use crate::faults::TextFault;
use crate::limits::MAX_PUZZLE_LEN;
use crate::lines::{TextLine, all_lines, is_hash};
use crate::parts::puzzle_from_parts;
use crate::quick::quick_mk;
use crate::sections::{SectionLines, section_lines};
use crate::sizes::size_line;
use grid_core::{MAX_SIDE, NoMemory, Puzzle, Texts};
use std::alloc::Global;

fn hash_place(lines: &[TextLine<'_>]) -> Option<usize>
    ensures { result ≡ position (λ line. is_hash (shown_line line)) lines.now }
{
    lines.iter().position(|line| is_hash(line))
}

/// Returns the lines before and the lines after the first one that begins with `#`, or `None` if
/// there is none.
#[tactic(auto, using(crate::proofs::ParsedLines::at_hash_found, crate::proofs::ParsedLines::at_hash_none))]
pub(crate) fn at_hash<'a, 'b>(
    lines: &'b [TextLine<'a>],
) -> Option<(&'b [TextLine<'a>], &'b [TextLine<'a>])>
    ensures { option_map (λ parts. (map shown_line parts.0.now, map shown_line parts.1.now)) result
        ≡ at_hash (map shown_line lines.now) }
{
    let place = hash_place(lines)?;
    Some((&lines[..place], &lines[place + 1..]))
}

#[tactic(auto, using(crate::proofs::ParsedLines::before_hash_found, crate::proofs::ParsedLines::before_hash_none))]
pub(crate) fn before_hash<'a, 'b>(lines: &'b [TextLine<'a>]) -> &'b [TextLine<'a>]
    ensures { map shown_line result.now ≡ before_hash (map shown_line lines.now) }
{
    match hash_place(lines) {
        Some(place) => &lines[..place],
        None => lines,
    }
}

/// Returns the clue lines of both sections for a puzzle of these sizes, or `None` if one of the
/// sections doesn't have as many as its size.
fn section_lines_of_both<'a, 'b>(
    alloc: Global,
    width: u16,
    height: u16,
    rows: &'b [TextLine<'a>],
    columns: &'b [TextLine<'a>],
) -> Result<Option<(SectionLines<'a, 'b>, SectionLines<'a, 'b>)>, NoMemory>
    ensures lines { IfOk result (λ found.
        option_map (λ clue_lines. shown_section_lines clue_lines.0
        ++ shown_section_lines clue_lines.1) found
        ≡ section_lines_of_both width height
        (map shown_line rows.now) (map shown_line columns.now)) }
    ensures length { IfOk result (λ found. IfSome found (λ clue_lines.
        (length (shown_section_lines clue_lines.0) ≡ height)
        × (length (shown_section_lines clue_lines.1) ≡ width))) }
{
    let Some(row_lines) = section_lines(alloc, usize::from(height), rows)? else {
        return Ok(None);
    };
    let Some(column_lines) = section_lines(alloc, usize::from(width), columns)? else {
        return Ok(None);
    };
    Ok(Some((row_lines, column_lines)))
}

/// Parses the clue lines of both sections into a puzzle of these sizes. Fails with `BadNumber` at
/// the first line that is not a clue.
#[tactic(auto, using(crate::proofs::ParsedLines::puzzle_of_parts, crate::proofs::ParsedLines::puzzle_of_both))]
fn puzzle_of(
    alloc: Global,
    width: u16,
    height: u16,
    rows: &SectionLines<'_, '_>,
    columns: &SectionLines<'_, '_>,
) -> Result<Puzzle, TextFault>
    requires size { IsSize width height }
    requires rows { length (shown_section_lines rows.now) ≡ height }
    requires columns { length (shown_section_lines columns.now) ≡ width }
    ensures { Gives TextFault.NoMemory (λ p. p) result
        (puzzle_of MAX_SIDE width height
        (shown_section_lines rows.now ++ shown_section_lines columns.now)) }
{
    let (rows, columns) = both_clues(alloc, true, rows, columns)?;
    Ok(puzzle_from_parts(width, height, rows, columns, Texts::none(), None))
}

fn mk_of(alloc: Global, lines: &[TextLine<'_>]) -> Result<Puzzle, TextFault>
    ensures { Gives TextFault.NoMemory (λ p. p) result (mk_of MAX_SIDE (map shown_line lines.now)) }
{
    let ((a, b), section) = size_line(lines)?;
    let (rows, after) = at_hash(section).ok_or(TextFault::NoSection)?;
    let columns = before_hash(after);
    // The first size is the height; the other order is for texts in which that doesn't fit.
    if let Some((row_lines, column_lines)) = section_lines_of_both(alloc, b, a, rows, columns)? {
        return puzzle_of(alloc, b, a, &row_lines, &column_lines);
    }
    if let Some((row_lines, column_lines)) = section_lines_of_both(alloc, a, b, rows, columns)? {
        return puzzle_of(alloc, a, b, &row_lines, &column_lines);
    }
    Err(TextFault::BadCount)
}

/// Reads a puzzle in the format `.mk`: a line with the two sizes, the clue lines of the rows, a
/// line that begins with `#`, and the clue lines of the columns; a further line that begins with
/// `#` and all lines below it are ignored. The first size is the height, unless only with the other
/// order both sections have as many clue lines as their size. A text with faults fails with the
/// first of them in the order of `TextFault`.
pub fn read_mk(alloc: Global, bytes: &[u8]) -> Result<Puzzle, TextFault>
    ensures answer { Gives TextFault.NoMemory (λ p. p) result (read_mk MAX_SIDE bytes.now) }
    // `NoMemory` is never returned in place of this fault.
    ensures too_long { MAX_PUZZLE_LEN < length bytes.now → result ≡ Err TextFault.TooLong }
{
    if bytes.len() > MAX_PUZZLE_LEN {
        return Err(TextFault::TooLong);
    }
    if let Some(puzzle) = quick_mk(alloc, bytes) {
        return Ok(puzzle);
    }
    let lines = all_lines(alloc, bytes)?;
    mk_of(alloc, &lines)
}
