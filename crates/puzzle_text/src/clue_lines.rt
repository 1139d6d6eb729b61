//! Parses clue lines.

ghost use Rattle.std.specs.Prelude.{◌≡◌, [], map, length, vec_capacity, vec_len, IfOk, Some, None, if◌then◌else◌};
ghost use Rattle.puzzle_text.specs.Answers.{Gives};
ghost use Rattle.puzzle_text.specs.ClueLines.{clue_of, clue_of_numbers, clues_of, numbers_within};
ghost use Rattle.puzzle_text.specs.Non.{both_clues};
ghost use Rattle.puzzle_text.specs.Numbers.{pieces};
ghost use Rattle.puzzle_text.specs.steps.Shown.{shown_section_lines, shown_line};

use crate::faults::TextFault;
use crate::lines::TextLine;
use crate::numbers::{first_number, skip_separators};
use crate::sections::SectionLines;
use grid_core::{Clue, ClueFault, MAX_SIDE, NoMemory};
use std::alloc::Global;

/// Parses the numbers of a text line into `numbers`, whose old elements are removed. Returns
/// whether each piece of the line is a number of at most `MAX_SIDE`; if not, `numbers` holds
/// the numbers before the first other piece.
fn read_numbers(text: &[u8], numbers: &mut Vec<u16>) -> Result<bool, NoMemory>
    ensures { IfOk result (λ all. (if all then Some numbers.new.items else None)
        ≡ numbers_within MAX_SIDE (pieces text.now)) }
{
    numbers.clear();
    let mut rest = skip_separators(text);
    'pieces: while !rest.is_empty() {
        let Some((number, after)) = first_number(MAX_SIDE, rest) else {
            return Ok(false);
        };
        numbers.push(number)?;
        rest = skip_separators(after);
    }
    Ok(true)
}

/// Returns the clue with these numbers, or `None` if they are not a clue. A single 0 stands for the
/// empty clue.
fn clue_of_numbers(alloc: Global, numbers: &[u16]) -> Result<Option<Clue>, NoMemory>
    ensures { IfOk result (λ found. found ≡ clue_of_numbers MAX_SIDE numbers.now) }
{
    let lengths: &[u16] = match numbers {
        [0] => &[],
        all => all,
    };
    match Clue::from_numbers(alloc, lengths) {
        Ok(clue) => Ok(Some(clue)),
        Err(ClueFault::BadNumber) => Ok(None),
        Err(ClueFault::NoMemory) => Err(NoMemory),
    }
}

/// Returns the clue in a line's text, or `None` if it is not a clue. `numbers` is a buffer for its
/// numbers.
fn clue_of(alloc: Global, text: &[u8], numbers: &mut Vec<u16>) -> Result<Option<Clue>, NoMemory>
    ensures { IfOk result (λ found. found ≡ clue_of MAX_SIDE text.now) }
{
    if read_numbers(text, numbers)? {
        clue_of_numbers(alloc, numbers)
    } else {
        Ok(None)
    }
}

/// Returns an empty list with a capacity of `count` elements. Fails with `NoMemory` if that
/// allocation fails.
pub(crate) fn vec_with_capacity<T: Drop>(alloc: Global, count: usize) -> Result<Vec<T>, NoMemory>
    ensures items { IfOk result (λ list. list.items ≡ []) }
    ensures len { IfOk result (λ list. vec_len list ≡ 0) }
    ensures capacity { IfOk result (λ list. vec_capacity list ≡ count) }
{
    Ok(Vec::with_capacity(alloc, count)?)
}

/// Returns the clue of each line, in order. Fails with `BadNumber` at the first line that is not a
/// clue.
fn clues_of(alloc: Global, lines: &[TextLine<'_>]) -> Result<Vec<Clue>, TextFault>
    ensures clues { Gives TextFault.NoMemory (λ clues. clues.items) result
        (clues_of MAX_SIDE (map shown_line lines.now)) }
    ensures length { IfOk result (λ clues. length clues.items ≡ length lines.now) }
{
    let mut clues = vec_with_capacity(alloc, lines.len())?;
    // One buffer for the numbers of each line in turn.
    let mut numbers = vec_with_capacity(alloc, 16)?;
    for line in lines {
        let Some(clue) = clue_of(alloc, line.text, &mut numbers)? else {
            return Err(TextFault::BadNumber(line.number));
        };
        clues.push_reserved(clue);
    }
    Ok(clues)
}

/// Returns the clue of each clue line of a section, in order. Fails with `BadNumber` at the first
/// line that is not a clue.
pub(crate) fn section_clues(
    alloc: Global,
    clue_lines: &SectionLines<'_, '_>,
) -> Result<Vec<Clue>, TextFault>
    ensures clues { Gives TextFault.NoMemory (λ clues. clues.items) result
        (clues_of MAX_SIDE (shown_section_lines clue_lines.now)) }
    ensures length { IfOk result
        (λ clues. length clues.items ≡ length (shown_section_lines clue_lines.now)) }
{
    match clue_lines {
        SectionLines::Slice(lines) => clues_of(alloc, lines),
        SectionLines::NonBlank(lines) => clues_of(alloc, lines),
    }
}

/// Returns the row clues and the column clues. The section that comes first in the text is parsed
/// first, so that `BadNumber` has the number of the first bad line.
pub(crate) fn both_clues(
    alloc: Global,
    rows_first: bool,
    rows: &SectionLines<'_, '_>,
    columns: &SectionLines<'_, '_>,
) -> Result<(Vec<Clue>, Vec<Clue>), TextFault>
    ensures answer { Gives TextFault.NoMemory (λ clues. (clues.0.items, clues.1.items)) result
        (both_clues MAX_SIDE rows_first
        (shown_section_lines rows.now) (shown_section_lines columns.now)) }
    ensures rows { IfOk result
        (λ clues. length clues.0.items ≡ length (shown_section_lines rows.now)) }
    ensures columns { IfOk result
        (λ clues. length clues.1.items ≡ length (shown_section_lines columns.now)) }
{
    if rows_first {
        let row_clues = section_clues(alloc, rows)?;
        let column_clues = section_clues(alloc, columns)?;
        Ok((row_clues, column_clues))
    } else {
        let column_clues = section_clues(alloc, columns)?;
        let row_clues = section_clues(alloc, rows)?;
        Ok((row_clues, column_clues))
    }
}
