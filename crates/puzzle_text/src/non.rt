//! The reader for the format `.non`.

ghost use Rattle.std.specs.Prelude.{◌≡◌, ◌<◌, map, length, Err, IfOk, OnOk};
ghost use Rattle.std.specs.Str.{str_to_ascii_lowercase};
ghost use Rattle.grid_core.specs.Description.{IsDescription};
ghost use Rattle.grid_core.specs.Nonogram.{HasClueForEachLine};
ghost use Rattle.grid_core.specs.PartialGrid.{IsSize};
ghost use Rattle.puzzle_text.specs.Answers.{Gives};
ghost use Rattle.puzzle_text.specs.Keywords.{second_with};
ghost use Rattle.puzzle_text.specs.steps.Lines.{HaveNoFeed};
ghost use Rattle.puzzle_text.specs.Non.{bad_line, check_lines, least, least_of, non_of, number_of_line, outline_of, puzzle_of_clues, build_puzzle, read_non, repeated, rows_first, sizes_of, texts_of};
ghost use Rattle.puzzle_text.specs.steps.Shown.{shown_keyword, shown_line, shown_sections};

use crate::clue_lines::both_clues;
use crate::descriptions::{are_short, long_number, texts_of};
use crate::faults::TextFault;
use crate::goals::goal_of;
use crate::keyword_line::KeywordLine;
use crate::keywords::{FIELDS, keyword_argument, keyword_lines, nth_with_keyword};
use crate::limits::MAX_PUZZLE_LEN;
use crate::lines::{TextLine, all_lines};
use crate::parts::puzzle_from_parts;
use crate::quick::quick_non;
use crate::section_split::{Sections, sections_of};
use crate::sections::section_lines;
use crate::sizes::size_of;
use grid_core::{Clue, MAX_SIDE, Puzzle};
use std::alloc::Global;

/// Returns the lesser of two numbers, of which a missing one is ignored; `None` if both are
/// missing.
fn least(first: Option<u32>, second: Option<u32>) -> Option<u32>
    ensures { result ≡ least first second }
{
    match (first, second) {
        (Some(first), Some(second)) => Some(first.min(second)),
        (None, other) => other,
        (some, None) => some,
    }
}

/// Returns the least of these numbers, ignoring missing ones; `None` if all are missing.
fn least_of(numbers: &[Option<u32>]) -> Option<u32>
    ensures { result ≡ least_of numbers.now }
{
    match numbers {
        [] => None,
        [first, others @ ..] => least(*first, least_of(others)),
    }
}

/// Returns the number of the second line with the keyword `word`, if there is one.
fn second_number(lines: &[KeywordLine<'_>], word: &[u8]) -> Option<u32>
    ensures { result ≡ number_of_line
        (second_with (str_to_ascii_lowercase word.now) (map shown_keyword lines.now)) }
{
    Some(nth_with_keyword(word, 1, lines)?.line.number)
}

/// Returns the number that `BadLine` is to report: the least of `stray`, which is that of the first
/// stray line, and of those of the text fields' first lines whose texts are too long.
#[tactic(auto, using(crate::proofs::FeedsLemmas::short_texts))]
fn bad_line(keyword_lines: &[KeywordLine<'_>], stray: Option<u32>) -> Option<u32>
    ensures { result ≡ bad_line stray (map shown_keyword keyword_lines.now) }
{
    // A text is a part of its line, so if all lines are short enough, so are all texts, and no
    // field has to be looked for.
    if are_short(keyword_lines) {
        return stray;
    }
    let long = FIELDS.map(|field| long_number(keyword_lines, field));
    least(stray, least_of(&long))
}

/// Returns the number of the first line that repeats `width`, `height`, `rows` or `columns`.
fn repeated(lines: &[KeywordLine<'_>]) -> Option<u32>
    ensures { result ≡ repeated (map shown_keyword lines.now) }
{
    least_of(&[
        second_number(lines, b"width"),
        second_number(lines, b"height"),
        second_number(lines, b"rows"),
        second_number(lines, b"columns"),
    ])
}

/// Checks that there is no stray line, that no field's text is too long, and that no keyword is
/// repeated that may occur only once. `stray` is the number of the first stray line.
#[tactic(auto, using(crate::proofs::FeedsLemmas::lawful_texts))]
fn check_lines(keyword_lines: &[KeywordLine<'_>], stray: Option<u32>) -> Result<(), TextFault>
    requires { HaveNoFeed (map shown_keyword keyword_lines.now) }
    ensures answer { result ≡ check_lines stray (map shown_keyword keyword_lines.now) }
    ensures texts { OnOk result (IsDescription (texts_of (map shown_keyword keyword_lines.now))) }
{
    if let Some(number) = bad_line(keyword_lines, stray) {
        return Err(TextFault::BadLine(number));
    }
    if let Some(number) = repeated(keyword_lines) {
        return Err(TextFault::Twice(number));
    }
    Ok(())
}

/// Parses the width and the height. Fails with `NoSize` if one of the two lines is missing, and
/// otherwise with `BadSize` if one of the sizes is out of range.
pub(crate) fn sizes_of(lines: &[KeywordLine<'_>]) -> Result<(u16, u16), TextFault>
    ensures sizes { result ≡ sizes_of MAX_SIDE (map shown_keyword lines.now) }
    ensures range { IfOk result (λ sizes. IsSize sizes.0 sizes.1) }
{
    let width = nth_with_keyword(b"width", 0, lines).ok_or(TextFault::NoSize)?;
    let height = nth_with_keyword(b"height", 0, lines).ok_or(TextFault::NoSize)?;
    Ok((
        size_of(keyword_argument(width))?,
        size_of(keyword_argument(height))?,
    ))
}

/// Reports whether the rows section is before the columns section. Fails with `NoSection` if one of
/// them is missing.
fn rows_first(lines: &[KeywordLine<'_>]) -> Result<bool, TextFault>
    ensures { result ≡ rows_first (map shown_keyword lines.now) }
{
    let rows = nth_with_keyword(b"rows", 0, lines).ok_or(TextFault::NoSection)?;
    let columns = nth_with_keyword(b"columns", 0, lines).ok_or(TextFault::NoSection)?;
    Ok(rows.line.number < columns.line.number)
}

/// Checks the keyword lines. Returns the width and the height, and whether the rows section is
/// before the columns section. `stray` is the number of the first stray line.
pub(crate) fn outline_of(
    keyword_lines: &[KeywordLine<'_>],
    stray: Option<u32>,
) -> Result<((u16, u16), bool), TextFault>
    requires { HaveNoFeed (map shown_keyword keyword_lines.now) }
    ensures answer { result ≡ outline_of MAX_SIDE stray (map shown_keyword keyword_lines.now) }
    ensures range { IfOk result (λ outline. IsSize outline.0.0 outline.0.1) }
    ensures texts { OnOk result (IsDescription (texts_of (map shown_keyword keyword_lines.now))) }
{
    // In the order of `TextFault`, which decides the fault that is reported.
    let sizes = sizes_of(keyword_lines)?;
    let rows_first = rows_first(keyword_lines)?;
    check_lines(keyword_lines, stray)?;
    Ok((sizes, rows_first))
}

/// Builds the puzzle of these sizes and clues, with the goal and the texts from the keyword lines.
pub(crate) fn puzzle_of_clues(
    alloc: Global,
    keyword_lines: &[KeywordLine<'_>],
    width: u16,
    height: u16,
    rows: Vec<Clue>,
    columns: Vec<Clue>,
) -> Result<Puzzle, TextFault>
    requires size { IsSize width height }
    requires clues { HasClueForEachLine width height rows.items columns.items }
    requires texts { IsDescription (texts_of (map shown_keyword keyword_lines.now)) }
    ensures { Gives TextFault.NoMemory (λ p. p) result
        (puzzle_of_clues (width, height) (rows.items, columns.items)
        (map shown_keyword keyword_lines.now)) }
{
    let count = usize::from(width) * usize::from(height);
    let goal = goal_of(alloc, count, nth_with_keyword(b"goal", 0, keyword_lines))?;
    let texts = texts_of(alloc, keyword_lines)?;
    Ok(puzzle_from_parts(width, height, rows, columns, texts, goal))
}

/// Builds the puzzle of a text from its keyword lines and its sections. Fails with the text's first
/// fault.
fn build_puzzle(
    alloc: Global,
    keyword_lines: &[KeywordLine<'_>],
    sections: &Sections<'_>,
) -> Result<Puzzle, TextFault>
    requires { HaveNoFeed (map shown_keyword keyword_lines.now) }
    ensures { Gives TextFault.NoMemory (λ p. p) result
        (build_puzzle MAX_SIDE (shown_sections sections.now)
        (map shown_keyword keyword_lines.now)) }
{
    let ((width, height), rows_first) = outline_of(keyword_lines, sections.stray)?;
    let Some(rows) = section_lines(alloc, usize::from(height), &sections.rows)? else {
        return Err(TextFault::BadCount);
    };
    let Some(columns) = section_lines(alloc, usize::from(width), &sections.columns)? else {
        return Err(TextFault::BadCount);
    };
    let (rows, columns) = both_clues(alloc, rows_first, &rows, &columns)?;
    puzzle_of_clues(alloc, keyword_lines, width, height, rows, columns)
}

#[tactic(auto, using(crate::proofs::ParsedLines::parsed_of_kept, crate::proofs::FeedsLemmas::clean_filter))]
fn non_of(alloc: Global, lines: &[TextLine<'_>]) -> Result<Puzzle, TextFault>
    requires { HaveNoFeed (map shown_line lines.now) }
    ensures { Gives TextFault.NoMemory (λ p. p) result
        (non_of MAX_SIDE (map shown_line lines.now)) }
{
    let keyword_lines = keyword_lines(alloc, lines)?;
    let sections = sections_of(alloc, lines)?;
    build_puzzle(alloc, &keyword_lines, &sections)
}

/// Reads a puzzle in the format `.non`: keyword lines for the texts, the sizes and the goal, and a
/// section of clue lines each below `rows` and `columns`. A text with faults fails with the first
/// of them in the order of `TextFault`.
#[tactic(auto, using(crate::proofs::FeedsLemmas::lines_have_no_feed))]
pub fn read_non(alloc: Global, bytes: &[u8]) -> Result<Puzzle, TextFault>
    ensures answer { Gives TextFault.NoMemory (λ p. p) result (read_non MAX_SIDE bytes.now) }
    // `NoMemory` is never returned in place of this fault.
    ensures too_long { MAX_PUZZLE_LEN < length bytes.now → result ≡ Err TextFault.TooLong }
{
    if bytes.len() > MAX_PUZZLE_LEN {
        return Err(TextFault::TooLong);
    }
    if let Some(puzzle) = quick_non(alloc, bytes) {
        return Ok(puzzle);
    }
    let lines = all_lines(alloc, bytes)?;
    non_of(alloc, &lines)
}
