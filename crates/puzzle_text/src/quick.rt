//! The fast path: readers for texts in their usual form, which parse a text's bytes in one pass,
//! with the parsers of `fast_lines` for clue lines. What a fast reader doesn't accept, be it a
//! fault or an unusual line, the general reader reads from the start.

ghost use Rattle.std.specs.Prelude.{◌≡◌, ◌≤◌, length, map, IfOk, IfSome, Ok};
ghost use Rattle.puzzle_text.specs.Mk.{read_mk};
ghost use Rattle.puzzle_text.specs.Nin.{read_nin};
ghost use Rattle.puzzle_text.specs.Non.{build_puzzle, read_non, Sections};
ghost use Rattle.puzzle_text.specs.steps.Lines.{HaveNoFeed};
ghost use Rattle.puzzle_text.specs.steps.Shown.{shown_keyword};
ghost use Rattle.puzzle_text.specs.steps.Fast.{HaveClues};

use crate::fast_lines::{hash_line, read_clue_lines, read_sizes};
use crate::fast_sections::{FastSections, fast_sections_of};
use crate::faults::TextFault;
use crate::limits::MAX_PUZZLE_LEN;
use crate::non::{outline_of, puzzle_of_clues};
use crate::orientation::orient;
use crate::parts::puzzle_from_parts;
use grid_core::{MAX_SIDE, Puzzle, Texts};
use std::alloc::Global;

/// Builds the puzzle from the keyword lines and clues that the fast path collected from a `.non`
/// text. Any error sends the text to the general reader, which finds the fault to be reported.
fn fast_puzzle(alloc: Global, fast_sections: FastSections<'_>) -> Result<Puzzle, TextFault>
    requires { HaveNoFeed (map shown_keyword fast_sections.keyword_lines.items) }
    ensures { IfOk result (λ p. (sections : Sections)
        → HaveClues sections fast_sections.entry.rows.items fast_sections.entry.columns.items
        → build_puzzle MAX_SIDE sections
        (map shown_keyword fast_sections.entry.keyword_lines.items)
        ≡ Ok p) }
{
    let FastSections {
        keyword_lines,
        rows,
        columns,
    } = fast_sections;
    // There is no stray line, since the fast path accepts none.
    let ((width, height), _) = outline_of(&keyword_lines, None)?;
    if rows.len() != usize::from(height) || columns.len() != usize::from(width) {
        return Err(TextFault::BadCount);
    }
    puzzle_of_clues(alloc, &keyword_lines, width, height, rows, columns)
}

/// Reads a `.non` text in its usual form: `height` is above `rows` and `width` above `columns`, and
/// the clue lines of a section follow its keyword line, with no other line before or between them.
/// All other keyword lines may be in any order. If it returns a puzzle, `read_non` returns the
/// same.
#[tactic(auto, using(crate::proofs::FastLines::kept_clean))]
pub(crate) fn quick_non(alloc: Global, bytes: &[u8]) -> Option<Puzzle>
    requires { length bytes.now ≤ MAX_PUZZLE_LEN }
    ensures { IfSome result (λ p. read_non MAX_SIDE bytes.now ≡ Ok p) }
{
    fast_puzzle(alloc, fast_sections_of(alloc, bytes)?).ok()
}

/// Reads a `.mk` text in its usual form: the height comes first, the line between the sections is
/// just `#`, and there is no other line than those of the sizes and the clues. If it returns a
/// puzzle, `read_mk` returns the same.
pub(crate) fn quick_mk(alloc: Global, bytes: &[u8]) -> Option<Puzzle>
    requires { length bytes.now ≤ MAX_PUZZLE_LEN }
    ensures { IfSome result (λ p. read_mk MAX_SIDE bytes.now ≡ Ok p) }
{
    let ((height, width), after) = read_sizes(bytes)?;
    let (rows, middle) = read_clue_lines(alloc, height, after)?;
    let (columns, rest) = read_clue_lines(alloc, width, hash_line(middle)?)?;
    if !rest.is_empty() {
        return None;
    }
    Some(puzzle_from_parts(width, height, rows, columns, Texts::none(), None))
}

/// Reads a `.nin` text in its usual form: there is no other line than those of the sizes and the
/// clues. If it returns a puzzle, `read_nin` returns the same.
pub(crate) fn quick_nin(alloc: Global, bytes: &[u8]) -> Option<Puzzle>
    requires { length bytes.now ≤ MAX_PUZZLE_LEN }
    ensures { IfSome result (λ p. read_nin MAX_SIDE bytes.now ≡ Ok p) }
{
    let ((a, b), after) = read_sizes(bytes)?;
    let (clues, rest) = read_clue_lines(alloc, a + b, after)?;
    if !rest.is_empty() {
        return None;
    }
    orient(a, b, clues).ok()
}
