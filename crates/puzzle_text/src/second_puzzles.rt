//! Recognizes a second puzzle below the first one in a refused `.mk` or `.nin` text.

ghost use Rattle.std.specs.Prelude.{◌≡◌, filter, map, slice_get};
ghost use Rattle.std.specs.Option.{option_map};
ghost use Rattle.puzzle_text.specs.Lines.{is_non_blank};
ghost use Rattle.puzzle_text.specs.SecondPuzzles.{second_mk, second_nin, sizes_below};
ghost use Rattle.puzzle_text.specs.steps.Shown.{shown_line};

use crate::forms::TextForm;
use crate::lines::TextLine;
use crate::mk::at_hash;
use crate::sections::non_blank_count;
use crate::sizes::{size_line, two_sizes};
use grid_core::MAX_SIDE;

/// Returns the line with this index among the lines that are not blank.
#[tactic(auto, using(crate::proofs::SectionsLemmas::slice_get_below))]
fn nth_non_blank<'a>(index: usize, lines: &[TextLine<'a>]) -> Option<TextLine<'a>>
    ensures { option_map shown_line result
        ≡ slice_get (filter is_non_blank (map shown_line lines.now)) index }
{
    let mut before = index;
    let mut rest = lines;
    while let [line, others @ ..] = rest {
        if !line.text.is_empty() {
            if before == 0 {
                return Some(*line);
            }
            before -= 1;
        }
        rest = others;
    }
    None
}

/// Returns the line of index `count` among the lines of a section that are not blank, with its two
/// sizes, if it has two and nothing else.
fn sizes_below<'a>(count: usize, section: &[TextLine<'a>]) -> Option<(TextLine<'a>, (u16, u16))>
    ensures { option_map (λ found. (shown_line found.0, found.1)) result
        ≡ sizes_below MAX_SIDE count (map shown_line section.now) }
{
    let line = nth_non_blank(count, section)?;
    Some((line, two_sizes(line.text).ok()?))
}

/// Returns the form of an `.mk` text that has a second puzzle below the first one: the next line
/// after the clue lines of the first puzzle's columns has two sizes, and a line below it begins with
/// `#`. Blank lines are not counted, and the first size of the text is taken as the height.
pub(crate) fn second_mk(lines: &[TextLine<'_>]) -> Option<TextForm>
    ensures { result ≡ second_mk MAX_SIDE (map shown_line lines.now) }
{
    let ((_, width), section) = size_line(lines).ok()?;
    let (_, after) = at_hash(section)?;
    let (columns, _) = at_hash(after)?;
    let (line, _) = sizes_below(usize::from(width), columns)?;
    Some(TextForm::SecondPuzzle { line: line.number })
}

/// Returns the form of a `.nin` text that has a second puzzle below the first one: the next line
/// after the clue lines of the first puzzle has two sizes, and just as many lines as these require
/// come below it. Blank lines are not counted.
#[tactic(auto, using(crate::proofs::SectionsLemmas::lengths))]
pub(crate) fn second_nin(lines: &[TextLine<'_>]) -> Option<TextForm>
    ensures { result ≡ second_nin MAX_SIDE (map shown_line lines.now) }
{
    let ((a, b), section) = size_line(lines).ok()?;
    let count = usize::from(a) + usize::from(b);
    let (line, (c, d)) = sizes_below(count, section)?;
    let whole = count + usize::from(c) + usize::from(d) + 1 == non_blank_count(section);
    whole.then_some(TextForm::SecondPuzzle { line: line.number })
}
