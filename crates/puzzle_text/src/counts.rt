//! Counts what a refused text has, and what it should have.

ghost use Rattle.std.specs.Prelude.{◌≡◌, map, IfOk, OnOk};
ghost use Rattle.puzzle_text.specs.Counts.{counts_of, goal_count, mk_count, nin_count, non_count, section_count};
ghost use Rattle.puzzle_text.specs.steps.Shown.{shown_line};

use crate::faults::TextFault;
use crate::formats::Format;
use crate::keywords::{keyword_lines, nth_with_keyword, quoted_text};
use crate::lines::TextLine;
use crate::mk::{at_hash, before_hash};
use crate::non::sizes_of;
use crate::section_split::sections_of;
use crate::sections::clue_line_count;
use crate::sizes::size_line;
use grid_core::{MAX_SIDE, NoMemory};
use std::alloc::Global;

/// How many of something a text has, and how many it should have.
#[derive(Clone, Copy, Debug, PartialEq, Eq)]
pub struct Count {
    pub found: usize,
    pub wanted: usize,
}

/// What a text has too few or too many of. A section has as many clue lines as it should have, if
/// its reader finds them, and otherwise as many as it has non-blank lines.
#[derive(Clone, Copy, Debug, PartialEq, Eq)]
pub enum TextCounts {
    /// In `.non` and `.mk`, the clue lines of each section. In `.mk` the first size is taken as the
    /// height.
    Sections { rows: Count, columns: Count },
    /// In `.nin`, the clue lines of the rows and the columns together.
    Together(Count),
    /// In `.non`, the characters of the goal.
    Goal(Count),
}

/// Counts the clue lines of a section that should have `wanted`.
fn section_count(wanted: usize, section: &[TextLine<'_>]) -> Count
    ensures { result ≡ section_count wanted (map shown_line section.now) }
{
    Count {
        found: clue_line_count(wanted, section),
        wanted,
    }
}

/// Counts the clue lines of a `.non` text, if its sizes can be read.
fn non_count(alloc: Global, lines: &[TextLine<'_>]) -> Result<Option<TextCounts>, NoMemory>
    ensures { IfOk result (λ counts. counts ≡ non_count MAX_SIDE (map shown_line lines.now)) }
{
    let keyword_lines = keyword_lines(alloc, lines)?;
    let Ok((width, height)) = sizes_of(&keyword_lines) else {
        return Ok(None);
    };
    let sections = sections_of(alloc, lines)?;
    Ok(Some(TextCounts::Sections {
        rows: section_count(usize::from(height), &sections.rows),
        columns: section_count(usize::from(width), &sections.columns),
    }))
}

/// Counts the characters of the goal of a `.non` text, if it has a goal and its sizes can be read.
fn goal_count(alloc: Global, lines: &[TextLine<'_>]) -> Result<Option<TextCounts>, NoMemory>
    ensures { IfOk result (λ counts. counts ≡ goal_count MAX_SIDE (map shown_line lines.now)) }
{
    let keyword_lines = keyword_lines(alloc, lines)?;
    let Ok((width, height)) = sizes_of(&keyword_lines) else {
        return Ok(None);
    };
    let Some(goal) = nth_with_keyword(b"goal", 0, &keyword_lines) else {
        return Ok(None);
    };
    Ok(Some(TextCounts::Goal(Count {
        found: quoted_text(goal).len(),
        wanted: usize::from(width) * usize::from(height),
    })))
}

/// Counts the clue lines of an `.mk` text, if it has two sizes and two sections.
fn mk_count(lines: &[TextLine<'_>]) -> Option<TextCounts>
    ensures { result ≡ mk_count MAX_SIDE (map shown_line lines.now) }
{
    let ((height, width), section) = size_line(lines).ok()?;
    let (rows, after) = at_hash(section)?;
    Some(TextCounts::Sections {
        rows: section_count(usize::from(height), rows),
        columns: section_count(usize::from(width), before_hash(after)),
    })
}

/// Counts the clue lines of a `.nin` text, if it has two sizes.
fn nin_count(lines: &[TextLine<'_>]) -> Option<TextCounts>
    ensures { result ≡ nin_count MAX_SIDE (map shown_line lines.now) }
{
    let ((a, b), section) = size_line(lines).ok()?;
    let wanted = usize::from(a) + usize::from(b);
    Some(TextCounts::Together(section_count(wanted, section)))
}

/// Counts what a fault says there is a wrong number of; `None` for a fault that says nothing of
/// the kind.
pub(crate) fn counts_of(
    alloc: Global,
    format: Format,
    fault: TextFault,
    lines: &[TextLine<'_>],
) -> Result<Option<TextCounts>, NoMemory>
    ensures { IfOk result (λ counts. counts
        ≡ counts_of MAX_SIDE format fault (map shown_line lines.now)) }
{
    match (format, fault) {
        (Format::Non, TextFault::BadCount) => non_count(alloc, lines),
        (Format::Non, TextFault::BadGoal(_)) => goal_count(alloc, lines),
        (Format::Mk, TextFault::BadCount) => Ok(mk_count(lines)),
        (Format::Nin, TextFault::BadCount) => Ok(nin_count(lines)),
        _ => Ok(None),
    }
}
