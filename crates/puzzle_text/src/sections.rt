//! Selects the clue lines of a section. A blank line in it is either an empty clue or no clue line;
//! the number of clue lines that the sizes require decides which.

ghost use Rattle.std.specs.Prelude.{◌≡◌, ◌==◌, ◌<◌, ◌^◌, not, filter, map, length, count_by, drop, take, IfOk, IfSome};
ghost use Rattle.std.specs.List.{list_all};
ghost use Rattle.std.specs.Option.{option_map};
ghost use Rattle.puzzle_text.specs.Counts.{clue_line_count};
ghost use Rattle.puzzle_text.specs.Lines.{is_blank_line, is_non_blank};
ghost use Rattle.puzzle_text.specs.Sections.{section_lines};
ghost use Rattle.puzzle_text.specs.steps.Sections.{leading_lines};
ghost use Rattle.puzzle_text.specs.steps.Shown.{shown_section_lines, shown_line};

use crate::lines::TextLine;
use grid_core::NoMemory;
use std::alloc::Global;

/// The clue lines of a section.
#[derive(Drop)]
pub(crate) enum SectionLines<'a, 'b> {
    /// A slice of the section's lines.
    Slice(&'b [TextLine<'a>]),
    /// A list of the section's non-blank lines.
    NonBlank(Vec<TextLine<'a>>),
}

/// Returns how many of the lines are not blank.
pub(crate) fn non_blank_count(section: &[TextLine<'_>]) -> usize
    ensures { result ≡ count_by (λ line. is_non_blank (shown_line line)) section.now }
{
    section.iter().filter(|line| !line.text.is_empty()).count()
}

/// Returns the lines that are not blank.
fn non_blank_lines<'a>(
    alloc: Global,
    section: &[TextLine<'a>],
) -> Result<Vec<TextLine<'a>>, NoMemory>
    ensures { IfOk result
        (λ non_blank. non_blank.items
        ≡ filter (λ line. is_non_blank (shown_line line)) section.now) }
{
    let non_blank = section
        .iter()
        .copied()
        .filter(|line| !line.text.is_empty())
        .collect(alloc)?;
    Ok(non_blank)
}

fn are_blank(lines: &[TextLine<'_>]) -> bool
    ensures { result ≡ list_all (λ line. is_blank_line (shown_line line)) lines.now }
{
    lines.iter().all(|line| line.text.is_empty())
}

/// Returns the first `count` lines of a section, if it has as many and all lines after them are
/// blank.
#[tactic(auto, using(crate::proofs::SectionsLemmas::leading_lines_are))]
fn leading_lines<'a, 'b>(count: usize, section: &'b [TextLine<'a>]) -> Option<&'b [TextLine<'a>]>
    ensures { option_map (λ first. map shown_line first.now) result
        ≡ leading_lines count (map shown_line section.now) }
{
    let (first, others) = section.split_at_checked(count)?;
    are_blank(others).then_some(first)
}

/// Returns the `count` clue lines of a section: its non-blank lines, if there are `count` of them;
/// otherwise its first `count` lines, if only blank lines follow; otherwise `None`. The second case
/// is tested first, since it allocates nothing. If both cases apply they select the same lines.
#[tactic(auto, using(crate::proofs::SectionsLemmas::leading_lines_suffice, crate::proofs::SectionsLemmas::no_section_lines, crate::proofs::SectionsLemmas::section_lines_non_blank, crate::proofs::SectionsLemmas::lengths))]
pub(crate) fn section_lines<'a, 'b>(
    alloc: Global,
    count: usize,
    section: &'b [TextLine<'a>],
) -> Result<Option<SectionLines<'a, 'b>>, NoMemory>
    ensures lines { IfOk result
        (λ found. option_map shown_section_lines found
        ≡ section_lines count (map shown_line section.now)) }
    ensures length { IfOk result
        (λ found. IfSome found (λ clue_lines. length (shown_section_lines clue_lines) ≡ count)) }
{
    if let Some(first) = leading_lines(count, section) {
        return Ok(Some(SectionLines::Slice(first)));
    }
    if non_blank_count(section) != count {
        return Ok(None);
    }
    let non_blank = non_blank_lines(alloc, section)?;
    Ok(Some(SectionLines::NonBlank(non_blank)))
}

/// Returns how many clue lines a section has that should have `wanted`: as many if `section_lines`
/// finds them, and otherwise the number of its non-blank lines.
#[tactic(auto, using(crate::proofs::SectionsLemmas::leading_lines_suffice, crate::proofs::SectionsLemmas::no_section_lines, crate::proofs::SectionsLemmas::lengths))]
pub(crate) fn clue_line_count(wanted: usize, section: &[TextLine<'_>]) -> usize
    ensures { result ≡ clue_line_count wanted (map shown_line section.now) }
{
    match leading_lines(wanted, section) {
        Some(_) => wanted,
        None => non_blank_count(section),
    }
}
