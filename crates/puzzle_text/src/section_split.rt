//! Splits the lines of a `.non` text into its sections.

ghost use Rattle.std.specs.Prelude.{◌≡◌, map, IfOk, OnOk};
ghost use Rattle.std.specs.Str.{str_to_ascii_lowercase};
ghost use Rattle.puzzle_text.specs.Non.{placed, sections_of};
ghost use Rattle.puzzle_text.specs.steps.SectionSplit.{IsSectionOfKeyword, with_line};
ghost use Rattle.puzzle_text.specs.steps.Shown.{shown_line, shown_sections};

use crate::keywords::{keyword, same_word};
use crate::lines::{TextLine, is_hash};
use grid_core::NoMemory;
use std::alloc::Global;

/// The section that the lines below a keyword line belong to.
#[derive(Clone, Copy)]
pub(crate) enum SectionKind {
    Rows,
    Columns,
    /// Neither section.
    Other,
}

/// The lines of both sections, and the number of the first stray line: one that is not blank and
/// belongs to neither section. Keyword lines and comments are in no section, and not stray.
#[derive(Drop)]
pub(crate) struct Sections<'a> {
    pub rows: Vec<TextLine<'a>>,
    pub columns: Vec<TextLine<'a>>,
    pub stray: Option<u32>,
}

/// Returns the section that a keyword begins.
pub(crate) fn section_of_keyword(word: &[u8]) -> SectionKind
    ensures { IsSectionOfKeyword (str_to_ascii_lowercase word.now) result }
{
    if same_word(word, b"rows") {
        return SectionKind::Rows;
    }
    if same_word(word, b"columns") {
        return SectionKind::Columns;
    }
    SectionKind::Other
}

impl<'a> Sections<'a> {
    /// Appends a line to its section. If it belongs to none, records its number as that of the
    /// first stray line, unless it is blank or an earlier line is stray.
    fn put(&mut self, kind: SectionKind, line: TextLine<'a>) -> Result<(), NoMemory>
        ensures { OnOk result (shown_sections self.new
            ≡ with_line (shown_sections self.old) kind (shown_line line.entry)) }
    {
        match kind {
            SectionKind::Rows => self.rows.push(line)?,
            SectionKind::Columns => self.columns.push(line)?,
            SectionKind::Other => {
                if self.stray.is_none() && !line.text.is_empty() {
                    self.stray = Some(line.number);
                }
            }
        }
        Ok(())
    }
}

/// Splits the lines of a text into its sections.
#[tactic(auto, using(crate::proofs::SectionsLemmas::nothing_above))]
pub(crate) fn sections_of<'a>(
    alloc: Global,
    lines: &[TextLine<'a>],
) -> Result<Sections<'a>, NoMemory>
    ensures { IfOk result
        (λ found. shown_sections found ≡ sections_of (placed (map shown_line lines.now))) }
{
    // Each list gets capacity for all lines, so that none has to grow.
    let mut sections = Sections {
        rows: Vec::with_capacity(alloc, lines.len())?,
        columns: Vec::with_capacity(alloc, lines.len())?,
        stray: None,
    };
    let mut kind = SectionKind::Other;
    for line in lines {
        let word = keyword(line);
        if !word.is_empty() {
            // Each keyword line ends the section above it, even if it begins none.
            kind = section_of_keyword(word);
        } else if !is_hash(line) {
            sections.put(kind, *line)?;
        }
    }
    Ok(sections)
}
