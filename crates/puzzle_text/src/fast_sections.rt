//! The fast path for `.non`: collects the keyword lines of a text, and parses the
//! clues of its sections.

ghost use Rattle.std.specs.Prelude.{◌≡◌, ◌+◌, ◌<◌, ◌≤◌, ◌^◌, [], ◌∷◌, ◌++◌, length, map, IfSome, OnSome};
ghost use Rattle.puzzle_text.specs.steps.Shown.{shown_keyword};
ghost use Rattle.puzzle_text.specs.steps.Fast.{HasFastSections, KeepsOthers, ReadsClues, clues_of_kind};

use crate::fast_lines::read_clue_lines;
use crate::keyword_line::KeywordLine;
use crate::keywords::{keyword, keyword_argument, nth_with_keyword};
use crate::lines::{TextLine, is_hash, next_line};
use crate::section_split::{SectionKind, section_of_keyword};
use crate::sizes::size_of;
use grid_core::Clue;
use std::alloc::Global;

/// The keyword lines of a text in its usual form, and the clues of its sections.
#[derive(Drop)]
pub(crate) struct FastSections<'t> {
    pub keyword_lines: Vec<KeywordLine<'t>>,
    pub rows: Vec<Clue>,
    pub columns: Vec<Clue>,
}

/// Parses the clue lines of a section, which `text` begins with, into `section`. There have to be
/// as many as the size in the keyword line with this `word`. Returns how many there are, and the
/// text after them. `None` if `section` has clues already, since a repeated section is a fault.
fn read_section<'t>(
    alloc: Global,
    word: &[u8],
    keyword_lines: &[KeywordLine<'_>],
    section: &mut Vec<Clue>,
    text: &'t [u8],
) -> Option<(u32, &'t [u8])>
    requires { length text.now < 2 ^ 32 }
    ensures none { OnSome result (length section.old.items ≡ 0) }
    ensures clues { IfSome result (λ found. ReadsClues text.now section.new.items found.1.now) }
    ensures count { IfSome result (λ found. found.0 ≡ length section.new.items) }
    ensures within { IfSome result (λ found. found.0 + length found.1.now ≤ length text.now) }
{
    if !section.is_empty() {
        return None;
    }
    let size = size_of(keyword_argument(nth_with_keyword(word, 0, keyword_lines)?)).ok()?;
    let (clues, after) = read_clue_lines(alloc, size, text)?;
    let count = clues.len() as u32;
    *section = clues;
    Some((count, after))
}

impl<'t> FastSections<'t> {
    /// Adds a keyword line. If it begins a section, parses the section's clue lines too, which
    /// `text` begins with. Returns how many clue lines there are, and the text after them.
    fn add(
        &mut self,
        alloc: Global,
        kind: SectionKind,
        line: KeywordLine<'t>,
        text: &'t [u8],
    ) -> Option<(u32, &'t [u8])>
        requires { length text.now < 2 ^ 32 }
        ensures line { OnSome result (map shown_keyword self.new.keyword_lines.items
            ≡ map shown_keyword self.old.keyword_lines.items ++ shown_keyword line.entry ∷ []) }
        ensures others { OnSome result
            (KeepsOthers kind self.old.rows.items self.old.columns.items
            self.new.rows.items self.new.columns.items) }
        ensures clues { IfSome result (λ found. ReadsClues text.now
            (clues_of_kind kind self.new.rows.items self.new.columns.items) found.1.now) }
        ensures count { IfSome result (λ found. found.0
            ≡ length (clues_of_kind kind self.new.rows.items self.new.columns.items)) }
        ensures within { IfSome result (λ found. found.0 + length found.1.now ≤ length text.now) }
    {
        self.keyword_lines.push(line).ok()?;
        let lines = &self.keyword_lines;
        match kind {
            SectionKind::Rows => read_section(alloc, b"height", lines, &mut self.rows, text),
            SectionKind::Columns => read_section(alloc, b"width", lines, &mut self.columns, text),
            SectionKind::Other => Some((0, text)),
        }
    }
}

/// Collects the keyword lines and the clues of a text in its usual form. The clue lines of a
/// section follow its keyword line, as many as the size above requires; other lines are keyword
/// lines, comments or blank. `None` for any other text.
pub(crate) fn fast_sections_of<'t>(alloc: Global, text: &'t [u8]) -> Option<FastSections<'t>>
    requires { length text.now < 2 ^ 32 }
    ensures { IfSome result (λ sections.
        HasFastSections text.now (map shown_keyword sections.keyword_lines.items)
        sections.rows.items sections.columns.items) }
{
    let mut sections = FastSections {
        keyword_lines: Vec::with_capacity(alloc, 16).ok()?,
        rows: Vec::new(alloc),
        columns: Vec::new(alloc),
    };
    let mut number = 0u32;
    let mut below = text;
    'lines: while !below.is_empty() {
        let (text, after) = next_line(below);
        number += 1;
        below = after;
        let line = TextLine { number, text };
        let word = keyword(&line);
        if !word.is_empty() {
            let (count, after) = sections.add(
                alloc,
                section_of_keyword(word),
                KeywordLine { word, line },
                below,
            )?;
            number += count;
            below = after;
        } else if !line.text.is_empty() && !is_hash(&line) {
            // A stray line. A blank line is skipped: the section above has all its clue lines
            // already, and none of them is blank.
            return None;
        }
    }
    Some(sections)
}
