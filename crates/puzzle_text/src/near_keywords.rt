//! Finds keywords that are nearly those which a `.non` text has to have.

ghost use Rattle.std.specs.Prelude.{◌≡◌, ◌==◌, map};
ghost use Rattle.std.specs.Char.{to_ascii_lowercase};
ghost use Rattle.std.specs.Str.{str_to_ascii_lowercase};
ghost use Rattle.puzzle_text.specs.NearKeywords.{are_exchanged, begins_with_edit, is_near, near_line, needed_word};
ghost use Rattle.puzzle_text.specs.steps.Shown.{shown_keyword};

use crate::keyword_line::KeywordLine;
use crate::keywords::same_word;

/// A keyword that each `.non` text has to have.
#[derive(Clone, Copy, Debug, PartialEq, Eq)]
pub enum NeededKeyword {
    Width,
    Height,
    Rows,
    Columns,
}

impl NeededKeyword {
    /// Returns the keyword in lower case.
    pub fn word(self) -> &'static [u8]
        ensures word { result.now ≡ needed_word self }
        ensures lower { str_to_ascii_lowercase result.now ≡ needed_word self }
    {
        match self {
            NeededKeyword::Width => b"width",
            NeededKeyword::Height => b"height",
            NeededKeyword::Rows => b"rows",
            NeededKeyword::Columns => b"columns",
        }
    }
}

/// Reports whether two bytes are equal, ignoring the case of ASCII letters.
fn same_letter(a: u8, b: u8) -> bool
    ensures { result ≡ (to_ascii_lowercase a == to_ascii_lowercase b) }
{
    a.to_ascii_lowercase() == b.to_ascii_lowercase()
}

/// Reports whether two words are equal but for their first two letters, which are exchanged.
fn are_exchanged(word: &[u8], other: &[u8]) -> bool
    ensures { result ≡ are_exchanged
        (str_to_ascii_lowercase word.now) (str_to_ascii_lowercase other.now) }
{
    match (word, other) {
        ([a, b, after @ ..], [c, d, later @ ..]) => {
            same_letter(*a, *d) && same_letter(*b, *c) && same_word(after, later)
        }
        _ => false,
    }
}

/// Reports whether one edit at its start makes `word` the word `other`.
fn begins_with_edit(word: &[u8], other: &[u8]) -> bool
    ensures { result ≡ begins_with_edit
        (str_to_ascii_lowercase word.now) (str_to_ascii_lowercase other.now) }
{
    match (word, other) {
        ([], _) => other.len() == 1,
        (_, []) => word.len() == 1,
        ([_, after @ ..], [_, later @ ..]) => {
            same_word(after, later)
                || same_word(after, other)
                || same_word(word, later)
                || are_exchanged(word, other)
        }
    }
}

/// Reports whether one edit makes `word` the word `other`, ignoring the case of ASCII letters: one
/// letter is changed, dropped or added, or two neighbours are exchanged.
fn is_near(word: &[u8], other: &[u8]) -> bool
    ensures { result ≡ is_near
        (str_to_ascii_lowercase word.now) (str_to_ascii_lowercase other.now) }
{
    match (word, other) {
        ([first, after @ ..], [second, later @ ..]) if same_letter(*first, *second) => {
            is_near(after, later)
        }
        _ => begins_with_edit(word, other),
    }
}

/// Returns the number of the first line whose keyword is nearly `word`.
pub(crate) fn near_line(lines: &[KeywordLine<'_>], word: &[u8]) -> Option<u32>
    ensures { result ≡ near_line
        (str_to_ascii_lowercase word.now) (map shown_keyword lines.now) }
{
    let mut rest = lines;
    while let [found, others @ ..] = rest {
        if is_near(found.word, word) {
            return Some(found.line.number);
        }
        rest = others;
    }
    None
}
