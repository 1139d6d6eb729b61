//! Finds keyword lines, and takes them apart.

ghost use Rattle.std.specs.Prelude.{◌≡◌, ◌==◌, ◌≤◌, map, filter, length, drop, take_while, slice_get, reverse, IfOk};
ghost use Rattle.std.specs.List.{prefix_len};
ghost use Rattle.std.specs.Option.{option_map};
ghost use Rattle.std.specs.Char.{is_ascii_alphabetic};
ghost use Rattle.std.specs.Str.{bytes_eq, str_to_ascii_lowercase};
ghost use Rattle.puzzle_text.specs.Lines.{is_empty};
ghost use Rattle.puzzle_text.specs.Keywords.{after_quote, before_quote, field_word, has_keyword, is_keyword_line, keyword, quoted, keyword_argument, quoted_text, with_keyword};
ghost use Rattle.puzzle_text.specs.steps.Shown.{shown_keyword, shown_line};

use crate::keyword_line::KeywordLine;
use crate::lines::{TextLine, trim};
use grid_core::{Field, NoMemory};
use std::alloc::Global;

/// The text fields, in the order in which they are written.
pub(crate) const FIELDS: [Field; 5] = [
    Field::Catalogue,
    Field::Title,
    Field::By,
    Field::Copyright,
    Field::License,
];

/// Returns the keyword of a text field, in lower case.
pub(crate) fn field_word(field: Field) -> &'static [u8]
    ensures word { result.now ≡ field_word field }
    ensures lower { str_to_ascii_lowercase result.now ≡ field_word field }
{
    match field {
        Field::Catalogue => b"catalogue",
        Field::Title => b"title",
        Field::By => b"by",
        Field::Copyright => b"copyright",
        Field::License => b"license",
    }
}

/// Returns how many ASCII letters a text begins with.
fn letters(text: &[u8]) -> usize
    ensures count { result ≡ prefix_len is_ascii_alphabetic text.now }
    ensures within { result ≤ length text.now }
{
    for (place, byte) in text.iter().enumerate() {
        if !byte.is_ascii_alphabetic() {
            return place;
        }
    }
    text.len()
}

/// Returns the ASCII letters that a line begins with; empty if it is no keyword line.
pub(crate) fn keyword<'a>(line: &TextLine<'a>) -> &'a [u8]
    ensures { str_to_ascii_lowercase result.now ≡ keyword (shown_line line.now) }
{
    &line.text[..letters(line.text)]
}

/// Returns the keyword lines among these lines, in order.
pub(crate) fn keyword_lines<'a>(
    alloc: Global,
    lines: &[TextLine<'a>],
) -> Result<Vec<KeywordLine<'a>>, NoMemory>
    ensures { IfOk result (λ found. map shown_keyword found.items
        ≡ filter is_keyword_line (map shown_line lines.now)) }
{
    let mut found = Vec::with_capacity(alloc, 16)?;
    for line in lines {
        let word = keyword(line);
        if !word.is_empty() {
            found.push(KeywordLine { word, line: *line })?;
        }
    }
    Ok(found)
}

/// Returns a keyword line's argument: the text after its keyword, without spaces and tabs at both
/// ends.
pub(crate) fn keyword_argument<'a>(found: &KeywordLine<'a>) -> &'a [u8]
    ensures { result.now ≡ keyword_argument (shown_keyword found.now) }
{
    trim(&found.line.text[found.word.len()..])
}

/// Reports whether two words are equal, ignoring the case of ASCII letters.
pub(crate) fn same_word(word: &[u8], other: &[u8]) -> bool
    ensures { result
        ≡ bytes_eq (str_to_ascii_lowercase word.now) (str_to_ascii_lowercase other.now) }
{
    word.eq_ignore_ascii_case(other)
}

fn has_keyword(word: &[u8], line: &KeywordLine<'_>) -> bool
    ensures { result ≡ has_keyword (str_to_ascii_lowercase word.now) (shown_keyword line.now) }
{
    // The lengths and the exact bytes are compared first, which costs less than ignoring the case.
    line.word.len() == word.len() && (line.word == word || same_word(line.word, word))
}

/// Returns the line at index `place`, from 0, among those whose keyword is `word`, if there are
/// that many.
pub(crate) fn nth_with_keyword<'a, 'b>(
    word: &[u8],
    place: usize,
    lines: &'b [KeywordLine<'a>],
) -> Option<&'b KeywordLine<'a>>
    ensures { option_map (λ line. shown_keyword line.now) result
        ≡ slice_get (with_keyword (str_to_ascii_lowercase word.now)
        (map shown_keyword lines.now)) place }
{
    let mut rest = lines;
    let mut left = place;
    while let [line, others @ ..] = rest {
        if has_keyword(word, line) {
            if left == 0 {
                return Some(line);
            }
            left -= 1;
        }
        rest = others;
    }
    None
}

fn after_quote(bytes: &[u8]) -> Option<&[u8]>
    ensures { option_map (λ text. text.now) result ≡ after_quote bytes.now }
{
    let mut rest = bytes;
    while let [first, others @ ..] = rest {
        if *first == b'"' {
            return Some(others);
        }
        rest = others;
    }
    None
}

fn before_quote(bytes: &[u8]) -> Option<&[u8]>
    ensures { option_map (λ text. text.now) result ≡ before_quote bytes.now }
{
    let mut rest = bytes;
    while let [others @ .., last] = rest {
        if *last == b'"' {
            return Some(others);
        }
        rest = others;
    }
    None
}

/// Returns the text between the first and the last double quote, or all of `bytes` if there are
/// fewer than two.
fn quoted(bytes: &[u8]) -> &[u8]
    ensures { result.now ≡ quoted bytes.now }
{
    after_quote(bytes).and_then(before_quote).unwrap_or(bytes)
}

/// Returns the text of a field's line: its argument, without double quotes around it.
pub(crate) fn quoted_text<'a>(found: &KeywordLine<'a>) -> &'a [u8]
    ensures { result.now ≡ quoted_text (shown_keyword found.now) }
{
    quoted(keyword_argument(found))
}
