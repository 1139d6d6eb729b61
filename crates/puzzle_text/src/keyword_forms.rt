//! Recognizes from the keyword lines of a `.non` text why it is refused.

ghost use Rattle.std.specs.Prelude.{◌≡◌, map};
ghost use Rattle.puzzle_text.specs.KeywordForms.{form_of_keywords, is_above, is_whole_above, misspelt};
ghost use Rattle.puzzle_text.specs.NearKeywords.{needed_word};
ghost use Rattle.puzzle_text.specs.steps.Shown.{shown_keyword};

use crate::faults::TextFault;
use crate::forms::TextForm;
use crate::keyword_line::KeywordLine;
use crate::keywords::nth_with_keyword;
use crate::near_keywords::{NeededKeyword, near_line};

/// Returns the first line whose keyword is nearly `keyword`, if no line has exactly that.
fn misspelt(lines: &[KeywordLine<'_>], keyword: NeededKeyword) -> Option<TextForm>
    ensures { result ≡ misspelt (map shown_keyword lines.now) keyword }
{
    let word = keyword.word();
    if nth_with_keyword(word, 0, lines).is_some() {
        return None;
    }
    let line = near_line(lines, word)?;
    Some(TextForm::Misspelt { line, keyword })
}

/// Reports whether the first line with `keyword` is above the line with this number.
fn is_above(lines: &[KeywordLine<'_>], number: u32, keyword: NeededKeyword) -> bool
    ensures { result ≡ is_above (map shown_keyword lines.now) number (needed_word keyword) }
{
    match nth_with_keyword(keyword.word(), 0, lines) {
        Some(found) => found.line.number < number,
        None => false,
    }
}

/// Reports whether all keywords that a text has to have are in lines above this one.
fn is_whole_above(lines: &[KeywordLine<'_>], number: u32) -> bool
    ensures { result ≡ is_whole_above (map shown_keyword lines.now) number }
{
    is_above(lines, number, NeededKeyword::Width)
        && is_above(lines, number, NeededKeyword::Height)
        && is_above(lines, number, NeededKeyword::Rows)
        && is_above(lines, number, NeededKeyword::Columns)
}

/// Returns the form by which the keyword lines explain the fault, if they do.
pub(crate) fn form_of_keywords(fault: TextFault, lines: &[KeywordLine<'_>]) -> Option<TextForm>
    ensures { result ≡ form_of_keywords fault (map shown_keyword lines.now) }
{
    match fault {
        TextFault::NoSize => match misspelt(lines, NeededKeyword::Width) {
            Some(form) => Some(form),
            None => misspelt(lines, NeededKeyword::Height),
        },
        TextFault::NoSection => match misspelt(lines, NeededKeyword::Rows) {
            Some(form) => Some(form),
            None => misspelt(lines, NeededKeyword::Columns),
        },
        TextFault::Twice(line) if is_whole_above(lines, line) => {
            Some(TextForm::SecondPuzzle { line })
        }
        _ => None,
    }
}
