//! Recognizes forms of a text that explain why it is refused.

ghost use Rattle.std.specs.Prelude.{◌≡◌, ◌==◌};
ghost use Rattle.std.specs.List.{list_any};
ghost use Rattle.puzzle_text.specs.Forms.{form_of_bytes};

use crate::near_keywords::NeededKeyword;

/// A form of a text that explains why it is refused. Of several, the first in the order of this
/// list is reported.
#[derive(Clone, Copy, Debug, PartialEq, Eq)]
pub enum TextForm {
    /// The text begins with the byte order mark of UTF-8, EF BB BF.
    ByteOrderMark,
    /// The text begins with a byte order mark of UTF-16, FE FF or FF FE.
    Utf16,
    /// The text has carriage returns but no line feed, so that it is a single line.
    LoneReturns,
    /// In `.non`, no line has this keyword, which the fault says is missing, but that of this line
    /// is nearly the same: one letter is changed, dropped or added, or two neighbours are
    /// exchanged. Of two missing keywords `width` and `rows` come first; of several lines the first
    /// is reported.
    Misspelt { line: u32, keyword: NeededKeyword },
    /// A second puzzle begins in this line or a little above. In `.non`, it repeats a keyword below
    /// the first lines with `width`, `height`, `rows` and `columns`. In `.mk` and `.nin`, where
    /// there are too many clue lines, it has two sizes and comes after as many as the first puzzle
    /// needs, and below it there is a line that begins with `#`, or in `.nin` as many lines as its
    /// sizes require; blank lines are not counted.
    SecondPuzzle { line: u32 },
}

fn contains(bytes: &[u8], wanted: u8) -> bool
    ensures { result ≡ list_any (λ byte. byte == wanted) bytes.now }
{
    bytes.iter().any(|byte| *byte == wanted)
}

/// Returns the form that a text's bytes have, if it is one of the first three of `TextForm`.
pub(crate) fn form_of_bytes(bytes: &[u8]) -> Option<TextForm>
    ensures { result ≡ form_of_bytes bytes.now }
{
    if bytes.starts_with(b"\xEF\xBB\xBF") {
        return Some(TextForm::ByteOrderMark);
    }
    if bytes.starts_with(b"\xFE\xFF") || bytes.starts_with(b"\xFF\xFE") {
        return Some(TextForm::Utf16);
    }
    if contains(bytes, b'\r') && !contains(bytes, b'\n') {
        return Some(TextForm::LoneReturns);
    }
    None
}
