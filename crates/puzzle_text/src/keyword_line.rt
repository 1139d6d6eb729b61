//! A `.non` text's keyword line.

ghost use Rattle.std.specs.Prelude.{◌≡◌, take_while};
ghost use Rattle.std.specs.Char.{is_ascii_alphabetic};
ghost use Rattle.std.specs.Str.{str_to_ascii_lowercase};

use crate::lines::TextLine;

/// A text line that begins with a keyword, and that keyword: all ASCII letters at its start.
#[derive(Clone, Copy)]
pub(crate) struct KeywordLine<'a> {
    pub word: &'a [u8],
    pub line: TextLine<'a>,
    pub ghost at_start: { str_to_ascii_lowercase word.now
        ≡ str_to_ascii_lowercase (take_while is_ascii_alphabetic line.text.now) },
}
