//! Printing the form of a text that explains why it is refused.

ghost use Rattle.std.specs.Prelude.{◌≡◌, ◌++◌, OnOk};
ghost use Rattle.check_text.specs.TextForms.{form_line, form_sentence, misspelt_sentence};

use grid_core::NoMemory;
use puzzle_text::{NeededKeyword, TextForm, push_bytes};

/// Returns the number of the line that the form is about: 1 if it is about the whole text.
pub(crate) fn line_of_form(form: TextForm) -> u32
    ensures { result ≡ form_line form }
{
    match form {
        TextForm::ByteOrderMark | TextForm::Utf16 | TextForm::LoneReturns => 1,
        TextForm::Misspelt { line, .. } | TextForm::SecondPuzzle { line } => line,
    }
}

/// Appends a sentence on a line whose keyword is nearly `keyword`.
fn push_misspelt(text: &mut Vec<u8>, keyword: NeededKeyword) -> Result<(), NoMemory>
    ensures { OnOk result (text.new.items ≡ text.old.items ++ misspelt_sentence keyword) }
{
    push_bytes(text, b"the keyword is nearly \"")?;
    push_bytes(text, keyword.word())?;
    push_bytes(text, b"\", which is missing")
}

/// Appends a sentence on the form, and on what makes the text readable.
pub(crate) fn push_form(text: &mut Vec<u8>, form: TextForm) -> Result<(), NoMemory>
    ensures { OnOk result (text.new.items ≡ text.old.items ++ form_sentence form) }
{
    match form {
        TextForm::ByteOrderMark => push_bytes(
            text,
            b"the text begins with a byte order mark (save it as UTF-8 without one)",
        ),
        TextForm::Utf16 => push_bytes(text, b"the text is in UTF-16 (save it as UTF-8)"),
        TextForm::LoneReturns => push_bytes(
            text,
            b"the lines end in CR alone (end them with LF or CR LF)",
        ),
        TextForm::Misspelt { keyword, .. } => push_misspelt(text, keyword),
        TextForm::SecondPuzzle { .. } => push_bytes(
            text,
            b"a second puzzle begins here or just above (give each puzzle its own file)",
        ),
    }
}
