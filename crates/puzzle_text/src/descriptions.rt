//! The text fields of a `.non` text, such as its title.

ghost use Rattle.std.specs.Prelude.{◌≡◌, length, map, nat_le, true, IfOk, OnOk};
ghost use Rattle.std.specs.List.{list_all};
ghost use Rattle.grid_core.specs.Description.{IsDescription, is_field};
ghost use Rattle.puzzle_text.specs.Keywords.{field_word};
ghost use Rattle.puzzle_text.specs.Non.{field_text, long_text, number_of_line, texts_of};
ghost use Rattle.puzzle_text.specs.steps.Non.{with_all_found, with_found};
ghost use Rattle.puzzle_text.specs.steps.Shown.{shown_keyword};

use crate::keyword_line::KeywordLine;
use crate::keywords::{FIELDS, field_word, nth_with_keyword, quoted_text};
use grid_core::{Field, MAX_TEXT_LEN, NoMemory, Texts, TextsFault};
use std::alloc::Global;

/// Returns the number of the first line of a text field, if its text is longer than `MAX_TEXT_LEN`
/// bytes.
pub(crate) fn long_number(lines: &[KeywordLine<'_>], field: Field) -> Option<u32>
    ensures { result ≡ number_of_line (long_text (map shown_keyword lines.now) (field_word field)) }
{
    let found = nth_with_keyword(field_word(field), 0, lines)?;
    (quoted_text(found).len() > MAX_TEXT_LEN).then_some(found.line.number)
}

/// Reports whether no line is longer than `MAX_TEXT_LEN` bytes.
pub(crate) fn are_short(lines: &[KeywordLine<'_>]) -> bool
    ensures { result
        ≡ list_all (λ found. nat_le (length found.line.text.now) MAX_TEXT_LEN) lines.now }
{
    lines
        .iter()
        .all(|found| found.line.text.len() <= MAX_TEXT_LEN)
}

/// Sets a field of `texts` to the text of the field's first line. Does nothing if no line has the
/// field's keyword.
fn set_field(
    alloc: Global,
    texts: &mut Texts,
    field: Field,
    lines: &[KeywordLine<'_>],
) -> Result<(), NoMemory>
    requires { is_field (field_text (field_word field) (map shown_keyword lines.now)) ≡ true }
    ensures { OnOk result (texts.new ≡ with_found texts.old field
        (field_text (field_word field) (map shown_keyword lines.now))) }
{
    let Some(found) = nth_with_keyword(field_word(field), 0, lines) else {
        return Ok(());
    };
    // The contract requires that the text may stand in a field, so `BadText` cannot occur.
    match texts.set(alloc, field, quoted_text(found)) {
        Ok(()) => Ok(()),
        Err(TextsFault::NoMemory) => Err(NoMemory),
        Err(TextsFault::BadText) => unreachable!(),
    }
}

/// Sets each of these fields to the text of its first line, if there is one.
fn set_fields(
    alloc: Global,
    texts: &mut Texts,
    fields: &[Field],
    lines: &[KeywordLine<'_>],
) -> Result<(), NoMemory>
    requires { IsDescription (texts_of (map shown_keyword lines.now)) }
    ensures { OnOk result
        (texts.new ≡ with_all_found (map shown_keyword lines.now) texts.old fields.now) }
{
    for field in fields {
        set_field(alloc, texts, *field, lines)?;
    }
    Ok(())
}

/// Returns the texts of all fields, each that of the field's first line.
pub(crate) fn texts_of(alloc: Global, lines: &[KeywordLine<'_>]) -> Result<Texts, NoMemory>
    requires { IsDescription (texts_of (map shown_keyword lines.now)) }
    ensures { IfOk result (λ texts. texts ≡ texts_of (map shown_keyword lines.now)) }
{
    let mut texts = Texts::none();
    set_fields(alloc, &mut texts, &FIELDS, lines)?;
    Ok(texts)
}
