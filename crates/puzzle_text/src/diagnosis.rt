//! What is wrong with a refused text, and where.

ghost use Rattle.std.specs.Prelude.{◌≡◌, map, IfOk};
ghost use Rattle.std.specs.Option.{option_map};
ghost use Rattle.puzzle_text.specs.Counts.{counts_of};
ghost use Rattle.puzzle_text.specs.Diagnosis.{form_of, line_number, named_line, readable_lines, text_of_line};
ghost use Rattle.puzzle_text.specs.LineForms.{form_of_lines};
ghost use Rattle.puzzle_text.specs.steps.Shown.{shown_line};

use crate::counts::{TextCounts, counts_of};
use crate::faults::TextFault;
use crate::formats::Format;
use crate::forms::{TextForm, form_of_bytes};
use crate::keyword_forms::form_of_keywords;
use crate::keywords::keyword_lines;
use crate::limits::MAX_PUZZLE_LEN;
use crate::lines::{TextLine, all_lines};
use crate::second_puzzles::{second_mk, second_nin};
use grid_core::{MAX_SIDE, NoMemory};
use std::alloc::Global;

/// What is wrong with a refused text, and where.
#[derive(Clone, Copy, Debug, PartialEq, Eq)]
pub struct TextDiagnosis<'a> {
    /// The fault that the reader returned.
    pub fault: TextFault,
    /// The line that the fault names, if it names one, without spaces and tabs at both ends.
    pub line: Option<&'a [u8]>,
    /// What the text has and should have, if the fault is a wrong number of clue lines or a wrong
    /// goal.
    pub counts: Option<TextCounts>,
    /// The form of the text that explains the fault, if one is recognized.
    pub form: Option<TextForm>,
}

impl TextFault {
    /// Returns the number of the line that the fault names, if it names one.
    pub fn line_number(self) -> Option<u32>
        ensures { result ≡ line_number self }
    {
        match self {
            TextFault::BadLine(number)
            | TextFault::Twice(number)
            | TextFault::BadNumber(number)
            | TextFault::BadGoal(number) => Some(number),
            TextFault::TooLong
            | TextFault::NoSize
            | TextFault::BadSize
            | TextFault::NoSection
            | TextFault::BadCount
            | TextFault::NoMemory => None,
        }
    }
}

/// Returns the lines of a text; none if it is too long to be read.
fn readable_lines(alloc: Global, bytes: &[u8]) -> Result<Vec<TextLine<'_>>, NoMemory>
    ensures { IfOk result (λ found. map shown_line found.items ≡ readable_lines bytes.now) }
{
    if bytes.len() > MAX_PUZZLE_LEN {
        return Ok(Vec::new(alloc));
    }
    all_lines(alloc, bytes)
}

/// Returns the text of the line with this number, if there is such a line.
fn text_of_line<'a>(number: u32, lines: &[TextLine<'a>]) -> Option<&'a [u8]>
    ensures { option_map (λ text. text.now) result
        ≡ text_of_line number (map shown_line lines.now) }
{
    let mut rest = lines;
    while let [line, others @ ..] = rest {
        if line.number == number {
            return Some(line.text);
        }
        rest = others;
    }
    None
}

/// Returns the text of the line that a fault names, if it names one.
fn named_line<'a>(fault: TextFault, lines: &[TextLine<'a>]) -> Option<&'a [u8]>
    ensures { option_map (λ text. text.now) result ≡ named_line fault (map shown_line lines.now) }
{
    text_of_line(fault.line_number()?, lines)
}

/// Returns the form by which the lines of a text in `format` explain the fault, if they do.
fn form_of_lines(
    alloc: Global,
    format: Format,
    fault: TextFault,
    lines: &[TextLine<'_>],
) -> Result<Option<TextForm>, NoMemory>
    ensures { IfOk result (λ form. form
        ≡ form_of_lines MAX_SIDE format fault (map shown_line lines.now)) }
{
    match (format, fault) {
        (Format::Non, _) => {
            let keyword_lines = keyword_lines(alloc, lines)?;
            Ok(form_of_keywords(fault, &keyword_lines))
        }
        (Format::Mk, TextFault::BadCount) => Ok(second_mk(lines)),
        (Format::Nin, TextFault::BadCount) => Ok(second_nin(lines)),
        (Format::Mk | Format::Nin, _) => Ok(None),
    }
}

/// Returns the form of a text that explains its fault, if one is recognized.
fn form_of(
    alloc: Global,
    format: Format,
    fault: TextFault,
    bytes: &[u8],
    lines: &[TextLine<'_>],
) -> Result<Option<TextForm>, NoMemory>
    ensures { IfOk result
        (λ form. form ≡ form_of MAX_SIDE format fault bytes.now (map shown_line lines.now)) }
{
    match form_of_bytes(bytes) {
        Some(form) => Ok(Some(form)),
        None => form_of_lines(alloc, format, fault, lines),
    }
}

/// Returns what is wrong with a text that the reader of `format` refused with `fault`, and where.
/// Fails with `NoMemory` if an allocation fails.
pub fn diagnose_text<'a>(
    alloc: Global,
    format: Format,
    bytes: &'a [u8],
    fault: TextFault,
) -> Result<TextDiagnosis<'a>, NoMemory>
    ensures fault { IfOk result (λ found. found.fault ≡ fault) }
    ensures line { IfOk result (λ found. option_map (λ text. text.now) found.line
        ≡ named_line fault (readable_lines bytes.now)) }
    ensures counts { IfOk result (λ found. found.counts
        ≡ counts_of MAX_SIDE format fault (readable_lines bytes.now)) }
    ensures form { IfOk result (λ found. found.form
        ≡ form_of MAX_SIDE format fault bytes.now (readable_lines bytes.now)) }
{
    let lines = readable_lines(alloc, bytes)?;
    Ok(TextDiagnosis {
        fault,
        line: named_line(fault, &lines),
        counts: counts_of(alloc, format, fault, &lines)?,
        form: form_of(alloc, format, fault, bytes, &lines)?,
    })
}
