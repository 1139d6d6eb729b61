//! Printing the fault for which a text is refused.

ghost use Rattle.std.specs.Prelude.{◌≡◌, ◌++◌, OnOk};
ghost use Rattle.std.specs.Option.{option_map};
ghost use Rattle.check_text.specs.TextFaults.{fault_sentence, line_sentence, no_section, no_size, quote};

use crate::quoting::push_quoted;
use crate::text_counts::{push_clue_counts, push_goal_fault};
use grid_core::NoMemory;
use puzzle_text::{Format, TextDiagnosis, TextFault, push_bytes};

/// Appends the bytes of a line between quotation marks and a space, if there is such a line.
fn push_quote(text: &mut Vec<u8>, line: Option<&[u8]>) -> Result<(), NoMemory>
    ensures { OnOk result (text.new.items
        ≡ text.old.items ++ quote (option_map (λ bytes. bytes.now) line.entry)) }
{
    let Some(bytes) = line else {
        return Ok(());
    };
    push_bytes(text, b"\"")?;
    push_quoted(text, bytes)?;
    push_bytes(text, b"\" ")
}

/// Appends a sentence on a line: the line between quotation marks, and what is wrong with it.
fn push_line_fault(text: &mut Vec<u8>, line: Option<&[u8]>, fault: &[u8]) -> Result<(), NoMemory>
    ensures { OnOk result (text.new.items
        ≡ text.old.items ++ line_sentence (option_map (λ bytes. bytes.now) line.entry) fault.now) }
{
    push_quote(text, line)?;
    push_bytes(text, fault)
}

/// Appends a sentence on a text that has no sizes.
fn push_no_size(text: &mut Vec<u8>, format: Format) -> Result<(), NoMemory>
    ensures { OnOk result (text.new.items ≡ text.old.items ++ no_size format) }
{
    match format {
        Format::Non => push_bytes(
            text,
            b"there is no line \"width N\" or no line \"height N\"",
        ),
        Format::Mk | Format::Nin => push_bytes(text, b"no line with two sizes is at the top"),
    }
}

/// Appends a sentence on a text that lacks a section.
fn push_no_section(text: &mut Vec<u8>, format: Format) -> Result<(), NoMemory>
    ensures { OnOk result (text.new.items ≡ text.old.items ++ no_section format) }
{
    match format {
        Format::Non => push_bytes(text, b"there is no line \"rows\" or no line \"columns\""),
        Format::Mk | Format::Nin => push_bytes(
            text,
            b"no line with # is between the clues of the rows and of the columns",
        ),
    }
}

/// Appends a sentence on the fault of a text in `format`, with what the diagnosis found of it.
/// Fails with `NoMemory` if that is the fault, or if an allocation fails.
pub(crate) fn push_fault(
    text: &mut Vec<u8>,
    format: Format,
    found: &TextDiagnosis<'_>,
) -> Result<(), NoMemory>
    ensures { OnOk result (text.new.items ≡ text.old.items
        ++ fault_sentence format found.now.fault
        (option_map (λ bytes. bytes.now) found.now.line) found.now.counts) }
{
    match found.fault {
        TextFault::TooLong => push_bytes(text, b"the text has more than 1,048,576 bytes"),
        TextFault::NoSize => push_no_size(text, format),
        TextFault::BadSize => push_bytes(text, b"a size is not a number from 1 to 256"),
        TextFault::NoSection => push_no_section(text, format),
        TextFault::BadLine(_) => push_line_fault(
            text,
            found.line,
            b"belongs to no section (or is a text of more than 65,536 bytes)",
        ),
        TextFault::Twice(_) => push_line_fault(text, found.line, b"repeats a keyword"),
        TextFault::BadCount => push_clue_counts(text, found.counts),
        TextFault::BadNumber(_) => push_line_fault(
            text,
            found.line,
            b"is not a clue (at most 128 numbers from 1 to 256, or 0 alone)",
        ),
        TextFault::BadGoal(_) => push_goal_fault(text, found.counts),
        TextFault::NoMemory => Err(NoMemory),
    }
}
