//! Printing what is wrong with a refused text.

ghost use Rattle.std.specs.Prelude.{◌≡◌, ◌++◌, IsErr, OnOk};
ghost use Rattle.std.specs.Option.{option_map};
ghost use Rattle.check_text.specs.TextFindings.{fault_finding, form_finding, refused_text, text_finding, unknown_format, unknown_format_sentence};

use crate::heads::{Level, push_head};
use crate::text_faults::push_fault;
use crate::text_forms::{line_of_form, push_form};
use grid_core::NoMemory;
use puzzle_text::{
    EntryFault, Format, TextDiagnosis, TextFault, TextForm, diagnose_text, push_bytes,
};
use std::alloc::Global;

/// Appends that a name has no known ending.
pub(crate) fn push_unknown_format_sentence(text: &mut Vec<u8>) -> Result<(), NoMemory>
    ensures { OnOk result (text.new.items ≡ text.old.items ++ unknown_format_sentence) }
{
    push_bytes(text, b"the name has no known ending (.non, .mk or .nin)")
}

/// Appends the finding on a text whose name has no known ending.
fn push_unknown_format(text: &mut Vec<u8>, name: &[u8]) -> Result<(), NoMemory>
    ensures { OnOk result (text.new.items ≡ text.old.items ++ unknown_format name.now) }
{
    push_head(text, name, None, Level::Error)?;
    push_unknown_format_sentence(text)?;
    push_bytes(text, b"\n")
}

/// Appends the finding on the form of a text.
fn push_form_finding(text: &mut Vec<u8>, name: &[u8], form: TextForm) -> Result<(), NoMemory>
    ensures { OnOk result (text.new.items ≡ text.old.items ++ form_finding name.now form) }
{
    push_head(text, name, Some(line_of_form(form)), Level::Error)?;
    push_form(text, form)?;
    push_bytes(text, b"\n")
}

/// Appends the finding on the fault of a text. Fails with `NoMemory` if that is the fault, or if an
/// allocation fails.
fn push_fault_finding(
    text: &mut Vec<u8>,
    name: &[u8],
    format: Format,
    found: &TextDiagnosis<'_>,
) -> Result<(), NoMemory>
    ensures { OnOk result (text.new.items ≡ text.old.items
        ++ fault_finding name.now format found.now.fault
        (option_map (λ bytes. bytes.now) found.now.line) found.now.counts) }
{
    push_head(text, name, found.fault.line_number(), Level::Error)?;
    push_fault(text, format, found)?;
    push_bytes(text, b"\n")
}

/// Appends the finding on the text `body` that the reader of `format` refused with `fault`: one
/// line, with the file's name and, if it is about a line of the text, the number of that line. Fails
/// with `NoMemory` if an allocation fails.
pub fn push_text_finding(
    text: &mut Vec<u8>,
    alloc: Global,
    name: &[u8],
    format: Format,
    body: &[u8],
    fault: TextFault,
) -> Result<(), NoMemory>
    ensures { OnOk result (text.new.items
        ≡ text.old.items ++ text_finding name.now format body.now fault) }
{
    let found = diagnose_text(alloc, format, body, fault)?;
    match found.form {
        Some(form) => push_form_finding(text, name, form),
        None => push_fault_finding(text, name, format, &found),
    }
}

/// Appends what is wrong with a refused text: one line, with the file's name and, if it is about a
/// line of the text, the number of that line. `fault` is that with which `read_entry` refused the
/// text `body`, whose format is the one that the ending of `name` determines. Fails with `NoMemory`
/// if that is the fault, or if an allocation fails; the text may then end with the first bytes of
/// the line.
pub fn push_refused(
    text: &mut Vec<u8>,
    alloc: Global,
    name: &[u8],
    body: &[u8],
    fault: EntryFault,
) -> Result<(), NoMemory>
    ensures text { OnOk result (text.new.items
        ≡ text.old.items ++ refused_text name.now body.now fault) }
    ensures memory { fault ≡ EntryFault.Text TextFault.NoMemory → IsErr result }
{
    match (fault, Format::from_name(name)) {
        (EntryFault::Text(TextFault::NoMemory), _) => Err(NoMemory),
        (EntryFault::Text(fault), Some(format)) => {
            push_text_finding(text, alloc, name, format, body, fault)
        }
        (EntryFault::Text(_), None) | (EntryFault::UnknownFormat, _) => {
            push_unknown_format(text, name)
        }
    }
}
