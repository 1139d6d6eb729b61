//! The record of a refused entry.

ghost use Rattle.std.specs.Prelude.{◌≡◌, ◌++◌, OnOk};
ghost use Rattle.csv.specs.Writing.{default_writer, row_text};
ghost use Rattle.survey_csv.specs.Fields.{refused_fields};

use crate::fields::{fault_field, optional_number};
use crate::records::push_record;
use grid_core::NoMemory;
use itoa::Buffer;
use puzzle_text::EntryFault;
use std::alloc::Global;
use survey_text::fault_line;

/// Appends the record of an entry that is refused for `fault`.
pub(crate) fn push_refused_row(
    text: &mut Vec<u8>,
    alloc: Global,
    number: u32,
    name: &[u8],
    fault: EntryFault,
    message: &[u8],
) -> Result<(), NoMemory>
    ensures { OnOk result (text.new.items ≡ text.old.items ++ row_text default_writer
        (refused_fields number name.now fault message.now)) }
{
    let mut number_digits = Buffer::new();
    let mut line_digits = Buffer::new();
    let fields: [&[u8]; 15] = [
        number_digits.format(number).as_bytes(),
        name,
        b"",
        b"",
        b"",
        b"",
        b"",
        b"",
        b"",
        b"",
        fault_field(&fault),
        optional_number(&mut line_digits, fault_line(fault)),
        message,
        b"",
        b"",
    ];
    push_record(text, alloc, &fields)
}
