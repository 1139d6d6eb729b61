//! The two parts of a fault word: the name of the fault, and the number of the line that it is
//! about.

ghost use Rattle.std.specs.Prelude.{◌≡◌, None, Some};
ghost use Rattle.survey_text.specs.Faults.{fault_line, fault_name, text_fault_name};

use puzzle_text::{EntryFault, TextFault};

/// Returns the name of a fault of a puzzle's text.
fn text_fault_name(fault: TextFault) -> &'static str
    ensures { result.now ≡ text_fault_name fault }
{
    match fault {
        TextFault::TooLong => "TooLong",
        TextFault::NoSize => "NoSize",
        TextFault::BadSize => "BadSize",
        TextFault::NoSection => "NoSection",
        TextFault::BadLine(_) => "BadLine",
        TextFault::Twice(_) => "Twice",
        TextFault::BadCount => "BadCount",
        TextFault::BadNumber(_) => "BadNumber",
        TextFault::BadGoal(_) => "BadGoal",
        TextFault::NoMemory => "NoMemory",
    }
}

/// Returns the name of an entry's fault: its fault word without the number of a line.
pub fn fault_name(fault: EntryFault) -> &'static str
    ensures { result.now ≡ fault_name fault }
{
    match fault {
        EntryFault::UnknownFormat => "UnknownFormat",
        EntryFault::Text(fault) => text_fault_name(fault),
    }
}

/// Returns the number of the line of the text that a fault names, from 1, if it names one.
pub fn fault_line(fault: EntryFault) -> Option<u32>
    ensures { result ≡ fault_line fault }
{
    match fault {
        EntryFault::UnknownFormat => None,
        EntryFault::Text(fault) => fault.line_number(),
    }
}
