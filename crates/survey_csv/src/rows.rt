//! The lines of a survey in csv: the header, and the record of each entry.

ghost use Rattle.std.specs.Prelude.{◌≡◌, ◌++◌, OnOk};
ghost use Rattle.survey_csv.specs.Fields.{csv_header};
ghost use Rattle.survey_csv.specs.Rows.{csv_row};
ghost use Rattle.survey_text.specs.Forms.{without_text};
ghost use Rattle.survey_text.specs.Listed.{form_entry};

use crate::graded::push_graded_row;
use crate::refused::push_refused_row;
use grid_core::NoMemory;
use puzzle_text::push_bytes;
use std::alloc::Global;
use survey_text::ListedEntry;

/// Appends the header line, which names the columns. Fails with `NoMemory` if an allocation fails.
pub fn push_csv_header(text: &mut Vec<u8>) -> Result<(), NoMemory>
    ensures { OnOk result (text.new.items ≡ text.old.items ++ csv_header) }
{
    push_bytes(
        text,
        b"number,name,width,height,verdict,grade,line_cells,trial_cells,guesses,goal,\
        fault,fault_line,message,title,by\n",
    )
}

/// Appends the record of `entry` with its number and the message on it, which is empty if there is
/// none. Fails with `NoMemory` if an allocation fails; the text may then be empty.
pub fn push_csv_row(
    text: &mut Vec<u8>,
    alloc: Global,
    number: u32,
    entry: &ListedEntry<'_>,
    message: &[u8],
) -> Result<(), NoMemory>
    ensures { OnOk result (text.new.items ≡ text.old.items
        ++ csv_row number (without_text (form_entry entry.now)) message.now) }
{
    match &entry.result {
        Ok(graded) => push_graded_row(text, alloc, number, entry.name, graded, message),
        Err(fault) => push_refused_row(text, alloc, number, entry.name, *fault, message),
    }
}
