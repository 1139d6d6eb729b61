//! Printing how many clue lines or characters of a goal a refused text has, and should have.

ghost use Rattle.std.specs.Prelude.{◌≡◌, ◌++◌, OnOk};
ghost use Rattle.check_text.specs.TextCounts.{clue_counts, counted, goal_fault, section_counts, together_count};

use grid_core::NoMemory;
use puzzle_text::{Count, TextCounts, push_bytes, push_number};

/// Appends how many there are and how many there should be, with `between` in the middle.
fn push_counted(text: &mut Vec<u8>, count: Count, between: &[u8]) -> Result<(), NoMemory>
    ensures { OnOk result (text.new.items ≡ text.old.items ++ counted count between.now) }
{
    push_number(text, count.found as u64)?;
    push_bytes(text, between)?;
    push_number(text, count.wanted as u64)
}

/// Appends how many clue lines there are for the rows and for the columns.
fn push_section_counts(text: &mut Vec<u8>, rows: Count, columns: Count) -> Result<(), NoMemory>
    ensures { OnOk result (text.new.items ≡ text.old.items ++ section_counts rows columns) }
{
    push_bytes(text, b"there are ")?;
    push_counted(text, rows, b" clue lines for ")?;
    push_bytes(text, b" rows, and ")?;
    push_counted(text, columns, b" for ")?;
    push_bytes(text, b" columns")
}

/// Appends how many clue lines there are for the rows and the columns together.
fn push_together_count(text: &mut Vec<u8>, count: Count) -> Result<(), NoMemory>
    ensures { OnOk result (text.new.items ≡ text.old.items ++ together_count count) }
{
    push_bytes(text, b"there are ")?;
    push_counted(text, count, b" clue lines for ")?;
    push_bytes(text, b" rows and columns")
}

/// Appends a sentence on a text with too few or too many clue lines: with their numbers, if
/// `counts` has them.
pub(crate) fn push_clue_counts(
    text: &mut Vec<u8>,
    counts: Option<TextCounts>,
) -> Result<(), NoMemory>
    ensures { OnOk result (text.new.items ≡ text.old.items ++ clue_counts counts) }
{
    match counts {
        Some(TextCounts::Sections { rows, columns }) => push_section_counts(text, rows, columns),
        Some(TextCounts::Together(count)) => push_together_count(text, count),
        Some(TextCounts::Goal(_)) | None => {
            push_bytes(text, b"the number of clue lines does not fit the size")
        }
    }
}

/// Appends a sentence on a goal that is not one `0` or `1` for each cell: with the number of its
/// characters, if `counts` has another than that of the cells.
pub(crate) fn push_goal_fault(
    text: &mut Vec<u8>,
    counts: Option<TextCounts>,
) -> Result<(), NoMemory>
    ensures { OnOk result (text.new.items ≡ text.old.items ++ goal_fault counts) }
{
    match counts {
        Some(TextCounts::Goal(count)) if count.found != count.wanted => {
            push_bytes(text, b"the goal has ")?;
            push_counted(text, count, b" characters for ")?;
            push_bytes(text, b" cells")
        }
        Some(TextCounts::Goal(_) | TextCounts::Sections { .. } | TextCounts::Together(_)) | None =>
            push_bytes(text, b"the goal has a character other than 0 and 1"),
    }
}
