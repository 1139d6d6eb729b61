//! The record of a graded entry.

ghost use Rattle.std.specs.Prelude.{◌≡◌, ◌++◌, OnOk};
ghost use Rattle.csv.specs.Writing.{default_writer, row_text};
ghost use Rattle.survey_csv.specs.Fields.{graded_fields};

use crate::fields::{goal_field, grade_field, text_or_empty, verdict_field};
use crate::records::push_record;
use grid_core::{Field, NoMemory};
use itoa::Buffer;
use std::alloc::Global;
use survey_text::GradedPuzzle;

/// Appends the record of an entry with this name and this graded puzzle.
pub(crate) fn push_graded_row<'a>(
    text: &mut Vec<u8>,
    alloc: Global,
    number: u32,
    name: &'a [u8],
    graded: &GradedPuzzle<'a>,
    message: &[u8],
) -> Result<(), NoMemory>
    ensures { OnOk result (text.new.items ≡ text.old.items ++ row_text default_writer (graded_fields
        number name.now graded.now.answer.now.puzzle graded.now.findings.now message.now)) }
{
    let puzzle = graded.puzzle();
    let findings = graded.findings;
    let goal = graded.goal;
    let mut number_digits = Buffer::new();
    let mut width_digits = Buffer::new();
    let mut height_digits = Buffer::new();
    let mut line_digits = Buffer::new();
    let mut trial_digits = Buffer::new();
    let mut guess_digits = Buffer::new();
    let fields: [&[u8]; 15] = [
        number_digits.format(number).as_bytes(),
        name,
        width_digits.format(puzzle.width()).as_bytes(),
        height_digits.format(puzzle.height()).as_bytes(),
        verdict_field(&findings.verdict),
        grade_field(&findings.grade),
        line_digits.format(findings.line_known).as_bytes(),
        trial_digits.format(findings.trial_known).as_bytes(),
        guess_digits.format(findings.spent).as_bytes(),
        goal_field(&goal),
        b"",
        b"",
        message,
        text_or_empty(puzzle.texts(), Field::Title),
        text_or_empty(puzzle.texts(), Field::By),
    ];
    push_record(text, alloc, &fields)
}
