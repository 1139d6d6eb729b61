//! Fields of records. A word has the lifetime of the value that it stands for, since the borrow
//! checker accepts no array in which only some references are `'static`.

ghost use Rattle.std.specs.Prelude.{◌≡◌, [], decimal, unwrap_or};
ghost use Rattle.std.specs.Option.{option_map_or};
ghost use Rattle.grid_core.specs.Description.{text_of};
ghost use Rattle.survey_text.specs.Entries.{grade_word, verdict_word};
ghost use Rattle.survey_text.specs.Faults.{fault_name};
ghost use Rattle.survey_text.specs.Goals.{goal_text};

use grid_core::{Field, GoalWord, Texts};
use itoa::Buffer;
use puzzle_text::EntryFault;
use solve_core::{Grade, Verdict};
use survey_text::{fault_name, goal_text, grade_word, verdict_word};

/// Returns the word for a verdict.
pub(crate) fn verdict_field(verdict: &Verdict) -> &[u8]
    ensures { result.now ≡ verdict_word verdict.now }
{
    verdict_word(verdict).as_bytes()
}

/// Returns the word for a grade.
pub(crate) fn grade_field(grade: &Grade) -> &[u8]
    ensures { result.now ≡ grade_word grade.now }
{
    grade_word(*grade).as_bytes()
}

/// Returns the word for whether a goal meets its clues.
pub(crate) fn goal_field(goal: &GoalWord) -> &[u8]
    ensures { result.now ≡ goal_text goal.now }
{
    goal_text(*goal).as_bytes()
}

/// Returns the name of a fault.
pub(crate) fn fault_field(fault: &EntryFault) -> &[u8]
    ensures { result.now ≡ fault_name fault.now }
{
    fault_name(*fault).as_bytes()
}

/// Returns the digits of `number`, written to `digits`; no bytes if there is none.
pub(crate) fn optional_number(digits: &mut Buffer, number: Option<u32>) -> &[u8]
    ensures { result.now ≡ option_map_or decimal number [] }
{
    match number {
        Some(number) => digits.format(number).as_bytes(),
        None => &[],
    }
}

/// Returns the text of a puzzle's field; no bytes if there is none.
pub(crate) fn text_or_empty(texts: &Texts, field: Field) -> &[u8]
    ensures { result.now ≡ unwrap_or (text_of texts.now field) [] }
{
    match texts.get(field) {
        Some(text) => text,
        None => &[],
    }
}
