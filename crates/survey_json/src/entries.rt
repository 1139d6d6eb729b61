//! The lines of entries.

ghost use Rattle.std.specs.Prelude.{◌≡◌, ℕ, ◌++◌, List, Option, IfOk, Ok, OnOk, option_map};
ghost use Rattle.serde_json.specs.View.{view};
ghost use Rattle.survey_text.specs.Listed.{form_entry};
ghost use Rattle.check_text.specs.EntryMessages.{entry_message};
ghost use Rattle.survey_json.specs.Entries.{entry_object, if_any, object_of};
ghost use Rattle.survey_json.specs.Keys.{value_under};
ghost use Rattle.survey_json.specs.Lines.{ReadsBack, line_of};
ghost use Rattle.survey_json.specs.declared.keys.Key.TheVariants.{Graded};

use crate::keys::{GradedKey, KEYS, Key, key_word};
use crate::lines::push_member;
use crate::pictures::goal_value;
use crate::puzzles::{clues_value, misfits_value, sums_value};
use crate::reports::{differing_value, solutions_value};
use crate::values::{optional_number, optional_text, text_value, word_value};
use check_text::push_message;
use diagnosis::{puzzle_misfits, puzzle_sums};
use grid_core::{Field, NoMemory};
use puzzle_text::push_bytes;
use serde_json::Value;
use std::alloc::Global;
use survey_text::{
    GradedPuzzle, ListedEntry, fault_line, fault_name, goal_text, grade_word, verdict_word,
};

/// The capacity that a line has at first, which is enough for a puzzle of 10 by 10.
const LINE_CAPACITY: usize = 1024;

/// Returns `bytes`, or `None` if they are empty.
fn if_any(bytes: &[u8]) -> Option<&[u8]>
    ensures { option_map (λ some. some.now) result ≡ if_any bytes.now }
{
    if bytes.is_empty() { None } else { Some(bytes) }
}

/// Returns what the object of a graded entry has under `key`.
fn graded_value(alloc: Global, graded: &GradedPuzzle<'_>, key: GradedKey) -> Result<Value, NoMemory>
    ensures { (number : ℕ) (name : List ℕ) (message : Option (List ℕ)) → IfOk result (λ value.
        view value ≡ value_under (entry_object number name
        (Ok (graded.now.answer.now.puzzle, graded.now.findings.now)) message) (Graded key)) }
{
    let puzzle = graded.puzzle();
    let texts = puzzle.texts();
    let findings = graded.findings;
    match key {
        GradedKey::By => optional_text(alloc, texts.get(Field::By)),
        GradedKey::Catalogue => optional_text(alloc, texts.get(Field::Catalogue)),
        GradedKey::Columns => clues_value(alloc, puzzle.columns()),
        GradedKey::Copyright => optional_text(alloc, texts.get(Field::Copyright)),
        GradedKey::Differing => differing_value(alloc, graded),
        GradedKey::Goal => word_value(alloc, goal_text(graded.goal)),
        GradedKey::GoalRows => goal_value(alloc, puzzle),
        GradedKey::Grade => word_value(alloc, grade_word(findings.grade)),
        GradedKey::Guesses => Ok(Value::from(findings.spent)),
        GradedKey::Height => Ok(Value::from(puzzle.height())),
        GradedKey::License => optional_text(alloc, texts.get(Field::License)),
        GradedKey::LineCells => Ok(Value::from(findings.line_known)),
        GradedKey::Misfits => misfits_value(alloc, &puzzle_misfits(alloc, puzzle)?),
        GradedKey::Rows => clues_value(alloc, puzzle.rows()),
        GradedKey::Solutions => solutions_value(alloc, &findings.verdict),
        GradedKey::Sums => sums_value(alloc, puzzle_sums(puzzle)),
        GradedKey::Title => optional_text(alloc, texts.get(Field::Title)),
        GradedKey::TrialCells => Ok(Value::from(findings.trial_known)),
        GradedKey::Verdict => word_value(alloc, verdict_word(&findings.verdict)),
        GradedKey::Width => Ok(Value::from(puzzle.width())),
    }
}

/// Returns what the object of `entry`, which has the number `number` and this message, has under
/// `key`.
fn member_value(
    alloc: Global,
    number: u32,
    entry: &ListedEntry<'_>,
    message: &[u8],
    key: Key,
) -> Result<Value, NoMemory>
    requires { message.now ≡ entry_message (form_entry entry.now) }
    ensures { IfOk result (λ value.
        view value ≡ value_under (object_of number (form_entry entry.now)) key) }
{
    match key {
        Key::Name => text_value(alloc, entry.name),
        Key::Number => Ok(Value::from(number)),
        Key::Message => optional_text(alloc, if_any(message)),
        Key::Fault => match &entry.result {
            Ok(_) => Ok(Value::Null),
            Err(fault) => word_value(alloc, fault_name(*fault)),
        },
        Key::FaultLine => match &entry.result {
            Ok(_) => Ok(Value::Null),
            Err(fault) => Ok(optional_number(fault_line(*fault))),
        },
        Key::Graded(key) => match &entry.result {
            Ok(graded) => graded_value(alloc, graded, key),
            Err(_) => Ok(Value::Null),
        },
    }
}

/// Returns the line of `entry`, which has the number `number`. Fails with `NoMemory` if that is the
/// fault for which the entry is refused, or if an allocation fails.
fn entry_line(alloc: Global, number: u32, entry: &ListedEntry<'_>) -> Result<Vec<u8>, NoMemory>
    ensures line { IfOk result (λ line.
        line.items ≡ line_of (object_of number (form_entry entry.now))) }
    ensures reads_back { OnOk result (ReadsBack (object_of number (form_entry entry.now))) }
{
    let mut message = Vec::new(alloc);
    push_message(&mut message, alloc, entry)?;
    let mut line = Vec::with_capacity(alloc, LINE_CAPACITY)?;
    let mut before = b'{';
    // One value at a time, since memory is allocated fastest while few blocks are in use.
    for key in KEYS {
        let value = member_value(alloc, number, entry, &message, key)?;
        push_member(&mut line, alloc, before, key_word(key), &value)?;
        before = b',';
    }
    push_bytes(&mut line, b"}\n")?;
    Ok(line)
}

/// Appends the line of `entry`: its object and LF. `number` is the entry's, from 1. Fails with
/// `NoMemory` if that is the fault for which the entry is refused, or if an allocation fails.
// Not inlined, so that other forms don't need its stack.
#[inline(never)]
pub fn push_json_line(
    text: &mut Vec<u8>,
    alloc: Global,
    number: u32,
    entry: &ListedEntry<'_>,
) -> Result<(), NoMemory>
    ensures line { OnOk result (text.new.items
        ≡ text.old.items ++ line_of (object_of number (form_entry entry.now))) }
    ensures reads_back { OnOk result (ReadsBack (object_of number (form_entry entry.now))) }
{
    let line = entry_line(alloc, number, entry)?;
    push_bytes(text, &line)
}
