//! The message on an entry, graded or refused.

ghost use Rattle.std.specs.Prelude.{◌≡◌, ◌++◌, IfOk, OnOk};
ghost use Rattle.diagnosis.specs.Diagnoses.{IsDiagnosisOf};
ghost use Rattle.check_text.specs.EntryMessages.{entry_message};
ghost use Rattle.check_text.specs.Messages.{puzzle_message};
ghost use Rattle.survey_text.specs.Listed.{form_entry};

use crate::messages::{push_diagnosis_message, push_refused_message};
use diagnosis::{Diagnosis, diagnose};
use grid_core::NoMemory;
use std::alloc::Global;
use survey_text::{GradedPuzzle, ListedEntry};

/// Returns the diagnosis of a graded puzzle. Fails with `NoMemory` if an allocation fails.
pub fn diagnosis_of<'a>(alloc: Global, graded: &GradedPuzzle<'a>) -> Result<Diagnosis<'a>, NoMemory>
    ensures { IfOk result (IsDiagnosisOf graded.now.answer.now.puzzle graded.now.findings.now) }
{
    // Called for its contract, which the proof needs: the findings are those of a report.
    graded.answer.outcome()?;
    let diagnosis = diagnose(alloc, graded.puzzle(), graded.findings)?;
    Ok(diagnosis)
}

/// Appends the message on a graded puzzle.
fn push_graded_message(
    text: &mut Vec<u8>,
    alloc: Global,
    graded: &GradedPuzzle<'_>,
) -> Result<(), NoMemory>
    ensures { OnOk result (text.new.items ≡ text.old.items
        ++ puzzle_message graded.now.answer.now.puzzle graded.now.answer.now.guesses
        graded.now.findings.now) }
{
    let diagnosis = diagnosis_of(alloc, graded)?;
    push_diagnosis_message(
        text,
        alloc,
        graded.puzzle(),
        graded.answer.guesses(),
        graded.findings,
        &diagnosis,
    )
}

/// Appends the message on `entry`: the sentence of the first finding on it, or nothing if there is
/// none. Fails with `NoMemory` if that is the fault for which the entry is refused, or if an
/// allocation fails.
pub fn push_message(
    text: &mut Vec<u8>,
    alloc: Global,
    entry: &ListedEntry<'_>,
) -> Result<(), NoMemory>
    ensures { OnOk result (text.new.items
        ≡ text.old.items ++ entry_message (form_entry entry.now)) }
{
    match &entry.result {
        Ok(graded) => push_graded_message(text, alloc, graded),
        Err(fault) => push_refused_message(text, alloc, entry.name, entry.body, *fault),
    }
}
