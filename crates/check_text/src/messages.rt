//! The message on an entry: the sentence of its first finding.

ghost use Rattle.std.specs.Prelude.{◌≡◌, ◌++◌, IsErr, OnOk, Some};
ghost use Rattle.diagnosis.specs.Diagnoses.{IsDiagnosisOf};
ghost use Rattle.check_text.specs.Messages.{goal_message, puzzle_message, refused_message, refutation_message, text_message, unfinished_message, unsolvable_message};

use crate::ambiguity::push_ambiguity_text;
use crate::goals::push_goal_difference_text;
use crate::refutations::push_refutation_text;
use crate::text_faults::push_fault;
use crate::text_findings::push_unknown_format_sentence;
use crate::text_forms::push_form;
use crate::unsettled::push_limit_text;
use crate::unsolvable::{push_misfit_text, push_sums_text};
use diagnosis::{Diagnosis, Misfit, Outcome, Refutation, Sums};
use grid_core::{NoMemory, Puzzle};
use puzzle_text::{EntryFault, Format, TextFault, diagnose_text};
use solve_core::Findings;
use std::alloc::Global;

/// Appends the message on a puzzle without solutions whose clues all fit.
fn push_refutation_message(
    text: &mut Vec<u8>,
    alloc: Global,
    puzzle: &Puzzle,
    sums: Sums,
    refutation: Refutation,
) -> Result<(), NoMemory>
    ensures { OnOk result (text.new.items
        ≡ text.old.items ++ refutation_message puzzle.now sums (Some refutation)) }
{
    if sums.rows == sums.columns {
        push_refutation_text(text, alloc, puzzle, refutation)
    } else {
        push_sums_text(text, alloc, sums)
    }
}

/// Appends the message on a puzzle without solutions, by the clues that don't fit, the sums and what
/// refuted it.
fn push_unsolvable_message(
    text: &mut Vec<u8>,
    alloc: Global,
    puzzle: &Puzzle,
    misfits: &[Misfit],
    sums: Sums,
    refutation: Refutation,
) -> Result<(), NoMemory>
    ensures { OnOk result (text.new.items
        ≡ text.old.items ++ unsolvable_message puzzle.now misfits.now sums (Some refutation)) }
{
    match misfits {
        [misfit, ..] => push_misfit_text(text, alloc, puzzle, *misfit),
        [] => push_refutation_message(text, alloc, puzzle, sums, refutation),
    }
}

/// Appends the message on a puzzle from whose only solution the goal differs in `rows`: nothing if
/// there are none.
fn push_goal_message(text: &mut Vec<u8>, alloc: Global, rows: &[u16]) -> Result<(), NoMemory>
    ensures { OnOk result (text.new.items ≡ text.old.items ++ goal_message rows.now) }
{
    if rows.is_empty() {
        return Ok(());
    }
    push_goal_difference_text(text, alloc, rows)
}

/// Appends the message on a puzzle with these `sums`, of which a limit of `limit` guesses cut the
/// search short.
fn push_unfinished_message(
    text: &mut Vec<u8>,
    alloc: Global,
    sums: Sums,
    limit: u32,
) -> Result<(), NoMemory>
    ensures { OnOk result (text.new.items ≡ text.old.items ++ unfinished_message sums limit) }
{
    if sums.rows == sums.columns {
        push_limit_text(text, alloc, limit)
    } else {
        push_sums_text(text, alloc, sums)
    }
}

/// Appends the message on a graded puzzle: the sentence of the first finding that `push_graded`
/// would print with options that allow each grade, or nothing if there is none. `diagnosis` is that
/// of `puzzle` by the `findings` of a report, which was made under a limit of `guesses` guesses.
/// Fails with `NoMemory` if an allocation fails.
pub fn push_diagnosis_message(
    text: &mut Vec<u8>,
    alloc: Global,
    puzzle: &Puzzle,
    guesses: u32,
    findings: &Findings,
    diagnosis: &Diagnosis<'_>,
) -> Result<(), NoMemory>
    requires { IsDiagnosisOf puzzle.now findings.now diagnosis.now }
    ensures { OnOk result (text.new.items
        ≡ text.old.items ++ puzzle_message puzzle.now guesses findings.now) }
{
    let Diagnosis {
        misfits,
        sums,
        outcome,
    } = diagnosis;
    match outcome {
        Outcome::Refuted(refutation) => {
            push_unsolvable_message(text, alloc, puzzle, misfits, *sums, *refutation)
        }
        Outcome::Unique(rows) => push_goal_message(text, alloc, rows),
        Outcome::Ambiguous {
            first,
            second: _,
            differing,
        } => push_ambiguity_text(text, alloc, differing.len(), first),
        Outcome::Unsettled => push_unfinished_message(text, alloc, *sums, guesses),
    }
}

/// Appends the message on a text that the reader of `format` refused with `fault`.
fn push_text_message(
    text: &mut Vec<u8>,
    alloc: Global,
    format: Format,
    body: &[u8],
    fault: TextFault,
) -> Result<(), NoMemory>
    ensures { OnOk result (text.new.items
        ≡ text.old.items ++ text_message format body.now fault) }
{
    let found = diagnose_text(alloc, format, body, fault)?;
    match found.form {
        Some(form) => push_form(text, form),
        None => push_fault(text, format, &found),
    }
}

/// Appends the message on a refused text: the sentence of the finding that `push_refused` prints.
/// Fails with `NoMemory` if that is the fault, or if an allocation fails.
pub fn push_refused_message(
    text: &mut Vec<u8>,
    alloc: Global,
    name: &[u8],
    body: &[u8],
    fault: EntryFault,
) -> Result<(), NoMemory>
    ensures text { OnOk result (text.new.items
        ≡ text.old.items ++ refused_message name.now body.now fault) }
    ensures memory { fault ≡ EntryFault.Text TextFault.NoMemory → IsErr result }
{
    match (fault, Format::from_name(name)) {
        (EntryFault::Text(TextFault::NoMemory), _) => Err(NoMemory),
        (EntryFault::Text(fault), Some(format)) => {
            push_text_message(text, alloc, format, body, fault)
        }
        (EntryFault::Text(_), None) | (EntryFault::UnknownFormat, _) => {
            push_unknown_format_sentence(text)
        }
    }
}
