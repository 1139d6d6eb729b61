//! The line of a survey's totals.

ghost use Rattle.std.specs.Prelude.{◌≡◌, ◌++◌, IfOk, OnOk};
ghost use Rattle.serde_json.specs.View.{members_view, view};
ghost use Rattle.survey_json.specs.Lines.{ReadsBack, line_of};
ghost use Rattle.survey_json.specs.Totals.{grade_members, status_members, totals_object};
ghost use Rattle.survey_json.specs.Values.{object_with, with_members};

use crate::lines::push_line;
use crate::values::Members;
use grid_core::NoMemory;
use serde_json::{Value, put};
use std::alloc::Global;

/// How many entries a survey has.
#[derive(Clone, Copy, Debug, PartialEq, Eq)]
pub struct EntryCounts {
    /// All entries.
    pub entries: usize,
    /// Those that are refused.
    pub refused: usize,
    /// Those whose puzzle has no solution.
    pub none: usize,
    /// Those whose puzzle has one solution.
    pub one: usize,
    /// Those whose puzzle has several solutions.
    pub several: usize,
    /// Those whose search the limit on guesses cut short.
    pub unsettled: usize,
    /// Those that took line deduction alone.
    pub line: usize,
    /// Those that took trials.
    pub trials: usize,
    /// Those that took a search.
    pub search: usize,
}

/// Puts how many entries there are, how many are refused, and how many have each verdict.
fn put_statuses(members: &mut Members, alloc: Global, counts: EntryCounts) -> Result<(), NoMemory>
    ensures { OnOk result (members_view members.new.entries
        ≡ with_members (status_members counts) (members_view members.old.entries)) }
{
    put(members, alloc, "entries", Value::from(counts.entries))?;
    put(members, alloc, "refused", Value::from(counts.refused))?;
    put(members, alloc, "none", Value::from(counts.none))?;
    put(members, alloc, "one", Value::from(counts.one))?;
    put(members, alloc, "several", Value::from(counts.several))?;
    put(members, alloc, "unsettled", Value::from(counts.unsettled))?;
    Ok(())
}

/// Puts how many entries have each grade.
fn put_grades(members: &mut Members, alloc: Global, counts: EntryCounts) -> Result<(), NoMemory>
    ensures { OnOk result (members_view members.new.entries
        ≡ with_members (grade_members counts) (members_view members.old.entries)) }
{
    put(members, alloc, "line", Value::from(counts.line))?;
    put(members, alloc, "trials", Value::from(counts.trials))?;
    put(members, alloc, "search", Value::from(counts.search))?;
    Ok(())
}

/// Returns the object of the counts.
fn counts_value(alloc: Global, counts: EntryCounts) -> Result<Value, NoMemory>
    ensures { IfOk result (λ value.
        view value ≡ object_with (status_members counts ++ grade_members counts)) }
{
    let mut members = Members::new(alloc);
    put_statuses(&mut members, alloc, counts)?;
    put_grades(&mut members, alloc, counts)?;
    Ok(Value::from(members))
}

/// Returns the object whose only member, `totals`, has the counts.
fn totals_value(alloc: Global, counts: EntryCounts) -> Result<Value, NoMemory>
    ensures { IfOk result (λ value. view value ≡ totals_object counts) }
{
    let mut members = Members::new(alloc);
    put(&mut members, alloc, "totals", counts_value(alloc, counts)?)?;
    Ok(Value::from(members))
}

/// Appends the last line of a survey, which has the counts of its entries, and LF. Fails with
/// `NoMemory` if an allocation fails.
pub fn push_json_totals(
    text: &mut Vec<u8>,
    alloc: Global,
    counts: EntryCounts,
) -> Result<(), NoMemory>
    ensures line { OnOk result (text.new.items
        ≡ text.old.items ++ line_of (totals_object counts)) }
    ensures reads_back { OnOk result (ReadsBack (totals_object counts)) }
{
    let value = totals_value(alloc, counts)?;
    push_line(text, alloc, &value)
}
