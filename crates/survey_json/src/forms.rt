//! The form of JSON.

ghost use Rattle.std.specs.Prelude.{◌≡◌, List};
ghost use Rattle.survey_text.specs.Chunks.{IsTotals};
ghost use Rattle.survey_text.specs.Entries.{GradedEntry};
ghost use Rattle.survey_json.specs.Forms.{counts_of, json_form};

use crate::entries::push_json_line;
use crate::totals::{EntryCounts, push_json_totals};
use grid_core::NoMemory;
use std::alloc::Global;
use survey_text::{ListedEntry, SurveyForm, Totals};

/// The form of JSON: an object for each entry and one for the totals, each on a line.
#[derive(Clone, Copy)]
pub struct JsonForm {
    /// The allocator of the objects.
    pub alloc: Global,
}

/// Returns the counts of the entries that have these totals.
fn counts_of(totals: &Totals) -> EntryCounts
    ensures { (entries : List GradedEntry) → IsTotals totals.now entries
        → result ≡ counts_of entries }
{
    EntryCounts {
        entries: totals.entries,
        refused: totals.refused,
        none: totals.verdicts.none,
        one: totals.verdicts.one,
        several: totals.verdicts.several,
        unsettled: totals.verdicts.unsettled,
        line: totals.grades.by_lines,
        trials: totals.grades.by_trials,
        search: totals.grades.by_search,
    }
}

impl SurveyForm for JsonForm {
    ghost form = { λ json. json_form };

    fn push_head(&self, _text: &mut Vec<u8>) -> Result<(), NoMemory> {
        Ok(())
    }

    fn push_entry(
        &self,
        text: &mut Vec<u8>,
        number: u32,
        entry: &ListedEntry<'_>,
    ) -> Result<(), NoMemory> {
        push_json_line(text, self.alloc, number, entry)
    }

    fn push_tail(&self, text: &mut Vec<u8>, totals: &Totals) -> Result<(), NoMemory> {
        push_json_totals(text, self.alloc, counts_of(totals))
    }
}
