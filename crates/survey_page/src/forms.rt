//! The form of a page.

ghost use Rattle.std.specs.Prelude.{◌≡◌, ◌++◌, List, OnOk};
ghost use Rattle.survey_json.specs.Escaping.{escaped};
ghost use Rattle.survey_json.specs.Forms.{json_form};
ghost use Rattle.survey_page.specs.Forms.{html_form};
ghost use Rattle.survey_text.specs.Chunks.{IsTotals};
ghost use Rattle.survey_text.specs.Entries.{GradedEntry};

use crate::page::{PAGE_HEAD, PAGE_TAIL};
use grid_core::NoMemory;
use puzzle_text::push_bytes;
use survey_json::{JsonForm, push_escaped};
use survey_text::{ListedEntry, SurveyForm, Totals};

/// The form of a page, which opens in a browser without a server: the lines of JSON, escaped so that
/// nothing in them ends the data, and around them what draws a card for each entry.
#[derive(Clone, Copy)]
pub struct HtmlForm {
    /// The form of the lines.
    pub json: JsonForm,
}

/// Appends what stands after the entries in JSON, escaped.
fn push_escaped_tail(text: &mut Vec<u8>, json: JsonForm, totals: &Totals) -> Result<(), NoMemory>
    ensures { (entries : List GradedEntry) → IsTotals totals.now entries
        → OnOk result (text.new.items ≡ text.old.items ++ escaped (json_form.tail entries)) }
{
    let mut line = Vec::new(json.alloc);
    json.push_tail(&mut line, totals)?;
    push_escaped(text, &line)
}

impl SurveyForm for HtmlForm {
    ghost form = { λ html. html_form };

    fn push_head(&self, text: &mut Vec<u8>) -> Result<(), NoMemory> {
        push_bytes(text, PAGE_HEAD)
    }

    fn push_entry(
        &self,
        text: &mut Vec<u8>,
        number: u32,
        entry: &ListedEntry<'_>,
    ) -> Result<(), NoMemory> {
        let mut line = Vec::new(self.json.alloc);
        self.json.push_entry(&mut line, number, entry)?;
        push_escaped(text, &line)
    }

    fn push_tail(&self, text: &mut Vec<u8>, totals: &Totals) -> Result<(), NoMemory> {
        push_escaped_tail(text, self.json, totals)?;
        push_bytes(text, PAGE_TAIL)
    }
}
