//! The forms in which a survey can be printed, and the first of them, text.

ghost use Rattle.std.specs.Prelude.{◌≡◌, ◌++◌, List, OnOk};
ghost use Rattle.survey_text.specs.Chunks.{IsTotals};
ghost use Rattle.survey_text.specs.Entries.{GradedEntry};
ghost use Rattle.survey_text.specs.Forms.{Form, text_form};
ghost use Rattle.survey_text.specs.Listed.{form_entry};

use crate::entries::push_entry;
use crate::listed::ListedEntry;
use crate::totals::Totals;
use grid_core::NoMemory;

/// A form in which a survey is printed. Its methods append the three parts of a survey, and fail
/// with `NoMemory` if an allocation does.
pub trait SurveyForm {
    /// The definitions of the texts that the methods append.
    ghost form: { Self → Form };

    /// Appends what stands before the entries.
    fn push_head(&self, text: &mut Vec<u8>) -> Result<(), NoMemory>
        ensures { OnOk result (text.new.items ≡ text.old.items ++ (form self.now).head) };

    /// Appends `entry`, which has the number `number`.
    fn push_entry(
        &self,
        text: &mut Vec<u8>,
        number: u32,
        entry: &ListedEntry<'_>,
    ) -> Result<(), NoMemory>
        ensures { OnOk result (text.new.items
            ≡ text.old.items ++ (form self.now).entry number (form_entry entry.now)) };

    /// Appends what stands after the entries, of which `totals` are the totals.
    fn push_tail(&self, text: &mut Vec<u8>, totals: &Totals) -> Result<(), NoMemory>
        ensures { (entries : List GradedEntry) → IsTotals totals.now entries
            → OnOk result (text.new.items ≡ text.old.items ++ (form self.now).tail entries) };
}

/// The form of text: a line for each entry, with its solutions if `show` is set, and the line of
/// totals.
#[derive(Clone, Copy)]
pub struct TextForm {
    /// Whether the solutions are printed.
    pub show: bool,
}

impl SurveyForm for TextForm {
    ghost form = { λ text. text_form text.show };

    fn push_head(&self, _text: &mut Vec<u8>) -> Result<(), NoMemory> {
        Ok(())
    }

    fn push_entry(
        &self,
        text: &mut Vec<u8>,
        number: u32,
        entry: &ListedEntry<'_>,
    ) -> Result<(), NoMemory> {
        push_entry(text, number, entry, self.show)
    }

    fn push_tail(&self, text: &mut Vec<u8>, totals: &Totals) -> Result<(), NoMemory> {
        totals.push(text)
    }
}
