//! The form of csv.

ghost use Rattle.survey_csv.specs.Forms.{csv_form};

use crate::rows::{push_csv_header, push_csv_row};
use check_text::push_message;
use grid_core::NoMemory;
use std::alloc::Global;
use survey_text::{ListedEntry, SurveyForm, Totals};

/// The form of csv: a header line, and a record for each entry with the message on it.
#[derive(Clone, Copy)]
pub struct CsvForm {
    /// The allocator of the messages and of the writers of records.
    pub alloc: Global,
}

impl SurveyForm for CsvForm {
    ghost form = { λ csv. csv_form };

    fn push_head(&self, text: &mut Vec<u8>) -> Result<(), NoMemory> {
        push_csv_header(text)
    }

    fn push_entry(
        &self,
        text: &mut Vec<u8>,
        number: u32,
        entry: &ListedEntry<'_>,
    ) -> Result<(), NoMemory> {
        let mut message = Vec::new(self.alloc);
        push_message(&mut message, self.alloc, entry)?;
        push_csv_row(text, self.alloc, number, entry, &message)
    }

    fn push_tail(&self, _text: &mut Vec<u8>, _totals: &Totals) -> Result<(), NoMemory> {
        Ok(())
    }
}
