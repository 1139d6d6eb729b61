//! The forms in which the program prints surveys.

ghost use Rattle.std.specs.Prelude.{◌≡◌};
ghost use Rattle.program.specs.Forms.{form_in, form_of};

use command_line::SurveyFormat;
use grid_core::NoMemory;
use std::alloc::Global;
use survey_csv::CsvForm;
use survey_json::JsonForm;
use survey_page::HtmlForm;
use survey_text::{ListedEntry, SurveyForm, TextForm, Totals};

/// The form in which a survey is printed, by its format.
#[derive(Clone, Copy)]
pub enum AnyForm {
    /// Text.
    Text(TextForm),
    /// A table in CSV.
    Csv(CsvForm),
    /// Lines of JSON.
    Json(JsonForm),
    /// A page in HTML.
    Html(HtmlForm),
}

impl AnyForm {
    /// Returns the form of surveys in `format`. In text they have the solutions if `show` is set.
    pub fn of(alloc: Global, format: SurveyFormat, show: bool) -> AnyForm
        ensures { form_in result ≡ form_of format show }
    {
        let json = JsonForm { alloc };
        match format {
            SurveyFormat::Text => AnyForm::Text(TextForm { show }),
            SurveyFormat::Csv => AnyForm::Csv(CsvForm { alloc }),
            SurveyFormat::Json => AnyForm::Json(json),
            SurveyFormat::Html => AnyForm::Html(HtmlForm { json }),
        }
    }
}

impl SurveyForm for AnyForm {
    ghost form = { form_in };

    fn push_head(&self, text: &mut Vec<u8>) -> Result<(), NoMemory> {
        match self {
            AnyForm::Text(form) => form.push_head(text),
            AnyForm::Csv(form) => form.push_head(text),
            AnyForm::Json(form) => form.push_head(text),
            AnyForm::Html(form) => form.push_head(text),
        }
    }

    fn push_entry(
        &self,
        text: &mut Vec<u8>,
        number: u32,
        entry: &ListedEntry<'_>,
    ) -> Result<(), NoMemory> {
        match self {
            AnyForm::Text(form) => form.push_entry(text, number, entry),
            AnyForm::Csv(form) => form.push_entry(text, number, entry),
            AnyForm::Json(form) => form.push_entry(text, number, entry),
            AnyForm::Html(form) => form.push_entry(text, number, entry),
        }
    }

    fn push_tail(&self, text: &mut Vec<u8>, totals: &Totals) -> Result<(), NoMemory> {
        match self {
            AnyForm::Text(form) => form.push_tail(text, totals),
            AnyForm::Csv(form) => form.push_tail(text, totals),
            AnyForm::Json(form) => form.push_tail(text, totals),
            AnyForm::Html(form) => form.push_tail(text, totals),
        }
    }
}
