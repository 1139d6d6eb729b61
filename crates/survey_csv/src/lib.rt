//! Surveys as csv: a header line, and a record for each entry, graded or refused.
#![tactic(auto)]

mod fields;
mod forms;
mod graded;
pub mod laws;
mod records;
mod refused;
mod rows;

pub use forms::CsvForm;
pub use rows::{push_csv_header, push_csv_row};
