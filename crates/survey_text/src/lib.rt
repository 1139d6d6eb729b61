//! Surveys as text, or in another form: grids, entries, totals, and whole surveys, printed at once
//! or in chunks.
#![tactic(auto)]

mod entries;
mod faults;
mod forms;
mod goals;
pub mod laws;
mod listed;
mod listings;
mod names;
mod outcomes;
mod pictures;
mod printing;
mod texts;
mod totals;
mod words;

pub use entries::{print_entry, print_graded, push_solutions};
pub use faults::{fault_line, fault_name};
pub use forms::{SurveyForm, TextForm};
pub use listed::{GradedPuzzle, ListedEntry};
pub use listings::AnswerListing;
pub use names::push_name;
pub use outcomes::Outcome;
pub use pictures::push_grid;
pub use printing::print_survey;
pub use texts::{ChunkTexts, SurveyText};
pub use totals::{GradeTotals, Totals, VerdictTotals};
pub use words::{goal_text, grade_word, verdict_word};
