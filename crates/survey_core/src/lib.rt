//! Surveys of collections: reading a collection, grading its puzzles over lanes or on one thread,
//! and writing the survey as text or in another form.
#![tactic(auto)]

mod chunks;
mod collecting;
mod collecting_one;
mod faults;
mod grading;
mod heap_reserve;
mod job_order;
mod lanes;
pub mod laws;
mod parsed_entries;
mod progress;
mod progress_gate;
mod settings;
mod surveys;
mod workers;

pub use collecting::{CollectFault, MAX_JOBS, collect};
pub use collecting_one::collect_one;
pub use faults::RunFault;
pub use grading::grade_entries;
pub use progress_gate::ProgressGate;
pub use settings::{DEFAULT_GUESSES, DEFAULT_LANES, DEFAULT_RING, MAX_LANES, MAX_RING, Settings};
pub use streams::{Counted, write_text};
pub use survey_text::{
    Outcome, SurveyForm, TextForm, print_entry, print_graded, print_survey, push_grid,
};
pub use surveys::{run_survey, run_survey_as, survey_entries, survey_entries_as};
