//! The command line of the program: its words, its help, and what is asked for.
#![tactic(auto)]

mod arguments;
mod checks;
mod command;
mod grading_help;
mod puzzles;
mod surveys;
mod values;

pub use checks::CheckRequest;
pub use command::{CommandFault, Request, parse_words};
pub use surveys::{SurveyFormat, SurveyRequest};
