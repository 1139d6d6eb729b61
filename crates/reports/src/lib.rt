//! Reports on one puzzle, from its text: its closure under line deduction, its grade and solutions,
//! and its text in another format.
#![tactic(auto)]

mod converting;
mod reports;

/// The version of `nonograde`, as MAJOR.MINOR.PATCH.
pub const VERSION: &str = "0.3.0";

pub use converting::{ConvertFault, convert};
pub use reports::{lines_report, lines_text, push_closed, solve_report, solve_text};
