//! The entries of a survey as objects of JSON, each on a line, and the line of its totals.
#![tactic(auto)]

mod entries;
mod escaping;
mod forms;
mod keys;
pub mod laws;
mod lines;
mod pictures;
mod puzzles;
mod reports;
mod totals;
mod values;

pub use entries::push_json_line;
pub use escaping::push_escaped;
pub use forms::JsonForm;
pub use totals::{EntryCounts, push_json_totals};
