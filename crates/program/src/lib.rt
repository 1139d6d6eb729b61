//! The program: parses its words, performs the request, and prints to the streams that it is given.
#![tactic(auto)]

mod checks;
mod files;
mod forms;
mod performing;
mod running;
mod stop;
mod words;

pub use files::read_prefix;
pub use running::{report_stop, run};
pub use stop::{Stop, stop_text};
pub use words::{WordsFault, refuse_words, words_of};
