//! The texts that `check` prints: what is wrong with a puzzle or with a refused text, and where.
#![tactic(auto)]

mod ambiguity;
mod clue_texts;
mod entry_messages;
mod findings;
mod goals;
mod grades;
mod heads;
mod messages;
mod numbers;
mod pictures;
mod puzzle_findings;
mod quoting;
mod refutations;
mod text_counts;
mod text_faults;
mod text_findings;
mod text_forms;
mod totals;
mod unfinished;
mod unread;
mod unsettled;
mod unsolvable;
mod windows;

pub use entry_messages::{diagnosis_of, push_message};
pub use heads::Level;
pub use messages::{push_diagnosis_message, push_refused_message};
pub use puzzle_findings::{CheckOptions, push_graded};
pub use text_findings::{push_refused, push_text_finding};
pub use totals::{Subject, push_totals, worst_of};
pub use unread::{Unread, push_unread};
