//! Reading up to a limit and writing whole texts, over readers and writers that count their failed
//! calls.
#![tactic(auto)]

mod counted;
mod reading;
mod writing;

pub use counted::Counted;
pub use reading::{ReadFault, read_within};
pub use writing::{write_text, write_texts};
