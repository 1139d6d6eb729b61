//! The outcome of an entry: the answer to its job, or why it is refused.

use crate::listed::ListedEntry;
use lane_core::Answer;
use puzzle_text::{EntryFault, TextFault};

/// The name of an entry, with the answer to its job or the fault for which it is refused.
#[derive(Drop)]
pub struct Outcome {
    /// The entry's name.
    pub name: Vec<u8>,
    /// The answer to its job, or why the entry is refused.
    pub result: Result<Answer, EntryFault>,
}

impl Outcome {
    ghost use Rattle.std.specs.Prelude.{◌≡◌};
    ghost use Rattle.survey_text.specs.Listed.{form_entry};
    ghost use Rattle.survey_text.specs.steps.Listings.{textless};

    /// Returns the entry as a form prints it, with an empty text, since an outcome doesn't hold the
    /// text of its entry. An answer that failed with `NoMemory` becomes an entry refused with that
    /// fault.
    pub(crate) fn listed(&self) -> ListedEntry<'_>
        ensures { form_entry result ≡ textless self.now }
    {
        let name = self.name.as_slice();
        match &self.result {
            Ok(answer) => match ListedEntry::graded(name, b"", answer) {
                Ok(listed) => listed,
                Err(_) => ListedEntry::refused(name, b"", EntryFault::Text(TextFault::NoMemory)),
            },
            Err(fault) => ListedEntry::refused(name, b"", *fault),
        }
    }
}
