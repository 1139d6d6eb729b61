//! Printing a whole survey, or a chunk of one.

ghost use Rattle.std.specs.Prelude.{◌≡◌, ◌++◌, ◌∷◌, ◌+◌, ◌<◌, ◌≤◌, ◌^◌, [], List, Some, length, IfOk, OnOk, map};
ghost use Rattle.survey_text.specs.Entries.{shown_outcome};
ghost use Rattle.survey_text.specs.Forms.{FormEntry};
ghost use Rattle.survey_text.specs.Listed.{form_entry};
ghost use Rattle.survey_text.specs.Survey.{survey_text};
ghost use Rattle.survey_text.specs.steps.Chunks.{IsChunk};
ghost use Rattle.survey_text.specs.steps.Tallies.{CanCount};

use crate::Outcome;
use crate::forms::{SurveyForm, TextForm};
use crate::listed::ListedEntry;
use crate::listings::{Listing, OutcomeListing};
use crate::totals::Totals;
use grid_core::NoMemory;
use puzzle_text::MAX_ENTRIES;
use std::alloc::Global;

/// A chunk of a survey: the text and the totals of consecutive entries.
#[derive(Drop)]
pub(crate) struct Chunk {
    /// The text of the entries.
    pub text: Vec<u8>,
    /// The totals of the entries.
    pub totals: Totals,
}

impl Chunk {
    /// Prints the entries of `listing`, numbered from `first`, in `form`. Fails with `NoMemory` if
    /// an answer did, or if an allocation fails.
    pub fn of<'a, L: Listing<'a> + Drop, F: SurveyForm>(
        alloc: Global,
        first: u32,
        listing: L,
        form: &F,
    ) -> Result<Chunk, NoMemory>
        requires numbers { first + length (L.remaining listing) < 2 ^ 32 }
        requires few { length (L.remaining listing) < 2 ^ 31 }
        ensures { IfOk result (λ chunk. (entries : List FormEntry)
            × (L.remaining listing ≡ map Some entries)
            × IsChunk (F.form form.now) first chunk entries) }
    {
        let mut listing = listing;
        let mut chunk = Chunk {
            text: Vec::new(alloc),
            totals: Totals::none(),
        };
        'listing: while let Some(entry) = listing.next()? {
            chunk.add(first, &entry, form)?;
        }
        Ok(chunk)
    }

    /// Appends `entry` in `form`, and counts it. `first` is the number of the chunk's first entry.
    fn add<F: SurveyForm>(
        &mut self,
        first: u32,
        entry: &ListedEntry<'_>,
        form: &F,
    ) -> Result<(), NoMemory>
        requires can_count { CanCount self.old.totals }
        requires number { first + self.old.totals.entries < 2 ^ 32 }
        ensures { (entries : List FormEntry) → IsChunk (F.form form.now) first self.old entries
            → OnOk result
            (IsChunk (F.form form.now) first self.new (entries ++ form_entry entry.now ∷ [])) }
    {
        let number = first + self.totals.entries as u32;
        form.push_entry(&mut self.text, number, entry)?;
        self.totals.count(entry);
        Ok(())
    }
}

/// Returns the text of a survey of at most 10,000 entries: the text of each entry, numbered from 1,
/// with its solutions if `show` is set, and the line of totals. An answer that failed with
/// `NoMemory` is printed as an entry refused with that word. Fails with `NoMemory` if an allocation
/// for the text does.
pub fn print_survey(alloc: Global, outcomes: &[Outcome], show: bool) -> Result<Vec<u8>, NoMemory>
    requires { length outcomes.now ≤ MAX_ENTRIES }
    ensures { IfOk result (λ text. text.items ≡ survey_text show (map shown_outcome outcomes.now)) }
{
    // Nothing stands before the entries of a survey in text.
    let form = TextForm { show };
    let Chunk { text, totals } = Chunk::of(alloc, 1, OutcomeListing { outcomes }, &form)?;
    let mut text = text;
    form.push_tail(&mut text, &totals)?;
    Ok(text)
}
