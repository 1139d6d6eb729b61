//! Sequences of entries with their results, as a survey prints them.

ghost use Rattle.std.specs.Prelude.{◌≡◌, ◌∷◌, [], List, Option, Some, IfOk, MatchOption};
ghost use Rattle.survey_text.specs.Forms.{FormEntry};
ghost use Rattle.survey_text.specs.Listed.{form_entry};
ghost use Rattle.survey_text.specs.Listings.{answered};
ghost use Rattle.survey_text.specs.steps.Listings.{in_hand};

use crate::Outcome;
use crate::listed::ListedEntry;
use grid_core::NoMemory;
use lane_core::Answer;
use puzzle_text::{Entry, EntryFault};

/// A sequence of entries with their results, in the order in which a survey prints them.
pub(crate) trait Listing<'a> {
    /// The entries that are left, with `None` for each one whose answer failed with `NoMemory`.
    ghost remaining: { Self → List (Option FormEntry) };

    /// Returns the next entry, or `None` if none is left. Fails with `NoMemory` if its answer did.
    fn next(&mut self) -> Result<Option<ListedEntry<'a>>, NoMemory>
        ensures { IfOk result (λ next. MatchOption next (remaining self.old ≡ [])
            (λ entry. remaining self.old ≡ Some (form_entry entry) ∷ remaining self.new)) };
}

/// The entries of a list of outcomes.
#[derive(Drop)]
pub(crate) struct OutcomeListing<'a> {
    /// The outcomes that are left.
    pub outcomes: &'a [Outcome],
}

impl<'a> Listing<'a> for OutcomeListing<'a> {
    ghost remaining = { λ listing. in_hand listing.outcomes.now };

    fn next(&mut self) -> Result<Option<ListedEntry<'a>>, NoMemory> {
        let Some((outcome, others)) = self.outcomes.split_first() else {
            return Ok(None);
        };
        self.outcomes = others;
        Ok(Some(outcome.listed()))
    }
}

/// Entries that were read, each with its fault or, if it has none, with the next answer.
#[derive(Drop)]
pub struct AnswerListing<'a, 'e> {
    /// The entries that are left.
    pub entries: &'a [Entry<'e>],
    /// For each of the entries its fault, or `None` if it is a puzzle.
    pub faults: &'a [Option<EntryFault>],
    /// The answers to the puzzles among the entries, in order.
    pub answers: &'a [Answer],
}

impl<'a, 'e: 'a> Listing<'a> for AnswerListing<'a, 'e> {
    ghost remaining = { λ listing.
        answered listing.entries.now listing.faults.now listing.answers.now };

    fn next(&mut self) -> Result<Option<ListedEntry<'a>>, NoMemory> {
        let Some(entry) = self.entries.split_off_first() else {
            return Ok(None);
        };
        // With too few faults or answers the sequence ends early, as `answered` defines it.
        let Some(fault) = self.faults.split_off_first() else {
            return Ok(None);
        };
        if let Some(fault) = *fault {
            return Ok(Some(ListedEntry::refused(entry.name, entry.body, fault)));
        }
        let Some(answer) = self.answers.split_off_first() else {
            return Ok(None);
        };
        let listed = ListedEntry::graded(entry.name, entry.body, answer)?;
        Ok(Some(listed))
    }
}
