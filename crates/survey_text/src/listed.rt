//! Entries with their results, as a form prints them.

ghost use Rattle.std.specs.Prelude.{◌≡◌, Ok};
ghost use Rattle.survey_text.specs.Goals.{goal_word};

use crate::goals::goal_word;
use grid_core::{GoalWord, NoMemory, Puzzle};
use lane_core::Answer;
use puzzle_text::EntryFault;
use solve_core::Findings;

/// A graded puzzle, with the findings of its report and the word for its goal.
#[derive(Drop)]
pub struct GradedPuzzle<'a> {
    /// The answer: the puzzle, and the limit on guesses and the pick by which it was graded.
    pub answer: &'a Answer,
    /// The findings of the report on the puzzle.
    pub findings: &'a Findings,
    /// Whether the puzzle has a goal, and whether that meets the clues.
    pub goal: GoalWord,
    pub ghost found_is: { answer.now.outcome ≡ Ok findings.now },
    pub ghost goal_is: { goal ≡ goal_word answer.now.puzzle },
}

impl<'a> GradedPuzzle<'a> {
    /// Returns the puzzle that was graded.
    pub fn puzzle(&self) -> &'a Puzzle
        ensures { result.now ≡ self.now.answer.now.puzzle }
    {
        self.answer.puzzle()
    }
}

/// An entry as a form prints it: its name and its text, with its graded puzzle or the fault for
/// which it is refused.
#[derive(Drop)]
pub struct ListedEntry<'a> {
    /// The entry's name.
    pub name: &'a [u8],
    /// The entry's text.
    pub body: &'a [u8],
    /// The graded puzzle, or why the entry is refused.
    pub result: Result<GradedPuzzle<'a>, EntryFault>,
}

impl<'a> ListedEntry<'a> {
    ghost use Rattle.std.specs.Prelude.{◌≡◌, Err, IfErr, IfOk, IsOk, OnOk};
    ghost use Rattle.survey_text.specs.Forms.{report_of_answer};
    ghost use Rattle.survey_text.specs.Listed.{form_entry};

    /// Returns the entry with this name and this text, refused for `fault`.
    pub fn refused(name: &'a [u8], body: &'a [u8], fault: EntryFault) -> ListedEntry<'a>
        ensures { form_entry result
            ≡ record { name = name.now; body = body.now; result = Err fault } }
    {
        ListedEntry {
            name,
            body,
            result: Err(fault),
        }
    }

    /// Returns the entry with this name and this text, whose puzzle was graded, with what `answer`
    /// found. Fails with `NoMemory` if the answer did.
    pub fn graded(
        name: &'a [u8],
        body: &'a [u8],
        answer: &'a Answer,
    ) -> Result<ListedEntry<'a>, NoMemory>
        ensures listed { IfOk result (λ listed. form_entry listed ≡ record {
          name = name.now;
          body = body.now;
          result = report_of_answer answer.now;
        }) }
        ensures report { OnOk result (IsOk answer.now.outcome) }
        ensures refused { IfErr result (λ refused. answer.now.outcome ≡ Err refused) }
    {
        match answer.outcome() {
            Ok(findings) => {
                let goal = goal_word(answer.puzzle(), &findings.verdict);
                Ok(ListedEntry {
                    name,
                    body,
                    result: Ok(GradedPuzzle {
                        answer,
                        findings,
                        goal,
                    }),
                })
            }
            Err(refused) => Err(refused),
        }
    }
}
