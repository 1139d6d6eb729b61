//! The words that stand for what was found, as forms print them.

ghost use Rattle.std.specs.Prelude.{◌≡◌};
ghost use Rattle.survey_text.specs.Entries.{grade_word, verdict_word};
ghost use Rattle.survey_text.specs.Goals.{goal_text};

use grid_core::GoalWord;
use solve_core::{Grade, Verdict};

/// Returns the word for a verdict.
pub fn verdict_word(verdict: &Verdict) -> &'static str
    ensures { result.now ≡ verdict_word verdict.now }
{
    match verdict {
        Verdict::Nothing => "none",
        Verdict::One(_) => "one",
        Verdict::Several(_, _) => "several",
        Verdict::Unsettled(_) => "unsettled",
    }
}

/// Returns the word for a grade.
pub fn grade_word(grade: Grade) -> &'static str
    ensures { result.now ≡ grade_word grade }
{
    match grade {
        Grade::Lines => "line",
        Grade::Trials => "trials",
        Grade::Search => "search",
    }
}

/// Returns the word for whether a goal meets its clues.
pub fn goal_text(word: GoalWord) -> &'static str
    ensures { result.now ≡ goal_text word }
{
    match word {
        GoalWord::Absent => "absent",
        GoalWord::Meets => "meets",
        GoalWord::Misses => "misses",
    }
}
