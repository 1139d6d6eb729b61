//! Laws of the definitions of surveys, each the contract of a function that does nothing.

ghost use Rattle.std.specs.Prelude.{◌≡◌, ◌↔◌, List, Bool, true};
ghost use Rattle.grid_core.specs.Nonogram.{Meets, Nonogram};
ghost use Rattle.puzzle_text.specs.Words.{numbered_word, word_of};
ghost use Rattle.puzzle_text.specs.declared.faults.EntryFault.{EntryFault};
ghost use Rattle.survey_text.specs.Faults.{fault_line, fault_name};
ghost use Rattle.survey_text.specs.Goals.{meets_clues};

/// The test that chooses the word for a goal is true exactly of the full grids that meet the clues.
#[tactic(auto, using(crate::proofs::GoalLemmas::meets_decide))]
pub fn test_is_meeting()
    ensures { (p : Nonogram) (full : List Bool) → (meets_clues p full ≡ true) ↔ Meets p full }
{}

/// The name of a fault and the number of its line are what its fault word consists of.
pub fn fault_words_are_names_and_lines()
    ensures { (fault : EntryFault) → word_of fault
        ≡ numbered_word (fault_name fault) (fault_line fault) }
{}
