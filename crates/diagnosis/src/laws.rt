//! Laws of the definitions of a diagnosis, for all puzzles. Each law is the contract of a function
//! that does nothing.

ghost use Rattle.std.specs.Prelude.{◌≡◌, ◌≢◌, [], None};
ghost use Rattle.grid_core.specs.Nonogram.{IsNonogram, Nonogram, Solves};
ghost use Rattle.grid_core.specs.PartialGrid.{PartialGrid};
ghost use Rattle.solve_core.specs.Report.{line_closure};
ghost use Rattle.diagnosis.specs.Contradictions.{first_contradiction};
ghost use Rattle.diagnosis.specs.Misfits.{misfits_of};
ghost use Rattle.diagnosis.specs.Sums.{sums_of};

/// If a clue doesn't fit its line, no grid solves the puzzle.
pub fn misfits_have_no_solution()
    ensures { (p : Nonogram) → misfits_of p ≢ [] → (g : PartialGrid) → Solves p g → ⊥ }
{}

/// If the row clues and the column clues ask for different numbers of filled cells, no grid solves
/// the puzzle.
pub fn unequal_sums_have_no_solution()
    ensures { (p : Nonogram) → IsNonogram p → (sums_of p).rows ≢ (sums_of p).columns
        → (g : PartialGrid) → Solves p g → ⊥ }
{}

/// If line logic refutes a puzzle, its first dead round shows a contradiction.
pub fn dead_rounds_show_a_contradiction()
    ensures { (p : Nonogram) → IsNonogram p → line_closure p ≡ None → first_contradiction p ≢ None }
{}
