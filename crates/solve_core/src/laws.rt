//! Laws of the definitions of closure, trials, search, report and rules for guesses.
#![tactic(auto, using(crate::proofs::StatedLaws::laws))]

ghost use Rattle.std.specs.Prelude.{◌≡◌, ◌*◌, ◌<◌, ◌≤◌, ◌↔◌, ℕ, List, length, Option, Some};
ghost use Rattle.grid_core.specs.declared.cells.Cell.{Cell};
ghost use Rattle.grid_core.specs.Nonogram.{GridLine, Nonogram, IsNonogram};
ghost use Rattle.solve_core.specs.Closure.{round, closure};
ghost use Rattle.solve_core.specs.Extensions.{HoldsFrom, extensions_by};
ghost use Rattle.solve_core.specs.LeastClosed.{IsLeastClosed};
ghost use Rattle.solve_core.specs.MostKnown.{IsMostKnown};
ghost use Rattle.solve_core.specs.Picks.{most_known};
ghost use Rattle.solve_core.specs.Report.{verdict_of, guesses_of, report_of};
ghost use Rattle.solve_core.specs.Search.{IsPick, first_unknown, search_from, events};
ghost use Rattle.solve_core.specs.Trials.{trial_round, trials, HasNoRefutedColour};
ghost use Rattle.solve_core.specs.Verdicts.{Holds, IsFinal};

/// The closure is the least line-closed grid that knows what the grid knows, so it doesn't depend
/// on the order in which lines are deduced. It is dead exactly if there is no such grid.
pub fn closure_is_least()
    ensures { (lines : List GridLine) (grid : List Cell)
        → IsLeastClosed (round lines) grid (closure lines grid) }
{}

/// The grid after trials is the least trial-closed grid that knows what the grid knows. It is dead
/// exactly if there is no such grid.
pub fn trials_are_least()
    ensures { (lines : List GridLine) (grid : List Cell)
        → IsLeastClosed (trial_round lines) grid (trials lines grid) }
{}

/// A grid is trial-closed exactly if it is line-closed and no unknown cell has a refuted colour.
pub fn trial_closed_means()
    ensures { (lines : List GridLine) (grid : List Cell) → (trial_round lines grid ≡ Some grid)
        ↔ ((round lines grid ≡ Some grid)
        × ((k : ℕ) → k < length grid → HasNoRefutedColour lines grid k)) }
{}

/// After each guess the search continues as a search of the resulting grid.
pub fn search_unfolds()
    ensures { (pick : List Cell → Option ℕ) → IsPick pick →
        (lines : List GridLine) (grid : List Cell) →
        events pick lines grid ≡ search_from pick (events pick lines) (closure lines grid) }
{}

/// The verdict on a puzzle is true of all full grids, whatever the rule for guesses.
pub fn verdict_holds()
    ensures { (pick : List Cell → Option ℕ) → IsPick pick →
        (p : Nonogram) → IsNonogram p → (limit : ℕ) →
        Holds pick p limit (verdict_of pick p limit) }
{}

/// The verdict on the solutions that extend a grid is true of all full grids that extend it,
/// whatever the rule for guesses.
pub fn extensions_hold()
    ensures { (pick : List Cell → Option ℕ) → IsPick pick → (p : Nonogram) → IsNonogram p →
        (given : List Cell) → length given ≡ p.width * p.height → (limit : ℕ) →
        HoldsFrom pick p given limit (extensions_by pick p given limit).verdict }
{}

/// No more guesses are spent than the limit allows.
pub fn spent_is_within()
    ensures { (pick : List Cell → Option ℕ) (p : Nonogram) (limit : ℕ)
        → guesses_of pick p limit ≤ limit }
{}

/// If the verdict is final, the whole report is the same for every greater limit on guesses.
pub fn final_report_stays()
    ensures { (pick : List Cell → Option ℕ) (p : Nonogram) (limit greater : ℕ) → limit ≤ greater
        → IsFinal (report_of pick p limit).verdict
        → report_of pick p greater ≡ report_of pick p limit }
{}

/// Picking the first unknown cell is an admissible rule for guesses.
pub fn first_unknown_is_pick()
    ensures { IsPick first_unknown }
{}

/// Picking the unknown cell with the most known neighbours is an admissible rule for guesses.
pub fn most_known_is_pick()
    ensures { (width : ℕ) → IsPick (most_known width) }
{}

/// The cell that the rule of most known neighbours picks is unknown; no unknown cell has more
/// neighbours that are known or outside the grid, and each unknown cell before it in row order has
/// fewer.
pub fn most_known_is_most()
    ensures { (width : ℕ) (grid : List Cell) (k : ℕ) → most_known width grid ≡ Some k
        → IsMostKnown width grid k }
{}
