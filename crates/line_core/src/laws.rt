//! Laws of the definitions of deduced lines and of outermost placings, for all lines and clues.
//! Each law is the contract of a function that does nothing.

ghost use Rattle.std.specs.Prelude.{◌≡◌, ℕ, List, Bool, true, Some, map, nat_le};
ghost use lib.Pointwise.{pointwise};
ghost use Rattle.grid_core.specs.declared.cells.Cell.{Cell};
ghost use Rattle.grid_core.specs.Cells.{Extends, colour};
ghost use Rattle.line_core.specs.Placings.{is_placing};
ghost use Rattle.line_core.specs.Deduction.{deduced};
ghost use Rattle.line_core.specs.RunStarts.{leftmost, rightmost, AreStarts};
ghost use Rattle.line_core.specs.declared.lookahead.TheConstants.{MAX_LOOKAHEAD_LEN};
ghost use Rattle.line_core.specs.Order.{AtMost};

/// A deduced line knows at least what the line knows: each known cell keeps its colour.
#[tactic(auto, using(crate::proofs::DeductionLaws::laws))]
pub fn deduced_knows_the_line()
    ensures { (line : List Cell) (clue : List ℕ) → AtMost (Some line) (deduced line clue) }
{}

/// A line with a placing is not dead, and each placing agrees with the deduced line.
#[tactic(auto, using(crate::proofs::DeductionLaws::laws))]
pub fn placings_extend_the_deduced()
    ensures { (line : List Cell) (clue : List ℕ) (full : List Bool)
        → is_placing line clue full ≡ true
        → AtMost (deduced line clue) (Some (map colour full)) }
{}

/// If `more` knows at least what `line` knows, its deduced line knows at least what that of `line`
/// knows, where a dead line counts as knowing the most.
#[tactic(auto, using(crate::proofs::DeductionLaws::laws))]
pub fn deduction_is_monotone()
    ensures { (line more : List Cell) (clue : List ℕ)
        → Extends line more → AtMost (deduced line clue) (deduced more clue) }
{}

/// Deduction is idempotent: deducing a deduced line changes nothing.
#[tactic(auto, using(crate::proofs::DeductionLaws::laws))]
pub fn deduction_is_idempotent()
    ensures { (line known : List Cell) (clue : List ℕ)
        → deduced line clue ≡ Some known → deduced known clue ≡ Some known }
{}

/// The leftmost starts are those of a placing, and none is greater than the start of the same run
/// in any placing.
pub fn leftmost_is_least()
    ensures { (line : List Cell) (clue starts : List ℕ) → leftmost line clue ≡ Some starts
        → AreStarts line clue starts
        × ((other : List ℕ) → AreStarts line clue other → pointwise nat_le starts other ≡ true) }
{}

/// The rightmost starts are those of a placing, and none is less than the start of the same run in
/// any placing.
pub fn rightmost_is_greatest()
    ensures { (line : List Cell) (clue starts : List ℕ) → rightmost line clue ≡ Some starts
        → AreStarts line clue starts
        × ((other : List ℕ) → AreStarts line clue other → pointwise nat_le other starts ≡ true) }
{}

/// Lookahead tables are built for lines of up to this many cells.
pub fn limit_is_a_number()
    ensures { MAX_LOOKAHEAD_LEN ≡ 128 }
{}

/// If there is a placing, there are a leftmost and a rightmost one.
pub fn outermost_exist()
    ensures { (line : List Cell) (clue starts : List ℕ) → AreStarts line clue starts
        → ((least : List ℕ) × (leftmost line clue ≡ Some least))
        × ((greatest : List ℕ) × (rightmost line clue ≡ Some greatest)) }
{}
