//! Laws of the formats, each stated as the contract of a function that does nothing.

ghost use Rattle.std.specs.Prelude.{ℕ, ◌≡◌, ◌≤◌};
ghost use Rattle.puzzle_text.specs.Laws.{AmbiguousIsReadOtherwise, GreaterLimitKeeps, MkIsReadBack, NinIsReadBack, NonIsReadBack, WrittenIsShort};
ghost use Rattle.puzzle_text.specs.declared.limits.TheConstants.{MAX_COLLECTION_LEN, MAX_PUZZLE_LEN, MAX_ENTRIES};

use grid_core::MAX_SIDE;

/// The text that `write_non` returns is read again as the same puzzle, including its texts and its
/// goal.
#[tactic(auto, using(crate::proofs::ReadNon::non_read_again))]
pub fn non_is_read_back()
    ensures { NonIsReadBack MAX_SIDE }
{}

/// The text that `write_mk` returns is read again as the same puzzle without texts and goal.
#[tactic(auto, using(crate::proofs::ReadMk::mk_read_again))]
pub fn mk_is_read_back()
    ensures { MkIsReadBack MAX_SIDE }
{}

/// The text that `write_nin` returns is read again as the same puzzle without texts and goal.
#[tactic(auto, using(crate::proofs::ReadMk::nin_read_again))]
pub fn nin_is_read_back()
    ensures { NinIsReadBack MAX_SIDE }
{}

/// The text in `.nin` of a puzzle that `write_nin` refuses would be read with other sizes: width
/// and height exchanged, and the same clues in the same order.
#[tactic(auto, using(crate::proofs::ReadMk::nin_read_otherwise))]
pub fn ambiguous_is_read_otherwise()
    ensures { AmbiguousIsReadOtherwise MAX_SIDE }
{}

/// The text of a puzzle in any format is short enough to be read again.
#[tactic(auto, using(crate::proofs::ReadNon::length_non, crate::proofs::ReadMk::length_mk, crate::proofs::ReadMk::length_nin))]
pub fn written_is_short()
    ensures { WrittenIsShort MAX_SIDE }
{}

/// If sides and clue numbers may be greater, each text keeps its puzzle or its fault, unless that
/// fault was `BadSize` or `BadNumber`.
pub fn greater_limit_keeps()
    ensures { (limit greater : ℕ) → limit ≤ greater → GreaterLimitKeeps limit greater }
{}

/// With `MAX_SIDE` as the limit on sides and clue numbers, each text has the same puzzle or the
/// same fault as with a limit of 128, unless that fault is `BadSize` or `BadNumber`.
pub fn max_side_keeps_128()
    ensures { GreaterLimitKeeps 128 MAX_SIDE }
{}

/// The values of the limits on puzzles' texts and on collections.
pub fn limits_are_numbers()
    ensures puzzle { MAX_PUZZLE_LEN ≡ 1048576 }
    ensures collection { MAX_COLLECTION_LEN ≡ 16777216 }
    ensures entries { MAX_ENTRIES ≡ 10000 }
{}
