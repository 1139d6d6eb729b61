//! Laws of the definitions, each stated as the contract of a function that does nothing.

ghost use Rattle.std.specs.Prelude.{List, Bool, ◌≡◌};
ghost use Rattle.grid_core.specs.declared.limits.TheConstants.{MAX_SIDE, MAX_TEXT_LEN, MAX_RUNS};
ghost use Rattle.grid_core.specs.Nonogram.{Nonogram};
ghost use Rattle.grid_core.specs.Indexing.{ColumnIsStride, RowIsRange};

/// In a grid of width w, row y consists of the w cells from index y · w on, in row order.
#[tactic(auto, using(crate::proofs::LineLaws::lines_lie))]
pub fn rows_are_ranges()
    ensures { (p : Nonogram) → RowIsRange p }
{}

/// In a grid of width w and height h, column x consists of h cells: every w-th one from index x on,
/// in row order.
#[tactic(auto, using(crate::proofs::LineLaws::lines_lie))]
pub fn columns_are_strides()
    ensures { (p : Nonogram) → ColumnIsStride p }
{}

/// The limits on puzzles have these values.
pub fn limits_are_numbers()
    ensures side { MAX_SIDE ≡ 256 }
    ensures runs { MAX_RUNS ≡ 128 }
    ensures text { MAX_TEXT_LEN ≡ 65536 }
{}
