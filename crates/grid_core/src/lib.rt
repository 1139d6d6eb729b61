//! Clues, puzzles and partly known grids of nonograms.
#![tactic(auto)]

mod axes;
mod cells;
mod clues;
mod fields;
mod grids;
pub mod laws;
mod limits;
mod lines;
mod memory;
mod pictures;
mod puzzles;
mod rows;
mod runs;

pub use axes::Axis;
pub use cells::Cell;
pub use clues::{Clue, ClueFault};
pub use fields::{Field, Texts, TextsFault};
pub use grids::Grid;
pub use limits::{MAX_RUNS, MAX_SIDE, MAX_TEXT_LEN};
pub use lines::BitLine;
pub use memory::NoMemory;
pub use puzzles::{GoalWord, Puzzle, PuzzleFault};
pub use runs::has_runs;
