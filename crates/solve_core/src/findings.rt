//! The findings of a report on a puzzle.

use grid_core::Grid;

/// How many full grids meet a puzzle's clues, as far as the search could determine it. Each grid in
/// a verdict has the puzzle's size, is full and meets the clues.
#[derive(Debug, Drop)]
pub enum Verdict {
    /// No grid meets the clues.
    Nothing,
    /// This grid meets the clues, and no other does.
    One(Grid),
    /// Two different grids that meet the clues, in the order in which they were found. There
    /// may be more.
    Several(Grid, Grid),
    /// The limit on guesses cut the search short. The grid, if any, is the one solution found until
    /// then.
    Unsettled(Option<Grid>),
}

/// The means that it took to make every cell known, or to find a contradiction.
#[derive(Clone, Copy, Debug, PartialEq, Eq)]
pub enum Grade {
    /// Line deduction alone.
    Lines,
    /// Line deduction and trials of single cells.
    Trials,
    /// A search, whether or not the limit on guesses cut it short.
    Search,
}

/// All that a report finds out about a puzzle.
#[derive(Debug, Drop)]
pub struct Findings {
    /// How many grids meet the clues.
    pub verdict: Verdict,
    /// Which means the puzzle took.
    pub grade: Grade,
    /// How many cells are known once the unknown grid is closed under line deduction, from 0 to
    /// 65,536; 0 if that finds a contradiction.
    pub line_known: u32,
    /// How many cells are known once that grid is closed under trials, from 0 to 65,536; 0 if line
    /// deduction or trials find a contradiction.
    pub trial_known: u32,
    /// How many guesses were spent: one for each colour that was guessed at a cell. Never more than
    /// the limit.
    pub spent: u32,
}
