//! The limits on puzzles.

/// The greatest width and height of a puzzle, in cells, and the greatest number in a clue.
pub const MAX_SIDE: u16 = 256;

/// The greatest number of runs in a clue.
pub const MAX_RUNS: usize = 128;

/// The greatest length, in bytes, of each of a puzzle's five texts (its title, for example).
pub const MAX_TEXT_LEN: usize = 65_536;
