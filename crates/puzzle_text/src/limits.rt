//! The limits on puzzles' texts and on collections. Those on puzzles are in `grid_core`.

/// The greatest length of a puzzle's whole text, in bytes, in any format. (A single text in it,
/// such as its title, has at most `grid_core`'s `MAX_TEXT_LEN`.)
pub const MAX_PUZZLE_LEN: usize = 1_048_576;

/// The greatest length of a collection, in bytes, including its marker lines.
pub const MAX_COLLECTION_LEN: usize = 16_777_216;

/// The greatest number of entries of a collection, and so of its marker lines.
pub const MAX_ENTRIES: usize = 10_000;
