//! A grid as rows and columns, with a trail by which assignments are undone.

pub mod boards;
pub mod crossing_writes;
pub mod grid_lines;
pub mod line_mask;
pub mod trails;
pub mod words;
