//! Deducing the lines of a puzzle, with what is kept of it.

pub mod deducer;
pub mod deduction_cache;
pub mod lookahead_tables;
