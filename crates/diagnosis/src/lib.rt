//! The diagnosis of a puzzle: what is wrong with it, and where.
#![tactic(auto)]

mod contradictions;
mod diagnosing;
mod differences;
mod goals;
pub mod laws;
mod misfits;
mod sums;

pub use contradictions::{Contradiction, Refutation, first_contradiction};
pub use diagnosing::{Diagnosis, Outcome, diagnose};
pub use differences::{Position, differing_cells};
pub use goals::goal_rows;
pub use misfits::{Misfit, puzzle_misfits};
pub use sums::{Sums, puzzle_sums};
