//! Checking files and collections: grading their puzzles over lanes, and writing what is wrong with
//! each.
#![tactic(auto)]

mod checking;
mod files;
mod found;
mod runs;

pub use files::CheckFile;
pub use runs::{check_files, run_check};
