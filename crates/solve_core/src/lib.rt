//! The solver: the closure of grids under line deduction and under trials, the search for
//! solutions, and the report on a puzzle. Its parts, each over those before it:
//!
//! - `picks`: the cell to guess next in a grid.
//! - `grids`: a grid as rows and columns, with a trail by which assignments are undone.
//! - `deducing`: the deduced line of each line, from its clue, a cache or a lookahead table.
//! - `records`: consistent colours and conflict lines, which later trials and guesses use.
//! - `solving`: one workspace for a puzzle that is being solved; propagation and trials in it.
//! - `searching`: the search for solutions in a workspace.
//! - `reports`: the report on the puzzle of a workspace; `findings` are its parts.
//! - `extensions`: the solutions that extend a given grid.
//! - `any_workspaces`: workspaces in the narrowest sets that fit, which `widths` determines.
//! - `reporters`, `solver`, `line_grids`, `guessing`: what callers ask for.
//! - `laws`: what the public definitions mean.
#![tactic(auto)]

mod any_workspaces;
mod deducing;
mod extensions;
mod findings;
mod grids;
mod guessing;
pub mod laws;
mod line_grids;
mod picks;
mod records;
mod reporters;
mod reports;
mod searching;
mod solver;
mod solving;
mod widths;

pub use extensions::Extensions;
pub use findings::{Findings, Grade, Verdict};
pub use guessing::next_guess;
pub use line_grids::line_grid;
pub use picks::Pick;
pub use reporters::{Reporter, report};
pub use solver::Solver;
