//! A puzzle that is being solved: propagation and trials.

pub mod propagation;
pub mod trials;
pub mod workspaces;
