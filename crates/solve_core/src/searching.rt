//! The search for solutions.

pub mod branches;
pub mod search;
pub mod solutions;
