//! The library for C, and for languages that can call C: solving a puzzle's text, grading it,
//! reporting on it, checking it, applying line logic to it, closing a grid of it, finding the
//! solutions that extend a grid of it, and converting it.
#![tactic(auto)]

mod answers;
mod checking;
mod closing;
mod exports;
mod extending;
mod facts;
mod faults;
mod given_cells;
mod json_reports;
mod lengths;
mod replies;
mod settings;

pub use exports::{
    nonograde_buffer_size, nonograde_check, nonograde_close, nonograde_convert, nonograde_extend,
    nonograde_grade, nonograde_lines, nonograde_report, nonograde_solve, nonograde_version,
};
pub use facts::Facts;
pub use replies::Reply;
