//! Surveys as a page of HTML: the lines of JSON as data, between the two parts of a page that draws
//! them.
#![tactic(auto)]

mod forms;
pub mod laws;
mod page;

pub use forms::HtmlForm;
