//! Tests of `survey_json`.
#![tactic(auto)]

#[cfg(test)]
mod lines;
#[cfg(test)]
mod tests;
#[cfg(test)]
mod tests_refused;
