//! Tests of `survey_csv`.
#![tactic(auto)]

#[cfg(test)]
mod tests;
#[cfg(test)]
mod tests_forms;
#[cfg(test)]
mod tests_quoting;
#[cfg(test)]
mod tests_refused;
