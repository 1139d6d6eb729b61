//! Tests of `stop_text` of `program`, which the program itself doesn't call.
#![tactic(auto)]

#[cfg(test)]
mod tests;
#[cfg(test)]
mod tests_refused;
