//! Tests of `diagnosis`.
#![tactic(auto)]

#[cfg(test)]
mod tests;
#[cfg(test)]
mod tests_refused;
