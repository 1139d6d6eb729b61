//! Tests of `lane_core`.
#![tactic(auto)]

#[cfg(test)]
mod tests_lanes;
#[cfg(test)]
mod tests_limits;
#[cfg(test)]
mod tests_refused_grading;
#[cfg(test)]
mod tests_refused_lanes;
#[cfg(test)]
mod tests_scripts;
