//! Tests of `grid_core`, `puzzle_text` and `alloc_failures`.
#![tactic(auto)]

#[cfg(test)]
mod tests;
#[cfg(test)]
mod tests_diagnosis;
#[cfg(test)]
mod tests_refused;
#[cfg(test)]
mod tests_refused_diagnosis;
#[cfg(test)]
mod tests_refused_grids;
