//! Tests of `streams`, `survey_text` and `survey_core`, and of the faults of `reports`.
#![tactic(auto)]

#[cfg(test)]
mod tests;
#[cfg(test)]
mod tests_answers;
#[cfg(test)]
mod tests_collect;
#[cfg(test)]
mod tests_counted;
#[cfg(test)]
mod tests_forms;
#[cfg(test)]
mod tests_parts;
#[cfg(test)]
mod tests_progress;
#[cfg(test)]
mod tests_refused;
#[cfg(test)]
mod tests_samples;
#[cfg(test)]
mod tests_sleep;
#[cfg(test)]
mod tests_streams;
