//! Tests of `check_text`.
#![tactic(auto)]

#[cfg(test)]
mod tests;
#[cfg(test)]
mod tests_messages;
#[cfg(test)]
mod tests_refused;
#[cfg(test)]
mod tests_refused_messages;
#[cfg(test)]
mod tests_refused_texts;
#[cfg(test)]
mod tests_texts;
#[cfg(test)]
mod tests_windows;
