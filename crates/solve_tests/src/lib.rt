//! Tests of `line_core` and `solve_core`.
#![tactic(auto)]

#[cfg(test)]
mod oracle_closing;
#[cfg(test)]
mod oracle_lines;
#[cfg(test)]
mod oracle_picks;
#[cfg(test)]
mod test_puzzles;
#[cfg(test)]
mod tests_closing;
#[cfg(test)]
mod tests_lines;
#[cfg(test)]
mod tests_refused;
#[cfg(test)]
mod tests_refused_lines;
