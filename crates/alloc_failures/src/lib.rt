//! Making allocations fail on purpose, for tests.
#![tactic(auto)]

mod alloc_failures;

pub use alloc_failures::{CallResult, SweepFailure, arm, disarm, expected_if, is_active, sweep};
