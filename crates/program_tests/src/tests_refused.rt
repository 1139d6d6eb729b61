//! Tests of `stop_text` with failing allocations.

use crate::tests::LINES;
use alloc_failures::{CallResult, SweepFailure, expected_if, sweep};
use grid_core::NoMemory;
use program::{Stop, stop_text};
use std::alloc::Global;
use std::test::Fail;

/// Returns how `stop_text` ended, given the line that is expected.
fn result_of(text: Result<Vec<u8>, NoMemory>, line: &[u8]) -> CallResult {
    match text {
        Ok(text) => expected_if(text.as_slice() == line),
        Err(NoMemory) => CallResult::NoMemory,
    }
}

/// Makes each allocation of `stop_text` fail in turn. Returns how many failed.
fn sweep_stop(alloc: Global, stop: &Stop, line: &[u8]) -> Result<usize, SweepFailure> {
    sweep(alloc, || result_of(stop_text(alloc, stop), line))
}

#[test]
fn stop_lines_are_made_or_refused(rt: HostRuntime) -> Result<(), Fail> {
    for (stop, line) in &LINES {
        sweep_stop(rt.alloc(), stop, line)?;
    }
    Ok(())
}
