//! Tests of the calls of `line_core` with failing allocations: each allocation of a call fails in
//! turn, and calls that allocate nothing are made with every allocation failing.

ghost use Rattle.std.specs.Prelude.{◌≤◌};

use crate::tests_lines::has_cells;
use alloc_failures::{CallResult, arm, disarm, expected_if, is_active, sweep};
use grid_core::{Cell, Clue, NoMemory};
use line_core::*;
use std::alloc::Global;
use std::test::Fail;

/// The deduced line of ten unknown cells with the clue 8.
static DEDUCED: [Cell; 10] = [
    Cell::Unknown,
    Cell::Unknown,
    Cell::Filled,
    Cell::Filled,
    Cell::Filled,
    Cell::Filled,
    Cell::Filled,
    Cell::Filled,
    Cell::Unknown,
    Cell::Unknown,
];

/// Reports whether ten unknown cells with the clue 8, which is `clue`, are deduced to `DEDUCED`.
fn is_deduced_well(tables: &mut Tables, clue: &Clue) -> bool
    requires { 10 ≤ tables.old }
{
    match deduce(tables, &Line::unknown(10), clue) {
        Some(line) => has_cells(&line, &DEDUCED),
        None => false,
    }
}

#[test]
fn tables_are_made_or_refused(rt: HostRuntime) -> Result<(), Fail> {
    let alloc = rt.alloc();
    let clue = Clue::from_numbers(alloc, &[8])?;
    sweep(alloc, || match Tables::new(alloc, 256) {
        Ok(mut tables) => expected_if(is_deduced_well(&mut tables, &clue)),
        Err(NoMemory) => CallResult::NoMemory,
    })?;
    Ok(())
}

/// Reports whether the outermost placings of ten unknown cells with the clue 8, which is `clue`,
/// start at 0 and at 2.
fn are_starts_well(starts: &mut Starts, clue: &Clue) -> bool {
    let line = Line::unknown(10);
    let left = leftmost(&line, clue, starts) && starts.list() == [0].as_slice();
    let right = rightmost(&line, clue, starts) && starts.list() == [2].as_slice();
    left && right
}

#[test]
fn starts_are_made_or_refused(rt: HostRuntime) -> Result<(), Fail> {
    let alloc = rt.alloc();
    let clue = Clue::from_numbers(alloc, &[8])?;
    sweep(alloc, || match Starts::new(alloc) {
        Ok(mut starts) => {
            expected_if(starts.list().is_empty() && are_starts_well(&mut starts, &clue))
        }
        Err(NoMemory) => CallResult::NoMemory,
    })?;
    Ok(())
}

/// Reports whether a line is set, copied, compared and hashed as expected.
fn are_lines_well() -> bool {
    let mut line = BitLine::<u64>::unknown(10);
    line.set(3, Cell::Filled);
    let mut copy = line.copy();
    copy.set(9, Cell::Blank);
    let changed = line.diff(&copy) == 1 << 9;
    line.copy_from(&copy);
    changed && line.is_same(&copy) && line.hash() == copy.hash()
}

#[test]
fn lines_and_deductions_take_no_memory(rt: HostRuntime) -> Result<(), Fail> {
    let alloc = rt.alloc();
    let clue = Clue::from_numbers(alloc, &[8])?;
    let mut tables = Tables::new(alloc, 256)?;
    let mut starts = Starts::new(alloc)?;
    arm(alloc, 0);
    let deduced = is_deduced_well(&mut tables, &clue);
    let started = are_starts_well(&mut starts, &clue);
    let well = are_lines_well();
    assert!(rt; !disarm(alloc), "no growth");
    assert!(rt; deduced && started && well);
    assert!(rt; is_active(alloc));
    Ok(())
}
