//! Requests by which a test arms the failure tool that `tools/sweep.sh` runs it under
//! (`tools/sweep.c`). Without that tool no allocation fails, and the tests pass with ample memory.

use std::alloc::Global;

/// Arms the failure tool. Requesting `ARM_REQUEST + n` bytes makes the `n`-th allocation after it
/// fail, or, with `n` = 0, every later one. No machine grants a request of this size, so without
/// the tool it has no effect.
const ARM_REQUEST: usize = 1 << 61;

/// Disarms the failure tool. A request of exactly this many bytes fails if an allocation failed
/// since the tool was armed.
const DISARM_REQUEST: usize = 1_060_921;

/// More allocations than any call that is swept makes.
const MOST_GROWTHS: usize = 3000;

/// How a call under the failure tool ended.
#[derive(Clone, Copy, Debug, PartialEq, Eq)]
pub enum CallResult {
    /// With the result that it has if memory is available.
    Wanted,
    /// With the fault that an allocation failed.
    NoMemory,
    /// With any other result.
    Other,
}

/// Why `sweep` failed.
#[derive(Clone, Copy, Debug, PartialEq, Eq)]
pub enum SweepFailure {
    /// With the allocation of this number failing the call ended so: wrongly, or with `NoMemory`
    /// although no allocation failed.
    Refused(usize, CallResult),
    /// After the allocation of this number had failed the next call, with ample memory, ended so.
    Afterwards(usize, CallResult),
    /// The call makes more allocations than `MOST_GROWTHS`.
    Endless,
}

/// Returns `Wanted` if the result is the expected one, and `Other` if not.
pub fn expected_if(is_wanted: bool) -> CallResult {
    if is_wanted {
        CallResult::Wanted
    } else {
        CallResult::Other
    }
}

/// Makes the allocation of this number fail, counted from 1, or every one if `number` is 0.
pub fn arm(alloc: Global, number: usize) {
    let _request = Vec::<u8>::with_capacity(alloc, ARM_REQUEST.wrapping_add(number));
}

/// Lets allocations succeed again. Returns whether one failed since `arm`.
pub fn disarm(alloc: Global) -> bool {
    Vec::<u8>::with_capacity(alloc, DISARM_REQUEST).is_err()
}

/// Reports whether the failure tool works as asked: if it is there, an allocation fails and
/// `disarm` reports that; if not, neither happens.
pub fn is_active(alloc: Global) -> bool {
    arm(alloc, 0);
    let fails = Vec::<u8>::with_capacity(alloc, 1).is_err();
    disarm(alloc) == fails
}

/// Runs `call` with its first allocation failing, then with its second, and so on until none fails.
/// Each of these runs has to return the expected result, or `NoMemory` if an allocation did fail;
/// after each, a run with ample memory has to return the expected result. Returns how many
/// allocations were made to fail.
pub fn sweep<C: Fn() -> CallResult>(alloc: Global, call: C) -> Result<usize, SweepFailure>
    requires { C.IsAlwaysCallable call }
{
    for growths in 0..MOST_GROWTHS {
        let growth = growths + 1;
        arm(alloc, growth);
        let result = call();
        let refused = disarm(alloc);
        if result == CallResult::Other || result == CallResult::NoMemory && !refused {
            return Err(SweepFailure::Refused(growth, result));
        }
        let next = call();
        if next != CallResult::Wanted {
            return Err(SweepFailure::Afterwards(growth, next));
        }
        if !refused {
            return Ok(growths);
        }
    }
    Err(SweepFailure::Endless)
}
