//! Opening lanes.

ghost use Rattle.std.specs.Prelude.{◌≡◌, ◌≤◌, IfOk};
ghost use Rattle.lane_core.specs.Lane.{initial_front, initial_back};
ghost use Rattle.lane_core.specs.Ends.{front_lists, back_lists, front_capacity, AreOneLane};

use crate::backs::LaneBack;
use crate::fronts::LaneFront;
use grid_core::NoMemory;
use rtrb::RingBuffer;
use solve_core::Reporter;
use std::alloc::Global;

/// The greatest capacity of a lane between two threads.
pub const MAX_RING: usize = 64;

/// Opens a lane whose rings hold `capacity` messages and as many answers, from 1 to 64. Returns the
/// collector's end and the worker's end, or `NoMemory` if an allocation fails.
pub fn open_lane(alloc: Global, capacity: usize) -> Result<(LaneFront, LaneBack), NoMemory>
    requires least { 1 ≤ capacity }
    requires most { capacity ≤ MAX_RING }
    ensures one_lane { IfOk result (λ ends. AreOneLane ends.0 ends.1) }
    ensures capacity { IfOk result (λ ends. front_capacity ends.0 ≡ capacity) }
    ensures front { IfOk result (λ ends. front_lists ends.0 ≡ initial_front) }
    ensures back { IfOk result (λ ends. back_lists ends.1 ≡ initial_back) }
{
    open_ends(alloc, capacity)
}

/// Opens a lane of any capacity, as `open_lane` does. The callers set limits of their own.
pub(crate) fn open_ends(alloc: Global, capacity: usize) -> Result<(LaneFront, LaneBack), NoMemory>
    ensures one_lane { IfOk result (λ ends. AreOneLane ends.0 ends.1) }
    ensures capacity { IfOk result (λ ends. front_capacity ends.0 ≡ capacity) }
    ensures front { IfOk result (λ ends. front_lists ends.0 ≡ initial_front) }
    ensures back { IfOk result (λ ends. back_lists ends.1 ≡ initial_back) }
{
    let (to_back, from_front) = RingBuffer::new(alloc, capacity)?;
    let (to_front, from_back) = RingBuffer::new(alloc, capacity)?;
    let front = LaneFront {
        messages: to_back,
        answers: from_back,
        finished: false,
    };
    let back = LaneBack {
        messages: from_front,
        answers: to_front,
        held: None,
        finished: false,
        reporter: Box::new(alloc, Reporter::new())?,
    };
    Ok((front, back))
}
