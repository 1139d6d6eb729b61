//! A collector's turn at a lane: jobs are sent, and answers taken.

ghost use Rattle.std.specs.Prelude.{◌≡◌, ◌≢◌, ◌↔◌, ◌⊎◌, ◌<◌, ◌≤◌, ◌++◌, [], List, length, IsTrue, true, vec_capacity, vec_len};
ghost use Rattle.std.specs.VecDeque.{deque_capacity, deque_len};
ghost use mathlib.Core.List.{IsPrefix};
ghost use Rattle.lane_core.specs.Messages.{has_finish, jobs_of};
ghost use Rattle.lane_core.specs.Dealing.{Deals, Grows};
ghost use Rattle.lane_core.specs.steps.Dealing.{Sends, SendsFinish, Takes};

use crate::answers::Answer;
use crate::faults::SendFault;
use crate::jobs::Job;
use crate::lanes::Lane;
use std::alloc::Global;
use std::collections::VecDeque;

/// The most answers that one turn takes.
pub const MAX_TAKEN: usize = 64;

/// Takes one turn at a lane. Sends jobs from the front of `waiting` until none is left or one is
/// refused, which is put back at the front; sends the finish if none is left; and appends answers
/// to `got`, at most 64 and no more than its capacity allows. Returns whether a message was
/// accepted or an answer was taken. Allocates nothing.
pub fn deal<L: Lane>(
    lane: &mut L,
    waiting: &mut VecDeque<Job, Global>,
    got: &mut Vec<Answer>,
) -> bool
    ensures lane { L.same_lane lane.old lane.new }
    ensures dealt { Deals (L.capacity lane.old) (L.lists lane.old) (L.lists lane.new)
        waiting.old.items waiting.new.items got.old.items got.new.items }
    ensures moved { IsTrue result ↔ Grows (L.lists lane.old) (L.lists lane.new) }
    ensures no_growth { (deque_capacity waiting.new ≡ deque_capacity waiting.old)
        × (vec_capacity got.new ≡ vec_capacity got.old) }
{
    // The three calls come before the test, which would skip the later ones once one is true.
    let sent = send_waiting(lane, waiting);
    let asked = ask_finish(lane, waiting);
    let taken = take_answers(lane, got);
    sent || asked || taken
}

/// Sends jobs from the front of `waiting` until none is left or one is refused, which is put back
/// at the front. Returns whether one was accepted.
fn send_waiting<L: Lane>(lane: &mut L, waiting: &mut VecDeque<Job, Global>) -> bool
    ensures lane { L.same_lane lane.old lane.new }
    ensures sent { Sends (L.capacity lane.old) (L.lists lane.old) (L.lists lane.new)
        waiting.old.items waiting.new.items }
    ensures moved { IsTrue result ↔ Grows (L.lists lane.old) (L.lists lane.new) }
    ensures no_growth { deque_capacity waiting.new ≡ deque_capacity waiting.old }
{
    let mut any = false;
    while let Some(job) = waiting.pop_front() {
        match lane.send(job) {
            Ok(()) => any = true,
            Err(SendFault::Finished(job)) | Err(SendFault::Full(job)) => {
                // Allocates nothing, since the job was popped from `waiting`.
                waiting.push_front_reserved(job);
                break;
            }
        }
    }
    any
}

/// Sends the finish if no job waits. Returns whether it was accepted.
fn ask_finish<L: Lane>(lane: &mut L, waiting: &VecDeque<Job, Global>) -> bool
    ensures lane { L.same_lane lane.old lane.new }
    ensures asked { SendsFinish (L.capacity lane.old) (L.lists lane.old) (L.lists lane.new)
        waiting.now.items }
    ensures moved { IsTrue result ↔ Grows (L.lists lane.old) (L.lists lane.new) }
{
    if !waiting.is_empty() {
        return false;
    }
    lane.finish().is_ok()
}

/// Appends answers to `got` while the lane has one and `got` has capacity for it, at most 64.
/// Returns whether one was taken.
fn take_answers<L: Lane>(lane: &mut L, got: &mut Vec<Answer>) -> bool
    ensures lane { L.same_lane lane.old lane.new }
    ensures taken { Takes (L.lists lane.old) (L.lists lane.new) got.old.items got.new.items }
    ensures moved { IsTrue result ↔ Grows (L.lists lane.old) (L.lists lane.new) }
    ensures no_growth { vec_capacity got.new ≡ vec_capacity got.old }
{
    let mut any = false;
    for _ in 0..MAX_TAKEN {
        // Tested first, since an answer that is taken cannot go back into the lane.
        if got.len() == got.capacity() {
            break;
        }
        let Some(answer) = lane.take() else {
            break;
        };
        got.push_reserved(answer);
        any = true;
    }
    any
}
