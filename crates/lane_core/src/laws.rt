//! Laws of lanes. `answers_in_order` and `drained_lanes_are_answered` hold after any events from a
//! newly opened lane; `limits_are_numbers` shows the values of the limits.

ghost use Rattle.std.specs.Prelude.{◌≡◌, ℕ, List, length, take, true};
ghost use mathlib.Core.List.{IsPrefix};
ghost use Rattle.lane_core.specs.Messages.{jobs_of, finish_is_last};
ghost use Rattle.lane_core.specs.Answers.{AreAnswersTo};
ghost use Rattle.lane_core.specs.Lane.{Lane, LaneEvent, Run, initial_lane, IsAnswered, IsFinished, IsDrained};
ghost use Rattle.lane_core.specs.Ends.{front_lists, back_lists};
ghost use Rattle.lane_core.specs.declared.fronts.LaneFront.{LaneFront};
ghost use Rattle.lane_core.specs.declared.backs.LaneBack.{LaneBack};
ghost use Rattle.lane_core.specs.declared.jobs.TheConstants.{MAX_GUESSES};
ghost use Rattle.lane_core.specs.declared.lane_pair.TheConstants.{MAX_RING};
ghost use Rattle.lane_core.specs.declared.batches.TheConstants.{MAX_BATCH};
ghost use Rattle.lane_core.specs.declared.dealing.TheConstants.{MAX_TAKEN};

/// The answers put, followed by the one held, if any, are those to the jobs taken, one for each and
/// in the same order. So the answers received are those to the first jobs sent, as many as there
/// are answers. No message follows the finish.
#[tactic(auto, using(crate::proofs::SettlingLemmas::lawful))]
pub fn answers_in_order()
    ensures answered { (capacity : ℕ) (events : List LaneEvent) (lane : Lane)
        → Run (initial_lane capacity) events lane
        → IsAnswered lane.back }
    ensures taken { (capacity : ℕ) (events : List LaneEvent) (lane : Lane)
        → Run (initial_lane capacity) events lane
        → IsPrefix lane.back.taken lane.front.sent }
    ensures received { (capacity : ℕ) (events : List LaneEvent) (lane : Lane)
        → Run (initial_lane capacity) events lane
        → IsPrefix lane.front.received lane.back.put }
    ensures last { (capacity : ℕ) (events : List LaneEvent) (lane : Lane)
        → Run (initial_lane capacity) events lane
        → finish_is_last lane.front.sent ≡ true }
    ensures so_far { (capacity : ℕ) (events : List LaneEvent) (lane : Lane)
        → Run (initial_lane capacity) events lane
        → AreAnswersTo (take (length lane.front.received) (jobs_of lane.front.sent))
        lane.front.received }
{}

/// The answers that a finished and drained lane has received are those to the jobs sent, one for
/// each and in the same order.
#[tactic(auto, using(crate::proofs::SettlingLemmas::lawful))]
pub fn drained_lanes_are_answered()
    ensures { (capacity : ℕ) (events : List LaneEvent) (lane : Lane)
        → Run (initial_lane capacity) events lane
        → IsFinished lane.back → IsDrained lane.front lane.back
        → AreAnswersTo (jobs_of lane.front.sent) lane.front.received }
{}

/// For each `LaneBack` the answers put, followed by the one held, if any, are those to the jobs
/// taken, one for each and in the same order.
#[tactic(auto, using(crate::proofs::AnswersLemmas::back_is_answered))]
pub fn backs_are_answered()
    ensures { (back : LaneBack) → IsAnswered (back_lists back) }
{}

/// In what a `LaneFront` has sent, no message follows the finish.
pub fn fronts_end_with_the_finish()
    ensures { (front : LaneFront) → finish_is_last (front_lists front).sent ≡ true }
{}

/// The limits on guesses, on the capacities of lanes and on the answers that a turn takes have
/// these values.
pub fn limits_are_numbers()
    ensures guesses { MAX_GUESSES ≡ 1000000 }
    ensures ring { MAX_RING ≡ 64 }
    ensures batch { MAX_BATCH ≡ 10001 }
    ensures taken { MAX_TAKEN ≡ 64 }
{}
