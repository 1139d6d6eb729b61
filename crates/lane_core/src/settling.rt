//! Settling a lane, for which both of its ends are needed.

ghost use Rattle.std.specs.Prelude.{◌≡◌, length, take, true, IfErr, MatchResult};
ghost use Rattle.lane_core.specs.Messages.{jobs_of, finish_is_last};
ghost use Rattle.lane_core.specs.Answers.{AreAnswersTo};
ghost use Rattle.lane_core.specs.Lane.{IsFinished, IsDrained};
ghost use Rattle.lane_core.specs.Settling.{IsSettleFault};
ghost use Rattle.lane_core.specs.Ends.{front_lists, back_lists, AreOneLane, SameFront, SameBack};

use crate::backs::LaneBack;
use crate::faults::SettleFault;
use crate::fronts::LaneFront;

/// Settles a lane that is finished and drained: the answers received are then those to the jobs
/// sent, one for each and in the same order. Fails with `Unfinished` if the finish was not taken,
/// and otherwise with `NotDrained` if an answer is still in the ring; the error returns both ends,
/// unchanged. Both have to be of one lane, and may have been in different threads before.
pub fn settle(front: LaneFront, back: LaneBack) -> Result<(), (SettleFault, LaneFront, LaneBack)>
    requires { AreOneLane front back }
    ensures cases { MatchResult result
        (λ _. IsFinished (back_lists back)
        × IsDrained (front_lists front) (back_lists back))
        (λ e. IsSettleFault e.0 (front_lists front) (back_lists back)) }
    ensures answers { MatchResult result
        (λ _. AreAnswersTo (jobs_of (front_lists front).sent) (front_lists front).received)
        (λ _. AreAnswersTo
        (take (length (front_lists front).received) (jobs_of (front_lists front).sent))
        (front_lists front).received) }
    ensures last { finish_is_last (front_lists front).sent ≡ true }
    ensures one_lane { IfErr result (λ e. AreOneLane e.1 e.2) }
    ensures front_back { IfErr result
        (λ e. SameFront front e.1 × (front_lists e.1 ≡ front_lists front)) }
    ensures back_back { IfErr result
        (λ e. SameBack back e.2 × (back_lists e.2 ≡ back_lists back)) }
{
    let mut front = front;
    let mut back = back;
    // Called for its contract: the messages taken, and those in the ring, are those sent. As the
    // finish is last, all were taken if it was.
    back.messages.slots_beside(&mut front.messages);
    let waiting = front.answers.slots_beside(&mut back.answers);
    if !back.finished {
        return Err((SettleFault::Unfinished, front, back));
    }
    if waiting > 0 {
        return Err((SettleFault::NotDrained, front, back));
    }
    Ok(())
}
