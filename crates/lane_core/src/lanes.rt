//! The interface of a lane to its collector.

ghost use Rattle.std.specs.Prelude.{◌≡◌, ◌↔◌, ◌≤◌, ℕ, List, length, true, false, OnOk, OnErr, IfErr, IfSome, IfNone};
ghost use Rattle.lane_core.specs.declared.answers.Answer.{Answer};
ghost use Rattle.lane_core.specs.Messages.{has_finish};
ghost use Rattle.lane_core.specs.Lane.{FrontLists, PutsMessage, ReceivesAnswer};

use crate::answers::Answer;
use crate::faults::{FinishFault, SendFault};
use crate::jobs::Job;
use crate::messages::Message;

/// A lane as its collector uses it, who sends jobs and then the finish, and receives the answers.
/// No call waits, and none allocates.
pub trait Lane {
    /// The messages sent, and the answers received.
    ghost lists: { Self → FrontLists };

    /// The answers that this end has seen and not received.
    ghost known_answers: { Self → List Answer };

    /// How many messages, and how many answers, the lane's rings hold.
    ghost capacity: { Self → ℕ };

    /// What no call of the collector changes: which lane it is and, where one value has both ends,
    /// what the worker did.
    ghost same_lane: { Self → Self → Type 0 };

    /// Sends a job, or returns it in the fault: `Finished` exactly if the finish was sent before,
    /// and otherwise `Full`, which occurs only once the lane has accepted at least as many messages
    /// as its capacity.
    fn send(&mut self, job: Job) -> Result<(), SendFault>
        ensures lane { same_lane self.old self.new }
        ensures ok { OnOk result
            (PutsMessage (Message.NewJob job) (lists self.old) (lists self.new)) }
        ensures err { OnErr result (lists self.new ≡ lists self.old) }
        ensures finished { (result ≡ Err (SendFault.Finished job))
            ↔ (has_finish (lists self.old).sent ≡ true) }
        ensures full { IfErr result (λ fault. has_finish (lists self.old).sent ≡ false
            → (fault ≡ SendFault.Full job) × (capacity self.old ≤ length (lists self.old).sent)) };

    /// Sends the finish, after which no job is accepted. Fails with `Finished` exactly if it was
    /// sent before, and otherwise with `Full`, which occurs only once the lane has accepted at
    /// least as many messages as its capacity.
    fn finish(&mut self) -> Result<(), FinishFault>
        ensures lane { same_lane self.old self.new }
        ensures ok { OnOk result (PutsMessage Message.Finish (lists self.old) (lists self.new)) }
        ensures err { OnErr result (lists self.new ≡ lists self.old) }
        ensures finished { (result ≡ Err FinishFault.Finished)
            ↔ (has_finish (lists self.old).sent ≡ true) }
        ensures full { IfErr result (λ fault. has_finish (lists self.old).sent ≡ false
            → (fault ≡ FinishFault.Full) × (capacity self.old ≤ length (lists self.old).sent)) };

    /// Receives the oldest answer that was put and not yet received. Returns `None` if this end
    /// sees none.
    fn take(&mut self) -> Option<Answer>
        ensures lane { same_lane self.old self.new }
        ensures some { IfSome result
            (λ answer. ReceivesAnswer answer (lists self.old) (lists self.new)) }
        ensures none { IfNone result (lists self.new ≡ lists self.old) }
        ensures idle { IfNone result (length (known_answers self.old) ≡ 0) };

    ghost same_lane_refl: { (a : Self) → same_lane a a };

    ghost same_lane_trans: { (a b c : Self) → same_lane a b → same_lane b c → same_lane a c };

    ghost same_capacity: { (a b : Self) → same_lane a b → capacity b ≡ capacity a };
}
