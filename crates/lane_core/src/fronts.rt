//! The collector's end of a lane.

ghost use Rattle.std.specs.Prelude.{◌≡◌, ◌+◌, ◌≤◌, length, true};
ghost use Rattle.rtrb.specs.Ring.{sent, known_free, producer_capacity};
ghost use Rattle.lane_core.specs.Messages.{has_finish, finish_is_last};

use crate::answers::Answer;
use crate::faults::{FinishFault, SendFault};
use crate::jobs::Job;
use crate::lanes::Lane;
use crate::messages::Message;
use rtrb::{Consumer, Producer};

/// The collector's end of a lane: it sends jobs and the finish, and receives answers.
/// No message follows the finish. The two ends may be in different threads.
#[derive(Drop)]
pub struct LaneFront {
    pub(crate) messages: Producer<Message>,
    pub(crate) answers: Consumer<Answer>,
    pub(crate) finished: bool,
    pub ghost noted: { finished ≡ has_finish (sent messages) },
    pub ghost last: { finish_is_last (sent messages) ≡ true },
    // A slot is known to be free until as many messages were sent as the ring holds. So no call
    // returns `Full` before that.
    pub ghost slots: { producer_capacity messages ≤ known_free messages + length (sent messages) },
}

impl LaneFront {
    ghost use Rattle.std.specs.Prelude.{◌≡◌};
    ghost use Rattle.lane_core.specs.Ends.{front_lists};
    ghost use Rattle.lane_core.specs.Messages.{has_finish};

    /// Reports whether the finish was sent.
    pub fn has_sent_finish(&self) -> bool
        ensures { result ≡ has_finish (front_lists self.now).sent }
    {
        self.finished
    }
}

impl Lane for LaneFront {
    ghost use Rattle.std.specs.Prelude.{refl};
    ghost use Rattle.rtrb.specs.Ring.{known_items};
    ghost use Rattle.lane_core.specs.Ends.{front_lists, front_capacity, SameFront, SameFront-refl, SameFront-trans, SameFront-capacity};

    ghost lists = { front_lists };

    ghost known_answers = { λ front. known_items front.answers };

    ghost capacity = { front_capacity };

    ghost same_lane = { SameFront };

    ghost same_lane_refl = { SameFront-refl };

    ghost same_lane_trans = { SameFront-trans };

    ghost same_capacity = { SameFront-capacity };

    #[tactic(auto, using(crate::proofs::MessagesLemmas::messages))]
    fn send(&mut self, job: Job) -> Result<(), SendFault> {
        if self.finished {
            return Err(SendFault::Finished(job));
        }
        // Tested before the job becomes a message, since the fault returns the job.
        if self.messages.is_full() {
            return Err(SendFault::Full(job));
        }
        self.messages.push_reserved(Message::NewJob(job));
        Ok(())
    }

    #[tactic(auto, using(crate::proofs::MessagesLemmas::messages))]
    fn finish(&mut self) -> Result<(), FinishFault> {
        if self.finished {
            return Err(FinishFault::Finished);
        }
        match self.messages.push(Message::Finish) {
            Ok(()) => {
                self.finished = true;
                Ok(())
            }
            Err(_) => Err(FinishFault::Full),
        }
    }

    fn take(&mut self) -> Option<Answer> {
        if self.answers.is_empty() {
            return None;
        }
        Some(self.answers.pop_known())
    }
}
