//! The worker's end of a lane.

ghost use Rattle.std.specs.Prelude.{◌≡◌, ◌+◌, ◌≤◌, ◌++◌, length, true, is_none, option_to_list};
ghost use Rattle.rtrb.specs.Ring.{sent, received, known_free, producer_capacity, SameProducer};
ghost use Rattle.lane_core.specs.steps.PutOrHold.{IsPutOrHeld};
ghost use Rattle.lane_core.specs.Messages.{has_finish, jobs_of};
ghost use Rattle.lane_core.specs.Answers.{AreAnswersTo};

use crate::answers::Answer;
use crate::gates::Gate;
use crate::grading::grade_by;
use crate::messages::Message;
use crate::steps::Step;
use rtrb::{Consumer, Producer};
use solve_core::Reporter;
use std::alloc::Global;

/// Puts an answer into the ring, or holds it if the ring is full.
/// Returns `Graded` in the first case and `Waiting` in the second.
fn put_or_hold(answers: &mut Producer<Answer>, held: &mut Option<Answer>, answer: Answer) -> Step
    requires free { held.old ≡ None }
    requires slots { producer_capacity answers.old
        ≤ known_free answers.old + length (sent answers.old) }
    ensures ring { SameProducer answers.old answers.new }
    ensures slots { producer_capacity answers.new
        ≤ known_free answers.new + length (sent answers.new) }
    ensures put_or_held { IsPutOrHeld (producer_capacity answers.old) answer result
        (sent answers.old) (sent answers.new) held.new }
{
    if answers.is_full() {
        *held = Some(answer);
        return Step::Waiting;
    }
    answers.push_reserved(answer);
    Step::Graded
}

/// The worker's end of a lane, which takes jobs, grades them and puts the answers.
/// The answers put, followed by the one held, if any, are those to the jobs taken, one for each and
/// in the same order. The two ends may be in different threads.
#[derive(Drop)]
pub struct LaneBack {
    pub(crate) messages: Consumer<Message>,
    pub(crate) answers: Producer<Answer>,
    pub(crate) held: Option<Answer>,
    pub(crate) finished: bool,
    // On the heap, since an end of a lane is moved by value.
    pub(crate) reporter: Box<Reporter>,
    pub ghost noted: { finished ≡ has_finish (received messages) },
    pub ghost free: { finished ≡ true → is_none held ≡ true },
    pub ghost answered: { ∥ AreAnswersTo (jobs_of (received messages))
        (sent answers ++ option_to_list held) ∥₁ },
    // A slot is known to be free until as many answers were put as the ring holds. So no step is
    // `Waiting` before that.
    pub ghost slots: { producer_capacity answers ≤ known_free answers + length (sent answers) },
}

impl LaneBack {
    ghost use Rattle.std.specs.Prelude.{◌≡◌, ◌↔◌, length};
    ghost use Rattle.lane_core.specs.Lane.{IsFinished};
    ghost use Rattle.lane_core.specs.Stepping.{Steps};
    ghost use Rattle.lane_core.specs.Ends.{back_lists, back_capacity, known_messages, SameBack};

    /// Takes one step, and waits for nothing but the gate. Once the finish was taken it returns
    /// `Done` and has no effect. Otherwise it puts the answer that is held; or, if none is, it
    /// takes a message, and if that is a job, the job enters the gate by its number, is graded, and
    /// its answer is put. An answer is held while its ring is full.
    #[tactic(auto, using(crate::proofs::MessagesLemmas::messages))]
    pub fn step<G: Gate>(&mut self, alloc: Global, gate: &G) -> Step
        ensures lane { SameBack self.old self.new }
        ensures lists { Steps (back_capacity self.old) result
            (back_lists self.old) (back_lists self.new) }
        ensures idle { result ≡ Step.Idle → length (known_messages self.old) ≡ 0 }
        ensures done { (result ≡ Step.Done) ↔ IsFinished (back_lists self.new) }
    {
        if self.finished {
            return Step::Done;
        }
        if let Some(answer) = self.held.take() {
            return put_or_hold(&mut self.answers, &mut self.held, answer);
        }
        if self.messages.is_empty() {
            return Step::Idle;
        }
        match self.messages.pop_known() {
            Message::Finish => {
                self.finished = true;
                Step::Done
            }
            Message::NewJob(job) => {
                gate.enter(job.number);
                let answer = grade_by(&mut self.reporter, alloc, job);
                put_or_hold(&mut self.answers, &mut self.held, answer)
            }
        }
    }
}
