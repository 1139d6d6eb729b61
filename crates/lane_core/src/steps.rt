//! The outcomes of a worker's step.

/// The outcome of a worker's step.
#[derive(Clone, Copy, Debug, PartialEq, Eq)]
pub enum Step {
    /// Nothing was done: no answer is held, and this end sees no message.
    Idle,
    /// An answer was put into the ring.
    Graded,
    /// An answer is held: the ring of answers is full, as far as this end sees.
    Waiting,
    /// The finish was taken, by this step or an earlier one.
    Done,
}
