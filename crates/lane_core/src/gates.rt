//! Gates, which a worker's jobs pass before they are graded.

/// A gate that each job enters, by its number, before it is graded.
/// Workers share it. It may delay a job, but has to let each one through.
pub trait Gate {
    /// Lets the job of this number through. It always returns, but may take any time.
    fn enter(&self, number: u32);

    /// Called by a survey of this many entries once its puzzles are graded and before anything is
    /// written. It always returns. Does nothing unless the gate defines it.
    fn close(&self, _entries: usize) {}

    /// Called by a survey that can't start the thread of a worker. A gate that has a thread of its
    /// own ends it and returns true, and the survey tries again. It always returns. Does nothing
    /// unless the gate defines it.
    fn give_up_thread(&self) -> bool {
        false
    }
}

/// A gate that lets each job through at once.
#[derive(Clone, Copy, Debug)]
pub struct OpenGate;

impl Gate for OpenGate {
    fn enter(&self, _number: u32) {}
}
