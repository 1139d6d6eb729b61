//! Messages from a collector to a worker.

use crate::jobs::Job;

/// A message to a worker: a new job, or the finish, after which no job follows.
#[derive(Debug, Drop)]
pub enum Message {
    /// A job to be graded.
    NewJob(Job),
    /// The finish: no job follows.
    Finish,
}
