//! The errors of lanes.

use crate::jobs::Job;
use thiserror::Error;

/// Why a job was not accepted. Each variant returns the job.
#[derive(Debug, Drop, Error)]
pub enum SendFault {
    /// The finish was sent before.
    #[error("the finish was sent")]
    Finished(Job),
    /// The ring of messages is full, as far as this end sees. This occurs only once the lane has
    /// accepted at least as many messages as its capacity.
    #[error("the lane is full")]
    Full(Job),
}

/// Why the finish was not accepted.
#[derive(Clone, Copy, Debug, PartialEq, Eq, Error)]
pub enum FinishFault {
    /// The finish was sent before.
    #[error("the finish was sent")]
    Finished,
    /// The ring of messages is full, as far as this end sees. This occurs only once the lane has
    /// accepted at least as many messages as its capacity.
    #[error("the lane is full")]
    Full,
}

/// Why a lane was not settled.
#[derive(Clone, Copy, Debug, PartialEq, Eq, Error)]
pub enum SettleFault {
    /// The finish was not taken.
    #[error("the finish was not taken")]
    Unfinished,
    /// The finish was taken, but an answer is still in the ring.
    #[error("an answer was not received")]
    NotDrained,
}
