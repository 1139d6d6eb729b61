//! Jobs, answers, and lanes between a collector and a worker.
#![tactic(auto)]

mod answers;
mod backs;
mod batches;
mod dealing;
mod faults;
mod fronts;
mod gates;
mod grading;
mod jobs;
mod lane_pair;
mod lanes;
pub mod laws;
mod messages;
mod settling;
mod steps;

pub use answers::Answer;
pub use backs::LaneBack;
pub use batches::{BatchLane, MAX_BATCH};
pub use dealing::{MAX_TAKEN, deal};
pub use faults::{FinishFault, SendFault, SettleFault};
pub use fronts::LaneFront;
pub use gates::{Gate, OpenGate};
pub use grading::{grade, grade_by};
pub use jobs::{Job, MAX_GUESSES};
pub use lane_pair::{MAX_RING, open_lane};
pub use lanes::Lane;
pub use messages::Message;
pub use settling::settle;
pub use steps::Step;
