//! What is found of the greatest latency of a target where each group is replicated by white box, and a message is delivered
//! only once a majority of each of its destinations has answered.
#![tactic(auto)]

pub use accepted::{Accepted, read_accepted};
pub use best::best_schedule;
pub use finishing::{FinishLatency, finish_between};
pub use proving::finish_proof_answer;

mod accepted;
mod best;
mod finishing;
mod proving;
