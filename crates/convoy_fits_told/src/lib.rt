//! How a verdict on a trace is told: that it fits, with the latency of the target, or where it departs.
#![tactic(auto)]

pub use answering::fits_answer;
pub use scale::Scale;
pub use skew::Skew;

mod answering;
mod counting;
mod scale;
mod skew;
mod words;
