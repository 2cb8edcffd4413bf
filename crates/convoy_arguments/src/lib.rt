//! What the words of a command line ask for, told before any input is read.
#![tactic(auto)]

pub use input::{Input, Inputs};
pub use judging::{judge, judge_bytes};
pub use limits::{MOST_READS, REJECTED};
pub use manner::Manner;
pub use verdict::Verdict;

mod asking;
mod escaping;
mod input;
mod judging;
mod limits;
mod manner;
mod options;
mod tasks;
mod verdict;
