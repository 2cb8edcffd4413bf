//! The report of a scenario: one page in HTML that stands alone, made of what other commands answer for the same text.
#![tactic(auto)]

pub use answering::report_answer;
pub use report::{Report, Run, Shown};

mod answering;
mod choosing;
mod digest;
mod map;
mod notes;
mod page;
mod pieces;
mod report;
mod running;
mod sections;
mod system;
