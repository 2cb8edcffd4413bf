//! What is answered of the latency of a target in all cases of a text, where several senders may send its messages; at all
//! groups of its message; until its replicas have answered, or through outages; and until the word of its group is
//! back at the client.
#![tactic(auto)]

pub use answering::latency_of_cases_answer;
pub use late::Late;

mod answering;
mod cases;
mod finding;
mod found;
mod late;
mod telling;
mod totals;
