//! What is answered of texts in which messages follow others.
#![tactic(auto)]

pub use found::Found;
pub use late_run::late_run_answer;
pub use latency::workflow_latency_answer;
pub use proving::workflow_proof_answer;

mod found;
mod late_run;
mod latency;
mod proving;
mod seeking;
