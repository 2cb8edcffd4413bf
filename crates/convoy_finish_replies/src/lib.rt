//! What is answered of texts of certificates of finishes: whether one is valid, and of what is wanted, and why its latency is
//! what it is.
#![tactic(auto)]

pub use answering::{check_finish_answer, explain_finish};
pub use forms::{is_finish_certificate, scenario_text};

mod answering;
mod comparing;
mod explaining;
mod forms;
