//! The commands: what each answers for a text, as a value.
#![tactic(auto)]

pub use analyse::analyse_answer;
pub use answer::{Answer, Known};
pub use asking::{Asking, answer_to_fault, ask, ask_certificate};
pub use ceiling::ceiling_answer;
pub use convoy_branch::{
    Bounds, DEFAULT_LIMIT, DEFAULT_SIMULATIONS, Gate, MOST_SIMULATIONS, MOST_TICKETS, MOST_WORKERS,
    NoGate, Options, Ways, lead_share, plain_share,
};
pub use convoy_packets::ListFault;
pub use convoy_scenario::{Duration, ScenarioFault, TimeUnit};
pub use convoy_streams::ReadFault;
pub use done::Done;
pub use fault::{Fault, FaultEnding, OrderFault, SweepCause, fault_line, fault_row};
pub use first::first_answer;
pub use latency::latency_answer;
pub use limits::{DEFAULT_STEPS, LONGEST_CERTIFICATE, LONGEST_JOB, MOST_STEPS};
pub use ranging::ranges_answer;
pub use refusal::text_fault_line;
pub use reply_lines::{push_ceiling, push_open, push_outside, push_ticks_line, push_verdict};
pub use search::search_instance;
pub use telling::{Telling, tell};
pub use verdict::{Verdict, deadline_at, judged, margin_of};
pub use watch::Watch;
pub use with_ceiling::explain_with_ceiling;

mod analyse;
mod answer;
mod asking;
mod ceiling;
pub mod command_laws;
mod done;
mod fault;
mod first;
mod latency;
mod limits;
mod ranging;
mod refusal;
mod reply_lines;
mod scheduled;
mod search;
mod telling;
mod verdict;
mod watch;
mod with_ceiling;
