//! What certificates, traces and kinds of messages answer without a search: whether a certificate is a valid one, and of the
//! scenario that is wanted; whether a trace is one of that; its links; and the ceilings of kinds.
#![tactic(auto)]

pub use accepted_lines::differs_line;
pub use checking::check_answer;
pub use fits::answer_fits;
pub use kinds::{answer_kinds, answer_worst_kind};
pub use links::{answer_beside, answer_trace_ranges, answer_trace_table};

mod accepted_lines;
pub mod check_laws;
mod checking;
mod fits;
mod kinds;
mod links;
