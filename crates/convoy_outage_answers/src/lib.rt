//! What is answered where outages are asked for: the latency of a target through them, and a survey of all targets with
//! what their latencies are through them.
#![tactic(auto)]

pub use answering::survey_through_answer;
pub use latency::{latency_through_answer, span_through};
pub use row_through::RowThrough;
pub use rows::survey_through;
pub use upper::outage_latency;

mod answering;
mod cells;
mod ends;
mod latency;
mod row_through;
mod rows;
mod table;
mod upper;
