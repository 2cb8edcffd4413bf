//! What is told of kinds of messages: a table of their ceilings, and the greatest of all with traffic that comes near it.
#![tactic(auto)]

pub use table::kinds_answer;
pub use worst::worst_kind_answer;

mod cells;
mod table;
mod time_cells;
mod worst;
