//! How slow each link may get, and how fast, before a deadline is missed: for each way on which packets travel a search
//! for the widest range with which the greatest latency, or the ceiling, keeps the deadline.
#![tactic(auto)]

pub use answering::budget_answer;
pub use convoy_tables::Format;
pub use drafting::widened;
pub use judging::room;
pub use kinds::{Budget, Room, Side, Target, Test, Way, Widening};
pub use rows::budgets;
pub use searching::room_by;
pub use targets::targets_of;
pub use ways::ways_of;

mod answering;
pub mod budget_laws;
mod cells;
mod drafting;
mod judging;
mod kinds;
mod rooms;
mod rows;
mod searching;
mod table;
mod targets;
mod ways;
