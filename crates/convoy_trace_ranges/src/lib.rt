//! The links of a trace of real runs, and what their packets took: as ranges, and beside those of a scenario.
#![tactic(auto)]

pub use answering::trace_ranges_text;
pub use beside::beside_answer;
pub use links::{Link, links_of_text};
pub use ranges::TickRange;
pub use shares::{Shares, shares_of};
pub use tables::trace_table_text;

mod answering;
mod beside;
mod cells;
mod entry;
mod events;
mod links;
mod packets;
mod ranges;
mod reading;
mod shares;
mod tables;
mod texts;
mod traced;
