//! The best order of a scenario's groups, by the rule of Lawler: of the groups that are left, that one is listed next of
//! which the greatest excess is the least where all others that are left stand behind it. What is told is the order, how
//! late each target is before and after, and why no order is better.
#![tactic(auto)]

pub use answering::{has_beyond, has_open, listing_answer, listing_text, order_answer};
pub use best::{Best, Reason, Row};
pub use choosing::best_order;
pub use convoy_tables::Format;
pub use excess::Excess;
pub use listing::listed;
pub use naming::order_line;
pub use spread::Spread;
pub use table::order_table;
pub use target::Target;
pub use targets::{are_judged, counted, targets_of};
pub use wanted::Wanted;

mod answering;
mod best;
pub mod best_order_laws;
mod cells;
mod choosing;
mod costs;
mod excess;
mod layout;
mod listing;
mod measuring;
mod naming;
mod reasons;
mod rows;
mod searching;
mod spread;
mod table;
mod target;
mod targets;
mod time_cells;
mod wanted;
