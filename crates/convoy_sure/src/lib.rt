//! What is sure in a box: windows, from when to when messages may arrive and be committed, and sure
//! leads, by how much stamps surely exceed others.
#![tactic(auto)]

pub use messages::{Messages, all_messages, audiences, destinations, one_message};
pub use pairs::{list_pairs, target_group};
pub use ranks::top_of;
pub use sure::{Sure, lead_at};
pub use sure_arrivals::{is_earlier, may_be_earlier, those_after, those_later};
pub use sure_leads::sure_of;
pub use windows::{LAST_ARRIVAL, LAST_SETTLING, Windows};

mod cuts;
mod ends;
mod filling;
mod later_cuts;
mod messages;
mod pairs;
mod ranks;
mod sure;
mod sure_arrivals;
pub mod sure_laws;
mod sure_leads;
mod windows;
