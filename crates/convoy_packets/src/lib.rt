//! The packets that a scenario's messages send, their ranges, and schedules of their delays.
#![tactic(auto)]

pub use fault::ListFault;
pub use instance::Instance;
pub use order::{GREATEST_RANK, Order};
pub use packet::{MOST_PACKETS, Packet};
pub use schedule::Schedule;
pub use table::PacketTable;
pub use table_places::{PLACES, place};

mod fault;
mod instance;
mod listing;
mod order;
mod order_list;
mod packet;
mod schedule;
pub mod schedule_laws;
mod slots;
mod table;
mod table_places;
