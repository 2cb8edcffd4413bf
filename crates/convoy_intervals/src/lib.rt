//! Boxes of delays, and bounds that no schedule of a box exceeds.
#![tactic(auto)]

pub use bounds::bound;
pub use delay_box::DelayBox;
pub use spans::Span;
pub use times::{Window, arrivals, multicast_delays, proposal_delays, settlings};
pub use tracked::Tracked;

mod bounds;
pub mod box_laws;
mod delay_box;
mod greatest_ticks;
mod spans;
mod times;
mod tracked;
